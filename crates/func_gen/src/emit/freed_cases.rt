//! Finished blocks that give nothing become the arms of a match by numbers.

ghost use Rattle.std.specs.Prelude.{◌≡◌, ◌+◌, [], true, length, map, replicate, reverse, IfOk, OnOk};
ghost use Rattle.std.specs.List.{AllByRecursion, list_all};
ghost use Rattle.rust_tree.specs.declared.pattern.ArmPattern.TheVariants as pattern;
ghost use Rattle.wrapper_run.specs.Inward as spec;
ghost use Rattle.abi_bindgen.specs.Instructions.{Emits, HasBlocks, IsSendable};
ghost use Rattle.abi_bindgen.specs.declared.instruction.Instruction.TheVariants as instruction;
ghost use Rattle.func_gen.specs.InwardCode.{IsInwardBlock};
ghost use Rattle.func_gen.specs.LiftedCases.{FreesBy, freed_body, numbered_arms};
ghost use Rattle.func_gen.specs.MatchForms.{arm_of};
ghost use Rattle.func_gen.specs.Operand.{is_operand};
ghost use Rattle.func_gen.specs.Meaning.{func_meaning};

use crate::added::only_expr;
use crate::blocks_used::parted;
use crate::function_bindgen::{FinishedBlock, FunctionBindgen};
use crate::inward::inward_block;
use crate::operand::{ExprOperand, copy_expr};
use rust_tree::{Arm, ArmPattern, Block, Expr, MatchNames, Stmt};
use std::alloc::Global;
use wit_model::{List, OutOfMemory, Resolve};

/// The code of a block that gives nothing.
fn freed_body(block: FinishedBlock) -> Block
    requires none { block.results ≡ [] }
    requires stmts { IsInwardBlock block }
    ensures body { result ≡ freed_body block }
    ensures inward { spec.is_inward result ≡ true }
{
    let FinishedBlock {
        number: _,
        names: _,
        stmts,
        results: _,
    } = block;
    inward_block(stmts, None)
}

/// The arm of a block by its number.
fn freed_arm(number: u32, block: FinishedBlock) -> Arm
    requires none { block.results ≡ [] }
    requires stmts { IsInwardBlock block }
    ensures arm { result ≡ arm_of (pattern.Number number) (freed_body block) }
    ensures inward { spec.is_inward (freed_body block) ≡ true }
{
    let body = freed_body(block);
    let pattern = ArmPattern::Number(number);
    Arm { pattern, body }
}

/// The arms of so many blocks by their numbers, of which the last one is the first.
fn freed_arms(
    alloc: Global,
    count: u32,
    blocks: List<FinishedBlock>,
) -> Result<List<Arm>, OutOfMemory>
    requires many { length blocks ≡ count }
    requires none { AllByRecursion (λ b. b.results ≡ []) (reverse blocks) }
    requires stmts { AllByRecursion IsInwardBlock (reverse blocks) }
    ensures arms { IfOk result (λ arms. arms ≡ numbered_arms 0 (map freed_body (reverse blocks))) }
    ensures inward { IfOk result (λ arms. list_all spec.is_inward (map freed_body (reverse blocks)) ≡ true) }
{
    let mut left = blocks.into_vec();
    let mut arms = List::new(alloc);
    for k in 0..count {
        let Some(block) = left.pop() else {
            unreachable!()
        };
        arms.push(freed_arm(k, block))?;
    }
    Ok(arms)
}

impl FunctionBindgen<'_> {
    /// So many blocks are run by their numbers, and the one that was finished last for any other number.
    fn free_cases(&mut self, count: u32, e: &Expr) -> Result<(), OutOfMemory>
        requires operand { is_operand e.now ≡ true }
        requires blocks { HasBlocks func_meaning (replicate (count + 1) 0) self.old }
        ensures { OnOk result (FreesBy count e.now self.old self.new) }
    {
        let blocks = self.use_blocks(count as usize + 1)?;
        let (last, others) = parted(blocks);
        let mut arms = freed_arms(self.alloc, count, others)?;
        let body = freed_body(last);
        arms.push(Arm {
            pattern: ArmPattern::AnyOther,
            body,
        })?;
        let e = copy_expr(e, self.alloc)?;
        self.add_effect(Stmt::Match(MatchNames::Nothing, e, arms))?;
        Ok(())
    }

    pub(crate) fn free_variant(
        &mut self,
        resolve: &Resolve,
        count: u32,
        operands: &List<ExprOperand>,
        results: &mut List<ExprOperand>,
    ) -> Result<(), OutOfMemory>
        requires sendable { IsSendable func_meaning resolve.now (instruction.GuestDeallocateVariant count) operands.now self.old }
        requires empty { results.old ≡ [] }
        ensures { OnOk result (Emits func_meaning resolve.now.types (instruction.GuestDeallocateVariant count) operands.now results.new self.old self.new) }
    {
        let e = only_expr(operands);
        self.free_cases(count - 1, e)?;
        Ok(())
    }
}
