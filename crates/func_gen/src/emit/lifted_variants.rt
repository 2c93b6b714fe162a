//! Finished blocks become the arms of a match by numbers, of which the last one tests its number: words become the cases of variants.

ghost use Rattle.std.specs.Prelude.{◌≡◌, ◌<◌, ◌+◌, ◌≤◌, ◌^◌, [], ◌∷◌, false, true, length, reverse, take, IfOk, OnOk};
ghost use Rattle.std.specs.List.{AllByRecursion, list_all};
ghost use Rattle.rust_tree.specs.declared.pattern.ArmPattern.TheVariants as pattern;
ghost use Rattle.rust_tree.specs.declared.stmt.Stmt.TheVariants as stmt;
ghost use Rattle.wit_model.specs.Bytes.{Bytes};
ghost use Rattle.wrapper_run.specs.Inward as spec;
ghost use Rattle.abi_bindgen.specs.Instructions.{Emits, IsSendable};
ghost use Rattle.abi_bindgen.specs.declared.instruction.Instruction.TheVariants as instruction;
ghost use Rattle.func_gen.specs.declared.function_bindgen.FinishedBlock.{FinishedBlock};
ghost use Rattle.func_gen.specs.InwardCode.{IsInwardBlock};
ghost use Rattle.func_gen.specs.LiftedCases.{LiftsVariantBy, MemberArms, NamesCase, is_inward_case, is_liftable, last_body};
ghost use Rattle.func_gen.specs.MatchForms.{arm_of};
ghost use Rattle.func_gen.specs.Operand.{is_operand};
ghost use Rattle.func_gen.specs.Meaning.{func_meaning};
ghost use Rattle.func_gen.specs.Scope.{is_used};

use crate::added::only_expr;
use crate::blocks_used::parted;
use crate::case_form::CaseForm;
use crate::emit::lifted_cases::{case_body, lifted_arms};
use crate::emit::variants::variant_forms;
use crate::function_bindgen::{FinishedBlock, FunctionBindgen};
use crate::operand::{ExprOperand, copy_expr};
use crate::scope::{LocalName, numbered};
use rust_tree::{Arm, ArmPattern, Expr, MatchNames, Stmt};
use std::alloc::Global;
use wit_model::{List, OutOfMemory, Resolve, Text, TypeId};

/// A statement before others.
fn stmts_behind(first: Stmt, later: List<Stmt>) -> Result<List<Stmt>, OutOfMemory>
    ensures { IfOk result (λ stmts. stmts ≡ first ∷ later) }
{
    let mut stmts = later.into_vec();
    stmts.insert(0, first)?;
    Ok(List::from_vec(stmts))
}

/// The statements of the last case, which tests its number first.
fn tested_stmts(
    alloc: Global,
    name: &Text,
    number: u32,
    later: List<Stmt>,
) -> Result<List<Stmt>, OutOfMemory>
    ensures { IfOk result (λ stmts. stmts ≡ stmt.AssertLast name.now number ∷ later) }
{
    let test = Stmt::AssertLast(name.copy(alloc)?, number);
    stmts_behind(test, later)
}

/// The arm of the last case, which has the number under a name that the block does not have in reach.
fn last_arm(
    alloc: Global,
    name: Text,
    number: u32,
    case: &CaseForm,
    block: FinishedBlock,
) -> Result<Arm, OutOfMemory>
    requires few { is_liftable block ≡ true }
    requires inward { is_inward_case case.now ≡ true }
    requires stmts { IsInwardBlock block }
    requires unnamed { is_used block.names name ≡ false }
    ensures arm { IfOk result (λ a. a ≡ arm_of (pattern.Name name) (last_body name number case.now block)) }
    ensures inward { IfOk result (λ a. spec.is_inward (last_body name number case.now block) ≡ true) }
{
    let FinishedBlock {
        number: _,
        names: _,
        stmts: later,
        results,
    } = block;
    let stmts = tested_stmts(alloc, &name, number, later)?;
    let body = case_body(alloc, case, stmts, results.as_slice())?;
    let pattern = ArmPattern::Name(name);
    Ok(Arm { pattern, body })
}

/// The arms of a variant's cases, made of blocks of which the last one is the first. The arm of the last case has the number under a name
/// that none of them has in reach.
fn member_arms(
    alloc: Global,
    cases: &[CaseForm],
    last: &CaseForm,
    number: Text,
    blocks: List<FinishedBlock>,
) -> Result<List<Arm>, OutOfMemory>
    requires many { length blocks ≡ length cases.now + 1 }
    requires low { length cases.now < 2 ^ 32 }
    requires few { list_all is_liftable (reverse blocks) ≡ true }
    requires inward { list_all is_inward_case cases.now ≡ true }
    requires inward_last { is_inward_case last.now ≡ true }
    requires stmts { AllByRecursion IsInwardBlock blocks }
    requires unnamed { AllByRecursion (λ (b : FinishedBlock). is_used b.names number ≡ false) blocks }
    ensures { IfOk result (λ arms. MemberArms cases.now last.now number blocks arms) }
{
    let (block, others) = parted(blocks);
    let mut arms = lifted_arms(alloc, cases, others)?;
    let other = last_arm(alloc, number, cases.len() as u32, last, block)?;
    arms.push(other)?;
    Ok(arms)
}

impl FunctionBindgen<'_> {
    /// The names of new locals, for the number that the last arm tests and for the case that a match gives.
    fn name_case(&mut self) -> Result<(Text, Text), OutOfMemory>
        ensures { IfOk result (λ names. NamesCase names.0 names.1 self.old self.new) }
    {
        let number = LocalName {
            prefix: "n",
            part: None,
        };
        let value = LocalName {
            prefix: "v",
            part: None,
        };
        let t = self.scope.declare(self.alloc, &[number, value])?;
        let tested = numbered(self.alloc, number, t)?;
        let name = numbered(self.alloc, value, t)?;
        Ok((tested, name))
    }

    /// The name of a new local for the case that a word is, with an arm for each case. The last case is that of every other number: its arm
    /// has the number under a name, and tests it.
    fn lift_members(
        &mut self,
        cases: &[CaseForm],
        last: &CaseForm,
        e: &Expr,
    ) -> Result<Text, OutOfMemory>
        requires operand { is_operand e.now ≡ true }
        requires low { length cases.now < 2 ^ 32 }
        requires there { length cases.now + 1 ≤ length self.old.finished }
        requires few { list_all is_liftable (take (length cases.now + 1) (reverse self.old.finished)) ≡ true }
        requires inward { list_all is_inward_case cases.now ≡ true }
        requires inward_last { is_inward_case last.now ≡ true }
        ensures { IfOk result (λ v. (n : Bytes) × LiftsVariantBy cases.now last.now e.now n v self.old self.new) }
    {
        let blocks = self.use_blocks(cases.len() + 1)?;
        let (number, name) = self.name_case()?;
        let arms = member_arms(self.alloc, cases, last, number, blocks)?;
        let copy = name.copy(self.alloc)?;
        let e = copy_expr(e, self.alloc)?;
        self.add_effect(Stmt::Match(MatchNames::One(copy), e, arms))?;
        Ok(name)
    }

    pub(crate) fn lift_variant(
        &mut self,
        resolve: &Resolve,
        id: TypeId,
        operands: &List<ExprOperand>,
        results: &mut List<ExprOperand>,
    ) -> Result<(), OutOfMemory>
        requires sendable { IsSendable func_meaning resolve.now (instruction.VariantLift id) operands.now self.old }
        requires empty { results.old ≡ [] }
        ensures { OnOk result (Emits func_meaning resolve.now.types (instruction.VariantLift id) operands.now results.new self.old self.new) }
    {
        let forms = variant_forms(self.alloc, resolve, self.tables.sites.as_slice(), id)?;
        let mut cases = forms.into_vec();
        let Some(last) = cases.pop() else {
            unreachable!()
        };
        let e = only_expr(operands);
        let name = self.lift_members(cases.as_slice(), &last, e)?;
        let expr = Expr::Local(name);
        results.push(ExprOperand { expr, kept: false })?;
        Ok(())
    }
}
