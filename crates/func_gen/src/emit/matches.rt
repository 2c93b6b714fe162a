//! Finished blocks become the arms of a match.

ghost use Rattle.std.specs.Prelude.{◌≡◌, ℕ, true, length, replicate, reverse, IfOk};
ghost use Rattle.std.specs.List.{AllByRecursion, list_all};
ghost use Rattle.abi_bindgen.specs.Instructions.{HasBlocks};
ghost use Rattle.func_gen.specs.InwardCode.{IsInwardBlock, is_inward_arm};
ghost use Rattle.func_gen.specs.MatchForms.{BindsMatch, LowersBy, UsesArms, is_lowerable, lowered_arm, lowered_arms, lowered_body, match_names, result_names, tail_of};
ghost use Rattle.func_gen.specs.Meaning.{func_meaning};
ghost use Rattle.func_gen.specs.Scope.{names_at};
ghost use Rattle.func_gen.specs.Operand.{is_operand};

use crate::case_form::{CaseForm, case_pattern};
use crate::emit::parts::{operand_exprs, part_names};
use crate::function_bindgen::{FinishedBlock, FunctionBindgen};
use crate::inward::inward_block;
use crate::operand::{copy_expr, copy_names};
use crate::scope::LocalName;
use rust_tree::{Arm, Block, Expr, MatchNames, Stmt};
use std::alloc::Global;
use wit_model::{List, OutOfMemory, Text};

/// What stands last: nothing, the one expression, or a tuple of several.
fn tail_of(es: List<Expr>) -> Option<Expr>
    ensures { result ≡ tail_of es }
{
    if es.len() > 1 {
        return Some(Expr::Tuple(es));
    }
    es.into_vec().pop()
}

/// The names of what a match gives.
fn match_names(alloc: Global, names: &[Text]) -> Result<MatchNames, OutOfMemory>
    ensures { IfOk result (λ m. m ≡ match_names names.now) }
{
    match names {
        [] => Ok(MatchNames::Nothing),
        [name] => Ok(MatchNames::One(name.copy(alloc)?)),
        _ => Ok(MatchNames::Parts(copy_names(names, alloc)?)),
    }
}

/// The names of locals for so many results, which get one number.
#[tactic(auto, unfolding(crate::specs::MatchForms::result_prefix))]
fn result_locals(alloc: Global, count: u32) -> Result<List<LocalName<'static>>, OutOfMemory>
    ensures { IfOk result (λ names. (t : ℕ) → names_at names t ≡ result_names count t) }
{
    if count != 1 {
        return part_names(alloc, "result", count);
    }
    let mut names = List::new(alloc);
    names.push(LocalName {
        prefix: "result",
        part: None,
    })?;
    Ok(names)
}

/// The code of a block that gives so many results.
fn lowered_body(alloc: Global, block: FinishedBlock, count: u32) -> Result<Block, OutOfMemory>
    requires many { length block.results ≡ count }
    requires inward { IsInwardBlock block }
    ensures body { IfOk result (λ b. b ≡ lowered_body block) }
    ensures fits { IfOk result (λ b. is_lowerable count block ≡ true) }
{
    let FinishedBlock {
        number: _,
        names: _,
        stmts,
        results,
    } = block;
    let es = operand_exprs(alloc, results.as_slice())?;
    Ok(inward_block(stmts, tail_of(es)))
}

/// The arm of a case, whose block gives so many results.
fn lowered_arm(
    alloc: Global,
    case: &CaseForm,
    block: FinishedBlock,
    count: u32,
) -> Result<Arm, OutOfMemory>
    requires many { length block.results ≡ count }
    requires inward { IsInwardBlock block }
    ensures arm { IfOk result (λ a. a ≡ lowered_arm case.now block) }
    ensures fits { IfOk result (λ a. is_lowerable count block ≡ true) }
{
    let number = block.number;
    let body = lowered_body(alloc, block, count)?;
    let pattern = case_pattern(alloc, case, number)?;
    Ok(Arm { pattern, body })
}

/// The arms of cases, of whose blocks the last one is the first. They are taken away.
fn lowered_arms(
    alloc: Global,
    cases: &[CaseForm],
    left: &mut Vec<FinishedBlock>,
    count: u32,
) -> Result<List<Arm>, OutOfMemory>
    requires many { length cases.now ≡ length left.old.items }
    requires each { AllByRecursion (λ b. length b.results ≡ count) (reverse left.old.items) }
    requires inward { AllByRecursion IsInwardBlock (reverse left.old.items) }
    ensures arms { IfOk result (λ arms. arms ≡ lowered_arms cases.now (reverse left.old.items)) }
    ensures fit { IfOk result (λ arms. list_all (is_lowerable count) (reverse left.old.items) ≡ true) }
{
    let mut arms = List::new(alloc);
    for case in cases {
        let Some(block) = left.pop() else {
            unreachable!()
        };
        arms.push(lowered_arm(alloc, case, block, count)?)?;
    }
    Ok(arms)
}

impl FunctionBindgen<'_> {
    /// The arms of cases, made of the blocks that were finished last, which are kept no more. Each block gives so many results.
    fn use_arms(&mut self, cases: &[CaseForm], count: u32) -> Result<List<Arm>, OutOfMemory>
        requires blocks { HasBlocks func_meaning (replicate (length cases.now) count) self.old }
        ensures { IfOk result (λ arms. UsesArms cases.now count arms self.old self.new) }
    {
        let used = self.use_blocks(cases.len())?;
        let mut blocks = used.into_vec();
        let arms = lowered_arms(self.alloc, cases, &mut blocks, count)?;
        Ok(arms)
    }

    /// The names of new locals for so many results, which a match with these arms gives.
    fn bind_match(
        &mut self,
        e: &Expr,
        arms: List<Arm>,
        count: u32,
    ) -> Result<List<Text>, OutOfMemory>
        requires operand { is_operand e.now ≡ true }
        requires inward { list_all is_inward_arm arms ≡ true }
        ensures { IfOk result (λ names. BindsMatch e.now arms count names self.old self.new) }
    {
        let locals = result_locals(self.alloc, count)?;
        let names = self.scope.declare_all(self.alloc, locals.as_slice())?;
        let bound = match_names(self.alloc, names.as_slice())?;
        let e = copy_expr(e, self.alloc)?;
        self.code.stmts.push(Stmt::Match(bound, e, arms))?;
        Ok(names)
    }

    /// The names of new locals for what the match of a value gives, with an arm for each case, of whose blocks each gives so many results.
    pub(crate) fn lower_cases(
        &mut self,
        cases: &[CaseForm],
        e: &Expr,
        count: u32,
    ) -> Result<List<Text>, OutOfMemory>
        requires operand { is_operand e.now ≡ true }
        requires blocks { HasBlocks func_meaning (replicate (length cases.now) count) self.old }
        ensures { IfOk result (λ names. LowersBy cases.now e.now count names self.old self.new) }
    {
        let arms = self.use_arms(cases, count)?;
        let names = self.bind_match(e, arms, count)?;
        Ok(names)
    }
}
