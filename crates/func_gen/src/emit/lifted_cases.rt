//! Finished blocks become the arms of a match by numbers.

ghost use Rattle.std.specs.Prelude.{◌≡◌, ◌<◌, ◌≤◌, ◌^◌, [], ◌∷◌, true, codes, length, reverse, take, IfOk, OnOk};
ghost use Rattle.std.specs.List.{AllByRecursion, list_all};
ghost use Rattle.rust_tree.specs.declared.stmt.MatchNames.TheVariants as names_of;
ghost use Rattle.rust_tree.specs.declared.stmt.Stmt.TheVariants as stmt;
ghost use Rattle.rust_tree.specs.declared.pattern.ArmPattern.TheVariants as pattern;
ghost use Rattle.wrapper_run.specs.Inward as spec;
ghost use Rattle.abi_bindgen.specs.Instructions.{Emits, IsSendable};
ghost use Rattle.abi_bindgen.specs.declared.instruction.Instruction.TheVariants as instruction;
ghost use Rattle.func_gen.specs.Added.{Appends, Fresh};
ghost use Rattle.func_gen.specs.InwardCode.{IsInwardBlock, are_inward_stmts, is_inward_arm};
ghost use Rattle.func_gen.specs.LiftedCases.{LiftsBy, are_few, case_body, case_expr, empty_case, invalid_body, is_inward_case, is_liftable, is_unit, lifted_bodies, lifted_body, numbered_arms};
ghost use Rattle.func_gen.specs.MatchForms.{arm_of, case_path};
ghost use Rattle.func_gen.specs.Operand.{is_operand};
ghost use Rattle.func_gen.specs.Meaning.{func_meaning};
ghost use Rattle.func_gen.specs.PartForms.{are_operands, exprs_of};
ghost use Rattle.func_gen.specs.Scope.{TakesOne};

use crate::added::only_expr;
use crate::case_form::CaseForm;
use crate::emit::options::option_forms;
use crate::emit::results::result_forms;
use crate::forms::{call_of, runtime_path};
use crate::function_bindgen::{FinishedBlock, FunctionBindgen};
use crate::inward::inward_block;
use crate::operand::{ExprOperand, copy_expr, copy_path};
use rust_tree::{Arm, ArmPattern, Block, Expr, MatchNames, Path, RuntimeItem, Stmt};
use std::alloc::Global;
use wit_model::{List, OutOfMemory, Resolve, Text, TypeId};

/// Whether a payload that is left out is `()`.
fn is_unit(case: &CaseForm) -> bool
    ensures { result ≡ is_unit case.now }
{
    match case {
        CaseForm::LeftOut(_) => true,
        _ => false,
    }
}

fn case_path(alloc: Global, case: &CaseForm) -> Result<Path, OutOfMemory>
    ensures { IfOk result (λ p. p ≡ case_path case.now) }
{
    match case {
        CaseForm::Bare(path) | CaseForm::Full(path) | CaseForm::LeftOut(path) => {
            copy_path(path, alloc)
        }
    }
}

/// A case without a payload, or with `()`.
fn empty_case(alloc: Global, unit: bool, path: Path) -> Result<Expr, OutOfMemory>
    ensures { IfOk result (λ e. e ≡ empty_case unit path) }
{
    if !unit {
        return Ok(Expr::Case(path));
    }
    call_of(alloc, path, Expr::Unit)
}

/// The case of what a block gives: one result, or none.
pub(crate) fn case_expr(
    alloc: Global,
    case: &CaseForm,
    results: &[ExprOperand],
) -> Result<Expr, OutOfMemory>
    requires few { are_few results.now ≡ true }
    ensures case { IfOk result (λ e. e ≡ case_expr (is_unit case.now) (case_path case.now) (exprs_of results.now)) }
    ensures operands { IfOk result (λ e. are_operands results.now ≡ true) }
{
    let path = case_path(alloc, case)?;
    match results {
        [] => empty_case(alloc, is_unit(case), path),
        [operand] => {
            let argument = copy_expr(&operand.expr, alloc)?;
            call_of(alloc, path, argument)
        }
        _ => unreachable!(),
    }
}

/// Statements, and the case of what they give.
pub(crate) fn case_body(
    alloc: Global,
    case: &CaseForm,
    stmts: List<Stmt>,
    results: &[ExprOperand],
) -> Result<Block, OutOfMemory>
    requires few { are_few results.now ≡ true }
    requires inward { is_inward_case case.now ≡ true }
    requires stmts { are_inward_stmts stmts ≡ true }
    ensures body { IfOk result (λ b. b ≡ case_body (is_unit case.now) (case_path case.now) stmts (exprs_of results.now)) }
    ensures inward { IfOk result (λ b. spec.is_inward b ≡ true) }
{
    let tail = case_expr(alloc, case, results)?;
    Ok(inward_block(stmts, Some(tail)))
}

/// The code of a block, and the case of what it gives.
fn lifted_body(alloc: Global, case: &CaseForm, block: FinishedBlock) -> Result<Block, OutOfMemory>
    requires few { is_liftable block ≡ true }
    requires inward { is_inward_case case.now ≡ true }
    requires stmts { IsInwardBlock block }
    ensures body { IfOk result (λ b. b ≡ lifted_body case.now block) }
    ensures inward { IfOk result (λ b. spec.is_inward b ≡ true) }
{
    let FinishedBlock {
        number: _,
        names: _,
        stmts,
        results,
    } = block;
    case_body(alloc, case, stmts, results.as_slice())
}

/// The arm of a case by its number.
fn numbered_arm(
    alloc: Global,
    number: u32,
    case: &CaseForm,
    block: FinishedBlock,
) -> Result<Arm, OutOfMemory>
    requires few { is_liftable block ≡ true }
    requires inward { is_inward_case case.now ≡ true }
    requires stmts { IsInwardBlock block }
    ensures arm { IfOk result (λ a. a ≡ arm_of (pattern.Number number) (lifted_body case.now block)) }
    ensures inward { IfOk result (λ a. spec.is_inward (lifted_body case.now block) ≡ true) }
{
    let body = lifted_body(alloc, case, block)?;
    let pattern = ArmPattern::Number(number);
    Ok(Arm { pattern, body })
}

/// What stands where a number is that of no case.
fn invalid_body(alloc: Global) -> Result<Block, OutOfMemory>
    ensures body { IfOk result (λ b. b ≡ invalid_body) }
    ensures inward { IfOk result (λ b. spec.is_inward b ≡ true) }
{
    let path = runtime_path(alloc, RuntimeItem::InvalidEnumDiscriminant)?;
    let tail = Expr::Call(path, List::new(alloc));
    Ok(inward_block(List::new(alloc), Some(tail)))
}

/// The arms of cases by their numbers, of whose blocks the last one is the first.
pub(crate) fn lifted_arms(
    alloc: Global,
    cases: &[CaseForm],
    blocks: List<FinishedBlock>,
) -> Result<List<Arm>, OutOfMemory>
    requires many { length cases.now ≡ length blocks }
    requires low { length cases.now < 2 ^ 32 }
    requires few { list_all is_liftable (reverse blocks) ≡ true }
    requires inward { list_all is_inward_case cases.now ≡ true }
    requires stmts { AllByRecursion IsInwardBlock (reverse blocks) }
    ensures arms { IfOk result (λ arms. arms ≡ numbered_arms 0 (lifted_bodies cases.now (reverse blocks))) }
    ensures inward { IfOk result (λ arms. list_all spec.is_inward (lifted_bodies cases.now (reverse blocks)) ≡ true) }
{
    let mut left = blocks.into_vec();
    let mut arms = List::new(alloc);
    for i in 0..cases.len() {
        let Some(block) = left.pop() else {
            unreachable!()
        };
        arms.push(numbered_arm(alloc, i as u32, &cases[i], block)?)?;
    }
    Ok(arms)
}

impl FunctionBindgen<'_> {
    /// The name of a new local for what the arms of a match give.
    fn add_match(&mut self, e: &Expr, arms: List<Arm>) -> Result<Text, OutOfMemory>
        requires operand { is_operand e.now ≡ true }
        requires inward { list_all is_inward_arm arms ≡ true }
        ensures adds { IfOk result (λ v. Appends self.old self.new (stmt.Match (names_of.One v) e.now arms ∷ []) []) }
        ensures fresh { IfOk result (λ v. Fresh self.old self.new v) }
        ensures takes { IfOk result (λ v. TakesOne self.old.scope (codes "v") v self.new.scope) }
    {
        let (name, bound) = self.new_local("v")?;
        let e = copy_expr(e, self.alloc)?;
        self.add_effect(Stmt::Match(MatchNames::One(bound), e, arms))?;
        Ok(name)
    }

    /// The name of a new local for the case that a word is, with an arm for each case. A number of no case ends the run.
    fn lift_cases(&mut self, cases: &[CaseForm], e: &Expr) -> Result<Text, OutOfMemory>
        requires operand { is_operand e.now ≡ true }
        requires low { length cases.now < 2 ^ 32 }
        requires there { length cases.now ≤ length self.old.finished }
        requires few { list_all is_liftable (take (length cases.now) (reverse self.old.finished)) ≡ true }
        requires inward { list_all is_inward_case cases.now ≡ true }
        ensures { IfOk result (λ v. LiftsBy cases.now e.now v self.old self.new) }
    {
        let blocks = self.use_blocks(cases.len())?;
        let mut arms = lifted_arms(self.alloc, cases, blocks)?;
        let body = invalid_body(self.alloc)?;
        arms.push(Arm {
            pattern: ArmPattern::AnyOther,
            body,
        })?;
        self.ask(RuntimeItem::InvalidEnumDiscriminant)?;
        let name = self.add_match(e, arms)?;
        Ok(name)
    }

    pub(crate) fn lift_option(
        &mut self,
        resolve: &Resolve,
        id: TypeId,
        operands: &List<ExprOperand>,
        results: &mut List<ExprOperand>,
    ) -> Result<(), OutOfMemory>
        requires sendable { IsSendable func_meaning resolve.now (instruction.OptionLift id) operands.now self.old }
        requires empty { results.old ≡ [] }
        ensures { OnOk result (Emits func_meaning resolve.now.types (instruction.OptionLift id) operands.now results.new self.old self.new) }
    {
        let e = only_expr(operands);
        let forms = option_forms(self.alloc, resolve, id)?;
        let name = self.lift_cases(forms.as_slice(), e)?;
        let expr = Expr::Local(name);
        results.push(ExprOperand { expr, kept: false })?;
        Ok(())
    }

    pub(crate) fn lift_result(
        &mut self,
        resolve: &Resolve,
        id: TypeId,
        operands: &List<ExprOperand>,
        results: &mut List<ExprOperand>,
    ) -> Result<(), OutOfMemory>
        requires sendable { IsSendable func_meaning resolve.now (instruction.ResultLift id) operands.now self.old }
        requires empty { results.old ≡ [] }
        ensures { OnOk result (Emits func_meaning resolve.now.types (instruction.ResultLift id) operands.now results.new self.old self.new) }
    {
        let e = only_expr(operands);
        let forms = result_forms(self.alloc, resolve, id)?;
        let name = self.lift_cases(forms.as_slice(), e)?;
        let expr = Expr::Local(name);
        results.push(ExprOperand { expr, kept: false })?;
        Ok(())
    }
}
