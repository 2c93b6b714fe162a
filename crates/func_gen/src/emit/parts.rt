//! Tuples are taken apart, and made of their parts.

ghost use Rattle.std.specs.Prelude.{◌≡◌, ◌∷◌, ◌++◌, ℕ, [], true, length, IfOk, OnOk};
ghost use Rattle.std.specs.List.{list_all};
ghost use Rattle.rust_tree.specs.declared.pattern.Pattern.TheVariants as pattern;
ghost use Rattle.rust_tree.specs.declared.stmt.Stmt.TheVariants as stmt;
ghost use Rattle.abi_bindgen.specs.Instructions.{Emits};
ghost use Rattle.abi_bindgen.specs.declared.instruction.Instruction.TheVariants as instruction;
ghost use Rattle.func_gen.specs.Added.{Appends};
ghost use Rattle.func_gen.specs.CallForms.{FreshAll};
ghost use Rattle.func_gen.specs.Operand.{is_operand};
ghost use Rattle.func_gen.specs.Meaning.{func_meaning};
ghost use Rattle.func_gen.specs.PartForms.{are_operands, exprs_of, locals_of, names_from, part_prefix};
ghost use Rattle.func_gen.specs.Scope.{TakesAll, names_at};

use crate::added::only_expr;
use crate::function_bindgen::FunctionBindgen;
use crate::operand::{ExprOperand, copy_expr, copy_names};
use crate::scope::LocalName;
use rust_tree::{Expr, Pattern, Stmt};
use std::alloc::Global;
use wit_model::{List, OutOfMemory, Resolve, Text};

/// The names of several locals, which get one number.
pub(crate) fn part_names(
    alloc: Global,
    prefix: &str,
    count: u32,
) -> Result<List<LocalName<'_>>, OutOfMemory>
    ensures { IfOk result (λ names. (t : ℕ) → names_at names t ≡ names_from prefix.now t 0 count) }
{
    let mut names = List::new(alloc);
    for part in 0..count {
        let part = Some(part as usize);
        names.push(LocalName { prefix, part })?;
    }
    Ok(names)
}

/// The expressions of operands.
pub(crate) fn operand_exprs(
    alloc: Global,
    operands: &[ExprOperand],
) -> Result<List<Expr>, OutOfMemory>
    ensures same { IfOk result (λ es. es ≡ exprs_of operands.now) }
    ensures operands { IfOk result (λ es. are_operands operands.now ≡ true) }
    ensures each { IfOk result (λ es. list_all is_operand es ≡ true) }
{
    let mut es = List::new(alloc);
    for operand in operands {
        es.push(copy_expr(&operand.expr, alloc)?)?;
    }
    Ok(es)
}

/// An operand for each local.
pub(crate) fn push_locals(
    alloc: Global,
    names: &[Text],
    results: &mut List<ExprOperand>,
) -> Result<(), OutOfMemory>
    ensures { OnOk result (results.new ≡ results.old ++ locals_of names.now) }
{
    for name in names {
        let expr = Expr::Local(name.copy(alloc)?);
        results.push(ExprOperand { expr, kept: false })?;
    }
    Ok(())
}

/// The statement that takes a tuple apart.
fn let_tuple(alloc: Global, names: &[Text], e: &Expr) -> Result<Stmt, OutOfMemory>
    requires operand { is_operand e.now ≡ true }
    ensures { IfOk result (λ s. s ≡ stmt.LetParts (pattern.Tuple names.now) e.now) }
{
    let names = copy_names(names, alloc)?;
    let e = copy_expr(e, alloc)?;
    Ok(Stmt::LetParts(Pattern::Tuple(names), e))
}

impl FunctionBindgen<'_> {
    /// The names of new locals, one for each part of a tuple.
    #[tactic(auto, unfolding(crate::specs::PartForms::part_prefix))]
    fn add_parts(&mut self, count: u32, e: &Expr) -> Result<List<Text>, OutOfMemory>
        requires operand { is_operand e.now ≡ true }
        ensures adds { IfOk result (λ names. Appends self.old self.new (stmt.LetParts (pattern.Tuple names) e.now ∷ []) []) }
        ensures fresh { IfOk result (λ names. FreshAll self.old self.new names) }
        ensures takes { IfOk result (λ names. TakesAll self.old.scope (λ k. names_from part_prefix k 0 count) names self.new.scope) }
    {
        let parts = part_names(self.alloc, "t", count)?;
        let names = self.scope.declare_all(self.alloc, parts.as_slice())?;
        let taken = let_tuple(self.alloc, names.as_slice(), e)?;
        self.code.stmts.push(taken)?;
        Ok(names)
    }

    pub(crate) fn lower_tuple(
        &mut self,
        resolve: &Resolve,
        count: u32,
        operands: &List<ExprOperand>,
        results: &mut List<ExprOperand>,
    ) -> Result<(), OutOfMemory>
        requires one { length operands.now ≡ 1 }
        requires empty { results.old ≡ [] }
        ensures { OnOk result (Emits func_meaning resolve.now.types (instruction.TupleLower count) operands.now results.new self.old self.new) }
    {
        let e = only_expr(operands);
        let names = self.add_parts(count, e)?;
        push_locals(self.alloc, names.as_slice(), results)?;
        Ok(())
    }

    pub(crate) fn lift_tuple(
        &mut self,
        resolve: &Resolve,
        count: u32,
        operands: &List<ExprOperand>,
        results: &mut List<ExprOperand>,
    ) -> Result<(), OutOfMemory>
        requires many { length operands.now ≡ count }
        requires empty { results.old ≡ [] }
        ensures { OnOk result (Emits func_meaning resolve.now.types (instruction.TupleLift count) operands.now results.new self.old self.new) }
    {
        let parts = operand_exprs(self.alloc, operands.as_slice())?;
        let name = self.add_let("tuple", Expr::Tuple(parts))?;
        let expr = Expr::Local(name);
        results.push(ExprOperand { expr, kept: false })?;
        Ok(())
    }
}
