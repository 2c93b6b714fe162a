//! Operands get locals of their own.

ghost use Rattle.std.specs.Prelude.{◌≡◌, ◌++◌, [], length, IfOk, OnOk, true};
ghost use Rattle.std.specs.List.{list_all};
ghost use Rattle.abi_bindgen.specs.Instructions.{Emits};
ghost use Rattle.abi_bindgen.specs.declared.instruction.Instruction.TheVariants as instruction;
ghost use Rattle.rust_tree.specs.declared.stmt.Stmt.TheVariants as stmt;
ghost use Rattle.func_gen.specs.Added.{Appends};
ghost use Rattle.func_gen.specs.CallForms.{FreshAll};
ghost use Rattle.func_gen.specs.FlushForms.{flush_prefix, flushed, lets_of};
ghost use Rattle.func_gen.specs.Operand.{is_operand};
ghost use Rattle.func_gen.specs.Meaning.{func_meaning};
ghost use Rattle.func_gen.specs.PartForms.{names_from};
ghost use Rattle.func_gen.specs.Scope.{TakesAll};

use crate::added::append;
use crate::emit::parts::{operand_exprs, part_names};
use crate::function_bindgen::FunctionBindgen;
use crate::operand::{ExprOperand, copy_expr};
use rust_tree::{Expr, Stmt};
use std::alloc::Global;
use wit_model::{List, OutOfMemory, Resolve, Text};

/// The statement that gives an expression a local.
fn let_copy(alloc: Global, name: &Text, e: &Expr) -> Result<Stmt, OutOfMemory>
    requires operand { is_operand e.now ≡ true }
    ensures { IfOk result (λ s. s ≡ stmt.Let name.now e.now) }
{
    let name = name.copy(alloc)?;
    Ok(Stmt::Let(name, copy_expr(e, alloc)?))
}

/// A local for each expression, in order.
fn push_lets(
    alloc: Global,
    names: &[Text],
    es: &[Expr],
    stmts: &mut List<Stmt>,
) -> Result<(), OutOfMemory>
    requires operands { list_all is_operand es.now ≡ true }
    requires many { length names.now ≡ length es.now }
    ensures { OnOk result (stmts.new ≡ stmts.old ++ lets_of names.now es.now) }
{
    for i in 0..es.len() {
        stmts.push(let_copy(alloc, &names[i], &es[i])?)?;
    }
    Ok(())
}

/// A local for each operand, which denotes what that does.
fn push_flushed(
    alloc: Global,
    names: &[Text],
    operands: &[ExprOperand],
    results: &mut List<ExprOperand>,
) -> Result<(), OutOfMemory>
    requires many { length names.now ≡ length operands.now }
    ensures { OnOk result (results.new ≡ results.old ++ flushed names.now operands.now) }
{
    for i in 0..operands.len() {
        let expr = Expr::Local(names[i].copy(alloc)?);
        let operand = &operands[i];
        let kept = operand.kept;
        results.push(ExprOperand { expr, kept })?;
    }
    Ok(())
}

impl FunctionBindgen<'_> {
    /// The names of new locals, one for each expression, which get one number.
    #[tactic(auto, unfolding(crate::specs::FlushForms::flush_prefix))]
    fn add_lets(&mut self, count: u32, es: &[Expr]) -> Result<List<Text>, OutOfMemory>
        requires operands { list_all is_operand es.now ≡ true }
        requires many { length es.now ≡ count }
        ensures adds { IfOk result (λ names. Appends self.old self.new (lets_of names es.now) []) }
        ensures fresh { IfOk result (λ names. FreshAll self.old self.new names) }
        ensures takes { IfOk result (λ names. TakesAll self.old.scope (λ k. names_from flush_prefix k 0 count) names self.new.scope) }
    {
        let parts = part_names(self.alloc, "flush", count)?;
        let names = self.scope.declare_all(self.alloc, parts.as_slice())?;
        let mut lets = List::new(self.alloc);
        push_lets(self.alloc, names.as_slice(), es, &mut lets)?;
        append(self.alloc, &mut self.code.stmts, lets)?;
        Ok(names)
    }

    pub(crate) fn flush(
        &mut self,
        resolve: &Resolve,
        count: u32,
        operands: &List<ExprOperand>,
        results: &mut List<ExprOperand>,
    ) -> Result<(), OutOfMemory>
        requires many { length operands.now ≡ count }
        requires empty { results.old ≡ [] }
        ensures { OnOk result (Emits func_meaning resolve.now.types (instruction.Flush count) operands.now results.new self.old self.new) }
    {
        let es = operand_exprs(self.alloc, operands.as_slice())?;
        let names = self.add_lets(count, es.as_slice())?;
        push_flushed(self.alloc, names.as_slice(), operands.as_slice(), results)?;
        Ok(())
    }
}
