//! Statements are added, and items of `_rt` are named.

ghost use Rattle.std.specs.Prelude.{◌≡◌, ◌++◌, [], ◌∷◌, true, length, IfOk, OnErr, OnOk};
ghost use Rattle.rust_tree.specs.declared.stmt.Stmt.TheVariants as stmt;
ghost use Rattle.wrapper_run.specs.Inward.{is_inward_expr};
ghost use Rattle.func_gen.specs.Added.{Appends, Fresh};
ghost use Rattle.func_gen.specs.Operand.{is_operand};
ghost use Rattle.func_gen.specs.PartForms.{exprs_of};
ghost use Rattle.func_gen.specs.Scope.{TakesOne};

use crate::function_bindgen::FunctionBindgen;
use crate::operand::{ExprOperand, copy_expr};
use crate::scope::{LocalName, numbered};
use rust_tree::{Expr, RuntimeItem, Stmt};
use std::alloc::Global;
use wit_model::{List, OutOfMemory, Text};

/// The expression of the one operand.
pub(crate) fn only_expr(operands: &List<ExprOperand>) -> &Expr
    requires one { length operands.now ≡ 1 }
    ensures only { exprs_of operands.now ≡ result.now ∷ [] }
    ensures operand { is_operand result.now ≡ true }
{
    let operand = &operands.as_slice()[0];
    &operand.expr
}

/// The same, copied.
pub(crate) fn only_operand(alloc: Global, operands: &List<ExprOperand>) -> Result<Expr, OutOfMemory>
    requires one { length operands.now ≡ 1 }
    ensures only { IfOk result (λ e. exprs_of operands.now ≡ e ∷ []) }
    ensures operand { IfOk result (λ e. is_operand e ≡ true) }
{
    copy_expr(only_expr(operands), alloc)
}

/// Statements are put behind others. Where there is no memory these stay as they were.
pub(crate) fn append(
    alloc: Global,
    stmts: &mut List<Stmt>,
    added: List<Stmt>,
) -> Result<(), OutOfMemory>
    ensures ok { OnOk result (stmts.new ≡ stmts.old ++ added) }
    ensures err { OnErr result (stmts.new ≡ stmts.old) }
{
    let mut all = std::mem::replace(stmts, List::new(alloc)).into_vec();
    let mut added = added.into_vec();
    let done = all.append(&mut added);
    *stmts = List::from_vec(all);
    done?;
    Ok(())
}

impl FunctionBindgen<'_> {
    /// An item of `_rt` is named.
    pub(crate) fn ask(&mut self, item: RuntimeItem) -> Result<(), OutOfMemory>
        ensures asks { OnOk result (Appends self.old self.new [] (item ∷ [])) }
        ensures scope { OnOk result (self.new.scope ≡ self.old.scope) }
    {
        self.runtime.push(item)
    }

    /// The name of a new local, and the same for the statement that declares it.
    pub(crate) fn new_local(&mut self, prefix: &str) -> Result<(Text, Text), OutOfMemory>
        ensures adds { IfOk result (λ names. Appends self.old self.new [] []) }
        ensures fresh { IfOk result (λ names. Fresh self.old self.new names.0) }
        ensures takes { IfOk result (λ names. TakesOne self.old.scope prefix.now names.0 self.new.scope) }
        ensures same { IfOk result (λ names. names.1 ≡ names.0) }
    {
        let name = LocalName { prefix, part: None };
        let t = self.scope.declare(self.alloc, &[name])?;
        let text = numbered(self.alloc, name, t)?;
        let copy = text.copy(self.alloc)?;
        Ok((text, copy))
    }

    /// The name of a new local, with this value.
    pub(crate) fn add_let(&mut self, prefix: &str, e: Expr) -> Result<Text, OutOfMemory>
        requires inward { is_inward_expr e ≡ true }
        ensures adds { IfOk result (λ name. Appends self.old self.new (stmt.Let name e ∷ []) []) }
        ensures fresh { IfOk result (λ name. Fresh self.old self.new name) }
        ensures takes { IfOk result (λ name. TakesOne self.old.scope prefix.now name self.new.scope) }
    {
        let (name, declared) = self.new_local(prefix)?;
        self.add_effect(Stmt::Let(declared, e))?;
        Ok(name)
    }

    /// A statement that stands in no block: it may call an import, and take the address of the static area.
    pub(crate) fn add_outside(&mut self, s: Stmt) -> Result<(), OutOfMemory>
        requires closed { self.old.opened ≡ [] }
        ensures adds { OnOk result (Appends self.old self.new (s ∷ []) []) }
        ensures scope { OnOk result (self.new.scope ≡ self.old.scope) }
    {
        self.code.stmts.push(s)
    }

    /// The name of a new local outside of blocks, with this value.
    pub(crate) fn let_outside(&mut self, prefix: &str, e: Expr) -> Result<Text, OutOfMemory>
        requires closed { self.old.opened ≡ [] }
        ensures adds { IfOk result (λ name. Appends self.old self.new (stmt.Let name e ∷ []) []) }
        ensures fresh { IfOk result (λ name. Fresh self.old self.new name) }
        ensures takes { IfOk result (λ name. TakesOne self.old.scope prefix.now name self.new.scope) }
    {
        let (name, declared) = self.new_local(prefix)?;
        self.add_outside(Stmt::Let(declared, e))?;
        Ok(name)
    }
}
