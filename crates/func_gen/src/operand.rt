//! Operands: expressions that may be used where code is made of instructions.

ghost use Rattle.std.specs.Prelude.{◌≡◌, [], ◌∷◌, ◌++◌, true, IfOk, OnOk};
ghost use Rattle.func_gen.specs.Forms.{operand_of};
ghost use Rattle.func_gen.specs.Operand.{is_operand};

use crate::forms::call_of;
use abi_bindgen::Operand;
use rust_tree::{Expr, Path};
use std::alloc::Global;
use std::marker::Model;
use wit_model::{Boxed, List, OutOfMemory, Text};

/// An operand: a local, by itself or by a reference, a pointer to write through, a word of the flags in a local, or a constant; or the cast, the
/// core value or the case number of such, and what a method gives that is called on it.
#[derive(Drop)]
pub struct ExprOperand {
    pub expr: Expr,
    /// Whether it denotes a number that a core word is kept as.
    pub kept: bool,
}

impl Model for ExprOperand {
    ghost use Rattle.std.specs.Prelude.{◌≡◌, true};
    ghost use Rattle.std.specs.Coded.{codes};
    ghost use Rattle.rust_tree.specs.contracts.expr.Expr as expr_contract;
    ghost use Rattle.func_gen.specs.Operand.{is_operand};
    ghost use Rattle.func_gen.specs.OperandView.{OperandView};

    ghost Value = { OperandView };

    ghost coded = { Prim.hlevel (codes, expr_contract.the_row.coded) };

    ghost view = { λ o. record { expr = o.expr; kept = o.kept } };

    ghost invariant = { λ o. is_operand o.expr ≡ true };
}

impl Operand for ExprOperand {
    fn copy(&self, alloc: Global) -> Result<ExprOperand, OutOfMemory> {
        let expr = copy_expr(&self.expr, alloc)?;
        Ok(ExprOperand {
            expr,
            kept: self.kept,
        })
    }
}

/// An equal expression.
pub(crate) fn copy_expr(e: &Expr, alloc: Global) -> Result<Expr, OutOfMemory>
    requires operand { is_operand e.now ≡ true }
    ensures { IfOk result (λ c. c ≡ e.now) }
{
    match e {
        Expr::Local(name) => Ok(Expr::Local(name.copy(alloc)?)),
        Expr::Ref(name) => Ok(Expr::Ref(name.copy(alloc)?)),
        Expr::CastMut(name) => Ok(Expr::CastMut(name.copy(alloc)?)),
        Expr::FlagsBits(name, by) => Ok(Expr::FlagsBits(name.copy(alloc)?, *by)),
        Expr::I32Const(n) => Ok(Expr::I32Const(*n)),
        Expr::Zero(ty) => Ok(Expr::Zero(*ty)),
        Expr::EnumNumber(inner) => Ok(Expr::EnumNumber(Boxed::new(
            alloc,
            copy_expr(inner.get(), alloc)?,
        )?)),
        Expr::Method(inner, method) => Ok(Expr::Method(
            Boxed::new(alloc, copy_expr(inner.get(), alloc)?)?,
            *method,
        )),
        Expr::Cast(inner, to) => Ok(Expr::Cast(
            Boxed::new(alloc, copy_expr(inner.get(), alloc)?)?,
            *to,
        )),
        Expr::Call(path, arguments) => {
            let path = copy_path(path, alloc)?;
            let [argument] = arguments.as_slice() else {
                unreachable!()
            };
            let argument = copy_expr(argument, alloc)?;
            call_of(alloc, path, argument)
        }
        _ => unreachable!(),
    }
}

pub(crate) fn copy_path(path: &Path, alloc: Global) -> Result<Path, OutOfMemory>
    ensures { IfOk result (λ c. c ≡ path.now) }
{
    Ok(Path {
        lead: path.lead,
        supers: path.supers,
        names: copy_names(path.names.as_slice(), alloc)?,
    })
}

pub(crate) fn copy_names(names: &[Text], alloc: Global) -> Result<List<Text>, OutOfMemory>
    ensures { IfOk result (λ copies. copies ≡ names.now) }
{
    let mut copies = List::new(alloc);
    for name in names {
        copies.push(name.copy(alloc)?)?;
    }
    Ok(copies)
}

/// Puts an operand last that is no kept word.
pub(crate) fn push_expr(operands: &mut List<ExprOperand>, expr: Expr) -> Result<(), OutOfMemory>
    requires operand { is_operand expr ≡ true }
    ensures { OnOk result (operands.new ≡ operands.old ++ operand_of expr ∷ []) }
{
    operands.push(ExprOperand { expr, kept: false })
}
