//! Blocks of inward code, which calls no import, places no area, and writes into no slot from outside.

ghost use Rattle.std.specs.Prelude.{◌≡◌, true};
ghost use Rattle.wrapper_run.specs.Inward.{is_inward, is_inward_tail};
ghost use Rattle.func_gen.specs.InwardCode.{are_inward_stmts};

use rust_tree::{Block, Expr, Stmt};
use wit_model::List;

/// A block of inward code.
pub(crate) fn inward_block(stmts: List<Stmt>, tail: Option<Expr>) -> Block
    requires stmts { are_inward_stmts stmts ≡ true }
    requires tail { is_inward_tail tail ≡ true }
    ensures block { result ≡ record { stmts = stmts; tail = tail } }
    ensures inward { is_inward result ≡ true }
{
    Block { stmts, tail }
}
