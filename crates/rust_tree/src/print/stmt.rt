//! The text of statements and blocks.

ghost use Rattle.std.specs.Prelude.{◌≡◌, ◌++◌, OnOk};
ghost use Rattle.std.specs.List.{flat_map};
ghost use Rattle.rust_tree.specs.CodeText.{arm_text, block_text, let_parts_text, let_text, narrowed_text, small_store_text, stmt_text, store_text, tail_text};

use crate::expr::{Expr, SmallType};
use crate::pattern::Pattern;
use crate::print::area::push_area;
use crate::print::core_import::{push_linked, push_unlinked};
use crate::print::expr::{push_expr, push_place, push_receiver};
use crate::print::match_stmt::{
    push_arm_open, push_assert_last, push_match_close, push_match_open,
};
use crate::print::pattern::push_pattern;
use crate::print::slot::{push_let_slot, push_write_slot};
use crate::print::type_name::{core_type_name, small_type_name};
use crate::print::word::{ExprWord, MatchWord, Sign};
use crate::stmt::{Arm, Block, Stmt};
use wit_model::{ArchitectureSize, OutOfMemory, Text, WasmType};

fn push_let(out: &mut Text, name: &Text, e: &Expr) -> Result<(), OutOfMemory>
    ensures { OnOk result (out.new ≡ out.old ++ let_text name.now e.now) }
{
    Sign::Let.put(out)?;
    out.push_str(name.as_str())?;
    Sign::Equals.put(out)?;
    push_expr(out, e)?;
    Sign::StatementEnd.put(out)
}

fn push_let_parts(out: &mut Text, pattern: &Pattern, e: &Expr) -> Result<(), OutOfMemory>
    ensures { OnOk result (out.new ≡ out.old ++ let_parts_text pattern.now e.now) }
{
    Sign::Let.put(out)?;
    push_pattern(out, pattern)?;
    Sign::Equals.put(out)?;
    push_expr(out, e)?;
    Sign::StatementEnd.put(out)
}

fn push_store(
    out: &mut Text,
    address: &Expr,
    offset: ArchitectureSize,
    ty: WasmType,
    e: &Expr,
) -> Result<(), OutOfMemory>
    ensures { OnOk result (out.new ≡ out.old ++ store_text address.now offset ty e.now) }
{
    push_receiver(out, ExprWord::Dereference, address)?;
    push_place(out, offset, core_type_name(ty))?;
    Sign::Equals.put(out)?;
    push_expr(out, e)?;
    Sign::StatementEnd.put(out)
}

/// What is cut to a small type, in brackets.
fn push_narrowed(out: &mut Text, e: &Expr, ty: SmallType) -> Result<(), OutOfMemory>
    ensures { OnOk result (out.new ≡ out.old ++ narrowed_text e.now ty) }
{
    Sign::Open.put(out)?;
    push_expr(out, e)?;
    Sign::Close.put(out)?;
    Sign::As.put(out)?;
    out.push_str(small_type_name(ty))
}

fn push_small_store(
    out: &mut Text,
    address: &Expr,
    offset: ArchitectureSize,
    ty: SmallType,
    e: &Expr,
) -> Result<(), OutOfMemory>
    ensures { OnOk result (out.new ≡ out.old ++ small_store_text address.now offset ty e.now) }
{
    push_receiver(out, ExprWord::Dereference, address)?;
    push_place(out, offset, small_type_name(ty))?;
    Sign::Equals.put(out)?;
    push_narrowed(out, e, ty)?;
    Sign::StatementEnd.put(out)
}

#[cycle(stmt)]
fn push_stmt(out: &mut Text, stmt: &Stmt) -> Result<(), OutOfMemory>
    ensures { OnOk result (out.new ≡ out.old ++ stmt_text stmt.now) }
{
    match stmt {
        Stmt::Import(decl) => {
            push_linked(out, decl)?;
            push_unlinked(out, decl)
        }
        Stmt::Let(name, e) => push_let(out, name, e),
        Stmt::Expr(e) => {
            push_expr(out, e)?;
            Sign::StatementEnd.put(out)
        }
        Stmt::Area(area) => push_area(out, area),
        Stmt::Store(address, offset, ty, e) => push_store(out, address, *offset, *ty, e),
        Stmt::StoreSmall(address, offset, ty, e) => {
            push_small_store(out, address, *offset, *ty, e)
        }
        Stmt::LetParts(pattern, e) => push_let_parts(out, pattern, e),
        Stmt::Match(names, e, arms) => {
            push_match_open(out, names, e)?;
            push_arms(out, arms.as_slice())?;
            push_match_close(out, names)
        }
        Stmt::AssertLast(name, n) => push_assert_last(out, name, *n),
        Stmt::LetSlot(name) => push_let_slot(out, name),
        Stmt::WriteSlot(name, e) => push_write_slot(out, name, e),
    }
}

#[cycle(stmt)]
fn push_arms(out: &mut Text, arms: &[Arm]) -> Result<(), OutOfMemory>
    ensures { OnOk result (out.new ≡ out.old ++ flat_map arm_text arms.now) }
{
    for arm in arms {
        push_arm(out, arm)?;
    }
    Ok(())
}

#[cycle(stmt)]
fn push_arm(out: &mut Text, arm: &Arm) -> Result<(), OutOfMemory>
    ensures { OnOk result (out.new ≡ out.old ++ arm_text arm.now) }
{
    push_arm_open(out, &arm.pattern)?;
    push_block(out, &arm.body)?;
    MatchWord::CloseArm.put(out)
}

#[cycle(stmt)]
pub(crate) fn push_block(out: &mut Text, block: &Block) -> Result<(), OutOfMemory>
    ensures { OnOk result (out.new ≡ out.old ++ block_text block.now) }
{
    push_stmts(out, block.stmts.as_slice())?;
    push_tail(out, &block.tail)
}

#[cycle(stmt)]
pub(crate) fn push_stmts(out: &mut Text, stmts: &[Stmt]) -> Result<(), OutOfMemory>
    ensures { OnOk result (out.new ≡ out.old ++ flat_map stmt_text stmts.now) }
{
    for stmt in stmts {
        push_stmt(out, stmt)?;
    }
    Ok(())
}

fn push_tail(out: &mut Text, tail: &Option<Expr>) -> Result<(), OutOfMemory>
    ensures { OnOk result (out.new ≡ out.old ++ tail_text tail.now) }
{
    match tail {
        None => Ok(()),
        Some(e) => {
            push_expr(out, e)?;
            Sign::LineEnd.put(out)
        }
    }
}
