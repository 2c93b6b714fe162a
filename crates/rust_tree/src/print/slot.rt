//! A local for a number or a pointer.

ghost use Rattle.std.specs.Prelude.{◌≡◌, ◌++◌, OnOk};
ghost use Rattle.rust_tree.specs.CodeText.{let_slot_text, write_slot_text};

use crate::expr::Expr;
use crate::print::expr::push_expr;
use crate::print::word::{Sign, SlotWord};
use wit_model::{OutOfMemory, Text};

pub(crate) fn push_let_slot(out: &mut Text, name: &Text) -> Result<(), OutOfMemory>
    ensures { OnOk result (out.new ≡ out.old ++ let_slot_text name.now) }
{
    Sign::LetMut.put(out)?;
    out.push_str(name.as_str())?;
    SlotWord::Uninit.put(out)
}

pub(crate) fn push_write_slot(out: &mut Text, name: &Text, e: &Expr) -> Result<(), OutOfMemory>
    ensures { OnOk result (out.new ≡ out.old ++ write_slot_text name.now e.now) }
{
    out.push_str(name.as_str())?;
    SlotWord::Write.put(out)?;
    push_expr(out, e)?;
    SlotWord::WriteEnd.put(out)
}
