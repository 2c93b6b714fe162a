//! The lines that take no memory.

ghost use Rattle.std.specs.Prelude.{◌≡◌};
ghost use Rattle.wit_refusal.specs.Line.{line_of};
ghost use Rattle.wit_refusal.specs.declared.refusal.Refusal.TheVariants as refusal;

use crate::word::{Word, spelled};

/// The line for a write of the output that failed, which takes no memory.
pub fn write_fault_line() -> &'static str
    ensures { result.now ≡ line_of refusal.WriteFault }
{
    spelled(Word::WriteFaultLine)
}

/// The line for want of memory, which takes none.
pub fn out_of_memory_line() -> &'static str
    ensures { result.now ≡ line_of refusal.OutOfMemory }
{
    spelled(Word::OutOfMemoryLine)
}
