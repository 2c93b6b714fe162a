//! Numbers of one byte, two or four are stored and loaded as words, tags of cases among them.

ghost use Rattle.std.specs.Prelude.{◌≡◌};
ghost use Rattle.wit_layout.specs.Extent.{discriminant_grain};
ghost use Rattle.abi_bindgen.specs.NumberTouches.{number_load, number_store, tag_load, tag_store};

use crate::instruction::Instruction;
use wit_model::ArchitectureSize;

/// The instruction that stores the low bytes of a word at an offset. How many they are is told as an exponent of 2.
pub fn number_store(grain: u32, offset: ArchitectureSize) -> Instruction<'static>
    ensures { result ≡ number_store grain offset }
{
    match grain {
        0 => Instruction::I32Store8(offset),
        1 => Instruction::I32Store16(offset),
        _ => Instruction::I32Store(offset),
    }
}

/// The instruction that loads a number at an offset, without a sign.
pub fn number_load(grain: u32, offset: ArchitectureSize) -> Instruction<'static>
    ensures { result ≡ number_load grain offset }
{
    match grain {
        0 => Instruction::I32Load8U(offset),
        1 => Instruction::I32Load16U(offset),
        _ => Instruction::I32Load(offset),
    }
}

/// How many bytes the tag of one of so many cases has, as an exponent of 2.
fn tag_grain(cases: usize) -> u32
    ensures { result ≡ discriminant_grain cases }
{
    if cases <= 256 {
        0
    } else if cases <= 65536 {
        1
    } else {
        2
    }
}

/// The instruction that stores the tag of one of so many cases at an offset.
pub fn tag_store(cases: usize, offset: ArchitectureSize) -> Instruction<'static>
    ensures { result ≡ tag_store cases offset }
{
    number_store(tag_grain(cases), offset)
}

/// The instruction that loads the tag of one of so many cases at an offset.
pub fn tag_load(cases: usize, offset: ArchitectureSize) -> Instruction<'static>
    ensures { result ≡ tag_load cases offset }
{
    number_load(tag_grain(cases), offset)
}
