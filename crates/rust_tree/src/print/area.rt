//! The text of a return area.

ghost use Rattle.std.specs.Prelude.{◌≡◌, ◌++◌, OnOk};
ghost use Rattle.rust_tree.specs.CodeText.{align_text, area_text, area_type_text, area_value_text};
ghost use Rattle.rust_tree.specs.ExportText.{static_area_text};

use crate::area::{ReturnArea, StaticArea};
use crate::print::size::push_term;
use crate::print::word::{AreaWord, Sign};
use wit_model::{Alignment, ArchitectureSize, OutOfMemory, Text};

fn push_align(out: &mut Text, align: Alignment) -> Result<(), OutOfMemory>
    ensures { OnOk result (out.new ≡ out.old ++ align_text align) }
{
    match align {
        Alignment::Pointer => AreaWord::PointerAlign.put(out),
        Alignment::Bytes(n) => {
            AreaWord::Align.put(out)?;
            out.push_number(u64::from(n))?;
            AreaWord::AlignEnd.put(out)
        }
    }
}

fn push_area_type(
    out: &mut Text,
    size: ArchitectureSize,
    align: Alignment,
) -> Result<(), OutOfMemory>
    ensures { OnOk result (out.new ≡ out.old ++ area_type_text size align) }
{
    push_align(out, align)?;
    AreaWord::AreaType.put(out)?;
    push_term(out, size)?;
    AreaWord::AreaEnd.put(out)
}

fn push_area_value(out: &mut Text, size: ArchitectureSize) -> Result<(), OutOfMemory>
    ensures { OnOk result (out.new ≡ out.old ++ area_value_text size) }
{
    AreaWord::AreaValue.put(out)?;
    push_term(out, size)?;
    AreaWord::AreaEnd.put(out)
}

pub(crate) fn push_area(out: &mut Text, area: &ReturnArea) -> Result<(), OutOfMemory>
    ensures { OnOk result (out.new ≡ out.old ++ area_text area.now) }
{
    push_area_type(out, area.size, area.align)?;
    Sign::LetMut.put(out)?;
    out.push_str(area.name.as_str())?;
    Sign::Equals.put(out)?;
    push_area_value(out, area.size)
}

pub(crate) fn push_static_area(out: &mut Text, area: &StaticArea) -> Result<(), OutOfMemory>
    ensures { OnOk result (out.new ≡ out.old ++ static_area_text area.now) }
{
    let StaticArea { size, align } = *area;
    push_area_type(out, size, align)?;
    AreaWord::StaticArea.put(out)?;
    push_area_value(out, size)
}
