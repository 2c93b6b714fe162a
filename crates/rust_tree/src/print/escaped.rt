//! Any text between double quotes.

ghost use Rattle.std.specs.Prelude.{◌≡◌, ◌++◌, OnOk};
ghost use Rattle.std.specs.Char.{encode_utf8};
ghost use Rattle.std.specs.List.{flat_map};
ghost use Rattle.rust_tree.specs.EnumText.{escaped};

use crate::print::word::EnumWord;
use wit_model::{OutOfMemory, Text};

fn push_char(out: &mut Text, c: char) -> Result<(), OutOfMemory>
    ensures { OnOk result (out.new ≡ out.old ++ encode_utf8 c) }
{
    let mut bytes = [0; 4];
    out.push_str(c.encode_utf8(&mut bytes))
}

#[tactic(auto, using(crate::proofs::Escapes::escaped_char))]
fn push_escaped_char(out: &mut Text, c: char) -> Result<(), OutOfMemory>
    ensures { OnOk result (out.new ≡ out.old ++ flat_map escaped (encode_utf8 c)) }
{
    if c == '"' {
        EnumWord::EscapedQuote.put(out)
    } else if c == '\\' {
        EnumWord::EscapedBackslash.put(out)
    } else if c == '\n' {
        EnumWord::EscapedLineFeed.put(out)
    } else if c == '\r' {
        EnumWord::EscapedReturn.put(out)
    } else {
        push_char(out, c)
    }
}

/// The text, with each character escaped that may not stand there as it is.
pub(crate) fn push_escaped(out: &mut Text, text: &str) -> Result<(), OutOfMemory>
    ensures { OnOk result (out.new ≡ out.old ++ flat_map escaped text.now) }
{
    for c in text.chars() {
        push_escaped_char(out, c)?;
    }
    Ok(())
}
