//! Fixed pieces of lines.

ghost use Rattle.std.specs.Prelude.{◌≡◌, ◌++◌, OnOk};
ghost use Rattle.wit_refusal.specs.Word.{word};

use wit_model::{OutOfMemory, Text};

/// A fixed piece of a line, or a whole line with its line feed.
#[derive(Clone, Copy)]
pub(crate) enum Word {
    UsageLine,
    ReadFaultLine,
    InputTooLongLine,
    BadJsonLine,
    InvalidWorld,
    InvalidOption,
    MissingWith,
    TooLargeType,
    TooLargeFunction,
    Unsupported,
    NameClash,
    UnusedWith,
    UnusedSelector,
    UnusedChainable,
    WriteFaultLine,
    OutOfMemoryLine,
    At,
    In,
    Space,
    Comma,
    Quote,
    Backslash,
    KeyEnd,
    ListEnd,
    LineEnd,
}

#[tactic(auto, unfolding(crate::specs::Word::word))]
pub(crate) fn spelled(w: Word) -> &'static str
    ensures { result.now ≡ word w }
{
    match w {
        Word::UsageLine => "usage: wit_program generate, or wit_program sample N\n",
        Word::ReadFaultLine => "read fault\n",
        Word::InputTooLongLine => "input longer than 67108864 bytes\n",
        Word::BadJsonLine => "not a bindings document\n",
        Word::InvalidWorld => "invalid world: rule ",
        Word::InvalidOption => "invalid option: ",
        Word::MissingWith => "missing `with` mapping for the key `",
        Word::TooLargeType => "too large: type ",
        Word::TooLargeFunction => "too large: function ",
        Word::Unsupported => "unsupported: ",
        Word::NameClash => "name clash: ",
        Word::UnusedWith => "unused remappings provided via `with`: [",
        Word::UnusedSelector =>
            "unused selectors provided via `additional_type_attributes` / `additional_member_attributes`: [",
        Word::UnusedChainable => "unused chaining entry: ",
        Word::WriteFaultLine => "write fault\n",
        Word::OutOfMemoryLine => "out of memory\n",
        Word::At => " at ",
        Word::In => " in ",
        Word::Space => " ",
        Word::Comma => ", ",
        Word::Quote => "\"",
        Word::Backslash => "\\",
        Word::KeyEnd => "`\n",
        Word::ListEnd => "]\n",
        Word::LineEnd => "\n",
    }
}

pub(crate) fn put(out: &mut Text, w: Word) -> Result<(), OutOfMemory>
    ensures { OnOk result (out.new ≡ out.old ++ word w) }
{
    out.push_str(spelled(w))
}
