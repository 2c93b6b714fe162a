//! Fixed words of flags.

ghost use Rattle.std.specs.Prelude.{◌≡◌, ◌++◌, OnOk};
ghost use Rattle.rust_tree.specs.Word.{flags_word};

use wit_model::{OutOfMemory, Text};

/// The words of flags types, and of flags.
#[derive(Clone, Copy)]
pub(crate) enum FlagsWord {
    OpenMacro,
    PublicFlags,
    Const,
    Bit,
    Bits,
    AsCoreWord,
    Empty,
    Or,
    FromBits,
    AsWord,
    ShiftedBy,
    FromBitsEnd,
}

impl FlagsWord {
    #[tactic(auto, unfolding(crate::specs::Word::flags_word))]
    fn spelled(self) -> &'static str
        ensures { result.now ≡ flags_word self }
    {
        match self {
            FlagsWord::OpenMacro => "::bitflags! {\n",
            FlagsWord::PublicFlags =>
                "#[derive(PartialEq, Eq, PartialOrd, Ord, Hash, Debug, Clone, Copy)]\npub struct ",
            FlagsWord::Const => "const ",
            FlagsWord::Bit => " = 1 << ",
            FlagsWord::Bits => ".bits() >> ",
            FlagsWord::AsCoreWord => ") as i32",
            FlagsWord::Empty => "::empty()",
            FlagsWord::Or => " | ",
            FlagsWord::FromBits => "::from_bits_retain(((",
            FlagsWord::AsWord => " as u32 as ",
            FlagsWord::ShiftedBy => ") << ",
            FlagsWord::FromBitsEnd => ") as _)",
        }
    }

    pub(crate) fn put(self, out: &mut Text) -> Result<(), OutOfMemory>
        ensures { OnOk result (out.new ≡ out.old ++ flags_word self) }
    {
        out.push_str(self.spelled())
    }
}
