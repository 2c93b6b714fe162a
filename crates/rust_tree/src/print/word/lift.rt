//! Fixed words of the items of `_rt` that lift a core value.

ghost use Rattle.std.specs.Prelude.{◌≡◌, ◌++◌, OnOk};
ghost use Rattle.rust_tree.specs.Word.{lift_word};

use wit_model::{OutOfMemory, Text};

/// The words of the runtime items that give the value of a core value, or find that it is none.
#[derive(Clone, Copy)]
pub(crate) enum LiftWord {
    IfDebug,
    Otherwise,
    LiftEnd,
    BoolLiftType,
    CheckedBool,
    UncheckedBool,
    CharLiftType,
    CheckedChar,
    UncheckedChar,
    StringLiftType,
    CheckedString,
    UncheckedString,
    NoCaseType,
    CheckedNoCase,
    UncheckedNoCase,
}

impl LiftWord {
    #[tactic(auto, unfolding(crate::specs::Word::lift_word))]
    fn spelled(self) -> &'static str
        ensures { result.now ≡ lift_word self }
    {
        match self {
            LiftWord::IfDebug => " {\nif cfg!(debug_assertions) {\n",
            LiftWord::Otherwise => "} else {\n",
            LiftWord::LiftEnd => "}\n}\n",
            LiftWord::BoolLiftType => "(val: u8) -> bool",
            LiftWord::CheckedBool =>
                "match val {\n0 => false,\n1 => true,\n_ => panic!(\"invalid bool discriminant\"),\n}\n",
            LiftWord::UncheckedBool => "val != 0\n",
            LiftWord::CharLiftType => "(val: u32) -> char",
            LiftWord::CheckedChar => "::core::char::from_u32(val).unwrap()\n",
            LiftWord::UncheckedChar => "unsafe { ::core::char::from_u32_unchecked(val) }\n",
            LiftWord::StringLiftType => "(bytes: Vec<u8>) -> String",
            LiftWord::CheckedString => "String::from_utf8(bytes).unwrap()\n",
            LiftWord::UncheckedString => "unsafe { String::from_utf8_unchecked(bytes) }\n",
            LiftWord::NoCaseType => "<T>() -> T",
            LiftWord::CheckedNoCase => "panic!(\"invalid enum discriminant\")\n",
            LiftWord::UncheckedNoCase => "unsafe { ::core::hint::unreachable_unchecked() }\n",
        }
    }

    pub(crate) fn put(self, out: &mut Text) -> Result<(), OutOfMemory>
        ensures { OnOk result (out.new ≡ out.old ++ lift_word self) }
    {
        out.push_str(self.spelled())
    }
}
