//! Fixed words of `match` statements.

ghost use Rattle.std.specs.Prelude.{◌≡◌, ◌++◌, OnOk};
ghost use Rattle.rust_tree.specs.Word.{match_word};

use wit_model::{OutOfMemory, Text};

/// The words of `match` statements.
#[derive(Clone, Copy)]
pub(crate) enum MatchWord {
    OpenArm,
    CloseArm,
    CloseBound,
    LeftOut,
    AnyOther,
    Assert,
    AssertEnd,
}

impl MatchWord {
    #[tactic(auto, unfolding(crate::specs::Word::match_word))]
    fn spelled(self) -> &'static str
        ensures { result.now ≡ match_word self }
    {
        match self {
            MatchWord::OpenArm => " => {\n",
            MatchWord::CloseArm => "},\n",
            MatchWord::CloseBound => "};\n",
            MatchWord::LeftOut => "(_)",
            MatchWord::AnyOther => "_",
            MatchWord::Assert => "debug_assert_eq!(",
            MatchWord::AssertEnd => ", \"invalid enum discriminant\");\n",
        }
    }

    pub(crate) fn put(self, out: &mut Text) -> Result<(), OutOfMemory>
        ensures { OnOk result (out.new ≡ out.old ++ match_word self) }
    {
        out.push_str(self.spelled())
    }
}
