//! Marks, and small words that stand in many places.

ghost use Rattle.std.specs.Prelude.{◌≡◌, ◌++◌, OnOk};
ghost use Rattle.rust_tree.specs.Word.{sign};

use wit_model::{OutOfMemory, Text};

/// The marks between the other parts, and the small words that stand in many places.
#[derive(Clone, Copy)]
pub(crate) enum Sign {
    LineEnd,
    StatementEnd,
    OpenBlock,
    CloseBlock,
    Open,
    Close,
    Comma,
    Colon,
    Arrow,
    PathMark,
    Super,
    Reference,
    As,
    Let,
    LetMut,
    Equals,
    Minus,
}

impl Sign {
    #[tactic(auto, unfolding(crate::specs::Word::sign))]
    fn spelled(self) -> &'static str
        ensures { result.now ≡ sign self }
    {
        match self {
            Sign::LineEnd => "\n",
            Sign::StatementEnd => ";\n",
            Sign::OpenBlock => " {\n",
            Sign::CloseBlock => "}\n",
            Sign::Open => "(",
            Sign::Close => ")",
            Sign::Comma => ", ",
            Sign::Colon => ": ",
            Sign::Arrow => " -> ",
            Sign::PathMark => "::",
            Sign::Super => "super::",
            Sign::Reference => "&",
            Sign::As => " as ",
            Sign::Let => "let ",
            Sign::LetMut => "let mut ",
            Sign::Equals => " = ",
            Sign::Minus => "-",
        }
    }

    pub(crate) fn put(self, out: &mut Text) -> Result<(), OutOfMemory>
        ensures { OnOk result (out.new ≡ out.old ++ sign self) }
    {
        out.push_str(self.spelled())
    }
}
