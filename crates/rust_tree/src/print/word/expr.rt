//! Fixed words of expressions.

ghost use Rattle.std.specs.Prelude.{◌≡◌, ◌++◌, OnOk};
ghost use Rattle.rust_tree.specs.Word.{expr_word};

use wit_model::{OutOfMemory, Text};

/// The words of expressions.
#[derive(Clone, Copy)]
pub(crate) enum ExprWord {
    Match,
    BoolArms,
    AsPtr,
    Len,
    CastMut,
    AreaPointer,
    Dereference,
    Add,
    CastTo,
    CastEnd,
    FromRawParts,
    PointerCast,
    IntoBoxedBytes,
    StaticPointer,
    OpenFields,
    CloseFields,
    OpenArray,
    CloseArray,
    LoneComma,
    Widened,
    CaseNumber,
}

impl ExprWord {
    #[tactic(auto, unfolding(crate::specs::Word::expr_word))]
    fn spelled(self) -> &'static str
        ensures { result.now ≡ expr_word self }
    {
        match self {
            ExprWord::Match => "match ",
            ExprWord::BoolArms => " { true => 1i32, false => 0i32 }",
            ExprWord::AsPtr => ".as_ptr().cast::<u8>()",
            ExprWord::Len => ".len()",
            ExprWord::CastMut => ".cast_mut()",
            ExprWord::AreaPointer => ".0.as_mut_ptr().cast::<u8>()",
            ExprWord::Dereference => "*",
            ExprWord::Add => ".add(",
            ExprWord::CastTo => ").cast::<",
            ExprWord::CastEnd => ">()",
            ExprWord::FromRawParts => "_rt::Vec::from_raw_parts(",
            ExprWord::PointerCast => ".cast(), ",
            ExprWord::IntoBoxedBytes => ".into_bytes()).into_boxed_slice()",
            ExprWord::StaticPointer => "(&raw mut _RET_AREA.0).cast::<u8>()",
            ExprWord::OpenFields => " { ",
            ExprWord::CloseFields => " }",
            ExprWord::OpenArray => "[",
            ExprWord::CloseArray => "]",
            ExprWord::LoneComma => ",",
            ExprWord::Widened => "i32::from(*",
            ExprWord::CaseNumber => ").clone() as i32",
        }
    }

    pub(crate) fn put(self, out: &mut Text) -> Result<(), OutOfMemory>
        ensures { OnOk result (out.new ≡ out.old ++ expr_word self) }
    {
        out.push_str(self.spelled())
    }
}
