//! Fixed words of definitions of enums and variants.

ghost use Rattle.std.specs.Prelude.{◌≡◌, ◌++◌, OnOk};
ghost use Rattle.rust_tree.specs.Word.{enum_word};

use wit_model::{OutOfMemory, Text};

/// The words of definitions of enums and variants.
#[derive(Clone, Copy)]
pub(crate) enum EnumWord {
    OpenRepr,
    CloseRepr,
    PublicEnum,
    CaseEnd,
    Impl,
    MatchSelf,
    CaseTuple,
    CaseFinish,
    PayloadTuple,
    PayloadFinish,
    NameFn,
    MessageFn,
    CaseText,
    CaseTextEnd,
    ErrorFields,
    DisplayImpl,
    WriteError,
    WriteDebug,
    StdFeature,
    ErrorImpl,
    EmptyBlock,
    LiftFn,
    LiftResult,
    LiftBody,
    Arm,
    NoCase,
    EscapedQuote,
    EscapedBackslash,
    EscapedLineFeed,
    EscapedReturn,
}

impl EnumWord {
    #[tactic(auto, unfolding(crate::specs::Word::enum_word))]
    fn spelled(self) -> &'static str
        ensures { result.now ≡ enum_word self }
    {
        match self {
            EnumWord::OpenRepr => "#[repr(",
            EnumWord::CloseRepr => ")]\n",
            EnumWord::PublicEnum => "pub enum ",
            EnumWord::CaseEnd => ",\n",
            EnumWord::Impl => "impl ",
            EnumWord::MatchSelf => "match self {\n",
            EnumWord::CaseTuple => " => f.debug_tuple(\"",
            EnumWord::CaseFinish => "\").finish(),\n",
            EnumWord::PayloadTuple => "(e) => f.debug_tuple(\"",
            EnumWord::PayloadFinish => "\").field(e).finish(),\n",
            EnumWord::NameFn => "pub fn name(&self) -> &'static str {\n",
            EnumWord::MessageFn => "pub fn message(&self) -> &'static str {\n",
            EnumWord::CaseText => " => \"",
            EnumWord::CaseTextEnd => "\",\n",
            EnumWord::ErrorFields =>
                "\").field(\"code\", &(*self as i32)).field(\"name\", &self.name()).field(\"message\", &self.message()).finish()\n",
            EnumWord::DisplayImpl => "impl ::core::fmt::Display for ",
            EnumWord::WriteError =>
                "::core::write!(f, \"{} (error {})\", self.name(), *self as i32)\n",
            EnumWord::WriteDebug => "::core::write!(f, \"{:?}\", self)\n",
            EnumWord::StdFeature => "#[cfg(feature = \"std\")]\n",
            EnumWord::ErrorImpl => "impl ::core::error::Error for ",
            EnumWord::EmptyBlock => " {}\n",
            EnumWord::LiftFn => "#[doc(hidden)]\npub unsafe fn _lift(val: ",
            EnumWord::LiftResult => ") -> ",
            EnumWord::LiftBody =>
                " {\nif !cfg!(debug_assertions) { return unsafe { ::core::mem::transmute(val) }; }\nmatch val {\n",
            EnumWord::Arm => " => ",
            EnumWord::NoCase => "_ => panic!(\"invalid enum discriminant\"),\n}\n}\n}\n",
            EnumWord::EscapedQuote => "\\\"",
            EnumWord::EscapedBackslash => "\\\\",
            EnumWord::EscapedLineFeed => "\\n",
            EnumWord::EscapedReturn => "\\r",
        }
    }

    pub(crate) fn put(self, out: &mut Text) -> Result<(), OutOfMemory>
        ensures { OnOk result (out.new ≡ out.old ++ enum_word self) }
    {
        out.push_str(self.spelled())
    }
}
