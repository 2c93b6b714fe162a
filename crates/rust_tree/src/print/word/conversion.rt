//! Fixed words of the conversions of `_rt`.

ghost use Rattle.std.specs.Prelude.{◌≡◌, ◌++◌, OnOk};
ghost use Rattle.rust_tree.specs.Word.{conversion_word};

use wit_model::{OutOfMemory, Text};

/// The words of the runtime items that take a number to a core value.
#[derive(Clone, Copy)]
pub(crate) enum ConversionWord {
    ConversionFn,
    ConversionBound,
    ConversionParam,
    ConvertParam,
    ReferenceBound,
    ReferenceTrait,
    ForReference,
    ConvertTarget,
    CallEnd,
    ConversionImpl,
    ImplFor,
    Inline,
    TakesSelf,
    CastSelf,
}

impl ConversionWord {
    #[tactic(auto, unfolding(crate::specs::Word::conversion_word))]
    fn spelled(self) -> &'static str
        ensures { result.now ≡ conversion_word self }
    {
        match self {
            ConversionWord::ConversionFn => "pub fn ",
            ConversionWord::ConversionBound => "<T: ",
            ConversionWord::ConversionParam => ">(t: T) -> ",
            ConversionWord::ConvertParam => "t.",
            ConversionWord::ReferenceBound => "impl<'a, T: Copy + ",
            ConversionWord::ReferenceTrait => "> ",
            ConversionWord::ForReference => " for &'a T {\n",
            ConversionWord::ConvertTarget => "(*self).",
            ConversionWord::CallEnd => "()\n",
            ConversionWord::ConversionImpl => "impl ",
            ConversionWord::ImplFor => " for ",
            ConversionWord::Inline => "#[inline]\n",
            ConversionWord::TakesSelf => "(self) -> ",
            ConversionWord::CastSelf => "self as ",
        }
    }

    pub(crate) fn put(self, out: &mut Text) -> Result<(), OutOfMemory>
        ensures { OnOk result (out.new ≡ out.old ++ conversion_word self) }
    {
        out.push_str(self.spelled())
    }
}
