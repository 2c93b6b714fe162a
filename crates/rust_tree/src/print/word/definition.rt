//! Fixed words of definitions of types, and of types.

ghost use Rattle.std.specs.Prelude.{◌≡◌, ◌++◌, OnOk};
ghost use Rattle.rust_tree.specs.Word.{definition_word};

use wit_model::{OutOfMemory, Text};

/// The words of definitions of types, and of types.
#[derive(Clone, Copy)]
pub(crate) enum DefinitionWord {
    ReprC,
    Derive,
    DeriveEnd,
    PublicStruct,
    PublicField,
    FieldEnd,
    DebugImpl,
    DebugFn,
    DebugStruct,
    DebugName,
    DebugField,
    DebugValue,
    Finish,
    PublicType,
    TupleEnd,
    OptionType,
    ResultType,
    TypeEnd,
    ArrayLength,
}

impl DefinitionWord {
    #[tactic(auto, unfolding(crate::specs::Word::definition_word))]
    fn spelled(self) -> &'static str
        ensures { result.now ≡ definition_word self }
    {
        match self {
            DefinitionWord::ReprC => "#[repr(C)]\n",
            DefinitionWord::Derive => "#[derive(",
            DefinitionWord::DeriveEnd => ")]\n",
            DefinitionWord::PublicStruct => "pub struct ",
            DefinitionWord::PublicField => "pub ",
            DefinitionWord::FieldEnd => ",\n",
            DefinitionWord::DebugImpl => "impl ::core::fmt::Debug for ",
            DefinitionWord::DebugFn =>
                "fn fmt(&self, f: &mut ::core::fmt::Formatter<'_>) -> ::core::fmt::Result {\n",
            DefinitionWord::DebugStruct => "f.debug_struct(\"",
            DefinitionWord::DebugName => "\")",
            DefinitionWord::DebugField => ".field(\"",
            DefinitionWord::DebugValue => "\", &self.",
            DefinitionWord::Finish => ".finish()\n",
            DefinitionWord::PublicType => "pub type ",
            DefinitionWord::TupleEnd => ",)",
            DefinitionWord::OptionType => "::core::option::Option<",
            DefinitionWord::ResultType => "::core::result::Result<",
            DefinitionWord::TypeEnd => ">",
            DefinitionWord::ArrayLength => "; ",
        }
    }

    pub(crate) fn put(self, out: &mut Text) -> Result<(), OutOfMemory>
        ensures { OnOk result (out.new ≡ out.old ++ definition_word self) }
    {
        out.push_str(self.spelled())
    }
}
