//! Fixed words of the declaration of a core import.

ghost use Rattle.std.specs.Prelude.{◌≡◌, ◌++◌, OnOk};
ghost use Rattle.rust_tree.specs.Word.{import_word};

use wit_model::{OutOfMemory, Text};

/// The words of a core import's declaration.
#[derive(Clone, Copy)]
pub(crate) enum ImportWord {
    WasmLink,
    ExternBlock,
    LinkedFn,
    OtherFn,
    Unreachable,
    UnnamedParam,
}

impl ImportWord {
    #[tactic(auto, unfolding(crate::specs::Word::import_word))]
    fn spelled(self) -> &'static str
        ensures { result.now ≡ import_word self }
    {
        match self {
            ImportWord::WasmLink =>
                "#[cfg(target_arch = \"wasm32\")]\n#[link(wasm_import_module = \"",
            ImportWord::ExternBlock => "\")]\nunsafe extern \"C\" {\n#[link_name = \"",
            ImportWord::LinkedFn => "\"]\nfn ",
            ImportWord::OtherFn => "#[cfg(not(target_arch = \"wasm32\"))]\nunsafe extern \"C\" fn ",
            ImportWord::Unreachable => " { unreachable!() }\n",
            ImportWord::UnnamedParam => "_: ",
        }
    }

    pub(crate) fn put(self, out: &mut Text) -> Result<(), OutOfMemory>
        ensures { OnOk result (out.new ≡ out.old ++ import_word self) }
    {
        out.push_str(self.spelled())
    }
}
