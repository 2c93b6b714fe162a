//! Fixed words of the module `_rt`.

ghost use Rattle.std.specs.Prelude.{◌≡◌, ◌++◌, OnOk};
ghost use Rattle.rust_tree.specs.Word.{runtime_word};

use wit_model::{OutOfMemory, Text};

/// The words of the module `_rt`, of its items from the crate `alloc`, of its unsafe functions, and of the one that frees a
/// block.
#[derive(Clone, Copy)]
pub(crate) enum RuntimeWord {
    RuntimeModule,
    ExternCrate,
    PublicUse,
    UnsafeFn,
    DeallocParams,
    MakeLayout,
    Dealloc,
}

impl RuntimeWord {
    #[tactic(auto, unfolding(crate::specs::Word::runtime_word))]
    fn spelled(self) -> &'static str
        ensures { result.now ≡ runtime_word self }
    {
        match self {
            RuntimeWord::RuntimeModule =>
                "mod _rt {\n#![allow(dead_code, unused_imports, clippy::all)]\n",
            RuntimeWord::ExternCrate => "extern crate alloc as ",
            RuntimeWord::PublicUse => "pub use ",
            RuntimeWord::UnsafeFn => "pub unsafe fn ",
            RuntimeWord::DeallocParams =>
                "(ptr: *mut u8, size: usize, align: usize) {\nif size == 0 {\nreturn;\n}\nunsafe {\nlet layout = ",
            RuntimeWord::MakeLayout => "::Layout::from_size_align_unchecked(size, align);\n",
            RuntimeWord::Dealloc => "::dealloc(ptr, layout);\n}\n}\n",
        }
    }

    pub(crate) fn put(self, out: &mut Text) -> Result<(), OutOfMemory>
        ensures { OnOk result (out.new ≡ out.old ++ runtime_word self) }
    {
        out.push_str(self.spelled())
    }
}
