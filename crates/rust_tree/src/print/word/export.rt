//! Fixed words of the wrappers of exports.

ghost use Rattle.std.specs.Prelude.{◌≡◌, ◌++◌, OnOk};
ghost use Rattle.rust_tree.specs.Word.{export_word};

use wit_model::{OutOfMemory, Text};

/// The words of an export wrapper and of a post-return function.
#[derive(Clone, Copy)]
pub(crate) enum ExportWord {
    WrapperFn,
    Bound,
    BoundEnd,
    BoundBlock,
    PlainBlock,
    Implementation,
    CallBlockEnd,
    PostReturnFn,
    PostReturnBound,
}

impl ExportWord {
    #[tactic(auto, unfolding(crate::specs::Word::export_word))]
    fn spelled(self) -> &'static str
        ensures { result.now ≡ export_word self }
    {
        match self {
            ExportWord::WrapperFn =>
                "#[doc(hidden)]\n#[allow(non_snake_case, unused_unsafe)]\npub unsafe fn _export_",
            ExportWord::Bound => "_cabi<T_: ",
            ExportWord::BoundEnd => ">",
            ExportWord::BoundBlock => " = {\n",
            ExportWord::PlainBlock => "{\n",
            ExportWord::Implementation => "T_::",
            ExportWord::CallBlockEnd => "\n};\n",
            ExportWord::PostReturnFn =>
                "#[doc(hidden)]\n#[allow(non_snake_case, unused_unsafe)]\npub unsafe fn __post_return_",
            ExportWord::PostReturnBound => "<T_: ",
        }
    }

    pub(crate) fn put(self, out: &mut Text) -> Result<(), OutOfMemory>
        ensures { OnOk result (out.new ≡ out.old ++ export_word self) }
    {
        out.push_str(self.spelled())
    }
}
