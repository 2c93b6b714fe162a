//! Fixed words of a local that is written later.

ghost use Rattle.std.specs.Prelude.{◌≡◌, ◌++◌, OnOk};
ghost use Rattle.rust_tree.specs.Word.{slot_word};

use wit_model::{OutOfMemory, Text};

/// The words of a local for a number or a pointer.
#[derive(Clone, Copy)]
pub(crate) enum SlotWord {
    Uninit,
    Write,
    WriteEnd,
}

impl SlotWord {
    #[tactic(auto, unfolding(crate::specs::Word::slot_word))]
    fn spelled(self) -> &'static str
        ensures { result.now ≡ slot_word self }
    {
        match self {
            SlotWord::Uninit => " = ::core::mem::MaybeUninit::<u64>::uninit();\n",
            SlotWord::Write => ".as_mut_ptr().cast::<*mut u8>().write(",
            SlotWord::WriteEnd => ");\n",
        }
    }

    pub(crate) fn put(self, out: &mut Text) -> Result<(), OutOfMemory>
        ensures { OnOk result (out.new ≡ out.old ++ slot_word self) }
    {
        out.push_str(self.spelled())
    }
}
