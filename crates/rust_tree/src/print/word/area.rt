//! Fixed words of return areas.

ghost use Rattle.std.specs.Prelude.{◌≡◌, ◌++◌, OnOk};
ghost use Rattle.rust_tree.specs.Word.{area_word};

use wit_model::{OutOfMemory, Text};

/// The words of a return area and of a static one.
#[derive(Clone, Copy)]
pub(crate) enum AreaWord {
    PointerAlign,
    Align,
    AlignEnd,
    AreaType,
    AreaValue,
    AreaEnd,
    StaticArea,
}

impl AreaWord {
    #[tactic(auto, unfolding(crate::specs::Word::area_word))]
    fn spelled(self) -> &'static str
        ensures { result.now ≡ area_word self }
    {
        match self {
            AreaWord::PointerAlign =>
                "#[cfg_attr(target_pointer_width = \"64\", repr(align(8)))]\n#[cfg_attr(target_pointer_width = \"32\", repr(align(4)))]\n",
            AreaWord::Align => "#[repr(align(",
            AreaWord::AlignEnd => "))]\n",
            AreaWord::AreaType => "struct _RetArea([::core::mem::MaybeUninit::<u8>; ",
            AreaWord::AreaValue => "_RetArea([::core::mem::MaybeUninit::uninit(); ",
            AreaWord::AreaEnd => "]);\n",
            AreaWord::StaticArea => "static mut _RET_AREA: _RetArea = ",
        }
    }

    pub(crate) fn put(self, out: &mut Text) -> Result<(), OutOfMemory>
        ensures { OnOk result (out.new ≡ out.old ++ area_word self) }
    {
        out.push_str(self.spelled())
    }
}
