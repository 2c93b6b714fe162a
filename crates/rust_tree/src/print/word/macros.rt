//! Fixed words of the macros that export functions.

ghost use Rattle.std.specs.Prelude.{◌≡◌, ◌++◌, OnOk};
ghost use Rattle.rust_tree.specs.Word.{macro_word};

use wit_model::{OutOfMemory, Text};

/// The words of the macros that export functions.
#[derive(Clone, Copy)]
pub(crate) enum MacroWord {
    ModuleRules,
    ModuleArm,
    ExportName,
    ExternFn,
    CallWrapper,
    ForImplementation,
    CallWrapperEnd,
    ModuleUse,
    ModuleUseEnd,
    RootRules,
    RootArms,
    CallModule,
    CallModuleEnd,
    RootUse,
    RootUseEnd,
    ExternPostReturn,
    CallPostReturn,
    ForType,
}

impl MacroWord {
    #[tactic(auto, unfolding(crate::specs::Word::macro_word))]
    fn spelled(self) -> &'static str
        ensures { result.now ≡ macro_word self }
    {
        match self {
            MacroWord::ModuleRules => "#[doc(hidden)]\nmacro_rules! __export_",
            MacroWord::ModuleArm =>
                "_cabi {\n($ty:ident with_types_in $($path_to_types:tt)*) => (const _: () = {\n",
            MacroWord::ExportName => "#[unsafe(export_name = \"",
            MacroWord::ExternFn => "\")]\nunsafe extern \"C\" fn export_",
            MacroWord::CallWrapper => " {\nunsafe { $($path_to_types)*::_export_",
            MacroWord::ForImplementation => "_cabi::<$ty>(",
            MacroWord::CallWrapperEnd => ") }\n}\n",
            MacroWord::ModuleUse => "};);\n}\n#[doc(hidden)]\npub(crate) use __export_",
            MacroWord::ModuleUseEnd => "_cabi;\n",
            MacroWord::RootRules =>
                "#[allow(unused_macros)]\n#[doc(hidden)]\nmacro_rules! __export_",
            MacroWord::RootArms =>
                "_impl {\n($ty:ident) => (self::export!($ty with_types_in self););\n($ty:ident with_types_in $($path_to_types_root:tt)*) => (\n",
            MacroWord::CallModule => "$($path_to_types_root)*::__export_",
            MacroWord::CallModuleEnd => "_cabi!($ty with_types_in $($path_to_types_root)*);\n",
            MacroWord::RootUse => ")\n}\n#[doc(inline)]\npub(crate) use __export_",
            MacroWord::RootUseEnd => "_impl as export;\n",
            MacroWord::ExternPostReturn => "\")]\nunsafe extern \"C\" fn _post_return_",
            MacroWord::CallPostReturn => " {\nunsafe { $($path_to_types)*::__post_return_",
            MacroWord::ForType => "::<$ty>(",
        }
    }

    pub(crate) fn put(self, out: &mut Text) -> Result<(), OutOfMemory>
        ensures { OnOk result (out.new ≡ out.old ++ macro_word self) }
    {
        out.push_str(self.spelled())
    }
}
