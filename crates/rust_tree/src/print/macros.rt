//! The macros that export functions: one for each module, and one for the file.

ghost use Rattle.std.specs.Prelude.{◌≡◌, ◌++◌, OnOk};
ghost use Rattle.std.specs.List.{flat_map};
ghost use Rattle.rust_tree.specs.ExportText.{call_word, entry_body_text, entry_head_text, entry_text, extern_word, for_type_word, module_call_text, module_macro_text, root_macro_text};

use crate::macros::{EntryKind, ExportEntry, ModuleMacro, RootMacro};
use crate::print::named_param::{push_named_signature, push_param_names};
use crate::print::word::MacroWord;
use wit_model::{OutOfMemory, Text};

/// The word before the base name in the name of the exported function.
fn extern_word(kind: EntryKind) -> MacroWord
    ensures { result ≡ extern_word kind }
{
    match kind {
        EntryKind::Wrapper => MacroWord::ExternFn,
        EntryKind::PostReturn => MacroWord::ExternPostReturn,
    }
}

/// The word before the base name in the name of the function that it calls.
fn call_word(kind: EntryKind) -> MacroWord
    ensures { result ≡ call_word kind }
{
    match kind {
        EntryKind::Wrapper => MacroWord::CallWrapper,
        EntryKind::PostReturn => MacroWord::CallPostReturn,
    }
}

/// The word behind the base name in that call, which names the implementation.
fn for_type_word(kind: EntryKind) -> MacroWord
    ensures { result ≡ for_type_word kind }
{
    match kind {
        EntryKind::Wrapper => MacroWord::ForImplementation,
        EntryKind::PostReturn => MacroWord::ForType,
    }
}

fn push_entry_head(out: &mut Text, entry: &ExportEntry) -> Result<(), OutOfMemory>
    ensures { OnOk result (out.new ≡ out.old ++ entry_head_text entry.now) }
{
    MacroWord::ExportName.put(out)?;
    out.push_str(entry.export_name.as_str())?;
    extern_word(entry.kind).put(out)?;
    out.push_str(entry.base.as_str())?;
    push_named_signature(out, entry.params.as_slice(), entry.result)
}

fn push_entry_body(out: &mut Text, entry: &ExportEntry) -> Result<(), OutOfMemory>
    ensures { OnOk result (out.new ≡ out.old ++ entry_body_text entry.now) }
{
    call_word(entry.kind).put(out)?;
    out.push_str(entry.base.as_str())?;
    for_type_word(entry.kind).put(out)?;
    push_param_names(out, entry.params.as_slice())?;
    MacroWord::CallWrapperEnd.put(out)
}

fn push_entries(out: &mut Text, entries: &[ExportEntry]) -> Result<(), OutOfMemory>
    ensures { OnOk result (out.new ≡ out.old ++ flat_map entry_text entries.now) }
{
    for entry in entries {
        push_entry_head(out, entry)?;
        push_entry_body(out, entry)?;
    }
    Ok(())
}

pub(crate) fn push_module_macro(out: &mut Text, item: &ModuleMacro) -> Result<(), OutOfMemory>
    ensures { OnOk result (out.new ≡ out.old ++ module_macro_text item.now) }
{
    MacroWord::ModuleRules.put(out)?;
    out.push_str(item.name.as_str())?;
    MacroWord::ModuleArm.put(out)?;
    push_entries(out, item.entries.as_slice())?;
    MacroWord::ModuleUse.put(out)?;
    out.push_str(item.name.as_str())?;
    MacroWord::ModuleUseEnd.put(out)
}

fn push_module_calls(out: &mut Text, modules: &[Text]) -> Result<(), OutOfMemory>
    ensures { OnOk result (out.new ≡ out.old ++ flat_map module_call_text modules.now) }
{
    for module in modules {
        MacroWord::CallModule.put(out)?;
        out.push_str(module.as_str())?;
        MacroWord::CallModuleEnd.put(out)?;
    }
    Ok(())
}

pub(crate) fn push_root_macro(out: &mut Text, item: &RootMacro) -> Result<(), OutOfMemory>
    ensures { OnOk result (out.new ≡ out.old ++ root_macro_text item.now) }
{
    MacroWord::RootRules.put(out)?;
    out.push_str(item.world.as_str())?;
    MacroWord::RootArms.put(out)?;
    push_module_calls(out, item.modules.as_slice())?;
    MacroWord::RootUse.put(out)?;
    out.push_str(item.world.as_str())?;
    MacroWord::RootUseEnd.put(out)
}
