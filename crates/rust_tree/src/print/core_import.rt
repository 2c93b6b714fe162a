//! The text of the declaration of a core import.

ghost use Rattle.std.specs.Prelude.{◌≡◌, ◌++◌, OnOk};
ghost use Rattle.std.specs.List.{flat_map};
ghost use Rattle.rust_tree.specs.CodeText.{core_param_text, core_result_text, core_signature_text, linked_text, unlinked_text};

use crate::print::type_name::push_core_type;
use crate::print::word::{ImportWord, Sign};
use crate::stmt::ImportDecl;
use wit_model::{OutOfMemory, Text, WasmType};

fn push_core_params(out: &mut Text, params: &[WasmType]) -> Result<(), OutOfMemory>
    ensures { OnOk result (out.new ≡ out.old ++ flat_map core_param_text params.now) }
{
    for ty in params {
        ImportWord::UnnamedParam.put(out)?;
        push_core_type(out, *ty)?;
        Sign::Comma.put(out)?;
    }
    Ok(())
}

pub(crate) fn push_core_result(
    out: &mut Text,
    result_type: Option<WasmType>,
) -> Result<(), OutOfMemory>
    ensures { OnOk result (out.new ≡ out.old ++ core_result_text result_type) }
{
    match result_type {
        None => Ok(()),
        Some(ty) => {
            Sign::Arrow.put(out)?;
            push_core_type(out, ty)
        }
    }
}

fn push_core_signature(out: &mut Text, decl: &ImportDecl) -> Result<(), OutOfMemory>
    ensures { OnOk result (out.new ≡ out.old ++ core_signature_text decl.now) }
{
    out.push_str(decl.name.as_str())?;
    Sign::Open.put(out)?;
    push_core_params(out, decl.params.as_slice())?;
    Sign::Close.put(out)?;
    push_core_result(out, decl.result)
}

pub(crate) fn push_linked(out: &mut Text, decl: &ImportDecl) -> Result<(), OutOfMemory>
    ensures { OnOk result (out.new ≡ out.old ++ linked_text decl.now) }
{
    ImportWord::WasmLink.put(out)?;
    out.push_str(decl.module.as_str())?;
    ImportWord::ExternBlock.put(out)?;
    out.push_str(decl.link_name.as_str())?;
    ImportWord::LinkedFn.put(out)?;
    push_core_signature(out, decl)?;
    Sign::StatementEnd.put(out)?;
    Sign::CloseBlock.put(out)
}

pub(crate) fn push_unlinked(out: &mut Text, decl: &ImportDecl) -> Result<(), OutOfMemory>
    ensures { OnOk result (out.new ≡ out.old ++ unlinked_text decl.now) }
{
    ImportWord::OtherFn.put(out)?;
    push_core_signature(out, decl)?;
    ImportWord::Unreachable.put(out)
}
