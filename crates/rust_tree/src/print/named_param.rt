//! Core parameters with names, which export wrappers and the functions of module macros have.

ghost use Rattle.std.specs.Prelude.{◌≡◌, ◌++◌, OnOk};
ghost use Rattle.std.specs.List.{join_by};
ghost use Rattle.rust_tree.specs.ExportText.{named_param_text, named_signature_text, names_text};
ghost use Rattle.rust_tree.specs.Word.{sign};
ghost use Rattle.rust_tree.specs.declared.print.word.sign.Sign.TheVariants.{Comma};

use crate::export::CoreParam;
use crate::print::core_import::push_core_result;
use crate::print::type_name::push_core_type;
use crate::print::word::Sign;
use wit_model::{OutOfMemory, Text, WasmType};

fn push_named_params(out: &mut Text, params: &[CoreParam]) -> Result<(), OutOfMemory>
    ensures { OnOk result (out.new ≡ out.old ++ join_by named_param_text (sign Comma) params.now) }
{
    for (i, param) in params.iter().enumerate() {
        if i > 0 {
            Sign::Comma.put(out)?;
        }
        out.push_str(param.name.as_str())?;
        Sign::Colon.put(out)?;
        push_core_type(out, param.ty)?;
    }
    Ok(())
}

pub(crate) fn push_named_signature(
    out: &mut Text,
    params: &[CoreParam],
    result_type: Option<WasmType>,
) -> Result<(), OutOfMemory>
    ensures { OnOk result (out.new ≡ out.old ++ named_signature_text params.now result_type) }
{
    Sign::Open.put(out)?;
    push_named_params(out, params)?;
    Sign::Close.put(out)?;
    push_core_result(out, result_type)
}

pub(crate) fn push_param_names(out: &mut Text, params: &[CoreParam]) -> Result<(), OutOfMemory>
    ensures { OnOk result (out.new ≡ out.old ++ names_text params.now) }
{
    for (i, param) in params.iter().enumerate() {
        if i > 0 {
            Sign::Comma.put(out)?;
        }
        out.push_str(param.name.as_str())?;
    }
    Ok(())
}
