//! Definitions of variants.

ghost use Rattle.std.specs.Prelude.{◌≡◌, ◌++◌, OnOk};
ghost use Rattle.std.specs.List.{flat_map};
ghost use Rattle.rust_tree.specs.VariantText.{debug_payload_text, payload_text, shown_text, variant_case_text, variant_debug_text, variant_head_text, variant_text};

use crate::print::enum_item::{
    push_case_path, push_debug_case, push_debug_close, push_debug_open, push_enum_open,
};
use crate::print::error_type::push_error_type;
use crate::print::function::push_docs;
use crate::print::type_name::push_type;
use crate::print::word::{EnumWord, Sign};
use crate::type_expr::TypeExpr;
use crate::variant_item::{VariantCase, VariantItem};
use wit_model::{OutOfMemory, Text};

fn push_payload(out: &mut Text, ty: &Option<TypeExpr>) -> Result<(), OutOfMemory>
    ensures { OnOk result (out.new ≡ out.old ++ payload_text ty.now) }
{
    match ty {
        None => Ok(()),
        Some(ty) => {
            Sign::Open.put(out)?;
            push_type(out, ty)?;
            Sign::Close.put(out)
        }
    }
}

fn push_case(out: &mut Text, case: &VariantCase) -> Result<(), OutOfMemory>
    ensures { OnOk result (out.new ≡ out.old ++ variant_case_text case.now) }
{
    push_docs(out, case.docs.as_slice())?;
    out.push_str(case.name.as_str())?;
    push_payload(out, &case.ty)?;
    EnumWord::CaseEnd.put(out)
}

fn push_cases(out: &mut Text, cases: &[VariantCase]) -> Result<(), OutOfMemory>
    ensures { OnOk result (out.new ≡ out.old ++ flat_map variant_case_text cases.now) }
{
    for case in cases {
        push_case(out, case)?;
    }
    Ok(())
}

fn push_debug_payload(out: &mut Text, name: &Text, case: &Text) -> Result<(), OutOfMemory>
    ensures { OnOk result (out.new ≡ out.old ++ debug_payload_text name.now case.now) }
{
    push_case_path(out, name, case)?;
    EnumWord::PayloadTuple.put(out)?;
    push_case_path(out, name, case)?;
    EnumWord::PayloadFinish.put(out)
}

fn push_shown(out: &mut Text, name: &Text, case: &VariantCase) -> Result<(), OutOfMemory>
    ensures { OnOk result (out.new ≡ out.old ++ shown_text name.now case.now.name case.now.ty) }
{
    match &case.ty {
        None => push_debug_case(out, name, &case.name),
        Some(_) => push_debug_payload(out, name, &case.name),
    }
}

fn push_all_shown(out: &mut Text, name: &Text, cases: &[VariantCase]) -> Result<(), OutOfMemory>
    ensures { OnOk result (out.new ≡ out.old ++ flat_map (λ c. shown_text name.now c.name c.ty) cases.now) }
{
    for case in cases {
        push_shown(out, name, case)?;
    }
    Ok(())
}

fn push_variant_debug(out: &mut Text, item: &VariantItem) -> Result<(), OutOfMemory>
    ensures { OnOk result (out.new ≡ out.old ++ variant_debug_text item.now) }
{
    push_debug_open(out, &item.name)?;
    push_all_shown(out, &item.name, item.cases.as_slice())?;
    push_debug_close(out)
}

fn push_variant_head(out: &mut Text, item: &VariantItem) -> Result<(), OutOfMemory>
    ensures { OnOk result (out.new ≡ out.old ++ variant_head_text item.now) }
{
    push_docs(out, item.docs.as_slice())?;
    push_enum_open(out, item.derives.as_slice(), &item.name)
}

pub(crate) fn push_variant(out: &mut Text, item: &VariantItem) -> Result<(), OutOfMemory>
    ensures { OnOk result (out.new ≡ out.old ++ variant_text item.now) }
{
    push_variant_head(out, item)?;
    push_cases(out, item.cases.as_slice())?;
    Sign::CloseBlock.put(out)?;
    push_variant_debug(out, item)?;
    push_error_type(out, &item.name, &item.error)
}
