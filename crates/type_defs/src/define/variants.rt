//! The definition of a variant.

ghost use Rattle.std.specs.Prelude.{◌≡◌, IfOk, map};
ghost use Rattle.std.specs.Option.{option_map};
ghost use Rattle.type_defs.specs.PartType.{part_type};
ghost use Rattle.type_defs.specs.VariantDef.{variant_case, variant_item};
ghost use Rattle.rust_tree.specs.Ident.{type_ident};
ghost use Rattle.rust_tree.specs.declared.type_item.TypeItem.TheVariants as item;

use crate::define::derives::derives_of;
use crate::define::error_type::error_type;
use crate::define::part::part_type;
use crate::docs::doc_lines;
use rust_tree::{TypeExpr, TypeItem, VariantCase, VariantItem, to_upper_camel_case};
use std::alloc::Global;
use type_facts::TypeInfo;
use wit_model::{Case, List, Name, OutOfMemory, TypeDef, WitType};

fn payload(
    alloc: Global,
    types: &[TypeDef],
    ty: Option<WitType>,
) -> Result<Option<TypeExpr>, OutOfMemory>
    ensures { IfOk result (λ printed. printed ≡ option_map (part_type types.now) ty) }
{
    match ty {
        None => Ok(None),
        Some(ty) => Ok(Some(part_type(alloc, types, ty)?)),
    }
}

fn variant_case(alloc: Global, types: &[TypeDef], case: &Case) -> Result<VariantCase, OutOfMemory>
    ensures { IfOk result (λ c. c ≡ variant_case types.now case.now) }
{
    let docs = doc_lines(alloc, &case.docs)?;
    let name = case.name.camel.copy(alloc)?;
    Ok(VariantCase {
        docs,
        name,
        ty: payload(alloc, types, case.ty)?,
    })
}

fn variant_cases(
    alloc: Global,
    types: &[TypeDef],
    cases: &[Case],
) -> Result<List<VariantCase>, OutOfMemory>
    ensures { IfOk result (λ items. items ≡ map (variant_case types.now) cases.now) }
{
    let mut items = List::new(alloc);
    for case in cases {
        items.push(variant_case(alloc, types, case)?)?;
    }
    Ok(items)
}

/// The definition of a variant.
pub(crate) fn variant_item(
    alloc: Global,
    types: &[TypeDef],
    info: TypeInfo,
    entry: &TypeDef,
    name: &Name,
    cases: &[Case],
) -> Result<TypeItem, OutOfMemory>
    ensures { IfOk result
        (λ it. it ≡ item.Variant (variant_item types.now info entry.now.docs (type_ident name.now) cases.now)) }
{
    let docs = doc_lines(alloc, &entry.docs)?;
    let derives = derives_of(alloc, info)?;
    let name = to_upper_camel_case(alloc, name)?;
    Ok(TypeItem::Variant(VariantItem {
        docs,
        derives,
        name,
        cases: variant_cases(alloc, types, cases)?,
        error: error_type(info),
    }))
}
