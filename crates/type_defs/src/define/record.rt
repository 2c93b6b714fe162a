//! The definition of a record.

ghost use Rattle.std.specs.Prelude.{◌≡◌, IfOk, map};
ghost use Rattle.type_defs.specs.Defined.{field_item, record_item};
ghost use Rattle.rust_tree.specs.Ident.{type_ident};
ghost use Rattle.rust_tree.specs.declared.type_item.TypeItem.TheVariants as item;

use crate::define::derives::derives_of;
use crate::define::error_type::error_type;
use crate::define::part::part_type;
use crate::docs::doc_lines;
use rust_tree::{StructField, StructItem, TypeItem, to_rust_ident, to_upper_camel_case};
use std::alloc::Global;
use type_facts::TypeInfo;
use wit_model::{Field, List, Name, OutOfMemory, TypeDef};

fn field_item(alloc: Global, types: &[TypeDef], field: &Field) -> Result<StructField, OutOfMemory>
    ensures { IfOk result (λ item. item ≡ field_item types.now field.now) }
{
    let docs = doc_lines(alloc, &field.docs)?;
    let name = to_rust_ident(alloc, &field.name)?;
    let wit = field.name.wit.copy(alloc)?;
    Ok(StructField {
        docs,
        name,
        wit,
        ty: part_type(alloc, types, field.ty)?,
    })
}

fn field_items(
    alloc: Global,
    types: &[TypeDef],
    fields: &[Field],
) -> Result<List<StructField>, OutOfMemory>
    ensures { IfOk result (λ items. items ≡ map (field_item types.now) fields.now) }
{
    let mut items = List::new(alloc);
    for field in fields {
        items.push(field_item(alloc, types, field)?)?;
    }
    Ok(items)
}

/// The definition of a record.
pub(crate) fn record_item(
    alloc: Global,
    types: &[TypeDef],
    info: TypeInfo,
    entry: &TypeDef,
    name: &Name,
    fields: &[Field],
) -> Result<TypeItem, OutOfMemory>
    ensures { IfOk result
        (λ it. it ≡ item.Struct (record_item types.now info entry.now.docs (type_ident name.now) fields.now)) }
{
    let docs = doc_lines(alloc, &entry.docs)?;
    let derives = derives_of(alloc, info)?;
    let name = to_upper_camel_case(alloc, name)?;
    Ok(TypeItem::Struct(StructItem {
        docs,
        repr_c: info.is_copy(),
        derives,
        name,
        fields: field_items(alloc, types, fields)?,
        error: error_type(info),
    }))
}
