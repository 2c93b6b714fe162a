//! Definitions of types.

ghost use Rattle.std.specs.Prelude.{◌≡◌};
ghost use Rattle.std.specs.List.{list_all};
ghost use Rattle.rust_tree.specs.WellNamed.{is_named_alias, is_named_field, is_named_struct, is_named_type_item};

use crate::type_item::{AliasItem, StructField, StructItem, TypeItem};
use crate::well_named::enum_item::is_named_enum;
use crate::well_named::flags_item::is_named_flags;
use crate::well_named::text::{are_lines, are_named_paths, is_name, is_quotable};
use crate::well_named::type_expr::is_named_type;
use crate::well_named::variant_item::is_named_variant;

fn is_named_field(field: &StructField) -> bool
    ensures { result ≡ is_named_field field.now }
{
    are_lines(field.docs.as_slice())
        && is_name(&field.name)
        && is_quotable(&field.wit)
        && is_named_type(&field.ty)
}

fn are_named_fields(fields: &[StructField]) -> bool
    ensures { result ≡ list_all is_named_field fields.now }
{
    fields.iter().all(|field| is_named_field(field))
}

fn is_named_struct(item: &StructItem) -> bool
    ensures { result ≡ is_named_struct item.now }
{
    are_lines(item.docs.as_slice())
        && are_named_paths(item.derives.as_slice())
        && is_name(&item.name)
        && are_named_fields(item.fields.as_slice())
}

fn is_named_alias(item: &AliasItem) -> bool
    ensures { result ≡ is_named_alias item.now }
{
    are_lines(item.docs.as_slice()) && is_name(&item.name) && is_named_type(&item.ty)
}

pub(crate) fn is_named_type_item(item: &TypeItem) -> bool
    ensures { result ≡ is_named_type_item item.now }
{
    match item {
        TypeItem::Struct(item) => is_named_struct(item),
        TypeItem::Alias(item) => is_named_alias(item),
        TypeItem::Enum(item) => is_named_enum(item),
        TypeItem::Flags(item) => is_named_flags(item),
        TypeItem::Variant(item) => is_named_variant(item),
    }
}
