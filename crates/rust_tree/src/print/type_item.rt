//! Definitions of types.

ghost use Rattle.std.specs.Prelude.{◌≡◌, ◌++◌, OnOk};
ghost use Rattle.std.specs.List.{flat_map};
ghost use Rattle.rust_tree.specs.DefinitionText.{alias_text, debug_field_text, debug_text, field_text, repr_text, struct_head_text, struct_text, type_item_text};

use crate::print::derives::push_derives;
use crate::print::enum_item::push_enum;
use crate::print::error_type::push_error_type;
use crate::print::flags_item::push_flags;
use crate::print::function::push_docs;
use crate::print::type_name::push_type;
use crate::print::variant_item::push_variant;
use crate::print::word::{DefinitionWord, Sign};
use crate::type_item::{AliasItem, StructField, StructItem, TypeItem};
use wit_model::{OutOfMemory, Text};

fn push_repr(out: &mut Text, repr_c: bool) -> Result<(), OutOfMemory>
    ensures { OnOk result (out.new ≡ out.old ++ repr_text repr_c) }
{
    if repr_c {
        DefinitionWord::ReprC.put(out)?;
    }
    Ok(())
}

fn push_field(out: &mut Text, field: &StructField) -> Result<(), OutOfMemory>
    ensures { OnOk result (out.new ≡ out.old ++ field_text field.now) }
{
    push_docs(out, field.docs.as_slice())?;
    DefinitionWord::PublicField.put(out)?;
    out.push_str(field.name.as_str())?;
    Sign::Colon.put(out)?;
    push_type(out, &field.ty)?;
    DefinitionWord::FieldEnd.put(out)
}

fn push_fields(out: &mut Text, fields: &[StructField]) -> Result<(), OutOfMemory>
    ensures { OnOk result (out.new ≡ out.old ++ flat_map field_text fields.now) }
{
    for field in fields {
        push_field(out, field)?;
    }
    Ok(())
}

fn push_debug_field(out: &mut Text, field: &StructField) -> Result<(), OutOfMemory>
    ensures { OnOk result (out.new ≡ out.old ++ debug_field_text field.now) }
{
    DefinitionWord::DebugField.put(out)?;
    out.push_str(field.wit.as_str())?;
    DefinitionWord::DebugValue.put(out)?;
    out.push_str(field.name.as_str())?;
    Sign::Close.put(out)
}

fn push_debug_fields(out: &mut Text, fields: &[StructField]) -> Result<(), OutOfMemory>
    ensures { OnOk result (out.new ≡ out.old ++ flat_map debug_field_text fields.now) }
{
    for field in fields {
        push_debug_field(out, field)?;
    }
    Ok(())
}

#[tactic(auto, unfolding(crate::specs::DefinitionText::debug_text))]
fn push_debug(out: &mut Text, item: &StructItem) -> Result<(), OutOfMemory>
    ensures { OnOk result (out.new ≡ out.old ++ debug_text item.now) }
{
    DefinitionWord::DebugImpl.put(out)?;
    out.push_str(item.name.as_str())?;
    Sign::OpenBlock.put(out)?;
    DefinitionWord::DebugFn.put(out)?;
    DefinitionWord::DebugStruct.put(out)?;
    out.push_str(item.name.as_str())?;
    DefinitionWord::DebugName.put(out)?;
    push_debug_fields(out, item.fields.as_slice())?;
    DefinitionWord::Finish.put(out)?;
    Sign::CloseBlock.put(out)?;
    Sign::CloseBlock.put(out)
}

#[tactic(auto, unfolding(crate::specs::DefinitionText::struct_head_text))]
fn push_struct_head(out: &mut Text, item: &StructItem) -> Result<(), OutOfMemory>
    ensures { OnOk result (out.new ≡ out.old ++ struct_head_text item.now) }
{
    push_docs(out, item.docs.as_slice())?;
    push_repr(out, item.repr_c)?;
    push_derives(out, item.derives.as_slice())?;
    DefinitionWord::PublicStruct.put(out)?;
    out.push_str(item.name.as_str())?;
    Sign::OpenBlock.put(out)
}

fn push_struct(out: &mut Text, item: &StructItem) -> Result<(), OutOfMemory>
    ensures { OnOk result (out.new ≡ out.old ++ struct_text item.now) }
{
    push_struct_head(out, item)?;
    push_fields(out, item.fields.as_slice())?;
    Sign::CloseBlock.put(out)?;
    push_debug(out, item)?;
    push_error_type(out, &item.name, &item.error)
}

fn push_alias(out: &mut Text, item: &AliasItem) -> Result<(), OutOfMemory>
    ensures { OnOk result (out.new ≡ out.old ++ alias_text item.now) }
{
    push_docs(out, item.docs.as_slice())?;
    DefinitionWord::PublicType.put(out)?;
    out.push_str(item.name.as_str())?;
    Sign::Equals.put(out)?;
    push_type(out, &item.ty)?;
    Sign::StatementEnd.put(out)
}

pub(crate) fn push_type_item(out: &mut Text, item: &TypeItem) -> Result<(), OutOfMemory>
    ensures { OnOk result (out.new ≡ out.old ++ type_item_text item.now) }
{
    match item {
        TypeItem::Struct(item) => push_struct(out, item),
        TypeItem::Alias(item) => push_alias(out, item),
        TypeItem::Enum(item) => push_enum(out, item),
        TypeItem::Flags(item) => push_flags(out, item),
        TypeItem::Variant(item) => push_variant(out, item),
    }
}
