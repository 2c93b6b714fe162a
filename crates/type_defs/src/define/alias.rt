//! The definition of an alias.

ghost use Rattle.std.specs.Prelude.{◌≡◌, IfOk};
ghost use Rattle.type_defs.specs.Defined.{alias_item};
ghost use Rattle.type_defs.specs.PartType.{part_type};
ghost use Rattle.rust_tree.specs.Ident.{type_ident};
ghost use Rattle.rust_tree.specs.declared.type_item.TypeItem.TheVariants as item;

use crate::define::part::part_type;
use crate::docs::doc_lines;
use rust_tree::{AliasItem, TypeExpr, TypeItem, to_upper_camel_case};
use std::alloc::Global;
use wit_model::{Name, OutOfMemory, TypeDef, WitType};

/// The definition of a name for a printed type, with the docs of its entry.
pub(crate) fn name_for(
    alloc: Global,
    entry: &TypeDef,
    name: &Name,
    ty: TypeExpr,
) -> Result<TypeItem, OutOfMemory>
    ensures { IfOk result
        (λ alias. alias ≡ item.Alias (alias_item entry.now.docs (type_ident name.now) ty)) }
{
    let name = to_upper_camel_case(alloc, name)?;
    Ok(TypeItem::Alias(AliasItem {
        docs: doc_lines(alloc, &entry.docs)?,
        name,
        ty,
    }))
}

/// The definition of an alias.
pub(crate) fn alias_item(
    alloc: Global,
    types: &[TypeDef],
    entry: &TypeDef,
    name: &Name,
    ty: WitType,
) -> Result<TypeItem, OutOfMemory>
    ensures { IfOk result
        (λ alias. alias ≡ item.Alias (alias_item entry.now.docs (type_ident name.now) (part_type types.now ty))) }
{
    let target = part_type(alloc, types, ty)?;
    name_for(alloc, entry, name, target)
}
