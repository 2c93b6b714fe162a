//! The definition of a named option.

ghost use Rattle.std.specs.Prelude.{◌≡◌, IfOk};
ghost use Rattle.type_defs.specs.Defined.{alias_item};
ghost use Rattle.type_defs.specs.PartType.{part_type};
ghost use Rattle.rust_tree.specs.Ident.{type_ident};
ghost use Rattle.rust_tree.specs.declared.type_expr.TypeExpr.TheVariants as type;
ghost use Rattle.rust_tree.specs.declared.type_item.TypeItem.TheVariants as item;

use crate::define::alias::name_for;
use crate::define::part::part_type;
use rust_tree::{TypeExpr, TypeItem};
use std::alloc::Global;
use wit_model::{Boxed, Name, OutOfMemory, TypeDef, WitType};

/// The option of a printed type.
pub(crate) fn option_type(alloc: Global, ty: TypeExpr) -> Result<TypeExpr, OutOfMemory>
    ensures { IfOk result (λ printed. printed ≡ type.Optional ty) }
{
    Ok(TypeExpr::Optional(Boxed::new(alloc, ty)?))
}

/// The definition of an option: a name for the printed option.
pub(crate) fn option_item(
    alloc: Global,
    types: &[TypeDef],
    entry: &TypeDef,
    name: &Name,
    ty: WitType,
) -> Result<TypeItem, OutOfMemory>
    ensures { IfOk result
        (λ alias. alias ≡ item.Alias (alias_item entry.now.docs (type_ident name.now) (type.Optional (part_type types.now ty)))) }
{
    let payload = part_type(alloc, types, ty)?;
    let printed = option_type(alloc, payload)?;
    name_for(alloc, entry, name, printed)
}
