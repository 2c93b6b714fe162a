//! The definition of a named tuple.

ghost use Rattle.std.specs.Prelude.{◌≡◌, IfOk, map};
ghost use Rattle.type_defs.specs.Defined.{alias_item};
ghost use Rattle.type_defs.specs.PartType.{part_type};
ghost use Rattle.rust_tree.specs.Ident.{type_ident};
ghost use Rattle.rust_tree.specs.declared.type_expr.TypeExpr.TheVariants as type;
ghost use Rattle.rust_tree.specs.declared.type_item.TypeItem.TheVariants as item;

use crate::define::alias::name_for;
use crate::define::part::part_type;
use rust_tree::{TypeExpr, TypeItem};
use std::alloc::Global;
use wit_model::{List, Name, OutOfMemory, TypeDef, WitType};

fn part_types(
    alloc: Global,
    types: &[TypeDef],
    parts: &[WitType],
) -> Result<List<TypeExpr>, OutOfMemory>
    ensures { IfOk result (λ printed. printed ≡ map (part_type types.now) parts.now) }
{
    let mut printed = List::new(alloc);
    for part in parts {
        printed.push(part_type(alloc, types, *part)?)?;
    }
    Ok(printed)
}

/// The definition of a tuple: a name for the printed tuple.
pub(crate) fn tuple_item(
    alloc: Global,
    types: &[TypeDef],
    entry: &TypeDef,
    name: &Name,
    parts: &[WitType],
) -> Result<TypeItem, OutOfMemory>
    ensures { IfOk result
        (λ alias. alias ≡ item.Alias (alias_item entry.now.docs (type_ident name.now) (type.Tuple (map (part_type types.now) parts.now)))) }
{
    let printed = part_types(alloc, types, parts)?;
    name_for(alloc, entry, name, TypeExpr::Tuple(printed))
}
