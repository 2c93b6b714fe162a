//! The definition of a named result.

ghost use Rattle.std.specs.Prelude.{◌≡◌, IfOk};
ghost use Rattle.type_defs.specs.Defined.{alias_item};
ghost use Rattle.type_defs.specs.PartType.{part_type, payload_type, result_type};
ghost use Rattle.rust_tree.specs.Ident.{type_ident};
ghost use Rattle.rust_tree.specs.declared.type_expr.TypeExpr.TheVariants as type;
ghost use Rattle.rust_tree.specs.declared.type_item.TypeItem.TheVariants as item;

use crate::define::alias::name_for;
use crate::define::part::part_type;
use rust_tree::{TypeExpr, TypeItem};
use std::alloc::Global;
use wit_model::{Boxed, Name, OutOfMemory, TypeDef, WitType};

/// The result of two printed types.
pub(crate) fn result_type(
    alloc: Global,
    ok: TypeExpr,
    err: TypeExpr,
) -> Result<TypeExpr, OutOfMemory>
    ensures { IfOk result (λ printed. printed ≡ type.Result ok err) }
{
    let ok = Boxed::new(alloc, ok)?;
    Ok(TypeExpr::Result(ok, Boxed::new(alloc, err)?))
}

/// A payload as a part of a definition.
fn payload_type(
    alloc: Global,
    types: &[TypeDef],
    payload: Option<WitType>,
) -> Result<TypeExpr, OutOfMemory>
    ensures { IfOk result (λ printed. printed ≡ payload_type (part_type types.now) payload) }
{
    match payload {
        None => Ok(TypeExpr::Unit),
        Some(ty) => part_type(alloc, types, ty),
    }
}

/// The definition of a result: a name for the printed result.
pub(crate) fn result_item(
    alloc: Global,
    types: &[TypeDef],
    entry: &TypeDef,
    name: &Name,
    ok: Option<WitType>,
    err: Option<WitType>,
) -> Result<TypeItem, OutOfMemory>
    ensures { IfOk result
        (λ alias. alias ≡ item.Alias (alias_item entry.now.docs (type_ident name.now) (result_type (part_type types.now) ok err))) }
{
    let ok = payload_type(alloc, types, ok)?;
    let err = payload_type(alloc, types, err)?;
    let printed = result_type(alloc, ok, err)?;
    name_for(alloc, entry, name, printed)
}
