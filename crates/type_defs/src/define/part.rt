//! How types are printed as parts of a definition.

ghost use Rattle.std.specs.Prelude.{◌≡◌, IfOk, map};
ghost use Rattle.type_defs.specs.PartType.{levels_of, part_type, payload_type, type_within, unnamed_type};
ghost use Rattle.rust_tree.specs.Ident.{type_ident};
ghost use Rattle.type_defs.specs.Paths.{local_path};
ghost use Rattle.rust_tree.specs.declared.type_expr.TypeExpr.TheVariants as type;

use crate::define::options::option_type;
use crate::define::results::result_type;
use crate::paths::local_path;
use crate::printed::printed_type;
use rust_tree::{TypeExpr, to_upper_camel_case};
use std::alloc::Global;
use wit_model::{List, Name, OutOfMemory, TypeDef, TypeDefKind, WitType};

/// A named type, by its path.
pub(crate) fn named_type(alloc: Global, name: &Name) -> Result<TypeExpr, OutOfMemory>
    ensures { IfOk result (λ printed. printed ≡ type.Path (local_path (type_ident name.now))) }
{
    let name = to_upper_camel_case(alloc, name)?;
    Ok(TypeExpr::Path(local_path(alloc, name)?))
}

/// A type with at most so many unnamed types in one another.
#[cycle(part)]
fn type_within(
    alloc: Global,
    types: &[TypeDef],
    levels: u64,
    ty: WitType,
) -> Result<TypeExpr, OutOfMemory>
    ensures { IfOk result (λ printed. printed ≡ type_within types.now levels ty) }
{
    let WitType::Id(id) = ty else {
        return Ok(printed_type(ty));
    };
    if levels == 0 {
        return Ok(TypeExpr::Unit);
    }
    match types.get(id.0 as usize) {
        None => Ok(TypeExpr::Unit),
        Some(entry) => match &entry.name {
            Some(name) => named_type(alloc, name),
            None => unnamed_type(alloc, types, levels - 1, &entry.kind),
        },
    }
}

/// An unnamed type, by its kind.
#[cycle(part)]
fn unnamed_type(
    alloc: Global,
    types: &[TypeDef],
    levels: u64,
    kind: &TypeDefKind,
) -> Result<TypeExpr, OutOfMemory>
    ensures { IfOk result (λ printed. printed ≡ unnamed_type (type_within types.now levels) kind.now) }
{
    match kind {
        TypeDefKind::Alias(ty) => type_within(alloc, types, levels, *ty),
        TypeDefKind::Tuple(parts) => {
            let parts = types_within(alloc, types, levels, parts.as_slice())?;
            Ok(TypeExpr::Tuple(parts))
        }
        TypeDefKind::Option(ty) => {
            let payload = type_within(alloc, types, levels, *ty)?;
            option_type(alloc, payload)
        }
        TypeDefKind::Result(ok, err) => {
            let ok = payload_within(alloc, types, levels, *ok)?;
            let err = payload_within(alloc, types, levels, *err)?;
            result_type(alloc, ok, err)
        }
        _ => Ok(TypeExpr::Unit),
    }
}

#[cycle(part)]
fn payload_within(
    alloc: Global,
    types: &[TypeDef],
    levels: u64,
    payload: Option<WitType>,
) -> Result<TypeExpr, OutOfMemory>
    ensures { IfOk result (λ printed. printed ≡ payload_type (type_within types.now levels) payload) }
{
    match payload {
        None => Ok(TypeExpr::Unit),
        Some(ty) => type_within(alloc, types, levels, ty),
    }
}

#[cycle(part)]
fn types_within(
    alloc: Global,
    types: &[TypeDef],
    levels: u64,
    parts: &[WitType],
) -> Result<List<TypeExpr>, OutOfMemory>
    ensures { IfOk result (λ printed. printed ≡ map (type_within types.now levels) parts.now) }
{
    let mut printed = List::new(alloc);
    for part in parts {
        printed.push(type_within(alloc, types, levels, *part)?)?;
    }
    Ok(printed)
}

pub(crate) fn levels_of(ty: WitType) -> u64
    ensures { result ≡ levels_of ty }
{
    match ty {
        WitType::Id(id) => id.0 as u64 + 1,
        _ => 0,
    }
}

/// A type as a part of a definition, or as a result or parameter that is handed over: a named type by its path, an unnamed one by
/// its kind. What is not in the table, or of a kind that is not printed unnamed, is printed as `()`. `OutOfMemory` comes where there
/// is no memory for a name or a part.
#[tactic(auto, unfolding(crate::specs::PartType::part_type))]
pub fn part_type(alloc: Global, types: &[TypeDef], ty: WitType) -> Result<TypeExpr, OutOfMemory>
    ensures { IfOk result (λ printed. printed ≡ part_type types.now ty) }
{
    type_within(alloc, types, levels_of(ty), ty)
}
