//! How the parameters of imported functions are printed, where types are owned: what reaches a text is lent.

ghost use Rattle.std.specs.Prelude.{◌≡◌, true, length, List, IfOk, map};
ghost use Rattle.std.specs.List.{list_all};
ghost use Rattle.wit_model.specs.declared.resolve.Resolve.{Resolve};
ghost use Rattle.wit_model.specs.TypeOrder.{GoesDown, parts_below, payload_below, type_below};
ghost use Rattle.rust_tree.specs.Ident.{type_ident};
ghost use Rattle.rust_tree.specs.declared.type_expr.TypeExpr.TheVariants as type;
ghost use Rattle.type_facts.specs.Facts.{type_count};
ghost use Rattle.type_facts.specs.Own.{is_string};
ghost use Rattle.type_defs.specs.ParamType.{HasFacts, has_list, is_text, is_text_alias, lent_type, lent_unnamed, lent_within, param_by, param_type};
ghost use Rattle.type_defs.specs.PartType.{payload_type};
ghost use Rattle.type_defs.specs.Paths.{local_path};

use crate::define::options::option_type;
use crate::define::part::{levels_of, named_type, part_type};
use crate::define::results::result_type;
use crate::printed::printed_type;
use rust_tree::TypeExpr;
use std::alloc::Global;
use type_facts::Types;
use wit_model::{Boxed, List, Name, OutOfMemory, Resolve, TypeDefKind, WitType, dealias};

fn is_string(ty: WitType) -> bool
    ensures { result ≡ is_string ty }
{
    match ty {
        WitType::String => true,
        _ => false,
    }
}

fn is_text_alias(kind: &TypeDefKind) -> bool
    ensures { result ≡ is_text_alias kind.now }
{
    match kind {
        TypeDefKind::Alias(ty) => is_string(*ty),
        _ => false,
    }
}

/// Whether a text stands behind the aliases of a type.
fn is_text(resolve: &Resolve, ty: WitType) -> bool
    requires { GoesDown resolve.now.types }
    ensures { result ≡ is_text resolve.now.types ty }
{
    let WitType::Id(id) = ty else {
        return is_string(ty);
    };
    match resolve.type_def(dealias(resolve, id)) {
        None => false,
        Some(entry) => is_text_alias(&entry.kind),
    }
}

/// Whether a type reaches a text or a list.
fn has_list(facts: &Types, ty: WitType) -> bool
    requires { type_below (type_count facts.now) ty ≡ true }
    ensures { (r : Resolve) → HasFacts r facts.now → result ≡ has_list r.types ty }
{
    match ty {
        WitType::Id(id) => facts.get(id).has_list,
        _ => is_string(ty),
    }
}

fn lent(alloc: Global, ty: TypeExpr) -> Result<TypeExpr, OutOfMemory>
    ensures { IfOk result (λ printed. printed ≡ type.Ref ty) }
{
    Ok(TypeExpr::Ref(Boxed::new(alloc, ty)?))
}

/// A named type that is lent, by its path.
fn lent_name(alloc: Global, name: &Name) -> Result<TypeExpr, OutOfMemory>
    ensures { IfOk result (λ printed. printed ≡ type.Ref (type.Path (local_path (type_ident name.now)))) }
{
    let path = named_type(alloc, name)?;
    lent(alloc, path)
}

/// A lent type with at most so many unnamed types in one another.
#[cycle(param)]
fn lent_within(
    alloc: Global,
    resolve: &Resolve,
    facts: &Types,
    levels: u64,
    ty: WitType,
) -> Result<TypeExpr, OutOfMemory>
    requires facts { HasFacts resolve.now facts.now }
    requires within { type_below (length resolve.now.types) ty ≡ true }
    ensures { IfOk result (λ printed. printed ≡ lent_within resolve.now.types levels ty) }
{
    if is_text(resolve, ty) {
        return lent(alloc, TypeExpr::Str);
    }
    let WitType::Id(id) = ty else {
        return Ok(printed_type(ty));
    };
    if levels == 0 {
        return Ok(TypeExpr::Unit);
    }
    match resolve.type_def(id) {
        None => Ok(TypeExpr::Unit),
        Some(entry) => match &entry.name {
            Some(name) => lent_name(alloc, name),
            None => lent_unnamed(alloc, resolve, facts, levels - 1, &entry.kind),
        },
    }
}

/// A lent type without a name, by its kind.
#[cycle(param)]
fn lent_unnamed(
    alloc: Global,
    resolve: &Resolve,
    facts: &Types,
    levels: u64,
    kind: &TypeDefKind,
) -> Result<TypeExpr, OutOfMemory>
    requires facts { HasFacts resolve.now facts.now }
    requires within { parts_below (length resolve.now.types) kind.now ≡ true }
    ensures { IfOk result
        (λ printed. printed ≡ lent_unnamed resolve.now.types (lent_within resolve.now.types levels) kind.now) }
{
    match kind {
        TypeDefKind::Alias(ty) => param_within(alloc, resolve, facts, levels, *ty),
        TypeDefKind::Tuple(parts) => {
            let parts = lent_parts(alloc, resolve, facts, levels, parts.as_slice())?;
            Ok(TypeExpr::Tuple(parts))
        }
        TypeDefKind::Option(ty) => {
            let payload = lent_within(alloc, resolve, facts, levels, *ty)?;
            option_type(alloc, payload)
        }
        TypeDefKind::Result(ok, err) => {
            let ok = lent_payload(alloc, resolve, facts, levels, *ok)?;
            let err = lent_payload(alloc, resolve, facts, levels, *err)?;
            result_type(alloc, ok, err)
        }
        _ => Ok(TypeExpr::Unit),
    }
}

#[cycle(param)]
fn lent_payload(
    alloc: Global,
    resolve: &Resolve,
    facts: &Types,
    levels: u64,
    payload: Option<WitType>,
) -> Result<TypeExpr, OutOfMemory>
    requires facts { HasFacts resolve.now facts.now }
    requires within { payload_below (length resolve.now.types) payload ≡ true }
    ensures { IfOk result
        (λ printed. printed ≡ payload_type (lent_within resolve.now.types levels) payload) }
{
    match payload {
        None => Ok(TypeExpr::Unit),
        Some(ty) => lent_within(alloc, resolve, facts, levels, ty),
    }
}

#[cycle(param)]
fn lent_parts(
    alloc: Global,
    resolve: &Resolve,
    facts: &Types,
    levels: u64,
    parts: &[WitType],
) -> Result<List<TypeExpr>, OutOfMemory>
    requires facts { HasFacts resolve.now facts.now }
    requires within { list_all (type_below (length resolve.now.types)) parts.now ≡ true }
    ensures { IfOk result (λ printed. printed ≡ map (lent_within resolve.now.types levels) parts.now) }
{
    let mut printed = List::new(alloc);
    for part in parts {
        printed.push(lent_within(alloc, resolve, facts, levels, *part)?)?;
    }
    Ok(printed)
}

/// A parameter, with at most so many unnamed types in one another where it is lent.
#[cycle(param)]
fn param_within(
    alloc: Global,
    resolve: &Resolve,
    facts: &Types,
    levels: u64,
    ty: WitType,
) -> Result<TypeExpr, OutOfMemory>
    requires facts { HasFacts resolve.now facts.now }
    requires within { type_below (length resolve.now.types) ty ≡ true }
    ensures { IfOk result
        (λ printed. printed ≡ param_by resolve.now.types (lent_within resolve.now.types levels) ty) }
{
    if has_list(facts, ty) {
        return lent_within(alloc, resolve, facts, levels, ty);
    }
    part_type(alloc, resolve.types.as_slice(), ty)
}

/// The type of a parameter of an imported function. What reaches a text is lent: a text as `&str`, a named type by a reference to
/// it, and an unnamed tuple part by part. `OutOfMemory` comes where there is no memory for a name or a part.
#[tactic(auto, unfolding(crate::specs::ParamType::lent_type))]
pub fn param_type(
    alloc: Global,
    resolve: &Resolve,
    facts: &Types,
    ty: WitType,
) -> Result<TypeExpr, OutOfMemory>
    requires facts { HasFacts resolve.now facts.now }
    requires within { type_below (length resolve.now.types) ty ≡ true }
    ensures { IfOk result (λ printed. printed ≡ param_type resolve.now.types ty) }
{
    param_within(alloc, resolve, facts, levels_of(ty), ty)
}
