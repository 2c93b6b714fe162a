//! Whether the types that worlds list are named and their own, and whether each named type that these or the worlds'
//! functions reach is listed too.

ghost use Rattle.std.specs.Prelude.{◌≡◌, ◌||◌, ◌&&◌, ℕ, true, IfOk, Some, is_none, length, nat_eq, slice_get};
ghost use Rattle.std.specs.HashSet.{contains};
ghost use Rattle.std.specs.List.{list_all};
ghost use Rattle.wit_model.specs.TypeOrder.{GoesDown};
ghost use Rattle.wit_model.specs.WellFormed.{IsWellFormed};
ghost use Rattle.wit_model.specs.declared.types.WitType.TheVariants.{Id};
ghost use Rattle.wit_model.specs.Parts.{parts};
ghost use Rattle.type_defs.specs.FunctionTypes.{entries_pass, function_passes, functions_pass, item_passes, passes_or_none};
ghost use Rattle.type_defs.specs.Listing.{AreCovered, are_listed, are_listed_well, covered_by, is_covered_whole, keeps_listing, lists, may_list, owns};

use crate::listed_types::types_in;
use std::alloc::Global;
use std::collections::HashSet;
use wit_model::{
    Function, List, OutOfMemory, Param, Resolve, TypeDef, TypeDefKind, TypeId, TypeOwner, WitType,
    World, WorldItem, WorldKey,
};

fn owns(world: usize, owner: TypeOwner) -> bool
    ensures { result ≡ owns world owner }
{
    match owner {
        TypeOwner::World(id) => id.0 as usize == world,
        _ => false,
    }
}

fn may_list(types: &[TypeDef], world: usize, id: TypeId) -> bool
    ensures { result ≡ may_list world (slice_get types.now id.0) }
{
    match types.get(id.0 as usize) {
        None => false,
        Some(entry) => entry.name.is_some() && owns(world, entry.owner),
    }
}

fn listed_set(alloc: Global, listed: &[TypeId]) -> Result<HashSet<usize>, OutOfMemory>
    ensures { IfOk result (λ set. (nth : ℕ) → contains nat_eq set nth ≡ lists listed.now nth) }
{
    let mut set = HashSet::new(alloc);
    for id in listed {
        set.insert(id.0 as usize)?;
    }
    Ok(set)
}

fn covered_by(known: &[bool], part: Option<WitType>) -> bool
    ensures { result ≡ covered_by known.now part }
{
    let Some(WitType::Id(id)) = part else {
        return true;
    };
    match known.get(id.0 as usize) {
        None => false,
        Some(covered) => *covered,
    }
}

fn are_parts_covered(known: &[bool], kind: &TypeDefKind) -> bool
    ensures { result ≡ list_all (covered_by known.now) (parts kind.now) }
{
    for nth in 0..kind.part_count() {
        if !covered_by(known, kind.part(nth)) {
            return false;
        }
    }
    true
}

fn are_params_covered(known: &[bool], params: &[Param]) -> bool
    ensures { result ≡ list_all (λ p. covered_by known.now (Some p.ty)) params.now }
{
    params.iter().all(|p| covered_by(known, Some(p.ty)))
}

fn is_result_covered(known: &[bool], answer: &Option<WitType>) -> bool
    ensures { result ≡ passes_or_none (λ ty. covered_by known.now (Some ty)) answer.now }
{
    match answer {
        None => true,
        Some(ty) => covered_by(known, Some(*ty)),
    }
}

fn is_function_covered(known: &[bool], f: &Function) -> bool
    ensures { result ≡ function_passes (λ ty. covered_by known.now (Some ty)) f.now }
{
    are_params_covered(known, f.params.as_slice()) && is_result_covered(known, &f.result)
}

fn is_item_covered(known: &[bool], item: &WorldItem) -> bool
    ensures { result ≡ item_passes (λ ty. covered_by known.now (Some ty)) item.now }
{
    match item {
        WorldItem::Function(f) => is_function_covered(known, f),
        WorldItem::Interface(_) => true,
        WorldItem::Named(_) => true,
    }
}

fn are_entries_covered(known: &[bool], entries: &[(WorldKey, WorldItem)]) -> bool
    ensures { result ≡ entries_pass (λ ty. covered_by known.now (Some ty)) entries.now }
{
    entries.iter().all(|entry| is_item_covered(known, &entry.1))
}

fn are_functions_covered(known: &[bool], world: &World) -> bool
    ensures { result ≡ functions_pass (λ ty. covered_by known.now (Some ty)) world.now }
{
    are_entries_covered(known, world.imports.as_slice())
        && are_entries_covered(known, world.exports.as_slice())
}

fn is_covered_entry(known: &[bool], set: &HashSet<usize>, nth: usize, entry: &TypeDef) -> bool
    ensures { result ≡ ((is_none entry.now.name || contains nat_eq set.now nth) && list_all (covered_by known.now) (parts entry.now.kind)) }
{
    let is_listed = entry.name.is_none() || set.contains(&nth);
    is_listed && are_parts_covered(known, &entry.kind)
}

/// Whether each type, and each named one that it reaches, is listed: one pass up the table.
fn covered_types(
    alloc: Global,
    types: &[TypeDef],
    listed: &[TypeId],
) -> Result<List<bool>, OutOfMemory>
    requires { GoesDown types.now }
    ensures count { IfOk result (λ known. length known ≡ length types.now) }
    ensures covered { IfOk result (λ known. AreCovered types.now listed.now known) }
{
    let set = listed_set(alloc, listed)?;
    let mut known = List::new(alloc);
    for (i, entry) in types.iter().enumerate() {
        let covered = is_covered_entry(known.as_slice(), &set, i, entry);
        known.push(covered)?;
    }
    Ok(known)
}

fn is_listed_well(types: &[TypeDef], known: &[bool], nth: usize, id: TypeId) -> bool
    ensures { result ≡ (may_list nth (slice_get types.now id.0) && covered_by known.now (Some (Id id))) }
{
    may_list(types, nth, id) && covered_by(known, Some(WitType::Id(id)))
}

fn are_listed(types: &[TypeDef], known: &[bool], nth: usize, listed: &[TypeId]) -> bool
    ensures { result ≡ list_all (λ id. may_list nth (slice_get types.now id.0) && covered_by known.now (Some (Id id))) listed.now }
{
    listed
        .iter()
        .all(|id| is_listed_well(types, known, nth, *id))
}

fn are_all_listed(
    types: &[TypeDef],
    known: &[bool],
    nth: usize,
    listed: &[TypeId],
    world: &World,
) -> bool
    ensures { result ≡ (list_all (λ id. may_list nth (slice_get types.now id.0) && covered_by known.now (Some (Id id))) listed.now && functions_pass (λ ty. covered_by known.now (Some ty)) world.now) }
{
    are_listed(types, known, nth, listed) && are_functions_covered(known, world)
}

fn keeps_listed(
    alloc: Global,
    types: &[TypeDef],
    nth: usize,
    listed: &[TypeId],
    world: &World,
) -> Result<bool, OutOfMemory>
    requires { GoesDown types.now }
    ensures { IfOk result (λ b. b ≡ (are_listed types.now nth listed.now && functions_pass (is_covered_whole types.now listed.now) world.now)) }
{
    let known = covered_types(alloc, types, listed)?;
    Ok(are_all_listed(types, known.as_slice(), nth, listed, world))
}

fn keeps_listing(
    alloc: Global,
    types: &[TypeDef],
    nth: usize,
    world: &World,
) -> Result<bool, OutOfMemory>
    requires { GoesDown types.now }
    ensures { IfOk result (λ b. b ≡ keeps_listing types.now nth world.now) }
{
    let listed = types_in(alloc, world.imports.as_slice())?;
    // where functions name no entry of the table, it need not be gone up for them
    if listed.as_slice().is_empty() && are_functions_covered(&[], world) {
        return Ok(true);
    }
    keeps_listed(alloc, types, nth, listed.as_slice(), world)
}

/// Whether each type that a world lists has a name and that world as its owner, and whether the world lists each named
/// type that such a type reaches, or a type of one of its functions. For each world that lists a type, or has a function
/// that names an entry of the table, it goes up the table once. `OutOfMemory` comes where there is no memory for a mark for
/// each type, or for the types that a world lists.
#[tactic(auto, unfolding(crate::specs::Listing::are_listed_well))]
pub fn are_listed_well(alloc: Global, resolve: &Resolve) -> Result<bool, OutOfMemory>
    requires { IsWellFormed resolve.now }
    ensures { IfOk result (λ b. b ≡ are_listed_well resolve.now) }
{
    for (i, world) in resolve.worlds.as_slice().iter().enumerate() {
        if !keeps_listing(alloc, resolve.types.as_slice(), i, world)? {
            return Ok(false);
        }
    }
    Ok(true)
}
