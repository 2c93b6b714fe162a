//! For which cause no file is made.

ghost use Rattle.std.specs.Prelude.{◌≡◌, true, None, Some, IfOk, slice_get};
ghost use Rattle.wit_model.specs.WellFormed.{IsWellFormed, first_fault};
ghost use Rattle.type_defs.specs.Levels.{are_shallow};
ghost use Rattle.type_defs.specs.Listing.{are_listed_well};
ghost use Rattle.gen_accept.specs.Clash.{first_clash};
ghost use Rattle.gen_accept.specs.DeclaredNames.{declared_names};
ghost use Rattle.gen_accept.specs.Cause.{IsAnswer, IsUnbuilt, cause, invalid, is_accepted, is_built, is_index_range, keeps_rules, built_cause, world_cause};

use crate::built::{are_built_options, are_built_tables};
use crate::clash::first_clash;
use crate::error::{Clash, GenError, Lack};
use crate::name_text::are_written_tables;
use crate::names::{declared_names, have_distinct_names};
use crate::opts::Opts;
use crate::too_large::first_large;
use std::alloc::Global;
use type_defs::{are_listed_well, are_type_names};
use wit_model::{OutOfMemory, Resolve, Rule, Table, World, WorldFault, WorldId};

/// A rule that the tables break, and the first entry that breaks it.
type Fault = (Rule, (Table, u32));

fn fault_of(alloc: Global, resolve: &Resolve) -> Result<Option<Fault>, OutOfMemory>
    ensures fault { IfOk result (λ fault. fault ≡ first_fault resolve.now) }
    ensures well { IfOk result (λ fault. fault ≡ None → IsWellFormed resolve.now) }
{
    match resolve.check(alloc) {
        Ok(()) => Ok(None),
        Err(WorldFault::InvalidWorld { rule, table, index }) => Ok(Some((rule, (table, index)))),
        Err(WorldFault::OutOfMemory) => Err(OutOfMemory),
    }
}

fn is_index_range(rule: Rule) -> bool
    ensures { result ≡ is_index_range rule }
{
    matches!(rule, Rule::IndexRange)
}

fn invalid(fault: Fault) -> GenError
    ensures { result ≡ invalid fault }
{
    let (rule, (table, index)) = fault;
    GenError::InvalidWorld { rule, table, index }
}

#[tactic(auto, unfolding(crate::specs::Cause::is_built))]
fn is_built(opts: &Opts, resolve: &Resolve) -> bool
    ensures { result ≡ is_built opts.now resolve.now }
{
    are_built_tables(resolve) && are_built_options(opts)
}

#[tactic(auto, unfolding(crate::specs::Cause::keeps_rules))]
fn keeps_rules(alloc: Global, resolve: &Resolve) -> Result<bool, OutOfMemory>
    requires { IsWellFormed resolve.now }
    ensures { IfOk result (λ b. b ≡ keeps_rules resolve.now) }
{
    if !are_type_names(resolve.types.as_slice()) {
        return Ok(false);
    }
    if !are_listed_well(alloc, resolve)? {
        return Ok(false);
    }
    if !are_written_tables(resolve) {
        return Ok(false);
    }
    have_distinct_names(alloc, resolve.worlds.as_slice())
}

/// The first declared name of a world's file that clashes.
fn first_clash_of(
    alloc: Global,
    opts: &Opts,
    resolve: &Resolve,
    id: WorldId,
    world: &World,
) -> Result<Option<Clash>, OutOfMemory>
    requires well { IsWellFormed resolve.now }
    requires found { slice_get resolve.now.worlds id.0 ≡ Some world.now }
    requires shallow { are_shallow resolve.now.types ≡ true }
    requires listed { are_listed_well resolve.now ≡ true }
    ensures { IfOk result (λ clash. clash ≡ first_clash (declared_names opts.now resolve.now world.now)) }
{
    let names = declared_names(alloc, opts, resolve, id, world)?;
    first_clash(alloc, names.as_slice())
}

fn unbuilt(alloc: Global, world: &World) -> GenError
    ensures { IsUnbuilt world.now result }
{
    match world.name.wit.copy(alloc) {
        Ok(place) => GenError::Unsupported {
            what: Lack::Unbuilt,
            place,
        },
        Err(OutOfMemory) => GenError::OutOfMemory,
    }
}

fn without_fault(
    alloc: Global,
    opts: &Opts,
    resolve: &Resolve,
    id: WorldId,
    world: &World,
    fault: Option<Fault>,
) -> Result<(), GenError>
    requires fault { fault ≡ first_fault resolve.now }
    requires well { fault ≡ None → IsWellFormed resolve.now }
    requires found { slice_get resolve.now.worlds id.0 ≡ Some world.now }
    ensures answer { IsAnswer result (built_cause opts.now resolve.now world.now) }
    ensures accepted { IfOk result (λ _. is_accepted opts.now resolve.now world.now ≡ true) }
    ensures checked { IfOk result (λ _. IsWellFormed resolve.now) }
{
    if let Some(fault) = fault {
        return Err(invalid(fault));
    }
    if !keeps_rules(alloc, resolve)? {
        return Err(unbuilt(alloc, world));
    }
    if let Some(large) = first_large(alloc, resolve, world)? {
        return Err(GenError::TooLarge(large));
    }
    match first_clash_of(alloc, opts, resolve, id, world)? {
        Some(clash) => Err(GenError::NameClash(clash)),
        None => Ok(()),
    }
}

fn accepted<'a>(
    alloc: Global,
    opts: &Opts,
    resolve: &'a Resolve,
    id: WorldId,
    fault: Option<Fault>,
) -> Result<&'a World, GenError>
    requires fault { fault ≡ first_fault resolve.now }
    requires well { fault ≡ None → IsWellFormed resolve.now }
    ensures answer { IsAnswer result (world_cause opts.now resolve.now id (slice_get resolve.now.worlds id.0)) }
    ensures world { IfOk result (λ world. slice_get resolve.now.worlds id.0 ≡ Some world.now) }
    ensures built { IfOk result (λ _. is_built opts.now resolve.now ≡ true) }
    ensures accepted { IfOk result (λ world. is_accepted opts.now resolve.now world.now ≡ true) }
    ensures checked { IfOk result (λ _. IsWellFormed resolve.now) }
{
    let Some(world) = resolve.world(id) else {
        return Err(invalid((Rule::IndexRange, (Table::World, id.0))));
    };
    if !is_built(opts, resolve) {
        return Err(unbuilt(alloc, world));
    }
    match without_fault(alloc, opts, resolve, id, world, fault) {
        Ok(()) => Ok(world),
        Err(e) => Err(e),
    }
}

/// The world of an id, unless there is a cause for which no file is made. `InvalidWorld` comes where the tables break a rule,
/// or have no world of that id; `Unsupported` where something is not built, or another rule is broken, which has no answer of its
/// own yet; `TooLarge` with the first type or function that is too large; and `NameClash` with the first declared name that
/// clashes. Want of memory may come at any point.
#[tactic(auto, unfolding(crate::specs::Cause::cause))]
pub fn accepted_world<'a>(
    alloc: Global,
    opts: &Opts,
    resolve: &'a Resolve,
    id: WorldId,
) -> Result<&'a World, GenError>
    ensures answer { IsAnswer result (cause opts.now resolve.now id) }
    ensures world { IfOk result (λ world. slice_get resolve.now.worlds id.0 ≡ Some world.now) }
    ensures built { IfOk result (λ _. is_built opts.now resolve.now ≡ true) }
    ensures accepted { IfOk result (λ world. is_accepted opts.now resolve.now world.now ≡ true) }
    ensures checked { IfOk result (λ _. IsWellFormed resolve.now) }
{
    let fault = match fault_of(alloc, resolve) {
        Ok(fault) => fault,
        Err(OutOfMemory) => return Err(GenError::OutOfMemory),
    };
    let Some(first) = fault else {
        return accepted(alloc, opts, resolve, id, None);
    };
    if is_index_range(first.0) {
        return Err(invalid(first));
    }
    accepted(alloc, opts, resolve, id, fault)
}
