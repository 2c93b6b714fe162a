//! What is done to blocks that go: what a value owns is freed or forgotten, and blocks are freed by their addresses and sizes.

ghost use Rattle.std.specs.Prelude.{◌≡◌, IfOk, OnOk, filter, nat_eq, not};
ghost use Rattle.std.specs.Option.{option_copied};
ghost use Rattle.wrapper_values.specs.Act.{Runs};
ghost use Rattle.wrapper_run.specs.Blocks as spec;
ghost use Rattle.wrapper_values.specs.Setting.{setting};

use crate::blocks::untaken;
use crate::memory::{block_from, place_of};
use std::alloc::Global;
use std::mem;
use wit_model::{List, OutOfMemory};
use wrapper_data::{Block, RustValue, TrapKind, Word};
use wrapper_values::{Halt, Local, State, Val, World, is_taken};

/// Removes the block of exactly this address and size.
#[tactic(auto, using(crate::proofs::MemoryLemmas::removed_at, crate::proofs::MemoryLemmas::removed_none))]
fn remove_block(state: &mut State, alloc: Global, address: u32, size: u32)
    ensures { state.new ≡ spec.removed address size state.old }
{
    let mut blocks = mem::replace(&mut state.heap.blocks, List::new(alloc)).into_vec();
    if let Some(at) = place_of(address, size, blocks.as_slice()) {
        blocks.remove(at);
    }
    state.heap.blocks = List::from_vec(blocks);
}

fn others(alloc: Global, taken: &[u32], address: u32) -> Result<List<u32>, OutOfMemory>
    ensures { IfOk result (λ l. l ≡ filter (λ t. not (nat_eq t address)) taken.now) }
{
    let others = taken.iter().copied().filter(|t| *t != address);
    Ok(List::from_vec(others.collect(alloc)?))
}

/// Takes a block from its owner.
fn disown(alloc: Global, state: &mut State, address: u32) -> Result<(), OutOfMemory>
    ensures { OnOk result (state.new ≡ spec.without_owner address state.old) }
{
    state.taken = others(alloc, state.taken.as_slice(), address)?;
    Ok(())
}

/// The live block that begins at an address, where an owner has it.
fn owned_block(state: &State, address: u32) -> Option<&Block>
    ensures { option_copied result ≡ spec.owned_block address state.now }
{
    if is_taken(address, state.taken.as_slice()) {
        block_from(address, state.heap.blocks.as_slice())
    } else {
        None
    }
}

/// Takes a block of this address and size from its owner, and removes it.
fn remove_owned(
    alloc: Global,
    state: &mut State,
    address: u32,
    size: u32,
) -> Result<(), OutOfMemory>
    ensures { OnOk result (state.new ≡ spec.without_block (address, size) state.old) }
{
    disown(alloc, state, address)?;
    remove_block(state, alloc, address, size);
    Ok(())
}

/// Frees the block that begins at an address, where an owner has it.
#[tactic(auto, unfolding(crate::specs::Blocks::free))]
fn free(alloc: Global, world: &World, state: &mut State, address: u32) -> Result<(), Halt>
    ensures { Runs (spec.free (setting world.now) address state.old) result state.new }
{
    let size = match owned_block(state, address) {
        None => return Err(Halt::Stopped(world.stuck())),
        Some(b) => b.size,
    };
    remove_owned(alloc, state, address, size)?;
    Ok(())
}

/// Frees the blocks of owners, one after another.
fn free_all(alloc: Global, world: &World, state: &mut State, addresses: &[u32]) -> Result<(), Halt>
    ensures { Runs (spec.free_all (setting world.now) addresses.now state.old) result state.new }
{
    for address in addresses {
        free(alloc, world, state, *address)?;
    }
    Ok(())
}

/// Lets the block that begins at an address, where an owner has it, stay without one.
#[tactic(auto, unfolding(crate::specs::Blocks::release))]
fn release(alloc: Global, world: &World, state: &mut State, address: u32) -> Result<(), Halt>
    ensures { Runs (spec.release (setting world.now) address state.old) result state.new }
{
    if owned_block(state, address).is_none() {
        return Err(Halt::Stopped(world.stuck()));
    }
    disown(alloc, state, address)?;
    Ok(())
}

/// Lets the blocks of owners stay without them, one after another.
fn release_all(
    alloc: Global,
    world: &World,
    state: &mut State,
    addresses: &[u32],
) -> Result<(), Halt>
    ensures { Runs (spec.release_all (setting world.now) addresses.now state.old) result state.new }
{
    for address in addresses {
        release(alloc, world, state, *address)?;
    }
    Ok(())
}

/// Forgets a value: what it owns stays, without an owner.
pub(crate) fn forget(alloc: Global, world: &World, state: &mut State, v: &Val) -> Result<Val, Halt>
    ensures { Runs (spec.forget (setting world.now) v.now state.old) result state.new }
{
    let owned = v.owned(alloc)?;
    release_all(alloc, world, state, owned.as_slice())?;
    Ok(Val::Value(RustValue::Unit))
}

/// Drops a value: what it owns is freed.
pub(crate) fn drop_value(
    alloc: Global,
    world: &World,
    state: &mut State,
    v: &Val,
) -> Result<(), Halt>
    ensures { Runs (spec.drop_value (setting world.now) v.now state.old) result state.new }
{
    let owned = v.owned(alloc)?;
    free_all(alloc, world, state, owned.as_slice())
}

fn drop_local(
    alloc: Global,
    world: &World,
    state: &mut State,
    value: &Option<Val>,
) -> Result<(), Halt>
    ensures { Runs (spec.drop_local (setting world.now) value.now state.old) result state.new }
{
    match value {
        None => Ok(()),
        Some(v) => drop_value(alloc, world, state, v),
    }
}

/// Drops locals, the newest first.
fn drop_locals(
    alloc: Global,
    world: &World,
    state: &mut State,
    locals: &[Local],
) -> Result<(), Halt>
    ensures { Runs (spec.drop_locals (setting world.now) locals.now state.old) result state.new }
{
    match locals.split_first() {
        None => Ok(()),
        Some((l, newer)) => {
            drop_locals(alloc, world, state, newer)?;
            drop_local(alloc, world, state, &l.value)
        }
    }
}

/// Ends a scope: its locals are dropped, the newest first, and so many stay, which were there before it.
#[tactic(auto, unfolding(crate::specs::Blocks::leave_to))]
pub(crate) fn leave_to(
    alloc: Global,
    world: &World,
    state: &mut State,
    kept: usize,
) -> Result<(), Halt>
    ensures { Runs (spec.leave_to (setting world.now) kept state.old) result state.new }
{
    let mut locals = mem::replace(&mut state.locals, List::new(alloc)).into_vec();
    let first = kept.min(locals.len());
    drop_locals(alloc, world, state, &locals[first..])?;
    locals.truncate(kept);
    state.locals = List::from_vec(locals);
    Ok(())
}

/// Frees the block of so many bytes at an address, where no owner has it.
#[tactic(auto, unfolding(crate::specs::Blocks::dealloc))]
fn dealloc(
    alloc: Global,
    world: &World,
    state: &mut State,
    address: u32,
    size: u32,
) -> Result<(), Halt>
    ensures { Runs (spec.dealloc (setting world.now) address size state.old) result state.new }
{
    if size > i32::MAX as u32 {
        return Err(Halt::Stopped(world.failed(TrapKind::Size)));
    }
    if size == 0 {
        return Ok(());
    }
    if untaken(state, address, size).is_none() {
        return Err(Halt::Stopped(world.failed(TrapKind::Block)));
    }
    remove_block(state, alloc, address, size);
    Ok(())
}

/// Frees a block by the words of its address, its size and its alignment.
pub(crate) fn dealloc_words(
    alloc: Global,
    world: &World,
    state: &mut State,
    vs: &[Val],
) -> Result<Val, Halt>
    ensures { Runs (spec.dealloc_words (setting world.now) vs.now state.old) result state.new }
{
    match vs {
        [
            Val::Word(Word::Pointer(address)),
            Val::Word(Word::Length(size)),
            Val::Word(Word::Length(_)),
        ] => {
            dealloc(alloc, world, state, *address, *size)?;
            Ok(Val::Value(RustValue::Unit))
        }
        _ => Err(Halt::Stopped(world.stuck())),
    }
}
