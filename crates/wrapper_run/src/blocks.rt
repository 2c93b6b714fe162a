//! What is done to blocks that come in: a block is taken over, a text is tested, its bytes become a box.

ghost use Rattle.std.specs.Prelude.{◌≡◌, IfOk, true};
ghost use Rattle.std.specs.Option.{option_copied};
ghost use Rattle.std.specs.Str.{is_utf8};
ghost use Rattle.wrapper_values.specs.Act.{Runs};
ghost use Rattle.wrapper_run.specs.Blocks as spec;
ghost use Rattle.wrapper_values.specs.Setting.{setting};
ghost use Rattle.wrapper_data.specs.declared.value.RustValue.TheVariants as value;
ghost use Rattle.wrapper_values.specs.declared.state.Val.TheVariants as val;

use crate::memory::{block_at, bytes_from};
use std::alloc::Global;
use std::str;
use wit_model::{List, OutOfMemory};
use wrapper_data::{Block, RustValue, TrapKind};
use wrapper_values::{Halt, State, Val, World, is_taken};

/// The block of exactly this address and size, where no owner has it.
pub(crate) fn untaken(state: &State, address: u32, size: u32) -> Option<&Block>
    ensures { option_copied result ≡ spec.untaken address size state.now }
{
    if is_taken(address, state.taken.as_slice()) {
        None
    } else {
        block_at(address, size, state.heap.blocks.as_slice())
    }
}

/// The take-over of a block of at least one byte.
fn own_block(
    alloc: Global,
    world: &World,
    state: &mut State,
    address: u32,
    size: u32,
) -> Result<Val, Halt>
    ensures { Runs (spec.own_block (setting world.now) address size (spec.untaken address size state.old) state.old) result state.new }
{
    let bytes = match untaken(state, address, size) {
        None => return Err(Halt::Stopped(world.failed(TrapKind::Block))),
        Some(b) => bytes_from(alloc, b.cells.as_slice(), 0, size)?,
    };
    if bytes.is_none() {
        return Err(Halt::Stopped(world.failed(TrapKind::Pointer)));
    }
    state.taken.push(address)?;
    Ok(text(address, size))
}

/// A text that owns its bytes.
fn text(address: u32, len: u32) -> Val
    ensures { result ≡ val.Value (value.Buffer address len true) }
{
    Val::Value(RustValue::Buffer {
        address,
        len,
        owned: true,
    })
}

/// Takes over the block of so many bytes at an address.
#[tactic(auto, unfolding(crate::specs::Blocks::take_over))]
pub(crate) fn take_over(
    alloc: Global,
    world: &World,
    state: &mut State,
    address: u32,
    size: u32,
) -> Result<Val, Halt>
    ensures { Runs (spec.take_over (setting world.now) address size state.old) result state.new }
{
    if size > i32::MAX as u32 {
        return Err(Halt::Stopped(world.failed(TrapKind::Size)));
    }
    if address == 0 {
        return Err(Halt::Stopped(world.failed(TrapKind::Pointer)));
    }
    if size == 0 {
        return Ok(text(address, 0));
    }
    own_block(alloc, world, state, address, size)
}

/// The bytes of a text that owns its block, if it has that.
fn owned_bytes(
    alloc: Global,
    state: &State,
    address: u32,
    size: u32,
) -> Result<Option<List<u8>>, OutOfMemory>
    ensures { IfOk result (λ bytes. bytes ≡ spec.owned_bytes address size state.now) }
{
    if size == 0 {
        return Ok(Some(List::new(alloc)));
    }
    if !is_taken(address, state.taken.as_slice()) {
        return Ok(None);
    }
    match block_at(address, size, state.heap.blocks.as_slice()) {
        None => Ok(None),
        Some(b) => bytes_from(alloc, b.cells.as_slice(), 0, size),
    }
}

#[tactic(auto, using(crate::proofs::TextLemmas::text_found, crate::proofs::TextLemmas::no_text_found))]
fn is_text(bytes: &[u8]) -> bool
    ensures { result ≡ is_utf8 bytes.now }
{
    str::from_utf8(bytes).is_ok()
}

/// Lifts bytes that are owned to a text.
#[tactic(auto, unfolding(crate::specs::Blocks::lift_text))]
pub(crate) fn lift_text(alloc: Global, world: &World, state: &State, v: &Val) -> Result<Val, Halt>
    ensures { Runs (spec.lift_text (setting world.now) v.now state.now) result state.now }
{
    let (address, size) = match v.buffer() {
        Some((address, size, true)) => (address, size),
        _ => return Err(Halt::Stopped(world.stuck())),
    };
    match owned_bytes(alloc, state, address, size)? {
        None => Err(Halt::Stopped(world.stuck())),
        Some(bytes) => {
            if is_text(bytes.as_slice()) {
                Ok(v.copy(alloc)?)
            } else {
                Err(Halt::Stopped(world.failed(TrapKind::Utf8)))
            }
        }
    }
}

/// The bytes of a text that owns its block, as a box.
#[tactic(auto, unfolding(crate::specs::Blocks::boxed))]
pub(crate) fn boxed(world: &World, state: &State, v: Val) -> Result<Val, Halt>
    ensures { Runs (spec.boxed (setting world.now) v state.now) result state.now }
{
    match v.buffer() {
        Some((_, _, true)) => Ok(v),
        _ => Err(Halt::Stopped(world.stuck())),
    }
}
