//! Stores of core values.

ghost use Rattle.std.specs.Prelude.{◌≡◌, ◌≤◌, ◌<◌, ◌+◌, ◌^◌, ◌++◌, IfOk, OnOk, length};
ghost use Rattle.wrapper_data.specs.Answered.{with_writes};
ghost use Rattle.wrapper_values.specs.Act.{Runs};
ghost use Rattle.wrapper_run.specs.Blocks as blocks;
ghost use Rattle.wrapper_values.specs.Effect as effect;
ghost use Rattle.wrapper_run.specs.Memory as spec;
ghost use Rattle.wrapper_values.specs.Setting.{setting};

use crate::memory::{at_four, bytes_of_type, holder};
use std::alloc::Global;
use std::mem;
use wit_model::{ArchitectureSize, List, OutOfMemory, WasmType};
use wrapper_data::{Block, Heap, Word};
use wrapper_values::{Halt, State, Val, World, word_of};

/// The bytes of a core value, the low byte first.
fn bytes_of(alloc: Global, w: Word) -> Result<Vec<u8>, OutOfMemory>
    ensures { IfOk result (λ bytes. bytes.items ≡ spec.bytes_of w) }
{
    let bytes = match w {
        Word::I32(z) => Vec::from_slice(alloc, &z.cast_unsigned().to_le_bytes())?,
        Word::I64(z) => Vec::from_slice(alloc, &z.cast_unsigned().to_le_bytes())?,
        Word::F32(n) | Word::Pointer(n) | Word::Length(n) => {
            Vec::from_slice(alloc, &n.to_le_bytes())?
        }
        Word::F64(n) | Word::Slot(Some(n)) => Vec::from_slice(alloc, &n.to_le_bytes())?,
        Word::Slot(None) => Vec::new(alloc),
    };
    Ok(bytes)
}

/// The writes of bytes one after another, from an address on.
fn writes_from(alloc: Global, address: u32, bytes: &[u8]) -> Result<Vec<(u32, u8)>, OutOfMemory>
    requires { address + length bytes.now ≤ 2 ^ 32 }
    ensures { IfOk result (λ writes. writes.items ≡ spec.writes_from address bytes.now) }
{
    let mut writes = Vec::new(alloc);
    let mut next = u64::from(address);
    for byte in bytes {
        writes.push((next as u32, *byte))?;
        next += 1;
    }
    Ok(writes)
}

pub(crate) fn is_inside(address: u128, size: u32, blocks: &[Block]) -> bool
    requires { address < 2 ^ 100 }
    ensures { result ≡ spec.is_inside address size blocks.now }
{
    address + u128::from(size) <= 1 << 32 && holder(address, size, blocks).is_some()
}

/// Writes bytes one after another, from an address on.
pub(crate) fn write_bytes(
    alloc: Global,
    state: &mut State,
    address: u32,
    bytes: &[u8],
) -> Result<(), OutOfMemory>
    requires { address + length bytes.now ≤ 2 ^ 32 }
    ensures { OnOk result
        (state.new ≡ record state.old { heap = record state.old.heap { blocks = with_writes state.old.heap.blocks (spec.writes_from address bytes.now) } }) }
{
    let writes = writes_from(alloc, address, bytes)?;
    let empty = Heap {
        blocks: List::new(alloc),
    };
    let heap = mem::replace(&mut state.heap, empty);
    state.heap = heap.answered(alloc, writes.as_slice(), &[])?;
    Ok(())
}

/// Writes a value of this core type at an aligned address.
#[tactic(auto, using(crate::proofs::StoreLemmas::length_bytes_of), unfolding(crate::specs::Memory::stored))]
fn write_word(
    alloc: Global,
    world: &World,
    state: &mut State,
    ty: WasmType,
    address: u128,
    v: &Val,
) -> Result<(), Halt>
    requires { address < 2 ^ 100 }
    ensures { Runs (blocks.write_word (setting world.now) ty address (effect.word_of ty v.now) state.old) result state.new }
{
    let w = match word_of(ty, v) {
        None => return Err(Halt::Stopped(world.stuck())),
        Some(w) => w,
    };
    let size = bytes_of_type(ty);
    let is_aligned = address % u128::from(size) == 0;
    if !(is_aligned && is_inside(address, size, state.heap.blocks.as_slice())) {
        return Err(Halt::Stopped(world.stuck()));
    }
    let bytes = bytes_of(alloc, w)?;
    write_bytes(alloc, state, address as u32, bytes.as_slice())?;
    Ok(())
}

/// Writes a value of a core type at an offset from an address.
pub(crate) fn store_word(
    alloc: Global,
    world: &World,
    state: &mut State,
    offset: &ArchitectureSize,
    ty: WasmType,
    v: &Val,
    address: &Val,
) -> Result<(), Halt>
    ensures { Runs (blocks.store_word (setting world.now) offset.now ty v.now address.now state.old) result state.new }
{
    match address {
        Val::Word(Word::Pointer(address)) => {
            let address = u128::from(*address) + at_four(offset);
            write_word(alloc, world, state, ty, address, v)
        }
        _ => Err(Halt::Stopped(world.stuck())),
    }
}
