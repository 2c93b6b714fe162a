//! Small numbers in memory: of one or two bytes, with a sign or without.

ghost use Rattle.std.specs.Prelude.{◌≡◌, ◌<◌, ◌^◌, IfOk, length};
ghost use Rattle.std.specs.Int.{from_le_bytes, w8, w16};
ghost use Rattle.wrapper_values.specs.Act.{Runs};
ghost use Rattle.wrapper_run.specs.Blocks as blocks;
ghost use Rattle.wrapper_values.specs.Effect as effect;
ghost use Rattle.wrapper_run.specs.Memory as spec;
ghost use Rattle.wrapper_run.specs.Run as run;
ghost use Rattle.wrapper_values.specs.Setting.{setting};

use crate::memory::{at_four, bytes_at};
use crate::store::{is_inside, write_bytes};
use rust_tree::SmallType;
use std::alloc::Global;
use wit_model::{ArchitectureSize, OutOfMemory};
use wrapper_data::{Block, TrapKind, Word};
use wrapper_values::{Halt, State, Val, World, integer_of};

fn bytes_of_small(ty: SmallType) -> u32
    ensures { result ≡ spec.bytes_of_small ty }
{
    match ty {
        SmallType::U8 | SmallType::I8 => 1,
        SmallType::U16 | SmallType::I16 => 2,
    }
}

fn u8_of(bytes: &[u8]) -> u8
    requires { length bytes.now ≡ 1 }
    ensures { result ≡ from_le_bytes w8 bytes.now }
{
    u8::from_le_bytes([bytes[0]])
}

fn u16_of(bytes: &[u8]) -> u16
    requires { length bytes.now ≡ 2 }
    ensures { result ≡ from_le_bytes w16 bytes.now }
{
    u16::from_le_bytes([bytes[0], bytes[1]])
}

fn number_from(ty: SmallType, bytes: &[u8]) -> i32
    requires { length bytes.now ≡ spec.bytes_of_small ty }
    ensures { result ≡ spec.number_from ty bytes.now }
{
    match ty {
        SmallType::U8 => i32::from(u8_of(bytes)),
        SmallType::I8 => i32::from(u8_of(bytes).cast_signed()),
        SmallType::U16 => i32::from(u16_of(bytes)),
        SmallType::I16 => i32::from(u16_of(bytes).cast_signed()),
    }
}

/// The number at an aligned address, widened by its sign.
#[tactic(auto, using(crate::proofs::MemoryLemmas::length_bytes_at), unfolding(crate::specs::Memory::loaded_small))]
fn loaded_small(
    alloc: Global,
    ty: SmallType,
    address: u128,
    blocks: &[Block],
) -> Result<Option<Word>, OutOfMemory>
    requires { address < 2 ^ 100 }
    ensures { IfOk result (λ word. word ≡ spec.loaded_small ty address blocks.now) }
{
    let size = bytes_of_small(ty);
    if address % u128::from(size) != 0 {
        return Ok(None);
    }
    match bytes_at(alloc, address, size, blocks)? {
        None => Ok(None),
        Some(bytes) => Ok(Some(Word::I32(number_from(ty, bytes.as_slice())))),
    }
}

/// A small number at an offset from an address.
pub(crate) fn load_small(
    alloc: Global,
    world: &World,
    state: &State,
    offset: &ArchitectureSize,
    ty: SmallType,
    v: &Val,
) -> Result<Val, Halt>
    ensures { Runs (run.load_small (setting world.now) offset.now ty v.now state.now) result state.now }
{
    match v {
        Val::Word(Word::Pointer(address)) => {
            let address = u128::from(*address) + at_four(offset);
            match loaded_small(alloc, ty, address, state.heap.blocks.as_slice())? {
                None => Err(Halt::Stopped(world.failed(TrapKind::Pointer))),
                Some(w) => Ok(Val::Word(w)),
            }
        }
        _ => Err(Halt::Stopped(world.stuck())),
    }
}

/// The low bytes of a number.
fn low_bytes(alloc: Global, ty: SmallType, z: i128) -> Result<Vec<u8>, OutOfMemory>
    ensures { IfOk result (λ bytes. bytes.items ≡ spec.low_bytes ty z) }
{
    let bytes = match ty {
        SmallType::U8 | SmallType::I8 => {
            Vec::from_slice(alloc, &(z.rem_euclid(1 << 8) as u8).to_le_bytes())?
        }
        SmallType::U16 | SmallType::I16 => {
            Vec::from_slice(alloc, &(z.rem_euclid(1 << 16) as u16).to_le_bytes())?
        }
    };
    Ok(bytes)
}

/// Writes the low bytes of a number at an aligned address.
#[tactic(auto, using(crate::proofs::StoreLemmas::length_low_bytes), unfolding(crate::specs::Memory::stored_small))]
fn write_small(
    alloc: Global,
    world: &World,
    state: &mut State,
    ty: SmallType,
    address: u128,
    v: &Val,
) -> Result<(), Halt>
    requires { address < 2 ^ 100 }
    ensures { Runs (blocks.write_small (setting world.now) ty address (effect.integer_of v.now) state.old) result state.new }
{
    let z = match integer_of(v) {
        None => return Err(Halt::Stopped(world.stuck())),
        Some(z) => z,
    };
    let size = bytes_of_small(ty);
    let is_aligned = address % u128::from(size) == 0;
    if !(is_aligned && is_inside(address, size, state.heap.blocks.as_slice())) {
        return Err(Halt::Stopped(world.stuck()));
    }
    let bytes = low_bytes(alloc, ty, z)?;
    write_bytes(alloc, state, address as u32, bytes.as_slice())?;
    Ok(())
}

/// Writes what is cut to a small type at an offset from an address.
pub(crate) fn store_small(
    alloc: Global,
    world: &World,
    state: &mut State,
    offset: &ArchitectureSize,
    ty: SmallType,
    v: &Val,
    address: &Val,
) -> Result<(), Halt>
    ensures { Runs (blocks.store_small (setting world.now) offset.now ty v.now address.now state.old) result state.new }
{
    match address {
        Val::Word(Word::Pointer(address)) => {
            let address = u128::from(*address) + at_four(offset);
            write_small(alloc, world, state, ty, address, v)
        }
        _ => Err(Halt::Stopped(world.stuck())),
    }
}
