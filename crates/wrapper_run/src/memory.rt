//! What stands in memory: the bytes of a block, and loads of core values.

ghost use Rattle.std.specs.Prelude.{◌≡◌, ◌<◌, ◌^◌, IfOk, find, length, position};
ghost use Rattle.std.specs.Int.{from_le_bytes, w32, w64};
ghost use Rattle.std.specs.Option.{option_copied};
ghost use Rattle.wit_model.specs.Size.{alignment_at, bytes_at};
ghost use Rattle.wrapper_run.specs.Memory as spec;

use std::alloc::Global;
use wit_model::{Alignment, ArchitectureSize, List, OutOfMemory, WasmType};
use wrapper_data::{Block, Word};

/// A size in bytes, where pointers have four.
pub(crate) fn at_four(size: &ArchitectureSize) -> u128
    ensures exact { result ≡ bytes_at size.now 4 }
    ensures small { result < 2 ^ 70 }
{
    u128::from(size.bytes) + u128::from(size.pointers) * 4
}

/// So many bytes from an offset on, of cells at ascending offsets; nothing where one of them was never written.
#[tactic(auto, using(crate::proofs::MemoryLemmas::reads_start, crate::proofs::MemoryLemmas::reads_done, crate::proofs::MemoryLemmas::reads_end, crate::proofs::MemoryLemmas::reads_none, crate::proofs::MemoryLemmas::reads_skip, crate::proofs::MemoryLemmas::reads_take,))]
pub(crate) fn bytes_from(
    alloc: Global,
    cells: &[(u32, u8)],
    offset: u128,
    size: u32,
) -> Result<Option<List<u8>>, OutOfMemory>
    ensures { IfOk result (λ bytes. bytes ≡ spec.bytes_from cells.now offset size) }
{
    let mut bytes = List::new(alloc);
    let mut next = offset;
    let mut left = size;
    for cell in cells {
        if left == 0 {
            return Ok(Some(bytes));
        }
        if next < u128::from(cell.0) {
            return Ok(None);
        }
        if u128::from(cell.0) == next {
            bytes.push(cell.1)?;
            next += 1;
            left -= 1;
        }
    }
    if left == 0 { Ok(Some(bytes)) } else { Ok(None) }
}

/// An alignment in bytes, where pointers have four.
pub(crate) fn align_at_four(align: &Alignment) -> u32
    ensures { result ≡ alignment_at align.now 4 }
{
    match align {
        Alignment::Pointer => 4,
        Alignment::Bytes(n) => *n,
    }
}

fn is_at(address: u32, size: u32, b: &Block) -> bool
    ensures { result ≡ spec.is_at address size b.now }
{
    b.address == address && b.size == size
}

/// The place of the block of exactly this address and size.
pub(crate) fn place_of(address: u32, size: u32, blocks: &[Block]) -> Option<usize>
    ensures { result ≡ position (spec.is_at address size) blocks.now }
{
    blocks.iter().position(|b| is_at(address, size, b))
}

/// The block of exactly this address and size.
pub(crate) fn block_at(address: u32, size: u32, blocks: &[Block]) -> Option<&Block>
    ensures { option_copied result ≡ spec.block_at address size blocks.now }
{
    blocks.iter().find(|b| is_at(address, size, b))
}

fn begins_at(address: u32, b: &Block) -> bool
    ensures { result ≡ spec.begins_at address b.now }
{
    b.address == address && b.size > 0
}

/// The block that begins at an address; what has no bytes is none.
pub(crate) fn block_from(address: u32, blocks: &[Block]) -> Option<&Block>
    ensures { option_copied result ≡ spec.block_from address blocks.now }
{
    blocks.iter().find(|b| begins_at(address, b))
}

fn holds(address: u128, size: u32, b: &Block) -> bool
    requires { address < 2 ^ 100 }
    ensures { result ≡ spec.holds address size b.now }
{
    u128::from(b.address) <= address && address + u128::from(size) <= u128::from(b.end())
}

/// The block in which so many bytes lie from an address on.
pub(crate) fn holder(address: u128, size: u32, blocks: &[Block]) -> Option<&Block>
    requires { address < 2 ^ 100 }
    ensures { option_copied result ≡ find (spec.holds address size) blocks.now }
{
    for b in blocks {
        if holds(address, size, b) {
            return Some(b);
        }
    }
    None
}

/// The bytes at an address, which lie in one block.
pub(crate) fn bytes_at(
    alloc: Global,
    address: u128,
    size: u32,
    blocks: &[Block],
) -> Result<Option<List<u8>>, OutOfMemory>
    requires { address < 2 ^ 100 }
    ensures { IfOk result (λ bytes. bytes ≡ spec.bytes_at address size blocks.now) }
{
    match holder(address, size, blocks) {
        None => Ok(None),
        Some(b) => {
            let offset = address.saturating_sub(u128::from(b.address));
            bytes_from(alloc, b.cells.as_slice(), offset, size)
        }
    }
}

pub(crate) fn bytes_of_type(ty: WasmType) -> u32
    ensures { result ≡ spec.bytes_of_type ty }
{
    match ty {
        WasmType::I32 | WasmType::F32 | WasmType::Pointer | WasmType::Length => 4,
        WasmType::I64 | WasmType::F64 | WasmType::PointerOrI64 => 8,
    }
}

fn u32_of(bytes: &[u8]) -> u32
    requires { length bytes.now ≡ 4 }
    ensures { result ≡ from_le_bytes w32 bytes.now }
{
    u32::from_le_bytes([bytes[0], bytes[1], bytes[2], bytes[3]])
}

fn u64_of(bytes: &[u8]) -> u64
    requires { length bytes.now ≡ 8 }
    ensures { result ≡ from_le_bytes w64 bytes.now }
{
    u64::from_le_bytes([
        bytes[0], bytes[1], bytes[2], bytes[3], bytes[4], bytes[5], bytes[6], bytes[7],
    ])
}

fn word_from(ty: WasmType, bytes: &[u8]) -> Word
    requires { length bytes.now ≡ spec.bytes_of_type ty }
    ensures { result ≡ spec.word_from ty bytes.now }
{
    match ty {
        WasmType::I32 => Word::I32(u32_of(bytes).cast_signed()),
        WasmType::I64 => Word::I64(u64_of(bytes).cast_signed()),
        WasmType::F32 => Word::F32(u32_of(bytes)),
        WasmType::F64 => Word::F64(u64_of(bytes)),
        WasmType::Pointer => Word::Pointer(u32_of(bytes)),
        WasmType::PointerOrI64 => Word::Slot(Some(u64_of(bytes))),
        WasmType::Length => Word::Length(u32_of(bytes)),
    }
}

/// The core value at an aligned address.
#[tactic(auto, using(crate::proofs::MemoryLemmas::length_bytes_at), unfolding(crate::specs::Memory::loaded))]
pub(crate) fn loaded(
    alloc: Global,
    ty: WasmType,
    address: u128,
    blocks: &[Block],
) -> Result<Option<Word>, OutOfMemory>
    requires { address < 2 ^ 100 }
    ensures { IfOk result (λ word. word ≡ spec.loaded ty address blocks.now) }
{
    let size = bytes_of_type(ty);
    if address % u128::from(size) != 0 {
        return Ok(None);
    }
    match bytes_at(alloc, address, size, blocks)? {
        None => Ok(None),
        Some(bytes) => Ok(Some(word_from(ty, bytes.as_slice()))),
    }
}
