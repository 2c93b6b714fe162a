//! Heaps and their blocks, which may be those of no well-formed heap.

use crate::fault::{LineFault, Part};
use crate::json::{Readable, only, optional, pair_of, required};
use serde_json::Value;
use std::alloc::Global;
use wit_model::{List, OutOfMemory};
use wrapper_data::{Block, Heap};

/// The heap at the key `heap`, which has no blocks where it is absent.
pub(crate) fn heap_in(alloc: Global, value: &Value) -> Result<Heap, LineFault> {
    let heap = optional(alloc, value, "heap")?;
    Ok(heap.unwrap_or(Heap {
        blocks: List::new(alloc),
    }))
}

impl Readable for Heap {
    fn read(alloc: Global, value: &Value) -> Result<Heap, LineFault> {
        Ok(Heap {
            blocks: List::read(alloc, value)?,
        })
    }
}

impl Readable for Block {
    fn read(alloc: Global, value: &Value) -> Result<Block, LineFault> {
        Ok(Block {
            address: required(alloc, value, "address")?,
            size: required(alloc, value, "size")?,
            cells: cells_of(alloc, value)?,
        })
    }
}

/// The cells of a block: its `cells`, or the bytes from its start on.
fn cells_of(alloc: Global, block: &Value) -> Result<List<(u32, u8)>, LineFault> {
    if block.get("bytes").is_some() {
        only(alloc, block, &["address", "size", "bytes"])?;
        bytes_of(alloc, block)
    } else {
        only(alloc, block, &["address", "size", "cells"])?;
        let cells = optional(alloc, block, "cells")?;
        Ok(cells.unwrap_or(List::new(alloc)))
    }
}

fn bytes_of(alloc: Global, block: &Value) -> Result<List<(u32, u8)>, LineFault> {
    let mut cells = List::new(alloc);
    let bytes: List<u8> = required(alloc, block, "bytes")?;
    push_bytes(&mut cells, 0, bytes.as_slice())?;
    Ok(cells)
}

/// Puts bytes behind others, each with its place, from a place on.
pub(crate) fn push_bytes(
    placed: &mut List<(u32, u8)>,
    from: u32,
    bytes: &[u8],
) -> Result<(), LineFault> {
    let mut at = u64::from(from);
    for byte in bytes {
        if at > u64::from(u32::MAX) {
            return Err(LineFault::Expected(Part::Writes));
        }
        placed.push((at as u32, *byte))?;
        at += 1;
    }
    Ok(())
}

impl Readable for (u32, u8) {
    fn read(alloc: Global, value: &Value) -> Result<(u32, u8), LineFault> {
        let (number, byte) = pair_of(value)?;
        Ok((u32::read(alloc, number)?, u8::read(alloc, byte)?))
    }
}
