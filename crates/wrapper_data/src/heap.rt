//! Heaps: the blocks of a linear memory.

ghost use Rattle.std.specs.Prelude.{◌≡◌, IfOk};
ghost use Rattle.std.specs.List.{list_all};
ghost use Rattle.wrapper_data.specs.Heap.{are_apart, is_block, is_heap};

use crate::block::Block;
use std::alloc::Global;
use wit_model::{List, OutOfMemory};

/// The blocks of a linear memory. Where the heap is well formed, each of them is, and they overlap nowhere; it may hold
/// any other blocks too, and `is_well_formed` tells.
#[derive(Debug, PartialEq, Drop)]
pub struct Heap {
    pub blocks: List<Block>,
}

impl Heap {
    /// Whether the heap is well formed: each of its blocks is, and no two of them overlap.
    pub fn is_well_formed(&self) -> bool
        ensures { result ≡ is_heap self.now }
    {
        let blocks = self.blocks.as_slice();
        are_blocks(blocks) && are_apart(blocks)
    }

    /// An equal heap.
    pub fn copy(&self, alloc: Global) -> Result<Heap, OutOfMemory>
        ensures { IfOk result (λ h. h ≡ self.now) }
    {
        Ok(Heap {
            blocks: copy_blocks(alloc, self.blocks.as_slice())?,
        })
    }
}

fn are_blocks(blocks: &[Block]) -> bool
    ensures { result ≡ list_all is_block blocks.now }
{
    blocks.iter().all(|block| block.is_well_formed())
}

fn are_apart(blocks: &[Block]) -> bool
    ensures { result ≡ are_apart blocks.now }
{
    for (i, block) in blocks.iter().enumerate() {
        if block.overlaps_any(&blocks[i + 1..]) {
            return false;
        }
    }
    true
}

fn copy_blocks(alloc: Global, blocks: &[Block]) -> Result<List<Block>, OutOfMemory>
    ensures { IfOk result (λ copies. copies ≡ blocks.now) }
{
    let mut copies = List::new(alloc);
    for block in blocks {
        copies.push(block.copy(alloc)?)?;
    }
    Ok(copies)
}
