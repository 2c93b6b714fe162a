//! Blocks of memory.

ghost use Rattle.std.specs.Prelude.{◌≡◌, ◌+◌, IfOk};
ghost use Rattle.wrapper_data.specs.Heap.{are_cells, covers, is_block, overlaps, overlaps_any};

use std::alloc::Global;
use wit_model::{List, OutOfMemory};

/// A block of memory. A cell that is not listed was never written. Its fields may hold any numbers: `is_well_formed`
/// says whether they are those of a block.
#[derive(Debug, PartialEq, Drop)]
pub struct Block {
    /// The address of its first byte, above 0 where the block is well formed.
    pub address: u32,
    /// Its size in bytes, above 0 where the block is well formed, which then ends at or below 2^32.
    pub size: u32,
    /// The written bytes by their offsets, which ascend strictly and lie in the block where it is well formed.
    pub cells: List<(u32, u8)>,
}

impl Block {
    /// Whether the block is well formed: its size and its address are above 0, it ends at or below 2^32, and its cells
    /// lie in it at strictly ascending offsets.
    pub fn is_well_formed(&self) -> bool
        ensures { result ≡ is_block self.now }
    {
        self.size > 0
            && self.address > 0
            && self.end() <= 1 << 32
            && ascend(self.cells.as_slice(), self.size)
    }

    /// Whether an address lies in the block.
    pub fn covers(&self, address: u32) -> bool
        ensures { result ≡ covers address self.now }
    {
        self.address <= address && u64::from(address) < self.end()
    }

    /// Whether each of two blocks begins before the other ends.
    pub fn overlaps(&self, other: &Block) -> bool
        ensures { result ≡ overlaps self.now other.now }
    {
        u64::from(self.address) < other.end() && u64::from(other.address) < self.end()
    }

    /// Whether the block overlaps one of these.
    pub fn overlaps_any(&self, blocks: &[Block]) -> bool
        ensures { result ≡ overlaps_any self.now blocks.now }
    {
        blocks.iter().any(|other| self.overlaps(other))
    }

    /// The address behind the block's last byte.
    pub fn end(&self) -> u64
        ensures { result ≡ self.now.address + self.now.size }
    {
        u64::from(self.address) + u64::from(self.size)
    }

    /// An equal block.
    pub fn copy(&self, alloc: Global) -> Result<Block, OutOfMemory>
        ensures { IfOk result (λ b. b ≡ self.now) }
    {
        Ok(Block {
            address: self.address,
            size: self.size,
            cells: List::from_slice(alloc, self.cells.as_slice())?,
        })
    }
}

fn ascend(cells: &[(u32, u8)], size: u32) -> bool
    ensures { result ≡ are_cells 0 size cells.now }
{
    let mut low = 0;
    for cell in cells {
        if cell.0 < low || size <= cell.0 {
            return false;
        }
        low = cell.0 + 1;
    }
    true
}
