//! What an answer does to a heap.

ghost use Rattle.std.specs.Prelude.{◌≡◌, ◌≤◌, nat_lt, filter, position, IfOk, OnOk};
ghost use Rattle.wrapper_data.specs.Heap.{covers};
ghost use Rattle.wrapper_data.specs.Answered.{answered, with_block, with_blocks, with_cell, with_writes, written_block, written_byte};

use crate::block::Block;
use crate::heap::Heap;
use std::alloc::Global;
use wit_model::{List, OutOfMemory};

impl Heap {
    /// The heap as the peer of an import leaves it. It adds its blocks in their order, each behind the others; a block
    /// that is not well formed or overlaps a live block is left out. Then it writes its bytes in their order, each an
    /// address and a byte; a write that no block covers is left out.
    pub fn answered(
        self,
        alloc: Global,
        writes: &[(u32, u8)],
        blocks: &[Block],
    ) -> Result<Heap, OutOfMemory>
        ensures { IfOk result (λ heap. heap ≡ answered blocks.now writes.now self) }
    {
        let Heap { blocks: live } = self;
        let mut live = live.into_vec();
        add_blocks(&mut live, alloc, blocks)?;
        write_bytes(&mut live, alloc, writes)?;
        Ok(Heap {
            blocks: List::from_vec(live),
        })
    }
}

fn add_blocks(live: &mut Vec<Block>, alloc: Global, blocks: &[Block]) -> Result<(), OutOfMemory>
    ensures { OnOk result (live.new.items ≡ with_blocks live.old.items blocks.now) }
{
    for block in blocks {
        add_block(live, alloc, block)?;
    }
    Ok(())
}

#[tactic(auto, unfolding(crate::specs::Answered::with_block))]
fn add_block(live: &mut Vec<Block>, alloc: Global, block: &Block) -> Result<(), OutOfMemory>
    ensures { OnOk result (live.new.items ≡ with_block live.old.items block.now) }
{
    if block.is_well_formed() && !block.overlaps_any(live.as_slice()) {
        live.push(block.copy(alloc)?)?;
    }
    Ok(())
}

fn write_bytes(
    live: &mut Vec<Block>,
    alloc: Global,
    writes: &[(u32, u8)],
) -> Result<(), OutOfMemory>
    ensures { OnOk result (live.new.items ≡ with_writes live.old.items writes.now) }
{
    for write in writes {
        write_byte(live, alloc, write.0, write.1)?;
    }
    Ok(())
}

fn write_byte(
    live: &mut Vec<Block>,
    alloc: Global,
    address: u32,
    byte: u8,
) -> Result<(), OutOfMemory>
    ensures { OnOk result (live.new.items ≡ written_byte live.old.items address byte) }
{
    if let Some(at) = covering(live.as_slice(), address) {
        write_in(&mut live[at], alloc, address, byte)?;
    }
    Ok(())
}

fn covering(blocks: &[Block], address: u32) -> Option<usize>
    ensures { result ≡ position (covers address) blocks.now }
{
    blocks.iter().position(|block| block.covers(address))
}

#[tactic(auto, unfolding(crate::specs::Answered::written_block))]
fn write_in(block: &mut Block, alloc: Global, address: u32, byte: u8) -> Result<(), OutOfMemory>
    requires { block.old.address ≤ address }
    ensures { OnOk result (block.new ≡ written_block block.old address byte) }
{
    let cells = with_cell(alloc, block.cells.as_slice(), address - block.address, byte)?;
    block.cells = cells;
    Ok(())
}

fn with_cell(
    alloc: Global,
    cells: &[(u32, u8)],
    offset: u32,
    byte: u8,
) -> Result<List<(u32, u8)>, OutOfMemory>
    ensures { IfOk result (λ l. l ≡ with_cell cells.now offset byte) }
{
    let mut all = cells_below(alloc, cells, offset)?;
    all.push((offset, byte))?;
    all.extend_from_slice(cells_above(alloc, cells, offset)?.as_slice())?;
    Ok(List::from_vec(all))
}

fn cells_below(
    alloc: Global,
    cells: &[(u32, u8)],
    offset: u32,
) -> Result<Vec<(u32, u8)>, OutOfMemory>
    ensures { IfOk result (λ v. v.items ≡ filter (λ cell. nat_lt cell.0 offset) cells.now) }
{
    let below = cells.iter().copied().filter(|cell| cell.0 < offset);
    Ok(below.collect(alloc)?)
}

fn cells_above(
    alloc: Global,
    cells: &[(u32, u8)],
    offset: u32,
) -> Result<Vec<(u32, u8)>, OutOfMemory>
    ensures { IfOk result (λ v. v.items ≡ filter (λ cell. nat_lt offset cell.0) cells.now) }
{
    let above = cells.iter().copied().filter(|cell| offset < cell.0);
    Ok(above.collect(alloc)?)
}
