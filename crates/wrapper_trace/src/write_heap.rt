//! Heaps and their blocks, as they are read.

use crate::write_json::{Writable, separate, write_list};
use std::fmt::Write;
use wit_model::OutOfMemory;
use wrapper_data::{Block, Heap};

impl Writable for Heap {
    fn write(&self, out: &mut String) -> Result<(), OutOfMemory> {
        self.blocks.write(out)
    }
}

impl Writable for Block {
    fn write(&self, out: &mut String) -> Result<(), OutOfMemory> {
        let (address, size) = (self.address, self.size);
        write!(out, "{{\"address\":{address},\"size\":{size},")?;
        let cells = self.cells.as_slice();
        if are_from_start(cells) {
            out.push_str("\"bytes\":")?;
            write_bytes(out, cells)?;
        } else {
            out.push_str("\"cells\":")?;
            write_list(out, cells)?;
        }
        out.push_str("}")?;
        Ok(())
    }
}

/// Whether cells are those of the first bytes of a block, in their order.
fn are_from_start(cells: &[(u32, u8)]) -> bool {
    (0u32..).zip(cells.iter()).all(|(n, cell)| cell.0 == n)
}

fn write_bytes(out: &mut String, cells: &[(u32, u8)]) -> Result<(), OutOfMemory> {
    out.push_str("[")?;
    for (i, cell) in cells.iter().enumerate() {
        separate(out, i)?;
        write!(out, "{}", cell.1)?;
    }
    out.push_str("]")?;
    Ok(())
}

impl Writable for (u32, u8) {
    fn write(&self, out: &mut String) -> Result<(), OutOfMemory> {
        write!(out, "[{},{}]", self.0, self.1)?;
        Ok(())
    }
}
