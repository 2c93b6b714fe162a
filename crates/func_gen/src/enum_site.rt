//! How an enum is written.

use rust_tree::{Path, Repr};

/// An enum of the table as the file writes it: the path of the type, the number that holds a case, and how many cases there are.
#[derive(Drop)]
pub struct EnumSite {
    pub path: Path,
    pub repr: Repr,
    pub cases: u32,
}
