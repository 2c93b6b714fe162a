//! How a flags type is written.

use rust_tree::{Path, Repr};

/// A flags type of the table as the file writes it: the path of the type, the number that holds the members, and how many there are.
#[derive(Drop)]
pub struct FlagsSite {
    pub path: Path,
    pub repr: Repr,
    pub members: u32,
}
