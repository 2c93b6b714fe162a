//! How a variant is written.

use rust_tree::Path;
use wit_model::{List, Text};

/// A variant of the table as the file writes it: the path of the type where it is lifted, and where it is lowered, and the names of its cases,
/// in order.
#[derive(Drop)]
pub struct VariantSite {
    pub lifted: Path,
    pub lowered: Path,
    pub cases: List<Text>,
}
