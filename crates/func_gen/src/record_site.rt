//! How a record is written.

use rust_tree::Path;
use wit_model::{List, Text};

/// A record of the table as the file writes it: the path of the type that is made, that of the type that is taken apart, and the names of
/// the fields, in their order.
#[derive(Drop)]
pub struct RecordSite {
    pub lifted: Path,
    pub lowered: Path,
    pub fields: List<Text>,
}
