//! What bodies are made by, of the types of a table.

use crate::type_site::TypeSite;
use wit_layout::SizeAlign;
use wit_model::List;

/// What is known of the types of a table: their layouts; and by the number of a type, how it is written, where it has a site. They are made
/// once for a file.
#[derive(Drop)]
pub struct TypeTables {
    pub sizes: SizeAlign,
    pub sites: List<Option<TypeSite>>,
}
