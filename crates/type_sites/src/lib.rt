//! Records of the table as the file writes them, and that the definitions of a world print its types as their shapes. The definitions are
//! in `specs/`, and the laws are functions.
#![tactic(auto)]

mod laws;
mod sites;

pub use laws::{direct_law, printed_law, site_law};
pub use sites::type_sites;
