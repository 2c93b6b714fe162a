//! What the options say of definitions of types.

use crate::ownership::Ownership;

/// What the options of a generator say of the definitions of types.
#[derive(Clone, Copy, Debug, PartialEq, Eq)]
pub struct TypeOpts {
    pub ownership: Ownership,
    /// Whether types that no function uses are defined.
    pub generate_unused_types: bool,
}
