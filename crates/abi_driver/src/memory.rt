//! Values are put into memory, and read from it.

pub(crate) mod enums;
pub(crate) mod flags;
pub(crate) mod load;
pub(crate) mod place;
pub(crate) mod store;
pub(crate) mod variants;
pub(crate) mod word;

pub use load::lift_from_memory;
pub use store::lower_to_memory;
