//! The two sides of a world.

/// Whether a function is imported or exported.
#[derive(Clone, Copy)]
pub(crate) enum Side {
    Import,
    Export,
}
