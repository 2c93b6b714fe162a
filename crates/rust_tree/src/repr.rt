//! The whole numbers behind enums and flags.

/// The whole number that holds the case of an enum, or the members of a flags type.
#[derive(Clone, Copy, Debug, PartialEq, Eq)]
pub enum Repr {
    U8,
    U16,
    U32,
    U64,
    U128,
}
