//! Definitions of flags types.

use crate::path::Path;
use crate::repr::Repr;
use wit_model::{List, Text};

/// A member of a flags type, with its doc lines.
#[derive(Debug, PartialEq, Drop)]
pub struct FlagsMember {
    /// The doc comment, a line each.
    pub docs: List<Text>,
    pub name: Text,
}

/// A public flags type, with its doc lines, by the macro `bitflags!`. What it derives is always the same.
#[derive(Debug, PartialEq, Drop)]
pub struct FlagsItem {
    /// The module or crate that has the macro.
    pub bitflags: Path,
    /// The doc comment, a line each.
    pub docs: List<Text>,
    pub name: Text,
    pub repr: Repr,
    /// The members, of which each has the bit of its place.
    pub members: List<FlagsMember>,
}
