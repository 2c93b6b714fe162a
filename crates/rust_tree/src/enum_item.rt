//! Definitions of enums.

use crate::path::Path;
use crate::repr::Repr;
use wit_model::{List, Text};

/// A case of an enum, with its doc lines.
#[derive(Debug, PartialEq, Drop)]
pub struct EnumCase {
    /// The doc comment, a line each.
    pub docs: List<Text>,
    pub name: Text,
}

/// What an error enum tells of one of its cases.
#[derive(Debug, PartialEq, Drop)]
pub struct ErrorCase {
    /// The case's name in the enum.
    pub name: Text,
    /// What `name` gives: the case's WIT name.
    pub wit: Text,
    /// What `message` gives: the case's docs, or nothing. Any text may stand here.
    pub message: Text,
}

/// What makes an enum an error type: `name`, `message`, `Display` and `Error`.
#[derive(Debug, PartialEq, Drop)]
pub struct ErrorEnum {
    /// Whether `Error` is there with the feature `std` alone.
    pub std_feature: bool,
    /// The cases, in order.
    pub cases: List<ErrorCase>,
}

/// A public enum, with its doc lines, its implementation of `Debug`, and `_lift`, which gives the case of a number.
#[derive(Debug, PartialEq, Drop)]
pub struct EnumItem {
    /// The doc comment, a line each.
    pub docs: List<Text>,
    pub repr: Repr,
    /// What is derived, in order. Where there is nothing, there is no line of derives.
    pub derives: List<Path>,
    pub name: Text,
    pub cases: List<EnumCase>,
    /// What is there where the enum is an error type. `Debug` is then another one.
    pub error: Option<ErrorEnum>,
}
