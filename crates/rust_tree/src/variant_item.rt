//! Definitions of variants.

use crate::error_type::ErrorType;
use crate::path::Path;
use crate::type_expr::TypeExpr;
use wit_model::{List, Text};

/// A case of a variant, with its doc lines: `C(T)`, or `C` without a payload.
#[derive(Debug, PartialEq, Drop)]
pub struct VariantCase {
    /// The doc comment, a line each.
    pub docs: List<Text>,
    pub name: Text,
    /// The payload's type, if there is a payload.
    pub ty: Option<TypeExpr>,
}

/// A public enum whose cases may have payloads, with its doc lines, and its implementation of `Debug`.
#[derive(Debug, PartialEq, Drop)]
pub struct VariantItem {
    /// The doc comment, a line each.
    pub docs: List<Text>,
    /// What is derived, in order. Where there is nothing, there is no line of derives.
    pub derives: List<Path>,
    pub name: Text,
    pub cases: List<VariantCase>,
    /// What is there where the variant is an error type.
    pub error: Option<ErrorType>,
}
