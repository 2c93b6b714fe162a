//! Definitions of types.

use crate::enum_item::EnumItem;
use crate::error_type::ErrorType;
use crate::flags_item::FlagsItem;
use crate::path::Path;
use crate::type_expr::TypeExpr;
use crate::variant_item::VariantItem;
use wit_model::{List, Text};

/// A public field of a struct, with its doc lines.
#[derive(Debug, PartialEq, Drop)]
pub struct StructField {
    /// The doc comment, a line each.
    pub docs: List<Text>,
    pub name: Text,
    /// The name that `Debug` writes: the field's WIT name.
    pub wit: Text,
    pub ty: TypeExpr,
}

/// A public struct, with its doc lines, and its implementation of `Debug`.
#[derive(Debug, PartialEq, Drop)]
pub struct StructItem {
    /// The doc comment, a line each.
    pub docs: List<Text>,
    /// Whether it is laid out as in C: `#[repr(C)]`.
    pub repr_c: bool,
    /// What is derived, in order. Where there is nothing, there is no line of derives.
    pub derives: List<Path>,
    pub name: Text,
    pub fields: List<StructField>,
    /// What is there where the record is an error type.
    pub error: Option<ErrorType>,
}

/// Another name of a type, with its doc lines: `pub type N = T;`.
#[derive(Debug, PartialEq, Drop)]
pub struct AliasItem {
    /// The doc comment, a line each.
    pub docs: List<Text>,
    pub name: Text,
    pub ty: TypeExpr,
}

/// The definition of a type.
#[derive(Debug, PartialEq)]
pub enum TypeItem {
    Struct(StructItem),
    Alias(AliasItem),
    Enum(EnumItem),
    Flags(FlagsItem),
    Variant(VariantItem),
}

// Not derived: what is derived stands again in each function that lets such a value go, and is proved with it.
impl Drop for TypeItem {
    fn drop(self) {
        match self {
            TypeItem::Struct(_)
            | TypeItem::Alias(_)
            | TypeItem::Enum(_)
            | TypeItem::Flags(_)
            | TypeItem::Variant(_) => {}
        }
    }
}
