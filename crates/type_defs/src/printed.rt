//! How WIT types are printed that are no entries of the table.

ghost use Rattle.std.specs.Prelude.{◌≡◌};
ghost use Rattle.type_defs.specs.Printed.{printed_type};

use rust_tree::{Primitive, TypeExpr};
use wit_model::WitType;

/// A scalar or a text as a result, as a parameter that is given away, or as a part of a definition. Any other type is printed as
/// `()`, and none is asked for.
pub fn printed_type(ty: WitType) -> TypeExpr
    ensures { result ≡ printed_type ty }
{
    match ty {
        WitType::Bool => TypeExpr::Primitive(Primitive::Bool),
        WitType::U8 => TypeExpr::Primitive(Primitive::U8),
        WitType::U16 => TypeExpr::Primitive(Primitive::U16),
        WitType::U32 => TypeExpr::Primitive(Primitive::U32),
        WitType::U64 => TypeExpr::Primitive(Primitive::U64),
        WitType::S8 => TypeExpr::Primitive(Primitive::I8),
        WitType::S16 => TypeExpr::Primitive(Primitive::I16),
        WitType::S32 => TypeExpr::Primitive(Primitive::I32),
        WitType::S64 => TypeExpr::Primitive(Primitive::I64),
        WitType::F32 => TypeExpr::Primitive(Primitive::F32),
        WitType::F64 => TypeExpr::Primitive(Primitive::F64),
        WitType::Char => TypeExpr::Primitive(Primitive::Char),
        WitType::String => TypeExpr::String,
        WitType::ErrorContext => TypeExpr::Unit,
        WitType::Id(_) => TypeExpr::Unit,
    }
}
