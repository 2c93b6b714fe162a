//! Numbers, ids and types of a document.

ghost use Rattle.std.specs.Prelude.{◌≡◌};
ghost use Rattle.wit_document.specs.Types.{id_of, type_id_of, type_named, type_of};

use crate::fault::DocumentFault;
use crate::reading::Readable;
use crate::value::{as_str, as_u64};
use json::Value;
use std::alloc::Global;
use wit_model::{TypeId, WitType};

#[tactic(auto, unfolding(crate::specs::Types::id_of))]
impl Readable for u32 {
    ghost read_of = { id_of };

    fn read(_alloc: Global, value: &Value<'_>) -> Result<u32, DocumentFault> {
        match as_u64(value) {
            Some(n) if n <= u64::from(u32::MAX) => Ok(n as u32),
            _ => Err(DocumentFault::BadJson),
        }
    }
}

#[tactic(auto, unfolding(crate::specs::Types::type_id_of))]
impl Readable for TypeId {
    ghost read_of = { type_id_of };

    fn read(alloc: Global, value: &Value<'_>) -> Result<TypeId, DocumentFault> {
        Ok(TypeId(u32::read(alloc, value)?))
    }
}

#[tactic(auto, unfolding(crate::specs::Types::type_of))]
impl Readable for WitType {
    ghost read_of = { type_of };

    fn read(alloc: Global, value: &Value<'_>) -> Result<WitType, DocumentFault> {
        match as_str(value) {
            Some(word) => type_named(word).ok_or(DocumentFault::BadJson),
            None => Ok(WitType::Id(TypeId::read(alloc, value)?)),
        }
    }
}

#[tactic(auto, unfolding(crate::specs::Types::type_named))]
fn type_named(word: &str) -> Option<WitType>
    ensures { result ≡ type_named word.now }
{
    match word {
        "bool" => Some(WitType::Bool),
        "u8" => Some(WitType::U8),
        "u16" => Some(WitType::U16),
        "u32" => Some(WitType::U32),
        "u64" => Some(WitType::U64),
        "s8" => Some(WitType::S8),
        "s16" => Some(WitType::S16),
        "s32" => Some(WitType::S32),
        "s64" => Some(WitType::S64),
        "f32" => Some(WitType::F32),
        "f64" => Some(WitType::F64),
        "char" => Some(WitType::Char),
        "string" => Some(WitType::String),
        "error-context" => Some(WitType::ErrorContext),
        _ => None,
    }
}
