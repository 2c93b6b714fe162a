//! Words of core signatures.

ghost use Rattle.std.specs.Prelude.{◌≡◌};
ghost use Rattle.serde_json.specs.View.{view};
ghost use Rattle.wrapper_trace.specs.Words.{slot_of, type_named, word_of_type};

use crate::fault::{LineFault, Part};
use crate::json::{Readable, i32_of, i64_of, sole_member, u32_of, u64_of};
use serde_json::Value;
use std::alloc::Global;
use wit_model::WasmType;
use wrapper_data::Word;

impl Readable for Word {
    fn read(_alloc: Global, value: &Value) -> Result<Word, LineFault> {
        word_of(value).ok_or(LineFault::Expected(Part::Word))
    }
}

fn word_of(value: &Value) -> Option<Word> {
    let (kind, bits) = sole_member(value)?;
    word_of_type(type_named(kind)?, bits)
}

/// The core type that a key names.
#[tactic(auto, unfolding(crate::specs::Words::type_named))]
fn type_named(key: &str) -> Option<WasmType>
    ensures { result ≡ type_named key.now }
{
    match key {
        "i32" => Some(WasmType::I32),
        "i64" => Some(WasmType::I64),
        "f32" => Some(WasmType::F32),
        "f64" => Some(WasmType::F64),
        "pointer" => Some(WasmType::Pointer),
        "length" => Some(WasmType::Length),
        "slot" => Some(WasmType::PointerOrI64),
        _ => None,
    }
}

/// The word of a type whose number, or whose bits, a value gives.
fn word_of_type(ty: WasmType, value: &Value) -> Option<Word>
    ensures { result ≡ word_of_type ty (view value.now) }
{
    match ty {
        WasmType::I32 => Some(Word::I32(i32_of(value)?)),
        WasmType::I64 => Some(Word::I64(i64_of(value)?)),
        WasmType::F32 => Some(Word::F32(u32_of(value)?)),
        WasmType::F64 => Some(Word::F64(u64_of(value)?)),
        WasmType::Pointer => Some(Word::Pointer(u32_of(value)?)),
        WasmType::Length => Some(Word::Length(u32_of(value)?)),
        WasmType::PointerOrI64 => slot_of(value),
    }
}

/// A slot, for which null stands where it is not written yet.
fn slot_of(value: &Value) -> Option<Word>
    ensures { result ≡ slot_of (view value.now) }
{
    if value.is_null() {
        Some(Word::Slot(None))
    } else {
        Some(Word::Slot(Some(u64_of(value)?)))
    }
}
