//! Values of the Rust side.

ghost use Rattle.std.specs.Prelude.{◌≡◌};
ghost use Rattle.wrapper_trace.specs.Kinds.{kind_named};

use crate::fault::{LineFault, Part};
use crate::json::{
    Readable, bit_of, integer_of, items_of, only, pair_of, required, sole_member, u32_of, u64_of,
};
use serde_json::Value;
use std::alloc::Global;
use wit_model::{Boxed, List, WitType};
use wrapper_data::RustValue;

/// More levels than the values of a JSON text have, since `serde_json` reads no text that has more than 127.
const LEVELS: u32 = 128;

impl Readable for RustValue {
    fn read(alloc: Global, value: &Value) -> Result<RustValue, LineFault> {
        value_of(alloc, value, LEVELS)
    }
}

/// The value that a JSON value of so many levels stands for.
#[cycle(value)]
fn value_of(alloc: Global, value: &Value, levels: u32) -> Result<RustValue, LineFault> {
    let Some(below) = levels.checked_sub(1) else {
        return Err(LineFault::Expected(Part::Value));
    };
    match sole_member(value) {
        Some(("seq", inner)) => Ok(RustValue::Seq(values_of(alloc, inner, below)?)),
        Some(("struct", inner)) => Ok(RustValue::Struct(values_of(alloc, inner, below)?)),
        Some(("case", inner)) => case_of(alloc, inner, below),
        Some(("map", inner)) => Ok(RustValue::Map(entries_of(alloc, inner, below)?)),
        Some((kind, inner)) => plain_of(alloc, kind, inner),
        None => unit_of(value),
    }
}

#[cycle(value)]
fn values_of(alloc: Global, value: &Value, levels: u32) -> Result<List<RustValue>, LineFault> {
    let mut values = List::new(alloc);
    for item in items_of(value)? {
        values.push(value_of(alloc, item, levels)?)?;
    }
    Ok(values)
}

#[cycle(value)]
fn case_of(alloc: Global, value: &Value, levels: u32) -> Result<RustValue, LineFault> {
    let (number, payload) = pair_of(value)?;
    let number = u32::read(alloc, number)?;
    if payload.is_null() {
        Ok(RustValue::Case(number, None))
    } else {
        let payload = Boxed::new(alloc, value_of(alloc, payload, levels)?)?;
        Ok(RustValue::Case(number, Some(payload)))
    }
}

#[cycle(value)]
fn entries_of(
    alloc: Global,
    value: &Value,
    levels: u32,
) -> Result<List<(RustValue, RustValue)>, LineFault> {
    let mut entries = List::new(alloc);
    for item in items_of(value)? {
        entries.push(entry_of(alloc, item, levels)?)?;
    }
    Ok(entries)
}

#[cycle(value)]
fn entry_of(
    alloc: Global,
    value: &Value,
    levels: u32,
) -> Result<(RustValue, RustValue), LineFault> {
    let (key, mapped) = pair_of(value)?;
    let key = value_of(alloc, key, levels)?;
    Ok((key, value_of(alloc, mapped, levels)?))
}

fn unit_of(value: &Value) -> Result<RustValue, LineFault> {
    match value.as_str() {
        Some("unit") => Ok(RustValue::Unit),
        _ => Err(LineFault::Expected(Part::Value)),
    }
}

/// A value that holds no other.
fn plain_of(alloc: Global, kind: &str, inner: &Value) -> Result<RustValue, LineFault> {
    match kind {
        "num" => num_of(inner),
        "bits" => bits_of(inner),
        "buffer" => buffer_of(alloc, inner),
        "handle" => handle_of(alloc, inner),
        _ => scalar_of(kind, inner).ok_or(LineFault::Expected(Part::Value)),
    }
}

/// A bool, a float or a char.
fn scalar_of(kind: &str, inner: &Value) -> Option<RustValue> {
    match kind {
        "bool" => Some(RustValue::Bool(inner.as_bool()?)),
        "f32" => Some(RustValue::F32(u32_of(inner)?)),
        "f64" => Some(RustValue::F64(u64_of(inner)?)),
        "char" => Some(RustValue::Char(u32_of(inner)?)),
        _ => None,
    }
}

/// A whole number, with its WIT type.
fn num_of(inner: &Value) -> Result<RustValue, LineFault> {
    let (kind, number) = pair_of(inner)?;
    let Some(kind) = kind_of(kind) else {
        return Err(LineFault::Expected(Part::Kind));
    };
    match integer_of(number) {
        Some(n) => Ok(RustValue::Num(kind, n)),
        None => Err(LineFault::Expected(Part::LongNumber)),
    }
}

fn kind_of(value: &Value) -> Option<WitType> {
    kind_named(value.as_str()?)
}

/// The type of whole numbers that a word names.
#[tactic(auto, unfolding(crate::specs::Kinds::kind_named))]
fn kind_named(word: &str) -> Option<WitType>
    ensures { result ≡ kind_named word.now }
{
    match word {
        "u8" => Some(WitType::U8),
        "u16" => Some(WitType::U16),
        "u32" => Some(WitType::U32),
        "u64" => Some(WitType::U64),
        "s8" => Some(WitType::S8),
        "s16" => Some(WitType::S16),
        "s32" => Some(WitType::S32),
        "s64" => Some(WitType::S64),
        _ => None,
    }
}

/// Flags, by the numbers of the bits that are set.
fn bits_of(inner: &Value) -> Result<RustValue, LineFault> {
    let mut bits = 0u128;
    for item in items_of(inner)? {
        match bit_of(item) {
            Some(n) => bits |= 1u128 << n,
            None => return Err(LineFault::Expected(Part::Bit)),
        }
    }
    Ok(RustValue::Bits(bits))
}

fn buffer_of(alloc: Global, inner: &Value) -> Result<RustValue, LineFault> {
    only(alloc, inner, &["address", "len", "owned"])?;
    Ok(RustValue::Buffer {
        address: required(alloc, inner, "address")?,
        len: required(alloc, inner, "len")?,
        owned: required(alloc, inner, "owned")?,
    })
}

fn handle_of(alloc: Global, inner: &Value) -> Result<RustValue, LineFault> {
    only(alloc, inner, &["number", "own"])?;
    Ok(RustValue::Handle {
        number: required(alloc, inner, "number")?,
        own: required(alloc, inner, "own")?,
    })
}
