//! Values of the Rust side, as they are read.

use crate::write_json::{Writable, separate};
use std::fmt::Write;
use wit_model::{Boxed, OutOfMemory, TypeId, WitType};
use wrapper_data::RustValue;

impl Writable for RustValue {
    fn write(&self, out: &mut String) -> Result<(), OutOfMemory> {
        write_value(out, self)
    }
}

#[cycle(write_value)]
fn write_value(out: &mut String, value: &RustValue) -> Result<(), OutOfMemory> {
    match value {
        RustValue::Seq(values) => write_under(out, "seq", values.as_slice()),
        RustValue::Struct(values) => write_under(out, "struct", values.as_slice()),
        RustValue::Case(number, payload) => write_case(out, *number, payload),
        RustValue::Map(entries) => write_map(out, entries.as_slice()),
        plain => write_plain(out, plain),
    }
}

/// A list of values, under its kind.
#[cycle(write_value)]
fn write_under(out: &mut String, kind: &str, values: &[RustValue]) -> Result<(), OutOfMemory> {
    write!(out, "{{\"{kind}\":[")?;
    for (i, value) in values.iter().enumerate() {
        separate(out, i)?;
        write_value(out, value)?;
    }
    out.push_str("]}")?;
    Ok(())
}

#[cycle(write_value)]
fn write_case(
    out: &mut String,
    number: u32,
    payload: &Option<Boxed<RustValue>>,
) -> Result<(), OutOfMemory> {
    write!(out, "{{\"case\":[{number},")?;
    match payload {
        Some(value) => write_value(out, value.get())?,
        None => out.push_str("null")?,
    }
    out.push_str("]}")?;
    Ok(())
}

#[cycle(write_value)]
fn write_map(out: &mut String, entries: &[(RustValue, RustValue)]) -> Result<(), OutOfMemory> {
    out.push_str("{\"map\":[")?;
    for (i, entry) in entries.iter().enumerate() {
        separate(out, i)?;
        out.push_str("[")?;
        write_value(out, &entry.0)?;
        out.push_str(",")?;
        write_value(out, &entry.1)?;
        out.push_str("]")?;
    }
    out.push_str("]}")?;
    Ok(())
}

/// A value that holds no other.
fn write_plain(out: &mut String, value: &RustValue) -> Result<(), OutOfMemory> {
    match value {
        RustValue::Bool(b) => write!(out, "{{\"bool\":{b}}}")?,
        RustValue::Num(kind, n) => write_num(out, *kind, *n)?,
        RustValue::F32(bits) => write!(out, "{{\"f32\":{bits}}}")?,
        RustValue::F64(bits) => write!(out, "{{\"f64\":{bits}}}")?,
        RustValue::Char(code) => write!(out, "{{\"char\":{code}}}")?,
        RustValue::Bits(bits) => write_bits(out, *bits)?,
        RustValue::Buffer {
            address,
            len,
            owned,
        } => write!(
            out,
            "{{\"buffer\":{{\"address\":{address},\"len\":{len},\"owned\":{owned}}}}}"
        )?,
        RustValue::Handle { number, own } => {
            write!(out, "{{\"handle\":{{\"number\":{number},\"own\":{own}}}}}")?
        }
        _ => out.push_str("\"unit\"")?,
    }
    Ok(())
}

fn write_num(out: &mut String, kind: WitType, n: i128) -> Result<(), OutOfMemory> {
    match kind {
        WitType::Id(TypeId(id)) => write!(out, "{{\"num\":[{id},{n}]}}")?,
        _ => write!(out, "{{\"num\":[\"{}\",{n}]}}", kind_word(kind))?,
    }
    Ok(())
}

/// The word of a type that no table has.
fn kind_word(kind: WitType) -> &'static str {
    match kind {
        WitType::Bool => "bool",
        WitType::U8 => "u8",
        WitType::U16 => "u16",
        WitType::U32 => "u32",
        WitType::U64 => "u64",
        WitType::S8 => "s8",
        WitType::S16 => "s16",
        WitType::S32 => "s32",
        WitType::S64 => "s64",
        WitType::F32 => "f32",
        WitType::F64 => "f64",
        WitType::Char => "char",
        WitType::String => "string",
        WitType::ErrorContext => "error-context",
        WitType::Id(_) => "id",
    }
}

/// Flags, by the numbers of the bits that are set.
fn write_bits(out: &mut String, bits: u128) -> Result<(), OutOfMemory> {
    out.push_str("{\"bits\":[")?;
    let mut before = 0;
    for n in 0u32..128 {
        if bits >> n & 1 == 1 {
            separate(out, before)?;
            write!(out, "{n}")?;
            before = 1;
        }
    }
    out.push_str("]}")?;
    Ok(())
}
