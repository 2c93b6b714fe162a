//! Reading JSON values.

mod lists;
mod members;
mod numbers;

use crate::fault::{LineFault, Part};
pub(crate) use lists::{items_of, pair_of};
pub(crate) use members::{member, only, optional, required, sole_member};
pub(crate) use numbers::{bit_of, byte_of, i32_of, i64_of, integer_of, u32_of, u64_of};
use serde_json::Value;
use std::alloc::Global;
use wit_model::Text;

/// What a JSON value can be read as.
pub(crate) trait Readable: Drop {
    fn read(alloc: Global, value: &Value) -> Result<Self, LineFault>;
}

impl Readable for u32 {
    fn read(_alloc: Global, value: &Value) -> Result<u32, LineFault> {
        u32_of(value).ok_or(LineFault::Expected(Part::Number))
    }
}

impl Readable for u8 {
    fn read(_alloc: Global, value: &Value) -> Result<u8, LineFault> {
        byte_of(value).ok_or(LineFault::Expected(Part::Byte))
    }
}

impl Readable for bool {
    fn read(_alloc: Global, value: &Value) -> Result<bool, LineFault> {
        value.as_bool().ok_or(LineFault::Expected(Part::Bool))
    }
}

impl Readable for Text {
    fn read(alloc: Global, value: &Value) -> Result<Text, LineFault> {
        match value.as_str() {
            Some(text) => Ok(Text::from_str(alloc, text)?),
            None => Err(LineFault::Expected(Part::Text)),
        }
    }
}
