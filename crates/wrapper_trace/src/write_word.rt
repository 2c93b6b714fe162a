//! Words of core signatures, as they are read.

use crate::write_json::Writable;
use std::fmt::Write;
use wit_model::OutOfMemory;
use wrapper_data::Word;

impl Writable for Word {
    fn write(&self, out: &mut String) -> Result<(), OutOfMemory> {
        match self {
            Word::I32(n) => write!(out, "{{\"i32\":{n}}}")?,
            Word::I64(n) => write!(out, "{{\"i64\":{n}}}")?,
            Word::F32(bits) => write!(out, "{{\"f32\":{bits}}}")?,
            Word::F64(bits) => write!(out, "{{\"f64\":{bits}}}")?,
            Word::Pointer(address) => write!(out, "{{\"pointer\":{address}}}")?,
            Word::Length(n) => write!(out, "{{\"length\":{n}}}")?,
            Word::Slot(Some(bits)) => write!(out, "{{\"slot\":{bits}}}")?,
            Word::Slot(None) => out.push_str("{\"slot\":null}")?,
        }
        Ok(())
    }
}
