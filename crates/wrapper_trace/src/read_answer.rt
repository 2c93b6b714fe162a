//! What the allocator and the other side answer.

use crate::fault::{LineFault, Part};
use crate::json::{Readable, only, optional, required, sole_member, u32_of};
use crate::read_heap::{heap_in, push_bytes};
use serde_json::Value;
use std::alloc::Global;
use wit_model::{List, OutOfMemory};
use wrapper_data::{Answer, Choice, Choices};

impl Readable for Choices {
    fn read(alloc: Global, value: &Value) -> Result<Choices, LineFault> {
        Ok(Choices {
            list: List::read(alloc, value)?,
        })
    }
}

impl Readable for Choice {
    fn read(_alloc: Global, value: &Value) -> Result<Choice, LineFault> {
        choice_of(value).ok_or(LineFault::Expected(Part::Choice))
    }
}

fn choice_of(value: &Value) -> Option<Choice> {
    match value.as_str() {
        Some("refuse") => Some(Choice::Refuse),
        Some(_) => None,
        None => match sole_member(value)? {
            ("at", address) => Some(Choice::At(u32_of(address)?)),
            _ => None,
        },
    }
}

/// The answer of an import's peer.
pub(crate) fn peer_answer(alloc: Global, value: &Value) -> Result<Answer, LineFault> {
    only(alloc, value, &["result", "writes", "blocks"])?;
    let blocks = optional(alloc, value, "blocks")?;
    Ok(Answer::Words {
        result: optional(alloc, value, "result")?,
        writes: writes_of(alloc, value)?,
        blocks: blocks.unwrap_or(List::new(alloc)),
    })
}

/// The answer of an export's implementation.
pub(crate) fn method_answer(alloc: Global, value: &Value) -> Result<Answer, LineFault> {
    only(alloc, value, &["value", "heap"])?;
    Ok(Answer::Value {
        value: optional(alloc, value, "value")?,
        heap: heap_in(alloc, value)?,
    })
}

/// Bytes that are written in a row, from an address on.
#[derive(Drop)]
struct Stretch {
    address: u32,
    bytes: List<u8>,
}

impl Readable for Stretch {
    fn read(alloc: Global, value: &Value) -> Result<Stretch, LineFault> {
        only(alloc, value, &["address", "bytes"])?;
        Ok(Stretch {
            address: required(alloc, value, "address")?,
            bytes: required(alloc, value, "bytes")?,
        })
    }
}

/// What the peer writes, in its order: each byte with its address.
fn writes_of(alloc: Global, value: &Value) -> Result<List<(u32, u8)>, LineFault> {
    let mut writes = List::new(alloc);
    let stretches: Option<List<Stretch>> = optional(alloc, value, "writes")?;
    if let Some(stretches) = stretches {
        for stretch in stretches.as_slice() {
            push_bytes(&mut writes, stretch.address, stretch.bytes.as_slice())?;
        }
    }
    Ok(writes)
}
