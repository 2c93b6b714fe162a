//! Values of the Rust side of a wrapper.

ghost use Rattle.std.specs.Prelude.{◌≡◌, IfOk};

use std::alloc::Global;
use wit_model::{Boxed, List, OutOfMemory, WitType};

/// A value of the Rust side of a wrapper.
#[derive(Debug, PartialEq)]
pub enum RustValue {
    Bool(bool),
    /// A whole number of a WIT type, one of `U8` to `U64` and `S8` to `S64`. Only a number in the range of that type
    /// stands for one, and any other can be written too.
    Num(WitType, i128),
    /// A float of 32 bits, as its bits.
    F32(u32),
    /// A float of 64 bits, as its bits.
    F64(u64),
    /// A char, as its code.
    Char(u32),
    /// A text or a list whose elements lie in memory as they are: its address, its number of elements, and whether it
    /// owns its block. Its capacity is its length.
    Buffer { address: u32, len: u32, owned: bool },
    /// Any other list.
    Seq(List<RustValue>),
    /// A record, a tuple or a fixed-length list.
    Struct(List<RustValue>),
    /// A case by its number, with its payload.
    Case(u32, Option<Boxed<RustValue>>),
    /// Flags, as their bits.
    Bits(u128),
    /// A map, as its keys with their values, in the order in which they are listed.
    Map(List<(RustValue, RustValue)>),
    /// A handle's number, and whether it owns its resource.
    Handle { number: u32, own: bool },
    /// The value of what gives none: `()`.
    Unit,
}

// Not derived: what is derived stands again in each function that lets such a value go, and is proved with it.
impl Drop for RustValue {
    #[cycle(drop)]
    fn drop(self) {
        match self {
            RustValue::Bool(_)
            | RustValue::Num(_, _)
            | RustValue::F32(_)
            | RustValue::F64(_)
            | RustValue::Char(_)
            | RustValue::Buffer {
                address: _,
                len: _,
                owned: _,
            }
            | RustValue::Seq(_)
            | RustValue::Struct(_)
            | RustValue::Case(_, _)
            | RustValue::Bits(_)
            | RustValue::Map(_)
            | RustValue::Handle { number: _, own: _ }
            | RustValue::Unit => {}
        }
    }
}

impl RustValue {
    /// An equal value.
    #[cycle(copy)]
    pub fn copy(&self, alloc: Global) -> Result<RustValue, OutOfMemory>
        ensures { IfOk result (λ v. v ≡ self.now) }
    {
        match self {
            RustValue::Bool(b) => Ok(RustValue::Bool(*b)),
            RustValue::Num(kind, n) => Ok(RustValue::Num(*kind, *n)),
            RustValue::F32(bits) => Ok(RustValue::F32(*bits)),
            RustValue::F64(bits) => Ok(RustValue::F64(*bits)),
            RustValue::Char(code) => Ok(RustValue::Char(*code)),
            RustValue::Buffer {
                address,
                len,
                owned,
            } => Ok(RustValue::Buffer {
                address: *address,
                len: *len,
                owned: *owned,
            }),
            RustValue::Seq(values) => Ok(RustValue::Seq(copy_values(values.as_slice(), alloc)?)),
            RustValue::Struct(values) => Ok(RustValue::Struct(copy_values(
                values.as_slice(),
                alloc,
            )?)),
            RustValue::Case(number, payload) => Ok(RustValue::Case(
                *number,
                copy_payload(payload, alloc)?,
            )),
            RustValue::Bits(bits) => Ok(RustValue::Bits(*bits)),
            RustValue::Map(entries) => Ok(RustValue::Map(copy_entries(entries.as_slice(), alloc)?)),
            RustValue::Handle { number, own } => Ok(RustValue::Handle {
                number: *number,
                own: *own,
            }),
            RustValue::Unit => Ok(RustValue::Unit),
        }
    }
}

#[cycle(copy)]
fn copy_values(values: &[RustValue], alloc: Global) -> Result<List<RustValue>, OutOfMemory>
    ensures { IfOk result (λ copies. copies ≡ values.now) }
{
    let mut copies = List::new(alloc);
    for value in values {
        copies.push(value.copy(alloc)?)?;
    }
    Ok(copies)
}

#[cycle(copy)]
fn copy_entries(
    entries: &[(RustValue, RustValue)],
    alloc: Global,
) -> Result<List<(RustValue, RustValue)>, OutOfMemory>
    ensures { IfOk result (λ copies. copies ≡ entries.now) }
{
    let mut copies = List::new(alloc);
    for entry in entries {
        copies.push((entry.0.copy(alloc)?, entry.1.copy(alloc)?))?;
    }
    Ok(copies)
}

#[cycle(copy)]
fn copy_payload(
    payload: &Option<Boxed<RustValue>>,
    alloc: Global,
) -> Result<Option<Boxed<RustValue>>, OutOfMemory>
    ensures { IfOk result (λ copied. copied ≡ payload.now) }
{
    match payload {
        None => Ok(None),
        Some(value) => Ok(Some(Boxed::new(alloc, value.get().copy(alloc)?)?)),
    }
}
