//! What a value of the Rust side owns, and what it is behind a reference.

ghost use Rattle.std.specs.Prelude.{◌≡◌, ◌++◌, IfOk, OnOk, map};
ghost use Rattle.std.specs.Option.{option_map};
ghost use Rattle.wrapper_values.specs.Owning as spec;

use std::alloc::Global;
use wit_model::{Boxed, List, OutOfMemory};
use wrapper_data::RustValue;

/// Puts the addresses of the blocks that a value owns behind others.
#[cycle(owned)]
pub(crate) fn push_owned(addresses: &mut List<u32>, value: &RustValue) -> Result<(), OutOfMemory>
    ensures { OnOk result (addresses.new ≡ addresses.old ++ spec.owned_by value.now) }
{
    match value {
        RustValue::Buffer {
            address,
            len,
            owned: true,
        } if *len != 0 => addresses.push(*address),
        RustValue::Seq(parts) | RustValue::Struct(parts) => {
            push_owned_parts(addresses, parts.as_slice())
        }
        RustValue::Case(_, Some(payload)) => push_owned(addresses, payload.get()),
        RustValue::Map(entries) => push_owned_entries(addresses, entries.as_slice()),
        _ => Ok(()),
    }
}

/// Puts the addresses of the blocks that values own behind others.
#[cycle(owned)]
pub(crate) fn push_owned_parts(
    addresses: &mut List<u32>,
    parts: &[RustValue],
) -> Result<(), OutOfMemory>
    ensures { OnOk result (addresses.new ≡ addresses.old ++ spec.taken_by parts.now) }
{
    for part in parts {
        push_owned(addresses, part)?;
    }
    Ok(())
}

#[cycle(owned)]
fn push_owned_entries(
    addresses: &mut List<u32>,
    entries: &[(RustValue, RustValue)],
) -> Result<(), OutOfMemory>
    ensures { OnOk result (addresses.new ≡ addresses.old ++ spec.taken_by_entries entries.now) }
{
    for entry in entries {
        push_owned(addresses, &entry.0)?;
        push_owned(addresses, &entry.1)?;
    }
    Ok(())
}

/// The value behind a reference, which owns nothing.
#[cycle(lend)]
pub(crate) fn lent_value(value: &RustValue, alloc: Global) -> Result<RustValue, OutOfMemory>
    ensures { IfOk result (λ v. v ≡ spec.lent_value value.now) }
{
    match value {
        RustValue::Buffer { address, len, .. } => Ok(RustValue::Buffer {
            address: *address,
            len: *len,
            owned: false,
        }),
        RustValue::Handle { number, .. } => Ok(RustValue::Handle {
            number: *number,
            own: false,
        }),
        RustValue::Seq(parts) => Ok(RustValue::Seq(lent_parts(parts.as_slice(), alloc)?)),
        RustValue::Struct(parts) => Ok(RustValue::Struct(lent_parts(parts.as_slice(), alloc)?)),
        RustValue::Case(number, payload) => {
            Ok(RustValue::Case(*number, lent_payload(payload, alloc)?))
        }
        RustValue::Map(entries) => Ok(RustValue::Map(lent_entries(entries.as_slice(), alloc)?)),
        _ => value.copy(alloc),
    }
}

#[cycle(lend)]
fn lent_parts(parts: &[RustValue], alloc: Global) -> Result<List<RustValue>, OutOfMemory>
    ensures { IfOk result (λ lent. lent ≡ map spec.lent_value parts.now) }
{
    let mut lent = List::new(alloc);
    for part in parts {
        lent.push(lent_value(part, alloc)?)?;
    }
    Ok(lent)
}

#[cycle(lend)]
fn lent_entries(
    entries: &[(RustValue, RustValue)],
    alloc: Global,
) -> Result<List<(RustValue, RustValue)>, OutOfMemory>
    ensures { IfOk result
        (λ lent. lent ≡ map (λ e. (spec.lent_value e.0, spec.lent_value e.1)) entries.now) }
{
    let mut lent = List::new(alloc);
    for entry in entries {
        lent.push((lent_value(&entry.0, alloc)?, lent_value(&entry.1, alloc)?))?;
    }
    Ok(lent)
}

#[cycle(lend)]
fn lent_payload(
    payload: &Option<Boxed<RustValue>>,
    alloc: Global,
) -> Result<Option<Boxed<RustValue>>, OutOfMemory>
    ensures { IfOk result (λ lent. lent ≡ option_map spec.lent_value payload.now) }
{
    match payload {
        None => Ok(None),
        Some(value) => Ok(Some(Boxed::new(alloc, lent_value(value.get(), alloc)?)?)),
    }
}
