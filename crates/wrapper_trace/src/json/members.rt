//! The members of objects.

use crate::fault::{LineFault, Part};
use crate::json::Readable;
use serde_json::{Map, Value};
use std::alloc::Global;
use wit_model::Text;

fn members_of(value: &Value) -> Result<&Map<String, Value>, LineFault> {
    value.as_object().ok_or(LineFault::Expected(Part::Object))
}

/// That a value is an object with no keys but these.
pub(crate) fn only(alloc: Global, value: &Value, keys: &[&str]) -> Result<(), LineFault> {
    for key in members_of(value)?.keys() {
        if !keys.iter().any(|k| *k == key.as_str()) {
            return Err(LineFault::Unknown(Text::from_str(alloc, key.as_str())?));
        }
    }
    Ok(())
}

/// The key and the value of an object that has one member.
pub(crate) fn sole_member(value: &Value) -> Option<(&str, &Value)> {
    let members = value.as_object()?;
    if members.len() != 1 {
        return None;
    }
    let (key, member) = members.first_key_value()?;
    Some((key.as_str(), member))
}

/// The member at a key of an object, which must be there.
pub(crate) fn member<'v>(
    alloc: Global,
    value: &'v Value,
    key: &str,
) -> Result<&'v Value, LineFault> {
    match value.get(key) {
        Some(member) => Ok(member),
        None if value.is_object() => Err(LineFault::Missing(Text::from_str(alloc, key)?)),
        None => Err(LineFault::Expected(Part::Object)),
    }
}

/// What the member at a key is read as, which must be there.
pub(crate) fn required<T: Readable>(
    alloc: Global,
    value: &Value,
    key: &str,
) -> Result<T, LineFault> {
    T::read(alloc, member(alloc, value, key)?)
}

/// What the member at a key is read as, or nothing where it is null or absent.
pub(crate) fn optional<T: Readable>(
    alloc: Global,
    value: &Value,
    key: &str,
) -> Result<Option<T>, LineFault> {
    match value.get(key) {
        Some(member) if !member.is_null() => Ok(Some(T::read(alloc, member)?)),
        _ => Ok(None),
    }
}
