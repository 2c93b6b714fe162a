//! Lists.

use crate::fault::{LineFault, Part};
use crate::json::Readable;
use serde_json::Value;
use std::alloc::Global;
use wit_model::List;

/// The items of an array.
pub(crate) fn items_of(value: &Value) -> Result<&[Value], LineFault> {
    match value.as_array() {
        Some(items) => Ok(items.as_slice()),
        None => Err(LineFault::Expected(Part::List)),
    }
}

/// The two items of an array that has two.
pub(crate) fn pair_of(value: &Value) -> Result<(&Value, &Value), LineFault> {
    let Some(items) = value.as_array() else {
        return Err(LineFault::Expected(Part::Pair));
    };
    match items.as_slice() {
        [first, second] => Ok((first, second)),
        _ => Err(LineFault::Expected(Part::Pair)),
    }
}

impl<T: Readable> Readable for List<T> {
    fn read(alloc: Global, value: &Value) -> Result<List<T>, LineFault> {
        let mut list = List::new(alloc);
        for item in items_of(value)? {
            list.push(T::read(alloc, item)?)?;
        }
        Ok(list)
    }
}
