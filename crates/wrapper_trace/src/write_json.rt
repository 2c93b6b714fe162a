//! Writing JSON.

use serde_json::Value;
use std::fmt::Write;
use wit_model::{List, OutOfMemory};

/// What is written as a JSON value.
pub(crate) trait Writable {
    /// Puts the value behind a text. After a refusal the text may end in a part of it.
    fn write(&self, out: &mut String) -> Result<(), OutOfMemory>;
}

/// A member of an object, behind the text that ends in its key.
pub(crate) fn write_member<T: Writable>(
    out: &mut String,
    key: &str,
    value: &T,
) -> Result<(), OutOfMemory> {
    out.push_str(key)?;
    value.write(out)
}

impl<T: Writable> Writable for Option<T> {
    fn write(&self, out: &mut String) -> Result<(), OutOfMemory> {
        match self {
            Some(value) => value.write(out),
            None => Ok(out.push_str("null")?),
        }
    }
}

impl<T: Writable> Writable for List<T> {
    fn write(&self, out: &mut String) -> Result<(), OutOfMemory> {
        write_list(out, self.as_slice())
    }
}

/// A list, as an array.
pub(crate) fn write_list<T: Writable>(out: &mut String, items: &[T]) -> Result<(), OutOfMemory> {
    out.push_str("[")?;
    for (i, item) in items.iter().enumerate() {
        separate(out, i)?;
        item.write(out)?;
    }
    out.push_str("]")?;
    Ok(())
}

/// The comma between an item of this number, counted from 0, and the one before it, if there is one.
pub(crate) fn separate(out: &mut String, nth: usize) -> Result<(), OutOfMemory> {
    if nth > 0 {
        out.push_str(",")?;
    }
    Ok(())
}

/// A text, in quotes.
pub(crate) fn write_text(out: &mut String, text: &str) -> Result<(), OutOfMemory> {
    let alloc = *out.allocator();
    let text = Value::try_from_str(alloc, text)?;
    write!(out, "{text}")?;
    Ok(())
}
