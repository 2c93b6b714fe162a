//! The JSON value that a text is, and what is looked up in it. It borrows the text, and an object is a list of members.

ghost use Rattle.std.specs.Prelude.{◌≡◌, Some, None, Err, IfOk, option_map, option_and_then, is_some};
ghost use Rattle.serde_json.specs.Find.{as_array, as_bool, as_null, as_number, as_object, as_str, as_u64, get};
ghost use Rattle.json.specs.Json.{value};
ghost use Rattle.json.specs.Value.{value_view};
ghost use Rattle.serde_json.specs.Read.{max_depth, read as read_text};
ghost use Rattle.wit_document.specs.View.{view, items_view, members_view};
ghost use Rattle.wit_document.specs.declared.fault.DocumentFault.TheVariants.{BadJson};

use crate::fault::DocumentFault;
use crate::number::number_of;
use crate::range::is_in_range;
use json::{Error, Reader, Scratch, Value};
use std::alloc::Global;

/// How deep arrays and objects may nest, as in `serde_json`.
const MAX_DEPTH: usize = 127;

/// The next value of a reader, which may have more.
fn parsed<'a>(alloc: Global, reader: &mut Reader<'a>) -> Result<Value<'a>, DocumentFault>
    ensures ok { IfOk result
        (λ v. value max_depth reader.old ≡ Some (value_view v, reader.new)) }
    ensures err { result ≡ Err BadJson → value max_depth reader.old ≡ None }
{
    match Value::read(alloc, reader, MAX_DEPTH) {
        Ok(value) => Ok(value),
        Err(Error::OutOfMemory) => Err(DocumentFault::OutOfMemory),
        Err(_) => Err(DocumentFault::BadJson),
    }
}

/// The value that a text is. A number that is too large for a float is refused wherever it stands.
pub(crate) fn parse<'a>(
    alloc: Global,
    text: &'a str,
    scratch: &'a mut Scratch,
) -> Result<Value<'a>, DocumentFault>
    ensures ok { IfOk result (λ v. read_text text.now ≡ Some (view v)) }
    ensures err { result ≡ Err BadJson → read_text text.now ≡ None }
{
    let Ok(mut reader) = Reader::new(text, scratch) else {
        return Err(DocumentFault::OutOfMemory);
    };
    let value = parsed(alloc, &mut reader)?;
    if reader.next().is_some() {
        return Err(DocumentFault::BadJson);
    }
    if is_in_range(&value) {
        Ok(value)
    } else {
        Err(DocumentFault::BadJson)
    }
}

/// Whether a value is null.
pub(crate) fn is_null(value: &Value<'_>) -> bool
    ensures { result ≡ is_some (as_null (view value.now)) }
{
    value.is_null()
}

/// The truth value that a value is.
pub(crate) fn as_bool(value: &Value<'_>) -> Option<bool>
    ensures { result ≡ as_bool (view value.now) }
{
    value.as_bool()
}

/// The whole number that a value is, written with no sign, point or exponent.
pub(crate) fn as_u64(value: &Value<'_>) -> Option<u64>
    ensures { result ≡ option_and_then as_u64 (as_number (view value.now)) }
{
    number_of(value.as_number()?)?.as_u64()
}

/// The text that a value is.
pub(crate) fn as_str<'a>(value: &Value<'a>) -> Option<&'a str>
    ensures { option_map (λ s. s.now) result ≡ as_str (view value.now) }
{
    value.as_str()
}

/// The items of an array.
pub(crate) fn as_array<'v, 'a>(value: &'v Value<'a>) -> Option<&'v Vec<Value<'a>>>
    ensures { option_map (λ v. items_view v.now.items) result ≡ as_array (view value.now) }
{
    match value {
        Value::Array(items) => Some(items),
        _ => None,
    }
}

/// The members of an object, in the order of the text: a key may come more than once.
pub(crate) fn as_object<'v, 'a>(value: &'v Value<'a>) -> Option<&'v Vec<(&'a str, Value<'a>)>>
    ensures { option_map (λ v. members_view v.now.items) result ≡ as_object (view value.now) }
{
    match value {
        Value::Object(members) => Some(members),
        _ => None,
    }
}

/// The member at a key: of equal keys, the last.
pub(crate) fn get<'v, 'a>(value: &'v Value<'a>, key: &str) -> Option<&'v Value<'a>>
    ensures { option_map (λ v. view v.now) result ≡ get key.now (view value.now) }
{
    value.get(key)
}
