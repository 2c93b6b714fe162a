//! The members of a JSON object, by their keys.

ghost use Rattle.std.specs.Prelude.{◌≡◌, option_map, map};
ghost use Rattle.std.specs.List.{list_any, list_all};
ghost use Rattle.std.specs.Str.{bytes_eq};
ghost use Rattle.serde_json.specs.Find.{as_null};
ghost use Rattle.wit_document.specs.View.{view};
ghost use Rattle.wit_document.specs.Reads.{Reads};
ghost use Rattle.wit_document.specs.Members.{only, required, required_two, optional, given, empty_of, sole_member};

use crate::fault::DocumentFault;
use crate::reading::Readable;
use crate::value::{as_array, as_object, get, is_null};
use json::Value;
use std::alloc::Global;
use wit_model::List;

/// That a value is an object, and each of its keys is among these.
#[tactic(auto, unfolding(crate::specs::Members::only))]
pub(crate) fn only(value: &Value<'_>, keys: &[&str]) -> Result<(), DocumentFault>
    ensures { Reads result (only (map (λ k. k.now) keys.now) (view value.now)) }
{
    let Some(members) = as_object(value) else {
        return Err(DocumentFault::BadJson);
    };
    if has_no_key_but(members, keys) {
        Ok(())
    } else {
        Err(DocumentFault::BadJson)
    }
}

fn has_no_key_but(members: &[(&str, Value<'_>)], keys: &[&str]) -> bool
    ensures { result
        ≡ list_all (λ m. list_any (λ k. bytes_eq k.now m.0.now) keys.now) members.now }
{
    members.iter().all(|member| is_among(member.0, keys))
}

fn is_among(key: &str, keys: &[&str]) -> bool
    ensures { result ≡ list_any (λ k. bytes_eq k.now key.now) keys.now }
{
    keys.iter().any(|k| *k == key)
}

/// The member at a key, which must be there.
#[tactic(auto, unfolding(crate::specs::Members::required))]
pub(crate) fn required<T: Readable>(
    alloc: Global,
    value: &Value<'_>,
    key: &str,
) -> Result<T, DocumentFault>
    ensures { Reads result (required T.read_of key.now (view value.now)) }
{
    match get(value, key) {
        Some(member) => T::read(alloc, member),
        None => Err(DocumentFault::BadJson),
    }
}

/// The members at two keys, which must be there.
#[tactic(auto, unfolding(crate::specs::Members::required_two))]
pub(crate) fn required_two<A: Readable, B: Readable>(
    alloc: Global,
    value: &Value<'_>,
    key: &str,
    other: &str,
) -> Result<(A, B), DocumentFault>
    ensures { Reads result (required_two A.read_of B.read_of key.now other.now (view value.now)) }
{
    let first = required(alloc, value, key)?;
    Ok((first, required(alloc, value, other)?))
}

/// The member at a key, or nothing where it is null or absent.
#[tactic(auto, unfolding(crate::specs::Members::optional))]
pub(crate) fn optional<T: Readable>(
    alloc: Global,
    value: &Value<'_>,
    key: &str,
) -> Result<Option<T>, DocumentFault>
    ensures { Reads result (optional T.read_of key.now (view value.now)) }
{
    match get(value, key) {
        Some(member) if !is_null(member) => Ok(Some(T::read(alloc, member)?)),
        _ => Ok(None),
    }
}

/// The member at a key, or nothing where it is absent.
#[tactic(auto, unfolding(crate::specs::Members::given))]
pub(crate) fn given<T: Readable>(
    alloc: Global,
    value: &Value<'_>,
    key: &str,
) -> Result<Option<T>, DocumentFault>
    ensures { Reads result (given T.read_of key.now (view value.now)) }
{
    match get(value, key) {
        Some(member) => Ok(Some(T::read(alloc, member)?)),
        None => Ok(None),
    }
}

/// That a value is null.
pub(crate) fn null(value: &Value<'_>) -> Result<(), DocumentFault>
    ensures { Reads result (as_null (view value.now)) }
{
    if is_null(value) {
        Ok(())
    } else {
        Err(DocumentFault::BadJson)
    }
}

/// The items of the array at a key, which must be there and have none.
#[tactic(auto, unfolding(crate::specs::Members::required))]
pub(crate) fn empty_list<T>(
    alloc: Global,
    value: &Value<'_>,
    key: &str,
) -> Result<List<T>, DocumentFault>
    ensures { Reads result (required empty_of key.now (view value.now)) }
{
    match get(value, key) {
        Some(member) => read_no_items(alloc, member),
        None => Err(DocumentFault::BadJson),
    }
}

#[tactic(auto, unfolding(crate::specs::Members::empty_of))]
fn read_no_items<T>(alloc: Global, value: &Value<'_>) -> Result<List<T>, DocumentFault>
    ensures { Reads result (empty_of (view value.now)) }
{
    let Some(items) = as_array(value) else {
        return Err(DocumentFault::BadJson);
    };
    if items.is_empty() {
        Ok(List::new(alloc))
    } else {
        Err(DocumentFault::BadJson)
    }
}

/// The key and the value of an object that has one member.
#[tactic(auto, unfolding(crate::specs::Members::sole_member))]
pub(crate) fn sole_member<'v, 'a>(value: &'v Value<'a>) -> Option<(&'a str, &'v Value<'a>)>
    ensures { option_map (λ m. (m.0.now, view m.1.now)) result ≡ sole_member (view value.now) }
{
    let members = as_object(value)?;
    let key = members.first()?.0;
    if !has_only_key(members, key) {
        return None;
    }
    Some((key, get(value, key)?))
}

/// Whether all members stand at one key.
fn has_only_key(members: &[(&str, Value<'_>)], key: &str) -> bool
    ensures { result ≡ list_all (λ m. bytes_eq m.0.now key.now) members.now }
{
    members.iter().all(|member| member.0 == key)
}
