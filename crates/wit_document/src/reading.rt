//! How JSON values are read as texts, bools, options and lists.

ghost use Rattle.std.specs.Prelude.{Option};
ghost use Rattle.serde_json.specs.Find.{as_bool};
ghost use Rattle.serde_json.specs.Data.{Data};
ghost use Rattle.wit_document.specs.View.{view};
ghost use Rattle.wit_document.specs.Reads.{Reads};
ghost use Rattle.wit_document.specs.Members.{text_of, all_of, unless_null, pair_of};

use crate::fault::DocumentFault;
use crate::value::{as_array, as_bool, as_str, is_null};
use json::Value;
use std::alloc::Global;
use wit_model::{List, Text};

/// What a JSON value can be read as.
pub(crate) trait Readable: Drop {
    ghost read_of: { Data → Option Self };

    fn read(alloc: Global, value: &Value<'_>) -> Result<Self, DocumentFault>
        ensures { Reads result (read_of (view value.now)) };
}

#[tactic(auto, unfolding(crate::specs::Members::text_of))]
impl Readable for Text {
    ghost read_of = { text_of };

    fn read(alloc: Global, value: &Value<'_>) -> Result<Text, DocumentFault> {
        match as_str(value) {
            Some(text) => Ok(Text::from_str(alloc, text)?),
            None => Err(DocumentFault::BadJson),
        }
    }
}

impl Readable for bool {
    ghost read_of = { as_bool };

    fn read(_alloc: Global, value: &Value<'_>) -> Result<bool, DocumentFault> {
        as_bool(value).ok_or(DocumentFault::BadJson)
    }
}

impl<T: Readable> Readable for Option<T> {
    ghost read_of = { unless_null T.read_of };

    fn read(alloc: Global, value: &Value<'_>) -> Result<Option<T>, DocumentFault> {
        if is_null(value) {
            return Ok(None);
        }
        Ok(Some(T::read(alloc, value)?))
    }
}

/// The two items of an array that has two.
#[tactic(auto, unfolding(crate::specs::Members::pair_of))]
pub(crate) fn read_pair<A: Readable, B: Readable>(
    alloc: Global,
    value: &Value<'_>,
) -> Result<(A, B), DocumentFault>
    ensures { Reads result (pair_of A.read_of B.read_of (view value.now)) }
{
    let Some(items) = as_array(value) else {
        return Err(DocumentFault::BadJson);
    };
    match items.as_slice() {
        [first, second] => Ok((A::read(alloc, first)?, B::read(alloc, second)?)),
        _ => Err(DocumentFault::BadJson),
    }
}

#[tactic(auto, unfolding(crate::specs::Members::all_of))]
impl<T: Readable> Readable for List<T> {
    ghost read_of = { all_of T.read_of };

    fn read(alloc: Global, value: &Value<'_>) -> Result<List<T>, DocumentFault> {
        let Some(values) = as_array(value) else {
            return Err(DocumentFault::BadJson);
        };
        let mut items = List::new(alloc);
        for value in values {
            items.push(T::read(alloc, value)?)?;
        }
        Ok(items)
    }
}
