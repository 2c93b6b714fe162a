//! Lists of any length and of a fixed one, and maps.

ghost use Rattle.wit_document.specs.View.{view};
ghost use Rattle.wit_document.specs.Reads.{Reads};
ghost use Rattle.wit_document.specs.Kinds.{list_of, map_of, fixed_of};

use crate::fault::DocumentFault;
use crate::reading::{Readable, read_pair};
use json::Value;
use std::alloc::Global;
use wit_model::{TypeDefKind, WitType};

pub(crate) fn read_list(alloc: Global, value: &Value<'_>) -> Result<TypeDefKind, DocumentFault>
    ensures { Reads result (list_of (view value.now)) }
{
    Ok(TypeDefKind::List(WitType::read(alloc, value)?))
}

pub(crate) fn read_map(alloc: Global, value: &Value<'_>) -> Result<TypeDefKind, DocumentFault>
    ensures { Reads result (map_of (view value.now)) }
{
    let (key, entry) = read_pair(alloc, value)?;
    Ok(TypeDefKind::Map(key, entry))
}

pub(crate) fn read_fixed(alloc: Global, value: &Value<'_>) -> Result<TypeDefKind, DocumentFault>
    ensures { Reads result (fixed_of (view value.now)) }
{
    let (element, len) = read_pair(alloc, value)?;
    Ok(TypeDefKind::FixedLengthList(element, len))
}
