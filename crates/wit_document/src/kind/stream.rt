//! Futures and streams.

ghost use Rattle.wit_document.specs.View.{view};
ghost use Rattle.wit_document.specs.Reads.{Reads};
ghost use Rattle.wit_document.specs.Kinds.{future_of, stream_of};

use crate::fault::DocumentFault;
use crate::reading::Readable;
use json::Value;
use std::alloc::Global;
use wit_model::TypeDefKind;

pub(crate) fn read_future(alloc: Global, value: &Value<'_>) -> Result<TypeDefKind, DocumentFault>
    ensures { Reads result (future_of (view value.now)) }
{
    Ok(TypeDefKind::Future(Option::read(alloc, value)?))
}

pub(crate) fn read_stream(alloc: Global, value: &Value<'_>) -> Result<TypeDefKind, DocumentFault>
    ensures { Reads result (stream_of (view value.now)) }
{
    Ok(TypeDefKind::Stream(Option::read(alloc, value)?))
}
