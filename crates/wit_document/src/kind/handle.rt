//! Handles, and the resources that they are for.

ghost use Rattle.wit_document.specs.View.{view};
ghost use Rattle.wit_document.specs.Reads.{Reads};
ghost use Rattle.wit_document.specs.Kinds.{own_of, borrow_of, resource_of};

use crate::fault::DocumentFault;
use crate::members::null;
use crate::reading::Readable;
use json::Value;
use std::alloc::Global;
use wit_model::{Handle, TypeDefKind, TypeId};

pub(crate) fn read_own(alloc: Global, value: &Value<'_>) -> Result<TypeDefKind, DocumentFault>
    ensures { Reads result (own_of (view value.now)) }
{
    Ok(TypeDefKind::Handle(Handle::Own(TypeId::read(alloc, value)?)))
}

pub(crate) fn read_borrow(alloc: Global, value: &Value<'_>) -> Result<TypeDefKind, DocumentFault>
    ensures { Reads result (borrow_of (view value.now)) }
{
    Ok(TypeDefKind::Handle(Handle::Borrow(TypeId::read(alloc, value)?)))
}

pub(crate) fn read_resource(value: &Value<'_>) -> Result<TypeDefKind, DocumentFault>
    ensures { Reads result (resource_of (view value.now)) }
{
    null(value)?;
    Ok(TypeDefKind::Resource)
}
