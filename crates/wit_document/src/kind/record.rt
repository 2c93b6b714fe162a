//! Records and tuples.

ghost use Rattle.wit_document.specs.View.{view};
ghost use Rattle.wit_document.specs.Reads.{Reads};
ghost use Rattle.wit_document.specs.Kinds.{field_of, record_of, tuple_of};

use crate::fault::DocumentFault;
use crate::members::{only, required};
use crate::name::docs_in;
use crate::reading::Readable;
use json::Value;
use std::alloc::Global;
use wit_model::{Field, List, TypeDefKind};

#[tactic(auto, unfolding(crate::specs::Kinds::field_of))]
impl Readable for Field {
    ghost read_of = { field_of };

    fn read(alloc: Global, value: &Value<'_>) -> Result<Field, DocumentFault> {
        only(value, &["name", "ty", "docs"])?;
        let ty = required(alloc, value, "ty")?;
        Ok(Field {
            name: required(alloc, value, "name")?,
            ty,
            docs: docs_in(alloc, value)?,
        })
    }
}

pub(crate) fn read_record(alloc: Global, value: &Value<'_>) -> Result<TypeDefKind, DocumentFault>
    ensures { Reads result (record_of (view value.now)) }
{
    Ok(TypeDefKind::Record(List::read(alloc, value)?))
}

pub(crate) fn read_tuple(alloc: Global, value: &Value<'_>) -> Result<TypeDefKind, DocumentFault>
    ensures { Reads result (tuple_of (view value.now)) }
{
    Ok(TypeDefKind::Tuple(List::read(alloc, value)?))
}
