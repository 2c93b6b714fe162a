//! Flags and enums.

ghost use Rattle.wit_document.specs.View.{view};
ghost use Rattle.wit_document.specs.Reads.{Reads};
ghost use Rattle.wit_document.specs.Kinds.{member_of, enum_of, flags_of};

use crate::fault::DocumentFault;
use crate::members::{only, required};
use crate::name::docs_in;
use crate::reading::Readable;
use json::Value;
use std::alloc::Global;
use wit_model::{List, Member, TypeDefKind};

#[tactic(auto, unfolding(crate::specs::Kinds::member_of))]
impl Readable for Member {
    ghost read_of = { member_of };

    fn read(alloc: Global, value: &Value<'_>) -> Result<Member, DocumentFault> {
        only(value, &["name", "docs"])?;
        Ok(Member {
            name: required(alloc, value, "name")?,
            docs: docs_in(alloc, value)?,
        })
    }
}

pub(crate) fn read_enum(alloc: Global, value: &Value<'_>) -> Result<TypeDefKind, DocumentFault>
    ensures { Reads result (enum_of (view value.now)) }
{
    Ok(TypeDefKind::Enum(List::read(alloc, value)?))
}

pub(crate) fn read_flags(alloc: Global, value: &Value<'_>) -> Result<TypeDefKind, DocumentFault>
    ensures { Reads result (flags_of (view value.now)) }
{
    Ok(TypeDefKind::Flags(List::read(alloc, value)?))
}
