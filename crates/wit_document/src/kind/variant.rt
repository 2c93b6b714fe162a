//! Variants, options and results.

ghost use Rattle.wit_document.specs.View.{view};
ghost use Rattle.wit_document.specs.Reads.{Reads};
ghost use Rattle.wit_document.specs.Kinds.{case_of, variant_of, option_of, result_of};

use crate::fault::DocumentFault;
use crate::members::{only, optional, required};
use crate::name::docs_in;
use crate::reading::{Readable, read_pair};
use json::Value;
use std::alloc::Global;
use wit_model::{Case, List, TypeDefKind, WitType};

#[tactic(auto, unfolding(crate::specs::Kinds::case_of))]
impl Readable for Case {
    ghost read_of = { case_of };

    fn read(alloc: Global, value: &Value<'_>) -> Result<Case, DocumentFault> {
        only(value, &["name", "ty", "docs"])?;
        let ty = optional(alloc, value, "ty")?;
        Ok(Case {
            name: required(alloc, value, "name")?,
            ty,
            docs: docs_in(alloc, value)?,
        })
    }
}

pub(crate) fn read_variant(alloc: Global, value: &Value<'_>) -> Result<TypeDefKind, DocumentFault>
    ensures { Reads result (variant_of (view value.now)) }
{
    Ok(TypeDefKind::Variant(List::read(alloc, value)?))
}

pub(crate) fn read_option(alloc: Global, value: &Value<'_>) -> Result<TypeDefKind, DocumentFault>
    ensures { Reads result (option_of (view value.now)) }
{
    Ok(TypeDefKind::Option(WitType::read(alloc, value)?))
}

pub(crate) fn read_result(alloc: Global, value: &Value<'_>) -> Result<TypeDefKind, DocumentFault>
    ensures { Reads result (result_of (view value.now)) }
{
    let (ok, err) = read_pair(alloc, value)?;
    Ok(TypeDefKind::Result(ok, err))
}
