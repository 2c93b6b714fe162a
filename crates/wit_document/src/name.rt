//! Names and docs of a document.

ghost use Rattle.wit_document.specs.View.{view};
ghost use Rattle.wit_document.specs.Reads.{Reads};
ghost use Rattle.wit_document.specs.Name.{name_of, docs_in};

use crate::fault::DocumentFault;
use crate::members::{only, optional, required_two};
use crate::reading::Readable;
use json::Value;
use std::alloc::Global;
use wit_model::{Docs, Name};

#[tactic(auto, unfolding(crate::specs::Name::name_of))]
impl Readable for Name {
    ghost read_of = { name_of };

    fn read(alloc: Global, value: &Value<'_>) -> Result<Name, DocumentFault> {
        only(value, &["wit", "snake", "camel", "upper"])?;
        let lower = required_two(alloc, value, "wit", "snake")?;
        let (camel, upper) = required_two(alloc, value, "camel", "upper")?;
        let (wit, snake) = lower;
        Ok(Name {
            wit,
            snake,
            camel,
            upper,
        })
    }
}

/// The docs of the item that an object is, which it may lack.
#[tactic(auto, unfolding(crate::specs::Name::docs_in))]
pub(crate) fn docs_in(alloc: Global, value: &Value<'_>) -> Result<Docs, DocumentFault>
    ensures { Reads result (docs_in (view value.now)) }
{
    Ok(Docs {
        contents: optional(alloc, value, "docs")?,
    })
}
