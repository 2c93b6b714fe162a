//! The table of types.

ghost use Rattle.std.specs.Prelude.{◌≡◌};
ghost use Rattle.wit_document.specs.View.{view};
ghost use Rattle.wit_document.specs.Reads.{Reads};
ghost use Rattle.wit_document.specs.TypeTable.{owner_at, named_owner_of, owner_of, type_def_of};

use crate::fault::DocumentFault;
use crate::members::{only, optional, required, sole_member};
use crate::name::docs_in;
use crate::reading::Readable;
use crate::value::is_null;
use json::Value;
use std::alloc::Global;
use wit_model::{InterfaceId, TypeDef, TypeOwner, WorldId};

#[tactic(auto, unfolding(crate::specs::TypeTable::owner_at))]
fn owner_at(word: &str, number: u32) -> Option<TypeOwner>
    ensures { result ≡ owner_at word.now number }
{
    match word {
        "world" => Some(TypeOwner::World(WorldId(number))),
        "interface" => Some(TypeOwner::Interface(InterfaceId(number))),
        _ => None,
    }
}

#[tactic(auto, unfolding(crate::specs::TypeTable::named_owner_of))]
fn read_named_owner(alloc: Global, value: &Value<'_>) -> Result<TypeOwner, DocumentFault>
    ensures { Reads result (named_owner_of (view value.now)) }
{
    let Some((word, member)) = sole_member(value) else {
        return Err(DocumentFault::BadJson);
    };
    let number = u32::read(alloc, member)?;
    owner_at(word, number).ok_or(DocumentFault::BadJson)
}

#[tactic(auto, unfolding(crate::specs::TypeTable::owner_of))]
impl Readable for TypeOwner {
    ghost read_of = { owner_of };

    fn read(alloc: Global, value: &Value<'_>) -> Result<TypeOwner, DocumentFault> {
        if is_null(value) {
            return Ok(TypeOwner::None);
        }
        read_named_owner(alloc, value)
    }
}

#[tactic(auto, unfolding(crate::specs::TypeTable::type_def_of))]
impl Readable for TypeDef {
    ghost read_of = { type_def_of };

    fn read(alloc: Global, value: &Value<'_>) -> Result<TypeDef, DocumentFault> {
        only(value, &["name", "owner", "kind", "docs"])?;
        let owner = required(alloc, value, "owner")?;
        Ok(TypeDef {
            name: optional(alloc, value, "name")?,
            owner,
            kind: required(alloc, value, "kind")?,
            docs: docs_in(alloc, value)?,
        })
    }
}
