//! The kinds of types.

ghost use Rattle.wit_document.specs.View.{view};
ghost use Rattle.wit_document.specs.Reads.{Reads};
ghost use Rattle.wit_document.specs.Kinds.{alias_of, unknown_of, kind_at, type_kind_of};

mod flags;
mod handle;
mod list;
mod record;
mod stream;
mod variant;

use crate::fault::DocumentFault;
use crate::members::{null, sole_member};
use crate::reading::Readable;
use flags::{read_enum, read_flags};
use handle::{read_borrow, read_own, read_resource};
use json::Value;
use list::{read_fixed, read_list, read_map};
use record::{read_record, read_tuple};
use std::alloc::Global;
use stream::{read_future, read_stream};
use variant::{read_option, read_result, read_variant};
use wit_model::{TypeDefKind, WitType};

fn read_alias(alloc: Global, value: &Value<'_>) -> Result<TypeDefKind, DocumentFault>
    ensures { Reads result (alias_of (view value.now)) }
{
    Ok(TypeDefKind::Alias(WitType::read(alloc, value)?))
}

fn read_unknown(value: &Value<'_>) -> Result<TypeDefKind, DocumentFault>
    ensures { Reads result (unknown_of (view value.now)) }
{
    null(value)?;
    Ok(TypeDefKind::Unknown)
}

/// What stands at the word of a kind.
#[tactic(auto, unfolding(crate::specs::Kinds::kind_at, crate::specs::Kinds::kind_reader))]
fn read_at(alloc: Global, word: &str, value: &Value<'_>) -> Result<TypeDefKind, DocumentFault>
    ensures { Reads result (kind_at word.now (view value.now)) }
{
    match word {
        "alias" => read_alias(alloc, value),
        "own" => read_own(alloc, value),
        "borrow" => read_borrow(alloc, value),
        "list" => read_list(alloc, value),
        "map" => read_map(alloc, value),
        "fixed" => read_fixed(alloc, value),
        "tuple" => read_tuple(alloc, value),
        "option" => read_option(alloc, value),
        "result" => read_result(alloc, value),
        "record" => read_record(alloc, value),
        "variant" => read_variant(alloc, value),
        "enum" => read_enum(alloc, value),
        "flags" => read_flags(alloc, value),
        "resource" => read_resource(value),
        "future" => read_future(alloc, value),
        "stream" => read_stream(alloc, value),
        "unknown" => read_unknown(value),
        _ => Err(DocumentFault::BadJson),
    }
}

#[tactic(auto, unfolding(crate::specs::Kinds::type_kind_of))]
impl Readable for TypeDefKind {
    ghost read_of = { type_kind_of };

    fn read(alloc: Global, value: &Value<'_>) -> Result<TypeDefKind, DocumentFault> {
        match sole_member(value) {
            Some((word, member)) => read_at(alloc, word, member),
            None => Err(DocumentFault::BadJson),
        }
    }
}
