//! From the bytes of a document to tables, world and options.

ghost use Rattle.wit_document.specs.Reads.{Reads};
ghost use Rattle.wit_document.specs.Document.{resolve_of, document, document_in};

use crate::fault::DocumentFault;
use crate::keyed::keyed_worlds;
use crate::members::{empty_list, given, only, required, required_two};
use crate::options::DocumentOptions;
use crate::reading::Readable;
use crate::value::parse;
use json::{Scratch, Value};
use std::alloc::Global;
use wit_model::{List, Resolve, TypeDef, WorldId};

/// The tables of a resolved world, the world that is meant, and the options.
#[derive(Debug, PartialEq, Drop)]
pub struct Document {
    /// The tables. Their ids are not checked: an id may lie outside its table.
    pub resolve: Resolve,
    /// The world to be generated, by its place in the table of worlds.
    pub world: WorldId,
    /// How it is to be generated.
    pub options: DocumentOptions,
}

/// The document that the bytes are, in JSON.
///
/// It is `BadJson` where the bytes are not UTF-8, are not one JSON value, or that value is not a document, and
/// `OutOfMemory` only for want of memory.
pub fn document_of(alloc: Global, bytes: &[u8]) -> Result<Document, DocumentFault>
    ensures { Reads result (document_in bytes.now) }
{
    let Ok(text) = std::str::from_utf8(bytes) else {
        return Err(DocumentFault::BadJson);
    };
    let mut scratch = Scratch::new(alloc);
    match parse(alloc, text, &mut scratch) {
        Ok(value) => Document::read(alloc, &value),
        Err(fault) => Err(fault),
    }
}

#[tactic(auto, unfolding(crate::specs::Document::document))]
impl Readable for Document {
    ghost read_of = { document };

    fn read(alloc: Global, value: &Value<'_>) -> Result<Document, DocumentFault> {
        only(value, &["resolve", "world", "options"])?;
        let world = required(alloc, value, "world")?;
        let options = given(alloc, value, "options")?;
        let resolve = required(alloc, value, "resolve")?;
        Ok(Document {
            resolve,
            world,
            options: options.unwrap_or(DocumentOptions::none()),
        })
    }
}

#[tactic(auto, unfolding(crate::specs::Document::resolve_of))]
impl Readable for Resolve {
    ghost read_of = { resolve_of };

    fn read(alloc: Global, value: &Value<'_>) -> Result<Resolve, DocumentFault> {
        only(value, &["worlds", "packages", "interfaces", "types"])?;
        let (listed, packages) = required_two(alloc, value, "worlds", "packages")?;
        let interfaces = empty_list(alloc, value, "interfaces")?;
        let types: List<TypeDef> = required(alloc, value, "types")?;
        let worlds = keyed_worlds(alloc, types.as_slice(), listed)?;
        Ok(Resolve {
            worlds,
            packages,
            interfaces,
            types,
        })
    }
}
