//! What the imports and exports of a world are.

ghost use Rattle.wit_document.specs.View.{view};
ghost use Rattle.wit_document.specs.Reads.{Reads};
ghost use Rattle.wit_document.specs.Items.{item_at, item_of};

use crate::fault::DocumentFault;
use crate::members::sole_member;
use crate::reading::Readable;
use json::Value;
use std::alloc::Global;
use wit_model::{Function, TypeId, WorldItem};

#[tactic(auto, unfolding(crate::specs::Items::item_at))]
fn read_item_at(alloc: Global, word: &str, value: &Value<'_>) -> Result<WorldItem, DocumentFault>
    ensures { Reads result (item_at word.now (view value.now)) }
{
    match word {
        "function" => Ok(WorldItem::Function(Function::read(alloc, value)?)),
        "type" => Ok(WorldItem::Named(TypeId::read(alloc, value)?)),
        _ => Err(DocumentFault::BadJson),
    }
}

#[tactic(auto, unfolding(crate::specs::Items::item_of))]
impl Readable for WorldItem {
    ghost read_of = { item_of };

    fn read(alloc: Global, value: &Value<'_>) -> Result<WorldItem, DocumentFault> {
        match sole_member(value) {
            Some((word, member)) => read_item_at(alloc, word, member),
            None => Err(DocumentFault::BadJson),
        }
    }
}
