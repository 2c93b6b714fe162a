//! The reader of the JSON document of a resolved world.
#![tactic(auto)]

mod document;
mod fault;
mod function;
mod item;
mod keyed;
mod kind;
mod members;
mod name;
mod number;
mod options;
mod range;
mod reading;
mod type_table;
mod types;
mod value;
mod world;

pub use document::{Document, document_of};
pub use fault::DocumentFault;
pub use options::DocumentOptions;
