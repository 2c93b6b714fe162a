//! The tables of a resolved WIT world, and the containers that contracts see as plain data.
#![tactic(auto)]

mod alias;
mod alias_ends;
mod boxed;
mod check;
mod constructor;
mod distinct;
mod function;
mod index_range;
mod list;
mod lookup;
mod map_key;
mod members;
mod memory;
mod name;
mod numbered;
mod parts;
mod place;
mod resolve;
mod size;
mod size_text;
mod text;
mod type_order;
mod types;
mod wasm_type;
mod world;

pub use alias::{aliased, dealias};
pub use alias_ends::AliasEnds;
pub use boxed::Boxed;
pub use constructor::{ConstructorReturn, classify_constructor};
pub use distinct::{are_distinct, are_distinct_texts};
pub use function::{Function, FunctionKind, Param};
pub use list::List;
pub use memory::OutOfMemory;
pub use name::{Docs, InterfaceId, Name, PackageId, TypeId, WorldId};
pub use resolve::{Resolve, Rule, Table, WorldFault};
pub use size::{Alignment, ArchitectureSize, rounded_up};
pub use text::Text;
pub use types::{Case, Field, Handle, Member, TypeDef, TypeDefKind, TypeOwner, WitType};
pub use wasm_type::WasmType;
pub use world::{Interface, Package, World, WorldItem, WorldKey};
