//! The types behind the aliases of a whole table.

ghost use Rattle.std.specs.Prelude.{◌≡◌, length, IfOk};
ghost use Rattle.wit_model.specs.Dealias.{dealias};
ghost use Rattle.wit_model.specs.Ends.{AreEnds, HasEnds, end_of, end_of_kind};
ghost use Rattle.wit_model.specs.TypeOrder.{GoesDown};

use crate::alias::aliased;
use crate::list::List;
use crate::memory::OutOfMemory;
use crate::name::TypeId;
use crate::types::{TypeDef, TypeDefKind};
use std::alloc::Global;

/// For each type of a table, the type behind all aliases. All chains of aliases are followed in one pass up the table.
#[derive(Debug, Drop)]
pub struct AliasEnds {
    /// For each type that is an alias of another one of the table, the end of its chain.
    pub(crate) ends: List<Option<TypeId>>,
}

fn end_of(ends: &[Option<TypeId>], id: TypeId) -> TypeId
    ensures { result ≡ end_of ends.now id }
{
    match ends.get(id.0 as usize) {
        Some(Some(end)) => *end,
        _ => id,
    }
}

fn end_of_kind(ends: &[Option<TypeId>], kind: &TypeDefKind) -> Option<TypeId>
    ensures { result ≡ end_of_kind ends.now kind.now }
{
    match aliased(kind) {
        None => None,
        Some(target) => Some(end_of(ends, target)),
    }
}

fn all_ends(alloc: Global, types: &[TypeDef]) -> Result<List<Option<TypeId>>, OutOfMemory>
    requires { GoesDown types.now }
    ensures count { IfOk result (λ ends. length ends ≡ length types.now) }
    ensures end { IfOk result (λ ends. AreEnds types.now ends) }
{
    let mut ends = List::new(alloc);
    for entry in types {
        let end = end_of_kind(ends.as_slice(), &entry.kind);
        ends.push(end)?;
    }
    Ok(ends)
}

impl AliasEnds {
    /// The ends of all types of a table. `OutOfMemory` comes where there is no memory for an id for each type.
    pub fn of_types(alloc: Global, types: &[TypeDef]) -> Result<AliasEnds, OutOfMemory>
        requires { GoesDown types.now }
        ensures { IfOk result (HasEnds types.now) }
    {
        Ok(AliasEnds {
            ends: all_ends(alloc, types)?,
        })
    }

    /// The type of the table behind all aliases of types of it, which [`crate::dealias`] finds without memory. It takes no
    /// memory either, and does not follow the chain.
    pub fn end(&self, types: &[TypeDef], id: TypeId) -> TypeId
        requires { HasEnds types.now self.now }
        ensures { result ≡ dealias types.now id }
    {
        let _ = types;
        end_of(self.ends.as_slice(), id)
    }
}
