//! Names, entries and tables for the tests.

ghost use Rattle.std.specs.Prelude.{IfOk};
ghost use Rattle.wit_model.specs.WellFormed.{IsWellFormed};

use std::alloc::Global;
use std::test::Fail;
use wit_model::{
    Docs, List, Name, OutOfMemory, Resolve, Text, TypeDef, TypeDefKind, TypeId, TypeOwner, WitType,
};

pub(crate) fn docs() -> Docs {
    Docs { contents: None }
}

pub(crate) fn no_name(alloc: Global) -> Name {
    Name {
        wit: Text::new(alloc),
        snake: Text::new(alloc),
        camel: Text::new(alloc),
        upper: Text::new(alloc),
    }
}

/// The type with this number.
pub(crate) const fn entry(id: u32) -> WitType {
    WitType::Id(TypeId(id))
}

/// Puts a type without a name and an owner behind others.
pub(crate) fn push(types: &mut List<TypeDef>, kind: TypeDefKind) -> Result<(), OutOfMemory> {
    types.push(TypeDef {
        name: None,
        owner: TypeOwner::None,
        kind,
        docs: docs(),
    })
}

/// Tables of types alone.
pub(crate) fn of_types(alloc: Global, types: List<TypeDef>) -> Resolve {
    Resolve {
        worlds: List::new(alloc),
        packages: List::new(alloc),
        interfaces: List::new(alloc),
        types,
    }
}

/// The tables, where they keep the rules.
pub(crate) fn checked(alloc: Global, tables: Resolve) -> Result<Resolve, Fail>
    ensures { IfOk result IsWellFormed }
{
    tables.check(alloc)?;
    Ok(tables)
}
