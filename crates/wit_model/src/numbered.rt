//! Whether all tables and lists are short enough to be numbered by 32 bits.

ghost use Rattle.std.specs.Prelude.{◌≡◌};
ghost use Rattle.std.specs.List.{list_all};
ghost use Rattle.wit_model.specs.Numbered.{
  is_short,
  kind_numbered,
  function_numbered,
  interface_numbered,
  item_numbered,
  listed_numbered,
  world_numbered,
  tables_short,
  is_numbered,
};

use crate::function::Function;
use crate::list::List;
use crate::resolve::Resolve;
use crate::types::{TypeDef, TypeDefKind};
use crate::world::{Interface, World, WorldItem, WorldKey};

#[tactic(auto, unfolding(crate::specs::Numbered::is_short))]
fn is_short<T>(items: &List<T>) -> bool
    ensures { result ≡ is_short items.now }
{
    items.len() < 0x1_0000_0000
}

#[tactic(auto, unfolding(crate::specs::Numbered::kind_numbered))]
fn kind_numbered(kind: &TypeDefKind) -> bool
    ensures { result ≡ kind_numbered kind.now }
{
    match kind {
        TypeDefKind::Tuple(members) => is_short(members),
        TypeDefKind::Record(fields) => is_short(fields),
        TypeDefKind::Variant(cases) => is_short(cases),
        TypeDefKind::Enum(members) => is_short(members),
        TypeDefKind::Flags(members) => is_short(members),
        _ => true,
    }
}

#[tactic(auto, unfolding(crate::specs::Numbered::function_numbered))]
fn function_numbered(function: &Function) -> bool
    ensures { result ≡ function_numbered function.now }
{
    is_short(&function.params)
}

fn functions_numbered(functions: &List<Function>) -> bool
    ensures { result ≡ list_all (λ function. function_numbered function) functions.now }
{
    functions
        .as_slice()
        .iter()
        .all(|function| function_numbered(function))
}

#[tactic(auto, unfolding(crate::specs::Numbered::interface_numbered))]
fn interface_numbered(entry: &Interface) -> bool
    ensures { result ≡ interface_numbered entry.now }
{
    is_short(&entry.types) && is_short(&entry.functions) && functions_numbered(&entry.functions)
}

#[tactic(auto, unfolding(crate::specs::Numbered::item_numbered))]
fn item_numbered(item: &WorldItem) -> bool
    ensures { result ≡ item_numbered item.now }
{
    match item {
        WorldItem::Function(function) => function_numbered(function),
        _ => true,
    }
}

fn items_numbered(listed: &List<(WorldKey, WorldItem)>) -> bool
    ensures { result ≡ list_all (λ entry. item_numbered entry.1) listed.now }
{
    listed
        .as_slice()
        .iter()
        .all(|entry| item_numbered(&entry.1))
}

#[tactic(auto, unfolding(crate::specs::Numbered::listed_numbered))]
fn listed_numbered(listed: &List<(WorldKey, WorldItem)>) -> bool
    ensures { result ≡ listed_numbered listed.now }
{
    is_short(listed) && items_numbered(listed)
}

#[tactic(auto, unfolding(crate::specs::Numbered::world_numbered))]
fn world_numbered(entry: &World) -> bool
    ensures { result ≡ world_numbered entry.now }
{
    listed_numbered(&entry.imports) && listed_numbered(&entry.exports)
}

#[tactic(auto, unfolding(crate::specs::Numbered::tables_short))]
fn tables_short(resolve: &Resolve) -> bool
    ensures { result ≡ tables_short resolve.now }
{
    is_short(&resolve.packages)
        && is_short(&resolve.interfaces)
        && is_short(&resolve.types)
        && is_short(&resolve.worlds)
}

fn interfaces_numbered(interfaces: &List<Interface>) -> bool
    ensures { result ≡ list_all (λ entry. interface_numbered entry) interfaces.now }
{
    interfaces
        .as_slice()
        .iter()
        .all(|entry| interface_numbered(entry))
}

fn types_numbered(types: &List<TypeDef>) -> bool
    ensures { result ≡ list_all (λ entry. kind_numbered entry.kind) types.now }
{
    types
        .as_slice()
        .iter()
        .all(|entry| kind_numbered(&entry.kind))
}

fn worlds_numbered(worlds: &List<World>) -> bool
    ensures { result ≡ list_all (λ entry. world_numbered entry) worlds.now }
{
    worlds.as_slice().iter().all(|entry| world_numbered(entry))
}

/// Whether a `u32` numbers the entries of each table, and of each list in it.
#[tactic(auto, unfolding(crate::specs::Numbered::is_numbered))]
pub fn is_numbered(resolve: &Resolve) -> bool
    ensures { result ≡ is_numbered resolve.now }
{
    tables_short(resolve)
        && interfaces_numbered(&resolve.interfaces)
        && types_numbered(&resolve.types)
        && worlds_numbered(&resolve.worlds)
}
