//! Whether each id is one of its table.

ghost use Rattle.std.specs.Prelude.{◌≡◌, ◌<◌, ◌^◌, not, ◌&&◌, position, length, IsTrue, IfSome};
ghost use Rattle.std.specs.List.{list_all};
ghost use Rattle.std.specs.Option.{option_map, ForSome};
ghost use Rattle.wit_model.specs.IndexRange.{
  package_id_in_range,
  interface_id_in_range,
  type_id_in_range,
  world_id_in_range,
  type_in_range,
  payload_in_range,
  owner_in_range,
  type_def_in_range,
  function_kind_in_range,
  function_in_range,
  owning_package_in_range,
  interface_in_range,
  key_in_range,
  item_in_range,
  listed_in_range,
  world_in_range,
  first_out_of_range,
};
ghost use Rattle.wit_model.specs.Numbered.{tables_short};

use crate::function::{Function, FunctionKind, Param};
use crate::list::List;
use crate::name::{InterfaceId, PackageId, TypeId, WorldId};
use crate::place::placed;
use crate::resolve::{Resolve, Table};
use crate::type_order::{parts_below, payload_below, type_below};
use crate::types::{TypeDef, TypeOwner, WitType};
use crate::world::{Interface, World, WorldItem, WorldKey};

fn package_id_in_range(resolve: &Resolve, id: PackageId) -> bool
    ensures { result ≡ package_id_in_range resolve.now id }
{
    (id.0 as usize) < resolve.packages.len()
}

fn interface_id_in_range(resolve: &Resolve, id: InterfaceId) -> bool
    ensures { result ≡ interface_id_in_range resolve.now id }
{
    (id.0 as usize) < resolve.interfaces.len()
}

fn type_id_in_range(resolve: &Resolve, id: TypeId) -> bool
    ensures { result ≡ type_id_in_range resolve.now id }
{
    (id.0 as usize) < resolve.types.len()
}

fn world_id_in_range(resolve: &Resolve, id: WorldId) -> bool
    ensures { result ≡ world_id_in_range resolve.now id }
{
    (id.0 as usize) < resolve.worlds.len()
}

fn type_in_range(resolve: &Resolve, ty: WitType) -> bool
    ensures { result ≡ type_in_range resolve.now ty }
{
    type_below(resolve.types.len(), ty)
}

fn payload_in_range(resolve: &Resolve, payload: Option<WitType>) -> bool
    ensures { result ≡ payload_in_range resolve.now payload }
{
    payload_below(resolve.types.len(), payload)
}

#[tactic(auto, unfolding(crate::specs::IndexRange::owner_in_range))]
fn owner_in_range(resolve: &Resolve, owner: TypeOwner) -> bool
    ensures { result ≡ owner_in_range resolve.now owner }
{
    match owner {
        TypeOwner::World(id) => world_id_in_range(resolve, id),
        TypeOwner::Interface(id) => interface_id_in_range(resolve, id),
        TypeOwner::None => true,
    }
}

#[tactic(auto, unfolding(crate::specs::IndexRange::type_def_in_range))]
fn type_def_in_range(resolve: &Resolve, entry: &TypeDef) -> bool
    ensures { result ≡ type_def_in_range resolve.now entry.now }
{
    owner_in_range(resolve, entry.owner) && parts_below(resolve.types.len(), &entry.kind)
}

#[tactic(auto, unfolding(crate::specs::IndexRange::function_kind_in_range))]
fn function_kind_in_range(resolve: &Resolve, kind: FunctionKind) -> bool
    ensures { result ≡ function_kind_in_range resolve.now kind }
{
    match kind {
        FunctionKind::Freestanding | FunctionKind::AsyncFreestanding => true,
        FunctionKind::Method(id) | FunctionKind::AsyncMethod(id) => type_id_in_range(resolve, id),
        FunctionKind::Static(id) | FunctionKind::AsyncStatic(id) => type_id_in_range(resolve, id),
        FunctionKind::Constructor(id) => type_id_in_range(resolve, id),
    }
}

fn params_in_range(resolve: &Resolve, params: &List<Param>) -> bool
    ensures { result ≡ list_all (λ param. type_in_range resolve.now param.ty) params.now }
{
    params
        .as_slice()
        .iter()
        .all(|param| type_in_range(resolve, param.ty))
}

#[tactic(auto, unfolding(crate::specs::IndexRange::function_in_range))]
fn function_in_range(resolve: &Resolve, function: &Function) -> bool
    ensures { result ≡ function_in_range resolve.now function.now }
{
    function_kind_in_range(resolve, function.kind)
        && params_in_range(resolve, &function.params)
        && payload_in_range(resolve, function.result)
}

#[tactic(auto, unfolding(crate::specs::IndexRange::owning_package_in_range))]
fn owning_package_in_range(resolve: &Resolve, owner: Option<PackageId>) -> bool
    ensures { result ≡ owning_package_in_range resolve.now owner }
{
    match owner {
        None => true,
        Some(id) => package_id_in_range(resolve, id),
    }
}

fn types_in_range(resolve: &Resolve, types: &List<TypeId>) -> bool
    ensures { result ≡ list_all (λ id. type_id_in_range resolve.now id) types.now }
{
    types
        .as_slice()
        .iter()
        .all(|id| type_id_in_range(resolve, *id))
}

fn functions_in_range(resolve: &Resolve, functions: &List<Function>) -> bool
    ensures { result ≡ list_all (λ function. function_in_range resolve.now function) functions.now }
{
    functions
        .as_slice()
        .iter()
        .all(|function| function_in_range(resolve, function))
}

#[tactic(auto, unfolding(crate::specs::IndexRange::interface_in_range))]
fn interface_in_range(resolve: &Resolve, entry: &Interface) -> bool
    ensures { result ≡ interface_in_range resolve.now entry.now }
{
    owning_package_in_range(resolve, entry.package)
        && types_in_range(resolve, &entry.types)
        && functions_in_range(resolve, &entry.functions)
}

#[tactic(auto, unfolding(crate::specs::IndexRange::key_in_range))]
fn key_in_range(resolve: &Resolve, key: &WorldKey) -> bool
    ensures { result ≡ key_in_range resolve.now key.now }
{
    match key {
        WorldKey::Name(_) => true,
        WorldKey::Interface(id) => interface_id_in_range(resolve, *id),
    }
}

#[tactic(auto, unfolding(crate::specs::IndexRange::item_in_range))]
fn item_in_range(resolve: &Resolve, item: &WorldItem) -> bool
    ensures { result ≡ item_in_range resolve.now item.now }
{
    match item {
        WorldItem::Interface(id) => interface_id_in_range(resolve, *id),
        WorldItem::Function(function) => function_in_range(resolve, function),
        WorldItem::Named(id) => type_id_in_range(resolve, *id),
    }
}

fn entry_in_range(resolve: &Resolve, entry: &(WorldKey, WorldItem)) -> bool
    ensures { result ≡ (key_in_range resolve.now entry.now.0 && item_in_range resolve.now entry.now.1) }
{
    key_in_range(resolve, &entry.0) && item_in_range(resolve, &entry.1)
}

#[tactic(auto, unfolding(crate::specs::IndexRange::listed_in_range))]
fn listed_in_range(resolve: &Resolve, listed: &List<(WorldKey, WorldItem)>) -> bool
    ensures { result ≡ listed_in_range resolve.now listed.now }
{
    listed
        .as_slice()
        .iter()
        .all(|entry| entry_in_range(resolve, entry))
}

#[tactic(auto, unfolding(crate::specs::IndexRange::world_in_range))]
fn world_in_range(resolve: &Resolve, entry: &World) -> bool
    ensures { result ≡ world_in_range resolve.now entry.now }
{
    package_id_in_range(resolve, entry.package)
        && listed_in_range(resolve, &entry.imports)
        && listed_in_range(resolve, &entry.exports)
}

fn first_interface(resolve: &Resolve) -> Option<usize>
    ensures first { result ≡ position (λ entry. not (interface_in_range resolve.now entry)) resolve.now.interfaces }
    ensures within { IfSome result (λ index. index < length resolve.now.interfaces) }
{
    resolve
        .interfaces
        .as_slice()
        .iter()
        .position(|entry| !interface_in_range(resolve, entry))
}

fn first_type(resolve: &Resolve) -> Option<usize>
    ensures first { result ≡ position (λ entry. not (type_def_in_range resolve.now entry)) resolve.now.types }
    ensures within { IfSome result (λ index. index < length resolve.now.types) }
{
    resolve
        .types
        .as_slice()
        .iter()
        .position(|entry| !type_def_in_range(resolve, entry))
}

fn first_world(resolve: &Resolve) -> Option<usize>
    ensures first { result ≡ position (λ entry. not (world_in_range resolve.now entry)) resolve.now.worlds }
    ensures within { IfSome result (λ index. index < length resolve.now.worlds) }
{
    resolve
        .worlds
        .as_slice()
        .iter()
        .position(|entry| !world_in_range(resolve, entry))
}

/// The first entry, in the order of [`Table`] and then by place, that holds an id outside its table.
#[tactic(auto, unfolding(crate::specs::IndexRange::first_out_of_range, crate::specs::Numbered::tables_short, crate::specs::Numbered::is_short))]
pub fn first_out_of_range(resolve: &Resolve) -> Option<(Table, u32)>
    requires { IsTrue (tables_short resolve.now) }
    ensures { result ≡ first_out_of_range resolve.now }
{
    placed(Table::Interface, first_interface(resolve))
        .or_else(|| placed(Table::Type_, first_type(resolve)))
        .or_else(|| placed(Table::World, first_world(resolve)))
}
