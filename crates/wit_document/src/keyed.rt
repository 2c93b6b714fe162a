//! What the imports and exports of a world stand under.

ghost use Rattle.std.specs.Prelude.{◌≡◌, IfOk, map};
ghost use Rattle.wit_document.specs.Keyed.{keyed, keyed_item, no_name, own_key, type_name};

use crate::world::ListedWorld;
use std::alloc::Global;
use wit_model::{List, Name, OutOfMemory, Text, TypeDef, TypeId, World, WorldItem, WorldKey};

fn no_name(alloc: Global) -> Name
    ensures { result ≡ no_name }
{
    Name {
        wit: Text::new(alloc),
        snake: Text::new(alloc),
        camel: Text::new(alloc),
        upper: Text::new(alloc),
    }
}

fn type_name(alloc: Global, types: &[TypeDef], id: TypeId) -> Result<Name, OutOfMemory>
    ensures { IfOk result (λ name. name ≡ type_name types.now id) }
{
    match types.get(id.0 as usize) {
        Some(
            TypeDef {
                name: Some(name),
                ..
            },
        ) => name.copy(alloc),
        _ => Ok(no_name(alloc)),
    }
}

fn own_key(alloc: Global, types: &[TypeDef], item: &WorldItem) -> Result<WorldKey, OutOfMemory>
    ensures { IfOk result (λ key. key ≡ own_key types.now item.now) }
{
    match item {
        WorldItem::Interface(id) => Ok(WorldKey::Interface(*id)),
        WorldItem::Function(f) => Ok(WorldKey::Name(f.name.copy(alloc)?)),
        WorldItem::Named(id) => Ok(WorldKey::Name(type_name(alloc, types, *id)?)),
    }
}

fn keyed_items(
    alloc: Global,
    types: &[TypeDef],
    items: List<WorldItem>,
) -> Result<List<(WorldKey, WorldItem)>, OutOfMemory>
    ensures { IfOk result (λ entries. entries ≡ map (keyed_item types.now) items) }
{
    let mut entries = List::new(alloc);
    for item in items.into_vec() {
        let key = own_key(alloc, types, &item)?;
        entries.push((key, item))?;
    }
    Ok(entries)
}

fn keyed_world(alloc: Global, types: &[TypeDef], world: ListedWorld) -> Result<World, OutOfMemory>
    ensures { IfOk result (λ w. w ≡ keyed types.now world) }
{
    Ok(World {
        name: world.name,
        package: world.package,
        imports: keyed_items(alloc, types, world.imports)?,
        exports: keyed_items(alloc, types, world.exports)?,
    })
}

/// The worlds of a document, in which each item stands under its own key. Each key has a copy of its name; `OutOfMemory`
/// comes where there is no memory for it.
pub(crate) fn keyed_worlds(
    alloc: Global,
    types: &[TypeDef],
    worlds: List<ListedWorld>,
) -> Result<List<World>, OutOfMemory>
    ensures { IfOk result (λ all. all ≡ map (keyed types.now) worlds) }
{
    let mut all = List::new(alloc);
    for world in worlds.into_vec() {
        all.push(keyed_world(alloc, types, world)?)?;
    }
    Ok(all)
}
