//! The tree of a world's file.

ghost use Rattle.std.specs.Prelude.{◌≡◌, true, IfOk, map};
ghost use Rattle.rust_tree.specs.declared.item.Item.TheVariants as item;
ghost use Rattle.rust_tree.specs.WellNamed.{are_well_named};
ghost use Rattle.gen_accept.specs.Emitted.{emitted_places};
ghost use Rattle.type_sites.specs.Sites.{type_sites};
ghost use Rattle.rust_gen.specs.Asking.{AskInOrder};
ghost use Rattle.rust_gen.specs.Body.{ArePartsWritten, IsWritten};
ghost use Rattle.rust_gen.specs.Bound.{AreItems, Binds};
ghost use Rattle.rust_gen.specs.Known.{IsKnown};
ghost use Rattle.rust_gen.specs.OptionLines.{option_lines, unused_types_line};

use crate::exported::{push_area, push_last_macro, push_trait_and_macro};
use crate::runtime::push_runtime;
use crate::wrappers::push_wrappers;
use gen_accept::{Opts, functions_in, places_in};
use rust_tree::{Bindings, FuncPlace, Item, TypeItem, asked_in};
use std::alloc::Global;
use type_defs::{definitions_of, one};
use type_facts::Types;
use wit_model::{List, OutOfMemory, Resolve, Text, World, WorldId};

fn type_items(alloc: Global, types: List<TypeItem>) -> Result<List<Item>, OutOfMemory>
    ensures { IfOk result (λ items. items ≡ map item.Type types) }
{
    let mut items = List::new(alloc);
    for item in types.into_vec() {
        items.push(Item::Type(item))?;
    }
    Ok(items)
}

/// The items of a world's file, in their order.
fn world_items(
    alloc: Global,
    opts: &Opts,
    resolve: &Resolve,
    id: WorldId,
    world: &World,
) -> Result<List<Item>, OutOfMemory>
    requires { IsKnown opts.now resolve.now id world.now }
    ensures are { IfOk result (AreItems (IsWritten resolve.now.types (type_sites resolve.now world.now)) (ArePartsWritten resolve.now.types (type_sites resolve.now world.now)) opts.now resolve.now id world.now) }
    ensures order { IfOk result (AskInOrder resolve.now.types (type_sites resolve.now world.now) world.now) }
{
    let facts = Types::analyze(alloc, resolve, id)?;
    let types = definitions_of(alloc, opts.type_opts(), resolve, &facts, world)?;
    let mut items = type_items(alloc, types)?;
    let mut asked = asked_in(alloc, items.as_slice())?;
    let exports = functions_in(alloc, world.exports.as_slice())?;
    let exports = exports.as_slice();
    let areas = push_wrappers(
        alloc, resolve, &facts, &mut items, &mut asked, world, exports,
    )?;
    push_trait_and_macro(alloc, resolve, &mut items, world, exports)?;
    push_area(&mut items, areas.as_slice())?;
    push_runtime(alloc, &mut items, asked.as_slice())?;
    push_last_macro(alloc, &mut items, world, exports)?;
    Ok(items)
}

/// The places of a world's functions.
fn world_places(alloc: Global, world: &World) -> Result<List<FuncPlace>, OutOfMemory>
    ensures { IfOk result (λ places. places ≡ emitted_places world.now) }
{
    let mut places = places_in(alloc, world.imports.as_slice())?;
    let exports = places_in(alloc, world.exports.as_slice())?;
    places.extend_from_slice(exports.as_slice())?;
    Ok(places)
}

#[tactic(auto, unfolding(crate::specs::OptionLines::unused_types_line))]
fn unused_types_line(alloc: Global) -> Result<Text, OutOfMemory>
    ensures { IfOk result (λ line. line ≡ unused_types_line) }
{
    Text::from_str(alloc, "//   * generate_unused_types")
}

fn option_lines(alloc: Global, opts: &Opts) -> Result<List<Text>, OutOfMemory>
    ensures { IfOk result (λ lines. lines ≡ option_lines opts.now) }
{
    if opts.generate_unused_types {
        one(alloc, unused_types_line(alloc)?)
    } else {
        Ok(List::new(alloc))
    }
}

/// The tree of a world.
pub(crate) fn bindings_of(
    alloc: Global,
    opts: &Opts,
    resolve: &Resolve,
    id: WorldId,
    world: &World,
) -> Result<Bindings, OutOfMemory>
    requires { IsKnown opts.now resolve.now id world.now }
    ensures bound { IfOk result (Binds (IsWritten resolve.now.types (type_sites resolve.now world.now)) (ArePartsWritten resolve.now.types (type_sites resolve.now world.now)) opts.now resolve.now id world.now) }
    ensures order { IfOk result (λ tree. AskInOrder resolve.now.types (type_sites resolve.now world.now) world.now tree.items) }
    ensures named { IfOk result (λ tree. are_well_named tree.options tree.items ≡ true) }
{
    let items = world_items(alloc, opts, resolve, id, world)?;
    let places = world_places(alloc, world)?;
    let options = option_lines(alloc, opts)?;
    let tree = Bindings::new(alloc, options, items, places)?;
    Ok(tree)
}
