//! The items by which a world exports its functions: the trait of their implementation, and the macros.

ghost use Rattle.std.specs.Prelude.{◌≡◌, ◌++◌, true, IfOk, OnOk, map};
ghost use Rattle.std.specs.List.{AllByRecursion, flat_map};
ghost use Rattle.wit_model.specs.IndexRange.{function_in_range};
ghost use Rattle.wit_model.specs.WellFormed.{IsWellFormed};
ghost use Rattle.gen_accept.specs.DeclaredNames.{guest_name};
ghost use Rattle.gen_accept.specs.Emitted.{exported_functions};
ghost use Rattle.func_gen.specs.Body.{needed};
ghost use Rattle.func_gen.specs.Whole.{IsSmall};
ghost use Rattle.wrapper_closing.specs.FileArea.{static_area};
ghost use Rattle.rust_gen.specs.Bound.{area_items};
ghost use Rattle.rust_gen.specs.Exported.{entries_of, export_entry, file_macro, guest_trait, last_macro, macro_name, post_return_name, return_entry, trait_and_macro, trait_fn, trait_param, world_macro};
ghost use Rattle.gen_accept.specs.InRange.{AreInRange};
ghost use Rattle.rust_gen.specs.Wrapper.{export_result};

use crate::signature::printed_result;
use abi_bindgen::Asked;
use func_gen::needed_area;
use gen_accept::needs_return;
use rust_tree::{
    EntryKind, ExportEntry, FnParam, Item, ModuleMacro, RootMacro, StaticArea, TraitFn, TraitItem,
    to_rust_ident,
};
use std::alloc::Global;
use type_defs::{doc_lines, one, part_type};
use wit_model::{Function, List, OutOfMemory, Param, Resolve, Text, TypeDef, WasmType, World};
use wrapper_closing::{core_params, core_result, post_return_params};

/// The name of the trait.
#[tactic(auto, unfolding(gen_accept::specs::DeclaredNames::guest_name))]
pub(crate) fn guest_name(alloc: Global) -> Result<Text, OutOfMemory>
    ensures { IfOk result (λ name. name ≡ guest_name) }
{
    Text::from_str(alloc, "Guest")
}

fn trait_param(alloc: Global, types: &[TypeDef], p: &Param) -> Result<FnParam, OutOfMemory>
    ensures { IfOk result (λ printed. printed ≡ trait_param types.now p.now) }
{
    Ok(FnParam {
        name: to_rust_ident(alloc, &p.name)?,
        ty: part_type(alloc, types, p.ty)?,
    })
}

fn trait_params(
    alloc: Global,
    types: &[TypeDef],
    params: &[Param],
) -> Result<List<FnParam>, OutOfMemory>
    ensures { IfOk result (λ printed. printed ≡ map (trait_param types.now) params.now) }
{
    let mut printed = List::new(alloc);
    for p in params {
        printed.push(trait_param(alloc, types, p)?)?;
    }
    Ok(printed)
}

fn trait_fn(alloc: Global, resolve: &Resolve, f: &Function) -> Result<TraitFn, OutOfMemory>
    ensures { IfOk result (λ printed. printed ≡ trait_fn resolve.now.types f.now) }
{
    Ok(TraitFn {
        docs: doc_lines(alloc, &f.docs)?,
        name: to_rust_ident(alloc, &f.name)?,
        params: trait_params(alloc, resolve.types.as_slice(), f.params.as_slice())?,
        result: printed_result(alloc, resolve, &f.result)?,
    })
}

fn guest_trait(
    alloc: Global,
    resolve: &Resolve,
    functions: &[&Function],
) -> Result<TraitItem, OutOfMemory>
    ensures { IfOk result (λ t. t ≡ guest_trait resolve.now.types (map (λ f. f.now) functions.now)) }
{
    let mut printed = List::new(alloc);
    for function in functions {
        printed.push(trait_fn(alloc, resolve, function)?)?;
    }
    Ok(TraitItem {
        name: guest_name(alloc)?,
        functions: printed,
    })
}

/// The core result of an exported function, if it has one.
#[tactic(auto, using(crate::proofs::ResultLemmas::first_result))]
pub(crate) fn export_result(resolve: &Resolve, f: &Function) -> Option<WasmType>
    requires well { IsWellFormed resolve.now }
    requires within { function_in_range resolve.now f.now ≡ true }
    ensures { result ≡ export_result resolve.now.types f.now }
{
    core_result(resolve, f)
}

fn export_entry(alloc: Global, resolve: &Resolve, f: &Function) -> Result<ExportEntry, OutOfMemory>
    requires well { IsWellFormed resolve.now }
    requires within { function_in_range resolve.now f.now ≡ true }
    ensures { IfOk result (λ entry. entry ≡ export_entry resolve.now.types f.now) }
{
    Ok(ExportEntry {
        kind: EntryKind::Wrapper,
        export_name: f.name.wit.copy(alloc)?,
        base: f.name.snake.copy(alloc)?,
        params: core_params(alloc, resolve, f)?,
        result: export_result(resolve, f),
    })
}

/// The export name of a post-return function.
#[tactic(auto, unfolding(crate::specs::Exported::post_return_name))]
fn post_return_name(alloc: Global, f: &Function) -> Result<Text, OutOfMemory>
    ensures { IfOk result (λ name. name ≡ post_return_name f.now) }
{
    let mut name = Text::from_str(alloc, "cabi_post_")?;
    name.push_str(f.name.wit.as_str())?;
    Ok(name)
}

fn return_entry(alloc: Global, resolve: &Resolve, f: &Function) -> Result<ExportEntry, OutOfMemory>
    requires well { IsWellFormed resolve.now }
    requires within { function_in_range resolve.now f.now ≡ true }
    ensures { IfOk result (λ entry. entry ≡ return_entry resolve.now.types f.now) }
{
    Ok(ExportEntry {
        kind: EntryKind::PostReturn,
        export_name: post_return_name(alloc, f)?,
        base: f.name.snake.copy(alloc)?,
        params: post_return_params(alloc, resolve, f)?,
        result: None,
    })
}

/// Puts the entries of a function behind others: that of its wrapper, and that of its post-return function if it has one.
fn push_entries(
    alloc: Global,
    resolve: &Resolve,
    entries: &mut List<ExportEntry>,
    f: &Function,
) -> Result<(), OutOfMemory>
    requires well { IsWellFormed resolve.now }
    requires within { function_in_range resolve.now f.now ≡ true }
    ensures { OnOk result (entries.new ≡ entries.old ++ entries_of resolve.now.types f.now) }
{
    entries.push(export_entry(alloc, resolve, f)?)?;
    if needs_return(resolve, f) {
        entries.push(return_entry(alloc, resolve, f)?)?;
    }
    Ok(())
}

fn export_entries(
    alloc: Global,
    resolve: &Resolve,
    functions: &[&Function],
) -> Result<List<ExportEntry>, OutOfMemory>
    requires well { IsWellFormed resolve.now }
    requires within { AreInRange resolve.now (map (λ f. f.now) functions.now) }
    ensures { IfOk result
        (λ entries. entries ≡ flat_map (entries_of resolve.now.types) (map (λ f. f.now) functions.now)) }
{
    let mut entries = List::new(alloc);
    for function in functions {
        push_entries(alloc, resolve, &mut entries, function)?;
    }
    Ok(entries)
}

#[tactic(auto, unfolding(crate::specs::Exported::world_prefix))]
fn macro_name(alloc: Global, world: &World) -> Result<Text, OutOfMemory>
    ensures { IfOk result (λ name. name ≡ macro_name world.now) }
{
    let mut name = Text::from_str(alloc, "world_")?;
    name.push_str(world.name.snake.as_str())?;
    Ok(name)
}

fn world_macro(
    alloc: Global,
    resolve: &Resolve,
    world: &World,
    functions: &[&Function],
) -> Result<ModuleMacro, OutOfMemory>
    requires well { IsWellFormed resolve.now }
    requires within { AreInRange resolve.now (map (λ f. f.now) functions.now) }
    requires exported { map (λ f. f.now) functions.now ≡ exported_functions world.now }
    ensures { IfOk result (λ m. m ≡ world_macro resolve.now.types world.now) }
{
    Ok(ModuleMacro {
        name: macro_name(alloc, world)?,
        entries: export_entries(alloc, resolve, functions)?,
    })
}

fn file_macro(alloc: Global, world: &World) -> Result<RootMacro, OutOfMemory>
    ensures { IfOk result (λ m. m ≡ file_macro world.now) }
{
    let name = macro_name(alloc, world)?;
    Ok(RootMacro {
        world: world.name.snake.copy(alloc)?,
        modules: one(alloc, name)?,
    })
}

/// Puts the trait and the world's macro behind other items, where a function is exported.
pub(crate) fn push_trait_and_macro(
    alloc: Global,
    resolve: &Resolve,
    items: &mut List<Item>,
    world: &World,
    functions: &[&Function],
) -> Result<(), OutOfMemory>
    requires well { IsWellFormed resolve.now }
    requires within { AreInRange resolve.now (map (λ f. f.now) functions.now) }
    requires exported { map (λ f. f.now) functions.now ≡ exported_functions world.now }
    ensures { OnOk result (items.new ≡ items.old ++ trait_and_macro resolve.now.types world.now) }
{
    if functions.is_empty() {
        return Ok(());
    }
    items.push(Item::Trait(guest_trait(alloc, resolve, functions)?))?;
    items.push(Item::ModuleMacro(world_macro(alloc, resolve, world, functions)?))
}

fn static_area(area: Option<Asked>) -> Option<StaticArea>
    ensures { result ≡ static_area area }
{
    match area {
        None => None,
        Some(Asked { size, align }) => Some(StaticArea { size, align }),
    }
}

/// Puts the static area for these areas of exported functions behind other items, if there are any.
pub(crate) fn push_area(items: &mut List<Item>, areas: &[Asked]) -> Result<(), OutOfMemory>
    requires small { AllByRecursion IsSmall areas.now }
    ensures { OnOk result (items.new ≡ items.old ++ area_items (static_area (needed areas.now))) }
{
    match static_area(needed_area(areas)) {
        None => Ok(()),
        Some(area) => items.push(Item::Area(area)),
    }
}

/// Puts the file's macro behind other items, where a function is exported.
pub(crate) fn push_last_macro(
    alloc: Global,
    items: &mut List<Item>,
    world: &World,
    functions: &[&Function],
) -> Result<(), OutOfMemory>
    requires { map (λ f. f.now) functions.now ≡ exported_functions world.now }
    ensures { OnOk result (items.new ≡ items.old ++ last_macro world.now) }
{
    if functions.is_empty() {
        return Ok(());
    }
    items.push(Item::RootMacro(file_macro(alloc, world)?))
}
