//! The wrappers of a world's functions, one behind another, and what they ask for of `_rt`.

ghost use Rattle.std.specs.Prelude.{◌≡◌, ◌++◌, ◌∷◌, [], true, List, Option, Some, IfOk, OnOk, map, option_to_list, slice_get};
ghost use Rattle.std.specs.List.{AllZip, flat_map};
ghost use Rattle.wit_model.specs.Distinct.{is_distinct};
ghost use Rattle.wit_model.specs.IndexRange.{function_in_range};
ghost use Rattle.wit_model.specs.WellFormed.{IsWellFormed};
ghost use Rattle.wit_model.specs.declared.name.WorldId.{WorldId};
ghost use Rattle.rust_tree.specs.declared.export.ExportFn.{ExportFn};
ghost use Rattle.rust_tree.specs.declared.export.PostReturnFn.{PostReturnFn};
ghost use Rattle.rust_tree.specs.declared.item.FnItem.{FnItem};
ghost use Rattle.rust_tree.specs.declared.item.Item.TheVariants as item;
ghost use Rattle.rust_tree.specs.declared.runtime_item.RuntimeItem.{RuntimeItem};
ghost use Rattle.gen_accept.specs.Area.{needs_return};
ghost use Rattle.gen_accept.specs.DeclaredNames.{param_idents};
ghost use Rattle.gen_accept.specs.Emitted.{imported_functions};
ghost use Rattle.gen_accept.specs.InRange.{AreInRange};
ghost use Rattle.type_facts.specs.Facts.{IsAnalysis};
ghost use Rattle.type_defs.specs.Levels.{are_shallow};
ghost use Rattle.type_defs.specs.ParamType.{HasFacts};
ghost use Rattle.type_sites.specs.Sites.{type_sites};
ghost use Rattle.wrapper_meaning.specs.Represents.{is_indirect};
ghost use Rattle.wrapper_meaning.specs.Shape.{result_shape};
ghost use Rattle.wrapper_closing.specs.Parts.{CanWriteFunction};
ghost use Rattle.rust_gen.specs.Asking.{ExportAsks, ImportAsks, ReturnAsks, WrapperAsks, asked_with, bare};
ghost use Rattle.rust_gen.specs.Bound.{Parts, areas_of, export_items, return_items};
ghost use Rattle.rust_gen.specs.Known.{AreAtHand, CanWriteFunctions, CanWriteTypes, HasCode, HaveCode, HaveDistinctParams};

use crate::export::{ExportMade, export_wrapper};
use crate::import::import_wrapper;
use crate::post_return::post_return;
use crate::tables::type_tables;
use abi_bindgen::Asked;
use func_gen::TypeTables;
use gen_accept::{functions_in, needs_return};
use rust_tree::{Item, RuntimeItem, ask_by_signature};
use std::alloc::Global;
use type_facts::Types;
use wit_model::{Function, List, OutOfMemory, Resolve, World};

/// Puts the wrapper of an imported function behind other items, and what it asks for of `_rt` behind other items of that: by its
/// signature, and then by its body.
fn push_import(
    alloc: Global,
    resolve: &Resolve,
    facts: &Types,
    tables: &TypeTables,
    items: &mut List<Item>,
    asked: &mut List<RuntimeItem>,
    f: &Function,
) -> Result<(), OutOfMemory>
    requires well { IsWellFormed resolve.now }
    requires within { function_in_range resolve.now f.now ≡ true }
    requires code { HasCode resolve.now.types f.now }
    requires writes { CanWriteFunction resolve.now.types tables.now.sites f.now }
    requires distinct { is_distinct (param_idents f.now) ≡ true }
    requires facts { HasFacts resolve.now facts.now }
    requires tables { AreAtHand resolve.now.types tables.now }
    ensures { OnOk result
        ((i : FnItem × List RuntimeItem) × (items.new ≡ items.old ++ item.Import i.0 ∷ []) × (asked.new ≡ asked.old ++ i.1) × ImportAsks resolve.now.types tables.now.sites f.now i) }
{
    let (wrapper, runtime) = import_wrapper(alloc, resolve, facts, tables, f)?;
    ask_by_signature(asked, wrapper.params.as_slice(), &wrapper.result)?;
    items.push(Item::Import(wrapper))?;
    asked.extend_from_slice(runtime.as_slice())?;
    Ok(())
}

fn push_imports(
    alloc: Global,
    resolve: &Resolve,
    facts: &Types,
    tables: &TypeTables,
    items: &mut List<Item>,
    asked: &mut List<RuntimeItem>,
    functions: &[&Function],
) -> Result<(), OutOfMemory>
    requires well { IsWellFormed resolve.now }
    requires within { AreInRange resolve.now (map (λ f. f.now) functions.now) }
    requires code { HaveCode resolve.now.types (map (λ f. f.now) functions.now) }
    requires writes { CanWriteFunctions resolve.now.types tables.now.sites (map (λ f. f.now) functions.now) }
    requires distinct { HaveDistinctParams (map (λ f. f.now) functions.now) }
    requires facts { HasFacts resolve.now facts.now }
    requires tables { AreAtHand resolve.now.types tables.now }
    ensures { OnOk result
        ((is : List (FnItem × List RuntimeItem)) × (items.new ≡ items.old ++ map item.Import (bare is)) × (asked.new ≡ asked.old ++ asked_with is) × AllZip (ImportAsks resolve.now.types tables.now.sites) (map (λ f. f.now) functions.now) is) }
{
    for function in functions {
        push_import(alloc, resolve, facts, tables, items, asked, function)?;
    }
    Ok(())
}

/// Puts the wrapper of an exported function behind other items, and what it asks for of `_rt` behind other items of that. Answers the
/// area that it needs, if it needs one.
fn push_wrapper(
    alloc: Global,
    resolve: &Resolve,
    tables: &TypeTables,
    items: &mut List<Item>,
    asked: &mut List<RuntimeItem>,
    f: &Function,
) -> Result<Option<Asked>, OutOfMemory>
    requires well { IsWellFormed resolve.now }
    requires within { function_in_range resolve.now f.now ≡ true }
    requires code { HasCode resolve.now.types f.now }
    requires writes { CanWriteFunction resolve.now.types tables.now.sites f.now }
    requires tables { AreAtHand resolve.now.types tables.now }
    ensures { IfOk result
        (λ area. (e : ExportFn × List RuntimeItem) × (items.new ≡ items.old ++ item.Export e.0 ∷ []) × (asked.new ≡ asked.old ++ e.1) × WrapperAsks resolve.now.types tables.now.sites f.now e.0 area e.1) }
{
    let ExportMade {
        wrapper,
        area,
        runtime,
    } = export_wrapper(alloc, resolve, tables, f)?;
    items.push(Item::Export(wrapper))?;
    asked.extend_from_slice(runtime.as_slice())?;
    Ok(area)
}

/// Puts the post-return function of an exported function behind other items, and what it asks for of `_rt` behind other items of that.
fn push_returning(
    alloc: Global,
    resolve: &Resolve,
    tables: &TypeTables,
    items: &mut List<Item>,
    asked: &mut List<RuntimeItem>,
    f: &Function,
) -> Result<(), OutOfMemory>
    requires well { IsWellFormed resolve.now }
    requires within { function_in_range resolve.now f.now ≡ true }
    requires code { HasCode resolve.now.types f.now }
    requires indirect { is_indirect (result_shape resolve.now.types f.now) ≡ true }
    requires tables { AreAtHand resolve.now.types tables.now }
    ensures { OnOk result
        ((p : Option PostReturnFn × List RuntimeItem) × (items.new ≡ items.old ++ return_items p.0) × (asked.new ≡ asked.old ++ p.1) × ReturnAsks resolve.now.types tables.now.sites true f.now p.0 p.1) }
{
    let (function, runtime) = post_return(alloc, resolve, tables, f)?;
    items.push(Item::PostReturn(function))?;
    asked.extend_from_slice(runtime.as_slice())?;
    Ok(())
}

/// The same where its result may hold a text.
fn push_post_return(
    alloc: Global,
    resolve: &Resolve,
    tables: &TypeTables,
    items: &mut List<Item>,
    asked: &mut List<RuntimeItem>,
    f: &Function,
) -> Result<(), OutOfMemory>
    requires well { IsWellFormed resolve.now }
    requires within { function_in_range resolve.now f.now ≡ true }
    requires code { HasCode resolve.now.types f.now }
    requires tables { AreAtHand resolve.now.types tables.now }
    ensures { OnOk result
        ((p : Option PostReturnFn × List RuntimeItem) × (items.new ≡ items.old ++ return_items p.0) × (asked.new ≡ asked.old ++ p.1) × ReturnAsks resolve.now.types tables.now.sites (needs_return resolve.now.types f.now) f.now p.0 p.1) }
{
    if needs_return(resolve, f) {
        push_returning(alloc, resolve, tables, items, asked, f)?;
        Ok(())
    } else {
        Ok(())
    }
}

fn push_needed(areas: &mut List<Asked>, area: Option<Asked>) -> Result<(), OutOfMemory>
    ensures { OnOk result (areas.new ≡ areas.old ++ option_to_list area) }
{
    match area {
        None => Ok(()),
        Some(area) => areas.push(area),
    }
}

/// Puts the wrapper of an exported function behind other items, and its post-return function if it has one; what they ask for of `_rt`
/// behind other items of that; and the area that is needed behind other areas.
fn push_export(
    alloc: Global,
    resolve: &Resolve,
    tables: &TypeTables,
    items: &mut List<Item>,
    asked: &mut List<RuntimeItem>,
    areas: &mut List<Asked>,
    f: &Function,
) -> Result<(), OutOfMemory>
    requires well { IsWellFormed resolve.now }
    requires within { function_in_range resolve.now f.now ≡ true }
    requires code { HasCode resolve.now.types f.now }
    requires writes { CanWriteFunction resolve.now.types tables.now.sites f.now }
    requires tables { AreAtHand resolve.now.types tables.now }
    ensures { OnOk result
        ((e : Parts × List RuntimeItem) × (items.new ≡ items.old ++ export_items e.0) × (areas.new ≡ areas.old ++ option_to_list e.0.2) × (asked.new ≡ asked.old ++ e.1) × ExportAsks resolve.now.types tables.now.sites f.now e) }
{
    let area = push_wrapper(alloc, resolve, tables, items, asked, f)?;
    push_post_return(alloc, resolve, tables, items, asked, f)?;
    push_needed(areas, area)?;
    Ok(())
}

/// Puts the wrappers of exported functions behind other items, and answers the areas that they need.
fn push_exports(
    alloc: Global,
    resolve: &Resolve,
    tables: &TypeTables,
    items: &mut List<Item>,
    asked: &mut List<RuntimeItem>,
    functions: &[&Function],
) -> Result<List<Asked>, OutOfMemory>
    requires well { IsWellFormed resolve.now }
    requires within { AreInRange resolve.now (map (λ f. f.now) functions.now) }
    requires code { HaveCode resolve.now.types (map (λ f. f.now) functions.now) }
    requires writes { CanWriteFunctions resolve.now.types tables.now.sites (map (λ f. f.now) functions.now) }
    requires tables { AreAtHand resolve.now.types tables.now }
    ensures { IfOk result
        (λ areas. (es : List (Parts × List RuntimeItem)) × (items.new ≡ items.old ++ flat_map export_items (bare es)) × (areas ≡ flat_map option_to_list (areas_of (bare es))) × (asked.new ≡ asked.old ++ asked_with es) × AllZip (ExportAsks resolve.now.types tables.now.sites) (map (λ f. f.now) functions.now) es) }
{
    let mut areas = List::new(alloc);
    for function in functions {
        push_export(alloc, resolve, tables, items, asked, &mut areas, function)?;
    }
    Ok(areas)
}

/// Puts the wrappers of a world's functions behind other items, and what they ask for of `_rt` behind other items of that. Answers the
/// areas that those of exported functions need.
pub(crate) fn push_wrappers(
    alloc: Global,
    resolve: &Resolve,
    facts: &Types,
    items: &mut List<Item>,
    asked: &mut List<RuntimeItem>,
    world: &World,
    exports: &[&Function],
) -> Result<List<Asked>, OutOfMemory>
    requires well { IsWellFormed resolve.now }
    requires types { (id : WorldId) × (slice_get resolve.now.worlds id.0 ≡ Some world.now) × CanWriteTypes resolve.now id × IsAnalysis resolve.now id facts.now }
    requires shallow { are_shallow resolve.now.types ≡ true }
    requires imports { AreInRange resolve.now (imported_functions world.now) }
    requires imports_code { HaveCode resolve.now.types (imported_functions world.now) }
    requires imports_write { CanWriteFunctions resolve.now.types (type_sites resolve.now world.now) (imported_functions world.now) }
    requires distinct { HaveDistinctParams (imported_functions world.now) }
    requires within { AreInRange resolve.now (map (λ f. f.now) exports.now) }
    requires exports_code { HaveCode resolve.now.types (map (λ f. f.now) exports.now) }
    requires exports_write { CanWriteFunctions resolve.now.types (type_sites resolve.now world.now) (map (λ f. f.now) exports.now) }
    ensures { IfOk result
        (λ areas. (is : List (FnItem × List RuntimeItem)) × (es : List (Parts × List RuntimeItem)) × (items.new ≡ (items.old ++ map item.Import (bare is)) ++ flat_map export_items (bare es)) × (areas ≡ flat_map option_to_list (areas_of (bare es))) × (asked.new ≡ (asked.old ++ asked_with is) ++ asked_with es) × AllZip (ImportAsks resolve.now.types (type_sites resolve.now world.now)) (imported_functions world.now) is × AllZip (ExportAsks resolve.now.types (type_sites resolve.now world.now)) (map (λ f. f.now) exports.now) es) }
{
    let imports = functions_in(alloc, world.imports.as_slice())?;
    let tables = type_tables(alloc, resolve, facts)?;
    push_imports(
        alloc,
        resolve,
        facts,
        &tables,
        items,
        asked,
        imports.as_slice(),
    )?;
    let areas = push_exports(alloc, resolve, &tables, items, asked, exports)?;
    Ok(areas)
}
