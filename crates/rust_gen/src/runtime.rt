//! Which items the module `_rt` holds.

ghost use Rattle.std.specs.Prelude.{◌≡◌, ◌++◌, IfOk, OnOk, fold};
ghost use Rattle.std.specs.List.{flat_map, list_any};
ghost use Rattle.rust_tree.specs.Asked.{asked_in};
ghost use Rattle.rust_tree.specs.Runtime.{needed_items};
ghost use Rattle.rust_gen.specs.Runtime.{is_same_item, runtime_items, runtime_module, with_asked, with_needed};

use rust_tree::{Item, RuntimeItem, asked_in};
use std::alloc::Global;
use wit_model::{List, OutOfMemory};

fn is_same_item(a: RuntimeItem, b: RuntimeItem) -> bool
    ensures { result ≡ is_same_item a b }
{
    match (a, b) {
        (RuntimeItem::AsI32, RuntimeItem::AsI32) => true,
        (RuntimeItem::AsI64, RuntimeItem::AsI64) => true,
        (RuntimeItem::AsF32, RuntimeItem::AsF32) => true,
        (RuntimeItem::AsF64, RuntimeItem::AsF64) => true,
        (RuntimeItem::AllocCrate, RuntimeItem::AllocCrate) => true,
        (RuntimeItem::StringType, RuntimeItem::StringType) => true,
        (RuntimeItem::VecType, RuntimeItem::VecType) => true,
        (RuntimeItem::BoolLift, RuntimeItem::BoolLift) => true,
        (RuntimeItem::CharLift, RuntimeItem::CharLift) => true,
        (RuntimeItem::StringLift, RuntimeItem::StringLift) => true,
        (RuntimeItem::StdAllocModule, RuntimeItem::StdAllocModule) => true,
        (RuntimeItem::CabiDealloc, RuntimeItem::CabiDealloc) => true,
        (RuntimeItem::InvalidEnumDiscriminant, RuntimeItem::InvalidEnumDiscriminant) => true,
        _ => false,
    }
}

fn is_asked(items: &[RuntimeItem], asked: RuntimeItem) -> bool
    ensures { result ≡ list_any (λ i. is_same_item i asked) items.now }
{
    items.iter().any(|item| is_same_item(*item, asked))
}

fn ask(items: &mut List<RuntimeItem>, asked: RuntimeItem) -> Result<(), OutOfMemory>
    ensures { OnOk result (items.new ≡ with_asked items.old asked) }
{
    if is_asked(items.as_slice(), asked) {
        Ok(())
    } else {
        items.push(asked)
    }
}

fn ask_all(items: &mut List<RuntimeItem>, asked: &[RuntimeItem]) -> Result<(), OutOfMemory>
    ensures { OnOk result (items.new ≡ fold with_asked items.old asked.now) }
{
    for item in asked {
        ask(items, *item)?;
    }
    Ok(())
}

/// Puts what items need behind others.
fn ask_for_needs(items: &mut List<RuntimeItem>, parts: &[RuntimeItem]) -> Result<(), OutOfMemory>
    ensures { OnOk result (items.new ≡ fold with_asked items.old (flat_map needed_items parts.now)) }
{
    for part in parts {
        ask_all(items, part.needs())?;
    }
    Ok(())
}

/// The items, and behind them those that they need.
fn with_needed(alloc: Global, asked: List<RuntimeItem>) -> Result<List<RuntimeItem>, OutOfMemory>
    ensures { IfOk result (λ items. items ≡ with_needed asked) }
{
    let mut items = List::from_slice(alloc, asked.as_slice())?;
    ask_for_needs(&mut items, asked.as_slice())?;
    Ok(items)
}

/// The items that are asked for, each once, in the order in which they are first asked for; and behind them those that they need.
#[tactic(auto, unfolding(crate::specs::Runtime::runtime_items))]
fn runtime_items(alloc: Global, asked: &[RuntimeItem]) -> Result<List<RuntimeItem>, OutOfMemory>
    ensures { IfOk result (λ found. found ≡ runtime_items asked.now) }
{
    let mut found = List::new(alloc);
    ask_all(&mut found, asked)?;
    let found = with_needed(alloc, found)?;
    with_needed(alloc, found)
}

/// What is asked for of `_rt`, and behind it whatever else items name.
fn all_asked(
    alloc: Global,
    asked: &[RuntimeItem],
    items: &[Item],
) -> Result<List<RuntimeItem>, OutOfMemory>
    ensures { IfOk result (λ all. all ≡ asked.now ++ asked_in items.now) }
{
    let named = asked_in(alloc, items)?;
    let mut all = List::from_slice(alloc, asked)?;
    all.extend_from_slice(named.as_slice())?;
    Ok(all)
}

/// Puts the module `_rt` behind other items, where any of its items is asked for.
pub(crate) fn push_runtime(
    alloc: Global,
    items: &mut List<Item>,
    asked: &[RuntimeItem],
) -> Result<(), OutOfMemory>
    ensures { OnOk result (items.new ≡ items.old ++ runtime_module (runtime_items (asked.now ++ asked_in items.old))) }
{
    let all = all_asked(alloc, asked, items.as_slice())?;
    let parts = runtime_items(alloc, all.as_slice())?;
    if parts.is_empty() {
        return Ok(());
    }
    items.push(Item::Runtime(parts))
}
