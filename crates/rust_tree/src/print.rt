//! The exact text of a tree.

mod area;
mod constant;
mod conversion;
mod core_import;
mod derives;
mod enum_item;
mod error_enum;
mod error_type;
mod escaped;
mod export;
mod expr;
mod flags_item;
mod function;
mod macros;
mod match_stmt;
mod named_param;
mod path;
mod pattern;
mod runtime;
mod size;
mod slot;
mod stmt;
mod trait_item;
mod type_item;
mod type_name;
mod variant_item;
mod word;

ghost use Rattle.std.specs.Prelude.{◌≡◌, ◌++◌, IfOk, OnOk};
ghost use Rattle.std.specs.List.{flat_map};
ghost use Rattle.rust_tree.specs.Text.{item_text, option_text, text};

use crate::bindings::Bindings;
use crate::item::Item;
use area::push_static_area;
use export::{push_export, push_post_return};
use function::push_function;
use macros::{push_module_macro, push_root_macro};
use runtime::push_runtime;
use std::alloc::Global;
use trait_item::push_trait;
use type_item::push_type_item;
use wit_model::{OutOfMemory, Text};
use word::{ItemWord, Sign};

fn push_options(out: &mut Text, options: &[Text]) -> Result<(), OutOfMemory>
    ensures { OnOk result (out.new ≡ out.old ++ flat_map option_text options.now) }
{
    for line in options {
        out.push_str(line.as_str())?;
        Sign::LineEnd.put(out)?;
    }
    Ok(())
}

fn push_item(out: &mut Text, item: &Item) -> Result<(), OutOfMemory>
    ensures { OnOk result (out.new ≡ out.old ++ item_text item.now) }
{
    match item {
        Item::Import(function) => push_function(out, function),
        Item::Export(function) => push_export(out, function),
        Item::Trait(item) => push_trait(out, item),
        Item::ModuleMacro(item) => push_module_macro(out, item),
        Item::Runtime(items) => push_runtime(out, items.as_slice()),
        Item::RootMacro(item) => push_root_macro(out, item),
        Item::PostReturn(function) => push_post_return(out, function),
        Item::Area(area) => push_static_area(out, area),
        Item::Type(item) => push_type_item(out, item),
    }
}

fn push_items(out: &mut Text, items: &[Item]) -> Result<(), OutOfMemory>
    ensures { OnOk result (out.new ≡ out.old ++ flat_map item_text items.now) }
{
    for item in items {
        push_item(out, item)?;
    }
    Ok(())
}

/// The exact text of a bindings file.
pub fn text_of(alloc: Global, tree: &Bindings) -> Result<Text, OutOfMemory>
    ensures { IfOk result (λ t. t ≡ text tree.now) }
{
    let mut out = Text::new(alloc);
    ItemWord::Preamble.put(&mut out)?;
    push_options(&mut out, tree.options())?;
    push_items(&mut out, tree.items())?;
    Ok(out)
}
