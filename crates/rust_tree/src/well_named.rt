//! Whether the names of a tree are identifiers, and its other texts stay where they are printed.

mod code;
mod enum_item;
mod export;
mod flags_item;
mod function;
mod text;
mod type_expr;
mod type_item;
mod variant_item;

ghost use Rattle.std.specs.Prelude.{◌≡◌};
ghost use Rattle.std.specs.List.{list_all};
ghost use Rattle.rust_tree.specs.WellNamed.{are_well_named, is_named_item};

use crate::item::Item;
use export::{is_named_export, is_named_module_macro, is_named_post_return, is_named_root_macro};
use function::{is_named_fn, is_named_trait};
use text::are_option_lines;
use type_item::is_named_type_item;
use wit_model::Text;

fn is_named_item(item: &Item) -> bool
    ensures { result ≡ is_named_item item.now }
{
    match item {
        Item::Import(function) => is_named_fn(function),
        Item::Export(function) => is_named_export(function),
        Item::Trait(item) => is_named_trait(item),
        Item::ModuleMacro(item) => is_named_module_macro(item),
        Item::Runtime(_) => true,
        Item::RootMacro(item) => is_named_root_macro(item),
        Item::PostReturn(function) => is_named_post_return(function),
        Item::Area(_) => true,
        Item::Type(item) => is_named_type_item(item),
    }
}

fn are_named_items(items: &[Item]) -> bool
    ensures { result ≡ list_all is_named_item items.now }
{
    items.iter().all(|item| is_named_item(item))
}

/// Whether option lines and items may make up a tree: each name in them is an identifier, and a path has one name at
/// least, the first of which may also be `crate` or `self`; a type that is a path alone is no primitive type's name and not
/// `_rt::String`, and a tuple type has a part; a case's path has two names at least; base names, and the names of worlds
/// and macros, hold letters, digits and `_`; a text that is printed between double quotes holds no `"`, no `\` and no line
/// feed; and a doc line or an option line holds no line feed, and the latter begins with `//   * `.
pub fn are_well_named(options: &[Text], items: &[Item]) -> bool
    ensures { result ≡ are_well_named options.now items.now }
{
    are_option_lines(options) && are_named_items(items)
}
