//! Trees of one wrapper, and what their texts have.

ghost use Rattle.std.specs.Prelude.{◌≡◌, [], ◌∷◌};
ghost use Rattle.rust_tree.specs.Tree.{wrapper_count};

use func_gen::Body;
use rust_tree::{
    Bindings, Block, ExportFn, FnItem, FuncPlace, Item, TypeExpr, are_well_named, text_of,
};
use std::alloc::Global;
use std::test::Fail;
use wit_model::{List, OutOfMemory, Text};

/// The tree of one item, which is a wrapper.
fn tree_of(alloc: Global, item: Item) -> Result<Bindings, Fail>
    requires { wrapper_count (item ∷ []) ≡ 1 }
{
    let options = List::new(alloc);
    let mut items = List::new(alloc);
    items.push(item)?;
    let place = FuncPlace {
        interface: None,
        nth: 0,
    };
    let mut places = List::new(alloc);
    places.push(place)?;
    if !are_well_named(options.as_slice(), items.as_slice()) {
        return Err(Fail::new("the names are no identifiers"));
    }
    let tree = Bindings::new(alloc, options, items, places)?;
    Ok(tree)
}

/// The tree of an import `f` without parameters, of which this is the body.
pub(crate) fn import_tree(alloc: Global, body: Body) -> Result<Bindings, Fail> {
    let Body { stmts, tail, .. } = body;
    let item = FnItem {
        docs: List::new(alloc),
        name: Text::from_str(alloc, "f")?,
        params: List::new(alloc),
        result: TypeExpr::Unit,
        body: Block { stmts, tail },
    };
    tree_of(alloc, Item::Import(item))
}

/// The tree of an export `f` without parameters, of which this is the body.
pub(crate) fn export_tree(alloc: Global, body: Body) -> Result<Bindings, Fail> {
    let Body {
        call,
        stmts,
        tail,
        ..
    } = body;
    let Some(call) = call else {
        return Err(Fail::new("no method is called"));
    };
    let item = ExportFn {
        base: Text::from_str(alloc, "f")?,
        bound: Text::from_str(alloc, "Guest")?,
        params: List::new(alloc),
        result: None,
        call,
        rest: Block { stmts, tail },
    };
    tree_of(alloc, Item::Export(item))
}

/// Whether the text of a tree has a passage.
pub(crate) fn prints(alloc: Global, tree: &Bindings, passage: &str) -> Result<bool, OutOfMemory> {
    let text = text_of(alloc, tree)?;
    Ok(text.as_str().contains(passage))
}
