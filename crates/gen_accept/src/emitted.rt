//! Which functions of a world get a wrapper, and where each of them stands.

ghost use Rattle.std.specs.Prelude.{◌≡◌, ◌++◌, IfOk, OnOk, map};
ghost use Rattle.gen_accept.specs.Emitted.{function_at, functions_in, place_at, places_from};

use rust_tree::FuncPlace;
use std::alloc::Global;
use wit_model::{Function, List, OutOfMemory, WorldItem, WorldKey};

fn push_function<'a>(
    functions: &mut Vec<&'a Function>,
    item: &'a WorldItem,
) -> Result<(), OutOfMemory>
    ensures { OnOk result
        (map (λ f. f.now) functions.new.items ≡ map (λ f. f.now) functions.old.items ++ function_at item.now) }
{
    match item {
        WorldItem::Function(function) => {
            functions.push(function)?;
            Ok(())
        }
        WorldItem::Interface(_) => Ok(()),
        WorldItem::Named(_) => Ok(()),
    }
}

/// The functions among imports or exports, in their order.
pub fn functions_in(
    alloc: Global,
    entries: &[(WorldKey, WorldItem)],
) -> Result<Vec<&Function>, OutOfMemory>
    ensures { IfOk result (λ fs. map (λ f. f.now) fs.items ≡ functions_in entries.now) }
{
    let mut functions = Vec::new(alloc);
    for entry in entries {
        push_function(&mut functions, &entry.1)?;
    }
    Ok(functions)
}

fn push_place(places: &mut List<FuncPlace>, nth: usize, item: &WorldItem) -> Result<(), OutOfMemory>
    ensures { OnOk result (places.new ≡ places.old ++ place_at nth item.now) }
{
    match item {
        WorldItem::Function(_) => match u32::try_from(nth) {
            Ok(nth) => places.push(FuncPlace {
                interface: None,
                nth,
            }),
            Err(_) => Err(OutOfMemory),
        },
        WorldItem::Interface(_) => Ok(()),
        WorldItem::Named(_) => Ok(()),
    }
}

/// The places of those functions. There is no memory also where a place would pass a `u32`.
pub fn places_in(
    alloc: Global,
    entries: &[(WorldKey, WorldItem)],
) -> Result<List<FuncPlace>, OutOfMemory>
    ensures { IfOk result (λ places. places ≡ places_from 0 entries.now) }
{
    let mut places = List::new(alloc);
    for (nth, entry) in entries.iter().enumerate() {
        push_place(&mut places, nth, &entry.1)?;
    }
    Ok(places)
}
