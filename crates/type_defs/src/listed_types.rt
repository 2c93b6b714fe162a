//! Which types a world lists itself.

ghost use Rattle.std.specs.Prelude.{◌≡◌, ◌++◌, IfOk, OnOk};
ghost use Rattle.type_defs.specs.ListedTypes.{type_at, types_in};

use std::alloc::Global;
use wit_model::{List, OutOfMemory, TypeId, WorldItem, WorldKey};

fn push_type(types: &mut List<TypeId>, item: &WorldItem) -> Result<(), OutOfMemory>
    ensures { OnOk result (types.new ≡ types.old ++ type_at item.now) }
{
    match item {
        WorldItem::Interface(_) => Ok(()),
        WorldItem::Function(_) => Ok(()),
        WorldItem::Named(id) => types.push(*id),
    }
}

/// The types among imports or exports, in their order.
pub(crate) fn types_in(
    alloc: Global,
    entries: &[(WorldKey, WorldItem)],
) -> Result<List<TypeId>, OutOfMemory>
    ensures { IfOk result (λ ids. ids ≡ types_in entries.now) }
{
    let mut types = List::new(alloc);
    for entry in entries {
        push_type(&mut types, &entry.1)?;
    }
    Ok(types)
}
