//! What is kept of the layout of a type.

ghost use Rattle.std.specs.Prelude.{◌≡◌, length, IfOk, IsTrue};
ghost use Rattle.wit_model.specs.Numbered.{kind_numbered};
ghost use Rattle.wit_model.specs.TypeOrder.{parts_below};

use crate::kind::{extent_of_kind, offsets_of_kind, payload_of_kind};
use crate::stored::StoredExtent;
use std::alloc::Global;
use wit_model::{ArchitectureSize, List, OutOfMemory, TypeDefKind};

/// What is kept of an entry of the table of types.
#[derive(Debug, Drop)]
pub(crate) struct TypeLayout {
    pub(crate) extent: StoredExtent,
    /// Where the payload of a variant, an option or a result stands, and where an enum ends; 0 for each other kind, for an
    /// alias too.
    pub(crate) payload: ArchitectureSize,
    /// Where the fields of a record or a tuple stand, or key and value in an entry of a map; empty for each other kind, for
    /// an alias too.
    pub(crate) offsets: List<ArchitectureSize>,
}

impl TypeLayout {
    ghost use Rattle.wit_layout.specs.inside.KindLayout.{IsKindLayout};

    /// The layout of a kind, by those of the entries before it, if it can be stored.
    pub(crate) fn of_kind(
        alloc: Global,
        layouts: &[TypeLayout],
        kind: &TypeDefKind,
    ) -> Result<Option<TypeLayout>, OutOfMemory>
        requires below { IsTrue (parts_below (length layouts.now) kind.now) }
        requires numbered { IsTrue (kind_numbered kind.now) }
        ensures { IfOk result (IsKindLayout layouts.now kind.now) }
    {
        match extent_of_kind(layouts, kind) {
            None => Ok(None),
            Some(extent) => Ok(Some(TypeLayout {
                extent,
                payload: payload_of_kind(layouts, kind),
                offsets: offsets_of_kind(alloc, layouts, kind)?,
            })),
        }
    }
}
