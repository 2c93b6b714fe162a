//! The sizes, alignments and offsets of all types of a table.

ghost use Rattle.std.specs.Prelude.{◌≡◌, ◌<◌, length, IfOk, IfErr, OnOk, IsTrue, None, slice_get};
ghost use Rattle.wit_model.specs.Size.{alignment_at};
ghost use Rattle.wit_model.specs.WellFormed.{IsWellFormed};
ghost use Rattle.wit_layout.specs.Sizes.{elem_size, alignment, payload_offset, field_offsets};
ghost use Rattle.wit_layout.specs.Told.{IsPairOf, ArePairsOf, IsAlignmentOf, is_alias};
ghost use Rattle.wit_layout.specs.Tree.{tree_at, tree_of};

use crate::fault::LayoutFault;
use crate::kind::extent_of;
use crate::type_layout::TypeLayout;
use std::alloc::Global;
use wit_model::{Alignment, ArchitectureSize, List, Resolve, TypeId, WitType};

/// The sizes, alignments and offsets of all types of a table, in bytes and pointers, after the Canonical ABI
/// (`elem_size`, `alignment`).
#[derive(Debug, Drop)]
pub struct SizeAlign {
    pub(crate) layouts: List<TypeLayout>,
}

impl SizeAlign {
    ghost use Rattle.std.specs.Prelude.{List, Some, true, false, []};
    ghost use Rattle.wit_model.specs.declared.types.TypeDef.{TypeDef};
    ghost use Rattle.wit_layout.specs.Filled.{IsFilledFor, IsLayoutFaultOf, first_too_large, has_size};

    /// The sizes of all types of tables that [`Resolve::check`] has passed.
    ///
    /// `TooLarge` comes exactly where a type has more than 2^31 - 1 bytes where pointers have 8, and names the first
    /// such type. The wider pointer decides for code with pointers of 4 bytes too: so no answer depends on the width, and
    /// code for both widths will change none. `OutOfMemory` comes where there is no memory for what is kept of each type.
    pub fn fill(alloc: Global, resolve: &Resolve) -> Result<SizeAlign, LayoutFault>
        requires { IsWellFormed resolve.now }
        ensures sizes { IfOk result (λ sizes. IsFilledFor sizes resolve.now.types) }
        ensures ok { OnOk result (first_too_large resolve.now.types ≡ None) }
        ensures err { IfErr result (IsLayoutFaultOf resolve.now.types) }
    {
        let mut layouts = List::new(alloc);
        for (i, entry) in resolve.types.as_slice().iter().enumerate() {
            match TypeLayout::of_kind(alloc, layouts.as_slice(), &entry.kind)? {
                Some(layout) => layouts.push(layout)?,
                None => return Err(LayoutFault::TooLarge(TypeId(i as u32))),
            }
        }
        Ok(SizeAlign { layouts })
    }

    /// Whether a type is a primitive or an entry of the table, so that it has a size here.
    #[tactic(auto, unfolding(wit_model::specs::TypeOrder::type_below))]
    pub fn has_size(&self, ty: &WitType) -> bool
        ensures { result ≡ has_size self.now ty.now }
    {
        match ty {
            WitType::Id(id) => (id.0 as usize) < self.layouts.len(),
            _ => true,
        }
    }

    /// The size of a type in bytes and pointers, which is right where pointers have 4 bytes and where they have 8.
    pub fn size(&self, ty: &WitType) -> ArchitectureSize
        requires { IsTrue (has_size self.now ty.now) }
        ensures { (types : List TypeDef) → IsFilledFor self.now types
            → IsPairOf result (λ w. elem_size w (tree_of types ty.now)) }
    {
        extent_of(self.layouts.as_slice(), *ty).size
    }

    /// The alignment of a type, which is right where pointers have 4 bytes and where they have 8.
    pub fn align(&self, ty: &WitType) -> Alignment
        requires { IsTrue (has_size self.now ty.now) }
        ensures { (types : List TypeDef) → IsFilledFor self.now types
            → IsAlignmentOf result (λ w. alignment w (tree_of types ty.now)) }
    {
        extent_of(self.layouts.as_slice(), *ty).grain.alignment()
    }

    #[tactic(auto, unfolding(wit_model::specs::TypeOrder::type_below))]
    fn layout(&self, id: TypeId) -> &TypeLayout
        requires { IsTrue (has_size self.now (WitType.Id id)) }
        ensures { slice_get self.now.layouts id.0 ≡ Some result.now }
    {
        &self.layouts.as_slice()[id.0 as usize]
    }

    /// How many bytes and pointers stand before the payload in a variant, an option or a result. For an enum, which has no
    /// payload, it is the size of its discriminant, and for each other kind nothing. That is so for an alias too: the type
    /// behind it, which [`wit_model::dealias`] gives, is to be asked.
    pub fn payload_offset(&self, id: TypeId) -> ArchitectureSize
        requires { IsTrue (has_size self.now (WitType.Id id)) }
        ensures own { (types : List TypeDef) (entry : TypeDef) → IsFilledFor self.now types
            → slice_get types id.0 ≡ Some entry → is_alias entry.kind ≡ false
            → IsPairOf result (λ w. payload_offset w (tree_at types id.0)) }
        ensures alias { (types : List TypeDef) (entry : TypeDef) → IsFilledFor self.now types
            → slice_get types id.0 ≡ Some entry → is_alias entry.kind ≡ true
            → IsPairOf result (λ w. 0) }
    {
        self.layout(id).payload
    }

    /// How many bytes and pointers stand before each field in a record or a tuple, and before the key and the value in an
    /// entry of a map. For each other kind the list is empty, for an alias too: the type behind it, which
    /// [`wit_model::dealias`] gives, is to be asked.
    pub fn field_offsets_of(&self, id: TypeId) -> &[ArchitectureSize]
        requires { IsTrue (has_size self.now (WitType.Id id)) }
        ensures own { (types : List TypeDef) (entry : TypeDef) → IsFilledFor self.now types
            → slice_get types id.0 ≡ Some entry → is_alias entry.kind ≡ false
            → ArePairsOf result.now (λ w. field_offsets w (tree_at types id.0)) }
        ensures alias { (types : List TypeDef) (entry : TypeDef) → IsFilledFor self.now types
            → slice_get types id.0 ≡ Some entry → is_alias entry.kind ≡ true
            → ArePairsOf result.now (λ w. []) }
    {
        self.layout(id).offsets.as_slice()
    }
}
