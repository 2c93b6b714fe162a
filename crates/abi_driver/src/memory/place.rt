//! Where a part stands.

ghost use Rattle.std.specs.Prelude.{◌≡◌, ◌+◌, ◌*◌, ◌^◌, ◌<◌, ℕ, List, Some, true, false, length, slice_get, slice_index};
ghost use Rattle.wit_model.specs.Size.{bytes_at};
ghost use Rattle.wit_model.specs.TypeOrder.{type_below};
ghost use Rattle.wit_model.specs.declared.size.ArchitectureSize.{ArchitectureSize};
ghost use Rattle.wit_model.specs.declared.types.TypeDef.{TypeDef};
ghost use Rattle.wit_model.specs.declared.types.WitType.{WitType};
ghost use Rattle.wit_layout.specs.Sizes.{field_offsets};
ghost use Rattle.wit_layout.specs.Told.{IsPairOf, is_alias};
ghost use Rattle.wit_layout.specs.Tree.{tree_at};
ghost use Rattle.wrapper_meaning.specs.Shape.{shape_of};
ghost use Rattle.wrapper_meaning.specs.Shape.Shape.{text};
ghost use Rattle.abi_bindgen.specs.Code.{beyond, one_pointer, word_place};
ghost use Rattle.abi_driver.specs.Low.{EndsLow, HasLowPart};

use abi_bindgen::Bindgen;
use wit_model::{ArchitectureSize, TypeId};

/// No bytes and no pointers.
pub(crate) const NOWHERE: ArchitectureSize = ArchitectureSize {
    bytes: 0,
    pointers: 0,
};

/// No offset from an address, where a value of each type of the table ends low: the layouts have a size for each.
pub(crate) fn start<B: Bindgen>(bindgen: &B) -> ArchitectureSize
    ensures here { result ≡ NOWHERE }
    ensures low { (types : List TypeDef) (ty : WitType) → B.meaning.knows bindgen.now types → type_below (length types) ty ≡ true → EndsLow (shape_of types ty) result }
{
    // only their presence tells that no type is too large
    let _sizes = bindgen.sizes();
    NOWHERE
}

/// The sum of two offsets.
pub(super) fn sum(a: ArchitectureSize, b: ArchitectureSize) -> ArchitectureSize
    requires { bytes_at (beyond a b) 8 < 2 ^ 31 }
    ensures { result ≡ beyond a b }
{
    ArchitectureSize {
        bytes: a.bytes + b.bytes,
        pointers: a.pointers + b.pointers,
    }
}

/// One pointer further on.
pub(crate) fn behind_pointer(offset: ArchitectureSize) -> ArchitectureSize
    requires { EndsLow text offset }
    ensures { result ≡ beyond offset one_pointer }
{
    sum(
        offset,
        ArchitectureSize {
            bytes: 0,
            pointers: 1,
        },
    )
}

/// Where a word of flags stands that themselves stand at an offset.
pub(crate) fn word_offset(offset: ArchitectureSize, nth: usize) -> ArchitectureSize
    requires { bytes_at offset 8 + 4 * nth < 2 ^ 31 }
    ensures { result ≡ beyond offset (word_place nth) }
{
    sum(
        offset,
        ArchitectureSize {
            bytes: 4 * nth as u64,
            pointers: 0,
        },
    )
}

/// Where a part of a record or a tuple of the table stands, which itself stands at an offset.
pub(crate) fn part_place<B: Bindgen>(
    bindgen: &B,
    id: TypeId,
    nth: usize,
    offset: ArchitectureSize,
) -> ArchitectureSize
    requires { (types : List TypeDef) × B.meaning.knows bindgen.now types × HasLowPart types id.0 nth offset }
    ensures { (types : List TypeDef) (entry : TypeDef) → B.meaning.knows bindgen.now types → slice_get types id.0 ≡ Some entry → is_alias entry.kind ≡ false
        → (at : ArchitectureSize) × (result ≡ beyond offset at) × IsPairOf at (λ w. slice_index (field_offsets w (tree_at types id.0)) nth) }
{
    let offsets = bindgen.sizes().field_offsets_of(id);
    sum(offset, offsets[nth])
}
