//! Where the parts of a record of some types stand.

ghost use Rattle.std.specs.Prelude.{◌≡◌, ◌<◌, ℕ, IsTrue, List, length, get_or, IfOk, slice_index};
ghost use Rattle.wit_model.specs.declared.types.TypeDef.{TypeDef};
ghost use Rattle.wit_model.specs.declared.size.ArchitectureSize.{ArchitectureSize};
ghost use Rattle.wit_layout.specs.Filled.{IsFilledFor, fits_in_record, have_sizes};
ghost use Rattle.wit_layout.specs.Sizes.{field_offsets};
ghost use Rattle.wit_layout.specs.Told.{IsPairOf};
ghost use Rattle.wit_layout.specs.Tree.{record_of};

use std::alloc::Global;
use wit_layout::{RunningOffset, SizeAlign};
use wit_model::{ArchitectureSize, List, OutOfMemory, WitType};

/// The places of these types in a record of all of them, which has at most 2^31 - 1 bytes where pointers have 8.
pub(crate) fn record_places(
    alloc: Global,
    sizes: &SizeAlign,
    types: &[WitType],
) -> Result<List<ArchitectureSize>, OutOfMemory>
    requires sizes { IsTrue (have_sizes sizes.now types.now) }
    requires small { IsTrue (fits_in_record sizes.now types.now) }
    ensures count { IfOk result (λ places. length places ≡ length types.now) }
    ensures each { IfOk result (λ places. (table : List TypeDef) (n : ℕ) (d : ArchitectureSize) → IsFilledFor sizes.now table → n < length types.now
        → IsPairOf (get_or places n d) (λ w. slice_index (field_offsets w (record_of table types.now)) n)) }
{
    let mut running = RunningOffset::new();
    let mut places = List::new(alloc);
    for _ in 0..types.len() {
        let place = sizes.next_offset(types, &mut running);
        places.push(place)?;
    }
    Ok(places)
}
