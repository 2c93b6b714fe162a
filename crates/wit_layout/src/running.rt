//! Along the fields of a record, one place after another.

ghost use Rattle.std.specs.Prelude.{◌≡◌, ◌+◌, ◌<◌, IsTrue, List, length, slice_index};
ghost use Rattle.wit_model.specs.declared.types.TypeDef.{TypeDef};
ghost use Rattle.wit_model.specs.declared.types.WitType.{WitType};
ghost use Rattle.wit_layout.specs.declared.size_align.SizeAlign.{SizeAlign};
ghost use Rattle.wit_layout.specs.Filled.{IsBehind, IsFilledFor, fits_in_record, have_sizes};
ghost use Rattle.wit_layout.specs.Sizes.{field_offsets};
ghost use Rattle.wit_layout.specs.Told.{IsPairOf};
ghost use Rattle.wit_layout.specs.Tree.{record_of};

use crate::kind::extent_of;
use crate::running_offset::RunningOffset;
use crate::size_align::SizeAlign;
use crate::spread::Spread;
use wit_model::{ArchitectureSize, WitType};

impl RunningOffset {
    /// Before the first field of any record.
    pub fn new() -> RunningOffset
        ensures behind { (sizes : SizeAlign) (types : List WitType) → IsBehind sizes types result }
        ensures nth { result.nth ≡ 0 }
    {
        RunningOffset {
            nth: 0,
            end: Spread::both(0),
        }
    }
}

impl SizeAlign {
    /// Where the next of these types stands in a record of all of them, which has at most 2^31 - 1 bytes where pointers
    /// have 8, as [`SizeAlign::fits_in_record`] tests. It is the place that [`SizeAlign::offset_in`] finds from the first
    /// type on; here it is found from the last place, in a time that does not depend on how many lie behind.
    pub fn next_offset(&self, types: &[WitType], running: &mut RunningOffset) -> ArchitectureSize
        requires sizes { IsTrue (have_sizes self.now types.now) }
        requires room { IsTrue (fits_in_record self.now types.now) }
        requires within { running.old.nth < length types.now }
        requires behind { IsBehind self.now types.now running.old }
        ensures offset { (table : List TypeDef) → IsFilledFor self.now table
            → IsPairOf result (λ w. slice_index (field_offsets w (record_of table types.now)) running.old.nth) }
        ensures behind { IsBehind self.now types.now running.new }
        ensures nth { running.new.nth ≡ running.old.nth + 1 }
    {
        let here = extent_of(self.layouts.as_slice(), types[running.nth]);
        let place = running.end.aligned(here.grain);
        *running = RunningOffset {
            nth: running.nth + 1,
            end: place.plus(here.bytes()),
        };
        place.size()
    }
}
