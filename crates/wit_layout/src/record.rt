//! Sizes and places of records of several types.

ghost use Rattle.std.specs.Prelude.{◌≡◌, ◌^◌, ◌<◌, ◌≤◌, IsTrue, List, Some, length, nat_lt, slice_get, slice_index};
ghost use Rattle.wit_model.specs.declared.types.TypeDef.{TypeDef};
ghost use Rattle.wit_layout.specs.Extent.{extent, end, greatest, record_of_grain};
ghost use Rattle.wit_layout.specs.Filled.{
  IsFilledFor,
  IsMeasurable,
  EndsInRoom,
  has_size,
  have_sizes,
  members_seen,
  fits_in_record,
};
ghost use Rattle.wit_layout.specs.inside.Grain.{exponent};
ghost use Rattle.wit_layout.specs.Sizes.{elem_size, alignment, field_offsets};
ghost use Rattle.wit_layout.specs.Told.{IsPairOf, IsAlignmentOf};
ghost use Rattle.wit_layout.specs.Tree.{record_of};

use crate::kind::extent_of;
use crate::parts::Parts;
use crate::size_align::SizeAlign;
use crate::stored::TOO_LARGE;
use wit_model::{Alignment, ArchitectureSize, WitType};

impl SizeAlign {
    /// Whether a record of these types has at most 2^31 - 1 bytes where pointers have 8, and so where they have 4.
    pub fn fits_in_record(&self, types: &[WitType]) -> bool
        requires { IsTrue (have_sizes self.now types.now) }
        ensures parts { result ≡ fits_in_record self.now types.now }
        ensures record { (table : List TypeDef) → IsFilledFor self.now table
            → result ≡ nat_lt (elem_size 3 (record_of table types.now)) (2 ^ 31) }
    {
        self.is_small_record(types)
    }

    fn is_small_record(&self, types: &[WitType]) -> bool
        requires { IsTrue (have_sizes self.now types.now) }
        ensures { result ≡ fits_in_record self.now types.now }
    {
        let mut all = Parts::none();
        for ty in types {
            if all.end.at8 >= TOO_LARGE {
                return false;
            }
            all = all.with(extent_of(self.layouts.as_slice(), *ty));
        }
        is_small(&all)
    }

    fn members(&self, types: &[WitType]) -> Parts
        requires sizes { IsTrue (have_sizes self.now types.now) }
        requires room { EndsInRoom self.now types.now }
        ensures end4 { result.end.at4 ≡ end (members_seen 2 self.now types.now) 0 }
        ensures end8 { result.end.at8 ≡ end (members_seen 3 self.now types.now) 0 }
        ensures greatest4 { extent (exponent 2 result.grain) result.largest.at4
            ≡ greatest (members_seen 2 self.now types.now) }
        ensures greatest8 { extent (exponent 3 result.grain) result.largest.at8
            ≡ greatest (members_seen 3 self.now types.now) }
        ensures bounded { result.end.at8 ≤ 2 ^ 33 }
    {
        let mut all = Parts::none();
        for ty in types {
            all = all.with(extent_of(self.layouts.as_slice(), *ty));
        }
        all
    }

    /// The size and the alignment of a record of these types. There are at most two of them, or the record has at most
    /// 2^31 - 1 bytes where pointers have 8, which [`SizeAlign::fits_in_record`] tests.
    pub fn record_of(&self, types: &[WitType]) -> (ArchitectureSize, Alignment)
        requires sizes { IsTrue (have_sizes self.now types.now) }
        requires room { IsMeasurable self.now types.now }
        ensures size { (table : List TypeDef) → IsFilledFor self.now table
            → IsPairOf result.0 (λ w. elem_size w (record_of table types.now)) }
        ensures align { (table : List TypeDef) → IsFilledFor self.now table
            → IsAlignmentOf result.1 (λ w. alignment w (record_of table types.now)) }
    {
        let all = self.members(types);
        (all.end.aligned(all.grain).size(), all.grain.alignment())
    }

    /// Where the type at a place among these types stands in a record of all of them, counted from 0. There are at most
    /// two of them, or the record has at most 2^31 - 1 bytes where pointers have 8.
    pub fn offset_in(&self, types: &[WitType], nth: usize) -> ArchitectureSize
        requires sizes { IsTrue (have_sizes self.now types.now) }
        requires room { IsMeasurable self.now types.now }
        requires within { nth < length types.now }
        ensures { (table : List TypeDef) → IsFilledFor self.now table
            → IsPairOf result (λ w. slice_index (field_offsets w (record_of table types.now)) nth) }
    {
        let before = self.members(&types[..nth]);
        let here = extent_of(self.layouts.as_slice(), types[nth]);
        before.end.aligned(here.grain).size()
    }
}

/// Whether a record of the parts has at most 2^31 - 1 bytes where pointers have 8.
fn is_small(all: &Parts) -> bool
    ensures { result ≡ nat_lt (record_of_grain (exponent 3 all.now.grain) all.now.end.at8).bytes (2 ^ 31) }
{
    if all.end.at8 >= TOO_LARGE {
        return false;
    }
    all.end.aligned(all.grain).at8 < TOO_LARGE
}
