//! The parts of a type together: their end, and the greatest of their sizes and alignments.

ghost use Rattle.std.specs.Prelude.{◌≡◌, ◌+◌, ◌-◌, ◌^◌, ◌<◌, ◌≤◌};
ghost use Rattle.wit_layout.specs.Extent.{extent, place, greater, record_of_grain, discriminant_grain, payload_place, variant_extent};
ghost use Rattle.wit_layout.specs.inside.Grain.{exponent};
ghost use Rattle.wit_layout.specs.inside.Spread.{bytes_of, Grows, IsSize};

use crate::grain::Grain;
use crate::spread::Spread;
use crate::stored::StoredExtent;

/// Some parts of a type: where they end if they stand one after another, the greatest of their sizes, and the greatest of
/// their alignments.
#[derive(Clone, Copy)]
pub(crate) struct Parts {
    pub(crate) end: Spread,
    pub(crate) largest: Spread,
    pub(crate) grain: Grain,
    ghost end_is_size: { IsSize end },
    ghost end_padded: { exponent 2 grain < 2 → end.at4 ≡ end.at8 },
    ghost largest_grows: { Grows largest },
    ghost largest_padded: { exponent 2 grain < 2 → largest.at4 ≡ largest.at8 },
    ghost largest_bounded: { largest.at8 < 2 ^ 31 },
}

impl Parts {
    ghost use Rattle.wit_layout.specs.inside.Stored.{seen, IsStored};

    /// No part.
    pub(crate) fn none() -> Parts
        ensures end4 { result.end.at4 ≡ 0 }
        ensures end8 { result.end.at8 ≡ 0 }
        ensures greatest4 { extent (exponent 2 result.grain) result.largest.at4 ≡ extent 0 0 }
        ensures greatest8 { extent (exponent 3 result.grain) result.largest.at8 ≡ extent 0 0 }
    {
        Parts {
            end: Spread::both(0),
            largest: Spread::both(0),
            grain: Grain::One,
        }
    }

    /// The parts, and one more behind them.
    pub(crate) fn with(self, part: StoredExtent) -> Parts
        requires { self.end.at8 + 2 ^ 32 ≤ 2 ^ 64 }
        ensures end4 { result.end.at4 ≡ place (seen 2 part) self.end.at4 + (seen 2 part).bytes }
        ensures end8 { result.end.at8 ≡ place (seen 3 part) self.end.at8 + (seen 3 part).bytes }
        ensures greatest4 { extent (exponent 2 result.grain) result.largest.at4
            ≡ greater (extent (exponent 2 self.grain) self.largest.at4) (seen 2 part) }
        ensures greatest8 { extent (exponent 3 result.grain) result.largest.at8
            ≡ greater (extent (exponent 3 self.grain) self.largest.at8) (seen 3 part) }
        ensures bounded { result.end.at8 ≤ self.end.at8 + 2 ^ 32 }
    {
        let bytes = part.bytes();
        Parts {
            end: self.end.aligned(part.grain).plus(bytes),
            largest: self.largest.max(bytes),
            grain: self.grain.max(part.grain),
        }
    }

    /// What a record of the parts takes, if it can be stored.
    pub(crate) fn record(self) -> Option<StoredExtent>
        requires { self.end.at8 + 8 ≤ 2 ^ 64 }
        ensures { IsStored result (λ w. record_of_grain (exponent w self.grain) (bytes_of w self.end)) }
    {
        StoredExtent::new(self.end.aligned(self.grain), self.grain)
    }

    /// Where the payload of each of so many cases stands, whose payloads are the parts.
    pub(crate) fn payload(self, cases: usize) -> Spread
        ensures four { result.at4 ≡ payload_place cases (extent (exponent 2 self.grain) self.largest.at4) }
        ensures eight { result.at8 ≡ payload_place cases (extent (exponent 3 self.grain) self.largest.at8) }
        ensures size { IsSize result }
        ensures padded { exponent 2 self.grain < 2 → result.at4 ≡ result.at8 }
        ensures bounded { result.at8 ≤ 16 }
    {
        Spread::both(discriminant_grain(cases).at4()).aligned(self.grain)
    }

    /// What a variant of so many cases takes, whose payloads are the parts, if it can be stored.
    pub(crate) fn variant(self, cases: usize) -> Option<StoredExtent>
        ensures { IsStored result
            (λ w. variant_extent cases (extent (exponent w self.grain) (bytes_of w self.largest))) }
    {
        let grain = discriminant_grain(cases).max(self.grain);
        let end = self.payload(cases).plus(self.largest);
        StoredExtent::new(end.aligned(grain), grain)
    }
}

/// The alignment of the discriminant of so many cases, which has as many bytes: the Canonical ABI's `discriminant_type`.
fn discriminant_grain(cases: usize) -> Grain
    ensures four { exponent 2 result ≡ discriminant_grain cases }
    ensures eight { exponent 3 result ≡ discriminant_grain cases }
{
    match cases {
        0..=256 => Grain::One,
        257..=65536 => Grain::Two,
        _ => Grain::Four,
    }
}
