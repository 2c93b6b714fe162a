//! Counts of bytes at both widths of a pointer.

ghost use Rattle.std.specs.Prelude.{◌≡◌, ◌+◌, ◌^◌, ◌≤◌, ◌<◌, max};
ghost use Rattle.wit_layout.specs.inside.Grain.{exponent};
ghost use Rattle.wit_layout.specs.inside.Spread.{IsSize};
ghost use Rattle.wit_model.specs.Size.{bytes_at, rounded_up};

use crate::grain::Grain;
use wit_model::{ArchitectureSize, rounded_up};

/// Bytes where pointers have 4 bytes, and where they have 8.
#[derive(Clone, Copy, Debug)]
pub(crate) struct Spread {
    pub(crate) at4: u64,
    pub(crate) at8: u64,
}

impl Spread {
    /// The same number of bytes at both widths.
    pub(crate) fn both(bytes: u64) -> Spread
        ensures four { result.at4 ≡ bytes }
        ensures eight { result.at8 ≡ bytes }
    {
        Spread {
            at4: bytes,
            at8: bytes,
        }
    }

    /// The next place with an alignment.
    #[tactic(auto, using(crate::proofs::Rounding::rounded_below))]
    pub(crate) fn aligned(self, grain: Grain) -> Spread
        requires room4 { self.at4 + 8 ≤ 2 ^ 64 }
        requires room8 { self.at8 + 8 ≤ 2 ^ 64 }
        ensures four { result.at4 ≡ rounded_up (2 ^ exponent 2 grain) self.at4 }
        ensures eight { result.at8 ≡ rounded_up (2 ^ exponent 3 grain) self.at8 }
        ensures near4 { result.at4 < self.at4 + 8 }
        ensures near8 { result.at8 < self.at8 + 8 }
        ensures size { IsSize self → IsSize result }
    {
        Spread {
            at4: rounded_up(grain.at4(), self.at4),
            at8: rounded_up(grain.at8(), self.at8),
        }
    }

    /// More bytes.
    pub(crate) fn plus(self, more: Spread) -> Spread
        requires fits4 { self.at4 + more.at4 < 2 ^ 64 }
        requires fits8 { self.at8 + more.at8 < 2 ^ 64 }
        ensures four { result.at4 ≡ self.at4 + more.at4 }
        ensures eight { result.at8 ≡ self.at8 + more.at8 }
        ensures size { IsSize self → IsSize more → IsSize result }
    {
        Spread {
            at4: self.at4 + more.at4,
            at8: self.at8 + more.at8,
        }
    }

    /// The greater number at each width.
    pub(crate) fn max(self, other: Spread) -> Spread
        ensures four { result.at4 ≡ max self.at4 other.at4 }
        ensures eight { result.at8 ≡ max self.at8 other.at8 }
    {
        Spread {
            at4: self.at4.max(other.at4),
            at8: self.at8.max(other.at8),
        }
    }

    /// As a size.
    pub(crate) fn size(self) -> ArchitectureSize
        requires { IsSize self }
        ensures four { bytes_at result 4 ≡ self.at4 }
        ensures eight { bytes_at result 8 ≡ self.at8 }
    {
        ArchitectureSize::from_widths(self.at4, self.at8)
    }
}
