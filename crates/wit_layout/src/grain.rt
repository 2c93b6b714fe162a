//! Alignments, in bytes.

ghost use Rattle.std.specs.Prelude.{◌≡◌, ◌^◌, ◌<◌, ◌≤◌, max};
ghost use Rattle.wit_layout.specs.inside.Grain.{exponent};
ghost use Rattle.wit_model.specs.Size.{alignment_at};

use wit_model::Alignment;

/// An alignment that types have, in bytes.
#[derive(Clone, Copy, Debug)]
pub(crate) enum Grain {
    One,
    Two,
    Four,
    Pointer,
    Eight,
}

impl Grain {
    /// In bytes, where a pointer has 4.
    pub(crate) fn at4(self) -> u64
        ensures value { result ≡ 2 ^ exponent 2 self }
        ensures some { 0 < result }
        ensures bounded { result ≤ 8 }
    {
        match self {
            Grain::One => 1,
            Grain::Two => 2,
            Grain::Four | Grain::Pointer => 4,
            Grain::Eight => 8,
        }
    }

    /// In bytes, where a pointer has 8.
    pub(crate) fn at8(self) -> u64
        ensures value { result ≡ 2 ^ exponent 3 self }
        ensures some { 0 < result }
        ensures bounded { result ≤ 8 }
    {
        match self {
            Grain::One => 1,
            Grain::Two => 2,
            Grain::Four => 4,
            Grain::Pointer | Grain::Eight => 8,
        }
    }

    /// The greater alignment.
    pub(crate) fn max(self, other: Grain) -> Grain
        ensures four { exponent 2 result ≡ max (exponent 2 self) (exponent 2 other) }
        ensures eight { exponent 3 result ≡ max (exponent 3 self) (exponent 3 other) }
    {
        match (self, other) {
            (Grain::Eight, _) | (_, Grain::Eight) => Grain::Eight,
            (Grain::Pointer, _) | (_, Grain::Pointer) => Grain::Pointer,
            (Grain::Four, _) | (_, Grain::Four) => Grain::Four,
            (Grain::Two, _) | (_, Grain::Two) => Grain::Two,
            (Grain::One, Grain::One) => Grain::One,
        }
    }

    /// The alignment as users of the crate see it.
    pub(crate) fn alignment(self) -> Alignment
        ensures four { alignment_at result 4 ≡ 2 ^ exponent 2 self }
        ensures eight { alignment_at result 8 ≡ 2 ^ exponent 3 self }
    {
        match self {
            Grain::One => Alignment::Bytes(1),
            Grain::Two => Alignment::Bytes(2),
            Grain::Four => Alignment::Bytes(4),
            Grain::Pointer => Alignment::Pointer,
            Grain::Eight => Alignment::Bytes(8),
        }
    }
}
