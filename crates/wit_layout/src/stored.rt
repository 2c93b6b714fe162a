//! What a type takes in memory, where it is not too large.

ghost use Rattle.std.specs.Prelude.{◌≡◌, ◌≢◌, ◌^◌, ◌<◌, ◌≤◌};
ghost use Rattle.wit_layout.specs.Extent.{extent, fixed_extent};
ghost use Rattle.wit_layout.specs.inside.Grain.{exponent};
ghost use Rattle.wit_layout.specs.Sizes.{pointer_and_length};
ghost use Rattle.wit_layout.specs.inside.Spread.{bytes_of, IsSize};
ghost use Rattle.wit_model.specs.Size.{bytes_at};

use crate::grain::Grain;
use crate::spread::Spread;
use wit_model::ArchitectureSize;

/// The least number of bytes where pointers have 8 that is too large for a stored type: 2^31.
pub(crate) const TOO_LARGE: u64 = 0x8000_0000;

/// What a type takes in memory. It has at most 2^31 - 1 bytes, and where it holds a pointer it is aligned to 4 bytes at
/// least.
#[derive(Clone, Copy, Debug)]
pub(crate) struct StoredExtent {
    pub(crate) size: ArchitectureSize,
    pub(crate) grain: Grain,
    ghost padded: { exponent 2 grain < 2 → size.pointers ≡ 0 },
    ghost bounded: { bytes_at size 8 < 2 ^ 31 },
}

impl StoredExtent {
    ghost use Rattle.wit_layout.specs.inside.Stored.{seen, IsStored};

    /// A number of bytes, aligned to as many.
    pub(crate) fn number(bytes: u64, grain: Grain) -> StoredExtent
        requires { bytes < 2 ^ 31 }
        ensures four { seen 2 result ≡ extent (exponent 2 grain) bytes }
        ensures eight { seen 3 result ≡ extent (exponent 3 grain) bytes }
    {
        StoredExtent {
            size: ArchitectureSize { bytes, pointers: 0 },
            grain,
        }
    }

    /// A pointer and a length.
    pub(crate) fn pointer_and_length() -> StoredExtent
        ensures four { seen 2 result ≡ pointer_and_length 2 }
        ensures eight { seen 3 result ≡ pointer_and_length 3 }
    {
        StoredExtent {
            size: ArchitectureSize {
                bytes: 0,
                pointers: 2,
            },
            grain: Grain::Pointer,
        }
    }

    /// So many bytes with an alignment, if they can be stored.
    pub(crate) fn new(bytes: Spread, grain: Grain) -> Option<StoredExtent>
        requires size { IsSize bytes }
        requires padded { exponent 2 grain < 2 → bytes.at4 ≡ bytes.at8 }
        ensures { IsStored result (λ w. extent (exponent w grain) (bytes_of w bytes)) }
    {
        if bytes.at8 >= TOO_LARGE {
            return None;
        }
        Some(StoredExtent {
            size: bytes.size(),
            grain,
        })
    }

    /// The bytes at both widths.
    pub(crate) fn bytes(&self) -> Spread
        ensures four { result.at4 ≡ (seen 2 self.now).bytes }
        ensures eight { result.at8 ≡ (seen 3 self.now).bytes }
        ensures size { IsSize result }
    {
        Spread {
            at4: self.size.at(4),
            at8: self.size.at(8),
        }
    }

    /// So many elements one after another, if they can be stored.
    pub(crate) fn repeated(&self, n: u32) -> Option<StoredExtent>
        ensures { IsStored result (λ w. fixed_extent (seen w self.now) n) }
    {
        let n = u64::from(n);
        let bytes = Spread {
            at4: n * self.size.at(4),
            at8: n * self.size.at(8),
        };
        StoredExtent::new(bytes, self.grain)
    }
}
