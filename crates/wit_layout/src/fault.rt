//! Why a table has no sizes.

use thiserror::Error;
use wit_model::{OutOfMemory, TypeId};

/// Why a table has no sizes. The texts are for who shows or logs a fault as it is, as of any error type; what a refusal of
/// the program says is decided where it is told.
#[derive(Clone, Copy, Debug, PartialEq, Eq, Error)]
pub enum LayoutFault {
    /// The first type that has more than 2^31 - 1 bytes where pointers have 8.
    #[error("a stored type is too large")]
    TooLarge(TypeId),
    /// There is no memory for the sizes.
    #[error("out of memory")]
    OutOfMemory,
}

impl From<OutOfMemory> for LayoutFault {
    ghost use Rattle.std.specs.Prelude.{◌≡◌};
    ghost use Rattle.wit_layout.specs.declared.fault.LayoutFault.TheVariants.{OutOfMemory};

    ghost from_gives = { λ _ e. e ≡ OutOfMemory };

    fn from(_refused: OutOfMemory) -> LayoutFault {
        LayoutFault::OutOfMemory
    }
}
