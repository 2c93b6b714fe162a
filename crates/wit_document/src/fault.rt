//! Why bytes are no document.

use thiserror::Error;
use wit_model::OutOfMemory;

/// Why no document was read.
#[derive(Clone, Copy, Debug, PartialEq, Eq, Error)]
pub enum DocumentFault {
    /// The bytes are not a document.
    #[error("the input is not a document of a resolved world")]
    BadJson,
    /// There is no memory for the document.
    #[error("out of memory")]
    OutOfMemory,
}

impl From<OutOfMemory> for DocumentFault {
    ghost use Rattle.std.specs.Prelude.{◌≡◌};
    ghost use Rattle.wit_document.specs.declared.fault.DocumentFault.TheVariants.{OutOfMemory};

    ghost from_gives = { λ _ e. e ≡ OutOfMemory };

    fn from(_refused: OutOfMemory) -> DocumentFault {
        DocumentFault::OutOfMemory
    }
}
