//! Exit statuses.

ghost use Rattle.std.specs.Prelude.{◌≡◌};
ghost use Rattle.wit_refusal.specs.Status.{gen_status_of};

use gen_accept::GenError;

/// The exit status for a refusal of the generator.
pub(crate) fn gen_status(error: &GenError) -> u8
    ensures { result ≡ gen_status_of error.now }
{
    match error {
        GenError::InvalidWorld { .. } => 6,
        GenError::InvalidOption { .. } => 7,
        GenError::MissingWith(_) => 8,
        GenError::TooLarge(_) => 9,
        GenError::Unsupported { .. } => 10,
        GenError::NameClash(_) => 11,
        GenError::UnusedWith(_) => 12,
        GenError::UnusedSelector(_) => 13,
        GenError::UnusedChainable(_) => 14,
        GenError::OutOfMemory => 16,
    }
}
