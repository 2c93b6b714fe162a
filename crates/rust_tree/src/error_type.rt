//! What definitions of error types have besides.

/// What makes a record or a variant an error type: `Display`, which writes what `Debug` writes, and `Error`.
#[derive(Clone, Copy, Debug, PartialEq, Eq)]
pub struct ErrorType {
    /// Whether `Error` is there with the feature `std` alone.
    pub std_feature: bool,
}
