//! What a run of the program answers.

use rust_tree::Bindings;

/// What a run answers.
#[derive(Debug, Drop)]
pub struct Outcome {
    /// The exit status.
    pub status: u8,
    /// The tree whose text was written, exactly where the status is 0.
    pub bindings: Option<Bindings>,
}
