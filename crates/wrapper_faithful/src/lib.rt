//! What it means that a wrapper is faithful to its function, for all types. The definitions are in `specs/`; the functions are laws of
//! them.
#![tactic(auto)]

mod laws;

pub use laws::{handle_law, heap_law, round_law, unreturned_law};
