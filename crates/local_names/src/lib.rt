//! The names of a wrapper's locals.
#![tactic(auto)]

mod names;

pub use names::Names;
