//! The generated files: names in byte order, each with its bytes.
#![tactic(auto)]

mod entries;
mod files;

pub use files::Files;
