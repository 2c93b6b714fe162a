//! What a WIT value is, which memory, core words and values of the Rust side represent it, and what the two sides of a call owe
//! one another. The definitions are in `specs/`; the functions are laws of them.
#![tactic(auto)]

mod laws;

pub use laws::{
    canonical_law, canonical_list_law, layout_law, made_law, map_law, memory_law, no_blocks_law,
    permutation_law, post_return_law, rust_value_law, shape_law, signature_law, words_law,
};
