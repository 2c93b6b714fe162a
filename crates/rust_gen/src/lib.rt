//! The generator: from a checked world and options to the tree of its bindings file and the file's text.
#![tactic(auto)]

mod code_law;
mod export;
mod exported;
mod fixed_name;
mod generate;
mod import;
mod post_return;
mod runtime;
mod signature;
mod sites;
mod tables;
mod tree;
mod wrappers;

pub use code_law::one_code_law;
pub use gen_accept::{
    ChainingMode, Clash, Entry, ExportKey, GenError, Lack, MissingWith, Opts, TooLarge, WithOption,
};
pub use gen_files::Files;
pub use generate::{Build, RustWasm};
pub use rust_tree::to_rust_ident;
pub use type_defs::{Ownership, OwnershipFault};
