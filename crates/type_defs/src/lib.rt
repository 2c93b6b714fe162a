//! The definitions of a world's own types: which types may be defined, which are, and what each definition prints.
#![tactic(auto)]

mod define;
mod docs;
mod levels;
mod listed_types;
mod listing;
mod lists;
mod nodes;
mod ownership;
mod paths;
mod printed;
mod printed_count;
mod type_names;
mod type_opts;
mod used;

pub use define::{definitions_of, enum_repr, flags_repr, is_used, param_type, part_type};
pub use docs::doc_lines;
pub use levels::first_deep;
pub use listing::are_listed_well;
pub use lists::{one, two};
pub use nodes::{has_few_nodes, node_counts};
pub use ownership::{Ownership, OwnershipFault};
pub use paths::local_path;
pub use printed::printed_type;
pub use type_names::are_type_names;
pub use type_opts::TypeOpts;
pub use used::{defined_types, type_name};
