//! What makes code of the instructions by which values are passed, its laws, and how values become core words over any that keeps them.
#![tactic(auto)]

mod bindgen;
mod casts;
mod has_list;
mod instruction;
mod lower;
mod number;
mod parts;
mod sending;

pub use bindgen::{Asked, Bindgen, Operand};
pub use casts::cast_words;
pub use has_list::{guest_export_needs_post_return, id_has_list};
pub use instruction::Instruction;
pub use lower::leaf::{lower_by, scalar_lowering};
pub use lower::lower_flat;
pub use lower::variants::{case_lowering, kind_payloads};
pub use number::{number_load, number_store, tag_load, tag_store};
pub use parts::{field_types, param_types, part_count};
pub use sending::{argument, only, push_copies, send, send_one};
