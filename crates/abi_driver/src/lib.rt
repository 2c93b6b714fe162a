//! The driver: it sends the instructions by which the values of a call are passed, to any lawful `Bindgen`.
#![tactic(auto)]

mod after_return;
mod calls;
mod dealloc;
mod lift;
mod memory;

pub use abi_bindgen::{Bindgen, Instruction, Operand, guest_export_needs_post_return, lower_flat};
pub use after_return::post_return;
pub use calls::{LiftLower, call};
pub use dealloc::deallocate_lists_in_types;
pub use lift::lift_flat;
pub use memory::{lift_from_memory, lower_to_memory};
pub use wit_layout::AbiVariant;
