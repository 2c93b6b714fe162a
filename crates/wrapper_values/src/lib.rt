//! The values of the machine: what they are, what they own, the locals that hold them, and what the forms of the tree do to
//! them.
#![tactic(auto)]

mod casts;
mod conversion;
mod core_words;
mod enums;
mod fields;
mod flags;
mod locals;
mod matches;
mod owned;
mod owning;
mod parts;
mod printed;
mod state;
mod typed;
mod variants;
mod views;

pub use casts::cast_to;
pub use conversion::{converted, lift_of, word_of_bool};
pub use core_words::{CoreFn, called_on, core_word, zero_word};
pub use enums::{enum_lift_of, is_enum, word_of_case};
pub use flags::flags_from;
pub use locals::{
    ask_local, bind, declare, import_named, lend_local, local_named, use_local, value_named,
    write_slot,
};
pub use matches::{assert_last, bind_results, enter_arm, takes};
pub use owning::{View, is_taken, taken_by};
pub use parts::{record_of, take_apart, whole_of};
pub use printed::is_unit;
pub use state::{Halt, Local, State, Val, World};
pub use typed::answer_in;
pub use variants::{bare_case, full_case, number_at_root, number_in_core};
pub use views::{integer_of, is_word_of, word_of};
