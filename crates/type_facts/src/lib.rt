//! Facts on the types of a world: what each reaches, and where it is used.
#![tactic(auto)]

mod info;
mod marks;
mod reach;
mod side;
mod types;
mod uses;

pub use info::TypeInfo;
pub use types::Types;
