//! Why the program makes no file, as an exit status and as a line.
#![tactic(auto)]

mod fixed;
mod gen_line;
mod names;
mod quote;
mod refusal;
mod status;
mod word;

pub use fixed::{out_of_memory_line, write_fault_line};
pub use refusal::Refusal;
