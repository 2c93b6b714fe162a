//! What a run of a wrapper is about: heaps, words, Rust values, choices, answers, and the run itself.
#![tactic(auto)]

mod answer;
mod answered;
mod block;
mod choice;
mod form;
mod heap;
mod run;
mod value;
mod word;

pub use answer::Answer;
pub use block::Block;
pub use choice::{Choice, Choices, Request};
pub use form::Form;
pub use heap::Heap;
pub use run::{CallPoint, Run, Stop, Target, TrapKind};
pub use value::RustValue;
pub use word::{Word, low_word};
