//! The statement machine: runs of wrappers, over the finished tree.
#![tactic(auto)]

mod blocks;
mod body;
mod call;
mod callee;
mod casts;
mod eval;
mod export;
mod freeing;
mod laws;
mod memory;
mod method;
mod places;
mod post_return;
mod run;
mod small;
mod store;

pub use export::{are_words_of, export_at, run_export};
pub use laws::{beside_law, growth_law, inward_law, outer_law, unused_law};
pub use post_return::{has_post_return, run_post_return};
pub use run::{import_at, run_import};
pub use wrapper_data::{
    Answer, Block, CallPoint, Choice, Choices, Form, Heap, Request, Run, RustValue, Stop, Target,
    TrapKind, Word,
};
pub use wrapper_values::{Local, State, Val, is_word_of};
