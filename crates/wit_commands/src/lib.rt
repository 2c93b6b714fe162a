//! The commands of the program, over any ends.
#![tactic(auto)]

mod input;
mod made;
mod outcome;
mod run;

pub use input::{Input, InputFault2, input_of};
pub use outcome::Outcome;
pub use run::run_words;
pub use wit_ends::{
    InputFault, MemorySink, MemorySource, Sink, SinkFailed, Source, SourceFailed, StdSink,
    StdSource, read_input,
};
