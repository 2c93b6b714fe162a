//! The two ends of the program: where bytes come from and where they go, and the two loops over them.
#![tactic(auto)]

mod memory_sink;
mod memory_source;
mod read;
mod sink;
mod source;
mod std_sink;
mod std_source;
mod write;

pub use memory_sink::MemorySink;
pub use memory_source::MemorySource;
pub use read::{INPUT_LIMIT, InputFault, read_input};
pub use sink::{Sink, SinkFailed};
pub use source::{Source, SourceFailed};
pub use std_sink::StdSink;
pub use std_source::StdSource;
pub use write::write_all;
