//! Makes the Rust bindings file of a resolved WIT world: the document comes in on standard input, the file goes out.
#![tactic(auto)]

mod answer;
mod words;

use answer::exit_code_of;
use std::process::ExitCode;
use wit_ends::{StdSink, StdSource};
use words::words_of;

// The entry function takes no clause, and none could name the words of a process or what its ends give and take: what can be
// said of a run stands at `exit_code_of`.
fn main(rt: HostRuntime) -> ExitCode {
    exit_code_of(
        rt.alloc(),
        words_of(&rt),
        &mut StdSource::new(rt.stdin()),
        &mut StdSink::new(rt.stdout()),
        &mut StdSink::new(rt.stderr()),
    )
}
