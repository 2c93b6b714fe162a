//! From the words to the exit code.

ghost use Rattle.std.specs.Process.{exit_status};
ghost use Rattle.wit_commands.specs.Outcome.{across};
ghost use Rattle.wit_program.specs.Answer.{Answers};

use std::alloc::Global;
use std::process::ExitCode;
use wit_commands::run_words;
use wit_ends::{Sink, Source};
use wit_model::{List, OutOfMemory, Text};
use wit_refusal::Refusal;

/// The exit code of a run of the words. Where there was no memory for them, nothing is read or written.
pub(crate) fn exit_code_of<S: Source, K: Sink, E: Sink>(
    alloc: Global,
    words: Result<List<Text>, OutOfMemory>,
    source: &mut S,
    out: &mut K,
    fault: &mut E,
) -> ExitCode
    ensures { Answers words
        (across S.left S.faults source.old source.new)
        (across K.taken K.faults out.old out.new)
        (across E.taken E.faults fault.old fault.new)
        (exit_status result) }
{
    match words {
        Ok(words) => {
            let outcome = run_words(alloc, words.as_slice(), source, out, fault);
            ExitCode::from(outcome.status)
        }
        Err(OutOfMemory) => ExitCode::from(Refusal::OutOfMemory.status()),
    }
}
