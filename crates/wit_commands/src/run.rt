//! The whole run of the words.

ghost use Rattle.std.specs.Prelude.{◌≡◌, ℕ, IfOk, IfErr, OnOk, OnErr};
ghost use Rattle.rust_tree.specs.Text.{text};
ghost use Rattle.wit_refusal.specs.declared.refusal.Refusal.{Refusal};
ghost use Rattle.wit_refusal.specs.Line.{line_of};
ghost use Rattle.wit_refusal.specs.Status.{status_of};
ghost use Rattle.wit_commands.specs.Made.{only_bytes};
ghost use Rattle.wit_commands.specs.Outcome.{Came, IsCause, IsOutcome, IsReadCause, IsRefusal, IsTold, IsUntouched, MakesOf, Reports, Succeeds, TakesAll, TakesPart, across};
ghost use Rattle.wit_commands.specs.Words.{is_generate};

use crate::made::{Made, make, only_file};
use crate::outcome::Outcome;
use rust_tree::Bindings;
use std::alloc::Global;
use wit_ends::{InputFault, Sink, SinkFailed, Source, read_input, write_all};
use wit_model::{List, OutOfMemory, Text};
use wit_refusal::{Refusal, out_of_memory_line, write_fault_line};

#[tactic(auto, unfolding(crate::specs::Words::is_generate))]
fn is_generate(words: &[Text]) -> bool
    ensures { result ≡ is_generate words.now }
{
    match words {
        [word] => word.as_str() == "generate",
        _ => false,
    }
}

fn read_all<S: Source>(alloc: Global, source: &mut S) -> Result<List<u8>, Refusal>
    ensures came { IfOk result
        (Came (across S.left S.faults source.old source.new)) }
    ensures err { IfErr result
        (IsReadCause (across S.left S.faults source.old source.new)) }
{
    match read_input(alloc, source) {
        Ok(bytes) => Ok(bytes),
        Err(InputFault::ReadFault) => Err(Refusal::ReadFault),
        Err(InputFault::InputTooLong) => Err(Refusal::InputTooLong),
        Err(InputFault::OutOfMemory) => Err(Refusal::OutOfMemory),
    }
}

/// The tree that the words and the source ask for, and its file.
fn made_of<S: Source>(alloc: Global, words: &[Text], source: &mut S) -> Result<Made, Refusal>
    ensures ok { IfOk result
        (λ made. MakesOf words.now (across S.left S.faults source.old source.new) made.tree) }
    ensures file { IfOk result (λ made. only_bytes made.files ≡ text made.tree) }
    ensures err { IfErr result
        (IsCause words.now (across S.left S.faults source.old source.new)) }
{
    if !is_generate(words) {
        return Err(Refusal::Usage);
    }
    let bytes = read_all(alloc, source)?;
    let made = make(alloc, bytes.as_slice())?;
    Ok(made)
}

fn put<K: Sink>(sink: &mut K, bytes: &[u8]) -> Result<(), SinkFailed>
    ensures ok { OnOk result
        (TakesAll (across K.taken K.faults sink.old sink.new) bytes.now) }
    ensures err { OnErr result
        (TakesPart (across K.taken K.faults sink.old sink.new) bytes.now) }
{
    write_all(sink, bytes)
}

fn run<S: Source, K: Sink>(
    alloc: Global,
    words: &[Text],
    source: &mut S,
    out: &mut K,
) -> Result<Bindings, Refusal>
    ensures ok { IfOk result
        (Succeeds words.now (across S.left S.faults source.old source.new)
        (across K.taken K.faults out.old out.new)) }
    ensures err { IfErr result
        (IsRefusal words.now (across S.left S.faults source.old source.new)
        (across K.taken K.faults out.old out.new)) }
{
    let Made { tree, files } = made_of(alloc, words, source)?;
    match put(out, only_file(&files)) {
        Ok(()) => Ok(tree),
        Err(SinkFailed) => Err(Refusal::WriteFault),
    }
}

fn tell<E: Sink>(fault: &mut E, line: &str)
    ensures { IsTold (across E.taken E.faults fault.old fault.new) line.now }
{
    let _ = put(fault, line.as_bytes());
}

/// Tells a refusal, and answers its status. Where there is no memory for the line, that is told; a write fault's line
/// takes none.
fn report<E: Sink>(alloc: Global, fault: &mut E, refusal: &Refusal) -> u8
    ensures { Reports refusal.now (across E.taken E.faults fault.old fault.new) result }
{
    match refusal {
        Refusal::WriteFault => {
            tell(fault, write_fault_line());
            Refusal::WriteFault.status()
        }
        _ => match refusal.line(alloc) {
            Ok(line) => {
                tell(fault, line.as_str());
                refusal.status()
            }
            Err(OutOfMemory) => {
                tell(fault, out_of_memory_line());
                Refusal::OutOfMemory.status()
            }
        },
    }
}

/// Runs the words. The words `generate` alone read the source to its end as a document, make the tree that it asks for,
/// and only then write the tree's text, which takes no memory. Every other answer tells the fault sink one line; whether
/// that sink fails changes no status. Words that are no command leave the source untouched; a reading that ends early has
/// taken at most one byte more than an input may have.
pub fn run_words<S: Source, K: Sink, E: Sink>(
    alloc: Global,
    words: &[Text],
    source: &mut S,
    out: &mut K,
    fault: &mut E,
) -> Outcome
    ensures { IsOutcome words.now
        (across S.left S.faults source.old source.new)
        (across K.taken K.faults out.old out.new)
        (across E.taken E.faults fault.old fault.new)
        result }
{
    match run(alloc, words, source, out) {
        Ok(tree) => Outcome {
            status: 0,
            bindings: Some(tree),
        },
        Err(refusal) => Outcome {
            status: report(alloc, fault, &refusal),
            bindings: None,
        },
    }
}
