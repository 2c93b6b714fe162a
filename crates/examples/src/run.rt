//! A run of the program's command over ends in memory.

use std::alloc::Global;
use wit_commands::run_words;
use wit_ends::{MemorySink, MemorySource};
use wit_model::{List, OutOfMemory, Text};

/// The most bytes that a sink here takes.
const ROOM: usize = 1_000_000;

/// The most bytes that move in a call.
const MOST: usize = 4096;

fn sink(alloc: Global) -> Result<MemorySink, OutOfMemory> {
    MemorySink::new(alloc, ROOM, List::new(alloc), MOST)
}

fn generate(alloc: Global) -> Result<List<Text>, OutOfMemory> {
    let mut words = List::new(alloc);
    words.push(Text::from_str(alloc, "generate")?)?;
    Ok(words)
}

/// Runs the command on a document, and answers the status.
fn run(
    alloc: Global,
    document: &[u8],
    out: &mut MemorySink,
    fault: &mut MemorySink,
) -> Result<u8, OutOfMemory> {
    let words = generate(alloc)?;
    let bytes = List::from_slice(alloc, document)?;
    let mut source = MemorySource::new(bytes, List::new(alloc), MOST);
    let outcome = run_words(alloc, words.as_slice(), &mut source, out, fault);
    Ok(outcome.status)
}

fn push_status(told: &mut Vec<u8>, status: u8) -> Result<(), OutOfMemory> {
    let line = format!(in *told.allocator(); "{status}\n")?;
    told.extend_from_slice(line.as_bytes())?;
    Ok(())
}

/// With status 0 what was printed, and else a line with the status and the line on standard error. What stands on the
/// other of the two comes last, so that it shows.
fn joined(alloc: Global, status: u8, printed: &[u8], line: &[u8]) -> Result<Vec<u8>, OutOfMemory> {
    let mut told = Vec::new(alloc);
    if status == 0 {
        told.extend_from_slice(printed)?;
        told.extend_from_slice(line)?;
    } else {
        push_status(&mut told, status)?;
        told.extend_from_slice(line)?;
        told.extend_from_slice(printed)?;
    }
    Ok(told)
}

/// All that a run writes, with the status where it is not 0.
pub(crate) fn told(alloc: Global, document: &[u8]) -> Result<Vec<u8>, OutOfMemory> {
    let mut out = sink(alloc)?;
    let mut fault = sink(alloc)?;
    let status = run(alloc, document, &mut out, &mut fault)?;
    joined(alloc, status, out.bytes(), fault.bytes())
}
