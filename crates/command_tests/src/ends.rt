//! Ends in memory that fail, and what a run over them leaves.

use std::alloc::Global;
use wit_commands::run_words;
use wit_ends::{MemorySink, MemorySource};
use wit_model::{List, OutOfMemory, Text};

/// How an end fails: which of its calls do, counted from 1, and the most bytes that another call moves.
#[derive(Clone, Copy)]
pub(crate) struct End<'a> {
    pub(crate) fails: &'a [u64],
    pub(crate) most: usize,
}

/// An end that never fails.
pub(crate) const SOUND: End<'static> = End {
    fails: &[],
    most: 100_000_000,
};

/// The three ends of a run.
#[derive(Drop)]
struct Ends {
    source: MemorySource,
    out: MemorySink,
    fault: MemorySink,
}

/// What a run leaves: its status, how many bytes the source has left, and how many each sink has taken.
#[derive(Clone, Copy, PartialEq, Debug)]
pub(crate) struct Left {
    pub(crate) status: u8,
    pub(crate) source: usize,
    pub(crate) out: usize,
    pub(crate) fault: usize,
}

fn source(alloc: Global, bytes: &[u8], end: End<'_>) -> Result<MemorySource, OutOfMemory> {
    let bytes = List::from_slice(alloc, bytes)?;
    let fails = List::from_slice(alloc, end.fails)?;
    Ok(MemorySource::new(bytes, fails, end.most.max(1)))
}

fn sink(alloc: Global, end: End<'_>) -> Result<MemorySink, OutOfMemory> {
    MemorySink::new(alloc, 4096, List::from_slice(alloc, end.fails)?, end.most)
}

pub(crate) fn texts(alloc: Global, words: &[&str]) -> Result<List<Text>, OutOfMemory> {
    let mut list = List::new(alloc);
    for word in words {
        list.push(Text::from_str(alloc, word)?)?;
    }
    Ok(list)
}

/// Runs the words over the ends, and gives the status.
fn run(alloc: Global, words: &[&str], ends: &mut Ends) -> Result<u8, OutOfMemory> {
    let words = texts(alloc, words)?;
    let Ends { source, out, fault } = ends;
    let outcome = run_words(alloc, words.as_slice(), source, out, fault);
    Ok(outcome.status)
}

/// Runs the words on a document, over ends of which each may fail.
pub(crate) fn runs(
    alloc: Global,
    words: &[&str],
    document: &[u8],
    read: End<'_>,
    printed: End<'_>,
    told: End<'_>,
) -> Result<Left, OutOfMemory> {
    let mut ends = Ends {
        source: source(alloc, document, read)?,
        out: sink(alloc, printed)?,
        fault: sink(alloc, told)?,
    };
    let status = run(alloc, words, &mut ends)?;
    Ok(Left {
        status,
        source: ends.source.left().len(),
        out: ends.out.bytes().len(),
        fault: ends.fault.bytes().len(),
    })
}

/// What the output has taken of the command on a document, where it may fail.
pub(crate) fn printed(
    alloc: Global,
    document: &[u8],
    printed: End<'_>,
) -> Result<List<u8>, OutOfMemory> {
    let mut ends = Ends {
        source: source(alloc, document, SOUND)?,
        out: sink(alloc, printed)?,
        fault: sink(alloc, SOUND)?,
    };
    run(alloc, &["generate"], &mut ends)?;
    List::from_slice(alloc, ends.out.bytes())
}

/// Runs the command on a document, over ends of which each may fail.
pub(crate) fn generate(
    alloc: Global,
    document: &[u8],
    read: End<'_>,
    printed: End<'_>,
    told: End<'_>,
) -> Result<Left, OutOfMemory> {
    runs(alloc, &["generate"], document, read, printed, told)
}
