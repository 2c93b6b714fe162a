//! Runs wrappers and prints the runs; a tool to trace one. Each line of standard input asks for a run, in JSON, and is
//! answered by a line with the run, or with what is wrong.
#![tactic(auto)]

mod conditions;
mod fault;
mod json;
mod made_run;
mod read_answer;
mod read_heap;
mod read_run;
mod read_value;
mod read_word;
mod trace;
mod trees;
mod write_heap;
mod write_json;
mod write_run;
mod write_value;
mod write_word;

use std::io;
use std::io::{BufRead, BufReader};
use std::rt::Files;
use trace::trace;
use trees::Trees;
use wit_model::OutOfMemory;

fn answer<R: Files + Print + AllocGlobal>(
    rt: &R,
    trees: &mut Trees,
    line: &[u8],
) -> io::Result<()> {
    match trace(rt, trees, line) {
        Ok(answer) => println!(rt; "{answer}"),
        Err(OutOfMemory) => Err(io::ErrorKind::OutOfMemory.into()),
    }
}

fn main(rt: HostRuntime) -> io::Result<()> {
    let input = BufReader::new(rt.alloc(), rt.reader())?;
    let mut trees = Trees::new(rt.alloc());
    for line in input.split(rt.alloc(), b'\n') {
        answer(&rt, &mut trees, line?.as_slice())?;
    }
    Ok(())
}
