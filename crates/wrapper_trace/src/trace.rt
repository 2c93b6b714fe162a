//! From a line to the line that answers it.

use crate::fault::LineFault;
use crate::json::{Readable, required};
use crate::made_run::made_run;
use crate::read_run::AskedRun;
use crate::trees::{Trees, tree_in_line};
use crate::write_json::{Writable, write_text};
use serde_json::Value;
use std::alloc::Global;
use std::rt::Files;
use wit_model::{OutOfMemory, Text};
use wrapper_data::Run;

/// What answers a line, both without their ends: the run that the line asks for, or what is wrong with it.
pub(crate) fn trace<R: Files + AllocGlobal>(
    rt: &R,
    trees: &mut Trees,
    line: &[u8],
) -> Result<String, OutOfMemory> {
    match run_of(rt, trees, line) {
        Ok(run) => shown(rt.alloc(), &run),
        Err(fault) => told(rt.alloc(), &fault),
    }
}

fn run_of<R: Files + AllocGlobal>(
    rt: &R,
    trees: &mut Trees,
    line: &[u8],
) -> Result<Run, LineFault> {
    let value = value_of(rt.alloc(), line)?;
    run_in(rt, trees, &value)
}

/// The run that a JSON value asks for, over the tree of its document or of that in its file.
fn run_in<R: Files + AllocGlobal>(
    rt: &R,
    trees: &mut Trees,
    value: &Value,
) -> Result<Run, LineFault> {
    let asked = AskedRun::read(rt.alloc(), value)?;
    match value.get("document") {
        Some(document) if !document.is_null() => run_in_line(rt.alloc(), document, &asked),
        _ => run_in_file(rt, trees, value, &asked),
    }
}

fn run_in_line(alloc: Global, document: &Value, asked: &AskedRun) -> Result<Run, LineFault> {
    let tree = tree_in_line(alloc, document)?;
    made_run(alloc, &tree, asked)
}

fn run_in_file<R: Files + AllocGlobal>(
    rt: &R,
    trees: &mut Trees,
    value: &Value,
    asked: &AskedRun,
) -> Result<Run, LineFault> {
    let file: Text = required(rt.alloc(), value, "file")?;
    let tree = trees.in_file(rt, file.as_str())?;
    made_run(rt.alloc(), tree, asked)
}

fn value_of(alloc: Global, line: &[u8]) -> Result<Value, LineFault> {
    match Value::from_slice(alloc, line) {
        Ok(value) => Ok(value),
        Err(error) if error.is_memory() => Err(LineFault::OutOfMemory),
        Err(_) => Err(LineFault::NoJson),
    }
}

fn shown(alloc: Global, run: &Run) -> Result<String, OutOfMemory> {
    let mut out = String::new(alloc);
    run.write(&mut out)?;
    Ok(out)
}

/// What is wrong, in words.
fn told(alloc: Global, fault: &LineFault) -> Result<String, OutOfMemory> {
    let words = format!(in alloc; "{fault}")?;
    let mut out = String::new(alloc);
    write_fault(&mut out, words.as_str())?;
    Ok(out)
}

fn write_fault(out: &mut String, words: &str) -> Result<(), OutOfMemory> {
    out.push_str("{\"error\":")?;
    write_text(out, words)?;
    out.push_str("}")?;
    Ok(())
}
