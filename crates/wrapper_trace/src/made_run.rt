//! The run that is asked for, where its conditions hold.

ghost use Rattle.std.specs.Prelude.{◌≡◌, ◌&&◌, is_some};
ghost use Rattle.wrapper_data.specs.Heap.{is_heap};
ghost use Rattle.wrapper_run.specs.ExportRun.{export_at, export_run};
ghost use Rattle.wrapper_run.specs.PostReturn.{post_return_at, post_return_run};
ghost use Rattle.wrapper_run.specs.Run.{import_at, import_run};
ghost use Rattle.wrapper_trace.specs.Asked.{Answers, export_fault, fault_of, import_fault, is_left, post_return_fault, run_of};

use crate::conditions::{are_words, is_answer, is_pointer, takes};
use crate::fault::LineFault;
use crate::read_run::{AskedRun, Side};
use rust_tree::{Bindings, WrapperId};
use std::alloc::Global;
use wit_model::List;
use wrapper_data::{Answer, Choices, Run, RustValue, Word};
use wrapper_run::{export_at, has_post_return, import_at, run_export, run_import, run_post_return};

/// The run of a wrapper of a tree, or the first of its conditions that does not hold.
pub(crate) fn made_run(alloc: Global, tree: &Bindings, asked: &AskedRun) -> Result<Run, LineFault>
    ensures { Answers result (fault_of tree.now asked.now) (run_of tree.now asked.now) }
{
    if !(is_left(&asked.side) && asked.heap.is_well_formed()) {
        return Err(LineFault::Heap);
    }
    match &asked.side {
        Side::Import {
            args,
            choices,
            answer,
        } => import_run(alloc, tree, asked, args, choices, answer),
        Side::Export {
            words,
            choices,
            answer,
        } => export_run(alloc, tree, asked, words, choices, answer),
        Side::PostReturn { words } => post_return_run(alloc, tree, asked, words),
    }
}

/// Whether the heap that the implementation of an export leaves is well formed.
fn is_left(side: &Side) -> bool
    ensures { result ≡ is_left side.now }
{
    match side {
        Side::Export {
            answer: Answer::Value { heap, .. },
            ..
        } => heap.is_well_formed(),
        _ => true,
    }
}

fn import_run(
    alloc: Global,
    tree: &Bindings,
    asked: &AskedRun,
    args: &List<RustValue>,
    choices: &Choices,
    answer: &Answer,
) -> Result<Run, LineFault>
    ensures { Answers result
        (import_fault asked.now.wrapper (import_at tree.now asked.now.wrapper) args.now answer.now)
        (import_run tree.now asked.now.wrapper args.now asked.now.heap choices.now answer.now asked.now.form) }
{
    let wrapper = WrapperId(asked.wrapper);
    match import_at(tree, wrapper) {
        None => Err(LineFault::NoImport(asked.wrapper)),
        Some((_, f)) if !takes(f, args.as_slice()) => Err(LineFault::Arguments),
        Some((_, f)) if !is_answer(f, answer) => Err(LineFault::Answer),
        Some(_) => {
            let heap = &asked.heap;
            let run = run_import(
                alloc, tree, wrapper, args, heap, choices, answer, asked.form,
            )?;
            Ok(run)
        }
    }
}

fn export_run(
    alloc: Global,
    tree: &Bindings,
    asked: &AskedRun,
    words: &List<Word>,
    choices: &Choices,
    answer: &Answer,
) -> Result<Run, LineFault>
    ensures { Answers result
        (export_fault asked.now.wrapper (export_at tree.now asked.now.wrapper) words.now)
        (export_run tree.now asked.now.wrapper words.now asked.now.heap choices.now answer.now asked.now.form) }
{
    let wrapper = WrapperId(asked.wrapper);
    match export_at(tree, wrapper) {
        None => Err(LineFault::NoExport(asked.wrapper)),
        Some((_, e)) if !are_words(e.params.as_slice(), words.as_slice()) => Err(LineFault::Words),
        Some(_) => {
            let heap = &asked.heap;
            let run = run_export(
                alloc, tree, wrapper, words, heap, choices, answer, asked.form,
            )?;
            Ok(run)
        }
    }
}

fn post_return_run(
    alloc: Global,
    tree: &Bindings,
    asked: &AskedRun,
    words: &List<Word>,
) -> Result<Run, LineFault>
    ensures { Answers result
        (post_return_fault asked.now.wrapper (is_some (post_return_at tree.now asked.now.wrapper)) words.now)
        (post_return_run tree.now asked.now.wrapper words.now asked.now.heap asked.now.form) }
{
    let wrapper = WrapperId(asked.wrapper);
    if !has_post_return(tree, wrapper) {
        return Err(LineFault::NoPostReturn(asked.wrapper));
    }
    if !is_pointer(words.as_slice()) {
        return Err(LineFault::Words);
    }
    let run = run_post_return(alloc, tree, wrapper, words, &asked.heap, asked.form)?;
    Ok(run)
}
