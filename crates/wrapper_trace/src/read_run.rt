//! The run that a line asks for.

use crate::fault::{LineFault, Part};
use crate::json::{Readable, member, only, optional, required};
use crate::read_answer::{method_answer, peer_answer};
use crate::read_heap::heap_in;
use serde_json::Value;
use std::alloc::Global;
use wit_model::{List, Text};
use wrapper_data::{Answer, Choices, Form, Heap, RustValue, Word};

/// Which function of a wrapper runs, with what it is given and what it meets.
#[derive(Drop)]
pub(crate) enum Side {
    Import {
        args: List<RustValue>,
        choices: Choices,
        answer: Answer,
    },
    Export {
        words: List<Word>,
        choices: Choices,
        answer: Answer,
    },
    PostReturn {
        words: List<Word>,
    },
}

/// A run that is asked for, of a wrapper by its number in the file.
#[derive(Drop)]
pub(crate) struct AskedRun {
    pub(crate) wrapper: u32,
    pub(crate) side: Side,
    pub(crate) heap: Heap,
    pub(crate) form: Form,
}

impl Readable for AskedRun {
    fn read(alloc: Global, value: &Value) -> Result<AskedRun, LineFault> {
        let wrapper = required(alloc, value, "wrapper")?;
        let side = side_of(alloc, value)?;
        let (heap, form) = heap_and_form(alloc, value)?;
        Ok(AskedRun {
            wrapper,
            side,
            heap,
            form,
        })
    }
}

fn heap_and_form(alloc: Global, value: &Value) -> Result<(Heap, Form), LineFault> {
    let heap = heap_in(alloc, value)?;
    let form = required(alloc, value, "form")?;
    Ok((heap, form))
}

fn side_of(alloc: Global, value: &Value) -> Result<Side, LineFault> {
    let side: Text = required(alloc, value, "side")?;
    match side.as_str() {
        "import" => import_side(alloc, value),
        "export" => export_side(alloc, value),
        "post-return" => post_return_side(alloc, value),
        _ => Err(LineFault::Expected(Part::Side)),
    }
}

/// The keys of a run of an import.
const IMPORT_KEYS: &[&str] = &[
    "document", "file", "wrapper", "side", "args", "heap", "choices", "answer", "form",
];

fn import_side(alloc: Global, value: &Value) -> Result<Side, LineFault> {
    only(alloc, value, IMPORT_KEYS)?;
    Ok(Side::Import {
        args: required(alloc, value, "args")?,
        choices: choices_in(alloc, value)?,
        answer: peer_answer(alloc, member(alloc, value, "answer")?)?,
    })
}

/// The keys of a run of an export.
const EXPORT_KEYS: &[&str] = &[
    "document", "file", "wrapper", "side", "words", "heap", "choices", "answer", "form",
];

fn export_side(alloc: Global, value: &Value) -> Result<Side, LineFault> {
    only(alloc, value, EXPORT_KEYS)?;
    Ok(Side::Export {
        words: required(alloc, value, "words")?,
        choices: choices_in(alloc, value)?,
        answer: method_answer(alloc, member(alloc, value, "answer")?)?,
    })
}

/// The keys of a run of a post-return function.
const POST_RETURN_KEYS: &[&str] = &[
    "document", "file", "wrapper", "side", "words", "heap", "form",
];

fn post_return_side(alloc: Global, value: &Value) -> Result<Side, LineFault> {
    only(alloc, value, POST_RETURN_KEYS)?;
    Ok(Side::PostReturn {
        words: required(alloc, value, "words")?,
    })
}

/// The choices at the key `choices`, which are none where it is absent.
fn choices_in(alloc: Global, value: &Value) -> Result<Choices, LineFault> {
    let choices = optional(alloc, value, "choices")?;
    Ok(choices.unwrap_or(Choices {
        list: List::new(alloc),
    }))
}

impl Readable for Form {
    fn read(_alloc: Global, value: &Value) -> Result<Form, LineFault> {
        match value.as_str() {
            Some("debug") => Ok(Form::Debug),
            Some("release") => Ok(Form::Release),
            _ => Err(LineFault::Expected(Part::Form)),
        }
    }
}
