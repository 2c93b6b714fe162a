//! Doc comments, line by line.

ghost use Rattle.std.specs.Prelude.{◌≡◌, IfOk};
ghost use Rattle.std.specs.Str.Lines.{lines};
ghost use Rattle.type_defs.specs.Docs.{doc_lines, trimmed_docs};

use std::alloc::Global;
use wit_model::{Docs, List, OutOfMemory, Text};

fn lines_of(alloc: Global, text: &str) -> Result<List<Text>, OutOfMemory>
    ensures { IfOk result (λ ls. ls ≡ lines text.now) }
{
    let mut all = List::new(alloc);
    for line in text.lines() {
        all.push(Text::from_str(alloc, line)?)?;
    }
    Ok(all)
}

/// The lines of a doc comment, without the white space round the whole.
pub fn doc_lines(alloc: Global, docs: &Docs) -> Result<List<Text>, OutOfMemory>
    ensures { IfOk result (λ ls. ls ≡ doc_lines docs.now) }
{
    match &docs.contents {
        None => Ok(List::new(alloc)),
        Some(text) => lines_of(alloc, text.as_str().trim()),
    }
}

/// The text of a doc comment, without the white space round it.
pub(crate) fn trimmed_docs(alloc: Global, docs: &Docs) -> Result<Text, OutOfMemory>
    ensures { IfOk result (λ text. text ≡ trimmed_docs docs.now) }
{
    match &docs.contents {
        None => Ok(Text::new(alloc)),
        Some(text) => Text::from_str(alloc, text.as_str().trim()),
    }
}
