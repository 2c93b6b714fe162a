//! The line for a refusal of the generator.

ghost use Rattle.std.specs.Prelude.{◌≡◌, ◌++◌, OnOk};
ghost use Rattle.wit_refusal.specs.Line.{gen_line_of, invalid_option_line, invalid_world_line, missing_with_line, name_clash_line, too_large_line, unsupported_line, unused_chainable_line, unused_selector_line, unused_with_line};

use crate::names::{rule_number, table_name};
use crate::quote::push_quoted_list;
use crate::word::{Word, put};
use gen_accept::{Clash, Entry, GenError, Lack, TooLarge};
use wit_model::{OutOfMemory, Rule, Table, Text};

fn push_invalid_world(
    out: &mut Text,
    rule: Rule,
    table: Table,
    index: u32,
) -> Result<(), OutOfMemory>
    ensures { OnOk result (out.new ≡ out.old ++ invalid_world_line rule table index) }
{
    put(out, Word::InvalidWorld)?;
    out.push_number(rule_number(rule))?;
    put(out, Word::At)?;
    out.push_str(table_name(table))?;
    put(out, Word::Space)?;
    out.push_number(u64::from(index))?;
    put(out, Word::LineEnd)
}

fn push_invalid_option(out: &mut Text, field: &str, index: u32) -> Result<(), OutOfMemory>
    ensures { OnOk result (out.new ≡ out.old ++ invalid_option_line field.now index) }
{
    put(out, Word::InvalidOption)?;
    out.push_str(field)?;
    put(out, Word::Space)?;
    out.push_number(u64::from(index))?;
    put(out, Word::LineEnd)
}

fn push_missing_with(out: &mut Text, key: &str) -> Result<(), OutOfMemory>
    ensures { OnOk result (out.new ≡ out.old ++ missing_with_line key.now) }
{
    put(out, Word::MissingWith)?;
    out.push_str(key)?;
    put(out, Word::KeyEnd)
}

fn push_too_large(out: &mut Text, what: &TooLarge) -> Result<(), OutOfMemory>
    ensures { OnOk result (out.new ≡ out.old ++ too_large_line what.now) }
{
    match what {
        TooLarge::Type_(id) => {
            put(out, Word::TooLargeType)?;
            out.push_number(u64::from(id.0))?;
            put(out, Word::LineEnd)
        }
        TooLarge::Func(name) => {
            put(out, Word::TooLargeFunction)?;
            out.push_str(name.as_str())?;
            put(out, Word::LineEnd)
        }
    }
}

fn push_unsupported(out: &mut Text, what: Lack, place: &str) -> Result<(), OutOfMemory>
    ensures { OnOk result (out.new ≡ out.old ++ unsupported_line what place.now) }
{
    put(out, Word::Unsupported)?;
    out.push_str(what.words())?;
    put(out, Word::At)?;
    out.push_str(place)?;
    put(out, Word::LineEnd)
}

fn push_name_clash(out: &mut Text, entry: &Entry) -> Result<(), OutOfMemory>
    ensures { OnOk result (out.new ≡ out.old ++ name_clash_line entry.now) }
{
    put(out, Word::NameClash)?;
    out.push_str(entry.name.as_str())?;
    put(out, Word::In)?;
    out.push_str(entry.module.as_str())?;
    put(out, Word::LineEnd)
}

fn push_unused_with(out: &mut Text, keys: &[Text]) -> Result<(), OutOfMemory>
    ensures { OnOk result (out.new ≡ out.old ++ unused_with_line keys.now) }
{
    put(out, Word::UnusedWith)?;
    push_quoted_list(out, keys)?;
    put(out, Word::ListEnd)
}

fn push_unused_selector(out: &mut Text, selectors: &[Text]) -> Result<(), OutOfMemory>
    ensures { OnOk result (out.new ≡ out.old ++ unused_selector_line selectors.now) }
{
    put(out, Word::UnusedSelector)?;
    push_quoted_list(out, selectors)?;
    put(out, Word::ListEnd)
}

fn push_unused_chainable(out: &mut Text, entry: &str) -> Result<(), OutOfMemory>
    ensures { OnOk result (out.new ≡ out.old ++ unused_chainable_line entry.now) }
{
    put(out, Word::UnusedChainable)?;
    out.push_str(entry)?;
    put(out, Word::LineEnd)
}

/// Puts the line for a refusal of the generator behind a text.
pub(crate) fn push_gen_line(out: &mut Text, error: &GenError) -> Result<(), OutOfMemory>
    ensures { OnOk result (out.new ≡ out.old ++ gen_line_of error.now) }
{
    match error {
        GenError::InvalidWorld { rule, table, index } => {
            push_invalid_world(out, *rule, *table, *index)
        }
        GenError::InvalidOption { field, index } => {
            push_invalid_option(out, field.as_str(), *index)
        }
        GenError::MissingWith(missing) => push_missing_with(out, missing.0.as_str()),
        GenError::TooLarge(what) => push_too_large(out, what),
        GenError::Unsupported { what, place } => push_unsupported(out, *what, place.as_str()),
        GenError::NameClash(Clash::Twice(entry)) => push_name_clash(out, entry),
        GenError::NameClash(Clash::NotIdent(entry)) => push_name_clash(out, entry),
        GenError::UnusedWith(keys) => push_unused_with(out, keys.as_slice()),
        GenError::UnusedSelector(selectors) => push_unused_selector(out, selectors.as_slice()),
        GenError::UnusedChainable(entry) => push_unused_chainable(out, entry.as_str()),
        GenError::OutOfMemory => put(out, Word::OutOfMemoryLine),
    }
}
