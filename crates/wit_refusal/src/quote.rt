//! Quoted and escaped texts in lines.

ghost use Rattle.std.specs.Prelude.{◌≡◌, ◌++◌, OnOk};
ghost use Rattle.std.specs.Char.{encode_utf8};
ghost use Rattle.std.specs.List.{flat_map, join_by};
ghost use Rattle.wit_refusal.specs.Line.{escaped, quoted};
ghost use Rattle.wit_refusal.specs.Word.{word};
ghost use Rattle.wit_refusal.specs.declared.word.Word.TheVariants.{Comma};

use crate::word::{Word, put};
use wit_model::{OutOfMemory, Text};

fn push_char(out: &mut Text, c: char) -> Result<(), OutOfMemory>
    ensures { OnOk result (out.new ≡ out.old ++ encode_utf8 c) }
{
    let mut bytes = [0; 4];
    out.push_str(c.encode_utf8(&mut bytes))
}

#[tactic(auto, using(crate::proofs::Escapes::escaped_char))]
fn push_escaped_char(out: &mut Text, c: char) -> Result<(), OutOfMemory>
    ensures { OnOk result (out.new ≡ out.old ++ flat_map escaped (encode_utf8 c)) }
{
    if c == '"' || c == '\\' {
        put(out, Word::Backslash)?;
        push_char(out, c)
    } else {
        push_char(out, c)
    }
}

fn push_escaped(out: &mut Text, s: &str) -> Result<(), OutOfMemory>
    ensures { OnOk result (out.new ≡ out.old ++ flat_map escaped s.now) }
{
    for c in s.chars() {
        push_escaped_char(out, c)?;
    }
    Ok(())
}

fn push_quoted(out: &mut Text, text: &Text) -> Result<(), OutOfMemory>
    ensures { OnOk result (out.new ≡ out.old ++ quoted text.now) }
{
    put(out, Word::Quote)?;
    push_escaped(out, text.as_str())?;
    put(out, Word::Quote)
}

fn push_behind_commas(out: &mut Text, texts: &[Text]) -> Result<(), OutOfMemory>
    ensures { OnOk result (out.new ≡ out.old ++ flat_map (λ text. word Comma ++ quoted text) texts.now) }
{
    for text in texts {
        put(out, Word::Comma)?;
        push_quoted(out, text)?;
    }
    Ok(())
}

/// Puts texts in quotes behind a text, with `, ` between any two.
pub(crate) fn push_quoted_list(out: &mut Text, texts: &[Text]) -> Result<(), OutOfMemory>
    ensures { OnOk result (out.new ≡ out.old ++ join_by quoted (word Comma) texts.now) }
{
    match texts {
        [] => Ok(()),
        [first, rest @ ..] => {
            push_quoted(out, first)?;
            push_behind_commas(out, rest)
        }
    }
}
