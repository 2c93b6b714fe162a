//! The text of patterns.

ghost use Rattle.std.specs.Prelude.{◌≡◌, ◌++◌, OnOk};
ghost use Rattle.rust_tree.specs.CodeText.{arm_pattern_text, commas_text, fields_text, path_text, pattern_text};
ghost use Rattle.rust_tree.specs.Word.{sign};
ghost use Rattle.rust_tree.specs.declared.print.word.sign.Sign.TheVariants.{Close, Open};

use crate::path::Path;
use crate::pattern::{ArmPattern, Pattern};
use crate::print::expr::push_name;
use crate::print::path::push_path;
use crate::print::word::{ExprWord, MatchWord, Sign};
use wit_model::{OutOfMemory, Text};

/// The names of a record's parts, each behind its field's name.
fn push_bound_fields(out: &mut Text, fields: &[(Text, Text)]) -> Result<(), OutOfMemory>
    ensures { OnOk result (out.new ≡ out.old ++ fields_text fields.now) }
{
    ExprWord::OpenFields.put(out)?;
    for (i, field) in fields.iter().enumerate() {
        if i > 0 {
            Sign::Comma.put(out)?;
        }
        push_name(out, &field.0)?;
        out.push_str(field.1.as_str())?;
    }
    ExprWord::CloseFields.put(out)
}

pub(crate) fn push_names(out: &mut Text, names: &[Text]) -> Result<(), OutOfMemory>
    ensures { OnOk result (out.new ≡ out.old ++ commas_text names.now) }
{
    for name in names {
        out.push_str(name.as_str())?;
        Sign::Comma.put(out)?;
    }
    Ok(())
}

pub(crate) fn push_pattern(out: &mut Text, pattern: &Pattern) -> Result<(), OutOfMemory>
    ensures { OnOk result (out.new ≡ out.old ++ pattern_text pattern.now) }
{
    match pattern {
        Pattern::Record(path, fields) => {
            push_path(out, path)?;
            push_bound_fields(out, fields.as_slice())
        }
        Pattern::Tuple(names) => {
            Sign::Open.put(out)?;
            push_names(out, names.as_slice())?;
            Sign::Close.put(out)
        }
        Pattern::Array(names) => {
            ExprWord::OpenArray.put(out)?;
            push_names(out, names.as_slice())?;
            ExprWord::CloseArray.put(out)
        }
    }
}

/// A case, and the name of its payload.
fn push_payload(out: &mut Text, path: &Path, name: &Text) -> Result<(), OutOfMemory>
    ensures { OnOk result (out.new ≡ out.old ++ (path_text path.now ++ sign Open ++ name.now ++ sign Close)) }
{
    push_path(out, path)?;
    Sign::Open.put(out)?;
    out.push_str(name.as_str())?;
    Sign::Close.put(out)
}

pub(crate) fn push_arm_pattern(out: &mut Text, pattern: &ArmPattern) -> Result<(), OutOfMemory>
    ensures { OnOk result (out.new ≡ out.old ++ arm_pattern_text pattern.now) }
{
    match pattern {
        ArmPattern::Case(path) => push_path(out, path),
        ArmPattern::Payload(path, name) => push_payload(out, path, name),
        ArmPattern::LeftOut(path) => {
            push_path(out, path)?;
            MatchWord::LeftOut.put(out)
        }
        ArmPattern::Number(n) => out.push_number(u64::from(*n)),
        ArmPattern::Name(name) => out.push_str(name.as_str()),
        ArmPattern::AnyOther => MatchWord::AnyOther.put(out),
    }
}
