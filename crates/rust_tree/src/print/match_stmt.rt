//! The parts of `match` statements that hold no statement.

ghost use Rattle.std.specs.Prelude.{◌≡◌, ◌++◌, OnOk};
ghost use Rattle.rust_tree.specs.CodeText.{arm_open_text, assert_last_text, match_close_text, match_open_text, match_names_text};

use crate::expr::Expr;
use crate::pattern::ArmPattern;
use crate::print::expr::push_expr;
use crate::print::pattern::{push_arm_pattern, push_names};
use crate::print::word::{ExprWord, MatchWord, Sign};
use crate::stmt::MatchNames;
use wit_model::{OutOfMemory, Text};

fn push_match_names(out: &mut Text, names: &MatchNames) -> Result<(), OutOfMemory>
    ensures { OnOk result (out.new ≡ out.old ++ match_names_text names.now) }
{
    match names {
        MatchNames::Nothing => Ok(()),
        MatchNames::One(name) => {
            Sign::Let.put(out)?;
            out.push_str(name.as_str())?;
            Sign::Equals.put(out)
        }
        MatchNames::Parts(parts) => {
            Sign::Let.put(out)?;
            Sign::Open.put(out)?;
            push_names(out, parts.as_slice())?;
            Sign::Close.put(out)?;
            Sign::Equals.put(out)
        }
    }
}

/// What stands before the first arm.
pub(crate) fn push_match_open(
    out: &mut Text,
    names: &MatchNames,
    e: &Expr,
) -> Result<(), OutOfMemory>
    ensures { OnOk result (out.new ≡ out.old ++ match_open_text names.now e.now) }
{
    push_match_names(out, names)?;
    ExprWord::Match.put(out)?;
    push_expr(out, e)?;
    Sign::OpenBlock.put(out)
}

/// What stands behind the last one.
pub(crate) fn push_match_close(out: &mut Text, names: &MatchNames) -> Result<(), OutOfMemory>
    ensures { OnOk result (out.new ≡ out.old ++ match_close_text names.now) }
{
    match names {
        MatchNames::Nothing => Sign::CloseBlock.put(out),
        MatchNames::One(_) => MatchWord::CloseBound.put(out),
        MatchNames::Parts(_) => MatchWord::CloseBound.put(out),
    }
}

pub(crate) fn push_arm_open(out: &mut Text, pattern: &ArmPattern) -> Result<(), OutOfMemory>
    ensures { OnOk result (out.new ≡ out.old ++ arm_open_text pattern.now) }
{
    push_arm_pattern(out, pattern)?;
    MatchWord::OpenArm.put(out)
}

pub(crate) fn push_assert_last(out: &mut Text, name: &Text, n: u32) -> Result<(), OutOfMemory>
    ensures { OnOk result (out.new ≡ out.old ++ assert_last_text name.now n) }
{
    MatchWord::Assert.put(out)?;
    out.push_str(name.as_str())?;
    Sign::Comma.put(out)?;
    out.push_number(u64::from(n))?;
    MatchWord::AssertEnd.put(out)
}
