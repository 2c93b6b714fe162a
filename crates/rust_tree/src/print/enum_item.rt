//! Definitions of enums.

ghost use Rattle.std.specs.Prelude.{◌≡◌, ◌++◌, OnOk};
ghost use Rattle.std.specs.List.{flat_map};
ghost use Rattle.rust_tree.specs.EnumText.{arm_text, arms_text, case_path_text, case_text, debug_case_text, debug_close_text, debug_open_text, enum_debug_text, enum_head_text, enum_lift_text, enum_open_text, enum_shown_text, enum_text};

use crate::enum_item::{EnumCase, EnumItem};
use crate::path::Path;
use crate::print::derives::push_derives;
use crate::print::error_enum::push_error;
use crate::print::function::push_docs;
use crate::print::type_name::push_repr_type;
use crate::print::word::{DefinitionWord, EnumWord, Sign};
use wit_model::{OutOfMemory, Text};

/// The path of a case behind its enum's name.
pub(crate) fn push_case_path(out: &mut Text, name: &Text, case: &Text) -> Result<(), OutOfMemory>
    ensures { OnOk result (out.new ≡ out.old ++ case_path_text name.now case.now) }
{
    out.push_str(name.as_str())?;
    Sign::PathMark.put(out)?;
    out.push_str(case.as_str())
}

fn push_case(out: &mut Text, case: &EnumCase) -> Result<(), OutOfMemory>
    ensures { OnOk result (out.new ≡ out.old ++ case_text case.now) }
{
    push_docs(out, case.docs.as_slice())?;
    out.push_str(case.name.as_str())?;
    EnumWord::CaseEnd.put(out)
}

fn push_cases(out: &mut Text, cases: &[EnumCase]) -> Result<(), OutOfMemory>
    ensures { OnOk result (out.new ≡ out.old ++ flat_map case_text cases.now) }
{
    for case in cases {
        push_case(out, case)?;
    }
    Ok(())
}

/// What `Debug` writes of a case without a payload.
pub(crate) fn push_debug_case(out: &mut Text, name: &Text, case: &Text) -> Result<(), OutOfMemory>
    ensures { OnOk result (out.new ≡ out.old ++ debug_case_text name.now case.now) }
{
    push_case_path(out, name, case)?;
    EnumWord::CaseTuple.put(out)?;
    push_case_path(out, name, case)?;
    EnumWord::CaseFinish.put(out)
}

fn push_debug_cases(out: &mut Text, name: &Text, cases: &[EnumCase]) -> Result<(), OutOfMemory>
    ensures { OnOk result (out.new ≡ out.old ++ flat_map (λ c. debug_case_text name.now c.name) cases.now) }
{
    for case in cases {
        push_debug_case(out, name, &case.name)?;
    }
    Ok(())
}

/// What stands in `Debug` before the lines of the cases.
#[tactic(auto, unfolding(crate::specs::EnumText::debug_open_text))]
pub(crate) fn push_debug_open(out: &mut Text, name: &Text) -> Result<(), OutOfMemory>
    ensures { OnOk result (out.new ≡ out.old ++ debug_open_text name.now) }
{
    DefinitionWord::DebugImpl.put(out)?;
    out.push_str(name.as_str())?;
    Sign::OpenBlock.put(out)?;
    DefinitionWord::DebugFn.put(out)?;
    EnumWord::MatchSelf.put(out)
}

/// What stands behind them.
#[tactic(auto, unfolding(crate::specs::EnumText::debug_close_text))]
pub(crate) fn push_debug_close(out: &mut Text) -> Result<(), OutOfMemory>
    ensures { OnOk result (out.new ≡ out.old ++ debug_close_text) }
{
    Sign::CloseBlock.put(out)?;
    Sign::CloseBlock.put(out)?;
    Sign::CloseBlock.put(out)
}

fn push_enum_debug(out: &mut Text, item: &EnumItem) -> Result<(), OutOfMemory>
    ensures { OnOk result (out.new ≡ out.old ++ enum_debug_text item.now) }
{
    push_debug_open(out, &item.name)?;
    push_debug_cases(out, &item.name, item.cases.as_slice())?;
    push_debug_close(out)
}

/// `Debug`, and what else there is of an error type.
fn push_shown(out: &mut Text, item: &EnumItem) -> Result<(), OutOfMemory>
    ensures { OnOk result (out.new ≡ out.old ++ enum_shown_text item.now item.now.error) }
{
    match &item.error {
        None => push_enum_debug(out, item),
        Some(error) => push_error(out, &item.name, error),
    }
}

fn push_arm(out: &mut Text, name: &Text, n: usize, case: &EnumCase) -> Result<(), OutOfMemory>
    ensures { OnOk result (out.new ≡ out.old ++ arm_text name.now n case.now) }
{
    out.push_number(n as u64)?;
    EnumWord::Arm.put(out)?;
    push_case_path(out, name, &case.name)?;
    EnumWord::CaseEnd.put(out)
}

fn push_arms(out: &mut Text, name: &Text, cases: &[EnumCase]) -> Result<(), OutOfMemory>
    ensures { OnOk result (out.new ≡ out.old ++ arms_text name.now 0 cases.now) }
{
    for (i, case) in cases.iter().enumerate() {
        push_arm(out, name, i, case)?;
    }
    Ok(())
}

#[tactic(auto, unfolding(crate::specs::EnumText::enum_lift_text))]
fn push_enum_lift(out: &mut Text, item: &EnumItem) -> Result<(), OutOfMemory>
    ensures { OnOk result (out.new ≡ out.old ++ enum_lift_text item.now) }
{
    EnumWord::Impl.put(out)?;
    out.push_str(item.name.as_str())?;
    Sign::OpenBlock.put(out)?;
    EnumWord::LiftFn.put(out)?;
    push_repr_type(out, item.repr)?;
    EnumWord::LiftResult.put(out)?;
    out.push_str(item.name.as_str())?;
    EnumWord::LiftBody.put(out)?;
    push_arms(out, &item.name, item.cases.as_slice())?;
    EnumWord::NoCase.put(out)
}

/// The line of derives, and the beginning of the enum itself.
pub(crate) fn push_enum_open(
    out: &mut Text,
    derives: &[Path],
    name: &Text,
) -> Result<(), OutOfMemory>
    ensures { OnOk result (out.new ≡ out.old ++ enum_open_text derives.now name.now) }
{
    push_derives(out, derives)?;
    EnumWord::PublicEnum.put(out)?;
    out.push_str(name.as_str())?;
    Sign::OpenBlock.put(out)
}

#[tactic(auto, unfolding(crate::specs::EnumText::enum_head_text))]
fn push_enum_head(out: &mut Text, item: &EnumItem) -> Result<(), OutOfMemory>
    ensures { OnOk result (out.new ≡ out.old ++ enum_head_text item.now) }
{
    push_docs(out, item.docs.as_slice())?;
    EnumWord::OpenRepr.put(out)?;
    push_repr_type(out, item.repr)?;
    EnumWord::CloseRepr.put(out)?;
    push_enum_open(out, item.derives.as_slice(), &item.name)
}

pub(crate) fn push_enum(out: &mut Text, item: &EnumItem) -> Result<(), OutOfMemory>
    ensures { OnOk result (out.new ≡ out.old ++ enum_text item.now) }
{
    push_enum_head(out, item)?;
    push_cases(out, item.cases.as_slice())?;
    Sign::CloseBlock.put(out)?;
    push_shown(out, item)?;
    push_enum_lift(out, item)
}
