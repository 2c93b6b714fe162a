//! What an enum has that is an error type, and of it what every error type has.

ghost use Rattle.std.specs.Prelude.{◌≡◌, ◌++◌, OnOk};
ghost use Rattle.std.specs.List.{flat_map};
ghost use Rattle.rust_tree.specs.EnumText.{case_message_text, case_name_text, display_text, error_debug_text, error_fns_text, error_impl_text, error_text, std_feature_text};

use crate::enum_item::{ErrorCase, ErrorEnum};
use crate::print::enum_item::push_case_path;
use crate::print::escaped::push_escaped;
use crate::print::word::{DefinitionWord, EnumWord, Sign};
use wit_model::{OutOfMemory, Text};

fn push_case_name(out: &mut Text, name: &Text, case: &ErrorCase) -> Result<(), OutOfMemory>
    ensures { OnOk result (out.new ≡ out.old ++ case_name_text name.now case.now) }
{
    push_case_path(out, name, &case.name)?;
    EnumWord::CaseText.put(out)?;
    out.push_str(case.wit.as_str())?;
    EnumWord::CaseTextEnd.put(out)
}

fn push_case_names(out: &mut Text, name: &Text, cases: &[ErrorCase]) -> Result<(), OutOfMemory>
    ensures { OnOk result (out.new ≡ out.old ++ flat_map (case_name_text name.now) cases.now) }
{
    for case in cases {
        push_case_name(out, name, case)?;
    }
    Ok(())
}

fn push_message(out: &mut Text, name: &Text, case: &ErrorCase) -> Result<(), OutOfMemory>
    ensures { OnOk result (out.new ≡ out.old ++ case_message_text name.now case.now) }
{
    push_case_path(out, name, &case.name)?;
    EnumWord::CaseText.put(out)?;
    push_escaped(out, case.message.as_str())?;
    EnumWord::CaseTextEnd.put(out)
}

fn push_messages(out: &mut Text, name: &Text, cases: &[ErrorCase]) -> Result<(), OutOfMemory>
    ensures { OnOk result (out.new ≡ out.old ++ flat_map (case_message_text name.now) cases.now) }
{
    for case in cases {
        push_message(out, name, case)?;
    }
    Ok(())
}

#[tactic(auto, unfolding(crate::specs::EnumText::error_fns_text))]
fn push_error_fns(out: &mut Text, name: &Text, cases: &[ErrorCase]) -> Result<(), OutOfMemory>
    ensures { OnOk result (out.new ≡ out.old ++ error_fns_text name.now cases.now) }
{
    EnumWord::Impl.put(out)?;
    out.push_str(name.as_str())?;
    Sign::OpenBlock.put(out)?;
    EnumWord::NameFn.put(out)?;
    EnumWord::MatchSelf.put(out)?;
    push_case_names(out, name, cases)?;
    Sign::CloseBlock.put(out)?;
    Sign::CloseBlock.put(out)?;
    EnumWord::MessageFn.put(out)?;
    EnumWord::MatchSelf.put(out)?;
    push_messages(out, name, cases)?;
    Sign::CloseBlock.put(out)?;
    Sign::CloseBlock.put(out)?;
    Sign::CloseBlock.put(out)
}

#[tactic(auto, unfolding(crate::specs::EnumText::error_debug_text))]
fn push_error_debug(out: &mut Text, name: &Text) -> Result<(), OutOfMemory>
    ensures { OnOk result (out.new ≡ out.old ++ error_debug_text name.now) }
{
    DefinitionWord::DebugImpl.put(out)?;
    out.push_str(name.as_str())?;
    Sign::OpenBlock.put(out)?;
    DefinitionWord::DebugFn.put(out)?;
    DefinitionWord::DebugStruct.put(out)?;
    out.push_str(name.as_str())?;
    EnumWord::ErrorFields.put(out)?;
    Sign::CloseBlock.put(out)?;
    Sign::CloseBlock.put(out)
}

/// `Display`, with the line that writes.
#[tactic(auto, unfolding(crate::specs::EnumText::display_text))]
pub(crate) fn push_display(out: &mut Text, name: &Text, line: EnumWord) -> Result<(), OutOfMemory>
    ensures { OnOk result (out.new ≡ out.old ++ display_text line name.now) }
{
    EnumWord::DisplayImpl.put(out)?;
    out.push_str(name.as_str())?;
    Sign::OpenBlock.put(out)?;
    DefinitionWord::DebugFn.put(out)?;
    line.put(out)?;
    Sign::CloseBlock.put(out)?;
    Sign::CloseBlock.put(out)
}

fn push_std_feature(out: &mut Text, std_feature: bool) -> Result<(), OutOfMemory>
    ensures { OnOk result (out.new ≡ out.old ++ std_feature_text std_feature) }
{
    if std_feature {
        EnumWord::StdFeature.put(out)?;
    }
    Ok(())
}

pub(crate) fn push_error_impl(
    out: &mut Text,
    name: &Text,
    std_feature: bool,
) -> Result<(), OutOfMemory>
    ensures { OnOk result (out.new ≡ out.old ++ error_impl_text name.now std_feature) }
{
    push_std_feature(out, std_feature)?;
    EnumWord::ErrorImpl.put(out)?;
    out.push_str(name.as_str())?;
    EnumWord::EmptyBlock.put(out)
}

/// What an error enum of this name has.
pub(crate) fn push_error(out: &mut Text, name: &Text, error: &ErrorEnum) -> Result<(), OutOfMemory>
    ensures { OnOk result (out.new ≡ out.old ++ error_text name.now error.now) }
{
    push_error_fns(out, name, error.cases.as_slice())?;
    push_error_debug(out, name)?;
    push_display(out, name, EnumWord::WriteError)?;
    push_error_impl(out, name, error.std_feature)
}
