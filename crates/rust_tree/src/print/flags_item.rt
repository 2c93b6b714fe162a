//! Definitions of flags types.

ghost use Rattle.std.specs.Prelude.{◌≡◌, ◌++◌, OnOk};
ghost use Rattle.rust_tree.specs.FlagsText.{flags_head_text, flags_text, member_text, members_text};

use crate::flags_item::{FlagsItem, FlagsMember};
use crate::print::function::push_docs;
use crate::print::path::push_path;
use crate::print::type_name::push_repr_type;
use crate::print::word::{FlagsWord, Sign};
use wit_model::{OutOfMemory, Text};

fn push_member(out: &mut Text, n: usize, member: &FlagsMember) -> Result<(), OutOfMemory>
    ensures { OnOk result (out.new ≡ out.old ++ member_text n member.now) }
{
    push_docs(out, member.docs.as_slice())?;
    FlagsWord::Const.put(out)?;
    out.push_str(member.name.as_str())?;
    FlagsWord::Bit.put(out)?;
    out.push_number(n as u64)?;
    Sign::StatementEnd.put(out)
}

fn push_members(out: &mut Text, members: &[FlagsMember]) -> Result<(), OutOfMemory>
    ensures { OnOk result (out.new ≡ out.old ++ members_text 0 members.now) }
{
    for (i, member) in members.iter().enumerate() {
        push_member(out, i, member)?;
    }
    Ok(())
}

#[tactic(auto, unfolding(crate::specs::FlagsText::flags_head_text))]
fn push_flags_head(out: &mut Text, item: &FlagsItem) -> Result<(), OutOfMemory>
    ensures { OnOk result (out.new ≡ out.old ++ flags_head_text item.now) }
{
    push_path(out, &item.bitflags)?;
    FlagsWord::OpenMacro.put(out)?;
    push_docs(out, item.docs.as_slice())?;
    FlagsWord::PublicFlags.put(out)?;
    out.push_str(item.name.as_str())?;
    Sign::Colon.put(out)?;
    push_repr_type(out, item.repr)?;
    Sign::OpenBlock.put(out)
}

pub(crate) fn push_flags(out: &mut Text, item: &FlagsItem) -> Result<(), OutOfMemory>
    ensures { OnOk result (out.new ≡ out.old ++ flags_text item.now) }
{
    push_flags_head(out, item)?;
    push_members(out, item.members.as_slice())?;
    Sign::CloseBlock.put(out)?;
    Sign::CloseBlock.put(out)
}
