//! Definitions of flags types.

ghost use Rattle.std.specs.Prelude.{◌≡◌};
ghost use Rattle.std.specs.List.{list_all};
ghost use Rattle.rust_tree.specs.WellNamed.{is_named_flags, is_named_member};

use crate::flags_item::{FlagsItem, FlagsMember};
use crate::well_named::text::{are_lines, are_path_names, is_name};

fn is_named_member(member: &FlagsMember) -> bool
    ensures { result ≡ is_named_member member.now }
{
    are_lines(member.docs.as_slice()) && is_name(&member.name)
}

fn are_named_members(members: &[FlagsMember]) -> bool
    ensures { result ≡ list_all is_named_member members.now }
{
    members.iter().all(|member| is_named_member(member))
}

pub(crate) fn is_named_flags(item: &FlagsItem) -> bool
    ensures { result ≡ is_named_flags item.now }
{
    are_path_names(item.bitflags.names.as_slice())
        && are_lines(item.docs.as_slice())
        && is_name(&item.name)
        && are_named_members(item.members.as_slice())
}
