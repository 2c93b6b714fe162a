//! Kinds of types that must have a member.

ghost use Rattle.std.specs.Prelude.{◌≡◌, ◌<◌, not, length, position, IfSome};
ghost use Rattle.wit_model.specs.Members.{has_one, has_members};

use crate::list::List;
use crate::types::{TypeDef, TypeDefKind};

fn has_one<T>(items: &List<T>) -> bool
    ensures { result ≡ has_one items.now }
{
    match items.as_slice() {
        [] => false,
        _ => true,
    }
}

#[tactic(auto, unfolding(crate::specs::Members::has_members))]
fn has_members(kind: &TypeDefKind) -> bool
    ensures { result ≡ has_members kind.now }
{
    match kind {
        TypeDefKind::FixedLengthList(_, length) => *length > 0,
        TypeDefKind::Tuple(members) => has_one(members),
        TypeDefKind::Record(fields) => has_one(fields),
        TypeDefKind::Variant(cases) => has_one(cases),
        TypeDefKind::Enum(members) => has_one(members),
        TypeDefKind::Flags(members) => has_one(members),
        _ => true,
    }
}

/// The first type that wants a member, or a length above 0, and has none.
pub fn first_without_members(types: &[TypeDef]) -> Option<usize>
    ensures first { result ≡ position (λ entry. not (has_members entry.kind)) types.now }
    ensures within { IfSome result (λ index. index < length types.now) }
{
    types.iter().position(|entry| !has_members(&entry.kind))
}
