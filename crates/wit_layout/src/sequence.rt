//! Types whose words are those of their members, one after another.

ghost use Rattle.std.specs.Prelude.{◌≡◌, ◌<◌, IsTrue, Some, length, slice_get};
ghost use Rattle.wit_model.specs.TypeOrder.{payload_below};
ghost use Rattle.wit_layout.specs.inside.Sequence.{is_sequence, members, sequence_place};

use wit_model::{TypeDef, TypeDefKind, WitType};

#[tactic(auto, unfolding(crate::specs::inside::Sequence::is_sequence))]
fn is_sequence(kind: &TypeDefKind) -> bool
    ensures { result ≡ is_sequence kind.now }
{
    match kind {
        TypeDefKind::Alias(_) | TypeDefKind::FixedLengthList(_, _) => true,
        TypeDefKind::Tuple(_) | TypeDefKind::Record(_) => true,
        _ => false,
    }
}

/// How many members the kind has.
#[tactic(auto, unfolding(crate::specs::inside::Sequence::members))]
pub(crate) fn member_count(kind: &TypeDefKind) -> usize
    ensures { result ≡ length (members kind.now) }
{
    match kind {
        TypeDefKind::Alias(_) => 1,
        TypeDefKind::FixedLengthList(_, n) => *n as usize,
        TypeDefKind::Tuple(members) => members.len(),
        TypeDefKind::Record(fields) => fields.len(),
        _ => 0,
    }
}

/// The member of the kind in a place, counted from 0.
#[tactic(auto, unfolding(crate::specs::inside::Sequence::members))]
pub(crate) fn member(kind: &TypeDefKind, nth: usize) -> Option<WitType>
    requires { nth < length (members kind.now) }
    ensures { slice_get (members kind.now) nth ≡ Some result }
{
    match kind {
        TypeDefKind::Alias(ty) | TypeDefKind::FixedLengthList(ty, _) => Some(*ty),
        TypeDefKind::Tuple(members) => members.get(nth).copied(),
        TypeDefKind::Record(fields) => fields.get(nth).map(|field| field.ty),
        _ => None,
    }
}

/// The place in the table of a type whose words are those of its members.
#[tactic(auto, unfolding(wit_model::specs::TypeOrder::payload_below, wit_model::specs::TypeOrder::type_below))]
pub(crate) fn sequence_at(types: &[TypeDef], ty: Option<WitType>) -> Option<usize>
    requires { IsTrue (payload_below (length types.now) ty) }
    ensures { result ≡ sequence_place types.now ty }
{
    match ty {
        Some(WitType::Id(id)) if is_sequence(&types[id.0 as usize].kind) => Some(id.0 as usize),
        _ => None,
    }
}
