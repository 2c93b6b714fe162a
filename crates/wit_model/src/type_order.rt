//! Whether each type names only types before it.

ghost use Rattle.std.specs.Prelude.{◌≡◌, ◌<◌, not, length, position, IfSome};
ghost use Rattle.std.specs.List.{enumerate_from};
ghost use Rattle.wit_model.specs.TypeOrder.{type_below, payload_below, parts_below};

use crate::types::{TypeDef, TypeDefKind, WitType};

/// Whether an entry of the table that a type names has an id below a bound.
#[tactic(auto, unfolding(crate::specs::TypeOrder::type_below))]
pub fn type_below(bound: usize, ty: WitType) -> bool
    ensures { result ≡ type_below bound ty }
{
    match ty {
        WitType::Id(id) => (id.0 as usize) < bound,
        _ => true,
    }
}

/// The same of a payload or a result, where there is one.
#[tactic(auto, unfolding(crate::specs::TypeOrder::payload_below))]
pub fn payload_below(bound: usize, payload: Option<WitType>) -> bool
    ensures { result ≡ payload_below bound payload }
{
    match payload {
        None => true,
        Some(ty) => type_below(bound, ty),
    }
}

/// The same of each type that a kind names.
#[tactic(auto, unfolding(crate::specs::TypeOrder::parts_below))]
pub fn parts_below(bound: usize, kind: &TypeDefKind) -> bool
    ensures { result ≡ parts_below bound kind.now }
{
    for nth in 0..kind.part_count() {
        if !payload_below(bound, kind.part(nth)) {
            return false;
        }
    }
    true
}

/// The first type that names one whose id is not lower than its own.
pub fn first_out_of_order(types: &[TypeDef]) -> Option<usize>
    ensures first { result ≡ position (λ entry. not (parts_below entry.0 entry.1.kind)) (enumerate_from 0 types.now) }
    ensures within { IfSome result (λ index. index < length types.now) }
{
    types
        .iter()
        .enumerate()
        .position(|(index, entry)| !parts_below(index, &entry.kind))
}
