//! Which types a type names.

ghost use Rattle.std.specs.Prelude.{◌≡◌, ◌<◌, length, slice_get, Some};
ghost use Rattle.wit_model.specs.Parts.{handle_target, parts};

use crate::name::TypeId;
use crate::types::{Handle, TypeDefKind, WitType};

impl Handle {
    /// The resource, or the alias of one, that the handle is for.
    pub fn target(self) -> TypeId
        ensures { result ≡ handle_target self }
    {
        match self {
            Handle::Own(id) | Handle::Borrow(id) => id,
        }
    }
}

impl TypeDefKind {
    /// How many places for types the kind has, those of payloads that are left out among them.
    #[tactic(auto, unfolding(crate::specs::Parts::parts))]
    pub fn part_count(&self) -> usize
        ensures { result ≡ length (parts self.now) }
    {
        match self {
            TypeDefKind::Tuple(members) => members.len(),
            TypeDefKind::Record(fields) => fields.len(),
            TypeDefKind::Variant(cases) => cases.len(),
            TypeDefKind::Map(_, _) | TypeDefKind::Result(_, _) => 2,
            TypeDefKind::Enum(_) | TypeDefKind::Flags(_) => 0,
            TypeDefKind::Resource | TypeDefKind::Unknown => 0,
            _ => 1,
        }
    }

    /// The type in a place of the kind, counted from 0, where there is one: the parts in the order in which they are
    /// written, and for a handle its resource.
    #[tactic(auto, unfolding(crate::specs::Parts::parts))]
    pub fn part(&self, nth: usize) -> Option<WitType>
        requires { nth < length (parts self.now) }
        ensures { slice_get (parts self.now) nth ≡ Some result }
    {
        match self {
            TypeDefKind::Alias(ty) | TypeDefKind::List(ty) | TypeDefKind::Option(ty) => Some(*ty),
            TypeDefKind::FixedLengthList(ty, _) => Some(*ty),
            TypeDefKind::Handle(handle) => Some(WitType::Id(handle.target())),
            TypeDefKind::Map(k, v) => Some(if nth == 0 { *k } else { *v }),
            TypeDefKind::Result(ok, err) => { if nth == 0 { *ok } else { *err } }
            TypeDefKind::Tuple(members) => members.get(nth).copied(),
            TypeDefKind::Record(fields) => fields.get(nth).map(|field| field.ty),
            TypeDefKind::Variant(cases) => match cases.get(nth) {
                None => None,
                Some(case) => case.ty,
            },
            TypeDefKind::Future(payload) | TypeDefKind::Stream(payload) => *payload,
            _ => None,
        }
    }
}
