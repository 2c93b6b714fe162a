//! The type behind aliases.

ghost use Rattle.std.specs.Prelude.{◌≡◌, None};
ghost use Rattle.wit_model.specs.Dealias.{aliased, next_alias, dealias};
ghost use Rattle.wit_model.specs.TypeOrder.{GoesDown};

use crate::name::TypeId;
use crate::resolve::Resolve;
use crate::types::{TypeDef, TypeDefKind, WitType};

/// The type of the table that a kind is another name of. There is none where the kind is no alias, and where it is an
/// alias of a type that is not in the table, as of a number. It follows one alias, where `dealias` follows all.
pub fn aliased(kind: &TypeDefKind) -> Option<TypeId>
    ensures { result ≡ aliased kind.now }
{
    match kind {
        TypeDefKind::Alias(WitType::Id(id)) => Some(*id),
        _ => None,
    }
}

fn next_alias(types: &[TypeDef], id: TypeId) -> Option<TypeId>
    ensures { result ≡ next_alias types.now id }
{
    match types.get(id.0 as usize) {
        None => None,
        Some(entry) => aliased(&entry.kind),
    }
}

/// The type of the table behind all aliases that lead on to another type of it. It takes no memory.
#[tactic(auto, unfolding(crate::specs::Dealias::dealias))]
pub(crate) fn behind_aliases(types: &[TypeDef], id: TypeId) -> TypeId
    requires { GoesDown types.now }
    ensures { result ≡ dealias types.now id }
{
    let mut end = id;
    while let Some(next) = next_alias(types, end) {
        end = next;
    }
    end
}

/// The type of the table behind all aliases of types of it. It takes no memory.
pub fn dealias(resolve: &Resolve, id: TypeId) -> TypeId
    requires { GoesDown resolve.now.types }
    ensures end { result ≡ dealias resolve.now.types id }
    ensures last { next_alias resolve.now.types result ≡ None }
{
    behind_aliases(resolve.types.as_slice(), id)
}
