//! What a constructor of a resource gives.

ghost use Rattle.std.specs.Prelude.{◌≡◌, slice_get};
ghost use Rattle.wit_model.specs.Constructor.{return_of_kind, return_of_entry, constructor_return};
ghost use Rattle.wit_model.specs.TypeOrder.{GoesDown};

use crate::alias::dealias;
use crate::function::Function;
use crate::name::TypeId;
use crate::resolve::Resolve;
use crate::types::{TypeDefKind, WitType};

/// What a constructor gives.
#[derive(Clone, Copy, Debug, PartialEq, Eq)]
pub enum ConstructorReturn {
    /// The resource.
    Itself,
    /// The resource, or an error of this type, where errors have one.
    Fallible(Option<WitType>),
}

fn return_of_kind(kind: &TypeDefKind) -> ConstructorReturn
    ensures { result ≡ return_of_kind kind.now }
{
    match kind {
        TypeDefKind::Result(_, err) => ConstructorReturn::Fallible(*err),
        _ => ConstructorReturn::Itself,
    }
}

fn return_of_entry(resolve: &Resolve, id: TypeId) -> ConstructorReturn
    ensures { result ≡ return_of_entry (slice_get resolve.now.types id.0) }
{
    match resolve.type_def(id) {
        None => ConstructorReturn::Itself,
        Some(entry) => return_of_kind(&entry.kind),
    }
}

/// Whether a constructor gives its resource itself, or a result: by the kind of the function's result, after aliases. It
/// takes no memory.
pub fn classify_constructor(resolve: &Resolve, func: &Function) -> ConstructorReturn
    requires { GoesDown resolve.now.types }
    ensures { result ≡ constructor_return resolve.now.types func.now.result }
{
    match func.result {
        Some(WitType::Id(id)) => return_of_entry(resolve, dealias(resolve, id)),
        _ => ConstructorReturn::Itself,
    }
}
