//! Functions of worlds and interfaces.

use crate::list::List;
use crate::name::{Docs, Name, TypeId};
use crate::types::WitType;

/// A parameter of a function.
#[derive(Debug, PartialEq, Drop)]
pub struct Param {
    pub name: Name,
    pub ty: WitType,
}

/// Whether a function stands alone or belongs to a resource, and whether it is async.
#[derive(Clone, Copy, Debug, PartialEq, Eq)]
pub enum FunctionKind {
    Freestanding,
    Method(TypeId),
    Static(TypeId),
    Constructor(TypeId),
    AsyncFreestanding,
    AsyncMethod(TypeId),
    AsyncStatic(TypeId),
}

/// A function of a world or of an interface.
#[derive(Debug, PartialEq, Drop)]
pub struct Function {
    pub name: Name,
    pub kind: FunctionKind,
    pub params: List<Param>,
    pub result: Option<WitType>,
    pub docs: Docs,
}
