//! Types of the tables.

use crate::list::List;
use crate::name::{Docs, InterfaceId, Name, TypeId, WorldId};

/// A type as a parameter, a result or a part names it: a primitive, or an entry of the table.
#[derive(Clone, Copy, Debug, PartialEq, Eq)]
pub enum WitType {
    Bool,
    U8,
    U16,
    U32,
    U64,
    S8,
    S16,
    S32,
    S64,
    F32,
    F64,
    Char,
    String,
    ErrorContext,
    Id(TypeId),
}

/// A handle to a resource.
#[derive(Clone, Copy, Debug, PartialEq, Eq)]
pub enum Handle {
    Own(TypeId),
    Borrow(TypeId),
}

/// A field of a record.
#[derive(Debug, PartialEq, Drop)]
pub struct Field {
    pub name: Name,
    pub ty: WitType,
    pub docs: Docs,
}

/// A case of a variant, with its payload's type.
#[derive(Debug, PartialEq, Drop)]
pub struct Case {
    pub name: Name,
    pub ty: Option<WitType>,
    pub docs: Docs,
}

/// A case of an enum, or a flag.
#[derive(Debug, PartialEq, Drop)]
pub struct Member {
    pub name: Name,
    pub docs: Docs,
}

/// What a type of the table is.
#[derive(Debug, PartialEq, Drop)]
pub enum TypeDefKind {
    Alias(WitType),
    Handle(Handle),
    List(WitType),
    /// The key's type and the value's type.
    Map(WitType, WitType),
    /// The element's type and the length.
    FixedLengthList(WitType, u32),
    Tuple(List<WitType>),
    Option(WitType),
    /// The types of the ok payload and of the error payload.
    Result(Option<WitType>, Option<WitType>),
    Record(List<Field>),
    Variant(List<Case>),
    Enum(List<Member>),
    Flags(List<Member>),
    Resource,
    Future(Option<WitType>),
    Stream(Option<WitType>),
    Unknown,
}

/// Where a type is defined.
#[derive(Clone, Copy, Debug, PartialEq, Eq)]
pub enum TypeOwner {
    World(WorldId),
    Interface(InterfaceId),
    None,
}

/// An entry of the table of types.
#[derive(Debug, PartialEq, Drop)]
pub struct TypeDef {
    pub name: Option<Name>,
    pub owner: TypeOwner,
    pub kind: TypeDefKind,
    pub docs: Docs,
}
