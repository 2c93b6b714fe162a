//! The tables of a resolved world, and the rules that they keep.

use crate::list::List;
use crate::memory::OutOfMemory;
use crate::types::TypeDef;
use crate::world::{Interface, Package, World};

/// The tables of a resolved world. An id is a place in its table.
#[derive(Debug, PartialEq)]
pub struct Resolve {
    pub worlds: List<World>,
    pub packages: List<Package>,
    pub interfaces: List<Interface>,
    pub types: List<TypeDef>,
}

// Not derived: what is derived stands again in each function that lets such a value go, and is proved with it.
impl Drop for Resolve {
    fn drop(self) {
        let Resolve {
            worlds: _,
            packages: _,
            interfaces: _,
            types: _,
        } = self;
    }
}

/// A rule of well-formed tables. Its number is its place here, counted from 1.
#[derive(Clone, Copy, Debug, PartialEq, Eq)]
pub enum Rule {
    /// Every id is in its table.
    IndexRange,
    /// A type names only types with lower ids.
    TypeOrder,
    /// Records, tuples, variants, enums and flags have a member, and a fixed-length list has a length above 0.
    Members,
    /// A map's key is a whole number, a bool, a char or a string.
    MapKey,
    /// A handle, a method, a static function or a constructor names a resource.
    HandleTarget,
    /// No function's result reaches a borrow.
    BorrowPlace,
    /// A method's first parameter is a borrow of its resource.
    SelfParam,
    /// A constructor has its resource's name and gives an own handle of it.
    Constructor,
    /// What must be named is named.
    MissingName,
    /// A listed type has its lister as owner.
    Owner,
    /// What a world names is listed once, and everything reached is listed.
    Listing,
    /// No type is of an unknown kind.
    UnknownKind,
    /// Names and versions have the characters that WIT allows.
    NameText,
}

/// A table of [`Resolve`].
#[derive(Clone, Copy, Debug, PartialEq, Eq)]
pub enum Table {
    Package,
    Interface,
    Type_,
    World,
}

/// Why tables are refused: the first rule that they break and, for it, the first entry in the order of [`Table`] and
/// then by place; or there was no memory to tell.
#[derive(Clone, Copy, Debug, PartialEq, Eq)]
pub enum WorldFault {
    InvalidWorld {
        rule: Rule,
        table: Table,
        index: u32,
    },
    OutOfMemory,
}

impl From<OutOfMemory> for WorldFault {
    ghost use Rattle.std.specs.Prelude.{◌≡◌};
    ghost use Rattle.wit_model.specs.declared.resolve.WorldFault.TheVariants.{OutOfMemory};

    ghost from_gives = { λ _ e. e ≡ OutOfMemory };

    fn from(_refused: OutOfMemory) -> WorldFault {
        WorldFault::OutOfMemory
    }
}
