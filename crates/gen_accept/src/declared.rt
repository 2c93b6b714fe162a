//! Names that a file declares, with the scopes in which they stand.

ghost use Rattle.std.specs.Prelude.{◌≡◌};
ghost use Rattle.gen_accept.specs.Clash.{space};

use wit_model::{List, Text};

/// As what a name is declared. Names of one space are compared with each other, and each sort stands in one.
#[derive(Clone, Copy)]
pub(crate) enum Sort {
    /// A module, a type, a trait or a type parameter; and the wrapper of an exported function, or its post-return
    /// function, besides.
    Type_,
    /// A type of the world.
    WorldType,
    /// A function or a static; and in a scope of its own a field, a function of a trait or a parameter.
    Value,
    Macro,
}

/// Names of one space are compared with each other.
#[derive(Clone, Copy, PartialEq, Eq, Hash)]
pub(crate) enum Space {
    Types,
    Values,
    Macros,
}

impl Sort {
    /// The space in which a name of this sort stands.
    pub(crate) fn space(self) -> Space
        ensures { result ≡ space self }
    {
        match self {
            Sort::Type_ | Sort::WorldType => Space::Types,
            Sort::Value => Space::Values,
            Sort::Macro => Space::Macros,
        }
    }
}

/// A name, and as what it is declared.
#[derive(Drop)]
pub(crate) struct Declared {
    pub sort: Sort,
    pub name: Text,
}

/// The names that stand in a module itself, where the name of the scope is empty, or in a type, a trait or a function of it.
#[derive(Drop)]
pub(crate) struct NameScope {
    pub name: Text,
    pub names: List<Declared>,
}
