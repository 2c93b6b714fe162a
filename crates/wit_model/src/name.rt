//! Names, docs and ids.

ghost use Rattle.std.specs.Prelude.{◌≡◌, IfOk};

use crate::memory::OutOfMemory;
use crate::text::Text;
use std::alloc::Global;

/// A WIT name in four forms: as written, and as the printed code writes it in snake case, in camel case and in
/// upper case.
#[derive(Debug, PartialEq, Drop)]
pub struct Name {
    pub wit: Text,
    pub snake: Text,
    pub camel: Text,
    pub upper: Text,
}

impl Name {
    /// An equal name.
    pub fn copy(&self, alloc: Global) -> Result<Name, OutOfMemory>
        ensures { IfOk result (λ n. n ≡ self.now) }
    {
        Ok(Name {
            wit: self.wit.copy(alloc)?,
            snake: self.snake.copy(alloc)?,
            camel: self.camel.copy(alloc)?,
            upper: self.upper.copy(alloc)?,
        })
    }
}

/// The doc comment of an item, if there is one.
#[derive(Debug, PartialEq, Drop)]
pub struct Docs {
    pub contents: Option<Text>,
}

/// A world's place in the table of worlds, counted from 0.
#[derive(Clone, Copy, Debug, PartialEq, Eq)]
pub struct WorldId(pub u32);

/// A package's place in the table of packages, counted from 0.
#[derive(Clone, Copy, Debug, PartialEq, Eq)]
pub struct PackageId(pub u32);

/// An interface's place in the table of interfaces, counted from 0.
#[derive(Clone, Copy, Debug, PartialEq, Eq)]
pub struct InterfaceId(pub u32);

/// A type's place in the table of types, counted from 0.
#[derive(Clone, Copy, Debug, PartialEq, Eq)]
pub struct TypeId(pub u32);
