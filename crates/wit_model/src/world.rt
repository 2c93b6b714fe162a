//! Packages and worlds.

use crate::function::Function;
use crate::list::List;
use crate::name::{Docs, InterfaceId, Name, PackageId, TypeId};
use crate::text::Text;

/// A package: `namespace:name`, with its version, and the name of its module in the printed code.
#[derive(Debug, PartialEq, Drop)]
pub struct Package {
    pub namespace: Name,
    pub name: Name,
    pub version: Option<Text>,
    pub module: Text,
}

/// What an import or an export of a world stands under: the name of a function, of a type or of an inline interface, or an
/// interface itself.
#[derive(Debug, PartialEq, Drop)]
pub enum WorldKey {
    Name(Name),
    Interface(InterfaceId),
}

/// An import or an export of a world.
#[derive(Debug, PartialEq, Drop)]
pub enum WorldItem {
    Interface(InterfaceId),
    Function(Function),
    Named(TypeId),
}

/// A world: what a component imports and exports.
#[derive(Debug, PartialEq, Drop)]
pub struct World {
    pub name: Name,
    pub package: PackageId,
    pub imports: List<(WorldKey, WorldItem)>,
    pub exports: List<(WorldKey, WorldItem)>,
}

/// An interface: types and functions under one name.
#[derive(Debug, PartialEq, Drop)]
pub struct Interface {
    pub name: Option<Name>,
    pub package: Option<PackageId>,
    pub types: List<TypeId>,
    pub functions: List<Function>,
    pub docs: Docs,
}
