//! Worlds and packages of a document.

ghost use Rattle.wit_document.specs.World.{world_id_of, package_id_of, package_of, world_of};

use crate::fault::DocumentFault;
use crate::members::{only, optional, required, required_two};
use crate::reading::Readable;
use json::Value;
use std::alloc::Global;
use wit_model::{List, Name, Package, PackageId, WorldId, WorldItem};

/// A world as a document lists it: what its items stand under is not told there.
#[derive(Drop)]
pub(crate) struct ListedWorld {
    pub(crate) name: Name,
    pub(crate) package: PackageId,
    pub(crate) imports: List<WorldItem>,
    pub(crate) exports: List<WorldItem>,
}

#[tactic(auto, unfolding(crate::specs::World::world_id_of))]
impl Readable for WorldId {
    ghost read_of = { world_id_of };

    fn read(alloc: Global, value: &Value<'_>) -> Result<WorldId, DocumentFault> {
        Ok(WorldId(u32::read(alloc, value)?))
    }
}

#[tactic(auto, unfolding(crate::specs::World::package_id_of))]
impl Readable for PackageId {
    ghost read_of = { package_id_of };

    fn read(alloc: Global, value: &Value<'_>) -> Result<PackageId, DocumentFault> {
        Ok(PackageId(u32::read(alloc, value)?))
    }
}

#[tactic(auto, unfolding(crate::specs::World::package_of))]
impl Readable for Package {
    ghost read_of = { package_of };

    fn read(alloc: Global, value: &Value<'_>) -> Result<Package, DocumentFault> {
        only(value, &["namespace", "name", "version", "module"])?;
        let names = required_two(alloc, value, "namespace", "name")?;
        let version = optional(alloc, value, "version")?;
        let module = required(alloc, value, "module")?;
        let (namespace, name) = names;
        Ok(Package {
            namespace,
            name,
            version,
            module,
        })
    }
}

#[tactic(auto, unfolding(crate::specs::World::world_of))]
impl Readable for ListedWorld {
    ghost read_of = { world_of };

    fn read(alloc: Global, value: &Value<'_>) -> Result<ListedWorld, DocumentFault> {
        only(value, &["name", "package", "imports", "exports"])?;
        let package = required(alloc, value, "package")?;
        let name = required(alloc, value, "name")?;
        let (imports, exports) = required_two(alloc, value, "imports", "exports")?;
        Ok(ListedWorld {
            name,
            package,
            imports,
            exports,
        })
    }
}
