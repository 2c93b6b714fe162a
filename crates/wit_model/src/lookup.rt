//! The entries of the tables, by their ids.

ghost use Rattle.std.specs.Prelude.{◌≡◌, slice_get};
ghost use Rattle.std.specs.Option.{option_copied};

use crate::name::{InterfaceId, PackageId, TypeId, WorldId};
use crate::resolve::Resolve;
use crate::types::TypeDef;
use crate::world::{Interface, Package, World};

impl Resolve {
    /// The world that an id names, if it is in the table.
    pub fn world(&self, id: WorldId) -> Option<&World>
        ensures { option_copied result ≡ slice_get self.now.worlds id.0 }
    {
        self.worlds.get(id.0 as usize)
    }

    /// The package that an id names, if it is in the table.
    pub fn package(&self, id: PackageId) -> Option<&Package>
        ensures { option_copied result ≡ slice_get self.now.packages id.0 }
    {
        self.packages.get(id.0 as usize)
    }

    /// The interface that an id names, if it is in the table.
    pub fn interface(&self, id: InterfaceId) -> Option<&Interface>
        ensures { option_copied result ≡ slice_get self.now.interfaces id.0 }
    {
        self.interfaces.get(id.0 as usize)
    }

    /// The type that an id names, if it is in the table.
    pub fn type_def(&self, id: TypeId) -> Option<&TypeDef>
        ensures { option_copied result ≡ slice_get self.now.types id.0 }
    {
        self.types.get(id.0 as usize)
    }
}
