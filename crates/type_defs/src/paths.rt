//! Paths of one name, and the crate of flags types.

ghost use Rattle.std.specs.Prelude.{◌≡◌, IfOk};
ghost use Rattle.type_defs.specs.Paths.{bitflags_path, local_path};

use crate::lists::one;
use rust_tree::Path;
use std::alloc::Global;
use wit_model::{List, OutOfMemory, Text};

/// The path of a name in the module where it is read.
pub fn local_path(alloc: Global, name: Text) -> Result<Path, OutOfMemory>
    ensures { IfOk result (λ path. path ≡ local_path name) }
{
    let names = one(alloc, name)?;
    Ok(Path {
        lead: false,
        supers: 0,
        names,
    })
}

/// The crate that has the macro of flags types, in the runtime's.
#[tactic(auto, unfolding(crate::specs::Paths::runtime_crate, crate::specs::Paths::bitflags_rest))]
pub(crate) fn bitflags_path(alloc: Global) -> Result<Path, OutOfMemory>
    ensures { IfOk result (λ path. path ≡ bitflags_path) }
{
    let mut names = List::new(alloc);
    names.push(Text::from_str(alloc, "wit_bindgen")?)?;
    names.push(Text::from_str(alloc, "rt")?)?;
    names.push(Text::from_str(alloc, "bitflags")?)?;
    Ok(Path {
        lead: false,
        supers: 0,
        names,
    })
}
