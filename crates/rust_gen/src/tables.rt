//! What is known of a world's types, by which the bodies of a file are made.

ghost use Rattle.std.specs.Prelude.{◌≡◌, true, Some, IfOk, slice_get};
ghost use Rattle.wit_model.specs.declared.name.WorldId.{WorldId};
ghost use Rattle.wit_model.specs.declared.world.World.{World};
ghost use Rattle.type_facts.specs.Facts.{IsAnalysis};
ghost use Rattle.type_defs.specs.Levels.{are_shallow};
ghost use Rattle.type_sites.specs.Sites.{type_sites};
ghost use Rattle.rust_gen.specs.Known.{AreAtHand, CanWriteTypes};

use func_gen::TypeTables;
use std::alloc::Global;
use type_facts::Types;
use type_sites::type_sites;
use wit_layout::{LayoutFault, SizeAlign};
use wit_model::{OutOfMemory, Resolve};

/// The tables of a world's types, by the facts of these: their layouts, and how the types are written that a function of the world uses.
pub(crate) fn type_tables(
    alloc: Global,
    resolve: &Resolve,
    facts: &Types,
) -> Result<TypeTables, OutOfMemory>
    requires { (id : WorldId) × CanWriteTypes resolve.now id × IsAnalysis resolve.now id facts.now }
    ensures tables { IfOk result (AreAtHand resolve.now.types) }
    ensures sites { IfOk result
        (λ tables. (id : WorldId) (world : World) → IsAnalysis resolve.now id facts.now → slice_get resolve.now.worlds id.0 ≡ Some world → are_shallow resolve.now.types ≡ true → tables.sites ≡ type_sites resolve.now world) }
{
    let sites = type_sites(alloc, resolve, facts)?;
    match SizeAlign::fill(alloc, resolve) {
        Ok(sizes) => Ok(TypeTables { sizes, sites }),
        Err(LayoutFault::OutOfMemory) => Err(OutOfMemory),
        Err(LayoutFault::TooLarge(_)) => unreachable!(),
    }
}
