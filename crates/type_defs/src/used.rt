//! Which types are defined in the file of a world, and under which names.

ghost use Rattle.std.specs.Prelude.{◌≡◌, ◌++◌, true, IfOk, OnOk, Some, filter, map, slice_get};
ghost use Rattle.type_facts.specs.Facts.{IsAnalysis};
ghost use Rattle.type_defs.specs.Levels.{are_shallow};
ghost use Rattle.type_defs.specs.Listing.{are_listed_well};
ghost use Rattle.type_defs.specs.Modes.{is_wanted};
ghost use Rattle.type_defs.specs.PrintedTypes.{entry_at, type_name};
ghost use Rattle.type_defs.specs.Used.{defined_types};

use crate::define::is_defined;
use crate::listed_types::types_in;
use crate::type_opts::TypeOpts;
use rust_tree::to_upper_camel_case;
use std::alloc::Global;
use type_facts::{TypeInfo, Types};
use wit_model::{OutOfMemory, Resolve, Text, TypeDef, TypeId, World, WorldId};

/// Puts a type behind others, if it is defined by these facts.
fn push_defined<'a>(
    defined: &mut Vec<&'a TypeDef>,
    opts: TypeOpts,
    info: TypeInfo,
    resolve: &'a Resolve,
    id: TypeId,
) -> Result<(), OutOfMemory>
    ensures { OnOk result
        (map (λ t. t.now) defined.new.items ≡ map (λ t. t.now) defined.old.items ++ filter (λ t. is_wanted opts info t.kind) (entry_at resolve.now.types id)) }
{
    match resolve.type_def(id) {
        None => Ok(()),
        Some(entry) => {
            if is_defined(opts, info, &entry.kind) {
                defined.push(entry)?;
            }
            Ok(())
        }
    }
}

/// The types that a world lists and that are defined in its file, in its order, by the facts of the types in this world: enums and flags
/// types, those that a function of the world uses, and all where unused types are asked for. `OutOfMemory` comes where there is no memory
/// for a place for each.
pub fn defined_types<'a>(
    alloc: Global,
    opts: TypeOpts,
    resolve: &'a Resolve,
    facts: &Types,
    world: &World,
) -> Result<Vec<&'a TypeDef>, OutOfMemory>
    requires analyzed { (id : WorldId) × (slice_get resolve.now.worlds id.0 ≡ Some world.now) × IsAnalysis resolve.now id facts.now }
    requires shallow { are_shallow resolve.now.types ≡ true }
    requires listed { are_listed_well resolve.now ≡ true }
    ensures { IfOk result
        (λ ts. map (λ t. t.now) ts.items ≡ defined_types opts resolve.now world.now) }
{
    let listed = types_in(alloc, world.imports.as_slice())?;
    let mut defined = Vec::new(alloc);
    for own in listed.as_slice() {
        push_defined(&mut defined, opts, facts.get(*own), resolve, *own)?;
    }
    Ok(defined)
}

/// The name of a type that is defined: its identifier, and no text where it has no name. `OutOfMemory` comes where there is
/// no memory for the identifier.
pub fn type_name(alloc: Global, entry: &TypeDef) -> Result<Text, OutOfMemory>
    ensures { IfOk result (λ name. name ≡ type_name entry.now) }
{
    match &entry.name {
        None => Ok(Text::new(alloc)),
        Some(name) => to_upper_camel_case(alloc, name),
    }
}
