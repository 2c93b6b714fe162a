//! Which traits a definition derives.

ghost use Rattle.std.specs.Prelude.{◌≡◌, IfOk, map};
ghost use Rattle.type_defs.specs.Derives.{clone_name, copy_name, derives_of, enum_derives};
ghost use Rattle.type_defs.specs.Paths.{local_path};

use crate::lists::{one, two};
use crate::paths::local_path;
use rust_tree::Path;
use std::alloc::Global;
use type_facts::TypeInfo;
use wit_model::{List, OutOfMemory, Text};

#[tactic(auto, unfolding(crate::specs::Derives::clone_name))]
fn clone_name(alloc: Global) -> Result<Text, OutOfMemory>
    ensures { IfOk result (λ name. name ≡ clone_name) }
{
    Text::from_str(alloc, "Clone")
}

#[tactic(auto, unfolding(crate::specs::Derives::copy_name))]
fn copy_name(alloc: Global) -> Result<Text, OutOfMemory>
    ensures { IfOk result (λ name. name ≡ copy_name) }
{
    Text::from_str(alloc, "Copy")
}

/// What a type with these facts derives: `Clone` and `Copy`, `Clone`, or nothing.
pub(crate) fn derives_of(alloc: Global, info: TypeInfo) -> Result<List<Path>, OutOfMemory>
    ensures { IfOk result (λ derives. derives ≡ derives_of info) }
{
    if !info.is_clone() {
        return Ok(List::new(alloc));
    }
    let clone = local_path(alloc, clone_name(alloc)?)?;
    if !info.is_copy() {
        return one(alloc, clone);
    }
    let copy = local_path(alloc, copy_name(alloc)?)?;
    two(alloc, clone, copy)
}

fn local_paths(alloc: Global, names: &[&str]) -> Result<List<Path>, OutOfMemory>
    ensures { IfOk result (λ paths. paths ≡ map local_path (map (λ n. n.now) names.now)) }
{
    let mut paths = List::new(alloc);
    for name in names {
        paths.push(local_path(alloc, Text::from_str(alloc, name)?)?)?;
    }
    Ok(paths)
}

/// What each enum derives.
#[tactic(auto, unfolding(crate::specs::Derives::clone_name, crate::specs::Derives::copy_name, crate::specs::Derives::eq_name, crate::specs::Derives::ord_name, crate::specs::Derives::partial_eq_name, crate::specs::Derives::partial_ord_name))]
pub(crate) fn enum_derives(alloc: Global) -> Result<List<Path>, OutOfMemory>
    ensures { IfOk result (λ derives. derives ≡ enum_derives) }
{
    local_paths(
        alloc,
        &["Clone", "Copy", "Eq", "Ord", "PartialEq", "PartialOrd"],
    )
}
