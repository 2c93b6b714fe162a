//! The wrappers of a file are the driver's code.

mod code;
mod memory;
mod sites;
mod trees;
mod worlds;

ghost use Rattle.std.specs.Prelude.{◌<◌, [], ◌∷◌, length};
ghost use Rattle.wit_model.specs.WellFormed.{IsWellFormed};
ghost use Rattle.wit_model.specs.declared.types.WitType.TheVariants.{Id};
ghost use Rattle.wrapper_meaning.specs.Shape.{shape_at};
ghost use Rattle.abi_bindgen.specs.Served.{Serves};
ghost use Rattle.abi_driver.specs.Low.{IsSmallRecord};

use code::{export_code, import_code};
use rust_gen::{Build, Files, Opts};
use rust_tree::{Bindings, WrapperId};
use std::alloc::Global;
use std::test::Fail;
use trees::{export_tree, import_tree, prints};
use wit_model::{Resolve, WorldId};
use worlds::{world_of_a_variant, world_of_flags};
use wrapper_run::{export_at, import_at};

/// The tree of the first world of tables.
fn tree_of(alloc: Global, resolve: &Resolve) -> Result<Bindings, Fail> {
    let mut generator = Opts::default(alloc).build(alloc)?;
    let mut files = Files::new(alloc);
    let tree = generator.generate(resolve, WorldId(0), &mut files)?;
    Ok(tree)
}

/// Whether the first wrappers of two trees are imports with the same body.
fn are_one_import(made: &Bindings, driven: &Bindings) -> bool {
    let first = WrapperId(0);
    match (import_at(made, first), import_at(driven, first)) {
        (Some((_, made)), Some((_, driven))) => made.body == driven.body,
        _ => false,
    }
}

/// Whether the first wrappers of two trees are exports with the same body.
fn are_one_export(made: &Bindings, driven: &Bindings) -> bool {
    let first = WrapperId(0);
    match (export_at(made, first), export_at(driven, first)) {
        (Some((_, made)), Some((_, driven))) => {
            made.call == driven.call && made.rest == driven.rest
        }
        _ => false,
    }
}

/// Whether the first wrapper of a tree is the import that the driver makes.
fn is_driven_import(alloc: Global, resolve: &Resolve, tree: &Bindings) -> Result<bool, Fail>
    requires well { IsWellFormed resolve.now }
    requires some { 0 < length resolve.now.types }
    requires serves { Serves (shape_at resolve.now.types 0) }
    requires small { IsSmallRecord resolve.now.types (Id (record { 0 = 0 }) ∷ []) }
{
    let body = import_code(alloc, resolve)?;
    let driven = import_tree(alloc, body)?;
    Ok(are_one_import(tree, &driven))
}

/// Whether the first wrapper of a tree is the export that the driver makes.
fn is_driven_export(alloc: Global, resolve: &Resolve, tree: &Bindings) -> Result<bool, Fail>
    requires well { IsWellFormed resolve.now }
    requires some { 0 < length resolve.now.types }
    requires serves { Serves (shape_at resolve.now.types 0) }
    requires small { IsSmallRecord resolve.now.types (Id (record { 0 = 0 }) ∷ []) }
{
    let body = export_code(alloc, resolve)?;
    let driven = export_tree(alloc, body)?;
    Ok(are_one_export(tree, &driven))
}

/// The float's bits, put into the slot that a whole number shares.
const PAYLOAD: &str =
    "V::A(e0) => {\n(0i32, ::core::mem::MaybeUninit::new(i64::from((_rt::as_f32(e0)).to_bits()) as u64), 0usize)\n";

/// Whether the import of this world is the driver's code, and passes the float so.
fn passes_payload(alloc: Global, resolve: &Resolve) -> Result<bool, Fail>
    requires well { IsWellFormed resolve.now }
    requires some { 0 < length resolve.now.types }
    requires serves { Serves (shape_at resolve.now.types 0) }
    requires small { IsSmallRecord resolve.now.types (Id (record { 0 = 0 }) ∷ []) }
{
    let tree = tree_of(alloc, resolve)?;
    let is_same = is_driven_import(alloc, resolve, &tree)?;
    let has_text = prints(alloc, &tree, PAYLOAD)?;
    Ok(is_same && has_text)
}

#[test]
fn a_payload_in_a_joined_slot_is_passed_by_the_drivers_code(rt: HostRuntime) -> Result<(), Fail> {
    let resolve = world_of_a_variant(rt.alloc())?;
    assert!(rt; passes_payload(rt.alloc(), &resolve)?);
    Ok(())
}

/// Both words, the second behind the first.
const WORDS: &str =
    "Fl::empty() | Fl::from_bits_retain(((arg0 as u32 as u64) << 0) as _) | Fl::from_bits_retain(((arg1 as u32 as u64) << 32) as _)";

/// Whether the export of this world is the driver's code, and reads both words so.
fn reads_words(alloc: Global, resolve: &Resolve) -> Result<bool, Fail>
    requires well { IsWellFormed resolve.now }
    requires some { 0 < length resolve.now.types }
    requires serves { Serves (shape_at resolve.now.types 0) }
    requires small { IsSmallRecord resolve.now.types (Id (record { 0 = 0 }) ∷ []) }
{
    let tree = tree_of(alloc, resolve)?;
    let is_same = is_driven_export(alloc, resolve, &tree)?;
    let has_text = prints(alloc, &tree, WORDS)?;
    Ok(is_same && has_text)
}

#[test]
fn flags_of_two_words_are_read_by_the_drivers_code(rt: HostRuntime) -> Result<(), Fail> {
    let resolve = world_of_flags(rt.alloc())?;
    assert!(rt; reads_words(rt.alloc(), &resolve)?);
    Ok(())
}
