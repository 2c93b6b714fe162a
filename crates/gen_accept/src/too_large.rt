//! Which type of the table, or else which function of a world, is the first that is too large to be built.

ghost use Rattle.std.specs.Prelude.{◌≡◌, ◌<◌, ◌^◌, IfOk, IsTrue, List, find, map};
ghost use Rattle.std.specs.Option.{option_map};
ghost use Rattle.wit_model.specs.WellFormed.{IsWellFormed};
ghost use Rattle.wit_layout.specs.Filled.{IsFilledFor, have_sizes};
ghost use Rattle.type_defs.specs.Nodes.{nodes};
ghost use Rattle.gen_accept.specs.Emitted.{exported_functions, imported_functions};
ghost use Rattle.gen_accept.specs.InRange.{AreInRange};
ghost use Rattle.gen_accept.specs.TooLarge.{AreSized, earlier, first_large, first_large_function, is_large_function, large_function};

use crate::emitted::functions_in;
use crate::error::TooLarge;
use std::alloc::Global;
use type_defs::{first_deep, has_few_nodes, node_counts};
use wit_layout::{LayoutFault, SizeAlign};
use wit_model::{Function, List, OutOfMemory, Param, Resolve, TypeDef, TypeId, WitType, World};

fn types_of(alloc: Global, params: &[Param]) -> Result<List<WitType>, OutOfMemory>
    ensures { IfOk result (λ types. types ≡ map (λ p. p.ty) params.now) }
{
    let mut types = List::new(alloc);
    for p in params {
        types.push(p.ty)?;
    }
    Ok(types)
}

fn is_large_function(
    alloc: Global,
    sizes: &SizeAlign,
    counts: &[u32],
    f: &Function,
) -> Result<bool, OutOfMemory>
    requires { IsTrue (have_sizes sizes.now (map (λ p. p.ty) f.now.params)) }
    ensures { IfOk result
        (λ b. (table : List TypeDef) → IsFilledFor sizes.now table → counts.now ≡ nodes table → b ≡ is_large_function table f.now) }
{
    let types = types_of(alloc, f.params.as_slice())?;
    Ok(!sizes.fits_in_record(types.as_slice()) || !has_few_nodes(counts, f))
}

/// The first of some functions that is too large.
fn first_large_of<'a>(
    alloc: Global,
    sizes: &SizeAlign,
    counts: &[u32],
    functions: &[&'a Function],
) -> Result<Option<&'a Function>, OutOfMemory>
    requires { AreSized sizes.now (map (λ f. f.now) functions.now) }
    ensures { IfOk result
        (λ found. (table : List TypeDef) → IsFilledFor sizes.now table → counts.now ≡ nodes table
        → option_map (λ f. f.now) found ≡ find (is_large_function table) (map (λ f. f.now) functions.now)) }
{
    for function in functions {
        if is_large_function(alloc, sizes, counts, function)? {
            return Ok(Some(function));
        }
    }
    Ok(None)
}

/// The first function of a world that is too large: the imports come first.
fn first_large_function<'a>(
    alloc: Global,
    sizes: &SizeAlign,
    types: &[TypeDef],
    world: &'a World,
) -> Result<Option<&'a Function>, OutOfMemory>
    requires filled { IsFilledFor sizes.now types.now }
    requires imports { AreSized sizes.now (imported_functions world.now) }
    requires exports { AreSized sizes.now (exported_functions world.now) }
    ensures { IfOk result
        (λ found. option_map (λ f. f.now) found ≡ first_large_function types.now world.now) }
{
    let counts = node_counts(alloc, types)?;
    let imports = functions_in(alloc, world.imports.as_slice())?;
    let first = first_large_of(alloc, sizes, counts.as_slice(), imports.as_slice())?;
    if first.is_some() {
        return Ok(first);
    }
    let exports = functions_in(alloc, world.exports.as_slice())?;
    first_large_of(alloc, sizes, counts.as_slice(), exports.as_slice())
}

fn large_function(alloc: Global, found: Option<&Function>) -> Result<Option<TooLarge>, OutOfMemory>
    ensures { IfOk result (λ large. large ≡ option_map (λ f. large_function f.now) found.entry) }
{
    match found {
        None => Ok(None),
        Some(f) => Ok(Some(TooLarge::Func(f.name.wit.copy(alloc)?))),
    }
}

fn earlier(id: TypeId, other: Option<usize>) -> TypeId
    ensures { result.0 ≡ earlier id.0 other }
{
    match other {
        Some(nth) if nth < id.0 as usize => TypeId(nth as u32),
        _ => id,
    }
}

/// The first type of the table that has more than 2^31 - 1 bytes where pointers have 8, or more than a hundred entries of the
/// table on a way down; else the first function of the world whose parameters have as many bytes as one record, or whose types
/// unfold to more than 65,536 nodes.
pub(crate) fn first_large(
    alloc: Global,
    resolve: &Resolve,
    world: &World,
) -> Result<Option<TooLarge>, OutOfMemory>
    requires well { IsWellFormed resolve.now }
    requires imports { AreInRange resolve.now (imported_functions world.now) }
    requires exports { AreInRange resolve.now (exported_functions world.now) }
    ensures { IfOk result (λ large. large ≡ first_large resolve.now.types world.now) }
{
    let types = resolve.types.as_slice();
    let deep = first_deep(alloc, types)?;
    match SizeAlign::fill(alloc, resolve) {
        Err(LayoutFault::OutOfMemory) => Err(OutOfMemory),
        Err(LayoutFault::TooLarge(id)) => Ok(Some(TooLarge::Type_(earlier(id, deep)))),
        Ok(sizes) => match deep {
            Some(nth) => Ok(Some(TooLarge::Type_(TypeId(nth as u32)))),
            None => large_function(alloc, first_large_function(alloc, &sizes, types, world)?),
        },
    }
}
