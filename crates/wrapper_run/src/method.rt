//! Calls of an implementation's methods.

ghost use Rattle.std.specs.Prelude.{◌≡◌, ◌++◌, IfOk, Some, None, if◌then◌else◌, option_map};
ghost use Rattle.std.specs.Option.{option_copied};
ghost use Rattle.wrapper_values.specs.Act.{Runs};
ghost use Rattle.wrapper_run.specs.ExportRun as spec;
ghost use Rattle.wrapper_values.specs.Owning as owning;
ghost use Rattle.wrapper_values.specs.Setting.{setting};

use rust_tree::{FnParam, Item, TraitFn, TypeExpr};
use std::alloc::Global;
use wit_model::{List, OutOfMemory, Text};
use wrapper_data::{Answer, CallPoint, Heap, RustValue, Target};
use wrapper_values::{Halt, State, Val, World, answer_in, taken_by};

fn method_in<'a>(functions: &'a [TraitFn], name: &str) -> Option<&'a TraitFn>
    ensures { option_copied result ≡ spec.method_in functions.now name.now }
{
    functions.iter().find(|f| f.name.as_str() == name)
}

fn method_of<'a>(item: &'a Item, bound: &str, name: &str) -> Option<&'a TraitFn>
    ensures { option_copied result ≡ spec.method_of item.now bound.now name.now }
{
    match item {
        Item::Trait(t) if t.name.as_str() == bound => method_in(t.functions.as_slice(), name),
        _ => None,
    }
}

/// The function of a name in a trait of the file.
fn method_named<'a>(items: &'a [Item], bound: &str, name: &str) -> Option<&'a TraitFn>
    ensures { option_copied result ≡ spec.method_named items.now bound.now name.now }
{
    for item in items {
        if let Some(found) = method_of(item, bound, name) {
            return Some(found);
        }
    }
    None
}

/// The value that is passed for a parameter of a printed type, if the value is one of that type.
fn passed_as(
    alloc: Global,
    items: &[Item],
    ty: &TypeExpr,
    v: &Val,
) -> Result<Option<RustValue>, OutOfMemory>
    ensures { IfOk result (λ passed. passed ≡ spec.passed_as items.now ty.now v.now) }
{
    match answer_in(alloc, items, ty, v)? {
        None => Ok(None),
        Some(passed) => Ok(passed),
    }
}

/// Puts the values of the arguments behind others, and tells whether each is of its parameter's type.
fn push_values(
    alloc: Global,
    items: &[Item],
    values: &mut List<RustValue>,
    params: &[FnParam],
    vs: &[Val],
) -> Result<bool, OutOfMemory>
    ensures { IfOk result
        (λ all. (if all then Some values.new else None) ≡ option_map (λ rs. values.old ++ rs) (spec.values_of items.now params.now vs.now)) }
{
    match (params.split_first(), vs.split_first()) {
        (None, None) => Ok(true),
        (Some((p, params)), Some((v, vs))) => match passed_as(alloc, items, &p.ty, v)? {
            None => Ok(false),
            Some(r) => {
                values.push(r)?;
                push_values(alloc, items, values, params, vs)
            }
        },
        _ => Ok(false),
    }
}

/// The values of the arguments, each of its parameter's type, if they are that.
fn values_of(
    alloc: Global,
    items: &[Item],
    params: &[FnParam],
    vs: &[Val],
) -> Result<Option<List<RustValue>>, OutOfMemory>
    ensures { IfOk result (λ values. values ≡ spec.values_of items.now params.now vs.now) }
{
    let mut values = List::new(alloc);
    if push_values(alloc, items, &mut values, params, vs)? {
        Ok(Some(values))
    } else {
        Ok(None)
    }
}

fn method_point(
    alloc: Global,
    bound: &Text,
    name: &Text,
    heap: &Heap,
    values: List<RustValue>,
) -> Result<CallPoint, OutOfMemory>
    ensures { IfOk result
        (λ point. point ≡ spec.method_point bound.now name.now heap.now values) }
{
    Ok(CallPoint {
        target: Target::Method(bound.copy(alloc)?, name.copy(alloc)?),
        words: List::new(alloc),
        values,
        heap: heap.copy(alloc)?,
    })
}

/// The call of an implementation's method, with the heap at the call, and the type of its result.
#[tactic(auto, unfolding(crate::specs::ExportRun::method_call))]
fn method_call<'a>(
    alloc: Global,
    items: &'a [Item],
    bound: &Text,
    name: &Text,
    heap: &Heap,
    vs: &[Val],
) -> Result<Option<(CallPoint, &'a TypeExpr)>, OutOfMemory>
    ensures { IfOk result
        (λ call. option_map (λ c. (c.0, c.1.now)) call ≡ spec.method_call items.now bound.now name.now heap.now vs.now) }
{
    match method_named(items, bound.as_str(), name.as_str()) {
        None => Ok(None),
        Some(f) => match values_of(alloc, items, f.params.as_slice(), vs)? {
            None => Ok(None),
            Some(values) => {
                let point = method_point(alloc, bound, name, heap, values)?;
                Ok(Some((point, &f.result)))
            }
        },
    }
}

/// The value that a method of a printed type returns: none where the type is `()`.
fn returned_of(
    alloc: Global,
    items: &[Item],
    ty: &TypeExpr,
    value: &Option<RustValue>,
) -> Result<Option<Val>, OutOfMemory>
    ensures { IfOk result (λ v. v ≡ spec.returned_of items.now ty.now value.now) }
{
    match value {
        None => match answer_in(alloc, items, ty, &Val::Value(RustValue::Unit))? {
            None => Ok(None),
            Some(_) => Ok(Some(Val::Value(RustValue::Unit))),
        },
        Some(value) => match passed_as(alloc, items, ty, &Val::Value(value.copy(alloc)?))? {
            None => Ok(None),
            Some(returned) => Ok(Some(Val::Value(returned))),
        },
    }
}

/// The addresses of the blocks that an implementation's value owns.
fn taken_by_value(alloc: Global, value: &Option<RustValue>) -> Result<List<u32>, OutOfMemory>
    ensures { IfOk result (λ taken. taken ≡ owning.taken_by (owning.listed value.now)) }
{
    let mut values = List::new(alloc);
    if let Some(value) = value {
        values.push(value.copy(alloc)?)?;
    }
    taken_by(alloc, values.as_slice())
}

/// The implementation leaves a heap, and its value is the call's.
#[tactic(auto, unfolding(crate::specs::ExportRun::take_value))]
fn take_value(alloc: Global, world: &World, state: &mut State, ty: &TypeExpr) -> Result<Val, Halt>
    ensures { Runs (spec.take_value (setting world.now) ty.now state.old) result state.new }
{
    match world.answer {
        Answer::Words { .. } => Err(Halt::Stopped(world.stuck())),
        Answer::Value { value, heap } => {
            state.heap = heap.copy(alloc)?;
            state.taken = taken_by_value(alloc, value)?;
            match returned_of(alloc, world.items, ty, value)? {
                None => Err(Halt::Stopped(world.stuck())),
                Some(v) => Ok(v),
            }
        }
    }
}

/// Calls a method of the implementation, whose trait has this name.
pub(crate) fn call_method(
    alloc: Global,
    world: &World,
    state: &mut State,
    bound: &Text,
    name: &Text,
    vs: &[Val],
) -> Result<Val, Halt>
    ensures { Runs (spec.call_method (setting world.now) bound.now name.now vs.now state.old) result state.new }
{
    match method_call(alloc, world.items, bound, name, &state.heap, vs)? {
        None => Err(Halt::Stopped(world.stuck())),
        Some((point, ty)) => {
            state.calls.push(point)?;
            take_value(alloc, world, state, ty)
        }
    }
}
