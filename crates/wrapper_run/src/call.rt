//! Calls: of a declared core import, and of the functions of `_rt`.

ghost use Rattle.std.specs.Prelude.{◌≡◌, ◌++◌, IfOk, OnOk, Some, None, if◌then◌else◌};
ghost use Rattle.std.specs.Option.{option_map};
ghost use Rattle.wrapper_data.specs.Answered.{answered};
ghost use Rattle.wrapper_values.specs.Act.{Runs};
ghost use Rattle.wrapper_values.specs.Effect as effect;
ghost use Rattle.wrapper_run.specs.Run as spec;
ghost use Rattle.wrapper_values.specs.Setting.{setting};

use crate::blocks::lift_text;
use crate::callee::{Callee, callee_of};
use crate::freeing::{dealloc_words, forget};
use rust_tree::{ImportDecl, Item, Path, RuntimeItem};
use std::alloc::Global;
use std::mem;
use wit_model::{List, OutOfMemory, Text, WasmType};
use wrapper_data::{Answer, Block, CallPoint, Heap, RustValue, Target, TrapKind, Word};
use wrapper_values::{
    CoreFn, Halt, State, Val, World, converted, core_word, enum_lift_of, full_case, import_named,
    is_enum, is_word_of, lift_of, local_named, number_at_root, word_of,
};

/// Puts the words of the arguments behind others, and tells whether each is of its parameter's type.
fn push_words(words: &mut List<Word>, types: &[WasmType], vs: &[Val]) -> Result<bool, OutOfMemory>
    ensures { IfOk result
        (λ all. (if all then Some words.new else None) ≡ option_map (λ ws. words.old ++ ws) (spec.words_of types.now vs.now)) }
{
    match (types.split_first(), vs.split_first()) {
        (None, None) => Ok(true),
        (Some((ty, types)), Some((v, vs))) => match word_of(*ty, v) {
            None => Ok(false),
            Some(w) => {
                words.push(w)?;
                push_words(words, types, vs)
            }
        },
        _ => Ok(false),
    }
}

/// The words of the arguments, each of its parameter's type, if they are that.
fn words_of(
    alloc: Global,
    types: &[WasmType],
    vs: &[Val],
) -> Result<Option<List<Word>>, OutOfMemory>
    ensures { IfOk result (λ words. words ≡ spec.words_of types.now vs.now) }
{
    let mut words = List::new(alloc);
    if push_words(&mut words, types, vs)? {
        Ok(Some(words))
    } else {
        Ok(None)
    }
}

fn point_of(
    alloc: Global,
    d: &ImportDecl,
    heap: &Heap,
    words: List<Word>,
) -> Result<CallPoint, OutOfMemory>
    ensures { IfOk result (λ point. point ≡ spec.point_of d.now heap.now words) }
{
    Ok(CallPoint {
        target: Target::Core(d.module.copy(alloc)?, d.link_name.copy(alloc)?),
        words,
        values: List::new(alloc),
        heap: heap.copy(alloc)?,
    })
}

fn result_of(ty: Option<WasmType>, answered: Option<Word>) -> Option<Val>
    ensures { result ≡ spec.result_of ty answered }
{
    match (ty, answered) {
        (None, None) => Some(Val::Value(RustValue::Unit)),
        (Some(ty), Some(w)) if is_word_of(ty, w) => Some(Val::Word(w)),
        _ => None,
    }
}

/// The runtime item whose function has a name, among the file's items.
fn runtime_item_in(parts: &[RuntimeItem], name: &str) -> Option<RuntimeItem>
    ensures { result ≡ spec.runtime_item_in parts.now name.now }
{
    parts.iter().copied().find(|part| part.name() == name)
}

fn found_in(item: &Item, name: &str) -> Option<RuntimeItem>
    ensures { result ≡ spec.found_in item.now name.now }
{
    match item {
        Item::Runtime(parts) => runtime_item_in(parts.as_slice(), name),
        _ => None,
    }
}

/// The runtime item whose function has a name, if the file has one.
fn runtime_item_named(items: &[Item], name: &str) -> Option<RuntimeItem>
    ensures { result ≡ spec.runtime_item_named items.now name.now }
{
    for item in items {
        if let Some(found) = found_in(item, name) {
            return Some(found);
        }
    }
    None
}

fn lift_act(
    world: &World,
    state: &State,
    lifted: Option<Result<RustValue, TrapKind>>,
) -> Result<Val, Halt>
    ensures { Runs (spec.lift_act (setting world.now) lifted state.now) result state.now }
{
    match lifted {
        None => Err(Halt::Stopped(world.stuck())),
        Some(Ok(v)) => Ok(Val::Value(v)),
        Some(Err(kind)) => Err(Halt::Stopped(world.failed(kind))),
    }
}

/// A conversion to a core value, or a lift to a value without blocks.
fn convert_or_lift(world: &World, state: &State, item: RuntimeItem, v: &Val) -> Result<Val, Halt>
    ensures { Runs (spec.converted_or_lifted (setting world.now) (effect.converted item v.now) (effect.lift_of world.now.form item v.now) state.now) result state.now }
{
    match converted(item, v) {
        Some(w) => Ok(Val::Word(w)),
        None => lift_act(world, state, lift_of(world.form, item, v)),
    }
}

/// Applies a function of `_rt` to a value.
fn apply_item(
    alloc: Global,
    world: &World,
    state: &State,
    item: RuntimeItem,
    v: &Val,
) -> Result<Val, Halt>
    ensures { Runs (spec.apply_item (setting world.now) item v.now state.now) result state.now }
{
    match item {
        RuntimeItem::StringLift => lift_text(alloc, world, state, v),
        _ => convert_or_lift(world, state, item, v),
    }
}

/// Calls a function of `_rt`.
#[tactic(auto, unfolding(crate::specs::Run::call_runtime))]
fn call_runtime(
    alloc: Global,
    world: &World,
    state: &mut State,
    name: &Text,
    vs: &[Val],
) -> Result<Val, Halt>
    ensures { Runs (spec.call_runtime (setting world.now) name.now vs.now state.old) result state.new }
{
    match (runtime_item_named(world.items, name.as_str()), vs) {
        (Some(RuntimeItem::CabiDealloc), vs) => dealloc_words(alloc, world, state, vs),
        (Some(RuntimeItem::InvalidEnumDiscriminant), []) => {
            Err(Halt::Stopped(world.failed(TrapKind::Discriminant)))
        }
        (Some(RuntimeItem::InvalidEnumDiscriminant), _) => Err(Halt::Stopped(world.stuck())),
        (Some(item), [v]) => apply_item(alloc, world, state, item, v),
        _ => Err(Halt::Stopped(world.stuck())),
    }
}

/// The call of a declared import, with the heap at the call, and the type of its result.
#[tactic(auto, unfolding(crate::specs::Run::call_point))]
fn call_point(
    alloc: Global,
    state: &State,
    name: &Text,
    vs: &[Val],
) -> Result<Option<(CallPoint, Option<WasmType>)>, OutOfMemory>
    ensures { IfOk result (λ point. point ≡ spec.call_point state.now name.now vs.now) }
{
    if local_named(state.locals.as_slice(), name.as_str()).is_some() {
        return Ok(None);
    }
    match import_named(state.imports.as_slice(), name.as_str()) {
        None => Ok(None),
        Some(d) => match words_of(alloc, d.params.as_slice(), vs)? {
            None => Ok(None),
            Some(words) => Ok(Some((point_of(alloc, d, &state.heap, words)?, d.result))),
        },
    }
}

/// The peer adds its blocks and writes its bytes, and its word is the call's value.
#[tactic(auto, unfolding(crate::specs::Run::take_answer))]
fn take_answer(
    alloc: Global,
    world: &World,
    state: &mut State,
    ty: Option<WasmType>,
) -> Result<Val, Halt>
    ensures { Runs (spec.take_answer (setting world.now) ty state.old) result state.new }
{
    match world.answer {
        Answer::Value { .. } => Err(Halt::Stopped(world.stuck())),
        Answer::Words {
            result: answered,
            writes,
            blocks,
        } => {
            change_heap(alloc, state, writes, blocks)?;
            match result_of(ty, *answered) {
                None => Err(Halt::Stopped(world.stuck())),
                Some(v) => Ok(v),
            }
        }
    }
}

fn change_heap(
    alloc: Global,
    state: &mut State,
    writes: &List<(u32, u8)>,
    blocks: &List<Block>,
) -> Result<(), OutOfMemory>
    ensures { OnOk result
        (state.new ≡ record state.old { heap = answered blocks.now writes.now state.old.heap }) }
{
    let empty = Heap {
        blocks: List::new(alloc),
    };
    let heap = mem::replace(&mut state.heap, empty);
    state.heap = heap.answered(alloc, writes.as_slice(), blocks.as_slice())?;
    Ok(())
}

fn call_import(
    alloc: Global,
    world: &World,
    state: &mut State,
    name: &Text,
    vs: &[Val],
) -> Result<Val, Halt>
    ensures { Runs (spec.call_import (setting world.now) name.now vs.now state.old) result state.new }
{
    match call_point(alloc, state, name, vs)? {
        None => Err(Halt::Stopped(world.stuck())),
        Some((point, ty)) => {
            state.calls.push(point)?;
            take_answer(alloc, world, state, ty)
        }
    }
}

/// The case of an enum whose number one value is.
fn lift_case(world: &World, state: &State, name: &Text, vs: &[Val]) -> Result<Val, Halt>
    ensures { Runs (spec.lift_case (setting world.now) name.now vs.now state.now) result state.now }
{
    match vs {
        [v] => lift_act(world, state, enum_lift_of(world.items, name, v)),
        _ => Err(Halt::Stopped(world.stuck())),
    }
}

/// Makes the case of a number with one value as its payload.
fn make_case(
    alloc: Global,
    world: &World,
    state: &State,
    number: Option<u32>,
    vs: &[Val],
) -> Result<Val, Halt>
    ensures { Runs (spec.make_case (setting world.now) number vs.now state.now) result state.now }
{
    match vs {
        [v] => full_case(alloc, world, state, number, v),
        _ => Err(Halt::Stopped(world.stuck())),
    }
}

/// Calls a member of a type of the file: the function `_lift` of an enum, or a case.
#[tactic(auto, unfolding(crate::specs::Run::lift_name))]
fn call_member(
    alloc: Global,
    world: &World,
    state: &State,
    ty: &Text,
    name: &Text,
    vs: &[Val],
) -> Result<Val, Halt>
    ensures { Runs (spec.call_member (setting world.now) ty.now name.now vs.now state.now) result state.now }
{
    if is_enum(world.items, ty) && name.as_str() == "_lift" {
        return lift_case(world, state, ty, vs);
    }
    let number = number_at_root(world.items, ty, name);
    make_case(alloc, world, state, number, vs)
}

/// Calls a function of the core library with one value.
fn call_core(world: &World, state: &State, f: CoreFn, vs: &[Val]) -> Result<Val, Halt>
    ensures { Runs (spec.call_core (setting world.now) f vs.now state.now) result state.now }
{
    match vs {
        [v] => match core_word(f, v) {
            None => Err(Halt::Stopped(world.stuck())),
            Some(w) => Ok(Val::Word(w)),
        },
        _ => Err(Halt::Stopped(world.stuck())),
    }
}

/// Forgets one value.
fn forget_one(alloc: Global, world: &World, state: &mut State, vs: &[Val]) -> Result<Val, Halt>
    ensures { Runs (spec.forget_one (setting world.now) vs.now state.old) result state.new }
{
    match vs {
        [v] => forget(alloc, world, state, v),
        _ => Err(Halt::Stopped(world.stuck())),
    }
}

/// Calls what a path names.
pub(crate) fn call(
    alloc: Global,
    world: &World,
    state: &mut State,
    path: &Path,
    vs: &[Val],
) -> Result<Val, Halt>
    ensures { Runs (spec.call (setting world.now) path.now vs.now state.old) result state.new }
{
    match callee_of(path) {
        Callee::Alone(name) => call_import(alloc, world, state, name, vs),
        Callee::Runtime(name) => call_runtime(alloc, world, state, name, vs),
        Callee::MemberOf(ty, name) => call_member(alloc, world, state, ty, name, vs),
        Callee::CoreCase(number) => make_case(alloc, world, state, Some(number), vs),
        Callee::Core(f) => call_core(world, state, f, vs),
        Callee::Forget => forget_one(alloc, world, state, vs),
        Callee::Unknown => Err(Halt::Stopped(world.stuck())),
    }
}
