//! Values with parts: how parts become one value, and how each part of a value gets a name.

ghost use Rattle.std.specs.Prelude.{◌≡◌, ◌++◌, IfOk, Some, None, if◌then◌else◌, option_and_then};
ghost use Rattle.std.specs.Option.{option_map};
ghost use Rattle.wrapper_values.specs.Act.{Runs, or_stop};
ghost use Rattle.wrapper_values.specs.Effect as effect;
ghost use Rattle.wrapper_values.specs.Fields as fields_spec;
ghost use Rattle.wrapper_values.specs.Setting.{setting, stuck};
ghost use Rattle.wrapper_values.specs.Whole as spec;

use crate::fields::arranged;
use crate::locals::bind;
use crate::state::{Halt, State, Val, World};
use rust_tree::{Path, Pattern};
use std::alloc::Global;
use wit_model::{List, OutOfMemory, Text, WitType};
use wrapper_data::{RustValue, Word};

fn rust_of_word(w: Word) -> Option<RustValue>
    ensures { result ≡ effect.rust_of_word w }
{
    match w {
        Word::I32(z) => Some(RustValue::Num(WitType::S32, i128::from(z))),
        Word::I64(z) => Some(RustValue::Num(WitType::S64, i128::from(z))),
        Word::F32(bits) => Some(RustValue::F32(bits)),
        Word::F64(bits) => Some(RustValue::F64(bits)),
        _ => None,
    }
}

/// The value of the Rust side that something is, as a part of another value.
pub(crate) fn rust_of(alloc: Global, v: &Val) -> Result<Option<RustValue>, OutOfMemory>
    ensures { IfOk result (λ r. r ≡ effect.rust_of v.now) }
{
    match v {
        Val::Word(w) => Ok(rust_of_word(*w)),
        Val::Value(value) => Ok(Some(value.copy(alloc)?)),
        Val::Area(_, _) => Ok(None),
    }
}

/// Puts the values of the Rust side that some values are behind others, and tells whether each is one.
fn push_rust_values(
    alloc: Global,
    parts: &mut List<RustValue>,
    vs: &[Val],
) -> Result<bool, OutOfMemory>
    ensures { IfOk result
        (λ all. (if all then Some parts.new else None) ≡ option_map (λ rs. parts.old ++ rs) (spec.rust_values vs.now)) }
{
    match vs.split_first() {
        None => Ok(true),
        Some((v, vs)) => match rust_of(alloc, v)? {
            None => Ok(false),
            Some(r) => {
                parts.push(r)?;
                push_rust_values(alloc, parts, vs)
            }
        },
    }
}

/// The value with these parts, in their order. Stuck where one of them is no value of the Rust side; and out of memory where
/// there is none for a copy.
pub fn whole_of(alloc: Global, world: &World, state: &State, vs: &[Val]) -> Result<Val, Halt>
    ensures { Runs (or_stop (stuck (setting world.now)) (spec.whole_of vs.now) state.now) result state.now }
{
    let mut parts = List::new(alloc);
    if push_rust_values(alloc, &mut parts, vs)? {
        Ok(Val::Value(RustValue::Struct(parts)))
    } else {
        Err(Halt::Stopped(world.stuck()))
    }
}

/// The record whose fields have these values. Stuck where its path is a name of the file's root but not of a struct, where
/// these are not exactly the struct's fields, or where one is no value of the Rust side; and out of memory where there is none
/// for a copy.
pub fn record_of(
    alloc: Global,
    world: &World,
    state: &State,
    path: &Path,
    fields: &[(Text, Val)],
) -> Result<Val, Halt>
    ensures { Runs (or_stop (stuck (setting world.now)) (option_and_then spec.whole_of (fields_spec.arranged world.now.items.now path.now fields.now)) state.now) result state.now }
{
    match arranged(alloc, world.items, path, fields)? {
        None => Err(Halt::Stopped(world.stuck())),
        Some(vs) => whole_of(alloc, world, state, vs.as_slice()),
    }
}

/// Binds as many parts as names.
fn bind_parts(
    alloc: Global,
    world: &World,
    state: &mut State,
    names: &[Text],
    parts: &[RustValue],
) -> Result<(), Halt>
    ensures { Runs (spec.bind_parts (setting world.now) names.now parts.now state.old) result state.new }
{
    match (names.split_first(), parts.split_first()) {
        (None, None) => Ok(()),
        (Some((name, names)), Some((part, parts))) => {
            let value = Val::Value(part.copy(alloc)?);
            bind(alloc, state, name, value)?;
            bind_parts(alloc, world, state, names, parts)
        }
        _ => Err(Halt::Stopped(world.stuck())),
    }
}

/// Takes a value apart: each of its parts gets its name of the pattern. Stuck where it has no parts, or not as many as names,
/// or where the path or the fields of a record's pattern are not those of a struct of the file; and out of memory where there
/// is none for a local.
pub fn take_apart(
    alloc: Global,
    world: &World,
    state: &mut State,
    pattern: &Pattern,
    v: &Val,
) -> Result<(), Halt>
    ensures { Runs (spec.take_apart (setting world.now) pattern.now v.now state.old) result state.new }
{
    let parts = match v {
        Val::Value(RustValue::Struct(parts)) => parts.as_slice(),
        _ => return Err(Halt::Stopped(world.stuck())),
    };
    match pattern {
        Pattern::Record(path, fields) => {
            match arranged(alloc, world.items, path, fields.as_slice())? {
                None => Err(Halt::Stopped(world.stuck())),
                Some(names) => bind_parts(alloc, world, state, names.as_slice(), parts),
            }
        }
        Pattern::Tuple(names) | Pattern::Array(names) => {
            bind_parts(alloc, world, state, names.as_slice(), parts)
        }
    }
}
