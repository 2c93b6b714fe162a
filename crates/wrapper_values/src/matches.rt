//! Matches: which values an arm's pattern takes, what it binds of them, and how the results of the arm get their names.

ghost use Rattle.std.specs.Prelude.{◌≡◌, IfOk};
ghost use Rattle.std.specs.Option.{option_map};
ghost use Rattle.wrapper_values.specs.Act.{Runs, and_then, or_stop};
ghost use Rattle.wrapper_values.specs.Locals as locals;
ghost use Rattle.wrapper_values.specs.Matches as spec;
ghost use Rattle.wrapper_values.specs.Owning as owning;
ghost use Rattle.wrapper_values.specs.Setting.{setting, stuck};
ghost use Rattle.wrapper_values.specs.Variants as variants;
ghost use Rattle.wrapper_values.specs.declared.state.Val.TheVariants as val;

use crate::locals::bind;
use crate::state::{Halt, State, Val, World};
use crate::variants::case_number;
use rust_tree::{ArmPattern, Item, MatchNames, Path};
use std::alloc::Global;
use wit_model::{OutOfMemory, Text};
use wrapper_data::{Form, RustValue, Stop, Word};

fn number_of(v: &Val) -> Option<u32>
    ensures { result ≡ variants.number_of v.now }
{
    match v {
        Val::Value(RustValue::Case(number, _)) => Some(*number),
        _ => None,
    }
}

fn i32_of(v: &Val) -> Option<i32>
    ensures { result ≡ spec.i32_of v.now }
{
    match v {
        Val::Word(Word::I32(z)) => Some(*z),
        _ => None,
    }
}

fn is_number(n: u32, z: i32) -> bool
    ensures { result ≡ spec.is_number n z }
{
    i64::from(z) == i64::from(n)
}

/// Whether a path names the case that a value is. Nothing, where it names none or the value is none.
fn is_case(items: &[Item], path: &Path, v: &Val) -> Option<bool>
    ensures { result ≡ spec.same_case (variants.case_number items.now path.now) (variants.number_of v.now) }
{
    match (case_number(items, path), number_of(v)) {
        (Some(n), Some(m)) => Some(n == m),
        _ => None,
    }
}

/// Whether an arm of a `match` takes a value. Nothing, where its pattern has no meaning at the value.
#[tactic(auto, unfolding(crate::specs::Matches::takes))]
pub fn takes(items: &[Item], pattern: &ArmPattern, v: &Val) -> Option<bool>
    ensures { result ≡ spec.takes items.now pattern.now v.now }
{
    match pattern {
        ArmPattern::Case(path) | ArmPattern::Payload(path, _) | ArmPattern::LeftOut(path) => {
            is_case(items, path, v)
        }
        ArmPattern::Number(n) => match i32_of(v) {
            None => None,
            Some(z) => Some(is_number(*n, z)),
        },
        ArmPattern::Name(_) | ArmPattern::AnyOther => Some(true),
    }
}

/// Leaves a value out. Stuck where it owns a block, which nobody would drop.
fn leave_out(alloc: Global, world: &World, state: &State, v: &Val) -> Result<(), Halt>
    ensures { Runs (spec.left_out (setting world.now) (owning.owned v.now) state.now) result state.now }
{
    if v.owned(alloc)?.as_slice().is_empty() {
        Ok(())
    } else {
        Err(Halt::Stopped(world.stuck()))
    }
}

/// The payload of the case that a value is.
fn payload_of(alloc: Global, v: &Val) -> Result<Option<Val>, OutOfMemory>
    ensures { IfOk result (λ payload. payload ≡ option_map val.Value (variants.payload_of v.now)) }
{
    match v {
        Val::Value(RustValue::Case(_, Some(payload))) => {
            Ok(Some(Val::Value(payload.get().copy(alloc)?)))
        }
        _ => Ok(None),
    }
}

fn bind_payload(
    alloc: Global,
    world: &World,
    state: &mut State,
    name: &Text,
    v: &Val,
) -> Result<(), Halt>
    ensures { Runs (and_then (or_stop (stuck (setting world.now)) (option_map val.Value (variants.payload_of v.now)) state.old) (locals.bind name.now)) result state.new }
{
    match payload_of(alloc, v)? {
        None => Err(Halt::Stopped(world.stuck())),
        Some(payload) => bind(alloc, state, name, payload),
    }
}

/// Binds what an arm's pattern binds of a value that it takes. Stuck where it leaves out what owns a block, or where there is
/// no payload to bind; and out of memory where there is none for a local.
pub fn enter_arm(
    alloc: Global,
    world: &World,
    state: &mut State,
    pattern: &ArmPattern,
    v: &Val,
) -> Result<(), Halt>
    ensures { Runs (spec.enter_arm (setting world.now) pattern.now v.now state.old) result state.new }
{
    match pattern {
        ArmPattern::Case(_) | ArmPattern::LeftOut(_) | ArmPattern::AnyOther => {
            leave_out(alloc, world, state, v)
        }
        ArmPattern::Payload(_, name) => bind_payload(alloc, world, state, name, v),
        ArmPattern::Number(_) => Ok(()),
        ArmPattern::Name(name) => {
            let value = v.copy(alloc)?;
            bind(alloc, state, name, value)
        }
    }
}

/// Binds as many values as names.
fn bind_values(
    alloc: Global,
    world: &World,
    state: &mut State,
    names: &[Text],
    vs: &[Val],
) -> Result<(), Halt>
    ensures { Runs (spec.bind_values (setting world.now) names.now vs.now state.old) result state.new }
{
    match (names.split_first(), vs.split_first()) {
        (None, None) => Ok(()),
        (Some((name, names)), Some((v, vs))) => {
            let value = v.copy(alloc)?;
            bind(alloc, state, name, value)?;
            bind_values(alloc, world, state, names, vs)
        }
        _ => Err(Halt::Stopped(world.stuck())),
    }
}

/// Binds a name to the one value.
fn bind_one(
    alloc: Global,
    world: &World,
    state: &mut State,
    name: &Text,
    vs: &[Val],
) -> Result<(), Halt>
    ensures { Runs (spec.bind_one (setting world.now) name.now vs.now state.old) result state.new }
{
    match vs {
        [v] => {
            let value = v.copy(alloc)?;
            bind(alloc, state, name, value)
        }
        _ => Err(Halt::Stopped(world.stuck())),
    }
}

/// Binds the names of a tuple of two parts or more.
fn bind_tuple(
    alloc: Global,
    world: &World,
    state: &mut State,
    names: &[Text],
    vs: &[Val],
) -> Result<(), Halt>
    ensures { Runs (spec.bind_tuple (setting world.now) names.now vs.now state.old) result state.new }
{
    match names {
        [_, _, ..] => bind_values(alloc, world, state, names, vs),
        _ => Err(Halt::Stopped(world.stuck())),
    }
}

/// Binds the names of a `match` to the results of its arm. Stuck where these are not as many; and out of memory where there is
/// none for a local.
pub fn bind_results(
    alloc: Global,
    world: &World,
    state: &mut State,
    names: &MatchNames,
    vs: &[Val],
) -> Result<(), Halt>
    ensures { Runs (spec.bind_results (setting world.now) names.now vs.now state.old) result state.new }
{
    match names {
        MatchNames::Nothing => match vs {
            [] => Ok(()),
            _ => Err(Halt::Stopped(world.stuck())),
        },
        MatchNames::One(name) => bind_one(alloc, world, state, name, vs),
        MatchNames::Parts(names) => bind_tuple(alloc, world, state, names.as_slice(), vs),
    }
}

/// Tests that a word is the number of a last case, in the form that tests what comes in.
pub fn assert_last(world: &World, state: &State, n: u32, v: &Val) -> Result<(), Halt>
    ensures { Runs (spec.assert_last (setting world.now) n v.now state.now) result state.now }
{
    let Some(z) = i32_of(v) else {
        return match world.form {
            Form::Release => Ok(()),
            Form::Debug => Err(Halt::Stopped(world.stuck())),
        };
    };
    match world.form.trap_at(n, z) {
        None => Ok(()),
        Some(kind) => Err(Halt::Stopped(Stop::Trap(kind))),
    }
}
