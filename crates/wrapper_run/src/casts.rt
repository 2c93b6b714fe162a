//! What forms make of the value of the one expression in them: casts, methods, and the words of bools and of cases.

ghost use Rattle.std.specs.Option.{option_map};
ghost use Rattle.wrapper_values.specs.Act.{Runs, or_stop};
ghost use Rattle.wrapper_values.specs.CoreWords as core_words;
ghost use Rattle.wrapper_values.specs.Effect as effect;
ghost use Rattle.wrapper_values.specs.Enums as enums;
ghost use Rattle.wrapper_values.specs.Setting.{setting, stuck};
ghost use Rattle.wrapper_values.specs.declared.state.Val.TheVariants as val;

use rust_tree::{CastType, Method};
use wrapper_values::{Halt, State, Val, World, called_on, cast_to};

/// The word of a bool.
pub(crate) fn word_of_bool(world: &World, state: &State, v: &Val) -> Result<Val, Halt>
    ensures { Runs (or_stop (stuck (setting world.now)) (option_map val.Word (effect.word_of_bool v.now)) state.now) result state.now }
{
    match wrapper_values::word_of_bool(v) {
        None => Err(Halt::Stopped(world.stuck())),
        Some(w) => Ok(Val::Word(w)),
    }
}

/// The word of the case of an enum.
pub(crate) fn word_of_case(world: &World, state: &State, v: &Val) -> Result<Val, Halt>
    ensures { Runs (or_stop (stuck (setting world.now)) (option_map val.Word (enums.word_of_case v.now)) state.now) result state.now }
{
    match wrapper_values::word_of_case(v) {
        None => Err(Halt::Stopped(world.stuck())),
        Some(w) => Ok(Val::Word(w)),
    }
}

/// A value cast to a type.
pub(crate) fn cast(world: &World, state: &State, to: CastType, v: &Val) -> Result<Val, Halt>
    ensures { Runs (or_stop (stuck (setting world.now)) (effect.cast_to to v.now) state.now) result state.now }
{
    match cast_to(to, v) {
        None => Err(Halt::Stopped(world.stuck())),
        Some(v) => Ok(v),
    }
}

/// What a method gives that takes one core value to another.
pub(crate) fn call_on(world: &World, state: &State, method: Method, v: &Val) -> Result<Val, Halt>
    ensures { Runs (or_stop (stuck (setting world.now)) (core_words.called_on method v.now) state.now) result state.now }
{
    match called_on(method, v) {
        None => Err(Halt::Stopped(world.stuck())),
        Some(v) => Ok(v),
    }
}
