//! The value of an expression.

ghost use Rattle.std.specs.Prelude.{◌≡◌, map};
ghost use Rattle.std.specs.Option.{option_map};
ghost use Rattle.wrapper_values.specs.Act.{Runs, all, and_then, keyed, or_stop};
ghost use Rattle.wrapper_run.specs.Blocks as blocks;
ghost use Rattle.wrapper_values.specs.CoreWords as core_words;
ghost use Rattle.wrapper_values.specs.Effect as effect;
ghost use Rattle.wrapper_values.specs.Enums as enums;
ghost use Rattle.wrapper_values.specs.Flags.{flags_of_words};
ghost use Rattle.wrapper_values.specs.Locals.{local_named, use_local, value_of};
ghost use Rattle.wrapper_run.specs.Run as spec;
ghost use Rattle.wrapper_values.specs.Setting.{setting, stuck};
ghost use Rattle.wrapper_values.specs.Whole.{field_act, record_of, whole};
ghost use Rattle.wrapper_values.specs.declared.state.Val.TheVariants as val;

use crate::blocks::{boxed, take_over};
use crate::call::call;
use crate::casts::{call_on, cast, word_of_bool, word_of_case};
use crate::memory::{at_four, loaded};
use crate::places::static_pointer;
use crate::small::load_small;
use rust_tree::{Expr, Method, Path, Repr, SmallType};
use std::alloc::Global;
use wit_model::{ArchitectureSize, List, Text, WasmType};
use wrapper_data::{RustValue, TrapKind, Word};
use wrapper_values::{
    Halt, State, Val, View, World, ask_local, bare_case, flags_from, lend_local, use_local,
    value_named, whole_of, zero_word,
};

/// A core value at an offset from an address.
fn load_word(
    alloc: Global,
    world: &World,
    state: &State,
    offset: &ArchitectureSize,
    ty: WasmType,
    v: &Val,
) -> Result<Val, Halt>
    ensures { Runs (spec.load_word (setting world.now) offset.now ty v.now state.now) result state.now }
{
    match v {
        Val::Word(Word::Pointer(address)) => {
            let address = u128::from(*address) + at_four(offset);
            match loaded(alloc, ty, address, state.heap.blocks.as_slice())? {
                None => Err(Halt::Stopped(world.failed(TrapKind::Pointer))),
                Some(w) => Ok(Val::Word(w)),
            }
        }
        _ => Err(Halt::Stopped(world.stuck())),
    }
}

/// The take-over of as many bytes as a local says.
fn take_bytes(
    alloc: Global,
    world: &World,
    state: &mut State,
    length: &Text,
    v: &Val,
) -> Result<Val, Halt>
    ensures { Runs (spec.take_bytes (setting world.now) (value_of (local_named length.now state.old.locals)) v.now state.old) result state.new }
{
    let size = match value_named(state, length) {
        Some(Val::Word(Word::Length(n))) => *n,
        _ => return Err(Halt::Stopped(world.stuck())),
    };
    match v {
        Val::Word(Word::Pointer(address)) => take_over(alloc, world, state, *address, size),
        _ => Err(Halt::Stopped(world.stuck())),
    }
}

/// A size in bytes as a length. One that is no length has no meaning.
fn size_word(world: &World, state: &State, size: &ArchitectureSize) -> Result<Val, Halt>
    ensures { Runs (or_stop (stuck (setting world.now)) (spec.size_word size.now) state.now) result state.now }
{
    match u32::try_from(at_four(size)) {
        Err(_) => Err(Halt::Stopped(world.stuck())),
        Ok(n) => Ok(Val::Word(Word::Length(n))),
    }
}

/// The bytes of the text in a local, as a box.
fn box_local(alloc: Global, world: &World, state: &mut State, name: &Text) -> Result<Val, Halt>
    ensures { Runs (and_then (use_local (stuck (setting world.now)) name.now state.old) (blocks.boxed (setting world.now))) result state.new }
{
    let v = use_local(alloc, world.stuck(), state, name)?;
    boxed(world, state, v)
}

/// Computes an expression.
#[cycle(eval)]
pub(crate) fn eval(alloc: Global, world: &World, state: &mut State, e: &Expr) -> Result<Val, Halt>
    ensures { Runs (spec.eval (setting world.now) e.now state.old) result state.new }
{
    match e {
        Expr::Local(name) => use_local(alloc, world.stuck(), state, name),
        Expr::Ref(name) => lend_local(alloc, world.stuck(), state, name),
        Expr::AsPtr(name) => ask_local(world.stuck(), state, View::TextAddress, name),
        Expr::Len(name) => ask_local(world.stuck(), state, View::TextLength, name),
        Expr::CastMut(name) => ask_local(world.stuck(), state, View::Pointer, name),
        Expr::ReturnPointer(name) => ask_local(world.stuck(), state, View::AreaAddress, name),
        Expr::Cast(e, to) => {
            let v = eval(alloc, world, state, e.get())?;
            cast(world, state, *to, &v)
        }
        Expr::Call(path, arguments) => {
            eval_call(alloc, world, state, path, arguments.as_slice())
        }
        Expr::I32FromBool(e) => eval_bool(alloc, world, state, e.get()),
        Expr::EnumNumber(e) => eval_case(alloc, world, state, e.get()),
        Expr::FlagsBits(name, by) => ask_local(world.stuck(), state, View::FlagsWord(*by), name),
        Expr::FlagsOfWords(path, repr, words) => {
            eval_flags(alloc, world, state, path, *repr, words.as_slice())
        }
        Expr::Load(e, offset, ty) => eval_load(alloc, world, state, e.get(), offset, *ty),
        Expr::LoadSmall(e, offset, ty) => {
            eval_load_small(alloc, world, state, e.get(), offset, *ty)
        }
        Expr::FromRawParts(e, length) => eval_bytes(alloc, world, state, e.get(), length),
        Expr::IntoBoxedBytes(name) => box_local(alloc, world, state, name),
        Expr::StaticPointer => static_pointer(alloc, world, state),
        Expr::Size(size) => size_word(world, state, size),
        Expr::Record(path, fields) => eval_record(alloc, world, state, path, fields.as_slice()),
        Expr::Tuple(parts) | Expr::Array(parts) => {
            eval_whole(alloc, world, state, parts.as_slice())
        }
        Expr::Unit => Ok(Val::Value(RustValue::Unit)),
        Expr::I32Const(n) => Ok(Val::Word(Word::I32(*n))),
        Expr::Zero(ty) => Ok(Val::Word(zero_word(*ty))),
        Expr::Case(path) => bare_case(world, state, path),
        Expr::Method(e, method) => eval_method(alloc, world, state, e.get(), *method),
    }
}

/// The word of the bool that an expression has.
#[cycle(eval)]
fn eval_bool(alloc: Global, world: &World, state: &mut State, e: &Expr) -> Result<Val, Halt>
    ensures { Runs (and_then (spec.eval (setting world.now) e.now state.old) (λ v. or_stop (stuck (setting world.now)) (option_map val.Word (effect.word_of_bool v)))) result state.new }
{
    let v = eval(alloc, world, state, e)?;
    word_of_bool(world, state, &v)
}

/// The word of the case that an expression has.
#[cycle(eval)]
fn eval_case(alloc: Global, world: &World, state: &mut State, e: &Expr) -> Result<Val, Halt>
    ensures { Runs (and_then (spec.eval (setting world.now) e.now state.old) (λ v. or_stop (stuck (setting world.now)) (option_map val.Word (enums.word_of_case v)))) result state.new }
{
    let v = eval(alloc, world, state, e)?;
    word_of_case(world, state, &v)
}

/// What a method gives of the core value that an expression has.
#[cycle(eval)]
fn eval_method(
    alloc: Global,
    world: &World,
    state: &mut State,
    e: &Expr,
    method: Method,
) -> Result<Val, Halt>
    ensures { Runs (and_then (spec.eval (setting world.now) e.now state.old) (λ v. or_stop (stuck (setting world.now)) (core_words.called_on method v))) result state.new }
{
    let v = eval(alloc, world, state, e)?;
    call_on(world, state, method, &v)
}

/// The core value at an offset from the address that an expression has.
#[cycle(eval)]
fn eval_load(
    alloc: Global,
    world: &World,
    state: &mut State,
    e: &Expr,
    offset: &ArchitectureSize,
    ty: WasmType,
) -> Result<Val, Halt>
    ensures { Runs (and_then (spec.eval (setting world.now) e.now state.old) (spec.load_word (setting world.now) offset.now ty)) result state.new }
{
    let v = eval(alloc, world, state, e)?;
    load_word(alloc, world, state, offset, ty, &v)
}

/// The small number at an offset from the address that an expression has.
#[cycle(eval)]
fn eval_load_small(
    alloc: Global,
    world: &World,
    state: &mut State,
    e: &Expr,
    offset: &ArchitectureSize,
    ty: SmallType,
) -> Result<Val, Halt>
    ensures { Runs (and_then (spec.eval (setting world.now) e.now state.old) (spec.load_small (setting world.now) offset.now ty)) result state.new }
{
    let v = eval(alloc, world, state, e)?;
    load_small(alloc, world, state, offset, ty, &v)
}

/// The bytes at the address that an expression has, taken over with the length that a local holds.
#[cycle(eval)]
fn eval_bytes(
    alloc: Global,
    world: &World,
    state: &mut State,
    e: &Expr,
    length: &Text,
) -> Result<Val, Halt>
    ensures { Runs (and_then (spec.eval (setting world.now) e.now state.old) (λ v. λ s. spec.take_bytes (setting world.now) (value_of (local_named length.now s.locals)) v s)) result state.new }
{
    let v = eval(alloc, world, state, e)?;
    take_bytes(alloc, world, state, length, &v)
}

#[cycle(eval)]
fn eval_call(
    alloc: Global,
    world: &World,
    state: &mut State,
    path: &Path,
    arguments: &[Expr],
) -> Result<Val, Halt>
    ensures { Runs (and_then (all (map (spec.eval (setting world.now)) arguments.now) state.old) (λ vs. spec.call (setting world.now) path.now vs)) result state.new }
{
    let vs = eval_all(alloc, world, state, arguments)?;
    call(alloc, world, state, path, vs.as_slice())
}

/// The tuple or array whose parts have these expressions.
#[cycle(eval)]
fn eval_whole(alloc: Global, world: &World, state: &mut State, parts: &[Expr]) -> Result<Val, Halt>
    ensures { Runs (whole (setting world.now) (map (spec.eval (setting world.now)) parts.now) state.old) result state.new }
{
    let vs = eval_all(alloc, world, state, parts)?;
    whole_of(alloc, world, state, vs.as_slice())
}

/// The record whose fields have these expressions, computed in the order of the tree.
#[cycle(eval)]
fn eval_record(
    alloc: Global,
    world: &World,
    state: &mut State,
    path: &Path,
    fields: &[(Text, Expr)],
) -> Result<Val, Halt>
    ensures { Runs (record_of (setting world.now) path.now (map (λ f. (f.0, spec.eval (setting world.now) f.1)) fields.now) state.old) result state.new }
{
    let vs = eval_fields(alloc, world, state, fields)?;
    wrapper_values::record_of(alloc, world, state, path, vs.as_slice())
}

/// The flags of words that have these expressions, computed in the order of the tree.
#[cycle(eval)]
fn eval_flags(
    alloc: Global,
    world: &World,
    state: &mut State,
    path: &Path,
    repr: Repr,
    words: &[(u32, Expr)],
) -> Result<Val, Halt>
    ensures { Runs (flags_of_words (setting world.now) path.now repr (map (λ x. (x.0, spec.eval (setting world.now) x.1)) words.now) state.old) result state.new }
{
    let vs = eval_words(alloc, world, state, words)?;
    flags_from(world, state, path, repr, vs.as_slice())
}

/// The values of words, each behind its shift, computed in the order of the tree.
#[cycle(eval)]
fn eval_words(
    alloc: Global,
    world: &World,
    state: &mut State,
    words: &[(u32, Expr)],
) -> Result<List<(u32, Val)>, Halt>
    ensures { Runs (all (map keyed (map (λ x. (x.0, spec.eval (setting world.now) x.1)) words.now)) state.old) result state.new }
{
    let mut vs = List::new(alloc);
    for word in words {
        let v = eval(alloc, world, state, &word.1)?;
        vs.push((word.0, v))?;
    }
    Ok(vs)
}

/// The values of a record's fields, each behind its name, computed in the order of the tree.
#[cycle(eval)]
fn eval_fields(
    alloc: Global,
    world: &World,
    state: &mut State,
    fields: &[(Text, Expr)],
) -> Result<List<(Text, Val)>, Halt>
    ensures { Runs (all (map field_act (map (λ f. (f.0, spec.eval (setting world.now) f.1)) fields.now)) state.old) result state.new }
{
    let mut vs = List::new(alloc);
    for field in fields {
        let v = eval(alloc, world, state, &field.1)?;
        vs.push((field.0.copy(alloc)?, v))?;
    }
    Ok(vs)
}

#[cycle(eval)]
pub(crate) fn eval_all(
    alloc: Global,
    world: &World,
    state: &mut State,
    es: &[Expr],
) -> Result<List<Val>, Halt>
    ensures { Runs (all (map (spec.eval (setting world.now)) es.now) state.old) result state.new }
{
    let mut vs = List::new(alloc);
    for e in es {
        let v = eval(alloc, world, state, e)?;
        vs.push(v)?;
    }
    Ok(vs)
}
