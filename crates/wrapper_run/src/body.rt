//! What a body does.

ghost use Rattle.std.specs.Prelude.{◌≡◌, map};
ghost use Rattle.rust_tree.specs.declared.stmt.Arm.{out-Arm};
ghost use Rattle.wrapper_values.specs.Act.{Runs, all, and_then};
ghost use Rattle.wrapper_values.specs.Matches.{enter_arm};
ghost use Rattle.wrapper_run.specs.Arms as arms_spec;
ghost use Rattle.wrapper_run.specs.LastParts.{results};
ghost use Rattle.wrapper_run.specs.Results.{run_inner, run_results};
ghost use Rattle.wrapper_run.specs.Run as spec;
ghost use Rattle.wrapper_values.specs.Setting.{setting};

use crate::eval::{eval, eval_all};
use crate::freeing::{drop_value, leave_to};
use crate::places::declare_area;
use crate::small::store_small;
use crate::store::store_word;
use rust_tree::{Arm, Block, Expr, MatchNames, Stmt};
use std::alloc::Global;
use wit_model::List;
use wrapper_data::{RustValue, Word};
use wrapper_values::{
    Halt, State, Val, World, assert_last, bind, bind_results, declare, enter_arm, lend_local,
    take_apart, takes, write_slot,
};

/// Runs a statement.
#[cycle(run)]
fn run_stmt(alloc: Global, world: &World, state: &mut State, s: &Stmt) -> Result<(), Halt>
    ensures { Runs (spec.run_stmt (setting world.now) s.now state.old) result state.new }
{
    match s {
        Stmt::Import(d) => declare(alloc, state, d),
        Stmt::Let(name, e) => {
            let v = eval(alloc, world, state, e)?;
            bind(alloc, state, name, v)
        }
        Stmt::Expr(e) => {
            let v = eval(alloc, world, state, e)?;
            drop_value(alloc, world, state, &v)
        }
        Stmt::Area(a) => declare_area(alloc, world, state, a),
        Stmt::LetParts(pattern, e) => {
            let v = eval(alloc, world, state, e)?;
            take_apart(alloc, world, state, pattern, &v)
        }
        Stmt::Store(address, offset, ty, value) => {
            let v = eval(alloc, world, state, value)?;
            let address = eval(alloc, world, state, address)?;
            store_word(alloc, world, state, offset, *ty, &v, &address)
        }
        Stmt::StoreSmall(address, offset, ty, value) => {
            let v = eval(alloc, world, state, value)?;
            let address = eval(alloc, world, state, address)?;
            store_small(alloc, world, state, offset, *ty, &v, &address)
        }
        Stmt::Match(names, e, arms) => {
            let v = eval(alloc, world, state, e)?;
            run_match(alloc, world, state, names, arms.as_slice(), &v)
        }
        Stmt::AssertLast(name, n) => {
            let v = lend_local(alloc, world.stuck(), state, name)?;
            assert_last(world, state, *n, &v)
        }
        Stmt::LetSlot(name) => bind(alloc, state, name, Val::Word(Word::Slot(None))),
        Stmt::WriteSlot(name, e) => {
            let pointer = eval(alloc, world, state, e)?;
            write_slot(alloc, world.stuck(), state, name, &pointer)
        }
    }
}

/// Runs the first arm that takes a value, and binds the names of the `match` to its results.
#[cycle(run)]
fn run_match(
    alloc: Global,
    world: &World,
    state: &mut State,
    names: &MatchNames,
    arms: &[Arm],
    v: &Val,
) -> Result<(), Halt>
    ensures { Runs (arms_spec.run_match (setting world.now) names.now (map (spec.arm_act (setting world.now)) arms.now) v.now state.old) result state.new }
{
    let vs = run_arms(alloc, world, state, arms, v)?;
    bind_results(alloc, world, state, names, vs.as_slice())
}

/// Runs the first arm that takes a value, and gives the values of its results.
#[cycle(run)]
fn run_arms(
    alloc: Global,
    world: &World,
    state: &mut State,
    arms: &[Arm],
    v: &Val,
) -> Result<List<Val>, Halt>
    ensures { Runs (arms_spec.run_arms (setting world.now) v.now (map (spec.arm_act (setting world.now)) arms.now) state.old) result state.new }
{
    for arm in arms {
        match takes(world.items, &arm.pattern, v) {
            None => return Err(Halt::Stopped(world.stuck())),
            Some(true) => return run_arm(alloc, world, state, arm, v),
            Some(false) => {}
        }
    }
    Err(Halt::Stopped(world.stuck()))
}

/// Runs an arm that takes a value in a scope of its own, and gives the values of its results.
#[cycle(run)]
fn run_arm(
    alloc: Global,
    world: &World,
    state: &mut State,
    arm: &Arm,
    v: &Val,
) -> Result<List<Val>, Halt>
    ensures { Runs (arms_spec.run_arm (setting world.now) v.now (spec.arm_act (setting world.now) arm.now) state.old) result state.new }
{
    let outer = state.locals.len();
    let vs = run_arm_inside(alloc, world, state, arm, v)?;
    leave_to(alloc, world, state, outer)?;
    Ok(vs)
}

/// Runs an arm in the scope that is there.
#[cycle(run)]
fn run_arm_inside(
    alloc: Global,
    world: &World,
    state: &mut State,
    arm: &Arm,
    v: &Val,
) -> Result<List<Val>, Halt>
    ensures { Runs (and_then (enter_arm (setting world.now) (out-Arm arm.now).pattern v.now state.old) (λ _. run_results (setting world.now) (out-Arm arm.now).body)) result state.new }
{
    enter_arm(alloc, world, state, &arm.pattern, v)?;
    run_results(alloc, world, state, &arm.body)
}

/// Runs statements, one after another.
#[cycle(run)]
pub(crate) fn run_stmts(
    alloc: Global,
    world: &World,
    state: &mut State,
    stmts: &[Stmt],
) -> Result<(), Halt>
    ensures { Runs (spec.run_stmts (setting world.now) stmts.now state.old) result state.new }
{
    for s in stmts {
        run_stmt(alloc, world, state, s)?;
    }
    Ok(())
}

fn run_tail(
    alloc: Global,
    world: &World,
    state: &mut State,
    tail: &Option<Expr>,
) -> Result<Val, Halt>
    ensures { Runs (spec.run_tail (setting world.now) tail.now state.old) result state.new }
{
    match tail {
        None => Ok(Val::Value(RustValue::Unit)),
        Some(e) => eval(alloc, world, state, e),
    }
}

/// The values of a block's results, in order.
fn eval_results(
    alloc: Global,
    world: &World,
    state: &mut State,
    tail: &Option<Expr>,
) -> Result<List<Val>, Halt>
    ensures { Runs (all (map (spec.eval (setting world.now)) (results tail.now)) state.old) result state.new }
{
    match tail {
        None => Ok(List::new(alloc)),
        Some(Expr::Tuple(parts)) if parts.len() > 1 => {
            eval_all(alloc, world, state, parts.as_slice())
        }
        Some(e) => {
            let mut vs = List::new(alloc);
            vs.push(eval(alloc, world, state, e)?)?;
            Ok(vs)
        }
    }
}

/// Runs a block, and gives the values of its results.
#[cycle(run)]
fn run_results(
    alloc: Global,
    world: &World,
    state: &mut State,
    b: &Block,
) -> Result<List<Val>, Halt>
    ensures { Runs (run_results (setting world.now) b.now state.old) result state.new }
{
    run_stmts(alloc, world, state, b.stmts.as_slice())?;
    eval_results(alloc, world, state, &b.tail)
}

/// Runs a block that is no body in a scope of its own, and gives its values: as many as its results are.
pub(crate) fn run_inner(
    alloc: Global,
    world: &World,
    state: &mut State,
    b: &Block,
) -> Result<List<Val>, Halt>
    ensures { Runs (run_inner (setting world.now) b.now state.old) result state.new }
{
    let outer = state.locals.len();
    let vs = run_results(alloc, world, state, b)?;
    leave_to(alloc, world, state, outer)?;
    Ok(vs)
}

/// Runs a block, and gives its value.
pub(crate) fn run_block(
    alloc: Global,
    world: &World,
    state: &mut State,
    b: &Block,
) -> Result<Val, Halt>
    ensures { Runs (spec.run_block (setting world.now) b.now state.old) result state.new }
{
    run_stmts(alloc, world, state, b.stmts.as_slice())?;
    run_tail(alloc, world, state, &b.tail)
}
