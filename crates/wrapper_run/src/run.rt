//! The run of an import's wrapper.

ghost use Rattle.std.specs.Prelude.{◌≡◌, ◌++◌, ◌<◌, IfOk, IsSome, OnOk, Some, option_map, slice_get};
ghost use Rattle.std.specs.Option.{option_copied};
ghost use Rattle.rust_tree.specs.Tree.{wrappers_of};
ghost use Rattle.wrapper_values.specs.Act.{Runs};
ghost use Rattle.wrapper_run.specs.Run as spec;
ghost use Rattle.wrapper_values.specs.Setting.{setting};

use crate::body::run_block;
use crate::freeing::leave_to;
use rust_tree::{Bindings, FnItem, FnParam, Item, WrapperId};
use std::alloc::Global;
use wit_model::{List, OutOfMemory};
use wrapper_data::{Answer, Choices, Form, Heap, Run, RustValue, Stop, Word};
use wrapper_values::{Halt, Local, State, Val, World, answer_in, taken_by};

/// Puts the parameters, with their arguments, behind other locals.
fn push_args(
    alloc: Global,
    locals: &mut List<Local>,
    params: &[FnParam],
    args: &[RustValue],
) -> Result<(), OutOfMemory>
    ensures { OnOk result (locals.new ≡ locals.old ++ spec.bound_args params.now args.now) }
{
    match (params.split_first(), args.split_first()) {
        (Some((p, params)), Some((a, args))) => {
            let name = p.name.copy(alloc)?;
            let value = Some(Val::Value(a.copy(alloc)?));
            locals.push(Local { name, value })?;
            push_args(alloc, locals, params, args)
        }
        _ => Ok(()),
    }
}

fn bound_args(
    alloc: Global,
    params: &[FnParam],
    args: &[RustValue],
) -> Result<List<Local>, OutOfMemory>
    ensures { IfOk result (λ locals. locals ≡ spec.bound_args params.now args.now) }
{
    let mut locals = List::new(alloc);
    push_args(alloc, &mut locals, params, args)?;
    Ok(locals)
}

/// The state in which a run begins: its parameters, a heap, choices, and the blocks that owners have.
pub(crate) fn begin(
    alloc: Global,
    locals: List<Local>,
    taken: List<u32>,
    heap: &Heap,
    choices: &Choices,
) -> Result<State, OutOfMemory>
    ensures { IfOk result (λ state. state ≡ spec.begin locals taken heap.now choices.now) }
{
    Ok(State {
        locals,
        imports: List::new(alloc),
        heap: heap.copy(alloc)?,
        choices: List::from_slice(alloc, choices.list.as_slice())?,
        requests: List::new(alloc),
        calls: List::new(alloc),
        taken,
        place: None,
    })
}

fn start(
    alloc: Global,
    f: &FnItem,
    args: &List<RustValue>,
    heap: &Heap,
    choices: &Choices,
) -> Result<State, OutOfMemory>
    ensures { IfOk result (λ state. state ≡ spec.start f.now args.now heap.now choices.now) }
{
    let locals = bound_args(alloc, f.params.as_slice(), args.as_slice())?;
    let taken = taken_by(alloc, args.as_slice())?;
    begin(alloc, locals, taken, heap, choices)
}

fn run_fn(
    alloc: Global,
    world: &World,
    state: &mut State,
    f: &FnItem,
) -> Result<Option<RustValue>, Halt>
    ensures { Runs (spec.run_fn (setting world.now) f.now state.old) result state.new }
{
    let v = run_block(alloc, world, state, &f.body)?;
    let answer = match answer_in(alloc, world.items, &f.result, &v)? {
        None => return Err(Halt::Stopped(world.stuck())),
        Some(answer) => answer,
    };
    leave_to(alloc, world, state, 0)?;
    Ok(answer)
}

/// The run that ends at a state.
pub(crate) fn run_at(stop: Stop, words: List<Word>, value: Option<RustValue>, state: State) -> Run
    ensures { result ≡ spec.run_at stop words value state }
{
    let State {
        locals: _,
        imports: _,
        heap,
        choices: _,
        requests,
        calls,
        taken: _,
        place: _,
    } = state;
    Run {
        stop,
        calls,
        requests,
        heap,
        words,
        value,
    }
}

/// The run of an import's wrapper that is this item, by its number.
#[tactic(auto, unfolding(crate::specs::Run::run_item))]
fn run_item(
    alloc: Global,
    world: &World,
    f: &FnItem,
    args: &List<RustValue>,
    heap: &Heap,
    choices: &Choices,
) -> Result<Run, OutOfMemory>
    ensures { IfOk result
        (λ run. run ≡ spec.run_item (setting world.now) f.now args.now heap.now choices.now) }
{
    let mut state = start(alloc, f, args, heap, choices)?;
    match run_fn(alloc, world, &mut state, f) {
        Ok(value) => Ok(run_at(Stop::Done, List::new(alloc), value, state)),
        Err(Halt::Stopped(stop)) => Ok(run_at(stop, List::new(alloc), None, state)),
        Err(Halt::OutOfMemory) => Err(OutOfMemory),
    }
}

/// The import wrapper that is the wrapper of this number.
fn import_nth(items: &[Item], nth: u32) -> Option<&FnItem>
    ensures { option_copied result ≡ spec.import_nth nth items.now }
{
    let mut left = nth;
    for item in items {
        match item {
            Item::Import(f) if left == 0 => return Some(f),
            Item::Export(_) if left == 0 => return None,
            Item::Import(_) | Item::Export(_) => left -= 1,
            _ => {}
        }
    }
    None
}

/// The number of the item that a wrapper is.
pub(crate) fn item_number(tree: &Bindings, wrapper: WrapperId) -> Option<u32>
    ensures { result ≡ option_map (λ info. info.item.0) (slice_get (wrappers_of tree.now) wrapper.0) }
{
    match tree.wrappers().get(wrapper.0 as usize) {
        None => None,
        Some(info) => Some(info.item.0),
    }
}

/// The wrapper of an imported function by its number in the tree, with the number of its item, or nothing where that is the
/// number of no import's wrapper.
pub fn import_at(tree: &Bindings, wrapper: WrapperId) -> Option<(u32, &FnItem)>
    ensures { option_map (λ w. (w.0, w.1.now)) result ≡ spec.import_at tree.now wrapper.0 }
{
    match (
        import_nth(tree.items(), wrapper.0),
        item_number(tree, wrapper),
    ) {
        (Some(f), Some(number)) => Some((number, f)),
        _ => None,
    }
}

/// Runs the wrapper of an imported function: from these arguments and this heap, with an allocator that answers by these
/// choices and a peer that answers thus. The wrapper must be an import's wrapper of the tree, as [`import_at`] tells.
/// Addresses, sizes and lengths are in bytes, and pointers have four of them; values cross as the Canonical ABI of the
/// Component Model says.
///
/// The run is the one that the definition gives. It ends Done; or BadChoice, where a choice does not fit a return area; or, in
/// the debug form, with the Trap that names why incoming data stands for no value; or Stuck, with the number of the wrapper's
/// item, where the code does what has no meaning. `OutOfMemory` is the machine's own want of memory.
pub fn run_import(
    alloc: Global,
    tree: &Bindings,
    wrapper: WrapperId,
    args: &List<RustValue>,
    heap: &Heap,
    choices: &Choices,
    answer: &Answer,
    form: Form,
) -> Result<Run, OutOfMemory>
    requires { IsSome (spec.import_at tree.now wrapper.0) }
    ensures { IfOk result
        (λ run. Some run ≡ spec.import_run tree.now wrapper.0 args.now heap.now choices.now answer.now form) }
{
    match import_at(tree, wrapper) {
        None => unreachable!(),
        Some((item, f)) => {
            let world = World {
                items: tree.items(),
                item,
                answer,
                form,
            };
            run_item(alloc, &world, f, args, heap, choices)
        }
    }
}
