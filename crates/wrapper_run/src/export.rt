//! The run of an exported function's wrapper.

ghost use Rattle.std.specs.Prelude.{◌≡◌, ◌++◌, IfOk, IsSome, OnOk, Some, option_map};
ghost use Rattle.std.specs.Option.{option_copied};
ghost use Rattle.wrapper_values.specs.Act.{Runs};
ghost use Rattle.wrapper_run.specs.ExportRun as spec;
ghost use Rattle.wrapper_values.specs.Setting.{setting};

use crate::body::{run_block, run_stmts};
use crate::eval::eval_all;
use crate::freeing::{drop_value, leave_to};
use crate::method::call_method;
use crate::run::{begin, item_number, run_at};
use rust_tree::{Bindings, Block, CallBlock, CoreParam, ExportFn, Item, WrapperId};
use std::alloc::Global;
use wit_model::{List, OutOfMemory, Text, WasmType};
use wrapper_data::{Answer, Choices, Form, Heap, Run, Stop, Word};
use wrapper_values::{Halt, Local, State, Val, World, bind, is_unit, is_word_of, word_of};

/// Puts the parameters, with their words, behind other locals.
pub(crate) fn push_words(
    alloc: Global,
    locals: &mut List<Local>,
    params: &[CoreParam],
    words: &[Word],
) -> Result<(), OutOfMemory>
    ensures { OnOk result (locals.new ≡ locals.old ++ spec.bound_words params.now words.now) }
{
    match (params.split_first(), words.split_first()) {
        (Some((p, params)), Some((w, words))) => {
            let name = p.name.copy(alloc)?;
            let value = Some(Val::Word(*w));
            locals.push(Local { name, value })?;
            push_words(alloc, locals, params, words)
        }
        _ => Ok(()),
    }
}

/// Whether words are those of core parameters, in number and kind. Others make the run of an export's wrapper, or of a
/// post-return function, stuck.
pub fn are_words_of(params: &[CoreParam], words: &[Word]) -> bool
    ensures { result ≡ spec.are_words_of params.now words.now }
{
    match (params.split_first(), words.split_first()) {
        (None, None) => true,
        (Some((p, params)), Some((w, words))) => {
            is_word_of(p.ty, *w) && are_words_of(params, words)
        }
        _ => false,
    }
}

/// Goes on where the words are those of the core parameters.
pub(crate) fn expect_words(
    stuck: Stop,
    state: &State,
    params: &[CoreParam],
    words: &[Word],
) -> Result<(), Halt>
    ensures { Runs (spec.expect_words stuck params.now words.now state.now) result state.now }
{
    if are_words_of(params, words) {
        Ok(())
    } else {
        Err(Halt::Stopped(stuck))
    }
}

fn start_export(
    alloc: Global,
    e: &ExportFn,
    words: &List<Word>,
    heap: &Heap,
    choices: &Choices,
) -> Result<State, OutOfMemory>
    ensures { IfOk result
        (λ state. state ≡ spec.start_export e.now words.now heap.now choices.now) }
{
    let mut locals = List::new(alloc);
    push_words(alloc, &mut locals, e.params.as_slice(), words.as_slice())?;
    begin(alloc, locals, List::new(alloc), heap, choices)
}

/// Computes the arguments of the call, and calls the implementation.
fn call_with(
    alloc: Global,
    world: &World,
    state: &mut State,
    bound: &Text,
    c: &CallBlock,
) -> Result<Val, Halt>
    ensures { Runs (spec.call_with (setting world.now) bound.now c.now state.old) result state.new }
{
    let vs = eval_all(alloc, world, state, c.arguments.as_slice())?;
    call_method(alloc, world, state, bound, &c.method, vs.as_slice())
}

/// Runs the statements of the block that calls the implementation, and the call.
fn call_inside(
    alloc: Global,
    world: &World,
    state: &mut State,
    bound: &Text,
    c: &CallBlock,
) -> Result<Val, Halt>
    ensures { Runs (spec.call_inside (setting world.now) bound.now c.now state.old) result state.new }
{
    run_stmts(alloc, world, state, c.stmts.as_slice())?;
    call_with(alloc, world, state, bound, c)
}

/// Runs the block that calls the implementation, and ends its scope.
fn run_call(
    alloc: Global,
    world: &World,
    state: &mut State,
    bound: &Text,
    c: &CallBlock,
) -> Result<Val, Halt>
    ensures { Runs (spec.run_call (setting world.now) bound.now c.now state.old) result state.new }
{
    let outer = state.locals.len();
    let v = call_inside(alloc, world, state, bound, c)?;
    leave_to(alloc, world, state, outer)?;
    Ok(v)
}

fn keep_result(
    alloc: Global,
    world: &World,
    state: &mut State,
    name: &Option<Text>,
    v: Val,
) -> Result<(), Halt>
    ensures { Runs (spec.keep_result (setting world.now) name.now v state.old) result state.new }
{
    match name {
        None => drop_value(alloc, world, state, &v),
        Some(name) => bind(alloc, state, name, v),
    }
}

/// The words of a core result, if the value is one of that type.
fn core_answer(
    alloc: Global,
    ty: Option<WasmType>,
    v: &Val,
) -> Result<Option<List<Word>>, OutOfMemory>
    ensures { IfOk result (λ words. words ≡ spec.core_answer ty v.now) }
{
    let mut words = List::new(alloc);
    match ty {
        None => {
            if is_unit(v) {
                Ok(Some(words))
            } else {
                Ok(None)
            }
        }
        Some(ty) => match word_of(ty, v) {
            None => Ok(None),
            Some(w) => {
                words.push(w)?;
                Ok(Some(words))
            }
        },
    }
}

/// Runs a block that gives the words of a core result.
pub(crate) fn run_to_words(
    alloc: Global,
    world: &World,
    state: &mut State,
    ty: Option<WasmType>,
    block: &Block,
) -> Result<List<Word>, Halt>
    ensures { Runs (spec.run_to_words (setting world.now) ty block.now state.old) result state.new }
{
    let v = run_block(alloc, world, state, block)?;
    let words = match core_answer(alloc, ty, &v)? {
        None => return Err(Halt::Stopped(world.stuck())),
        Some(words) => words,
    };
    leave_to(alloc, world, state, 0)?;
    Ok(words)
}

fn run_export_fn(
    alloc: Global,
    world: &World,
    state: &mut State,
    e: &ExportFn,
    words: &[Word],
) -> Result<List<Word>, Halt>
    ensures { Runs (spec.run_export_fn (setting world.now) e.now words.now state.old) result state.new }
{
    expect_words(world.stuck(), state, e.params.as_slice(), words)?;
    let v = run_call(alloc, world, state, &e.bound, &e.call)?;
    keep_result(alloc, world, state, &e.call.result, v)?;
    run_to_words(alloc, world, state, e.result, &e.rest)
}

/// The run of an export's wrapper that is this item, by its number.
#[tactic(auto, unfolding(crate::specs::ExportRun::run_export_item))]
fn run_export_item(
    alloc: Global,
    world: &World,
    e: &ExportFn,
    words: &List<Word>,
    heap: &Heap,
    choices: &Choices,
) -> Result<Run, OutOfMemory>
    ensures { IfOk result
        (λ run. run ≡ spec.run_export_item (setting world.now) e.now words.now heap.now choices.now) }
{
    let mut state = start_export(alloc, e, words, heap, choices)?;
    match run_export_fn(alloc, world, &mut state, e, words.as_slice()) {
        Ok(given) => Ok(run_at(Stop::Done, given, None, state)),
        Err(Halt::Stopped(stop)) => Ok(run_at(stop, List::new(alloc), None, state)),
        Err(Halt::OutOfMemory) => Err(OutOfMemory),
    }
}

/// The export wrapper that is the wrapper of this number.
fn export_nth(items: &[Item], nth: u32) -> Option<&ExportFn>
    ensures { option_copied result ≡ spec.export_nth nth items.now }
{
    let mut left = nth;
    for item in items {
        match item {
            Item::Export(e) if left == 0 => return Some(e),
            Item::Import(_) if left == 0 => return None,
            Item::Import(_) | Item::Export(_) => left -= 1,
            _ => {}
        }
    }
    None
}

/// The wrapper of an exported function by its number in the tree, with the number of its item, or nothing where that is the
/// number of no export's wrapper.
pub fn export_at(tree: &Bindings, wrapper: WrapperId) -> Option<(u32, &ExportFn)>
    ensures { option_map (λ w. (w.0, w.1.now)) result ≡ spec.export_at tree.now wrapper.0 }
{
    match (
        export_nth(tree.items(), wrapper.0),
        item_number(tree, wrapper),
    ) {
        (Some(e), Some(number)) => Some((number, e)),
        _ => None,
    }
}

/// Runs the wrapper of an exported function: from these words and this heap, with an allocator that answers by these
/// choices and an implementation that answers thus. The wrapper must be an export's wrapper of the tree, as [`export_at`]
/// tells. Addresses, sizes and lengths are in bytes, and pointers have four of them; values cross as the Canonical ABI of
/// the Component Model says.
///
/// The run is the one that the definition gives. It ends Done, with the words of the core result; or BadChoice, where the
/// first choice does not fit the static area, which is asked for when its pointer is taken and stays in the heap; or, in the
/// debug form, with the Trap that names why the words stand for no value; or Stuck, with the number of the wrapper's item,
/// where the words are not those of its core parameters, in number and kind, or the code does what has no meaning.
/// `OutOfMemory` is the machine's own want of memory.
pub fn run_export(
    alloc: Global,
    tree: &Bindings,
    wrapper: WrapperId,
    words: &List<Word>,
    heap: &Heap,
    choices: &Choices,
    answer: &Answer,
    form: Form,
) -> Result<Run, OutOfMemory>
    requires { IsSome (spec.export_at tree.now wrapper.0) }
    ensures { IfOk result
        (λ run. Some run ≡ spec.export_run tree.now wrapper.0 words.now heap.now choices.now answer.now form) }
{
    match export_at(tree, wrapper) {
        None => unreachable!(),
        Some((item, e)) => {
            let world = World {
                items: tree.items(),
                item,
                answer,
                form,
            };
            run_export_item(alloc, &world, e, words, heap, choices)
        }
    }
}
