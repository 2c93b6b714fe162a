//! The run of an exported function's post-return function.

ghost use Rattle.std.specs.Prelude.{◌≡◌, IfOk, IsSome, Some, is_some, option_map};
ghost use Rattle.std.specs.Option.{option_copied};
ghost use Rattle.wrapper_values.specs.Act.{Runs};
ghost use Rattle.wrapper_run.specs.PostReturn as spec;
ghost use Rattle.wrapper_values.specs.Setting.{setting};

use crate::export::{expect_words, export_at, push_words, run_to_words};
use crate::run::{begin, run_at};
use rust_tree::{Bindings, Item, PostReturnFn, WrapperId};
use std::alloc::Global;
use wit_model::{List, OutOfMemory};
use wrapper_data::{Answer, Choices, Form, Heap, Run, Stop, Word};
use wrapper_values::{Halt, State, World};

/// The post-return function of a base name.
fn post_return_named<'a>(items: &'a [Item], base: &str) -> Option<&'a PostReturnFn>
    ensures { option_copied result ≡ spec.post_return_named base.now items.now }
{
    for item in items {
        match item {
            Item::PostReturn(p) if p.base.as_str() == base => return Some(p),
            _ => {}
        }
    }
    None
}

/// The post-return function of an export wrapper, with the number of the wrapper's item.
fn post_return_at(tree: &Bindings, wrapper: WrapperId) -> Option<(u32, &PostReturnFn)>
    ensures { option_map (λ p. (p.0, p.1.now)) result ≡ spec.post_return_at tree.now wrapper.0 }
{
    match export_at(tree, wrapper) {
        None => None,
        Some((number, e)) => match post_return_named(tree.items(), e.base.as_str()) {
            None => None,
            Some(p) => Some((number, p)),
        },
    }
}

/// Whether the wrapper is an export's wrapper of the tree that has a post-return function.
pub fn has_post_return(tree: &Bindings, wrapper: WrapperId) -> bool
    ensures { result ≡ is_some (spec.post_return_at tree.now wrapper.0) }
{
    post_return_at(tree, wrapper).is_some()
}

fn start_post_return(
    alloc: Global,
    p: &PostReturnFn,
    words: &List<Word>,
    heap: &Heap,
) -> Result<State, OutOfMemory>
    ensures { IfOk result (λ state. state ≡ spec.start_post_return p.now words.now heap.now) }
{
    let mut locals = List::new(alloc);
    push_words(alloc, &mut locals, p.params.as_slice(), words.as_slice())?;
    let none = Choices {
        list: List::new(alloc),
    };
    begin(alloc, locals, List::new(alloc), heap, &none)
}

/// Runs the body, where the words are those of the function's core parameters.
fn run_post_return_fn(
    alloc: Global,
    world: &World,
    state: &mut State,
    p: &PostReturnFn,
    words: &[Word],
) -> Result<List<Word>, Halt>
    ensures { Runs (spec.run_post_return_fn (setting world.now) p.now words.now state.old) result state.new }
{
    expect_words(world.stuck(), state, p.params.as_slice(), words)?;
    run_to_words(alloc, world, state, None, &p.body)
}

#[tactic(auto, unfolding(crate::specs::PostReturn::run_post_return_item))]
fn run_post_return_item(
    alloc: Global,
    world: &World,
    p: &PostReturnFn,
    words: &List<Word>,
    heap: &Heap,
) -> Result<Run, OutOfMemory>
    ensures { IfOk result (λ run. run ≡ spec.run_post_return_item (setting world.now) p.now words.now heap.now) }
{
    let mut state = start_post_return(alloc, p, words, heap)?;
    match run_post_return_fn(alloc, world, &mut state, p, words.as_slice()) {
        Ok(given) => Ok(run_at(Stop::Done, given, None, state)),
        Err(Halt::Stopped(stop)) => Ok(run_at(stop, List::new(alloc), None, state)),
        Err(Halt::OutOfMemory) => Err(OutOfMemory),
    }
}

/// Runs the post-return function of an exported function's wrapper: from the words that the wrapper returned, and a heap in
/// which what they name still stands. The wrapper must have a post-return function, as [`has_post_return`] tells.
/// Addresses, sizes and lengths are in bytes, and pointers have four of them; the Canonical ABI of the Component Model says
/// when a caller calls it.
///
/// The run is the one that the definition gives. It ends Done; or, in the debug form, with the Trap that names why the words
/// stand for no result; or Stuck, with the number of the wrapper's item, where the words are not those of the function's core
/// parameters, in number and kind, or the code does what has no meaning. It is given no choices, and a core import that it
/// calls answers nothing. `OutOfMemory` is the machine's own want of memory.
pub fn run_post_return(
    alloc: Global,
    tree: &Bindings,
    wrapper: WrapperId,
    words: &List<Word>,
    heap: &Heap,
    form: Form,
) -> Result<Run, OutOfMemory>
    requires { IsSome (spec.post_return_at tree.now wrapper.0) }
    ensures { IfOk result
        (λ run. Some run ≡ spec.post_return_run tree.now wrapper.0 words.now heap.now form) }
{
    match post_return_at(tree, wrapper) {
        None => unreachable!(),
        Some((item, p)) => {
            let answer = Answer::Words {
                result: None,
                writes: List::new(alloc),
                blocks: List::new(alloc),
            };
            let world = World {
                items: tree.items(),
                item,
                answer: &answer,
                form,
            };
            run_post_return_item(alloc, &world, p, words, heap)
        }
    }
}
