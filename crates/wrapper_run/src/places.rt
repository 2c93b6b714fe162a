//! Where areas stand: the stack area of an import's wrapper, and the static area of the exported functions.

ghost use Rattle.std.specs.Prelude.{◌≡◌, ◌≢◌, if◌then◌else◌, Some, None, IfOk};
ghost use Rattle.std.specs.Option.{option_copied};
ghost use Rattle.wrapper_values.specs.Act.{Runs};
ghost use Rattle.wrapper_run.specs.Places as spec;
ghost use Rattle.wrapper_values.specs.Setting.{setting};

use crate::memory::{align_at_four, at_four};
use rust_tree::{Item, ReturnArea, StaticArea};
use std::alloc::Global;
use wit_model::{Alignment, ArchitectureSize, List, OutOfMemory};
use wrapper_data::{Block, Choice, Request, Stop, Word};
use wrapper_values::{Halt, State, Val, World, bind};

fn request_of(size: &ArchitectureSize, align: &Alignment) -> Request
    ensures { result ≡ spec.request_of size.now align.now }
{
    Request {
        size: at_four(size),
        align: align_at_four(align),
    }
}

/// The unwritten block of an area at this address, where it may stand there.
fn fitting(alloc: Global, address: u32, r: Request, blocks: &[Block]) -> Option<Block>
    requires { r.align ≢ 0 }
    ensures { result ≡ (if spec.is_fitting address r blocks.now then Some (spec.area_block address r) else None) }
{
    let size = u32::try_from(r.size).ok()?;
    let block = Block {
        address,
        size,
        cells: List::new(alloc),
    };
    if block.is_well_formed() && !block.overlaps_any(blocks) && address % r.align == 0 {
        Some(block)
    } else {
        None
    }
}

/// Places an area where the next choice says.
fn place_at(alloc: Global, state: &mut State, r: Request) -> Result<(u32, u32), Halt>
    requires { r.align ≢ 0 }
    ensures { Runs (spec.place_at r state.old.choices state.old) result state.new }
{
    let (address, left) = match state.choices.as_slice().split_first() {
        Some((Choice::At(address), left)) => (*address, List::from_slice(alloc, left)?),
        _ => return Err(Halt::Stopped(Stop::BadChoice)),
    };
    let block = match fitting(alloc, address, r, state.heap.blocks.as_slice()) {
        None => return Err(Halt::Stopped(Stop::BadChoice)),
        Some(block) => block,
    };
    let size = block.size;
    state.heap.blocks.push(block)?;
    state.taken.push(address)?;
    state.choices = left;
    Ok((address, size))
}

/// Places a new area, which takes the next choice and is never refused, and gives its address and its size.
#[tactic(auto, unfolding(crate::specs::Places::place_area))]
fn place_area(
    alloc: Global,
    world: &World,
    state: &mut State,
    request: Request,
) -> Result<(u32, u32), Halt>
    ensures { Runs (spec.place_area (setting world.now) request state.old) result state.new }
{
    if request.size == 0 || request.align == 0 {
        return Err(Halt::Stopped(world.stuck()));
    }
    state.requests.push(request)?;
    place_at(alloc, state, request)
}

/// Declares the stack area of a body, which is a local.
pub(crate) fn declare_area(
    alloc: Global,
    world: &World,
    state: &mut State,
    a: &ReturnArea,
) -> Result<(), Halt>
    ensures { Runs (spec.declare_area (setting world.now) a.now state.old) result state.new }
{
    let request = request_of(&a.size, &a.align);
    let (address, size) = place_area(alloc, world, state, request)?;
    bind(alloc, state, &a.name, Val::Area(address, size))
}

/// The static area of a file, if it has one.
fn area_in(items: &[Item]) -> Option<&StaticArea>
    ensures { option_copied result ≡ spec.area_in items.now }
{
    for item in items {
        if let Item::Area(area) = item {
            return Some(area);
        }
    }
    None
}

/// Places the static area of the file.
fn place_static(alloc: Global, world: &World, state: &mut State) -> Result<u32, Halt>
    ensures { Runs (spec.place_static (setting world.now) (spec.area_in (setting world.now).items) state.old) result state.new }
{
    let request = match area_in(world.items) {
        None => return Err(Halt::Stopped(world.stuck())),
        Some(a) => request_of(&a.size, &a.align),
    };
    let (address, _) = place_area(alloc, world, state, request)?;
    state.place = Some(address);
    Ok(address)
}

/// The pointer of the static area, which is placed when its pointer is first taken, and stays.
#[tactic(auto, unfolding(crate::specs::Places::static_pointer))]
pub(crate) fn static_pointer(alloc: Global, world: &World, state: &mut State) -> Result<Val, Halt>
    ensures { Runs (spec.static_pointer (setting world.now) state.old) result state.new }
{
    let address = match state.place {
        Some(address) => address,
        None => place_static(alloc, world, state)?,
    };
    Ok(Val::Word(Word::Pointer(address)))
}
