//! From the bytes of a document to the file that it asks for.

ghost use Rattle.std.specs.Prelude.{◌≡◌, Some, IfOk, IfErr};
ghost use Rattle.rust_tree.specs.Text.{text};
ghost use Rattle.gen_accept.specs.Cause.{IsAnswer, cause};
ghost use Rattle.rust_gen.specs.Wrapper.{Wraps};
ghost use Rattle.wit_commands.specs.Input.{input_in};
ghost use Rattle.wit_commands.specs.Made.{IsBoundFor, IsBytesCause, Makes, only_bytes};

use crate::input::{Input, InputFault2, input_of};
use rust_gen::{Build, Files, GenError};
use rust_tree::Bindings;
use std::alloc::Global;
use wit_refusal::Refusal;

/// A tree, and the one file that holds its text.
#[derive(Drop)]
pub(crate) struct Made {
    pub(crate) tree: Bindings,
    pub(crate) files: Files,
}

/// The bytes of the one file, or none where there is not one file.
pub(crate) fn only_file(files: &Files) -> &[u8]
    ensures { result.now ≡ only_bytes files.now }
{
    match files.iter() {
        [entry] => entry.1.as_slice(),
        _ => &[],
    }
}

fn read(alloc: Global, bytes: &[u8]) -> Result<Input, Refusal>
    ensures ok { IfOk result (λ input. input_in bytes.now ≡ Some input) }
    ensures err { IfErr result (IsBytesCause bytes.now) }
{
    match input_of(alloc, bytes) {
        Ok(input) => Ok(input),
        Err(InputFault2::BadJson) => Err(Refusal::BadJson),
        Err(InputFault2::OutOfMemory) => Err(Refusal::OutOfMemory),
    }
}

fn generated(alloc: Global, input: Input) -> Result<Made, GenError>
    ensures answer { IsAnswer result (cause input.opts input.resolve input.world) }
    ensures tree { IfOk result (λ made. IsBoundFor input made.tree) }
    ensures file { IfOk result (λ made. only_bytes made.files ≡ text made.tree) }
{
    let Input {
        resolve,
        world,
        opts,
    } = input;
    let mut generator = opts.build(alloc)?;
    let mut files = Files::new(alloc);
    let tree = generator.generate(&resolve, world, &mut files)?;
    Ok(Made { tree, files })
}

/// The tree that the bytes of a document ask for, and its file.
pub(crate) fn make(alloc: Global, bytes: &[u8]) -> Result<Made, Refusal>
    ensures ok { IfOk result (λ made. Makes bytes.now made.tree) }
    ensures file { IfOk result (λ made. only_bytes made.files ≡ text made.tree) }
    ensures err { IfErr result (IsBytesCause bytes.now) }
{
    let input = read(alloc, bytes)?;
    let made = generated(alloc, input)?;
    Ok(made)
}
