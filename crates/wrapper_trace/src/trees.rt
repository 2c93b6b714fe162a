//! From documents to their trees.

ghost use Rattle.std.specs.Prelude.{◌<◌, IfOk, IfSome, length};

use crate::fault::LineFault;
use rust_gen::{Build, Files, GenError};
use rust_tree::Bindings;
use serde_json::Value;
use std::alloc::Global;
use std::rt::Files as FileSystem;
use std::{fs, io};
use wit_commands::{Input, InputFault2, input_of};
use wit_model::{List, OutOfMemory, Text};
use wit_refusal::Refusal;

/// The trees of the documents in files, each made once, with the files' names.
#[derive(Drop)]
pub(crate) struct Trees {
    made: List<(Text, Bindings)>,
}

impl Trees {
    pub(crate) fn new(alloc: Global) -> Trees {
        Trees {
            made: List::new(alloc),
        }
    }

    /// The tree of the document in a file.
    pub(crate) fn in_file<R: FileSystem + AllocGlobal>(
        &mut self,
        rt: &R,
        name: &str,
    ) -> Result<&Bindings, LineFault> {
        let at = self.place_of(rt, name)?;
        Ok(&self.made.as_slice()[at].1)
    }

    /// The place of a file's tree, which is made if it is not there yet.
    fn place_of<R: FileSystem + AllocGlobal>(
        &mut self,
        rt: &R,
        name: &str,
    ) -> Result<usize, LineFault>
        ensures { IfOk result (λ at. at < length self.new.made) }
    {
        if let Some(at) = place_in(self.made.as_slice(), name) {
            return Ok(at);
        }
        let name = Text::from_str(rt.alloc(), name)?;
        let tree = tree_at(rt, name.as_str())?;
        let at = self.made.len();
        self.made.push((name, tree))?;
        Ok(at)
    }
}

fn place_in(made: &[(Text, Bindings)], name: &str) -> Option<usize>
    ensures { IfSome result (λ at. at < length made.now) }
{
    made.iter().position(|file| file.0.as_str() == name)
}

fn bytes_of<R: FileSystem + AllocGlobal>(rt: &R, name: &str) -> Result<Vec<u8>, LineFault> {
    match fs::read(rt, name) {
        Ok(bytes) => Ok(bytes),
        Err(error) if error.kind() == io::ErrorKind::OutOfMemory => Err(LineFault::OutOfMemory),
        Err(_) => Err(LineFault::NoFile),
    }
}

fn tree_at<R: FileSystem + AllocGlobal>(rt: &R, name: &str) -> Result<Bindings, LineFault> {
    let bytes = bytes_of(rt, name)?;
    tree_of(rt.alloc(), bytes.as_slice())
}

/// The tree of a document that stands in the line.
pub(crate) fn tree_in_line(alloc: Global, document: &Value) -> Result<Bindings, LineFault> {
    let text = document.to_string(alloc)?;
    tree_of(alloc, text.as_bytes())
}

/// The tree of a document, or the words that tell why there is none.
fn tree_of(alloc: Global, bytes: &[u8]) -> Result<Bindings, LineFault> {
    match generated(alloc, bytes) {
        Ok(tree) => Ok(tree),
        Err(refusal) => Err(fault_of(alloc, &refusal)?),
    }
}

/// What a line is told whose document is refused.
fn fault_of(alloc: Global, refusal: &Refusal) -> Result<LineFault, OutOfMemory> {
    match refusal {
        Refusal::OutOfMemory => Ok(LineFault::OutOfMemory),
        _ => Ok(LineFault::Refused(cause_of(alloc, refusal)?)),
    }
}

/// The line of a refusal, without its end.
fn cause_of(alloc: Global, refusal: &Refusal) -> Result<Text, OutOfMemory> {
    let line = refusal.line(alloc)?;
    Text::from_str(alloc, line.as_str().trim_end())
}

fn generated(alloc: Global, bytes: &[u8]) -> Result<Bindings, Refusal> {
    match input_of(alloc, bytes) {
        Ok(input) => Ok(bindings(alloc, input)?),
        Err(InputFault2::BadJson) => Err(Refusal::BadJson),
        Err(InputFault2::OutOfMemory) => Err(Refusal::OutOfMemory),
    }
}

fn bindings(alloc: Global, input: Input) -> Result<Bindings, GenError> {
    let Input {
        resolve,
        world,
        opts,
    } = input;
    let mut generator = opts.build(alloc)?;
    let mut files = Files::new(alloc);
    generator.generate(&resolve, world, &mut files)
}
