//! What a document asks for.

ghost use Rattle.std.specs.Prelude.{◌≡◌};
ghost use Rattle.wit_document.specs.Reads.{Reads};
ghost use Rattle.wit_commands.specs.Input.{input_in, opts_of};

use rust_gen::Opts;
use std::alloc::Global;
use wit_document::{Document, DocumentFault, DocumentOptions, document_of};
use wit_model::{Resolve, WorldId};

/// Why the bytes give no input: they are no document, or there was no memory.
pub type InputFault2 = DocumentFault;

/// What a document asks for: the tables of a resolved world, the world to generate, and the options.
#[derive(Debug, PartialEq, Drop)]
pub struct Input {
    /// The tables.
    pub resolve: Resolve,
    /// Which world of the tables to generate.
    pub world: WorldId,
    /// How to generate it.
    pub opts: Opts,
}

/// The options that a document asks for: those that it does not set are at their defaults. It takes no memory.
fn opts_of(alloc: Global, options: &DocumentOptions) -> Opts
    ensures { result ≡ opts_of options.now }
{
    let mut opts = Opts::default(alloc);
    opts.generate_unused_types = options.generate_unused_types;
    opts
}

/// The input that the bytes of a JSON document are. It is `BadJson` exactly where the bytes are no document, and there
/// may be no memory for it.
#[tactic(auto, unfolding(crate::specs::Input::input_in))]
pub fn input_of(alloc: Global, bytes: &[u8]) -> Result<Input, InputFault2>
    ensures { Reads result (input_in bytes.now) }
{
    let Document {
        resolve,
        world,
        options,
    } = document_of(alloc, bytes)?;
    let opts = opts_of(alloc, &options);
    Ok(Input {
        resolve,
        world,
        opts,
    })
}
