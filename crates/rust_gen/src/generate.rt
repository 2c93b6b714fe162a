//! The generator: from tables and options to the tree of a file and its text.

ghost use Rattle.std.specs.Prelude.{◌≡◌, true, IfOk, OnErr};
ghost use Rattle.rust_tree.specs.Text.{text};
ghost use Rattle.rust_tree.specs.WellNamed.{are_well_named};
ghost use Rattle.type_sites.specs.Sites.{type_sites};
ghost use Rattle.rust_gen.specs.Asking.{AskInOrder};
ghost use Rattle.rust_gen.specs.Body.{ArePartsWritten, IsWritten};
ghost use Rattle.rust_gen.specs.Bound.{Binds};
ghost use Rattle.gen_accept.specs.Cause.{IsAnswer, cause};
ghost use Rattle.rust_gen.specs.Generated.{Gains, Generates, file_name};
ghost use Rattle.rust_gen.specs.Known.{IsKnown};

use crate::tree::bindings_of;
use gen_accept::{GenError, Opts, accepted_world};
use gen_files::Files;
use rust_tree::{Bindings, text_of};
use std::alloc::Global;
use std::marker::Model;
use wit_model::{OutOfMemory, Resolve, Text, World, WorldId};

/// A generator of Rust bindings, with its options.
#[derive(Debug, Drop)]
pub struct RustWasm {
    alloc: Global,
    opts: Opts,
}

impl Model for RustWasm {
    ghost use Rattle.gen_accept.specs.declared.opts.Opts.{Opts};

    ghost Value = { Opts };

    ghost view = { λ g. g.opts };
}

/// What a generator is made of.
pub trait Build {
    ghost use Rattle.gen_accept.specs.declared.opts.Opts.{Opts};

    /// The options that it is or has.
    ghost options: { Self → Opts };

    /// A generator with exactly these options.
    fn build(self, alloc: Global) -> Result<RustWasm, OutOfMemory>
        ensures { IfOk result (λ g. g ≡ options self) };
}

impl Build for Opts {
    ghost options = { λ opts. opts };

    fn build(self, alloc: Global) -> Result<RustWasm, OutOfMemory> {
        Ok(RustWasm { alloc, opts: self })
    }
}

#[tactic(auto, unfolding(crate::specs::Generated::rust_ending))]
fn file_name(alloc: Global, world: &World) -> Result<Text, OutOfMemory>
    ensures { IfOk result (λ name. name ≡ file_name world.now) }
{
    let mut name = world.name.snake.copy(alloc)?;
    name.push_str(".rs")?;
    Ok(name)
}

/// Puts the text of a tree behind what the files hold under a name.
fn push_text(
    alloc: Global,
    files: &mut Files,
    name: &Text,
    tree: &Bindings,
) -> Result<(), OutOfMemory>
    ensures ok { IfOk result (λ _. Gains files.old files.new name.now (text tree.now)) }
    ensures err { OnErr result (files.new ≡ files.old) }
{
    let content = text_of(alloc, tree)?;
    files.push(name.as_str(), content.as_str().as_bytes())
}

fn write_file(
    alloc: Global,
    opts: &Opts,
    resolve: &Resolve,
    id: WorldId,
    world: &World,
    files: &mut Files,
) -> Result<Bindings, OutOfMemory>
    requires { IsKnown opts.now resolve.now id world.now }
    ensures bound { IfOk result (Binds (IsWritten resolve.now.types (type_sites resolve.now world.now)) (ArePartsWritten resolve.now.types (type_sites resolve.now world.now)) opts.now resolve.now id world.now) }
    ensures order { IfOk result (λ tree. AskInOrder resolve.now.types (type_sites resolve.now world.now) world.now tree.items) }
    ensures named { IfOk result (λ tree. are_well_named tree.options tree.items ≡ true) }
    ensures gains { IfOk result (λ tree. Gains files.old files.new (file_name world.now) (text tree)) }
    ensures err { OnErr result (files.new ≡ files.old) }
{
    let name = file_name(alloc, world)?;
    let tree = bindings_of(alloc, opts, resolve, id, world)?;
    push_text(alloc, files, &name, &tree)?;
    Ok(tree)
}

impl RustWasm {
    /// Makes the bindings file of a world: the text of the tree that is answered is put behind what `files` holds under
    /// the world's name in snake case and `.rs`. After an error `files` are as they were, and the generator may be used
    /// again.
    pub fn generate(
        &mut self,
        resolve: &Resolve,
        world: WorldId,
        files: &mut Files,
    ) -> Result<Bindings, GenError>
        ensures answer { IsAnswer result (cause self.old resolve.now world) }
        ensures ok { IfOk result (Generates self.old resolve.now world files.old files.new) }
        ensures err { OnErr result (files.new ≡ files.old) }
        ensures options { self.new ≡ self.old }
    {
        let accepted = accepted_world(self.alloc, &self.opts, resolve, world)?;
        let tree = write_file(self.alloc, &self.opts, resolve, world, accepted, files)?;
        Ok(tree)
    }
}
