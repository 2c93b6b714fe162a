//! The state of a run, and what its locals hold.

use rust_tree::{ImportDecl, Item};
use wit_model::{List, OutOfMemory, Text};
use wrapper_data::{
    Answer, CallPoint, Choice, Form, Heap, Request, RustValue, Stop, TrapKind, Word,
};

/// What a run does not change: the items of the file, the number of the wrapper's item, the other side's answer, and
/// whether the code tests what comes in.
#[derive(Clone, Copy)]
pub struct World<'a> {
    pub items: &'a [Item],
    pub item: u32,
    pub answer: &'a Answer,
    pub form: Form,
}

impl World<'_> {
    ghost use Rattle.std.specs.Prelude.{◌≡◌};
    ghost use Rattle.wrapper_values.specs.Setting.{failed, setting, stuck};

    /// The stop where the code does what has no meaning.
    pub fn stuck(&self) -> Stop
        ensures { result ≡ stuck (setting self.now) }
    {
        Stop::Stuck(self.item)
    }

    /// The stop where incoming data stands for no value.
    pub fn failed(&self, kind: TrapKind) -> Stop
        ensures { result ≡ failed (setting self.now) kind }
    {
        match self.form {
            Form::Debug => Stop::Trap(kind),
            Form::Release => self.stuck(),
        }
    }
}

/// What a local holds: a core word, a value of the Rust side, or a return area by its address and its size in bytes.
#[derive(Debug, PartialEq, Drop)]
pub enum Val {
    Word(Word),
    Value(RustValue),
    Area(u32, u32),
}

/// A local, by its name. One that was moved has no value.
#[derive(Debug, PartialEq, Drop)]
pub struct Local {
    pub name: Text,
    pub value: Option<Val>,
}

/// The state of a run.
#[derive(Debug, PartialEq, Drop)]
pub struct State {
    /// The locals, the newest last.
    pub locals: List<Local>,
    /// The core imports that were declared, the newest last.
    pub imports: List<ImportDecl>,
    pub heap: Heap,
    /// The choices that are left.
    pub choices: List<Choice>,
    pub requests: List<Request>,
    pub calls: List<CallPoint>,
    /// The addresses of the blocks that an owner has: a text that owns its bytes, or an area.
    pub taken: List<u32>,
    /// The address of the file's static area, once its pointer was taken.
    pub place: Option<u32>,
}

/// Why the machine does not go on: the run is stopped, or the machine itself has no memory.
#[derive(Debug, PartialEq, Drop)]
pub enum Halt {
    Stopped(Stop),
    OutOfMemory,
}

impl From<OutOfMemory> for Halt {
    ghost use Rattle.std.specs.Prelude.{◌≡◌};
    ghost use Rattle.wrapper_values.specs.declared.state.Halt.TheVariants as halt;

    ghost from_gives = { λ _ made. made ≡ halt.OutOfMemory };

    fn from(_error: OutOfMemory) -> Halt {
        Halt::OutOfMemory
    }
}
