//! What a run shows: its calls, and why it ended.

use crate::choice::Request;
use crate::heap::Heap;
use crate::value::RustValue;
use crate::word::Word;
use wit_model::{List, Text};

/// What incoming data is refused for, in the debug form.
#[derive(Clone, Copy, Debug, PartialEq, Eq)]
pub enum TrapKind {
    /// A number of a case that the type does not have.
    Discriminant,
    /// A byte for a bool that is neither 0 nor 1.
    Bool,
    /// A number for a char that is no Unicode scalar value.
    Char,
    /// The bytes of a text that are not UTF-8.
    Utf8,
    /// A number for a handle that no handle has.
    HandleNumber,
    /// An address that is 0 where a text or a list is taken over, that is not a multiple of the size of the core value that
    /// is loaded from it, or behind which a byte that is needed lies in no live block or was never written.
    Pointer,
    /// A text or a list that is taken over, or a block that is freed, of more than 2^31 - 1 bytes.
    Size,
    /// An address and a size that are those of no live block, or of one that already has an owner.
    Block,
}

/// Why a run ended.
#[derive(Clone, Copy, Debug, PartialEq, Eq)]
pub enum Stop {
    /// It came to the end of the code.
    Done,
    /// A request was refused.
    Refused(Request),
    /// Incoming data was refused.
    Trap(TrapKind),
    /// The code does what has no meaning. The number is that of the wrapper's item.
    Stuck(u32),
    /// A choice does not fit its request.
    BadChoice,
}

/// What a call goes to: a core import by its module and name, or a method by its trait's path and its name.
#[derive(Debug, PartialEq, Drop)]
pub enum Target {
    Core(Text, Text),
    Method(Text, Text),
}

/// A call, with its arguments and the heap at the call. A core call has words, a method's call values.
#[derive(Debug, PartialEq, Drop)]
pub struct CallPoint {
    pub target: Target,
    pub words: List<Word>,
    pub values: List<RustValue>,
    pub heap: Heap,
}

/// A run: why it ended, its calls and its requests in their order, and the heap where it ended. The words are those of an
/// export that is done, the value that of an import that is done with a result.
#[derive(Debug, PartialEq)]
pub struct Run {
    pub stop: Stop,
    pub calls: List<CallPoint>,
    pub requests: List<Request>,
    pub heap: Heap,
    pub words: List<Word>,
    pub value: Option<RustValue>,
}

// Not derived: what is derived stands again in each function that lets such a value go, and is proved with it.
impl Drop for Run {
    fn drop(self) {
        let Run {
            stop: _,
            calls: _,
            requests: _,
            heap: _,
            words: _,
            value: _,
        } = self;
    }
}
