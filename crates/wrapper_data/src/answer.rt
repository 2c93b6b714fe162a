//! What the other side of a call answers.

use crate::block::Block;
use crate::heap::Heap;
use crate::value::RustValue;
use crate::word::Word;
use wit_model::List;

/// What the other side answers.
#[derive(Debug, PartialEq)]
pub enum Answer {
    /// The peer of an import: its result word, if the core function has one, the bytes that it writes, by address, and
    /// the blocks that it makes.
    Words {
        result: Option<Word>,
        writes: List<(u32, u8)>,
        blocks: List<Block>,
    },
    /// The implementation of an export: its value, and the heap that it leaves.
    Value {
        value: Option<RustValue>,
        heap: Heap,
    },
}

// Not derived: what is derived stands again in each function that lets such a value go, and is proved with it.
impl Drop for Answer {
    fn drop(self) {
        match self {
            Answer::Words {
                result: _,
                writes: _,
                blocks: _,
            }
            | Answer::Value { value: _, heap: _ } => {}
        }
    }
}
