//! Finished blocks are used up.

ghost use Rattle.std.specs.Prelude.{◌≡◌, ◌<◌, ◌≤◌, ◌∷◌, ◌++◌, length, reverse, IfOk};
ghost use Rattle.std.specs.List.{AllByRecursion};
ghost use Rattle.func_gen.specs.declared.function_bindgen.FinishedBlock.{FinishedBlock};
ghost use Rattle.func_gen.specs.InwardCode.{IsInwardBlock};
ghost use Rattle.func_gen.specs.Scope.{Keeps};
ghost use Rattle.func_gen.specs.Uses.{Uses};

use crate::function_bindgen::{FinishedBlock, FunctionBindgen};
use std::alloc::Global;
use wit_model::{List, OutOfMemory};

/// Takes so many blocks, the last one first.
fn last_blocks(
    alloc: Global,
    finished: &mut Vec<FinishedBlock>,
    count: usize,
) -> Result<List<FinishedBlock>, OutOfMemory>
    requires there { count ≤ length finished.old.items }
    ensures taken { IfOk result (λ blocks. reverse finished.old.items ≡ blocks ++ reverse finished.new.items) }
    ensures many { IfOk result (λ blocks. length blocks ≡ count) }
{
    let mut blocks = List::new(alloc);
    for _i in 0..count {
        let Some(block) = finished.pop() else {
            unreachable!()
        };
        blocks.push(block)?;
    }
    Ok(blocks)
}

/// The block that was finished last, and those before it, of blocks of which the last one is the first.
pub(crate) fn parted(blocks: List<FinishedBlock>) -> (FinishedBlock, List<FinishedBlock>)
    requires { 0 < length blocks }
    ensures { blocks ≡ result.0 ∷ result.1 }
{
    let mut left = blocks.into_vec();
    let block = left.remove(0);
    (block, List::from_vec(left))
}

impl FunctionBindgen<'_> {
    /// So many blocks that were finished last, the last one first, which are kept no more. The names that were used when they were opened
    /// are used still, and their code is inward.
    pub(crate) fn use_blocks(&mut self, count: usize) -> Result<List<FinishedBlock>, OutOfMemory>
        requires there { count ≤ length self.old.finished }
        ensures uses { IfOk result (λ blocks. Uses blocks count self.old self.new) }
        ensures names { IfOk result (λ blocks. AllByRecursion (λ (b : FinishedBlock). Keeps b.names self.old.scope.used) blocks) }
        ensures inward { IfOk result (AllByRecursion IsInwardBlock) }
    {
        let mut finished = std::mem::replace(&mut self.finished, List::new(self.alloc)).into_vec();
        let blocks = last_blocks(self.alloc, &mut finished, count)?;
        self.finished = List::from_vec(finished);
        Ok(blocks)
    }
}
