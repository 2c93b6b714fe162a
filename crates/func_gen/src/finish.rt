//! Blocks of code are closed.

ghost use Rattle.std.specs.Prelude.{◌≡◌, ◌<◌, [], ◌∷◌, ◌++◌, true, length, OnOk};
ghost use Rattle.abi_bindgen.specs.Blocks.{Finishes, IsOpen};
ghost use Rattle.func_gen.specs.Meaning.{func_meaning};
ghost use Rattle.func_gen.specs.PartForms.{are_operands};
ghost use Rattle.func_gen.specs.Resumes.{Resumes};

use crate::function_bindgen::{Code, FinishedBlock, FunctionBindgen, OpenBlock};
use crate::operand::ExprOperand;
use std::alloc::Global;
use wit_model::{List, OutOfMemory};

/// Each of these expressions may be an operand: each is looked at for the proof alone.
fn are_operands(operands: &[ExprOperand])
    ensures { are_operands operands.now ≡ true }
{
    for operand in operands {
        let _ = &operand.expr;
    }
}

/// The last one is taken away.
fn take_last(alloc: Global, opened: &mut List<OpenBlock>) -> OpenBlock
    requires some { 0 < length opened.old }
    ensures { opened.old ≡ opened.new ++ result ∷ [] }
{
    let mut all = std::mem::replace(opened, List::new(alloc)).into_vec();
    let Some(last) = all.pop() else {
        unreachable!()
    };
    *opened = List::from_vec(all);
    last
}

impl FunctionBindgen<'_> {
    /// The innermost block is the last finished one, and the code that it suspended is resumed.
    fn resume(&mut self, operands: &mut List<ExprOperand>) -> Result<(), OutOfMemory>
        requires some { 0 < length self.old.opened }
        ensures { OnOk result (Resumes operands.old self.old self.new) }
    {
        are_operands(operands.as_slice());
        let open = take_last(self.alloc, &mut self.opened);
        let OpenBlock {
            number,
            names,
            code,
        } = open;
        let before = std::mem::replace(&mut self.code, code);
        let Code { stmts, .. } = before;
        let results = std::mem::replace(operands, List::new(self.alloc));
        self.finished.push(FinishedBlock {
            number,
            names,
            stmts,
            results,
        })?;
        Ok(())
    }

    /// Closes the innermost block with these results, which are used up.
    pub(crate) fn close_block(
        &mut self,
        operands: &mut List<ExprOperand>,
    ) -> Result<(), OutOfMemory>
        requires { IsOpen func_meaning self.old }
        ensures { OnOk result (Finishes func_meaning operands.old self.old self.new) }
    {
        self.resume(operands)?;
        Ok(())
    }
}
