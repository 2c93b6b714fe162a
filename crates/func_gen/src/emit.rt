//! The code of each instruction.

mod calls;
mod casts;
mod constants;
mod dispatch;
mod enums;
mod flags;
mod flush;
mod freed_cases;
mod frees;
mod lifted_cases;
mod lifted_variants;
mod loads;
mod matches;
mod memory;
mod methods;
mod options;
mod parts;
mod records;
mod results;
mod scalars;
mod texts;
mod variants;

ghost use Rattle.std.specs.Prelude.{◌≡◌, ◌<◌, [], true, length, OnOk};
ghost use Rattle.abi_bindgen.specs.Instructions.{Emits, IsSendable};
ghost use Rattle.abi_bindgen.specs.declared.instruction.Instruction.TheVariants as instruction;
ghost use Rattle.func_gen.specs.Dispatch.{is_touch};
ghost use Rattle.func_gen.specs.Meaning.{func_meaning};

use crate::emit::loads::{small_load, whole_load};
use crate::emit::memory::{small_store, whole_store};
pub(crate) use crate::emit::scalars::{conversion, is_kept, number_cast};
use crate::function_bindgen::FunctionBindgen;
use crate::operand::ExprOperand;
use abi_bindgen::{Instruction, Operand};
use wit_model::{List, OutOfMemory, Resolve};

impl FunctionBindgen<'_> {
    pub(crate) fn get_arg(
        &mut self,
        resolve: &Resolve,
        n: u32,
        results: &mut List<ExprOperand>,
    ) -> Result<(), OutOfMemory>
        requires within { n < length self.old.params }
        requires empty { results.old ≡ [] }
        ensures { OnOk result (Emits func_meaning resolve.now.types (instruction.GetArg n) [] results.new self.old self.new) }
    {
        let operand = self.params.as_slice()[n as usize].operand.copy(self.alloc)?;
        results.push(operand)?;
        Ok(())
    }

    /// A core word is stored or loaded.
    pub(crate) fn touch(
        &mut self,
        resolve: &Resolve,
        inst: &Instruction,
        operands: &List<ExprOperand>,
        results: &mut List<ExprOperand>,
    ) -> Result<(), OutOfMemory>
        requires sendable { IsSendable func_meaning resolve.now inst.now operands.now self.old }
        requires touch { is_touch inst.now ≡ true }
        requires empty { results.old ≡ [] }
        ensures { OnOk result (Emits func_meaning resolve.now.types inst.now operands.now results.new self.old self.new) }
    {
        if let Some(place) = whole_store(inst) {
            return self.store(resolve, inst, place, operands, results);
        }
        if let Some(place) = small_store(inst) {
            return self.store_low(resolve, inst, place, operands, results);
        }
        if let Some(place) = whole_load(inst) {
            return self.load(resolve, inst, place, operands, results);
        }
        if let Some(place) = small_load(inst) {
            return self.load_low(resolve, inst, place, operands, results);
        }
        unreachable!()
    }

    pub(crate) fn give(
        &mut self,
        resolve: &Resolve,
        count: u32,
        operands: &mut List<ExprOperand>,
        results: &mut List<ExprOperand>,
    ) -> Result<(), OutOfMemory>
        requires many { length operands.old ≡ count }
        requires empty { results.old ≡ [] }
        ensures { OnOk result (Emits func_meaning resolve.now.types (instruction.Return count) operands.old results.new self.old self.new) }
    {
        let given = std::mem::replace(operands, List::new(self.alloc));
        self.returned = Some(given);
        Ok(())
    }
}
