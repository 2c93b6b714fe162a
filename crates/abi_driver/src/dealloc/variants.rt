//! The instruction that frees by the block of a case is sent.

ghost use Rattle.std.specs.Prelude.{◌≡◌, ◌<◌, ◌∷◌, [], replicate, OnOk};
ghost use Rattle.abi_bindgen.specs.declared.instruction.Instruction.TheVariants as instruction;
ghost use Rattle.abi_bindgen.specs.Instructions.{Emits, HasBlocks};

use abi_bindgen::{Bindgen, Instruction, only, send};
use std::alloc::Global;
use wit_model::{OutOfMemory, Resolve};

/// Of so many finished blocks, at least one, the one of the tag's case is run.
pub(super) fn run_case<B: Bindgen>(
    alloc: Global,
    resolve: &Resolve,
    bindgen: &mut B,
    tag: B::Operand,
    cases: u32,
) -> Result<(), OutOfMemory>
    requires some { 0 < cases }
    requires blocks { HasBlocks B.meaning (replicate cases 0) bindgen.old }
    ensures { OnOk result (Emits B.meaning resolve.now.types (instruction.GuestDeallocateVariant cases) (tag ∷ []) [] bindgen.old bindgen.new) }
{
    let operands = only(alloc, tag)?;
    let inst = Instruction::GuestDeallocateVariant(cases);
    let _none = send(alloc, resolve, bindgen, inst, operands)?;
    Ok(())
}
