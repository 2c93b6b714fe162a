//! One instruction is sent.

ghost use Rattle.std.specs.Prelude.{◌≡◌, ◌<◌, ℕ, [], ◌∷◌, ◌++◌, IfOk, IfSome, OnOk};
ghost use Rattle.abi_bindgen.specs.declared.instruction.Instruction.TheVariants as instruction;
ghost use Rattle.abi_bindgen.specs.Instructions.{Emits, IsSendable, Makes};

use crate::bindgen::{Bindgen, Operand};
use crate::instruction::Instruction;
use std::alloc::Global;
use wit_model::{List, OutOfMemory, Resolve};

/// Sends an instruction with its operands, and gives its results. The answer is `OutOfMemory` where the bindgen gives it.
pub fn send<B: Bindgen>(
    alloc: Global,
    resolve: &Resolve,
    bindgen: &mut B,
    inst: Instruction,
    operands: List<B::Operand>,
) -> Result<List<B::Operand>, OutOfMemory>
    requires { IsSendable B.meaning resolve.now inst operands bindgen.old }
    ensures { IfOk result (λ results. Emits B.meaning resolve.now.types inst.entry operands results bindgen.old bindgen.new) }
{
    let mut operands = operands;
    let mut results = List::new(alloc);
    bindgen.emit(resolve, &inst, &mut operands, &mut results)?;
    Ok(results)
}

/// A list of one operand, or `OutOfMemory` where there is no memory for it.
pub fn only<O: Operand>(alloc: Global, operand: O) -> Result<List<O>, OutOfMemory>
    ensures { IfOk result (λ l. l ≡ operand ∷ []) }
{
    let mut all = List::new(alloc);
    all.push(operand)?;
    Ok(all)
}

/// Sends an instruction that has one result, and gives it. The answer is `OutOfMemory` as of `send`, and where the result cannot be
/// copied.
pub fn send_one<B: Bindgen>(
    alloc: Global,
    resolve: &Resolve,
    bindgen: &mut B,
    inst: Instruction,
    operands: List<B::Operand>,
) -> Result<B::Operand, OutOfMemory>
    requires ready { IsSendable B.meaning resolve.now inst operands bindgen.old }
    requires makes { (k : ℕ) → Makes resolve.now.types inst k → k ≡ 1 }
    ensures { IfOk result (λ o. Emits B.meaning resolve.now.types inst.entry operands (o ∷ []) bindgen.old bindgen.new) }
{
    let results = send(alloc, resolve, bindgen, inst, operands)?;
    results.as_slice()[0].copy(alloc)
}

/// Puts copies of some operands last. Where there is no memory for one the answer is `OutOfMemory`, and some may have been put.
pub fn push_copies<O: Operand>(
    all: &mut Vec<O>,
    alloc: Global,
    operands: &[O],
) -> Result<(), OutOfMemory>
    ensures { OnOk result (all.new.items ≡ all.old.items ++ operands.now) }
{
    for operand in operands {
        all.push(operand.copy(alloc)?)?;
    }
    Ok(())
}

/// An argument of the code, by its number from 0. The answer is `OutOfMemory` as of `send_one`.
pub fn argument<B: Bindgen>(
    alloc: Global,
    resolve: &Resolve,
    bindgen: &mut B,
    number: u32,
) -> Result<B::Operand, OutOfMemory>
    requires { IfSome (B.meaning.arguments bindgen.old) (λ k. number < k) }
    ensures { IfOk result (λ o. Emits B.meaning resolve.now.types (instruction.GetArg number) [] (o ∷ []) bindgen.old bindgen.new) }
{
    let operand = send_one(
        alloc,
        resolve,
        bindgen,
        Instruction::GetArg(number),
        List::new(alloc),
    )?;
    Ok(operand)
}
