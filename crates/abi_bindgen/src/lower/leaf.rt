//! What one instruction lowers.

ghost use Rattle.std.specs.Prelude.{◌≡◌, [], ◌∷◌, IfOk};
ghost use Rattle.abi_bindgen.specs.Instructions.{Emits, IsSendable, lowering};

use crate::bindgen::Bindgen;
use crate::instruction::Instruction;
use crate::sending::{only, send};
use std::alloc::Global;
use wit_model::{List, OutOfMemory, Resolve, WitType};

/// The instruction that makes a word of a scalar of a type; none where the type is no scalar.
pub fn scalar_lowering(ty: WitType) -> Option<Instruction<'static>>
    ensures { result ≡ lowering ty }
{
    match ty {
        WitType::Bool => Some(Instruction::I32FromBool),
        WitType::U8 => Some(Instruction::I32FromU8),
        WitType::S8 => Some(Instruction::I32FromS8),
        WitType::U16 => Some(Instruction::I32FromU16),
        WitType::S16 => Some(Instruction::I32FromS16),
        WitType::U32 => Some(Instruction::I32FromU32),
        WitType::S32 => Some(Instruction::I32FromS32),
        WitType::Char => Some(Instruction::I32FromChar),
        WitType::U64 => Some(Instruction::I64FromU64),
        WitType::S64 => Some(Instruction::I64FromS64),
        WitType::F32 => Some(Instruction::CoreF32FromF32),
        WitType::F64 => Some(Instruction::CoreF64FromF64),
        _ => None,
    }
}

/// Sends an instruction with a value, and gives its results. The answer is `OutOfMemory` as of `send`, and where there is no memory for
/// the operands.
pub fn lower_by<B: Bindgen>(
    alloc: Global,
    resolve: &Resolve,
    bindgen: &mut B,
    value: B::Operand,
    inst: Instruction,
) -> Result<List<B::Operand>, OutOfMemory>
    requires { IsSendable B.meaning resolve.now inst (value ∷ []) bindgen.old }
    ensures { IfOk result (λ os. Emits B.meaning resolve.now.types inst.entry (value ∷ []) os bindgen.old bindgen.new) }
{
    let operands = only(alloc, value)?;
    let results = send(alloc, resolve, bindgen, inst, operands)?;
    Ok(results)
}
