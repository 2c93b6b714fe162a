//! What one instruction lifts.

ghost use Rattle.std.specs.Prelude.{◌≡◌, ◌≤◌, ◌<◌, ◌+◌, ◌++◌, [], ◌∷◌, length, List, Some, drop, take, IfOk, OnOk};
ghost use Rattle.wit_model.specs.declared.types.WitType.TheVariants.{String};
ghost use Rattle.wrapper_meaning.specs.Shape.{shape_of};
ghost use Rattle.wrapper_meaning.specs.Shape.Shape.{text};
ghost use Rattle.abi_bindgen.specs.Code.{lift_code};
ghost use Rattle.abi_bindgen.specs.Instructions.{lifting};
ghost use Rattle.abi_bindgen.specs.Lifts.{LiftsFlat};
ghost use Rattle.abi_bindgen.specs.Flows.{Flows};

use crate::lift::Lifted;
use abi_bindgen::{Bindgen, Instruction, Operand, only, send_one};
use std::alloc::Global;
use wit_model::{OutOfMemory, Resolve, WitType};

/// The instruction that makes a scalar of a type of a word; none where the type is no scalar.
pub(crate) fn scalar_lifting(ty: WitType) -> Option<Instruction<'static>>
    ensures { result ≡ lifting ty }
{
    match ty {
        WitType::Bool => Some(Instruction::BoolFromI32),
        WitType::U8 => Some(Instruction::U8FromI32),
        WitType::S8 => Some(Instruction::S8FromI32),
        WitType::U16 => Some(Instruction::U16FromI32),
        WitType::S16 => Some(Instruction::S16FromI32),
        WitType::U32 => Some(Instruction::U32FromI32),
        WitType::S32 => Some(Instruction::S32FromI32),
        WitType::Char => Some(Instruction::CharFromI32),
        WitType::U64 => Some(Instruction::U64FromI64),
        WitType::S64 => Some(Instruction::S64FromI64),
        WitType::F32 => Some(Instruction::F32FromCoreF32),
        WitType::F64 => Some(Instruction::F64FromCoreF64),
        _ => None,
    }
}

/// The scalar that the word at a place represents.
pub(crate) fn lift_scalar<B: Bindgen>(
    alloc: Global,
    resolve: &Resolve,
    bindgen: &mut B,
    words: &[B::Operand],
    at: usize,
    ty: WitType,
    inst: Instruction,
) -> Result<Lifted<B::Operand>, OutOfMemory>
    requires lifting { lifting ty ≡ Some inst }
    requires enough { at < length words.now }
    ensures next { IfOk result (λ r. r.next ≡ at + 1) }
    ensures lifts { IfOk result (λ r. (used : List B.Operand) × (drop at words.now ≡ used ++ drop r.next words.now)
        × LiftsFlat B.meaning (shape_of resolve.now.types ty) used r.operand bindgen.old bindgen.new) }
    ensures flows { IfOk result (λ r. Flows B.meaning resolve.now.types (lift_code resolve.now.types ty) (take 1 (drop at words.now)) (r.operand ∷ []) bindgen.old bindgen.new) }
{
    let word = words[at].copy(alloc)?;
    let operands = only(alloc, word)?;
    let operand = send_one(alloc, resolve, bindgen, inst, operands)?;
    Ok(Lifted {
        operand,
        next: at + 1,
    })
}

/// The text that the address and the length at a place represent.
pub(crate) fn lift_text<B: Bindgen>(
    alloc: Global,
    resolve: &Resolve,
    bindgen: &mut B,
    words: &[B::Operand],
    at: usize,
) -> Result<Lifted<B::Operand>, OutOfMemory>
    requires { at + 2 ≤ length words.now }
    ensures next { IfOk result (λ r. r.next ≡ at + 2) }
    ensures lifts { IfOk result (λ r. (used : List B.Operand) × (drop at words.now ≡ used ++ drop r.next words.now)
        × LiftsFlat B.meaning text used r.operand bindgen.old bindgen.new) }
    ensures flows { IfOk result (λ r. Flows B.meaning resolve.now.types (lift_code resolve.now.types String) (take 2 (drop at words.now)) (r.operand ∷ []) bindgen.old bindgen.new) }
{
    let address = words[at].copy(alloc)?;
    let length = words[at + 1].copy(alloc)?;
    let mut operands = only(alloc, address)?;
    operands.push(length)?;
    let operand = send_one(alloc, resolve, bindgen, Instruction::StringLift, operands)?;
    Ok(Lifted {
        operand,
        next: at + 2,
    })
}
