//! Core words are stored and loaded, one at a time.

ghost use Rattle.std.specs.Prelude.{◌≡◌, ℕ, [], ◌∷◌, IfOk, OnOk};
ghost use Rattle.abi_bindgen.specs.Instructions.{Emits, IsSendable, Makes};
ghost use Rattle.abi_bindgen.specs.ScalarTouches.{scalar_load, scalar_store};

use abi_bindgen::{Bindgen, Instruction, Operand, only, send, send_one};
use std::alloc::Global;
use wit_model::{ArchitectureSize, OutOfMemory, Resolve, WitType};

/// The instruction that stores the word of a scalar of a type at an offset; none where the type is no scalar.
pub(super) fn scalar_store(ty: WitType, offset: ArchitectureSize) -> Option<Instruction<'static>>
    ensures { result ≡ scalar_store ty offset }
{
    match ty {
        WitType::Bool | WitType::U8 | WitType::S8 => Some(Instruction::I32Store8(offset)),
        WitType::U16 | WitType::S16 => Some(Instruction::I32Store16(offset)),
        WitType::U32 | WitType::S32 | WitType::Char => Some(Instruction::I32Store(offset)),
        WitType::U64 | WitType::S64 => Some(Instruction::I64Store(offset)),
        WitType::F32 => Some(Instruction::F32Store(offset)),
        WitType::F64 => Some(Instruction::F64Store(offset)),
        WitType::String | WitType::ErrorContext | WitType::Id(_) => None,
    }
}

/// The instruction that loads the word of a scalar of a type at an offset; none where the type is no scalar.
pub(super) fn scalar_load(ty: WitType, offset: ArchitectureSize) -> Option<Instruction<'static>>
    ensures { result ≡ scalar_load ty offset }
{
    match ty {
        WitType::Bool | WitType::U8 => Some(Instruction::I32Load8U(offset)),
        WitType::S8 => Some(Instruction::I32Load8S(offset)),
        WitType::U16 => Some(Instruction::I32Load16U(offset)),
        WitType::S16 => Some(Instruction::I32Load16S(offset)),
        WitType::U32 | WitType::S32 | WitType::Char => Some(Instruction::I32Load(offset)),
        WitType::U64 | WitType::S64 => Some(Instruction::I64Load(offset)),
        WitType::F32 => Some(Instruction::F32Load(offset)),
        WitType::F64 => Some(Instruction::F64Load(offset)),
        WitType::String | WitType::ErrorContext | WitType::Id(_) => None,
    }
}

/// Sends a store of a word.
pub(super) fn store_word<B: Bindgen>(
    alloc: Global,
    resolve: &Resolve,
    bindgen: &mut B,
    word: B::Operand,
    address: &B::Operand,
    inst: Instruction,
) -> Result<(), OutOfMemory>
    requires sendable { IsSendable B.meaning resolve.now inst (word ∷ address.now ∷ []) bindgen.old }
    requires silent { (k : ℕ) → Makes resolve.now.types inst k → k ≡ 0 }
    ensures { OnOk result (Emits B.meaning resolve.now.types inst.entry (word ∷ address.now ∷ []) [] bindgen.old bindgen.new) }
{
    let mut operands = only(alloc, word)?;
    operands.push(address.copy(alloc)?)?;
    let _none = send(alloc, resolve, bindgen, inst, operands)?;
    Ok(())
}

/// Sends a load, and gives the word.
pub(crate) fn load_word<B: Bindgen>(
    alloc: Global,
    resolve: &Resolve,
    bindgen: &mut B,
    address: &B::Operand,
    inst: Instruction,
) -> Result<B::Operand, OutOfMemory>
    requires sendable { IsSendable B.meaning resolve.now inst (address.now ∷ []) bindgen.old }
    requires makes { (k : ℕ) → Makes resolve.now.types inst k → k ≡ 1 }
    ensures { IfOk result (λ o. Emits B.meaning resolve.now.types inst.entry (address.now ∷ []) (o ∷ []) bindgen.old bindgen.new) }
{
    let operands = only(alloc, address.copy(alloc)?)?;
    send_one(alloc, resolve, bindgen, inst, operands)
}
