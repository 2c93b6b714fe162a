//! Values of variants, options and results become core words: what their blocks have in common.

ghost use Rattle.std.specs.Prelude.{◌≡◌, ◌<◌, ◌^◌, [], ◌∷◌, ◌++◌, Bool, true, map, None, IfOk, OnOk};
ghost use Rattle.wrapper_meaning.specs.Shape.{nothing};
ghost use Rattle.wrapper_meaning.specs.Shape.Shapes.{none, more};
ghost use Rattle.abi_bindgen.specs.Blocks.{Finishes, IsOpen};
ghost use Rattle.abi_bindgen.specs.CaseBlocks.{LowersCases};
ghost use Rattle.abi_bindgen.specs.Cases.{payloads_of};
ghost use Rattle.abi_bindgen.specs.Code.{lower_case};
ghost use Rattle.abi_bindgen.specs.Instructions.{case_lowering, has_cases};
ghost use Rattle.abi_bindgen.specs.Flow.{in_block};
ghost use Rattle.abi_bindgen.specs.Flows.{Flows};

use crate::bindgen::{Bindgen, Operand};
use crate::casts::zero_words;
use crate::instruction::Instruction;
use crate::sending::{push_copies, send_one};
use std::alloc::Global;
use wit_model::{Case, List, OutOfMemory, Resolve, TypeDefKind, TypeId, WasmType, WitType};

/// The payloads of the cases of a variant.
fn case_payloads(alloc: Global, members: &[Case]) -> Result<List<Option<WitType>>, OutOfMemory>
    ensures { IfOk result (λ payloads. payloads ≡ map (λ c. c.ty) members.now) }
{
    let mut payloads = List::new(alloc);
    for member in members {
        payloads.push(member.ty)?;
    }
    Ok(payloads)
}

/// The payloads of the cases of a variant, an option or a result, or `OutOfMemory` where there is no memory for them.
pub fn kind_payloads(
    alloc: Global,
    kind: &TypeDefKind,
) -> Result<List<Option<WitType>>, OutOfMemory>
    requires { has_cases kind.now ≡ true }
    ensures { IfOk result (λ payloads. payloads ≡ payloads_of kind.now) }
{
    let mut payloads = List::new(alloc);
    match kind {
        TypeDefKind::Variant(members) => {
            return case_payloads(alloc, members.as_slice());
        }
        TypeDefKind::Option(ty) => {
            payloads.push(None)?;
            payloads.push(Some(*ty))?;
        }
        TypeDefKind::Result(ok, err) => {
            payloads.push(*ok)?;
            payloads.push(*err)?;
        }
        _ => {}
    }
    Ok(payloads)
}

/// The instruction that lowers a value of a kind with cases to so many words.
pub fn case_lowering(kind: &TypeDefKind, id: TypeId, count: u32) -> Instruction<'static>
    ensures { result ≡ case_lowering kind.now id count }
{
    match kind {
        TypeDefKind::Option(_) => Instruction::OptionLower(id, count),
        TypeDefKind::Result(_, _) => Instruction::ResultLower(id, count),
        _ => Instruction::VariantLower(id, count),
    }
}

/// Closes the block of a case, which gives the number of the case and these words.
pub(crate) fn close_case<B: Bindgen>(
    alloc: Global,
    bindgen: &mut B,
    tag: B::Operand,
    words: &[B::Operand],
    zeros: &[B::Operand],
) -> Result<(), OutOfMemory>
    requires { IsOpen B.meaning bindgen.old }
    ensures { OnOk result (Finishes B.meaning (tag ∷ words.now ++ zeros.now) bindgen.old bindgen.new) }
{
    let mut all = Vec::new(alloc);
    all.push(tag)?;
    push_copies(&mut all, alloc, words)?;
    push_copies(&mut all, alloc, zeros)?;
    let mut results = List::from_vec(all);
    bindgen.finish_block(&mut results)?;
    Ok(())
}

/// The block of a case without payload.
pub(crate) fn lower_bare<B: Bindgen>(
    alloc: Global,
    resolve: &Resolve,
    bindgen: &mut B,
    number: usize,
    slots: &[WasmType],
) -> Result<(), OutOfMemory>
    requires { number < 2 ^ 31 }
    ensures lowers { OnOk result ((realloc : Bool) → LowersCases B.meaning realloc (more nothing none) number slots.now bindgen.old bindgen.new) }
    ensures flows { OnOk result (Flows B.meaning resolve.now.types (in_block (lower_case resolve.now.types slots.now number None)) [] [] bindgen.old bindgen.new) }
{
    bindgen.push_block()?;
    let inst = Instruction::I32Const(number as i32);
    let tag = send_one(alloc, resolve, bindgen, inst, List::new(alloc))?;
    let zeros = zero_words(alloc, resolve, bindgen, slots)?;
    close_case(alloc, bindgen, tag, &[], zeros.as_slice())?;
    Ok(())
}
