//! Core words become values of variants, options and results: what their blocks have in common.

ghost use Rattle.std.specs.Prelude.{◌≡◌, List, [], ◌∷◌, OnOk};
ghost use Rattle.wit_model.specs.declared.types.TypeDef.{TypeDef};
ghost use Rattle.wit_model.specs.declared.wasm_type.WasmType.{WasmType as CoreType};
ghost use Rattle.wrapper_meaning.specs.Shape.{nothing};
ghost use Rattle.wrapper_meaning.specs.Shape.Shapes.{none, more};
ghost use Rattle.abi_bindgen.specs.Blocks.{Finishes, IsOpen};
ghost use Rattle.abi_bindgen.specs.CaseBlocks.{LiftsCases};
ghost use Rattle.abi_bindgen.specs.Instructions.{case_lifting};
ghost use Rattle.abi_bindgen.specs.Flow.{in_block, leave_none};
ghost use Rattle.abi_bindgen.specs.Flows.{Flows};

use abi_bindgen::{Bindgen, Instruction, only};
use std::alloc::Global;
use wit_model::{List, OutOfMemory, TypeDefKind, TypeId};

/// The instruction that makes a value of a kind with cases.
pub(crate) fn case_lifting(kind: &TypeDefKind, id: TypeId) -> Instruction<'static>
    ensures { result ≡ case_lifting kind.now id }
{
    match kind {
        TypeDefKind::Option(_) => Instruction::OptionLift(id),
        TypeDefKind::Result(_, _) => Instruction::ResultLift(id),
        _ => Instruction::VariantLift(id),
    }
}

/// Closes the block of a case, which gives its payload.
pub(crate) fn close_payload<B: Bindgen>(
    alloc: Global,
    bindgen: &mut B,
    payload: B::Operand,
) -> Result<(), OutOfMemory>
    requires { IsOpen B.meaning bindgen.old }
    ensures { OnOk result (Finishes B.meaning (payload ∷ []) bindgen.old bindgen.new) }
{
    let mut results = only(alloc, payload)?;
    bindgen.finish_block(&mut results)?;
    Ok(())
}

/// The block of a case without payload, which gives nothing.
pub(crate) fn lift_bare<B: Bindgen>(alloc: Global, bindgen: &mut B) -> Result<(), OutOfMemory>
    ensures lifts { OnOk result ((slots : List CoreType) (os : List B.Operand) → LiftsCases B.meaning (more nothing none) (0 ∷ []) slots os bindgen.old bindgen.new) }
    ensures flows { OnOk result ((types : List TypeDef) (reads : List B.Operand) → Flows B.meaning types (in_block leave_none) reads [] bindgen.old bindgen.new) }
{
    bindgen.push_block()?;
    let mut results = List::new(alloc);
    bindgen.finish_block(&mut results)?;
    Ok(())
}
