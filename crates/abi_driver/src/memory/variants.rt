//! Values with cases are put into memory, and read from it: payloads and tags, and the blocks in which each is treated.

ghost use Rattle.std.specs.Prelude.{◌≡◌, ◌<◌, ◌≤◌, ◌^◌, Bool, IsTrue, List, [], ◌∷◌, false, true, length, map, pos, slice_get, IfOk, IfSome, OnOk, Some};
ghost use Rattle.wit_model.specs.declared.size.ArchitectureSize.{ArchitectureSize};
ghost use Rattle.wit_model.specs.declared.types.TypeDef.{TypeDef};
ghost use Rattle.wit_layout.specs.Extent.{discriminant_grain};
ghost use Rattle.wit_layout.specs.Sizes.{payload_offset};
ghost use Rattle.wit_layout.specs.Told.{IsPairOf, is_alias};
ghost use Rattle.wit_layout.specs.Tree.{tree_at};
ghost use Rattle.wrapper_meaning.specs.Shape.{is_nothing, nothing, shape_of};
ghost use Rattle.abi_bindgen.specs.declared.instruction.Instruction.TheVariants as instruction;
ghost use Rattle.abi_bindgen.specs.Blocks.{Finishes, IsOpen, Pushes};
ghost use Rattle.abi_bindgen.specs.Cases.{payloads_of};
ghost use Rattle.abi_bindgen.specs.Code.{beyond, store_case};
ghost use Rattle.abi_bindgen.specs.Instructions.{Emits, has_cases};
ghost use Rattle.abi_bindgen.specs.NumberTouches.{tag_load, tag_store};
ghost use Rattle.abi_bindgen.specs.Flow.{in_block};
ghost use Rattle.abi_bindgen.specs.Flows.{Flows};
ghost use Rattle.abi_driver.specs.Low.{HasLowPayload};
ghost use Rattle.abi_driver.specs.StoredCases.{StoresCase};

use crate::memory::place::sum;
use crate::memory::word::{load_word, store_word};
use abi_bindgen::{Bindgen, Instruction, Operand, kind_payloads, send_one, tag_load, tag_store};
use std::alloc::Global;
use wit_model::{ArchitectureSize, List, OutOfMemory, Resolve, TypeDefKind, TypeId, WitType};

/// The payloads of the cases of a variant, an option or a result.
pub(crate) fn case_payloads(
    alloc: Global,
    kind: &TypeDefKind,
) -> Result<List<Option<WitType>>, OutOfMemory>
    requires { has_cases kind.now ≡ true }
    ensures { IfOk result (λ payloads. payloads ≡ payloads_of kind.now) }
{
    match kind {
        TypeDefKind::Variant(_) | TypeDefKind::Option(_) | TypeDefKind::Result(_, _) => {
            let payloads = kind_payloads(alloc, kind)?;
            Ok(payloads)
        }
        _ => unreachable!(),
    }
}

/// Where the payloads of a type of the table stand, which itself stands at an offset.
pub(crate) fn payload_place<B: Bindgen>(
    bindgen: &B,
    id: TypeId,
    offset: ArchitectureSize,
) -> ArchitectureSize
    requires { (types : List TypeDef) × B.meaning.knows bindgen.now types × HasLowPayload types id.0 offset }
    ensures { (types : List TypeDef) (entry : TypeDef) → B.meaning.knows bindgen.now types → slice_get types id.0 ≡ Some entry → is_alias entry.kind ≡ false
        → (at : ArchitectureSize) × (result ≡ beyond offset at) × IsPairOf at (λ w. payload_offset w (tree_at types id.0)) }
{
    sum(offset, bindgen.sizes().payload_offset(id))
}

/// What denotes the payload of the innermost open block.
pub(crate) fn payload<B: Bindgen>(
    alloc: Global,
    resolve: &Resolve,
    bindgen: &mut B,
) -> Result<B::Operand, OutOfMemory>
    requires { IsOpen B.meaning bindgen.old }
    ensures { IfOk result (λ o. Emits B.meaning resolve.now.types instruction.VariantPayloadName [] (o ∷ []) bindgen.old bindgen.new) }
{
    let operand = send_one(
        alloc,
        resolve,
        bindgen,
        Instruction::VariantPayloadName,
        List::new(alloc),
    )?;
    Ok(operand)
}

/// Closes the innermost open block, which gives nothing.
pub(crate) fn close<B: Bindgen>(alloc: Global, bindgen: &mut B) -> Result<(), OutOfMemory>
    requires { IsOpen B.meaning bindgen.old }
    ensures { OnOk result (Finishes B.meaning [] bindgen.old bindgen.new) }
{
    let mut none = List::new(alloc);
    bindgen.finish_block(&mut none)?;
    Ok(())
}

/// The block of a case without payload, which gives nothing.
pub(crate) fn empty_block<B: Bindgen>(alloc: Global, bindgen: &mut B) -> Result<(), OutOfMemory>
    ensures { OnOk result ((mid : B) × Pushes B.meaning bindgen.old mid × Finishes B.meaning [] mid bindgen.new) }
{
    bindgen.push_block()?;
    close(alloc, bindgen)?;
    Ok(())
}

/// The number of one of so many cases becomes a word, which is stored as its tag.
pub(super) fn store_tag<B: Bindgen>(
    alloc: Global,
    resolve: &Resolve,
    bindgen: &mut B,
    address: &B::Operand,
    offset: ArchitectureSize,
    cases: usize,
    number: usize,
) -> Result<(), OutOfMemory>
    requires { number < 2 ^ 31 }
    ensures { OnOk result ((mid : B) × (tag : B.Operand) × Emits B.meaning resolve.now.types (instruction.I32Const (pos number)) [] (tag ∷ []) bindgen.old mid
        × Emits B.meaning resolve.now.types (tag_store cases offset) (tag ∷ address.now ∷ []) [] mid bindgen.new) }
{
    let inst = Instruction::I32Const(number as i32);
    let tag = send_one(alloc, resolve, bindgen, inst, List::new(alloc))?;
    let store = tag_store(cases, offset);
    store_word(alloc, resolve, bindgen, tag, address, store)?;
    Ok(())
}

/// The tag of one of so many cases.
pub(crate) fn load_tag<B: Bindgen>(
    alloc: Global,
    resolve: &Resolve,
    bindgen: &mut B,
    address: &B::Operand,
    offset: ArchitectureSize,
    cases: usize,
) -> Result<B::Operand, OutOfMemory>
    ensures { IfOk result (λ tag. Emits B.meaning resolve.now.types (tag_load cases offset) (address.now ∷ []) (tag ∷ []) bindgen.old bindgen.new) }
{
    let load = tag_load(cases, offset);
    let tag = load_word(alloc, resolve, bindgen, address, load)?;
    Ok(tag)
}

/// The block of a case without payload stores its tag.
pub(super) fn store_bare<B: Bindgen>(
    alloc: Global,
    resolve: &Resolve,
    bindgen: &mut B,
    address: &B::Operand,
    offset: ArchitectureSize,
    cases: usize,
    number: usize,
) -> Result<(), OutOfMemory>
    requires below { number < cases }
    requires most { cases ≤ 2 ^ 31 }
    ensures stores { (realloc : Bool) (place : ArchitectureSize) → OnOk result (StoresCase B.meaning realloc (discriminant_grain cases) number nothing address.now offset place bindgen.old bindgen.new) }
    ensures flows { (place : ArchitectureSize) → OnOk result (Flows B.meaning resolve.now.types (in_block (store_case cases offset place number None)) (address.now ∷ []) [] bindgen.old bindgen.new) }
{
    bindgen.push_block()?;
    store_tag(alloc, resolve, bindgen, address, offset, cases, number)?;
    close(alloc, bindgen)?;
    Ok(())
}
