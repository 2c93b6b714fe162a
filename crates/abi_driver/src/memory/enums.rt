//! Enums are put into memory, and read from it.

ghost use Rattle.std.specs.Prelude.{◌≡◌, ◌≤◌, ◌^◌, [], ◌∷◌, Bool, length, IfOk, OnOk};
ghost use Rattle.wit_model.specs.TypeOrder.{GoesDown};
ghost use Rattle.wit_model.specs.declared.types.TypeDefKind.TheVariants as kind;
ghost use Rattle.wit_model.specs.declared.types.WitType.TheVariants.{Id};
ghost use Rattle.wrapper_meaning.specs.Shape.{shape_at};
ghost use Rattle.abi_bindgen.specs.Code.{load_code, store_code};
ghost use Rattle.abi_bindgen.specs.HasList.{IsKindOf};
ghost use Rattle.abi_driver.specs.Loads.{LiftsFromMemory};
ghost use Rattle.abi_bindgen.specs.Flows.{Flows};
ghost use Rattle.abi_driver.specs.Stores.{LowersToMemory};
ghost use Rattle.abi_bindgen.specs.Written.{Writes};

use crate::memory::word::{load_word, store_word};
use abi_bindgen::{Bindgen, Instruction, Operand, lower_by, only, send_one, tag_load, tag_store};
use std::alloc::Global;
use wit_model::{ArchitectureSize, List, Member, OutOfMemory, Resolve, TypeId};

/// A value of an enum becomes the number of its case, which is stored.
pub(super) fn store_enum<B: Bindgen>(
    alloc: Global,
    resolve: &Resolve,
    bindgen: &mut B,
    address: &B::Operand,
    offset: ArchitectureSize,
    value: B::Operand,
    id: TypeId,
    members: &List<Member>,
) -> Result<(), OutOfMemory>
    requires down { GoesDown resolve.now.types }
    requires here { IsKindOf resolve.now.types id.0 (kind.Enum members.now) }
    requires most { length members.now ≤ 2 ^ 31 }
    ensures stores { (realloc : Bool) → OnOk result (LowersToMemory B.meaning realloc (shape_at resolve.now.types id.0) value address.now offset bindgen.old bindgen.new) }
    ensures flows { (realloc : Bool) → OnOk result (Flows B.meaning resolve.now.types (store_code resolve.now.types realloc (Id id) offset) (address.now ∷ value ∷ []) [] bindgen.old bindgen.new) }
{
    let cases = members.len();
    let store = tag_store(cases, offset);
    let words = lower_by(alloc, resolve, bindgen, value, Instruction::EnumLower(id))?;
    let tag = words.as_slice()[0].copy(alloc)?;
    store_word(alloc, resolve, bindgen, tag, address, store)?;
    Ok(())
}

/// A tag is loaded, and becomes a value of an enum.
pub(super) fn load_enum<B: Bindgen>(
    alloc: Global,
    resolve: &Resolve,
    bindgen: &mut B,
    address: &B::Operand,
    offset: ArchitectureSize,
    id: TypeId,
    members: &List<Member>,
) -> Result<B::Operand, OutOfMemory>
    requires down { GoesDown resolve.now.types }
    requires here { IsKindOf resolve.now.types id.0 (kind.Enum members.now) }
    requires writes { Writes B.meaning resolve.now.types (Id id) bindgen.old }
    ensures loads { IfOk result (λ r. LiftsFromMemory B.meaning (shape_at resolve.now.types id.0) address.now offset r bindgen.old bindgen.new) }
    ensures flows { IfOk result (λ r. Flows B.meaning resolve.now.types (load_code resolve.now.types (Id id) offset) (address.now ∷ []) (r ∷ []) bindgen.old bindgen.new) }
{
    let cases = members.len();
    let load = tag_load(cases, offset);
    let tag = load_word(alloc, resolve, bindgen, address, load)?;
    let operands = only(alloc, tag)?;
    let operand = send_one(alloc, resolve, bindgen, Instruction::EnumLift(id), operands)?;
    Ok(operand)
}
