//! A tag becomes a value of an enum.

ghost use Rattle.std.specs.Prelude.{◌≡◌, ◌<◌, ◌≤◌, ◌+◌, ◌^◌, ◌++◌, [], ◌∷◌, length, List, drop, take, IfOk, OnOk};
ghost use Rattle.wit_model.specs.TypeOrder.{GoesDown};
ghost use Rattle.wit_model.specs.declared.types.TypeDefKind.TheVariants as kind;
ghost use Rattle.wit_model.specs.declared.types.WitType.TheVariants.{Id};
ghost use Rattle.wrapper_meaning.specs.Shape.{shape_at};
ghost use Rattle.abi_bindgen.specs.Code.{lift_code};
ghost use Rattle.abi_bindgen.specs.HasList.{IsKindOf};
ghost use Rattle.abi_bindgen.specs.Lifts.{LiftsFlat};
ghost use Rattle.abi_bindgen.specs.Flows.{Flows};
ghost use Rattle.abi_bindgen.specs.Written.{Writes};

use crate::lift::Lifted;
use abi_bindgen::{Bindgen, Instruction, Operand, only, send_one};
use std::alloc::Global;
use wit_model::{List, Member, OutOfMemory, Resolve, TypeId};

/// The value of an enum that the tag at a place represents.
pub(crate) fn lift_enum<B: Bindgen>(
    alloc: Global,
    resolve: &Resolve,
    bindgen: &mut B,
    words: &[B::Operand],
    at: usize,
    id: TypeId,
    members: &List<Member>,
) -> Result<Lifted<B::Operand>, OutOfMemory>
    requires down { GoesDown resolve.now.types }
    requires here { IsKindOf resolve.now.types id.0 (kind.Enum members.now) }
    requires writes { Writes B.meaning resolve.now.types (Id id) bindgen.old }
    requires few { length members.now ≤ 2 ^ 31 }
    requires enough { at < length words.now }
    ensures next { IfOk result (λ r. r.next ≡ at + 1) }
    ensures lifts { IfOk result (λ r. (used : List B.Operand) × (drop at words.now ≡ used ++ drop r.next words.now)
        × LiftsFlat B.meaning (shape_at resolve.now.types id.0) used r.operand bindgen.old bindgen.new) }
    ensures flows { IfOk result (λ r. Flows B.meaning resolve.now.types (lift_code resolve.now.types (Id id)) (take 1 (drop at words.now)) (r.operand ∷ []) bindgen.old bindgen.new) }
{
    let tag = words[at].copy(alloc)?;
    let operands = only(alloc, tag)?;
    let operand = send_one(alloc, resolve, bindgen, Instruction::EnumLift(id), operands)?;
    Ok(Lifted {
        operand,
        next: at + 1,
    })
}
