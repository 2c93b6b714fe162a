//! Words become a value of flags.

ghost use Rattle.std.specs.Prelude.{◌≡◌, ◌≤◌, ◌+◌, ◌++◌, [], ◌∷◌, length, List, drop, take, IfOk, OnOk};
ghost use Rattle.wit_model.specs.TypeOrder.{GoesDown};
ghost use Rattle.wit_model.specs.declared.types.TypeDefKind.TheVariants as kind;
ghost use Rattle.wit_model.specs.declared.types.WitType.TheVariants.{Id};
ghost use Rattle.wit_layout.specs.Extent.{flag_words};
ghost use Rattle.wrapper_meaning.specs.Shape.{shape_at};
ghost use Rattle.abi_bindgen.specs.Code.{lift_code};
ghost use Rattle.abi_bindgen.specs.HasList.{IsKindOf};
ghost use Rattle.abi_bindgen.specs.Lifts.{LiftsFlat};
ghost use Rattle.abi_bindgen.specs.Flows.{Flows};
ghost use Rattle.abi_bindgen.specs.Written.{Writes};

use crate::lift::Lifted;
use abi_bindgen::{Bindgen, Instruction, push_copies, send_one};
use std::alloc::Global;
use wit_model::{List, Member, OutOfMemory, Resolve, TypeId};

/// How many words so many flags are: one for each 32.
pub(crate) fn flag_words(flags: usize) -> usize
    ensures { result ≡ flag_words flags }
{
    let whole = flags / 32;
    if flags % 32 == 0 { whole } else { whole + 1 }
}

/// The value of flags that the words from a place on represent.
pub(crate) fn lift_flags<B: Bindgen>(
    alloc: Global,
    resolve: &Resolve,
    bindgen: &mut B,
    words: &[B::Operand],
    at: usize,
    id: TypeId,
    members: &List<Member>,
) -> Result<Lifted<B::Operand>, OutOfMemory>
    requires down { GoesDown resolve.now.types }
    requires here { IsKindOf resolve.now.types id.0 (kind.Flags members.now) }
    requires writes { Writes B.meaning resolve.now.types (Id id) bindgen.old }
    requires enough { at + flag_words (length members.now) ≤ length words.now }
    ensures next { IfOk result (λ r. r.next ≡ at + flag_words (length members.now)) }
    ensures lifts { IfOk result (λ r. (used : List B.Operand) × (drop at words.now ≡ used ++ drop r.next words.now)
        × LiftsFlat B.meaning (shape_at resolve.now.types id.0) used r.operand bindgen.old bindgen.new) }
    ensures flows { IfOk result (λ r. Flows B.meaning resolve.now.types (lift_code resolve.now.types (Id id)) (take (flag_words (length members.now)) (drop at words.now)) (r.operand ∷ []) bindgen.old bindgen.new) }
{
    let next = at + flag_words(members.len());
    let mut used = Vec::new(alloc);
    push_copies(&mut used, alloc, &words[at..next])?;
    let used = List::from_vec(used);
    let operand = send_one(alloc, resolve, bindgen, Instruction::FlagsLift(id), used)?;
    Ok(Lifted { operand, next })
}
