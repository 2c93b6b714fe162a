//! Core words become values.

pub(crate) mod enums;
pub(crate) mod flags;
pub(crate) mod leaf;
pub(crate) mod variants;

ghost use Rattle.std.specs.Prelude.{◌≡◌, ◌<◌, ◌≤◌, ◌+◌, ◌∷◌, ◌++◌, [], ℕ, IsTrue, List, Some, true, drop, length, take, IfOk, OnOk};
ghost use Rattle.std.specs.List.{AllByRecursion, list_all};
ghost use Rattle.std.specs.Option.{option_map};
ghost use Rattle.wit_model.specs.TypeOrder.{GoesDown, payload_below, type_below};
ghost use Rattle.wit_model.specs.WellFormed.{IsWellFormed};
ghost use Rattle.wit_model.specs.declared.types.WitType.TheVariants.{Id};
ghost use Rattle.wrapper_meaning.specs.Shape.{payload_in, payloads_in, shape_at, shape_of, shapes};
ghost use Rattle.wrapper_meaning.specs.Shape.Shapes.{none, more};
ghost use Rattle.abi_bindgen.specs.CaseBlocks.{LiftsCases};
ghost use Rattle.abi_bindgen.specs.Cases.{result_counts};
ghost use Rattle.abi_bindgen.specs.Code.{blocks_of_cases, lift_case, lift_code, payload_words, shared_slots};
ghost use Rattle.abi_bindgen.specs.HasList.{IsKindOf};
ghost use Rattle.abi_bindgen.specs.Instructions.{has_cases, shapes_of};
ghost use Rattle.abi_bindgen.specs.Lifts.{LiftsAll, LiftsFlat};
ghost use Rattle.abi_bindgen.specs.Flow.{each, in_block};
ghost use Rattle.abi_bindgen.specs.Flows.{Flows};
ghost use Rattle.abi_bindgen.specs.Served.{Serves, ServesAll};
ghost use Rattle.abi_bindgen.specs.SlotCasts.{FitIn};
ghost use Rattle.abi_bindgen.specs.WordCount.{word_count, word_counts};
ghost use Rattle.abi_bindgen.specs.Written.{Writes, WritesEach, WritesPart};

use crate::lift::enums::lift_enum;
use crate::lift::flags::lift_flags;
use crate::lift::leaf::{lift_scalar, lift_text, scalar_lifting};
use crate::lift::variants::{case_lifting, close_payload, lift_bare};
use abi_bindgen::{
    Bindgen, Instruction, Operand, cast_words, field_types, kind_payloads, only, part_count,
    push_copies, send_one,
};
use std::alloc::Global;
use wit_layout::flat_types;
use wit_model::{List, OutOfMemory, Resolve, TypeDefKind, TypeId, WasmType, WitType};

/// An operand that was made of words, and where those behind them begin.
#[derive(Drop)]
pub(crate) struct Lifted<O> {
    pub(crate) operand: O,
    pub(crate) next: usize,
}

/// The parts that were made of words, and where those behind them begin.
#[derive(Drop)]
struct LiftedParts<O> {
    parts: List<O>,
    next: usize,
}

/// What denotes the value that some core words represent, one operand for each word, of which there are sixteen at most. What the words
/// own is taken over.
///
/// So far it is a scalar, a text, an enum or flags, or a record, a tuple, a variant, an option or a result of such, also through aliases.
/// The answer is `OutOfMemory` where there is no memory for the code, or for the operands.
pub fn lift_flat<B: Bindgen>(
    alloc: Global,
    resolve: &Resolve,
    bindgen: &mut B,
    words: &List<B::Operand>,
    ty: &WitType,
) -> Result<B::Operand, OutOfMemory>
    requires well { IsWellFormed resolve.now }
    requires down { GoesDown resolve.now.types }
    requires below { IsTrue (type_below (length resolve.now.types) ty.now) }
    requires serves { Serves (shape_of resolve.now.types ty.now) }
    requires writes { Writes B.meaning resolve.now.types ty.now bindgen.old }
    requires few { length words.now ≤ 16 }
    requires exact { length words.now ≡ word_count resolve.now.types ty.now }
    ensures lifts { IfOk result (λ o. LiftsFlat B.meaning (shape_of resolve.now.types ty.now) words.now o bindgen.old bindgen.new) }
    ensures flows { IfOk result (λ o. Flows B.meaning resolve.now.types (lift_code resolve.now.types ty.now) words.now (o ∷ []) bindgen.old bindgen.new) }
{
    let lifted = lift_type(alloc, resolve, bindgen, words.as_slice(), 0, *ty)?;
    Ok(lifted.operand)
}

/// The same, of the words from a place on, by a type that was read.
#[cycle(lift)]
#[tactic(auto, unfolding(wit_model::specs::TypeOrder::type_below))]
fn lift_type<B: Bindgen>(
    alloc: Global,
    resolve: &Resolve,
    bindgen: &mut B,
    words: &[B::Operand],
    at: usize,
    ty: WitType,
) -> Result<Lifted<B::Operand>, OutOfMemory>
    requires well { IsWellFormed resolve.now }
    requires down { GoesDown resolve.now.types }
    requires below { IsTrue (type_below (length resolve.now.types) ty) }
    requires serves { Serves (shape_of resolve.now.types ty) }
    requires writes { Writes B.meaning resolve.now.types ty bindgen.old }
    requires few { word_count resolve.now.types ty ≤ 16 }
    requires enough { at + word_count resolve.now.types ty ≤ length words.now }
    ensures next { IfOk result (λ r. r.next ≡ at + word_count resolve.now.types ty) }
    ensures lifts { IfOk result (λ r. (used : List B.Operand) × (drop at words.now ≡ used ++ drop r.next words.now)
        × LiftsFlat B.meaning (shape_of resolve.now.types ty) used r.operand bindgen.old bindgen.new) }
    ensures flows { IfOk result (λ r. Flows B.meaning resolve.now.types (lift_code resolve.now.types ty) (take (word_count resolve.now.types ty) (drop at words.now)) (r.operand ∷ []) bindgen.old bindgen.new) }
{
    if let Some(inst) = scalar_lifting(ty) {
        return lift_scalar(alloc, resolve, bindgen, words, at, ty, inst);
    }
    match ty {
        WitType::String => lift_text(alloc, resolve, bindgen, words, at),
        WitType::Id(id) => lift_id(alloc, resolve, bindgen, words, at, id),
        _ => unreachable!(),
    }
}

/// The same, of the type at a place of the table.
#[cycle(lift)]
fn lift_id<B: Bindgen>(
    alloc: Global,
    resolve: &Resolve,
    bindgen: &mut B,
    words: &[B::Operand],
    at: usize,
    id: TypeId,
) -> Result<Lifted<B::Operand>, OutOfMemory>
    requires well { IsWellFormed resolve.now }
    requires down { GoesDown resolve.now.types }
    requires within { id.0 < length resolve.now.types }
    requires serves { Serves (shape_at resolve.now.types id.0) }
    requires writes { Writes B.meaning resolve.now.types (Id id) bindgen.old }
    requires few { word_count resolve.now.types (Id id) ≤ 16 }
    requires enough { at + word_count resolve.now.types (Id id) ≤ length words.now }
    ensures next { IfOk result (λ r. r.next ≡ at + word_count resolve.now.types (Id id)) }
    ensures lifts { IfOk result (λ r. (used : List B.Operand) × (drop at words.now ≡ used ++ drop r.next words.now)
        × LiftsFlat B.meaning (shape_at resolve.now.types id.0) used r.operand bindgen.old bindgen.new) }
    ensures flows { IfOk result (λ r. Flows B.meaning resolve.now.types (lift_code resolve.now.types (Id id)) (take (word_count resolve.now.types (Id id)) (drop at words.now)) (r.operand ∷ []) bindgen.old bindgen.new) }
{
    let types = resolve.types.as_slice();
    let place = id.0 as usize;
    let kind = &types[place].kind;
    match kind {
        TypeDefKind::Alias(ty) => lift_type(alloc, resolve, bindgen, words, at, *ty),
        TypeDefKind::Record(members) => {
            let tys = field_types(alloc, members.as_slice())?;
            let tys = tys.as_slice();
            let lifted = lift_parts(alloc, resolve, bindgen, words, at, place, tys)?;
            let LiftedParts { parts, next } = lifted;
            let operand = send_one(alloc, resolve, bindgen, Instruction::RecordLift(id), parts)?;
            Ok(Lifted { operand, next })
        }
        TypeDefKind::Tuple(members) => {
            let tys = members.as_slice();
            let inst = Instruction::TupleLift(part_count(tys));
            let lifted = lift_parts(alloc, resolve, bindgen, words, at, place, tys)?;
            let LiftedParts { parts, next } = lifted;
            let operand = send_one(alloc, resolve, bindgen, inst, parts)?;
            Ok(Lifted { operand, next })
        }
        TypeDefKind::Enum(members) => { lift_enum(alloc, resolve, bindgen, words, at, id, members) }
        TypeDefKind::Flags(members) => {
            lift_flags(alloc, resolve, bindgen, words, at, id, members)
        }
        TypeDefKind::Variant(_) => lift_variant(alloc, resolve, bindgen, words, at, id, kind),
        TypeDefKind::Option(_) => lift_variant(alloc, resolve, bindgen, words, at, id, kind),
        TypeDefKind::Result(_, _) => lift_variant(alloc, resolve, bindgen, words, at, id, kind),
        _ => unreachable!(),
    }
}

/// A value of a type with cases: a block for each case, and then the instruction of its kind.
#[cycle(lift)]
fn lift_variant<B: Bindgen>(
    alloc: Global,
    resolve: &Resolve,
    bindgen: &mut B,
    words: &[B::Operand],
    at: usize,
    id: TypeId,
    kind: &TypeDefKind,
) -> Result<Lifted<B::Operand>, OutOfMemory>
    requires well { IsWellFormed resolve.now }
    requires down { GoesDown resolve.now.types }
    requires here { IsKindOf resolve.now.types id.0 kind.now }
    requires cases { has_cases kind.now ≡ true }
    requires serves { Serves (shape_at resolve.now.types id.0) }
    requires writes { Writes B.meaning resolve.now.types (Id id) bindgen.old }
    requires few { word_count resolve.now.types (Id id) ≤ 16 }
    requires enough { at + word_count resolve.now.types (Id id) ≤ length words.now }
    ensures next { IfOk result (λ r. r.next ≡ at + word_count resolve.now.types (Id id)) }
    ensures lifts { IfOk result (λ r. (used : List B.Operand) × (drop at words.now ≡ used ++ drop r.next words.now)
        × LiftsFlat B.meaning (shape_at resolve.now.types id.0) used r.operand bindgen.old bindgen.new) }
    ensures flows { IfOk result (λ r. Flows B.meaning resolve.now.types (lift_code resolve.now.types (Id id)) (take (word_count resolve.now.types (Id id)) (drop at words.now)) (r.operand ∷ []) bindgen.old bindgen.new) }
{
    let flat = flat_types(resolve, &WitType::Id(id));
    let count = flat.count as usize;
    let payloads = kind_payloads(alloc, kind)?;
    let payloads = payloads.as_slice();
    let next = at + count;
    let shared = &words[at + 1..next];
    let slots = &flat.words[1..count];
    lift_cases(alloc, resolve, bindgen, shared, id, payloads, slots)?;
    let tag = words[at].copy(alloc)?;
    let operands = only(alloc, tag)?;
    let operand = send_one(alloc, resolve, bindgen, case_lifting(kind, id), operands)?;
    Ok(Lifted { operand, next })
}

/// The blocks of the cases of the type at a place of the table, which share these words.
#[cycle(lift)]
fn lift_cases<B: Bindgen>(
    alloc: Global,
    resolve: &Resolve,
    bindgen: &mut B,
    words: &[B::Operand],
    id: TypeId,
    payloads: &[Option<WitType>],
    slots: &[WasmType],
) -> Result<(), OutOfMemory>
    requires well { IsWellFormed resolve.now }
    requires down { GoesDown resolve.now.types }
    requires within { id.0 < length resolve.now.types }
    requires below { list_all (λ payload. payload_below id.0 payload) payloads.now ≡ true }
    requires serves { ServesAll (payloads_in (shapes resolve.now.types) payloads.now) }
    requires writes { AllByRecursion (λ p. WritesPart B.meaning resolve.now.types p bindgen.old) payloads.now }
    requires shared { slots.now ≡ shared_slots resolve.now.types payloads.now }
    requires few { length slots.now ≤ 16 }
    requires enough { length words.now ≡ length slots.now }
    ensures lifts { OnOk result (LiftsCases B.meaning (payloads_in (shapes resolve.now.types) payloads.now) (result_counts payloads.now) slots.now words.now bindgen.old bindgen.new) }
    ensures flows { OnOk result (Flows B.meaning resolve.now.types
        (blocks_of_cases (length slots.now) (lift_case resolve.now.types slots.now) (lift_code resolve.now.types) payloads.now) words.now [] bindgen.old bindgen.new) }
{
    for i in 0..payloads.len() {
        lift_case(alloc, resolve, bindgen, words, payloads[i], slots)?;
    }
    Ok(())
}

/// The block of a case, which gives its payload, where it has one, of the first words.
#[cycle(lift)]
#[tactic(auto, unfolding(wit_model::specs::TypeOrder::payload_below))]
fn lift_case<B: Bindgen>(
    alloc: Global,
    resolve: &Resolve,
    bindgen: &mut B,
    words: &[B::Operand],
    payload: Option<WitType>,
    slots: &[WasmType],
) -> Result<(), OutOfMemory>
    requires well { IsWellFormed resolve.now }
    requires down { GoesDown resolve.now.types }
    requires below { IsTrue (payload_below (length resolve.now.types) payload) }
    requires serves { Serves (payload_in (shapes resolve.now.types) payload) }
    requires writes { WritesPart B.meaning resolve.now.types payload bindgen.old }
    requires fits { FitIn (payload_words resolve.now.types payload) slots.now }
    requires few { length slots.now ≤ 16 }
    requires enough { length words.now ≡ length slots.now }
    ensures lifts { OnOk result (LiftsCases B.meaning (more (payload_in (shapes resolve.now.types) payload) none) (result_counts (payload ∷ [])) slots.now words.now bindgen.old bindgen.new) }
    ensures flows { OnOk result ((n : ℕ) → Flows B.meaning resolve.now.types (in_block (lift_case resolve.now.types slots.now n (option_map (λ ty. (ty, lift_code resolve.now.types ty)) payload))) words.now [] bindgen.old bindgen.new) }
{
    match payload {
        None => {
            lift_bare(alloc, bindgen)?;
            Ok(())
        }
        Some(ty) => {
            lift_payload(alloc, resolve, bindgen, words, ty, slots)?;
            Ok(())
        }
    }
}

/// The same, of a case with a payload.
#[cycle(lift)]
fn lift_payload<B: Bindgen>(
    alloc: Global,
    resolve: &Resolve,
    bindgen: &mut B,
    words: &[B::Operand],
    ty: WitType,
    slots: &[WasmType],
) -> Result<(), OutOfMemory>
    requires well { IsWellFormed resolve.now }
    requires down { GoesDown resolve.now.types }
    requires below { IsTrue (type_below (length resolve.now.types) ty) }
    requires serves { Serves (shape_of resolve.now.types ty) }
    requires writes { Writes B.meaning resolve.now.types ty bindgen.old }
    requires fits { FitIn (payload_words resolve.now.types (Some ty)) slots.now }
    requires few { length slots.now ≤ 16 }
    requires enough { length words.now ≡ length slots.now }
    ensures lifts { OnOk result (LiftsCases B.meaning (more (shape_of resolve.now.types ty) none) (1 ∷ []) slots.now words.now bindgen.old bindgen.new) }
    ensures flows { OnOk result ((n : ℕ) → Flows B.meaning resolve.now.types (in_block (lift_case resolve.now.types slots.now n (Some (ty, lift_code resolve.now.types ty)))) words.now [] bindgen.old bindgen.new) }
{
    let flat = flat_types(resolve, &ty);
    let count = flat.count as usize;
    let types = &flat.words[..count];
    let mut first = Vec::new(alloc);
    push_copies(&mut first, alloc, &words[..count])?;
    let first = List::from_vec(first);
    bindgen.push_block()?;
    let used = cast_words(alloc, resolve, bindgen, first, &slots[..count], types)?;
    let lifted = lift_type(alloc, resolve, bindgen, used.as_slice(), 0, ty)?;
    close_payload(alloc, bindgen, lifted.operand)?;
    Ok(())
}

/// The parts of a value whose type stands at a place of the table, of the words from a place on.
#[cycle(lift)]
fn lift_parts<B: Bindgen>(
    alloc: Global,
    resolve: &Resolve,
    bindgen: &mut B,
    words: &[B::Operand],
    at: usize,
    place: usize,
    tys: &[WitType],
) -> Result<LiftedParts<B::Operand>, OutOfMemory>
    requires well { IsWellFormed resolve.now }
    requires down { GoesDown resolve.now.types }
    requires within { place ≤ length resolve.now.types }
    requires below { list_all (λ ty. type_below place ty) tys.now ≡ true }
    requires serves { ServesAll (shapes_of resolve.now.types tys.now) }
    requires writes { WritesEach B.meaning resolve.now.types tys.now bindgen.old }
    requires few { word_counts resolve.now.types tys.now ≤ 16 }
    requires enough { at + word_counts resolve.now.types tys.now ≤ length words.now }
    ensures next { IfOk result (λ r. r.next ≡ at + word_counts resolve.now.types tys.now) }
    ensures count { IfOk result (λ r. length r.parts ≡ length tys.now) }
    ensures lifts { IfOk result (λ r. (used : List B.Operand) × (drop at words.now ≡ used ++ drop r.next words.now)
        × LiftsAll B.meaning (shapes_of resolve.now.types tys.now) used r.parts bindgen.old bindgen.new) }
    ensures flows { IfOk result (λ r. Flows B.meaning resolve.now.types (each 0 (word_count resolve.now.types) (λ n ty. lift_code resolve.now.types ty) 0 tys.now) (take (word_counts resolve.now.types tys.now) (drop at words.now)) r.parts bindgen.old bindgen.new) }
{
    let mut parts = List::new(alloc);
    let mut next = at;
    for i in 0..tys.len() {
        let lifted = lift_type(alloc, resolve, bindgen, words, next, tys[i])?;
        let Lifted {
            operand,
            next: behind,
        } = lifted;
        parts.push(operand)?;
        next = behind;
    }
    Ok(LiftedParts { parts, next })
}
