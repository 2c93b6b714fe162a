//! The blocks of values that core words represent are freed.

ghost use Rattle.std.specs.Prelude.{◌≡◌, ◌<◌, ◌≤◌, ◌+◌, ◌++◌, [], ℕ, IsTrue, List, Some, false, true, drop, take, length, IfOk, OnOk};
ghost use Rattle.std.specs.List.{list_all};
ghost use Rattle.std.specs.Option.{option_map};
ghost use Rattle.wit_model.specs.TypeOrder.{GoesDown, payload_below, type_below};
ghost use Rattle.wit_model.specs.WellFormed.{IsWellFormed};
ghost use Rattle.wit_model.specs.declared.types.WitType.TheVariants.{Id, String};
ghost use Rattle.wrapper_meaning.specs.Shape.{payload_in, payloads_in, shape_at, shape_of, shapes};
ghost use Rattle.wrapper_meaning.specs.Shape.Shape.{text};
ghost use Rattle.abi_bindgen.specs.Code.{blocks_of_cases, free_types_code, free_words_code, lift_case, payload_words, shared_slots};
ghost use Rattle.abi_bindgen.specs.Flow.{in_block};
ghost use Rattle.abi_bindgen.specs.Flows.{Flows};
ghost use Rattle.abi_bindgen.specs.Frees.{FreesAll, FreesFlat};
ghost use Rattle.abi_bindgen.specs.HasList.{IsKindOf};
ghost use Rattle.abi_bindgen.specs.Instructions.{has_cases, shapes_of};
ghost use Rattle.abi_bindgen.specs.Served.{Serves, ServesAll};
ghost use Rattle.abi_bindgen.specs.SlotCasts.{FitIn};
ghost use Rattle.abi_bindgen.specs.WordCount.{word_count, word_counts};
ghost use Rattle.abi_driver.specs.FreedCases.{FreesCaseSlots, FreesSlots};

use crate::dealloc::variants::run_case;
use crate::lift::flags::flag_words;
use crate::lift::leaf::scalar_lifting;
use crate::memory::variants::{close, empty_block};
use abi_bindgen::{
    Bindgen, Instruction, Operand, cast_words, field_types, id_has_list, kind_payloads, only,
    push_copies, send,
};
use std::alloc::Global;
use wit_layout::flat_types;
use wit_model::{List, OutOfMemory, Resolve, TypeDefKind, TypeId, WasmType, WitType};

/// The blocks of values of these types, which the words represent, one operand for each word.
pub(super) fn free_words<B: Bindgen>(
    alloc: Global,
    resolve: &Resolve,
    types: &[WitType],
    words: &[B::Operand],
    bindgen: &mut B,
) -> Result<(), OutOfMemory>
    requires well { IsWellFormed resolve.now }
    requires down { GoesDown resolve.now.types }
    requires below { list_all (λ ty. type_below (length resolve.now.types) ty) types.now ≡ true }
    requires serves { ServesAll (shapes_of resolve.now.types types.now) }
    requires few { length words.now ≤ 16 }
    requires exact { length words.now ≡ word_counts resolve.now.types types.now }
    ensures frees { OnOk result (FreesAll B.meaning (shapes_of resolve.now.types types.now) words.now bindgen.old bindgen.new) }
    ensures flows { OnOk result (Flows B.meaning resolve.now.types (free_types_code resolve.now.types false types.now) words.now [] bindgen.old bindgen.new) }
{
    let count = resolve.types.len();
    free_parts(alloc, resolve, bindgen, words, 0, count, types)?;
    Ok(())
}

/// The blocks of the value of a type, of the words from a place on; it gives where those behind them begin.
#[cycle(free)]
#[tactic(auto, unfolding(wit_model::specs::TypeOrder::type_below))]
fn free_type<B: Bindgen>(
    alloc: Global,
    resolve: &Resolve,
    bindgen: &mut B,
    words: &[B::Operand],
    at: usize,
    ty: WitType,
) -> Result<usize, OutOfMemory>
    requires well { IsWellFormed resolve.now }
    requires down { GoesDown resolve.now.types }
    requires below { IsTrue (type_below (length resolve.now.types) ty) }
    requires serves { Serves (shape_of resolve.now.types ty) }
    requires few { word_count resolve.now.types ty ≤ 16 }
    requires enough { at + word_count resolve.now.types ty ≤ length words.now }
    ensures next { IfOk result (λ next. next ≡ at + word_count resolve.now.types ty) }
    ensures frees { IfOk result (λ next. (used : List B.Operand) × (drop at words.now ≡ used ++ drop next words.now)
        × FreesFlat B.meaning (shape_of resolve.now.types ty) used bindgen.old bindgen.new) }
    ensures flows { OnOk result (Flows B.meaning resolve.now.types (free_words_code resolve.now.types ty) (take (word_count resolve.now.types ty) (drop at words.now)) [] bindgen.old bindgen.new) }
{
    if let Some(_lift) = scalar_lifting(ty) {
        return Ok(at + 1);
    }
    match ty {
        WitType::String => {
            let next = free_text(alloc, resolve, bindgen, words, at)?;
            Ok(next)
        }
        WitType::Id(id) => free_id(alloc, resolve, bindgen, words, at, id),
        _ => unreachable!(),
    }
}

/// The same, of the type at a place of the table.
#[cycle(free)]
fn free_id<B: Bindgen>(
    alloc: Global,
    resolve: &Resolve,
    bindgen: &mut B,
    words: &[B::Operand],
    at: usize,
    id: TypeId,
) -> Result<usize, OutOfMemory>
    requires well { IsWellFormed resolve.now }
    requires down { GoesDown resolve.now.types }
    requires within { id.0 < length resolve.now.types }
    requires serves { Serves (shape_at resolve.now.types id.0) }
    requires few { word_count resolve.now.types (Id id) ≤ 16 }
    requires enough { at + word_count resolve.now.types (Id id) ≤ length words.now }
    ensures next { IfOk result (λ next. next ≡ at + word_count resolve.now.types (Id id)) }
    ensures frees { IfOk result (λ next. (used : List B.Operand) × (drop at words.now ≡ used ++ drop next words.now)
        × FreesFlat B.meaning (shape_at resolve.now.types id.0) used bindgen.old bindgen.new) }
    ensures flows { OnOk result (Flows B.meaning resolve.now.types (free_words_code resolve.now.types (Id id)) (take (word_count resolve.now.types (Id id)) (drop at words.now)) [] bindgen.old bindgen.new) }
{
    let types = resolve.types.as_slice();
    let place = id.0 as usize;
    let kind = &types[place].kind;
    match kind {
        TypeDefKind::Alias(ty) => {
            let next = free_type(alloc, resolve, bindgen, words, at, *ty)?;
            Ok(next)
        }
        TypeDefKind::Record(members) => {
            let tys = field_types(alloc, members.as_slice())?;
            let tys = tys.as_slice();
            let next = free_parts(alloc, resolve, bindgen, words, at, place, tys)?;
            Ok(next)
        }
        TypeDefKind::Tuple(members) => {
            let tys = members.as_slice();
            let next = free_parts(alloc, resolve, bindgen, words, at, place, tys)?;
            Ok(next)
        }
        TypeDefKind::Enum(_) => Ok(at + 1),
        TypeDefKind::Flags(members) => Ok(at + flag_words(members.len())),
        TypeDefKind::Variant(_) | TypeDefKind::Option(_) | TypeDefKind::Result(_, _) => {
            free_variant(alloc, resolve, bindgen, words, at, id, kind)
        }
        _ => unreachable!(),
    }
}

/// The blocks of all cases of a type with cases, and what runs the one of the word that tells the case. Where no value has blocks, nothing
/// is sent.
#[cycle(free)]
fn free_variant<B: Bindgen>(
    alloc: Global,
    resolve: &Resolve,
    bindgen: &mut B,
    words: &[B::Operand],
    at: usize,
    id: TypeId,
    kind: &TypeDefKind,
) -> Result<usize, OutOfMemory>
    requires well { IsWellFormed resolve.now }
    requires down { GoesDown resolve.now.types }
    requires here { IsKindOf resolve.now.types id.0 kind.now }
    requires cases { has_cases kind.now ≡ true }
    requires serves { Serves (shape_at resolve.now.types id.0) }
    requires few { word_count resolve.now.types (Id id) ≤ 16 }
    requires enough { at + word_count resolve.now.types (Id id) ≤ length words.now }
    ensures next { IfOk result (λ next. next ≡ at + word_count resolve.now.types (Id id)) }
    ensures frees { IfOk result (λ next. (used : List B.Operand) × (drop at words.now ≡ used ++ drop next words.now)
        × FreesFlat B.meaning (shape_at resolve.now.types id.0) used bindgen.old bindgen.new) }
    ensures flows { OnOk result (Flows B.meaning resolve.now.types (free_words_code resolve.now.types (Id id)) (take (word_count resolve.now.types (Id id)) (drop at words.now)) [] bindgen.old bindgen.new) }
{
    let flat = flat_types(resolve, &WitType::Id(id));
    let count = flat.count as usize;
    let next = at + count;
    if !id_has_list(resolve, id) {
        return Ok(next);
    }
    let payloads = kind_payloads(alloc, kind)?;
    let payloads = payloads.as_slice();
    let cases = payloads.len() as u32;
    let shared = &words[at + 1..next];
    let slots = &flat.words[1..count];
    free_cases(alloc, resolve, bindgen, shared, id, payloads, slots)?;
    let tag = words[at].copy(alloc)?;
    run_case(alloc, resolve, bindgen, tag, cases)?;
    Ok(next)
}

/// The blocks of the cases of the type at a place of the table, which share these words.
#[cycle(free)]
fn free_cases<B: Bindgen>(
    alloc: Global,
    resolve: &Resolve,
    bindgen: &mut B,
    words: &[B::Operand],
    id: TypeId,
    payloads: &[Option<WitType>],
    slots: &[WasmType],
) -> Result<(), OutOfMemory>
    requires well { IsWellFormed resolve.now }
    requires down { GoesDown resolve.now.types }
    requires within { id.0 < length resolve.now.types }
    requires below { list_all (λ payload. payload_below id.0 payload) payloads.now ≡ true }
    requires serves { ServesAll (payloads_in (shapes resolve.now.types) payloads.now) }
    requires shared { slots.now ≡ shared_slots resolve.now.types payloads.now }
    requires few { length slots.now ≤ 16 }
    requires enough { length words.now ≡ length slots.now }
    ensures frees { OnOk result (FreesCaseSlots B.meaning (payloads_in (shapes resolve.now.types) payloads.now) slots.now words.now bindgen.old bindgen.new) }
    ensures flows { OnOk result (Flows B.meaning resolve.now.types
        (blocks_of_cases (length slots.now) (lift_case resolve.now.types slots.now) (free_words_code resolve.now.types) payloads.now) words.now [] bindgen.old bindgen.new) }
{
    for i in 0..payloads.len() {
        free_case(alloc, resolve, bindgen, words, payloads[i], slots)?;
    }
    Ok(())
}

/// The block of a case, which frees the blocks of its payload, where it has one, of the first words.
#[cycle(free)]
#[tactic(auto, unfolding(wit_model::specs::TypeOrder::payload_below))]
fn free_case<B: Bindgen>(
    alloc: Global,
    resolve: &Resolve,
    bindgen: &mut B,
    words: &[B::Operand],
    payload: Option<WitType>,
    slots: &[WasmType],
) -> Result<(), OutOfMemory>
    requires well { IsWellFormed resolve.now }
    requires down { GoesDown resolve.now.types }
    requires below { IsTrue (payload_below (length resolve.now.types) payload) }
    requires serves { Serves (payload_in (shapes resolve.now.types) payload) }
    requires fits { FitIn (payload_words resolve.now.types payload) slots.now }
    requires few { length slots.now ≤ 16 }
    requires enough { length words.now ≡ length slots.now }
    ensures frees { OnOk result (FreesSlots B.meaning (payload_in (shapes resolve.now.types) payload) slots.now words.now bindgen.old bindgen.new) }
    ensures flows { OnOk result ((n : ℕ) → Flows B.meaning resolve.now.types (in_block (lift_case resolve.now.types slots.now n (option_map (λ ty. (ty, free_words_code resolve.now.types ty)) payload))) words.now [] bindgen.old bindgen.new) }
{
    match payload {
        None => {
            empty_block(alloc, bindgen)?;
            Ok(())
        }
        Some(ty) => {
            free_payload(alloc, resolve, bindgen, words, ty, slots)?;
            Ok(())
        }
    }
}

/// The same, of a case with a payload.
#[cycle(free)]
fn free_payload<B: Bindgen>(
    alloc: Global,
    resolve: &Resolve,
    bindgen: &mut B,
    words: &[B::Operand],
    ty: WitType,
    slots: &[WasmType],
) -> Result<(), OutOfMemory>
    requires well { IsWellFormed resolve.now }
    requires down { GoesDown resolve.now.types }
    requires below { IsTrue (type_below (length resolve.now.types) ty) }
    requires serves { Serves (shape_of resolve.now.types ty) }
    requires fits { FitIn (payload_words resolve.now.types (Some ty)) slots.now }
    requires few { length slots.now ≤ 16 }
    requires enough { length words.now ≡ length slots.now }
    ensures frees { OnOk result (FreesSlots B.meaning (shape_of resolve.now.types ty) slots.now words.now bindgen.old bindgen.new) }
    ensures flows { OnOk result ((n : ℕ) → Flows B.meaning resolve.now.types (in_block (lift_case resolve.now.types slots.now n (Some (ty, free_words_code resolve.now.types ty)))) words.now [] bindgen.old bindgen.new) }
{
    let flat = flat_types(resolve, &ty);
    let count = flat.count as usize;
    let types = &flat.words[..count];
    let mut first = Vec::new(alloc);
    push_copies(&mut first, alloc, &words[..count])?;
    let first = List::from_vec(first);
    bindgen.push_block()?;
    let used = cast_words(alloc, resolve, bindgen, first, &slots[..count], types)?;
    free_type(alloc, resolve, bindgen, used.as_slice(), 0, ty)?;
    close(alloc, bindgen)?;
    Ok(())
}

/// The blocks of parts whose types stand before a place of the table, of the words from a place on.
#[cycle(free)]
fn free_parts<B: Bindgen>(
    alloc: Global,
    resolve: &Resolve,
    bindgen: &mut B,
    words: &[B::Operand],
    at: usize,
    place: usize,
    tys: &[WitType],
) -> Result<usize, OutOfMemory>
    requires well { IsWellFormed resolve.now }
    requires down { GoesDown resolve.now.types }
    requires within { place ≤ length resolve.now.types }
    requires below { list_all (λ ty. type_below place ty) tys.now ≡ true }
    requires serves { ServesAll (shapes_of resolve.now.types tys.now) }
    requires few { word_counts resolve.now.types tys.now ≤ 16 }
    requires enough { at + word_counts resolve.now.types tys.now ≤ length words.now }
    ensures next { IfOk result (λ next. next ≡ at + word_counts resolve.now.types tys.now) }
    ensures frees { IfOk result (λ next. (used : List B.Operand) × (drop at words.now ≡ used ++ drop next words.now)
        × FreesAll B.meaning (shapes_of resolve.now.types tys.now) used bindgen.old bindgen.new) }
    ensures flows { OnOk result (Flows B.meaning resolve.now.types (free_types_code resolve.now.types false tys.now) (take (word_counts resolve.now.types tys.now) (drop at words.now)) [] bindgen.old bindgen.new) }
{
    let mut next = at;
    for i in 0..tys.len() {
        next = free_type(alloc, resolve, bindgen, words, next, tys[i])?;
    }
    Ok(next)
}

/// The block of the text that the address and the length at a place represent.
fn free_text<B: Bindgen>(
    alloc: Global,
    resolve: &Resolve,
    bindgen: &mut B,
    words: &[B::Operand],
    at: usize,
) -> Result<usize, OutOfMemory>
    requires { at + 2 ≤ length words.now }
    ensures next { IfOk result (λ next. next ≡ at + 2) }
    ensures frees { IfOk result (λ next. (used : List B.Operand) × (drop at words.now ≡ used ++ drop next words.now)
        × FreesFlat B.meaning text used bindgen.old bindgen.new) }
    ensures flows { OnOk result (Flows B.meaning resolve.now.types (free_words_code resolve.now.types String) (take 2 (drop at words.now)) [] bindgen.old bindgen.new) }
{
    let address = words[at].copy(alloc)?;
    let length = words[at + 1].copy(alloc)?;
    let mut operands = only(alloc, address)?;
    operands.push(length)?;
    let _none = send(
        alloc,
        resolve,
        bindgen,
        Instruction::GuestDeallocateString,
        operands,
    )?;
    Ok(at + 2)
}
