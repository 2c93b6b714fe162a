//! Values become core words.

pub(crate) mod leaf;
pub(crate) mod variants;

ghost use Rattle.std.specs.Prelude.{◌≡◌, ◌<◌, ◌≤◌, ◌^◌, IsTrue, List, [], ◌∷◌, Some, true, length, IfOk, OnOk};
ghost use Rattle.std.specs.List.{AllByRecursion, list_all};
ghost use Rattle.std.specs.Option.{option_map};
ghost use Rattle.wit_model.specs.TypeOrder.{GoesDown, payload_below, type_below};
ghost use Rattle.wit_model.specs.WellFormed.{IsWellFormed};
ghost use Rattle.wit_model.specs.declared.types.TypeDefKind.TheVariants as kind;
ghost use Rattle.wit_model.specs.declared.types.WitType.TheVariants.{Id};
ghost use Rattle.wrapper_meaning.specs.Shape.{payload_in, payloads_in, shape_at, shape_of, shapes};
ghost use Rattle.wrapper_meaning.specs.Shape.Shape.{cases};
ghost use Rattle.wrapper_meaning.specs.Shape.Shapes.{none, more};
ghost use Rattle.abi_bindgen.specs.CaseBlocks.{LowersCases};
ghost use Rattle.abi_bindgen.specs.Code.{blocks_of_cases, case_words, lower_case, lower_code, payload_words, shared_slots};
ghost use Rattle.abi_bindgen.specs.HasList.{IsKindOf};
ghost use Rattle.abi_bindgen.specs.Instructions.{IsSide, has_cases, shapes_of};
ghost use Rattle.abi_bindgen.specs.Lowers.{LowersAll, LowersFlat};
ghost use Rattle.abi_bindgen.specs.Flow.{each, in_block};
ghost use Rattle.abi_bindgen.specs.Flows.{Flows};
ghost use Rattle.abi_bindgen.specs.Served.{Serves, ServesAll};
ghost use Rattle.abi_bindgen.specs.SlotCasts.{FitIn};
ghost use Rattle.abi_bindgen.specs.WordCount.{word_count, word_counts};
ghost use Rattle.abi_bindgen.specs.Written.{Writes, WritesEach, WritesPart};

use crate::bindgen::{Bindgen, Operand};
use crate::casts::{cast_words, zero_words};
use crate::instruction::Instruction;
use crate::lower::leaf::{lower_by, scalar_lowering};
use crate::lower::variants::{case_lowering, close_case, kind_payloads, lower_bare};
use crate::parts::{field_types, part_count};
use crate::sending::{push_copies, send_one};
use std::alloc::Global;
use wit_layout::flat_types;
use wit_model::{Field, List, OutOfMemory, Resolve, TypeDefKind, TypeId, WasmType, WitType};

/// The core words of the value that an operand denotes, after `lower_flat` of wit-bindgen-core.
///
/// Without `realloc` the value is lent, and with it given away. It is of sixteen words at most. So far it is a scalar, a text, an enum or flags,
/// or a record, a tuple, a variant, an option or a result of such, also through aliases. The answer is `OutOfMemory` where there is no memory
/// for the code, or for the operands.
pub fn lower_flat<B: Bindgen>(
    alloc: Global,
    resolve: &Resolve,
    bindgen: &mut B,
    value: B::Operand,
    ty: &WitType,
    realloc: bool,
) -> Result<List<B::Operand>, OutOfMemory>
    requires well { IsWellFormed resolve.now }
    requires down { GoesDown resolve.now.types }
    requires below { IsTrue (type_below (length resolve.now.types) ty.now) }
    requires side { IsSide B.meaning realloc bindgen.old }
    requires serves { Serves (shape_of resolve.now.types ty.now) }
    requires writes { Writes B.meaning resolve.now.types ty.now bindgen.old }
    requires few { word_count resolve.now.types ty.now ≤ 16 }
    ensures lowers { IfOk result (λ os. LowersFlat B.meaning realloc (shape_of resolve.now.types ty.now) value os bindgen.old bindgen.new) }
    ensures flows { IfOk result (λ os. Flows B.meaning resolve.now.types (lower_code resolve.now.types realloc ty.now) (value ∷ []) os bindgen.old bindgen.new) }
{
    lower_type(alloc, resolve, bindgen, value, *ty, realloc)
}

/// The same, by a type that was read.
#[cycle(lower)]
#[tactic(auto, unfolding(wit_model::specs::TypeOrder::type_below))]
fn lower_type<B: Bindgen>(
    alloc: Global,
    resolve: &Resolve,
    bindgen: &mut B,
    value: B::Operand,
    ty: WitType,
    realloc: bool,
) -> Result<List<B::Operand>, OutOfMemory>
    requires well { IsWellFormed resolve.now }
    requires down { GoesDown resolve.now.types }
    requires below { IsTrue (type_below (length resolve.now.types) ty) }
    requires side { IsSide B.meaning realloc bindgen.old }
    requires serves { Serves (shape_of resolve.now.types ty) }
    requires writes { Writes B.meaning resolve.now.types ty bindgen.old }
    requires few { word_count resolve.now.types ty ≤ 16 }
    ensures lowers { IfOk result (λ os. LowersFlat B.meaning realloc (shape_of resolve.now.types ty) value os bindgen.old bindgen.new) }
    ensures flows { IfOk result (λ os. Flows B.meaning resolve.now.types (lower_code resolve.now.types realloc ty) (value ∷ []) os bindgen.old bindgen.new) }
{
    if let Some(inst) = scalar_lowering(ty) {
        let words = lower_by(alloc, resolve, bindgen, value, inst)?;
        return Ok(words);
    }
    match ty {
        WitType::String => {
            let inst = Instruction::StringLower(realloc);
            let words = lower_by(alloc, resolve, bindgen, value, inst)?;
            Ok(words)
        }
        WitType::Id(id) => lower_id(alloc, resolve, bindgen, value, id, realloc),
        _ => unreachable!(),
    }
}

/// The same, of the type at a place of the table.
#[cycle(lower)]
fn lower_id<B: Bindgen>(
    alloc: Global,
    resolve: &Resolve,
    bindgen: &mut B,
    value: B::Operand,
    id: TypeId,
    realloc: bool,
) -> Result<List<B::Operand>, OutOfMemory>
    requires well { IsWellFormed resolve.now }
    requires down { GoesDown resolve.now.types }
    requires within { id.0 < length resolve.now.types }
    requires side { IsSide B.meaning realloc bindgen.old }
    requires serves { Serves (shape_at resolve.now.types id.0) }
    requires writes { Writes B.meaning resolve.now.types (Id id) bindgen.old }
    requires few { word_count resolve.now.types (Id id) ≤ 16 }
    ensures lowers { IfOk result (λ os. LowersFlat B.meaning realloc (shape_at resolve.now.types id.0) value os bindgen.old bindgen.new) }
    ensures flows { IfOk result (λ os. Flows B.meaning resolve.now.types (lower_code resolve.now.types realloc (Id id)) (value ∷ []) os bindgen.old bindgen.new) }
{
    let types = resolve.types.as_slice();
    let at = id.0 as usize;
    let kind = &types[at].kind;
    match kind {
        TypeDefKind::Alias(ty) => {
            let words = lower_type(alloc, resolve, bindgen, value, *ty, realloc)?;
            Ok(words)
        }
        TypeDefKind::Record(members) => {
            lower_record(alloc, resolve, bindgen, value, id, members, realloc)
        }
        TypeDefKind::Tuple(members) => {
            lower_tuple(alloc, resolve, bindgen, value, id, members, realloc)
        }
        TypeDefKind::Enum(_) => {
            let words = lower_by(alloc, resolve, bindgen, value, Instruction::EnumLower(id))?;
            Ok(words)
        }
        TypeDefKind::Flags(_) => {
            let words = lower_by(alloc, resolve, bindgen, value, Instruction::FlagsLower(id))?;
            Ok(words)
        }
        TypeDefKind::Variant(_) => lower_variant(alloc, resolve, bindgen, value, id, kind, realloc),
        TypeDefKind::Option(_) => lower_variant(alloc, resolve, bindgen, value, id, kind, realloc),
        TypeDefKind::Result(_, _) => {
            lower_variant(alloc, resolve, bindgen, value, id, kind, realloc)
        }
        _ => unreachable!(),
    }
}

/// A record: its fields, and then the words of each.
#[cycle(lower)]
fn lower_record<B: Bindgen>(
    alloc: Global,
    resolve: &Resolve,
    bindgen: &mut B,
    value: B::Operand,
    id: TypeId,
    members: &List<Field>,
    realloc: bool,
) -> Result<List<B::Operand>, OutOfMemory>
    requires well { IsWellFormed resolve.now }
    requires down { GoesDown resolve.now.types }
    requires here { IsKindOf resolve.now.types id.0 (kind.Record members.now) }
    requires side { IsSide B.meaning realloc bindgen.old }
    requires serves { Serves (shape_at resolve.now.types id.0) }
    requires writes { Writes B.meaning resolve.now.types (Id id) bindgen.old }
    requires few { word_count resolve.now.types (Id id) ≤ 16 }
    ensures lowers { IfOk result (λ os. LowersFlat B.meaning realloc (shape_at resolve.now.types id.0) value os bindgen.old bindgen.new) }
    ensures flows { IfOk result (λ os. Flows B.meaning resolve.now.types (lower_code resolve.now.types realloc (Id id)) (value ∷ []) os bindgen.old bindgen.new) }
{
    let tys = field_types(alloc, members.as_slice())?;
    let parts = lower_by(alloc, resolve, bindgen, value, Instruction::RecordLower(id))?;
    let at = id.0 as usize;
    let tys = tys.as_slice();
    let words = lower_parts(alloc, resolve, bindgen, at, tys, &parts, realloc)?;
    Ok(words)
}

/// A tuple: its parts, and then the words of each.
#[cycle(lower)]
fn lower_tuple<B: Bindgen>(
    alloc: Global,
    resolve: &Resolve,
    bindgen: &mut B,
    value: B::Operand,
    id: TypeId,
    members: &List<WitType>,
    realloc: bool,
) -> Result<List<B::Operand>, OutOfMemory>
    requires well { IsWellFormed resolve.now }
    requires down { GoesDown resolve.now.types }
    requires here { IsKindOf resolve.now.types id.0 (kind.Tuple members.now) }
    requires side { IsSide B.meaning realloc bindgen.old }
    requires serves { Serves (shape_at resolve.now.types id.0) }
    requires writes { Writes B.meaning resolve.now.types (Id id) bindgen.old }
    requires few { word_count resolve.now.types (Id id) ≤ 16 }
    ensures lowers { IfOk result (λ os. LowersFlat B.meaning realloc (shape_at resolve.now.types id.0) value os bindgen.old bindgen.new) }
    ensures flows { IfOk result (λ os. Flows B.meaning resolve.now.types (lower_code resolve.now.types realloc (Id id)) (value ∷ []) os bindgen.old bindgen.new) }
{
    let tys = members.as_slice();
    let inst = Instruction::TupleLower(part_count(tys));
    let parts = lower_by(alloc, resolve, bindgen, value, inst)?;
    let at = id.0 as usize;
    let words = lower_parts(alloc, resolve, bindgen, at, tys, &parts, realloc)?;
    Ok(words)
}

/// A value of a type with cases: a block for each case, and then the instruction of its kind.
#[cycle(lower)]
fn lower_variant<B: Bindgen>(
    alloc: Global,
    resolve: &Resolve,
    bindgen: &mut B,
    value: B::Operand,
    id: TypeId,
    kind: &TypeDefKind,
    realloc: bool,
) -> Result<List<B::Operand>, OutOfMemory>
    requires well { IsWellFormed resolve.now }
    requires down { GoesDown resolve.now.types }
    requires here { IsKindOf resolve.now.types id.0 kind.now }
    requires cases { has_cases kind.now ≡ true }
    requires side { IsSide B.meaning realloc bindgen.old }
    requires serves { Serves (shape_at resolve.now.types id.0) }
    requires writes { Writes B.meaning resolve.now.types (Id id) bindgen.old }
    requires few { word_count resolve.now.types (Id id) ≤ 16 }
    ensures lowers { IfOk result (λ os. LowersFlat B.meaning realloc (shape_at resolve.now.types id.0) value os bindgen.old bindgen.new) }
    ensures flows { IfOk result (λ os. Flows B.meaning resolve.now.types (lower_code resolve.now.types realloc (Id id)) (value ∷ []) os bindgen.old bindgen.new) }
{
    let payloads = kind_payloads(alloc, kind)?;
    let payloads = payloads.as_slice();
    let count = lower_cases(alloc, resolve, bindgen, id, payloads, realloc)?;
    let inst = case_lowering(kind, id, count);
    let words = lower_by(alloc, resolve, bindgen, value, inst)?;
    Ok(words)
}

/// The blocks of the cases of the type at a place of the table, and how many results each has.
#[cycle(lower)]
fn lower_cases<B: Bindgen>(
    alloc: Global,
    resolve: &Resolve,
    bindgen: &mut B,
    id: TypeId,
    payloads: &[Option<WitType>],
    realloc: bool,
) -> Result<u32, OutOfMemory>
    requires well { IsWellFormed resolve.now }
    requires down { GoesDown resolve.now.types }
    requires within { id.0 < length resolve.now.types }
    requires cases { shape_at resolve.now.types id.0 ≡ cases (payloads_in (shapes resolve.now.types) payloads.now) }
    requires below { list_all (λ payload. payload_below id.0 payload) payloads.now ≡ true }
    requires side { IsSide B.meaning realloc bindgen.old }
    requires serves { Serves (shape_at resolve.now.types id.0) }
    requires writes { AllByRecursion (λ p. WritesPart B.meaning resolve.now.types p bindgen.old) payloads.now }
    requires sixteen { word_count resolve.now.types (Id id) ≤ 16 }
    ensures words { IfOk result (λ n. n ≡ case_words resolve.now.types payloads.now) }
    ensures few { OnOk result (length payloads.now ≤ 2 ^ 31) }
    ensures lowers { OnOk result (LowersCases B.meaning realloc (payloads_in (shapes resolve.now.types) payloads.now) 0 (shared_slots resolve.now.types payloads.now) bindgen.old bindgen.new) }
    ensures flows { OnOk result ((reads : List B.Operand) → Flows B.meaning resolve.now.types
        (blocks_of_cases 0 (lower_case resolve.now.types (shared_slots resolve.now.types payloads.now)) (lower_code resolve.now.types realloc) payloads.now) reads [] bindgen.old bindgen.new) }
{
    let flat = flat_types(resolve, &WitType::Id(id));
    let slots = &flat.words[1..flat.count as usize];
    for i in 0..payloads.len() {
        lower_case(alloc, resolve, bindgen, i, payloads[i], slots, realloc)?;
    }
    Ok(flat.count)
}

/// The block of a case, which gives its number and all slots.
#[cycle(lower)]
#[tactic(auto, unfolding(wit_model::specs::TypeOrder::payload_below))]
fn lower_case<B: Bindgen>(
    alloc: Global,
    resolve: &Resolve,
    bindgen: &mut B,
    number: usize,
    payload: Option<WitType>,
    slots: &[WasmType],
    realloc: bool,
) -> Result<(), OutOfMemory>
    requires well { IsWellFormed resolve.now }
    requires down { GoesDown resolve.now.types }
    requires below { IsTrue (payload_below (length resolve.now.types) payload) }
    requires few { number < 2 ^ 31 }
    requires fits { FitIn (payload_words resolve.now.types payload) slots.now }
    requires side { IsSide B.meaning realloc bindgen.old }
    requires serves { Serves (payload_in (shapes resolve.now.types) payload) }
    requires writes { WritesPart B.meaning resolve.now.types payload bindgen.old }
    requires sixteen { length slots.now ≤ 16 }
    ensures lowers { OnOk result (LowersCases B.meaning realloc (more (payload_in (shapes resolve.now.types) payload) none) number slots.now bindgen.old bindgen.new) }
    ensures flows { OnOk result (Flows B.meaning resolve.now.types (in_block (lower_case resolve.now.types slots.now number (option_map (λ ty. (ty, lower_code resolve.now.types realloc ty)) payload))) [] [] bindgen.old bindgen.new) }
{
    match payload {
        None => {
            lower_bare(alloc, resolve, bindgen, number, slots)?;
            Ok(())
        }
        Some(ty) => lower_payload(alloc, resolve, bindgen, number, ty, slots, realloc),
    }
}

/// The same, of a case with a payload.
#[cycle(lower)]
fn lower_payload<B: Bindgen>(
    alloc: Global,
    resolve: &Resolve,
    bindgen: &mut B,
    number: usize,
    ty: WitType,
    slots: &[WasmType],
    realloc: bool,
) -> Result<(), OutOfMemory>
    requires well { IsWellFormed resolve.now }
    requires down { GoesDown resolve.now.types }
    requires below { IsTrue (type_below (length resolve.now.types) ty) }
    requires few { number < 2 ^ 31 }
    requires fits { FitIn (payload_words resolve.now.types (Some ty)) slots.now }
    requires side { IsSide B.meaning realloc bindgen.old }
    requires serves { Serves (shape_of resolve.now.types ty) }
    requires writes { Writes B.meaning resolve.now.types ty bindgen.old }
    requires sixteen { length slots.now ≤ 16 }
    ensures lowers { OnOk result (LowersCases B.meaning realloc (more (shape_of resolve.now.types ty) none) number slots.now bindgen.old bindgen.new) }
    ensures flows { OnOk result (Flows B.meaning resolve.now.types (in_block (lower_case resolve.now.types slots.now number (Some (ty, lower_code resolve.now.types realloc ty)))) [] [] bindgen.old bindgen.new) }
{
    let flat = flat_types(resolve, &ty);
    let count = flat.count as usize;
    let types = &flat.words[..count];
    bindgen.push_block()?;
    let name = Instruction::VariantPayloadName;
    let payload = send_one(alloc, resolve, bindgen, name, List::new(alloc))?;
    let inst = Instruction::I32Const(number as i32);
    let tag = send_one(alloc, resolve, bindgen, inst, List::new(alloc))?;
    let lowered = lower_type(alloc, resolve, bindgen, payload, ty, realloc)?;
    let words = cast_words(alloc, resolve, bindgen, lowered, types, &slots[..count])?;
    let zeros = zero_words(alloc, resolve, bindgen, &slots[count..])?;
    close_case(alloc, bindgen, tag, words.as_slice(), zeros.as_slice())?;
    Ok(())
}

/// The core words of the parts of a value whose type stands at a place of the table, one after another.
#[cycle(lower)]
fn lower_parts<B: Bindgen>(
    alloc: Global,
    resolve: &Resolve,
    bindgen: &mut B,
    at: usize,
    tys: &[WitType],
    parts: &List<B::Operand>,
    realloc: bool,
) -> Result<List<B::Operand>, OutOfMemory>
    requires well { IsWellFormed resolve.now }
    requires down { GoesDown resolve.now.types }
    requires within { at < length resolve.now.types }
    requires below { list_all (λ ty. type_below at ty) tys.now ≡ true }
    requires enough { length parts.now ≡ length tys.now }
    requires side { IsSide B.meaning realloc bindgen.old }
    requires serves { ServesAll (shapes_of resolve.now.types tys.now) }
    requires writes { WritesEach B.meaning resolve.now.types tys.now bindgen.old }
    requires few { word_counts resolve.now.types tys.now ≤ 16 }
    ensures lowers { IfOk result (λ os. LowersAll B.meaning realloc (shapes_of resolve.now.types tys.now) parts.now os bindgen.old bindgen.new) }
    ensures flows { IfOk result (λ os. Flows B.meaning resolve.now.types (each 0 (λ ty. 1) (λ n ty. lower_code resolve.now.types realloc ty) 0 tys.now) parts.now os bindgen.old bindgen.new) }
{
    let mut all = Vec::new(alloc);
    for i in 0..tys.len() {
        let part = parts.as_slice()[i].copy(alloc)?;
        let words = lower_type(alloc, resolve, bindgen, part, tys[i], realloc)?;
        push_copies(&mut all, alloc, words.as_slice())?;
    }
    Ok(List::from_vec(all))
}
