//! Values are read from memory.

ghost use Rattle.std.specs.Prelude.{◌≡◌, ◌<◌, ◌∷◌, [], IsTrue, true, length, map, option_map, option_to_list, Some, IfOk, OnOk};
ghost use Rattle.std.specs.List.{AllByRecursion, list_all};
ghost use Rattle.wit_model.specs.WellFormed.{IsWellFormed};
ghost use Rattle.wit_model.specs.TypeOrder.{GoesDown, payload_below, type_below};
ghost use Rattle.wit_model.specs.declared.types.WitType.TheVariants.{Id, String};
ghost use Rattle.wit_layout.specs.Tree.{tree_at};
ghost use Rattle.wrapper_meaning.specs.Shape.{payload_in, payloads_in, shape_at, shape_of, shapes};
ghost use Rattle.wrapper_meaning.specs.Shape.Shape.{text};
ghost use Rattle.abi_bindgen.specs.Code.{at_payload, beyond, blocks_of_cases, load_code, place_in};
ghost use Rattle.abi_bindgen.specs.HasList.{IsKindOf};
ghost use Rattle.abi_bindgen.specs.Instructions.{has_cases, lifting, shapes_of};
ghost use Rattle.abi_driver.specs.LoadedCases.{LoadsCase, LoadsCases};
ghost use Rattle.abi_driver.specs.Loads.{LiftsFromMemory, LoadsParts};
ghost use Rattle.abi_driver.specs.Low.{EachEndsLow, EndsLow};
ghost use Rattle.abi_bindgen.specs.Places.{HasParts};
ghost use Rattle.abi_bindgen.specs.Flow.{each, in_block};
ghost use Rattle.abi_bindgen.specs.Flows.{Flows};
ghost use Rattle.abi_bindgen.specs.Served.{Serves, ServesAll};
ghost use Rattle.abi_bindgen.specs.Written.{Writes, WritesEach, WritesPart};

use crate::lift::leaf::scalar_lifting;
use crate::lift::variants::case_lifting;
use crate::memory::enums::load_enum;
use crate::memory::flags::load_flags;
use crate::memory::place::{NOWHERE, behind_pointer, part_place, start};
use crate::memory::variants::{case_payloads, empty_block, load_tag, payload_place};
use crate::memory::word::{load_word, scalar_load};
use abi_bindgen::{Bindgen, Instruction, Operand, field_types, only, part_count, send_one};
use std::alloc::Global;
use wit_model::{ArchitectureSize, List, OutOfMemory, Resolve, TypeDefKind, TypeId, WitType};

/// What denotes the value that stands at the address that an operand denotes, after `lift_from_memory` of wit-bindgen-core. What it owns
/// is taken over.
///
/// So far it is a scalar, a text, an enum or flags, or a record, a tuple, a variant, an option or a result of such, also through
/// aliases. The answer is `OutOfMemory` where there is no memory for the code, or for the operands.
pub fn lift_from_memory<B: Bindgen>(
    alloc: Global,
    resolve: &Resolve,
    bindgen: &mut B,
    address: B::Operand,
    ty: &WitType,
) -> Result<B::Operand, OutOfMemory>
    requires well { IsWellFormed resolve.now }
    requires down { GoesDown resolve.now.types }
    requires below { IsTrue (type_below (length resolve.now.types) ty.now) }
    requires knows { B.meaning.knows bindgen.old resolve.now.types }
    requires serves { Serves (shape_of resolve.now.types ty.now) }
    requires writes { Writes B.meaning resolve.now.types ty.now bindgen.old }
    ensures loads { IfOk result (λ r. LiftsFromMemory B.meaning (shape_of resolve.now.types ty.now) address NOWHERE r bindgen.old bindgen.new) }
    ensures flows { IfOk result (λ r. Flows B.meaning resolve.now.types (load_code resolve.now.types ty.now NOWHERE) (address ∷ []) (r ∷ []) bindgen.old bindgen.new) }
{
    let start = start(bindgen);
    load_type(alloc, resolve, bindgen, &address, start, *ty)
}

/// The same at an offset, by a type that was read.
#[cycle(load)]
#[tactic(auto, unfolding(wit_model::specs::TypeOrder::type_below))]
pub(crate) fn load_type<B: Bindgen>(
    alloc: Global,
    resolve: &Resolve,
    bindgen: &mut B,
    address: &B::Operand,
    offset: ArchitectureSize,
    ty: WitType,
) -> Result<B::Operand, OutOfMemory>
    requires well { IsWellFormed resolve.now }
    requires down { GoesDown resolve.now.types }
    requires below { IsTrue (type_below (length resolve.now.types) ty) }
    requires knows { B.meaning.knows bindgen.old resolve.now.types }
    requires serves { Serves (shape_of resolve.now.types ty) }
    requires writes { Writes B.meaning resolve.now.types ty bindgen.old }
    requires low { EndsLow (shape_of resolve.now.types ty) offset }
    ensures loads { IfOk result (λ r. LiftsFromMemory B.meaning (shape_of resolve.now.types ty) address.now offset r bindgen.old bindgen.new) }
    ensures flows { IfOk result (λ r. Flows B.meaning resolve.now.types (load_code resolve.now.types ty offset) (address.now ∷ []) (r ∷ []) bindgen.old bindgen.new) }
{
    if let Some(lift) = scalar_lifting(ty) {
        return load_scalar(alloc, resolve, bindgen, address, offset, ty, lift);
    }
    match ty {
        WitType::String => load_text(alloc, resolve, bindgen, address, offset),
        WitType::Id(id) => load_id(alloc, resolve, bindgen, address, offset, id),
        _ => unreachable!(),
    }
}

/// The same, of the type at a place of the table.
#[cycle(load)]
fn load_id<B: Bindgen>(
    alloc: Global,
    resolve: &Resolve,
    bindgen: &mut B,
    address: &B::Operand,
    offset: ArchitectureSize,
    id: TypeId,
) -> Result<B::Operand, OutOfMemory>
    requires well { IsWellFormed resolve.now }
    requires down { GoesDown resolve.now.types }
    requires within { id.0 < length resolve.now.types }
    requires knows { B.meaning.knows bindgen.old resolve.now.types }
    requires serves { Serves (shape_at resolve.now.types id.0) }
    requires writes { Writes B.meaning resolve.now.types (Id id) bindgen.old }
    requires low { EndsLow (shape_at resolve.now.types id.0) offset }
    ensures loads { IfOk result (λ r. LiftsFromMemory B.meaning (shape_at resolve.now.types id.0) address.now offset r bindgen.old bindgen.new) }
    ensures flows { IfOk result (λ r. Flows B.meaning resolve.now.types (load_code resolve.now.types (Id id) offset) (address.now ∷ []) (r ∷ []) bindgen.old bindgen.new) }
{
    let types = resolve.types.as_slice();
    let at = id.0 as usize;
    let kind = &types[at].kind;
    match kind {
        TypeDefKind::Alias(ty) => load_type(alloc, resolve, bindgen, address, offset, *ty),
        TypeDefKind::Record(members) => {
            let tys = field_types(alloc, members.as_slice())?;
            let tys = tys.as_slice();
            let parts = load_parts(alloc, resolve, bindgen, address, offset, id, tys)?;
            let operand = send_one(alloc, resolve, bindgen, Instruction::RecordLift(id), parts)?;
            Ok(operand)
        }
        TypeDefKind::Tuple(members) => {
            let tys = members.as_slice();
            let inst = Instruction::TupleLift(part_count(tys));
            let parts = load_parts(alloc, resolve, bindgen, address, offset, id, tys)?;
            let operand = send_one(alloc, resolve, bindgen, inst, parts)?;
            Ok(operand)
        }
        TypeDefKind::Enum(members) => {
            load_enum(alloc, resolve, bindgen, address, offset, id, members)
        }
        TypeDefKind::Flags(members) => {
            load_flags(alloc, resolve, bindgen, address, offset, id, members)
        }
        TypeDefKind::Variant(_) => load_variant(alloc, resolve, bindgen, address, offset, id, kind),
        TypeDefKind::Option(_) => load_variant(alloc, resolve, bindgen, address, offset, id, kind),
        TypeDefKind::Result(_, _) => {
            load_variant(alloc, resolve, bindgen, address, offset, id, kind)
        }
        _ => unreachable!(),
    }
}

/// The tag of a variant, an option or a result of the table, the blocks of all cases, and what runs the one of the tag's case.
#[cycle(load)]
fn load_variant<B: Bindgen>(
    alloc: Global,
    resolve: &Resolve,
    bindgen: &mut B,
    address: &B::Operand,
    offset: ArchitectureSize,
    id: TypeId,
    kind: &TypeDefKind,
) -> Result<B::Operand, OutOfMemory>
    requires well { IsWellFormed resolve.now }
    requires down { GoesDown resolve.now.types }
    requires here { IsKindOf resolve.now.types id.0 kind.now }
    requires cases { has_cases kind.now ≡ true }
    requires knows { B.meaning.knows bindgen.old resolve.now.types }
    requires serves { Serves (shape_at resolve.now.types id.0) }
    requires writes { Writes B.meaning resolve.now.types (Id id) bindgen.old }
    requires low { EndsLow (shape_at resolve.now.types id.0) offset }
    ensures loads { IfOk result (λ r. LiftsFromMemory B.meaning (shape_at resolve.now.types id.0) address.now offset r bindgen.old bindgen.new) }
    ensures flows { IfOk result (λ r. Flows B.meaning resolve.now.types (load_code resolve.now.types (Id id) offset) (address.now ∷ []) (r ∷ []) bindgen.old bindgen.new) }
{
    let payloads = case_payloads(alloc, kind)?;
    let lift = case_lifting(kind, id);
    let place = payload_place(bindgen, id, offset);
    let tys = payloads.as_slice();
    let tag = load_tag(alloc, resolve, bindgen, address, offset, tys.len())?;
    load_cases(alloc, resolve, bindgen, address, place, id, tys)?;
    let operands = only(alloc, tag)?;
    let operand = send_one(alloc, resolve, bindgen, lift, operands)?;
    Ok(operand)
}

/// The blocks of cases with these payloads, one after another.
#[cycle(load)]
fn load_cases<B: Bindgen>(
    alloc: Global,
    resolve: &Resolve,
    bindgen: &mut B,
    address: &B::Operand,
    place: ArchitectureSize,
    id: TypeId,
    payloads: &[Option<WitType>],
) -> Result<(), OutOfMemory>
    requires well { IsWellFormed resolve.now }
    requires down { GoesDown resolve.now.types }
    requires within { id.0 < length resolve.now.types }
    requires below { list_all (λ p. payload_below id.0 p) payloads.now ≡ true }
    requires knows { B.meaning.knows bindgen.old resolve.now.types }
    requires serves { ServesAll (payloads_in (shapes resolve.now.types) payloads.now) }
    requires writes { AllByRecursion (λ p. WritesPart B.meaning resolve.now.types p bindgen.old) payloads.now }
    requires low { EachEndsLow (payloads_in (shapes resolve.now.types) payloads.now) place }
    ensures loads { OnOk result (LoadsCases B.meaning (map (λ p. length (option_to_list p)) payloads.now) (payloads_in (shapes resolve.now.types) payloads.now) address.now place bindgen.old bindgen.new) }
    ensures flows { OnOk result (Flows B.meaning resolve.now.types (blocks_of_cases 1 (λ n part. at_payload place part) (load_code resolve.now.types) payloads.now) (address.now ∷ []) [] bindgen.old bindgen.new) }
{
    for i in 0..payloads.len() {
        load_case(alloc, resolve, bindgen, address, place, id, payloads[i])?;
    }
    Ok(())
}

/// The block of a case.
#[cycle(load)]
fn load_case<B: Bindgen>(
    alloc: Global,
    resolve: &Resolve,
    bindgen: &mut B,
    address: &B::Operand,
    place: ArchitectureSize,
    id: TypeId,
    payload: Option<WitType>,
) -> Result<(), OutOfMemory>
    requires well { IsWellFormed resolve.now }
    requires down { GoesDown resolve.now.types }
    requires within { id.0 < length resolve.now.types }
    requires below { payload_below id.0 payload ≡ true }
    requires knows { B.meaning.knows bindgen.old resolve.now.types }
    requires serves { Serves (payload_in (shapes resolve.now.types) payload) }
    requires writes { WritesPart B.meaning resolve.now.types payload bindgen.old }
    requires low { EndsLow (payload_in (shapes resolve.now.types) payload) place }
    ensures loads { OnOk result (LoadsCase B.meaning (length (option_to_list payload)) (payload_in (shapes resolve.now.types) payload) address.now place bindgen.old bindgen.new) }
    ensures flows { OnOk result (Flows B.meaning resolve.now.types (in_block (at_payload place (option_map (λ ty. (ty, load_code resolve.now.types ty)) payload))) (address.now ∷ []) [] bindgen.old bindgen.new) }
{
    match payload {
        None => {
            empty_block(alloc, bindgen)?;
            Ok(())
        }
        Some(ty) => {
            load_payload(alloc, resolve, bindgen, address, place, id, ty)?;
            Ok(())
        }
    }
}

/// The block of a case gives its payload.
#[cycle(load)]
fn load_payload<B: Bindgen>(
    alloc: Global,
    resolve: &Resolve,
    bindgen: &mut B,
    address: &B::Operand,
    place: ArchitectureSize,
    id: TypeId,
    ty: WitType,
) -> Result<(), OutOfMemory>
    requires well { IsWellFormed resolve.now }
    requires down { GoesDown resolve.now.types }
    requires within { id.0 < length resolve.now.types }
    requires below { type_below id.0 ty ≡ true }
    requires knows { B.meaning.knows bindgen.old resolve.now.types }
    requires serves { Serves (shape_of resolve.now.types ty) }
    requires writes { Writes B.meaning resolve.now.types ty bindgen.old }
    requires low { EndsLow (shape_of resolve.now.types ty) place }
    ensures loads { OnOk result (LoadsCase B.meaning 1 (shape_of resolve.now.types ty) address.now place bindgen.old bindgen.new) }
    ensures flows { OnOk result (Flows B.meaning resolve.now.types (in_block (load_code resolve.now.types ty place)) (address.now ∷ []) [] bindgen.old bindgen.new) }
{
    bindgen.push_block()?;
    let value = load_type(alloc, resolve, bindgen, address, place, ty)?;
    let mut results = only(alloc, value)?;
    bindgen.finish_block(&mut results)?;
    Ok(())
}

/// The parts of a value of a record or a tuple of the table.
#[cycle(load)]
fn load_parts<B: Bindgen>(
    alloc: Global,
    resolve: &Resolve,
    bindgen: &mut B,
    address: &B::Operand,
    offset: ArchitectureSize,
    id: TypeId,
    tys: &[WitType],
) -> Result<List<B::Operand>, OutOfMemory>
    requires well { IsWellFormed resolve.now }
    requires down { GoesDown resolve.now.types }
    requires within { id.0 < length resolve.now.types }
    requires below { list_all (λ ty. type_below id.0 ty) tys.now ≡ true }
    requires parts { HasParts resolve.now.types id.0 tys.now }
    requires knows { B.meaning.knows bindgen.old resolve.now.types }
    requires serves { ServesAll (shapes_of resolve.now.types tys.now) }
    requires writes { WritesEach B.meaning resolve.now.types tys.now bindgen.old }
    requires low { EndsLow (shape_at resolve.now.types id.0) offset }
    ensures count { IfOk result (λ parts. length parts ≡ length tys.now) }
    ensures loads { IfOk result (λ parts. LoadsParts B.meaning (shapes_of resolve.now.types tys.now) address.now offset 0 parts bindgen.old bindgen.new) }
    ensures flows { IfOk result (λ parts. Flows B.meaning resolve.now.types (each 1 (λ ty. 0) (λ n ty. load_code resolve.now.types ty (beyond offset (place_in (tree_at resolve.now.types id.0) n))) 0 tys.now) (address.now ∷ []) parts bindgen.old bindgen.new) }
{
    let mut parts = List::new(alloc);
    for i in 0..tys.len() {
        let place = part_place(bindgen, id, i, offset);
        let part = load_type(alloc, resolve, bindgen, address, place, tys[i])?;
        parts.push(part)?;
    }
    Ok(parts)
}

/// A word is loaded, and read as a scalar.
fn load_scalar<B: Bindgen>(
    alloc: Global,
    resolve: &Resolve,
    bindgen: &mut B,
    address: &B::Operand,
    offset: ArchitectureSize,
    ty: WitType,
    lift: Instruction,
) -> Result<B::Operand, OutOfMemory>
    requires { lifting ty ≡ Some lift }
    ensures loads { IfOk result (λ r. LiftsFromMemory B.meaning (shape_of resolve.now.types ty) address.now offset r bindgen.old bindgen.new) }
    ensures flows { IfOk result (λ r. Flows B.meaning resolve.now.types (load_code resolve.now.types ty offset) (address.now ∷ []) (r ∷ []) bindgen.old bindgen.new) }
{
    let Some(load) = scalar_load(ty, offset) else {
        unreachable!()
    };
    let word = load_word(alloc, resolve, bindgen, address, load)?;
    let operands = only(alloc, word)?;
    let operand = send_one(alloc, resolve, bindgen, lift, operands)?;
    Ok(operand)
}

/// An address and a length are loaded, and the text there is taken over.
fn load_text<B: Bindgen>(
    alloc: Global,
    resolve: &Resolve,
    bindgen: &mut B,
    address: &B::Operand,
    offset: ArchitectureSize,
) -> Result<B::Operand, OutOfMemory>
    requires low { EndsLow text offset }
    ensures loads { IfOk result (λ r. LiftsFromMemory B.meaning text address.now offset r bindgen.old bindgen.new) }
    ensures flows { IfOk result (λ r. Flows B.meaning resolve.now.types (load_code resolve.now.types String offset) (address.now ∷ []) (r ∷ []) bindgen.old bindgen.new) }
{
    let behind = behind_pointer(offset);
    let place = load_word(
        alloc,
        resolve,
        bindgen,
        address,
        Instruction::PointerLoad(offset),
    )?;
    let length = load_word(
        alloc,
        resolve,
        bindgen,
        address,
        Instruction::LengthLoad(behind),
    )?;
    let mut operands = only(alloc, place)?;
    operands.push(length)?;
    let operand = send_one(alloc, resolve, bindgen, Instruction::StringLift, operands)?;
    Ok(operand)
}
