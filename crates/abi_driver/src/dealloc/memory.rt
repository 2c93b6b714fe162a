//! The blocks of values in memory are freed.

ghost use Rattle.std.specs.Prelude.{◌≡◌, ◌<◌, ◌∷◌, [], IsTrue, true, length, option_map, OnOk};
ghost use Rattle.std.specs.List.{list_all};
ghost use Rattle.wit_model.specs.TypeOrder.{GoesDown, payload_below, type_below};
ghost use Rattle.wit_model.specs.declared.types.WitType.TheVariants.{Id, String};
ghost use Rattle.wit_layout.specs.Tree.{record_of, tree_at};
ghost use Rattle.wrapper_meaning.specs.Shape.{payload_in, payloads_in, shape_at, shape_of, shapes};
ghost use Rattle.wrapper_meaning.specs.Shape.Shape.{text};
ghost use Rattle.abi_bindgen.specs.Code.{at_payload, beyond, blocks_of_cases, free_code, free_types_code, place_in};
ghost use Rattle.abi_driver.specs.FreedCases.{FreesCases, FreesPayload};
ghost use Rattle.abi_bindgen.specs.Frees.{FreesInMemory, FreesParts, nowhere};
ghost use Rattle.abi_bindgen.specs.HasList.{IsKindOf};
ghost use Rattle.abi_bindgen.specs.Instructions.{has_cases, shapes_of};
ghost use Rattle.abi_bindgen.specs.Places.{HasParts};
ghost use Rattle.abi_bindgen.specs.Flow.{each, in_block};
ghost use Rattle.abi_bindgen.specs.Flows.{Flows};
ghost use Rattle.abi_bindgen.specs.Served.{Serves, ServesAll};
ghost use Rattle.abi_driver.specs.Low.{EachEndsLow, EndsLow, IsSmallRecord};

use crate::dealloc::places::record_places;
use crate::dealloc::variants::run_case;
use crate::lift::leaf::scalar_lifting;
use crate::memory::place::{behind_pointer, part_place};
use crate::memory::variants::{case_payloads, close, empty_block, load_tag, payload_place};
use crate::memory::word::load_word;
use abi_bindgen::{Bindgen, Instruction, field_types, id_has_list, only, send};
use std::alloc::Global;
use wit_model::{ArchitectureSize, OutOfMemory, Resolve, TypeDefKind, TypeId, WitType};

/// The blocks of the parts of a record of these types, which stands at the address that an operand denotes.
pub(super) fn free_record<B: Bindgen>(
    alloc: Global,
    resolve: &Resolve,
    types: &[WitType],
    address: &B::Operand,
    bindgen: &mut B,
) -> Result<(), OutOfMemory>
    requires down { GoesDown resolve.now.types }
    requires below { list_all (λ ty. type_below (length resolve.now.types) ty) types.now ≡ true }
    requires knows { B.meaning.knows bindgen.old resolve.now.types }
    requires serves { ServesAll (shapes_of resolve.now.types types.now) }
    requires small { IsSmallRecord resolve.now.types types.now }
    ensures frees { OnOk result (FreesParts B.meaning (shapes_of resolve.now.types types.now) address.now nowhere 0 bindgen.old bindgen.new) }
    ensures flows { OnOk result (Flows B.meaning resolve.now.types (free_types_code resolve.now.types true types.now) (address.now ∷ []) [] bindgen.old bindgen.new) }
{
    let places = record_places(alloc, bindgen.sizes(), types)?;
    for i in 0..types.len() {
        let place = places.as_slice()[i];
        free_type(alloc, resolve, bindgen, address, place, types[i])?;
    }
    Ok(())
}

/// The blocks of the value of a type that stands at an offset from the address that an operand denotes.
#[cycle(free)]
#[tactic(auto, unfolding(wit_model::specs::TypeOrder::type_below))]
pub(crate) fn free_type<B: Bindgen>(
    alloc: Global,
    resolve: &Resolve,
    bindgen: &mut B,
    address: &B::Operand,
    offset: ArchitectureSize,
    ty: WitType,
) -> Result<(), OutOfMemory>
    requires down { GoesDown resolve.now.types }
    requires below { IsTrue (type_below (length resolve.now.types) ty) }
    requires knows { B.meaning.knows bindgen.old resolve.now.types }
    requires serves { Serves (shape_of resolve.now.types ty) }
    requires low { EndsLow (shape_of resolve.now.types ty) offset }
    ensures frees { OnOk result (FreesInMemory B.meaning (shape_of resolve.now.types ty) address.now offset bindgen.old bindgen.new) }
    ensures flows { OnOk result (Flows B.meaning resolve.now.types (free_code resolve.now.types ty offset) (address.now ∷ []) [] bindgen.old bindgen.new) }
{
    if let Some(_lift) = scalar_lifting(ty) {
        return Ok(());
    }
    match ty {
        WitType::String => free_text(alloc, resolve, bindgen, address, offset),
        WitType::Id(id) => free_id(alloc, resolve, bindgen, address, offset, id),
        _ => unreachable!(),
    }
}

/// The same, of the type at a place of the table.
#[cycle(free)]
fn free_id<B: Bindgen>(
    alloc: Global,
    resolve: &Resolve,
    bindgen: &mut B,
    address: &B::Operand,
    offset: ArchitectureSize,
    id: TypeId,
) -> Result<(), OutOfMemory>
    requires down { GoesDown resolve.now.types }
    requires within { id.0 < length resolve.now.types }
    requires knows { B.meaning.knows bindgen.old resolve.now.types }
    requires serves { Serves (shape_at resolve.now.types id.0) }
    requires low { EndsLow (shape_at resolve.now.types id.0) offset }
    ensures frees { OnOk result (FreesInMemory B.meaning (shape_at resolve.now.types id.0) address.now offset bindgen.old bindgen.new) }
    ensures flows { OnOk result (Flows B.meaning resolve.now.types (free_code resolve.now.types (Id id) offset) (address.now ∷ []) [] bindgen.old bindgen.new) }
{
    let types = resolve.types.as_slice();
    let at = id.0 as usize;
    let kind = &types[at].kind;
    match kind {
        TypeDefKind::Alias(ty) => {
            free_type(alloc, resolve, bindgen, address, offset, *ty)?;
            Ok(())
        }
        TypeDefKind::Record(members) => {
            let tys = field_types(alloc, members.as_slice())?;
            let tys = tys.as_slice();
            free_parts(alloc, resolve, bindgen, address, offset, id, tys)?;
            Ok(())
        }
        TypeDefKind::Tuple(members) => {
            let tys = members.as_slice();
            free_parts(alloc, resolve, bindgen, address, offset, id, tys)?;
            Ok(())
        }
        TypeDefKind::Enum(_) => Ok(()),
        TypeDefKind::Flags(_) => Ok(()),
        TypeDefKind::Variant(_) => free_variant(alloc, resolve, bindgen, address, offset, id, kind),
        TypeDefKind::Option(_) => free_variant(alloc, resolve, bindgen, address, offset, id, kind),
        TypeDefKind::Result(_, _) => {
            free_variant(alloc, resolve, bindgen, address, offset, id, kind)
        }
        _ => unreachable!(),
    }
}

/// The tag of a variant, an option or a result of the table, the blocks of all cases, and what runs the one of the tag's case. Where
/// no value has blocks, nothing is sent.
#[cycle(free)]
fn free_variant<B: Bindgen>(
    alloc: Global,
    resolve: &Resolve,
    bindgen: &mut B,
    address: &B::Operand,
    offset: ArchitectureSize,
    id: TypeId,
    kind: &TypeDefKind,
) -> Result<(), OutOfMemory>
    requires down { GoesDown resolve.now.types }
    requires here { IsKindOf resolve.now.types id.0 kind.now }
    requires cases { has_cases kind.now ≡ true }
    requires knows { B.meaning.knows bindgen.old resolve.now.types }
    requires serves { Serves (shape_at resolve.now.types id.0) }
    requires low { EndsLow (shape_at resolve.now.types id.0) offset }
    ensures frees { OnOk result (FreesInMemory B.meaning (shape_at resolve.now.types id.0) address.now offset bindgen.old bindgen.new) }
    ensures flows { OnOk result (Flows B.meaning resolve.now.types (free_code resolve.now.types (Id id) offset) (address.now ∷ []) [] bindgen.old bindgen.new) }
{
    if !id_has_list(resolve, id) {
        return Ok(());
    }
    let payloads = case_payloads(alloc, kind)?;
    let place = payload_place(bindgen, id, offset);
    let tys = payloads.as_slice();
    let count = tys.len() as u32;
    let tag = load_tag(alloc, resolve, bindgen, address, offset, tys.len())?;
    free_cases(alloc, resolve, bindgen, address, place, id, tys)?;
    run_case(alloc, resolve, bindgen, tag, count)?;
    Ok(())
}

/// The blocks of cases with these payloads, one after another.
#[cycle(free)]
fn free_cases<B: Bindgen>(
    alloc: Global,
    resolve: &Resolve,
    bindgen: &mut B,
    address: &B::Operand,
    place: ArchitectureSize,
    id: TypeId,
    payloads: &[Option<WitType>],
) -> Result<(), OutOfMemory>
    requires down { GoesDown resolve.now.types }
    requires within { id.0 < length resolve.now.types }
    requires below { list_all (λ p. payload_below id.0 p) payloads.now ≡ true }
    requires knows { B.meaning.knows bindgen.old resolve.now.types }
    requires serves { ServesAll (payloads_in (shapes resolve.now.types) payloads.now) }
    requires low { EachEndsLow (payloads_in (shapes resolve.now.types) payloads.now) place }
    ensures frees { OnOk result (FreesCases B.meaning (payloads_in (shapes resolve.now.types) payloads.now) address.now place bindgen.old bindgen.new) }
    ensures flows { OnOk result (Flows B.meaning resolve.now.types (blocks_of_cases 1 (λ n part. at_payload place part) (free_code resolve.now.types) payloads.now) (address.now ∷ []) [] bindgen.old bindgen.new) }
{
    for i in 0..payloads.len() {
        free_case(alloc, resolve, bindgen, address, place, id, payloads[i])?;
    }
    Ok(())
}

/// The block of a case.
#[cycle(free)]
fn free_case<B: Bindgen>(
    alloc: Global,
    resolve: &Resolve,
    bindgen: &mut B,
    address: &B::Operand,
    place: ArchitectureSize,
    id: TypeId,
    payload: Option<WitType>,
) -> Result<(), OutOfMemory>
    requires down { GoesDown resolve.now.types }
    requires within { id.0 < length resolve.now.types }
    requires below { payload_below id.0 payload ≡ true }
    requires knows { B.meaning.knows bindgen.old resolve.now.types }
    requires serves { Serves (payload_in (shapes resolve.now.types) payload) }
    requires low { EndsLow (payload_in (shapes resolve.now.types) payload) place }
    ensures frees { OnOk result (FreesPayload B.meaning (payload_in (shapes resolve.now.types) payload) address.now place bindgen.old bindgen.new) }
    ensures flows { OnOk result (Flows B.meaning resolve.now.types (in_block (at_payload place (option_map (λ ty. (ty, free_code resolve.now.types ty)) payload))) (address.now ∷ []) [] bindgen.old bindgen.new) }
{
    match payload {
        None => {
            empty_block(alloc, bindgen)?;
            Ok(())
        }
        Some(ty) => {
            free_payload(alloc, resolve, bindgen, address, place, id, ty)?;
            Ok(())
        }
    }
}

/// The block of a case frees the blocks of its payload.
#[cycle(free)]
fn free_payload<B: Bindgen>(
    alloc: Global,
    resolve: &Resolve,
    bindgen: &mut B,
    address: &B::Operand,
    place: ArchitectureSize,
    id: TypeId,
    ty: WitType,
) -> Result<(), OutOfMemory>
    requires down { GoesDown resolve.now.types }
    requires within { id.0 < length resolve.now.types }
    requires below { type_below id.0 ty ≡ true }
    requires knows { B.meaning.knows bindgen.old resolve.now.types }
    requires serves { Serves (shape_of resolve.now.types ty) }
    requires low { EndsLow (shape_of resolve.now.types ty) place }
    ensures frees { OnOk result (FreesPayload B.meaning (shape_of resolve.now.types ty) address.now place bindgen.old bindgen.new) }
    ensures flows { OnOk result (Flows B.meaning resolve.now.types (in_block (free_code resolve.now.types ty place)) (address.now ∷ []) [] bindgen.old bindgen.new) }
{
    bindgen.push_block()?;
    free_type(alloc, resolve, bindgen, address, place, ty)?;
    close(alloc, bindgen)?;
    Ok(())
}

/// The blocks of the parts of a value of a record or a tuple of the table.
#[cycle(free)]
fn free_parts<B: Bindgen>(
    alloc: Global,
    resolve: &Resolve,
    bindgen: &mut B,
    address: &B::Operand,
    offset: ArchitectureSize,
    id: TypeId,
    tys: &[WitType],
) -> Result<(), OutOfMemory>
    requires down { GoesDown resolve.now.types }
    requires within { id.0 < length resolve.now.types }
    requires below { list_all (λ ty. type_below id.0 ty) tys.now ≡ true }
    requires parts { HasParts resolve.now.types id.0 tys.now }
    requires knows { B.meaning.knows bindgen.old resolve.now.types }
    requires serves { ServesAll (shapes_of resolve.now.types tys.now) }
    requires low { EndsLow (shape_at resolve.now.types id.0) offset }
    ensures frees { OnOk result (FreesParts B.meaning (shapes_of resolve.now.types tys.now) address.now offset 0 bindgen.old bindgen.new) }
    ensures flows { OnOk result (Flows B.meaning resolve.now.types (each 1 (λ ty. 0) (λ n ty. free_code resolve.now.types ty (beyond offset (place_in (tree_at resolve.now.types id.0) n))) 0 tys.now) (address.now ∷ []) [] bindgen.old bindgen.new) }
{
    for i in 0..tys.len() {
        let place = part_place(bindgen, id, i, offset);
        free_type(alloc, resolve, bindgen, address, place, tys[i])?;
    }
    Ok(())
}

/// The address and the length of a text are loaded, and its block is freed.
fn free_text<B: Bindgen>(
    alloc: Global,
    resolve: &Resolve,
    bindgen: &mut B,
    address: &B::Operand,
    offset: ArchitectureSize,
) -> Result<(), OutOfMemory>
    requires low { EndsLow text offset }
    ensures frees { OnOk result (FreesInMemory B.meaning text address.now offset bindgen.old bindgen.new) }
    ensures flows { OnOk result (Flows B.meaning resolve.now.types (free_code resolve.now.types String offset) (address.now ∷ []) [] bindgen.old bindgen.new) }
{
    let behind = behind_pointer(offset);
    let place = load_word(
        alloc,
        resolve,
        bindgen,
        address,
        Instruction::PointerLoad(offset),
    )?;
    let length = load_word(
        alloc,
        resolve,
        bindgen,
        address,
        Instruction::LengthLoad(behind),
    )?;
    let mut operands = only(alloc, place)?;
    operands.push(length)?;
    let _none = send(
        alloc,
        resolve,
        bindgen,
        Instruction::GuestDeallocateString,
        operands,
    )?;
    Ok(())
}
