//! Values are put into memory.

ghost use Rattle.std.specs.Prelude.{◌≡◌, ◌<◌, ◌≤◌, ◌^◌, ◌∷◌, [], Bool, IsTrue, List, true, length, option_map, Some, OnOk};
ghost use Rattle.std.specs.List.{AllByRecursion, list_all};
ghost use Rattle.wit_model.specs.WellFormed.{IsWellFormed};
ghost use Rattle.wit_model.specs.TypeOrder.{GoesDown, payload_below, type_below};
ghost use Rattle.wit_model.specs.declared.types.WitType.TheVariants.{Id, String};
ghost use Rattle.wit_layout.specs.Extent.{discriminant_grain};
ghost use Rattle.wit_layout.specs.Tree.{tree_at};
ghost use Rattle.wrapper_meaning.specs.Shape.{payload_in, payloads_in, shape_at, shape_of, shapes};
ghost use Rattle.wrapper_meaning.specs.Shape.Shape.{text};
ghost use Rattle.abi_bindgen.specs.Code.{beyond, blocks_of_cases, place_in, store_case, store_code};
ghost use Rattle.abi_bindgen.specs.HasList.{IsKindOf};
ghost use Rattle.abi_bindgen.specs.Instructions.{IsSide, has_cases, lowering, shapes_of};
ghost use Rattle.abi_bindgen.specs.ScalarTouches.{scalar_store};
ghost use Rattle.abi_bindgen.specs.Places.{HasParts};
ghost use Rattle.abi_bindgen.specs.Flow.{each, in_block};
ghost use Rattle.abi_bindgen.specs.Flows.{Flows};
ghost use Rattle.abi_bindgen.specs.Served.{Serves, ServesAll};
ghost use Rattle.abi_bindgen.specs.Written.{Writes, WritesEach, WritesPart};
ghost use Rattle.abi_driver.specs.Low.{EachEndsLow, EndsLow};
ghost use Rattle.abi_driver.specs.StoredCases.{StoresCase, StoresCases};
ghost use Rattle.abi_driver.specs.Stores.{LowersToMemory, StoresParts};

use crate::memory::enums::store_enum;
use crate::memory::flags::store_flags;
use crate::memory::place::{NOWHERE, behind_pointer, part_place, start};
use crate::memory::variants::{
    case_payloads, close, payload, payload_place, store_bare, store_tag,
};
use crate::memory::word::{scalar_store, store_word};
use abi_bindgen::{
    Bindgen, Instruction, Operand, case_lowering, field_types, lower_by, part_count,
    scalar_lowering,
};
use std::alloc::Global;
use wit_model::{ArchitectureSize, List, OutOfMemory, Resolve, TypeDefKind, TypeId, WitType};

/// Puts the value that an operand denotes at the address that another denotes, after `lower_to_memory` of wit-bindgen-core.
///
/// Without `realloc` the value is lent, and with it given away. So far it is a scalar, a text, an enum or flags, or a record, a tuple, a
/// variant, an option or a result of such, also through aliases. The answer is `OutOfMemory` where there is no memory for the code, or for the
/// operands.
pub fn lower_to_memory<B: Bindgen>(
    alloc: Global,
    resolve: &Resolve,
    bindgen: &mut B,
    address: B::Operand,
    value: B::Operand,
    ty: &WitType,
    realloc: bool,
) -> Result<(), OutOfMemory>
    requires well { IsWellFormed resolve.now }
    requires down { GoesDown resolve.now.types }
    requires below { IsTrue (type_below (length resolve.now.types) ty.now) }
    requires side { IsSide B.meaning realloc bindgen.old }
    requires knows { B.meaning.knows bindgen.old resolve.now.types }
    requires serves { Serves (shape_of resolve.now.types ty.now) }
    requires writes { Writes B.meaning resolve.now.types ty.now bindgen.old }
    ensures stores { OnOk result (LowersToMemory B.meaning realloc (shape_of resolve.now.types ty.now) value address NOWHERE bindgen.old bindgen.new) }
    ensures flows { OnOk result (Flows B.meaning resolve.now.types (store_code resolve.now.types realloc ty.now NOWHERE) (address ∷ value ∷ []) [] bindgen.old bindgen.new) }
{
    let start = start(bindgen);
    store_type(
        alloc, resolve, bindgen, &address, start, value, *ty, realloc,
    )
}

/// The same at an offset, by a type that was read.
#[cycle(store)]
#[tactic(auto, unfolding(wit_model::specs::TypeOrder::type_below))]
pub(crate) fn store_type<B: Bindgen>(
    alloc: Global,
    resolve: &Resolve,
    bindgen: &mut B,
    address: &B::Operand,
    offset: ArchitectureSize,
    value: B::Operand,
    ty: WitType,
    realloc: bool,
) -> Result<(), OutOfMemory>
    requires well { IsWellFormed resolve.now }
    requires down { GoesDown resolve.now.types }
    requires below { IsTrue (type_below (length resolve.now.types) ty) }
    requires side { IsSide B.meaning realloc bindgen.old }
    requires knows { B.meaning.knows bindgen.old resolve.now.types }
    requires serves { Serves (shape_of resolve.now.types ty) }
    requires writes { Writes B.meaning resolve.now.types ty bindgen.old }
    requires low { EndsLow (shape_of resolve.now.types ty) offset }
    ensures stores { OnOk result (LowersToMemory B.meaning realloc (shape_of resolve.now.types ty) value address.now offset bindgen.old bindgen.new) }
    ensures flows { OnOk result (Flows B.meaning resolve.now.types (store_code resolve.now.types realloc ty offset) (address.now ∷ value ∷ []) [] bindgen.old bindgen.new) }
{
    if let Some(lower) = scalar_lowering(ty) {
        return store_scalar(alloc, resolve, bindgen, address, offset, value, ty, lower);
    }
    match ty {
        WitType::String => store_text(alloc, resolve, bindgen, address, offset, value, realloc),
        WitType::Id(id) => store_id(alloc, resolve, bindgen, address, offset, value, id, realloc),
        _ => unreachable!(),
    }
}

/// The same, of the type at a place of the table.
#[cycle(store)]
fn store_id<B: Bindgen>(
    alloc: Global,
    resolve: &Resolve,
    bindgen: &mut B,
    address: &B::Operand,
    offset: ArchitectureSize,
    value: B::Operand,
    id: TypeId,
    realloc: bool,
) -> Result<(), OutOfMemory>
    requires well { IsWellFormed resolve.now }
    requires down { GoesDown resolve.now.types }
    requires within { id.0 < length resolve.now.types }
    requires side { IsSide B.meaning realloc bindgen.old }
    requires knows { B.meaning.knows bindgen.old resolve.now.types }
    requires serves { Serves (shape_at resolve.now.types id.0) }
    requires writes { Writes B.meaning resolve.now.types (Id id) bindgen.old }
    requires low { EndsLow (shape_at resolve.now.types id.0) offset }
    ensures stores { OnOk result (LowersToMemory B.meaning realloc (shape_at resolve.now.types id.0) value address.now offset bindgen.old bindgen.new) }
    ensures flows { OnOk result (Flows B.meaning resolve.now.types (store_code resolve.now.types realloc (Id id) offset) (address.now ∷ value ∷ []) [] bindgen.old bindgen.new) }
{
    let types = resolve.types.as_slice();
    let at = id.0 as usize;
    let kind = &types[at].kind;
    match kind {
        TypeDefKind::Alias(ty) => store_type(
            alloc, resolve, bindgen, address, offset, value, *ty, realloc,
        ),
        TypeDefKind::Record(members) => {
            let tys = field_types(alloc, members.as_slice())?;
            let parts = lower_by(alloc, resolve, bindgen, value, Instruction::RecordLower(id))?;
            let tys = tys.as_slice();
            store_parts(
                alloc, resolve, bindgen, address, offset, id, tys, &parts, realloc,
            )?;
            Ok(())
        }
        TypeDefKind::Tuple(members) => {
            let tys = members.as_slice();
            let inst = Instruction::TupleLower(part_count(tys));
            let parts = lower_by(alloc, resolve, bindgen, value, inst)?;
            store_parts(
                alloc, resolve, bindgen, address, offset, id, tys, &parts, realloc,
            )?;
            Ok(())
        }
        TypeDefKind::Enum(members) => {
            store_enum(alloc, resolve, bindgen, address, offset, value, id, members)
        }
        TypeDefKind::Flags(members) => {
            store_flags(alloc, resolve, bindgen, address, offset, value, id, members)
        }
        TypeDefKind::Variant(_) => store_variant(
            alloc, resolve, bindgen, address, offset, value, id, kind, realloc,
        ),
        TypeDefKind::Option(_) => store_variant(
            alloc, resolve, bindgen, address, offset, value, id, kind, realloc,
        ),
        TypeDefKind::Result(_, _) => store_variant(
            alloc, resolve, bindgen, address, offset, value, id, kind, realloc,
        ),
        _ => unreachable!(),
    }
}

/// The blocks of all cases of a variant, an option or a result of the table, and what runs the one of the value's case.
#[cycle(store)]
fn store_variant<B: Bindgen>(
    alloc: Global,
    resolve: &Resolve,
    bindgen: &mut B,
    address: &B::Operand,
    offset: ArchitectureSize,
    value: B::Operand,
    id: TypeId,
    kind: &TypeDefKind,
    realloc: bool,
) -> Result<(), OutOfMemory>
    requires well { IsWellFormed resolve.now }
    requires down { GoesDown resolve.now.types }
    requires here { IsKindOf resolve.now.types id.0 kind.now }
    requires cases { has_cases kind.now ≡ true }
    requires side { IsSide B.meaning realloc bindgen.old }
    requires knows { B.meaning.knows bindgen.old resolve.now.types }
    requires serves { Serves (shape_at resolve.now.types id.0) }
    requires writes { Writes B.meaning resolve.now.types (Id id) bindgen.old }
    requires low { EndsLow (shape_at resolve.now.types id.0) offset }
    ensures stores { OnOk result (LowersToMemory B.meaning realloc (shape_at resolve.now.types id.0) value address.now offset bindgen.old bindgen.new) }
    ensures flows { OnOk result (Flows B.meaning resolve.now.types (store_code resolve.now.types realloc (Id id) offset) (address.now ∷ value ∷ []) [] bindgen.old bindgen.new) }
{
    let payloads = case_payloads(alloc, kind)?;
    let lower = case_lowering(kind, id, 0);
    let place = payload_place(bindgen, id, offset);
    let tys = payloads.as_slice();
    store_cases(
        alloc, resolve, bindgen, address, offset, place, id, tys, realloc,
    )?;
    let _none = lower_by(alloc, resolve, bindgen, value, lower)?;
    Ok(())
}

/// The blocks of cases with these payloads, one after another.
#[cycle(store)]
fn store_cases<B: Bindgen>(
    alloc: Global,
    resolve: &Resolve,
    bindgen: &mut B,
    address: &B::Operand,
    offset: ArchitectureSize,
    place: ArchitectureSize,
    id: TypeId,
    payloads: &[Option<WitType>],
    realloc: bool,
) -> Result<(), OutOfMemory>
    requires well { IsWellFormed resolve.now }
    requires down { GoesDown resolve.now.types }
    requires within { id.0 < length resolve.now.types }
    requires below { list_all (λ p. payload_below id.0 p) payloads.now ≡ true }
    requires side { IsSide B.meaning realloc bindgen.old }
    requires knows { B.meaning.knows bindgen.old resolve.now.types }
    requires most { length payloads.now ≤ 2 ^ 31 }
    requires serves { ServesAll (payloads_in (shapes resolve.now.types) payloads.now) }
    requires writes { AllByRecursion (λ p. WritesPart B.meaning resolve.now.types p bindgen.old) payloads.now }
    requires low { EachEndsLow (payloads_in (shapes resolve.now.types) payloads.now) place }
    ensures stores { OnOk result (StoresCases B.meaning realloc (discriminant_grain (length payloads.now)) 0 (payloads_in (shapes resolve.now.types) payloads.now) address.now offset place bindgen.old bindgen.new) }
    ensures flows { OnOk result ((others : List B.Operand) → Flows B.meaning resolve.now.types (blocks_of_cases 1 (store_case (length payloads.now) offset place) (store_code resolve.now.types realloc) payloads.now) (address.now ∷ others) [] bindgen.old bindgen.new) }
{
    let count = payloads.len();
    for i in 0..count {
        store_case(
            alloc,
            resolve,
            bindgen,
            address,
            offset,
            place,
            count,
            i,
            id,
            payloads[i],
            realloc,
        )?;
    }
    Ok(())
}

/// The block of one of so many cases.
#[cycle(store)]
fn store_case<B: Bindgen>(
    alloc: Global,
    resolve: &Resolve,
    bindgen: &mut B,
    address: &B::Operand,
    offset: ArchitectureSize,
    place: ArchitectureSize,
    count: usize,
    number: usize,
    id: TypeId,
    payload: Option<WitType>,
    realloc: bool,
) -> Result<(), OutOfMemory>
    requires well { IsWellFormed resolve.now }
    requires down { GoesDown resolve.now.types }
    requires within { id.0 < length resolve.now.types }
    requires below { payload_below id.0 payload ≡ true }
    requires few { number < count }
    requires most { count ≤ 2 ^ 31 }
    requires side { IsSide B.meaning realloc bindgen.old }
    requires knows { B.meaning.knows bindgen.old resolve.now.types }
    requires serves { Serves (payload_in (shapes resolve.now.types) payload) }
    requires writes { WritesPart B.meaning resolve.now.types payload bindgen.old }
    requires low { EndsLow (payload_in (shapes resolve.now.types) payload) place }
    ensures stores { OnOk result (StoresCase B.meaning realloc (discriminant_grain count) number (payload_in (shapes resolve.now.types) payload) address.now offset place bindgen.old bindgen.new) }
    ensures flows { OnOk result (Flows B.meaning resolve.now.types (in_block (store_case count offset place number (option_map (λ ty. (ty, store_code resolve.now.types realloc ty)) payload))) (address.now ∷ []) [] bindgen.old bindgen.new) }
{
    match payload {
        None => {
            store_bare(alloc, resolve, bindgen, address, offset, count, number)?;
            Ok(())
        }
        Some(ty) => {
            store_payload(
                alloc, resolve, bindgen, address, offset, place, count, number, id, ty, realloc,
            )?;
            Ok(())
        }
    }
}

/// The block of a case stores its tag, and its payload at its place.
#[cycle(store)]
fn store_payload<B: Bindgen>(
    alloc: Global,
    resolve: &Resolve,
    bindgen: &mut B,
    address: &B::Operand,
    offset: ArchitectureSize,
    place: ArchitectureSize,
    count: usize,
    number: usize,
    id: TypeId,
    ty: WitType,
    realloc: bool,
) -> Result<(), OutOfMemory>
    requires well { IsWellFormed resolve.now }
    requires down { GoesDown resolve.now.types }
    requires within { id.0 < length resolve.now.types }
    requires below { type_below id.0 ty ≡ true }
    requires few { number < count }
    requires most { count ≤ 2 ^ 31 }
    requires side { IsSide B.meaning realloc bindgen.old }
    requires knows { B.meaning.knows bindgen.old resolve.now.types }
    requires serves { Serves (shape_of resolve.now.types ty) }
    requires writes { Writes B.meaning resolve.now.types ty bindgen.old }
    requires low { EndsLow (shape_of resolve.now.types ty) place }
    ensures stores { OnOk result (StoresCase B.meaning realloc (discriminant_grain count) number (shape_of resolve.now.types ty) address.now offset place bindgen.old bindgen.new) }
    ensures flows { OnOk result (Flows B.meaning resolve.now.types (in_block (store_case count offset place number (Some (ty, store_code resolve.now.types realloc ty)))) (address.now ∷ []) [] bindgen.old bindgen.new) }
{
    bindgen.push_block()?;
    let value = payload(alloc, resolve, bindgen)?;
    store_tag(alloc, resolve, bindgen, address, offset, count, number)?;
    store_type(alloc, resolve, bindgen, address, place, value, ty, realloc)?;
    close(alloc, bindgen)?;
    Ok(())
}

/// Puts the parts of a value of a record or a tuple of the table at their places.
#[cycle(store)]
fn store_parts<B: Bindgen>(
    alloc: Global,
    resolve: &Resolve,
    bindgen: &mut B,
    address: &B::Operand,
    offset: ArchitectureSize,
    id: TypeId,
    tys: &[WitType],
    parts: &List<B::Operand>,
    realloc: bool,
) -> Result<(), OutOfMemory>
    requires well { IsWellFormed resolve.now }
    requires down { GoesDown resolve.now.types }
    requires within { id.0 < length resolve.now.types }
    requires below { list_all (λ ty. type_below id.0 ty) tys.now ≡ true }
    requires parts { HasParts resolve.now.types id.0 tys.now }
    requires enough { length parts.now ≡ length tys.now }
    requires side { IsSide B.meaning realloc bindgen.old }
    requires knows { B.meaning.knows bindgen.old resolve.now.types }
    requires serves { ServesAll (shapes_of resolve.now.types tys.now) }
    requires writes { WritesEach B.meaning resolve.now.types tys.now bindgen.old }
    requires low { EndsLow (shape_at resolve.now.types id.0) offset }
    ensures stores { OnOk result (StoresParts B.meaning realloc (shapes_of resolve.now.types tys.now) parts.now address.now offset 0 bindgen.old bindgen.new) }
    ensures flows { OnOk result (Flows B.meaning resolve.now.types (each 1 (λ ty. 1) (λ n ty. store_code resolve.now.types realloc ty (beyond offset (place_in (tree_at resolve.now.types id.0) n))) 0 tys.now) (address.now ∷ parts.now) [] bindgen.old bindgen.new) }
{
    for i in 0..tys.len() {
        let place = part_place(bindgen, id, i, offset);
        let part = parts.as_slice()[i].copy(alloc)?;
        store_type(
            alloc, resolve, bindgen, address, place, part, tys[i], realloc,
        )?;
    }
    Ok(())
}

/// A scalar becomes its word, which is stored.
fn store_scalar<B: Bindgen>(
    alloc: Global,
    resolve: &Resolve,
    bindgen: &mut B,
    address: &B::Operand,
    offset: ArchitectureSize,
    value: B::Operand,
    ty: WitType,
    lower: Instruction,
) -> Result<(), OutOfMemory>
    requires { lowering ty ≡ Some lower }
    ensures stores { (realloc : Bool) → OnOk result (LowersToMemory B.meaning realloc (shape_of resolve.now.types ty) value address.now offset bindgen.old bindgen.new) }
    ensures flows { (realloc : Bool) → OnOk result (Flows B.meaning resolve.now.types (store_code resolve.now.types realloc ty offset) (address.now ∷ value ∷ []) [] bindgen.old bindgen.new) }
{
    let Some(store) = scalar_store(ty, offset) else {
        unreachable!()
    };
    let words = lower_by(alloc, resolve, bindgen, value, lower)?;
    let word = words.as_slice()[0].copy(alloc)?;
    store_word(alloc, resolve, bindgen, word, address, store)?;
    Ok(())
}

/// A text becomes its address and its length, which are stored: the length one pointer further on, and then the address.
fn store_text<B: Bindgen>(
    alloc: Global,
    resolve: &Resolve,
    bindgen: &mut B,
    address: &B::Operand,
    offset: ArchitectureSize,
    value: B::Operand,
    realloc: bool,
) -> Result<(), OutOfMemory>
    requires side { IsSide B.meaning realloc bindgen.old }
    requires low { EndsLow text offset }
    ensures stores { OnOk result (LowersToMemory B.meaning realloc text value address.now offset bindgen.old bindgen.new) }
    ensures flows { OnOk result (Flows B.meaning resolve.now.types (store_code resolve.now.types realloc String offset) (address.now ∷ value ∷ []) [] bindgen.old bindgen.new) }
{
    let words = lower_by(
        alloc,
        resolve,
        bindgen,
        value,
        Instruction::StringLower(realloc),
    )?;
    let place = words.as_slice()[0].copy(alloc)?;
    let length = words.as_slice()[1].copy(alloc)?;
    let behind = behind_pointer(offset);
    store_word(
        alloc,
        resolve,
        bindgen,
        length,
        address,
        Instruction::LengthStore(behind),
    )?;
    store_word(
        alloc,
        resolve,
        bindgen,
        place,
        address,
        Instruction::PointerStore(offset),
    )?;
    Ok(())
}
