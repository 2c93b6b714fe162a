//! What each kind of type takes in memory.

ghost use Rattle.std.specs.Prelude.{◌≡◌, ◌+◌, ◌*◌, ◌^◌, ◌<◌, ◌≤◌, length, IfOk, IsTrue};
ghost use Rattle.wit_layout.specs.Extent.{
  extent,
  end,
  places,
  greatest,
  payload_place,
  record_extent,
  variant_extent,
  flags_extent,
};
ghost use Rattle.wit_layout.specs.inside.Grain.{exponent};
ghost use Rattle.wit_layout.specs.inside.Kind.{case_count, part_extents, kind_extent, kind_payload, kind_offsets};
ghost use Rattle.wit_layout.specs.inside.Stored.{seen, seen_type, seen_payload, IsStored};
ghost use Rattle.wit_layout.specs.Told.{IsPairOf, ArePairsOf};
ghost use Rattle.wit_model.specs.Numbered.{kind_numbered};
ghost use Rattle.wit_model.specs.Parts.{parts};
ghost use Rattle.wit_model.specs.TypeOrder.{type_below, payload_below, parts_below};

use crate::grain::Grain;
use crate::parts::Parts;
use crate::spread::Spread;
use crate::stored::StoredExtent;
use crate::type_layout::TypeLayout;
use std::alloc::Global;
use wit_model::{ArchitectureSize, List, OutOfMemory, TypeDefKind, WitType};

/// What a type takes, by the layouts of the entries of the table so far.
#[tactic(auto, unfolding(wit_model::specs::TypeOrder::type_below))]
pub(crate) fn extent_of(layouts: &[TypeLayout], ty: WitType) -> StoredExtent
    requires { IsTrue (type_below (length layouts.now) ty) }
    ensures four { seen 2 result ≡ seen_type 2 layouts.now ty }
    ensures eight { seen 3 result ≡ seen_type 3 layouts.now ty }
{
    match ty {
        WitType::Bool | WitType::U8 | WitType::S8 => StoredExtent::number(1, Grain::One),
        WitType::U16 | WitType::S16 => StoredExtent::number(2, Grain::Two),
        WitType::U32 | WitType::S32 | WitType::F32 => StoredExtent::number(4, Grain::Four),
        WitType::Char | WitType::ErrorContext => StoredExtent::number(4, Grain::Four),
        WitType::U64 | WitType::S64 | WitType::F64 => StoredExtent::number(8, Grain::Eight),
        WitType::String => StoredExtent::pointer_and_length(),
        WitType::Id(id) => layouts[id.0 as usize].extent,
    }
}

#[tactic(auto, unfolding(wit_model::specs::TypeOrder::payload_below))]
fn extent_of_payload(layouts: &[TypeLayout], payload: Option<WitType>) -> StoredExtent
    requires { IsTrue (payload_below (length layouts.now) payload) }
    ensures four { seen 2 result ≡ seen_payload 2 layouts.now payload }
    ensures eight { seen 3 result ≡ seen_payload 3 layouts.now payload }
{
    match payload {
        None => StoredExtent::number(0, Grain::One),
        Some(ty) => extent_of(layouts, ty),
    }
}

/// The parts of a kind.
fn parts_of(layouts: &[TypeLayout], kind: &TypeDefKind) -> Parts
    requires below { IsTrue (parts_below (length layouts.now) kind.now) }
    requires numbered { IsTrue (kind_numbered kind.now) }
    ensures end4 { result.end.at4 ≡ end (part_extents (seen_payload 2 layouts.now) kind.now) 0 }
    ensures end8 { result.end.at8 ≡ end (part_extents (seen_payload 3 layouts.now) kind.now) 0 }
    ensures greatest4 { extent (exponent 2 result.grain) result.largest.at4
        ≡ greatest (part_extents (seen_payload 2 layouts.now) kind.now) }
    ensures greatest8 { extent (exponent 3 result.grain) result.largest.at8
        ≡ greatest (part_extents (seen_payload 3 layouts.now) kind.now) }
    ensures bounded { result.end.at8 ≤ length (parts kind.now) * 2 ^ 32 }
{
    let mut all = Parts::none();
    for nth in 0..kind.part_count() {
        all = all.with(extent_of_payload(layouts, kind.part(nth)));
    }
    all
}

fn case_count(kind: &TypeDefKind) -> usize
    ensures { result ≡ case_count kind.now }
{
    match kind {
        TypeDefKind::Option(_) | TypeDefKind::Result(_, _) => 2,
        TypeDefKind::Variant(members) => members.len(),
        TypeDefKind::Enum(members) => members.len(),
        _ => 0,
    }
}

/// So many flags: a byte, two bytes, or a word of four bytes for each 32.
fn flags(count: usize) -> StoredExtent
    requires { count < 2 ^ 32 }
    ensures four { seen 2 result ≡ flags_extent count }
    ensures eight { seen 3 result ≡ flags_extent count }
{
    match count {
        0..=8 => StoredExtent::number(1, Grain::One),
        9..=16 => StoredExtent::number(2, Grain::Two),
        _ => StoredExtent::number(4 * ((count as u64 + 31) / 32), Grain::Four),
    }
}

/// What a kind takes, if it can be stored.
#[tactic(auto, unfolding(wit_model::specs::TypeOrder::parts_below, wit_model::specs::TypeOrder::payload_below, wit_model::specs::Parts::parts, wit_model::specs::Numbered::kind_numbered, wit_model::specs::Numbered::is_short))]
pub(crate) fn extent_of_kind(layouts: &[TypeLayout], kind: &TypeDefKind) -> Option<StoredExtent>
    requires below { IsTrue (parts_below (length layouts.now) kind.now) }
    requires numbered { IsTrue (kind_numbered kind.now) }
    ensures { IsStored result (λ w. kind_extent w (seen_payload w layouts.now) kind.now) }
{
    match kind {
        TypeDefKind::Alias(ty) => Some(extent_of(layouts, *ty)),
        TypeDefKind::List(_) | TypeDefKind::Map(_, _) => Some(StoredExtent::pointer_and_length()),
        TypeDefKind::FixedLengthList(element, n) => extent_of(layouts, *element).repeated(*n),
        TypeDefKind::Tuple(_) | TypeDefKind::Record(_) => record_of_kind(layouts, kind),
        TypeDefKind::Option(_) | TypeDefKind::Result(_, _) => variant_of_kind(layouts, kind),
        TypeDefKind::Variant(_) | TypeDefKind::Enum(_) => variant_of_kind(layouts, kind),
        TypeDefKind::Flags(members) => Some(flags(members.len())),
        _ => Some(StoredExtent::number(4, Grain::Four)),
    }
}

fn record_of_kind(layouts: &[TypeLayout], kind: &TypeDefKind) -> Option<StoredExtent>
    requires below { IsTrue (parts_below (length layouts.now) kind.now) }
    requires numbered { IsTrue (kind_numbered kind.now) }
    ensures { IsStored result (λ w. record_extent (part_extents (seen_payload w layouts.now) kind.now)) }
{
    parts_of(layouts, kind).record()
}

fn variant_of_kind(layouts: &[TypeLayout], kind: &TypeDefKind) -> Option<StoredExtent>
    requires below { IsTrue (parts_below (length layouts.now) kind.now) }
    requires numbered { IsTrue (kind_numbered kind.now) }
    ensures { IsStored result
        (λ w. variant_extent (case_count kind.now) (greatest (part_extents (seen_payload w layouts.now) kind.now))) }
{
    parts_of(layouts, kind).variant(case_count(kind))
}

fn payload_of_cases(layouts: &[TypeLayout], kind: &TypeDefKind) -> ArchitectureSize
    requires below { IsTrue (parts_below (length layouts.now) kind.now) }
    requires numbered { IsTrue (kind_numbered kind.now) }
    ensures { IsPairOf result
        (λ w. payload_place (case_count kind.now) (greatest (part_extents (seen_payload w layouts.now) kind.now))) }
{
    parts_of(layouts, kind).payload(case_count(kind)).size()
}

/// Where the payload of a kind with cases stands, for an enum where one would stand; 0 for each other kind.
pub(crate) fn payload_of_kind(layouts: &[TypeLayout], kind: &TypeDefKind) -> ArchitectureSize
    requires below { IsTrue (parts_below (length layouts.now) kind.now) }
    requires numbered { IsTrue (kind_numbered kind.now) }
    ensures { IsPairOf result (λ w. kind_payload (seen_payload w layouts.now) kind.now) }
{
    match kind {
        TypeDefKind::Option(_) | TypeDefKind::Result(_, _) => payload_of_cases(layouts, kind),
        TypeDefKind::Variant(_) | TypeDefKind::Enum(_) => payload_of_cases(layouts, kind),
        _ => ArchitectureSize {
            bytes: 0,
            pointers: 0,
        },
    }
}

fn places_of(
    alloc: Global,
    layouts: &[TypeLayout],
    kind: &TypeDefKind,
) -> Result<List<ArchitectureSize>, OutOfMemory>
    requires below { IsTrue (parts_below (length layouts.now) kind.now) }
    requires numbered { IsTrue (kind_numbered kind.now) }
    ensures { IfOk result
        (λ offsets. ArePairsOf offsets (λ w. places (part_extents (seen_payload w layouts.now) kind.now) 0)) }
{
    let mut offsets = List::new(alloc);
    let mut end = Spread::both(0);
    for nth in 0..kind.part_count() {
        let part = extent_of_payload(layouts, kind.part(nth));
        let place = end.aligned(part.grain);
        offsets.push(place.size())?;
        end = place.plus(part.bytes());
    }
    Ok(offsets)
}

/// Where the fields of a record or a tuple stand, or key and value in an entry of a map; else empty.
pub(crate) fn offsets_of_kind(
    alloc: Global,
    layouts: &[TypeLayout],
    kind: &TypeDefKind,
) -> Result<List<ArchitectureSize>, OutOfMemory>
    requires below { IsTrue (parts_below (length layouts.now) kind.now) }
    requires numbered { IsTrue (kind_numbered kind.now) }
    ensures { IfOk result
        (λ offsets. ArePairsOf offsets (λ w. kind_offsets (seen_payload w layouts.now) kind.now)) }
{
    match kind {
        TypeDefKind::Map(_, _) | TypeDefKind::Tuple(_) => places_of(alloc, layouts, kind),
        TypeDefKind::Record(_) => places_of(alloc, layouts, kind),
        _ => Ok(List::new(alloc)),
    }
}
