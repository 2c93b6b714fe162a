//! The first words of a type, by going through the table down from it.

ghost use Rattle.std.specs.Prelude.{◌≡◌, ◌<◌, ◌≤◌, ◌-◌, ◌++◌, ◌∷◌, IsTrue, Some, length, slice_get, take};
ghost use Rattle.wit_model.specs.declared.types.TypeDef.{TypeDef};
ghost use Rattle.wit_model.specs.Parts.{parts};
ghost use Rattle.wit_model.specs.TypeOrder.{GoesDown, type_below, payload_below};
ghost use Rattle.wit_layout.specs.Flat.{EachHasWords, flatten_type, flatten_record, pointer_and_length, slots, words_of_flags};
ghost use Rattle.wit_layout.specs.inside.Words.{kept};
ghost use Rattle.wit_layout.specs.inside.Sequence.{members_at};
ghost use Rattle.wit_layout.specs.Tree.{trees, tree_at, tree_of, payload_in, payloads_in};

use crate::ahead::Ahead;
use crate::sequence::sequence_at;
use crate::words::Words;
use wit_model::{TypeDef, TypeDefKind, WasmType, WitType};

/// A pointer and a length behind the words.
fn flatten_text(words: Words) -> Words
    ensures words { kept result ≡ take words.room (kept words ++ pointer_and_length) }
    ensures room { result.room ≡ words.room }
{
    words.with(WasmType::Pointer).with(WasmType::Length)
}

/// A word for each 32 flags behind the words.
fn flatten_flags(count: usize, words: Words) -> Words
    ensures words { kept result ≡ take words.room (kept words ++ words_of_flags count) }
    ensures room { result.room ≡ words.room }
{
    let mut all = words;
    for _word in 0..count.div_ceil(32) {
        if all.left() == 0 {
            return all;
        }
        all = all.with(WasmType::I32);
    }
    all
}

/// The first words of a type, behind others.
#[cycle(flatten)]
#[tactic(auto, unfolding(wit_model::specs::TypeOrder::type_below))]
pub(crate) fn flatten_type(types: &[TypeDef], ty: WitType, words: Words) -> Words
    requires down { GoesDown types.now }
    requires worded { EachHasWords types.now }
    requires below { IsTrue (type_below (length types.now) ty) }
    ensures words { kept result ≡ take words.room (kept words ++ flatten_type (tree_of types.now ty)) }
    ensures room { result.room ≡ words.room }
{
    match ty {
        WitType::U64 | WitType::S64 => words.with(WasmType::I64),
        WitType::F32 => words.with(WasmType::F32),
        WitType::F64 => words.with(WasmType::F64),
        WitType::String => flatten_text(words),
        WitType::Id(id) => flatten_kind(types, id.0 as usize, words),
        _ => words.with(WasmType::I32),
    }
}

/// The same of a payload, which may be left out.
#[cycle(flatten)]
#[tactic(auto, unfolding(wit_model::specs::TypeOrder::payload_below))]
pub(crate) fn flatten_payload(types: &[TypeDef], payload: Option<WitType>, words: Words) -> Words
    requires down { GoesDown types.now }
    requires worded { EachHasWords types.now }
    requires below { IsTrue (payload_below (length types.now) payload) }
    ensures words { kept result ≡ take words.room (kept words ++ flatten_type (payload_in (trees types.now) payload)) }
    ensures room { result.room ≡ words.room }
{
    match payload {
        None => words,
        Some(ty) => flatten_type(types, ty, words),
    }
}

/// The same of the type at a place of the table.
#[cycle(flatten)]
fn flatten_kind(types: &[TypeDef], at: usize, words: Words) -> Words
    requires down { GoesDown types.now }
    requires worded { EachHasWords types.now }
    requires within { at < length types.now }
    ensures words { kept result ≡ take words.room (kept words ++ flatten_type (tree_at types.now at)) }
    ensures room { result.room ≡ words.room }
{
    match &types[at].kind {
        TypeDefKind::Alias(_) => flatten_members(types, at, words),
        TypeDefKind::FixedLengthList(_, _) => flatten_members(types, at, words),
        TypeDefKind::Tuple(_) | TypeDefKind::Record(_) => flatten_members(types, at, words),
        TypeDefKind::List(_) | TypeDefKind::Map(_, _) => flatten_text(words),
        TypeDefKind::Option(_) | TypeDefKind::Result(_, _) => flatten_variant(types, at, words),
        TypeDefKind::Variant(_) | TypeDefKind::Enum(_) => flatten_variant(types, at, words),
        TypeDefKind::Flags(members) => flatten_flags(members.len(), words),
        TypeDefKind::Handle(_) | TypeDefKind::Resource => words.with(WasmType::I32),
        TypeDefKind::Future(_) | TypeDefKind::Stream(_) => words.with(WasmType::I32),
        TypeDefKind::Unknown => words.with(WasmType::I32),
    }
}

/// The words of the members of a type, one after another. The members of a member are put before those behind it, and not
/// gone through in a call of their own.
#[cycle(flatten)]
fn flatten_members(types: &[TypeDef], at: usize, words: Words) -> Words
    requires down { GoesDown types.now }
    requires worded { EachHasWords types.now }
    requires within { at < length types.now }
    ensures words { kept result ≡ take words.room (kept words ++ flatten_record (payloads_in (trees types.now) (members_at types.now at))) }
    ensures room { result.room ≡ words.room }
{
    let mut all = words;
    let mut ahead = Ahead::none();
    ahead.put(types, at);
    while all.left() > 0 {
        let Some(ty) = ahead.next(types) else {
            return all;
        };
        match sequence_at(types, ty) {
            Some(inner) => ahead.put(types, inner),
            None => all = flatten_payload(types, ty, all),
        }
    }
    all
}

/// A word for the case, and the slots that the parts of a type share as payloads.
#[cycle(flatten)]
fn flatten_variant(types: &[TypeDef], at: usize, words: Words) -> Words
    requires down { GoesDown types.now }
    requires worded { EachHasWords types.now }
    requires within { at < length types.now }
    ensures words { (entry : TypeDef) → slice_get types.now at ≡ Some entry
        → kept result ≡ take words.room (kept words ++ WasmType.I32 ∷ slots (payloads_in (trees types.now) (parts entry.kind))) }
    ensures room { result.room ≡ words.room }
{
    let begun = words.with(WasmType::I32);
    if begun.left() == 0 {
        return begun;
    }
    begun.followed_by(flatten_cases(types, at, begun.left()))
}

/// Whether the part in a place of a kind is the same as the one before it.
fn is_repeated(kind: &TypeDefKind, place: usize) -> bool
    requires some { 0 < place }
    requires within { place ≤ length (parts kind.now) }
    ensures { IsTrue result → slice_get (parts kind.now) place ≡ slice_get (parts kind.now) (place - 1) }
{
    place < kind.part_count() && kind.part(place - 1) == kind.part(place)
}

/// The slots that the parts of a type share as payloads, as far as there is room. A part that is the same as the one behind
/// it adds nothing to them.
#[cycle(flatten)]
fn flatten_cases(types: &[TypeDef], at: usize, room: usize) -> Words
    requires down { GoesDown types.now }
    requires worded { EachHasWords types.now }
    requires within { at < length types.now }
    requires room { room ≤ 17 }
    ensures { (entry : TypeDef) → slice_get types.now at ≡ Some entry
        → kept result ≡ take room (slots (payloads_in (trees types.now) (parts entry.kind))) }
{
    let kind = &types[at].kind;
    let mut slots = Words::none(room);
    let mut left = kind.part_count();
    while left > 0 {
        let behind = left;
        left -= 1;
        if is_repeated(kind, behind) {
            continue;
        }
        let case = flatten_payload(types, kind.part(left), Words::none(room));
        slots = case.joined_with(slots);
    }
    slots
}
