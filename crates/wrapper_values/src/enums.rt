//! Enums: the number of a value's case, and which case of an enum of the file a number stands for.

ghost use Rattle.std.specs.Prelude.{◌≡◌, length, nat_lt, option_and_then};
ghost use Rattle.std.specs.Option.{option_copied};
ghost use Rattle.wrapper_values.specs.Effect as effect;
ghost use Rattle.wrapper_values.specs.Enums as spec;

use crate::conversion::low_i32;
use crate::fields::type_named;
use crate::state::Val;
use rust_tree::{EnumItem, Item, Repr, TypeItem};
use wit_model::{Boxed, Text, WitType};
use wrapper_data::{RustValue, TrapKind, Word};

fn is_without_payload(payload: &Option<Boxed<RustValue>>) -> bool
    ensures { result ≡ spec.is_without_payload payload.now }
{
    match payload {
        None => true,
        Some(payload) => matches!(payload.get(), RustValue::Unit),
    }
}

fn number_of_case(v: &Val) -> Option<u32>
    ensures { result ≡ spec.number_of_case v.now }
{
    match v {
        Val::Value(RustValue::Case(number, payload)) if is_without_payload(payload) => {
            Some(*number)
        }
        _ => None,
    }
}

/// The number of the case that a value is, as a word. Nothing of any other value, or of a case with a payload.
#[tactic(auto, unfolding(crate::specs::Enums::word_of_case))]
pub fn word_of_case(v: &Val) -> Option<Word>
    ensures { result ≡ spec.word_of_case v.now }
{
    match number_of_case(v) {
        None => None,
        Some(number) => Some(Word::I32(low_i32(i128::from(number)))),
    }
}

/// The enum that a type is.
pub(crate) fn enum_in(t: Option<&TypeItem>) -> Option<&EnumItem>
    ensures { option_copied result ≡ spec.enum_in (option_copied t.entry) }
{
    match t {
        Some(TypeItem::Enum(e)) => Some(e),
        _ => None,
    }
}

/// Whether a name of the file's root is that of an enum.
pub fn is_enum(items: &[Item], name: &Text) -> bool
    ensures { result ≡ spec.is_enum items.now name.now }
{
    enum_in(type_named(items, name.as_str())).is_some()
}

/// Whether an enum has a case of this number.
pub(crate) fn has_case(e: &EnumItem, number: u32) -> bool
    ensures { result ≡ nat_lt number (length e.now.cases) }
{
    (number as usize) < e.cases.len()
}

/// The number that a value is, if it is of the kind that holds the cases.
fn held_number(repr: Repr, v: &Val) -> Option<u32>
    ensures { result ≡ option_and_then (spec.held_in repr) (effect.num_of v.now) }
{
    match (repr, v) {
        (Repr::U8, Val::Value(RustValue::Num(WitType::U8, z))) => {
            Some(u32::from(u8::try_from(*z).ok()?))
        }
        (Repr::U16, Val::Value(RustValue::Num(WitType::U16, z))) => {
            Some(u32::from(u16::try_from(*z).ok()?))
        }
        (Repr::U32, Val::Value(RustValue::Num(WitType::U32, z))) => u32::try_from(*z).ok(),
        _ => None,
    }
}

fn case_of_number(e: &EnumItem, number: u32) -> Result<RustValue, TrapKind>
    ensures { result ≡ spec.case_of_number (length e.now.cases) number }
{
    if has_case(e, number) {
        Ok(RustValue::Case(number, None))
    } else {
        Err(TrapKind::Discriminant)
    }
}

/// What `_lift` of the enum of a name gives of a number: a case, or the reason for which the number stands for none.
/// Nothing, where the file's root has no such enum or the number is not of the kind that holds its cases.
#[tactic(auto, unfolding(crate::specs::Enums::enum_lift_of))]
pub fn enum_lift_of(items: &[Item], name: &Text, v: &Val) -> Option<Result<RustValue, TrapKind>>
    ensures { result ≡ spec.enum_lift_of items.now name.now v.now }
{
    let e = enum_in(type_named(items, name.as_str()))?;
    let number = held_number(e.repr, v)?;
    Some(case_of_number(e, number))
}
