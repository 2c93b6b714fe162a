//! What the functions of `_rt` do to a value: conversions to core values, and lifts.

ghost use Rattle.std.specs.Prelude.{◌≡◌, option_and_then};
ghost use Rattle.std.specs.Option.{option_map, option_or};
ghost use Rattle.wrapper_values.specs.Effect as spec;

use crate::state::Val;
use crate::views::{bool_of, char_of, f32_of, f64_of, is_scalar, num_of};
use rust_tree::RuntimeItem;
use wit_model::WitType;
use wrapper_data::{Form, RustValue, TrapKind, Word};

/// Whether a kind has at most 32 bits.
pub(crate) fn is_narrow(kind: WitType) -> bool
    ensures { result ≡ spec.is_narrow kind }
{
    !matches!(kind, WitType::U64 | WitType::S64)
}

/// The low 32 bits of a number, as a signed one.
pub(crate) fn low_i32(z: i128) -> i32
    ensures { result ≡ spec.low_i32 z }
{
    (z.rem_euclid(1 << 32) as u32).cast_signed()
}

/// The low 64 bits of a number, as a signed one.
pub(crate) fn low_i64(z: i128) -> i64
    ensures { result ≡ spec.low_i64 z }
{
    (z.rem_euclid(1 << 64) as u64).cast_signed()
}

fn i32_of_number(k: (WitType, i128)) -> Option<Word>
    ensures { result ≡ spec.i32_of_number k }
{
    if is_narrow(k.0) {
        Some(Word::I32(low_i32(k.1)))
    } else {
        None
    }
}

fn i64_of_number(k: (WitType, i128)) -> Option<Word>
    ensures { result ≡ spec.i64_of_number k }
{
    if is_narrow(k.0) {
        None
    } else {
        Some(Word::I64(low_i64(k.1)))
    }
}

fn i32_of(v: &Val) -> Option<Word>
    ensures { result ≡ option_or (option_and_then spec.i32_of_number (spec.num_of v.now)) (option_map spec.i32_of_char (spec.char_of v.now)) }
{
    match (num_of(v), char_of(v)) {
        (Some(k), _) => i32_of_number(k),
        (None, Some(c)) => Some(Word::I32(c as i32)),
        (None, None) => None,
    }
}

/// The core value that a conversion gives. Nothing, where the item is none or takes no such value.
#[tactic(auto, unfolding(crate::specs::Effect::converted))]
pub fn converted(item: RuntimeItem, v: &Val) -> Option<Word>
    ensures { result ≡ spec.converted item v.now }
{
    match item {
        RuntimeItem::AsI32 => i32_of(v),
        RuntimeItem::AsI64 => i64_of_number(num_of(v)?),
        RuntimeItem::AsF32 => Some(Word::F32(f32_of(v)?)),
        RuntimeItem::AsF64 => Some(Word::F64(f64_of(v)?)),
        _ => None,
    }
}

/// The word of a bool. Nothing of any other value.
#[tactic(auto, unfolding(crate::specs::Effect::word_of_bool))]
pub fn word_of_bool(v: &Val) -> Option<Word>
    ensures { result ≡ spec.word_of_bool v.now }
{
    match bool_of(v) {
        None => None,
        Some(b) => Some(Word::I32(if b { 1 } else { 0 })),
    }
}

fn bool_of_number(form: Form, z: i128) -> Result<RustValue, TrapKind>
    ensures { result ≡ spec.bool_of_number form z }
{
    match z {
        0 => Ok(RustValue::Bool(false)),
        1 => Ok(RustValue::Bool(true)),
        _ => match form {
            Form::Debug => Err(TrapKind::Bool),
            Form::Release => Ok(RustValue::Bool(true)),
        },
    }
}

fn char_of_number(z: i128) -> Result<RustValue, TrapKind>
    ensures { result ≡ spec.char_of_number z }
{
    match u32::try_from(z) {
        Ok(c) if is_scalar(c) => Ok(RustValue::Char(c)),
        _ => Err(TrapKind::Char),
    }
}

fn lift_of_number(
    form: Form,
    item: RuntimeItem,
    k: (WitType, i128),
) -> Option<Result<RustValue, TrapKind>>
    ensures { result ≡ spec.lift_of_number form item k }
{
    match (item, k.0) {
        (RuntimeItem::BoolLift, WitType::U8) => Some(bool_of_number(form, k.1)),
        (RuntimeItem::CharLift, WitType::U32) => Some(char_of_number(k.1)),
        _ => None,
    }
}

/// What a lift gives of a number: a value, or the reason for which the number stands for none. Nothing, where the item is
/// no lift or takes no such value.
#[tactic(auto, unfolding(crate::specs::Effect::lift_of))]
pub fn lift_of(form: Form, item: RuntimeItem, v: &Val) -> Option<Result<RustValue, TrapKind>>
    ensures { result ≡ spec.lift_of form item v.now }
{
    match num_of(v) {
        None => None,
        Some(k) => lift_of_number(form, item, k),
    }
}
