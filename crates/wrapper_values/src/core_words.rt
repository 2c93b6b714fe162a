//! Core values: constants, and the functions and methods of the core library that take one core value to another.

ghost use Rattle.std.specs.Prelude.{◌≡◌, option_and_then};
ghost use Rattle.std.specs.Option.{option_map, option_or};
ghost use Rattle.wrapper_values.specs.CoreWords as spec;
ghost use Rattle.wrapper_values.specs.Effect as effect;

use crate::conversion::{is_narrow, low_i64};
use crate::state::Val;
use crate::views::{f32_of, f64_of, num_of};
use rust_tree::{Method, ZeroType};
use wit_model::WitType;
use wrapper_data::{RustValue, Word};

/// A function of the core library that takes a number to a core value.
#[derive(Clone, Copy)]
pub enum CoreFn {
    /// `i64::from`
    I64From,
    /// `f32::from_bits`
    F32FromBits,
    /// `f64::from_bits`
    F64FromBits,
    /// `::core::mem::MaybeUninit::new`
    NewSlot,
}

/// The zero of a core type.
pub fn zero_word(ty: ZeroType) -> Word
    ensures { result ≡ spec.zero_word ty }
{
    match ty {
        ZeroType::I64 => Word::I64(0),
        ZeroType::F32 => Word::F32(0),
        ZeroType::F64 => Word::F64(0),
        ZeroType::Pointer => Word::Pointer(0),
        ZeroType::PointerOrI64 => Word::Slot(Some(0)),
        ZeroType::Length => Word::Length(0),
    }
}

fn widened(k: (WitType, i128)) -> Option<Word>
    ensures { result ≡ spec.widened k }
{
    if is_narrow(k.0) {
        Some(Word::I64(low_i64(k.1)))
    } else {
        None
    }
}

/// The number that a value is, if it is a `u32`.
fn bits_in_32(v: &Val) -> Option<u32>
    ensures { result ≡ option_and_then spec.bits_in_32 (effect.num_of v.now) }
{
    match v {
        Val::Value(RustValue::Num(WitType::U32, z)) => u32::try_from(*z).ok(),
        _ => None,
    }
}

/// The number that a value is, if it is a `u64`.
fn bits_in_64(v: &Val) -> Option<u64>
    ensures { result ≡ option_and_then spec.bits_in_64 (effect.num_of v.now) }
{
    match v {
        Val::Value(RustValue::Num(WitType::U64, z)) => u64::try_from(*z).ok(),
        _ => None,
    }
}

/// The core value that a function of the core library gives. Nothing, where it takes no such value.
#[tactic(auto, unfolding(crate::specs::CoreWords::core_word))]
pub fn core_word(f: CoreFn, v: &Val) -> Option<Word>
    ensures { result ≡ spec.core_word f v.now }
{
    match f {
        CoreFn::I64From => widened(num_of(v)?),
        CoreFn::F32FromBits => Some(Word::F32(bits_in_32(v)?)),
        CoreFn::F64FromBits => Some(Word::F64(bits_in_64(v)?)),
        CoreFn::NewSlot => Some(Word::Slot(Some(bits_in_64(v)?))),
    }
}

/// The bits in a slot that is written.
fn slot_bits(v: &Val) -> Option<u64>
    ensures { result ≡ spec.slot_bits v.now }
{
    match v {
        Val::Word(Word::Slot(bits)) => *bits,
        _ => None,
    }
}

fn u32_value(n: u32) -> Val
    ensures { result ≡ spec.u32_value n }
{
    Val::Value(RustValue::Num(WitType::U32, i128::from(n)))
}

fn u64_value(n: u64) -> Val
    ensures { result ≡ spec.u64_value n }
{
    Val::Value(RustValue::Num(WitType::U64, i128::from(n)))
}

fn slot_pointer(bits: u64) -> Val
    ensures { result ≡ spec.slot_pointer bits }
{
    Val::Word(Word::Pointer((bits % (1 << 32)) as u32))
}

/// The bits of a float, as a number.
fn float_bits(v: &Val) -> Option<Val>
    ensures { result ≡ option_or (option_map spec.u32_value (effect.f32_of v.now)) (option_map spec.u64_value (effect.f64_of v.now)) }
{
    match (f32_of(v), f64_of(v)) {
        (Some(bits), _) => Some(u32_value(bits)),
        (None, Some(bits)) => Some(u64_value(bits)),
        (None, None) => None,
    }
}

/// What a method gives that takes one core value to another. Nothing, where it takes no such value.
#[tactic(auto, unfolding(crate::specs::CoreWords::called_on))]
pub fn called_on(method: Method, v: &Val) -> Option<Val>
    ensures { result ≡ spec.called_on method v.now }
{
    match method {
        Method::ToBits => float_bits(v),
        Method::AssumeInit => Some(u64_value(slot_bits(v)?)),
        Method::ReadPointer => Some(slot_pointer(slot_bits(v)?)),
    }
}
