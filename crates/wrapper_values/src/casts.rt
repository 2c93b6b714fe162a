//! What `as` does to a value.

ghost use Rattle.std.specs.Prelude.{◌≡◌};
ghost use Rattle.wrapper_values.specs.Effect as spec;

use crate::conversion::{low_i32, low_i64};
use crate::state::Val;
use crate::views::integer_of;
use rust_tree::CastType;
use wit_model::WitType;
use wrapper_data::{RustValue, Word};

fn cast_integer(to: CastType, z: i128) -> Val
    ensures { result ≡ spec.cast_integer to z }
{
    match to {
        CastType::U8 => Val::Value(RustValue::Num(WitType::U8, z.rem_euclid(1 << 8))),
        CastType::I8 => Val::Value(RustValue::Num(
            WitType::S8,
            i128::from((z.rem_euclid(1 << 8) as u8).cast_signed()),
        )),
        CastType::U16 => Val::Value(RustValue::Num(WitType::U16, z.rem_euclid(1 << 16))),
        CastType::I16 => Val::Value(RustValue::Num(
            WitType::S16,
            i128::from((z.rem_euclid(1 << 16) as u16).cast_signed()),
        )),
        CastType::U32 => Val::Value(RustValue::Num(WitType::U32, z.rem_euclid(1 << 32))),
        CastType::U64 => Val::Value(RustValue::Num(WitType::U64, z.rem_euclid(1 << 64))),
        CastType::I32 => Val::Word(Word::I32(low_i32(z))),
        CastType::I64 => Val::Word(Word::I64(low_i64(z))),
        CastType::Usize => Val::Word(Word::Length(z.rem_euclid(1 << 32) as u32)),
        CastType::Pointer => Val::Word(Word::Pointer(z.rem_euclid(1 << 32) as u32)),
    }
}

/// A value cast to a type. Nothing of a value that is no whole number.
#[tactic(auto, unfolding(crate::specs::Effect::cast_to))]
pub fn cast_to(to: CastType, v: &Val) -> Option<Val>
    ensures { result ≡ spec.cast_to to v.now }
{
    match integer_of(v) {
        None => None,
        Some(z) => Some(cast_integer(to, z)),
    }
}
