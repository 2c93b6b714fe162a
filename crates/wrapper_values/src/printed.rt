//! What a function of a plain printed type answers.

ghost use Rattle.std.specs.Prelude.{◌≡◌, option_and_then};
ghost use Rattle.wrapper_values.specs.Effect as spec;

use crate::state::Val;
use crate::views::{bool_of, char_of, f32_of, f64_of, num_of};
use rust_tree::{Primitive, TypeExpr};
use wit_model::WitType;
use wrapper_data::{RustValue, Word};

fn is_printed_as(p: Primitive, kind: WitType) -> bool
    ensures { result ≡ spec.is_printed_as p kind }
{
    match (p, kind) {
        (Primitive::U8, WitType::U8) => true,
        (Primitive::U16, WitType::U16) => true,
        (Primitive::U32, WitType::U32) => true,
        (Primitive::U64, WitType::U64) => true,
        (Primitive::I8, WitType::S8) => true,
        (Primitive::I16, WitType::S16) => true,
        (Primitive::I32, WitType::S32) => true,
        (Primitive::I64, WitType::S64) => true,
        _ => false,
    }
}

fn value_of_word(p: Primitive, w: Word) -> Option<RustValue>
    ensures { result ≡ spec.value_of_word p w }
{
    match (p, w) {
        (Primitive::I32, Word::I32(z)) => Some(RustValue::Num(WitType::S32, i128::from(z))),
        (Primitive::I64, Word::I64(z)) => Some(RustValue::Num(WitType::S64, i128::from(z))),
        (Primitive::F32, Word::F32(bits)) => Some(RustValue::F32(bits)),
        (Primitive::F64, Word::F64(bits)) => Some(RustValue::F64(bits)),
        _ => None,
    }
}

fn number_as(p: Primitive, k: (WitType, i128)) -> Option<RustValue>
    ensures { result ≡ spec.number_as p k }
{
    if is_printed_as(p, k.0) {
        Some(RustValue::Num(k.0, k.1))
    } else {
        None
    }
}

fn number_in(p: Primitive, v: &Val) -> Option<RustValue>
    ensures { result ≡ option_and_then (spec.number_as p) (spec.num_of v.now) }
{
    match num_of(v) {
        None => None,
        Some(k) => number_as(p, k),
    }
}

fn value_as(p: Primitive, v: &Val) -> Option<RustValue>
    ensures { result ≡ spec.value_as p v.now }
{
    match v {
        Val::Word(w) => value_of_word(p, *w),
        Val::Value(_) => match p {
            Primitive::Bool => Some(RustValue::Bool(bool_of(v)?)),
            Primitive::Char => Some(RustValue::Char(char_of(v)?)),
            Primitive::F32 => Some(RustValue::F32(f32_of(v)?)),
            Primitive::F64 => Some(RustValue::F64(f64_of(v)?)),
            _ => number_in(p, v),
        },
        Val::Area(_, _) => None,
    }
}

/// A text that owns its bytes. Where it has none, its flag tells nothing.
fn text_of(v: &Val) -> Option<RustValue>
    ensures { result ≡ spec.seen_as spec.text_of_level v.now }
{
    match v {
        Val::Value(
            RustValue::Buffer {
                address,
                len,
                owned,
            },
        ) if *owned || *len == 0 => Some(RustValue::Buffer {
            address: *address,
            len: *len,
            owned: true,
        }),
        _ => None,
    }
}

/// Whether a value is `()`.
pub fn is_unit(v: &Val) -> bool
    ensures { result ≡ spec.is_unit v.now }
{
    match v {
        Val::Value(RustValue::Unit) => true,
        _ => false,
    }
}

/// What a function of a plain printed type answers: no value for `()`. Nothing, where the value is none of that type.
#[tactic(auto, unfolding(crate::specs::Effect::answer_of))]
pub(crate) fn answer_of(ty: &TypeExpr, v: &Val) -> Option<Option<RustValue>>
    ensures { result ≡ spec.answer_of ty.now v.now }
{
    match ty {
        TypeExpr::Unit => { if is_unit(v) { Some(None) } else { None } }
        TypeExpr::Primitive(p) => match value_as(*p, v) {
            None => None,
            Some(value) => Some(Some(value)),
        },
        TypeExpr::String => Some(Some(text_of(v)?)),
        _ => None,
    }
}
