//! What a value is: a whole number of its kind, a bool, a char, the bits of a float, or a core word of a type.

ghost use Rattle.std.specs.Prelude.{◌≡◌};
ghost use Rattle.wrapper_values.specs.Effect as spec;

use crate::state::Val;
use wit_model::{WasmType, WitType};
use wrapper_data::{RustValue, Word};

/// Whether a number is one of a kind.
fn is_of_kind(kind: WitType, z: i128) -> bool
    ensures { result ≡ spec.is_of_kind kind z }
{
    match kind {
        WitType::U8 => 0 <= z && z < 1 << 8,
        WitType::U16 => 0 <= z && z < 1 << 16,
        WitType::U32 => 0 <= z && z < 1 << 32,
        WitType::U64 => 0 <= z && z < 1 << 64,
        WitType::S8 => -(1 << 7) <= z && z < 1 << 7,
        WitType::S16 => -(1 << 15) <= z && z < 1 << 15,
        WitType::S32 => -(1 << 31) <= z && z < 1 << 31,
        WitType::S64 => -(1 << 63) <= z && z < 1 << 63,
        _ => false,
    }
}

fn num_of_word(w: Word) -> Option<(WitType, i128)>
    ensures { result ≡ spec.num_of_word w }
{
    match w {
        Word::I32(z) => Some((WitType::S32, i128::from(z))),
        Word::I64(z) => Some((WitType::S64, i128::from(z))),
        _ => None,
    }
}

pub(crate) fn num_of(v: &Val) -> Option<(WitType, i128)>
    ensures { result ≡ spec.num_of v.now }
{
    match v {
        Val::Value(RustValue::Num(kind, z)) => {
            if is_of_kind(*kind, *z) {
                Some((*kind, *z))
            } else {
                None
            }
        }
        Val::Word(w) => num_of_word(*w),
        _ => None,
    }
}

/// Whether a code is a Unicode scalar value.
pub(crate) fn is_scalar(c: u32) -> bool
    ensures { result ≡ spec.is_scalar c }
{
    c < 0xD800 || (0xE000 <= c && c < 0x11_0000)
}

pub(crate) fn bool_of(v: &Val) -> Option<bool>
    ensures { result ≡ spec.bool_of v.now }
{
    match v {
        Val::Value(RustValue::Bool(b)) => Some(*b),
        _ => None,
    }
}

pub(crate) fn char_of(v: &Val) -> Option<u32>
    ensures { result ≡ spec.char_of v.now }
{
    match v {
        Val::Value(RustValue::Char(c)) => { if is_scalar(*c) { Some(*c) } else { None } }
        _ => None,
    }
}

pub(crate) fn f32_of(v: &Val) -> Option<u32>
    ensures { result ≡ spec.f32_of v.now }
{
    match v {
        Val::Value(RustValue::F32(bits)) | Val::Word(Word::F32(bits)) => Some(*bits),
        _ => None,
    }
}

pub(crate) fn f64_of(v: &Val) -> Option<u64>
    ensures { result ≡ spec.f64_of v.now }
{
    match v {
        Val::Value(RustValue::F64(bits)) | Val::Word(Word::F64(bits)) => Some(*bits),
        _ => None,
    }
}

fn integer_of_word(w: Word) -> Option<i128>
    ensures { result ≡ spec.integer_of_word w }
{
    match w {
        Word::I32(z) => Some(i128::from(z)),
        Word::I64(z) => Some(i128::from(z)),
        Word::Pointer(n) | Word::Length(n) => Some(i128::from(n)),
        _ => None,
    }
}

/// The whole number that a value is, if it is one.
pub fn integer_of(v: &Val) -> Option<i128>
    ensures { result ≡ spec.integer_of v.now }
{
    match v {
        Val::Word(w) => integer_of_word(*w),
        Val::Value(_) => match num_of(v) {
            None => None,
            Some((_, z)) => Some(z),
        },
        Val::Area(_, _) => None,
    }
}

/// Whether a word is a core value of a type. A slot is one only once it is written.
pub fn is_word_of(ty: WasmType, w: Word) -> bool
    ensures { result ≡ spec.is_word_of ty w }
{
    match (ty, w) {
        (WasmType::I32, Word::I32(_)) => true,
        (WasmType::I64, Word::I64(_)) => true,
        (WasmType::F32, Word::F32(_)) => true,
        (WasmType::F64, Word::F64(_)) => true,
        (WasmType::Pointer, Word::Pointer(_)) => true,
        (WasmType::PointerOrI64, Word::Slot(Some(_))) => true,
        (WasmType::Length, Word::Length(_)) => true,
        _ => false,
    }
}

/// The word that a value is, if it is a core value of this type.
pub fn word_of(ty: WasmType, v: &Val) -> Option<Word>
    ensures { result ≡ spec.word_of ty v.now }
{
    match v {
        Val::Word(w) => { if is_word_of(ty, *w) { Some(*w) } else { None } }
        _ => None,
    }
}
