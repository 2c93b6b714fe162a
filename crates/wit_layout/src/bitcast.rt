//! Casts between words of core types.

ghost use Rattle.std.specs.Prelude.{◌≡◌};
ghost use Rattle.wit_layout.specs.Cast.{cast};
ghost use Rattle.wit_layout.specs.Join.{join, AreInOrder};
ghost use Rattle.wit_layout.specs.CastBits.{ReadsBack};

use wit_model::WasmType;

/// How a word of one core type becomes a word of another. In the names `P` is a pointer, `L` a length and `P64` a
/// pointer or a word of 64 bits.
#[derive(Clone, Copy, Debug, PartialEq, Eq)]
pub enum Bitcast {
    None,
    I32ToI64,
    F32ToI32,
    F64ToI64,
    I64ToI32,
    I32ToF32,
    I64ToF32,
    I64ToF64,
    F32ToI64,
    I64ToP64,
    P64ToI64,
    PToP64,
    P64ToP,
    I32ToP,
    LToP,
    PToI32,
    LToI32,
    I32ToL,
    I64ToL,
    PToL,
    LToI64,
    /// The cast from the first type to the second, and then the cast from the second to the third.
    Sequence {
        from: WasmType,
        through: WasmType,
        to: WasmType,
    },
}

/// How a word of one core type is cast to another, of which one is the join of both, after `cast` of wit-bindgen-core.
pub fn cast(from: WasmType, to: WasmType) -> Bitcast
    requires { AreInOrder from to }
    ensures cast { result ≡ cast from to }
    ensures four { join from to ≡ to → ReadsBack 2 from to }
    ensures eight { join from to ≡ to → ReadsBack 3 from to }
{
    use WasmType::{F32, F64, I32, I64, Length, Pointer, PointerOrI64};
    match (from, to) {
        (I32, I64) => Bitcast::I32ToI64,
        (F32, I32) => Bitcast::F32ToI32,
        (F64, I64) => Bitcast::F64ToI64,
        (I64, I32) => Bitcast::I64ToI32,
        (I32, F32) => Bitcast::I32ToF32,
        (I64, F32) => Bitcast::I64ToF32,
        (I64, F64) => Bitcast::I64ToF64,
        (F32, I64) => Bitcast::F32ToI64,
        (I64, PointerOrI64) => Bitcast::I64ToP64,
        (PointerOrI64, I64) => Bitcast::P64ToI64,
        (Pointer, PointerOrI64) => Bitcast::PToP64,
        (PointerOrI64, Pointer) => Bitcast::P64ToP,
        (I32, Pointer) => Bitcast::I32ToP,
        (Length, Pointer) => Bitcast::LToP,
        (Pointer, I32) => Bitcast::PToI32,
        (Length, I32) => Bitcast::LToI32,
        (I32, Length) => Bitcast::I32ToL,
        (I64, Length) => Bitcast::I64ToL,
        (Pointer, Length) => Bitcast::PToL,
        (Length, I64) => Bitcast::LToI64,
        (F32, Pointer | Length) | (Pointer | Length, F32) => sequence(from, I32, to),
        (PointerOrI64, PointerOrI64) => Bitcast::None,
        (PointerOrI64, _) | (_, PointerOrI64) => sequence(from, I64, to),
        _ => Bitcast::None,
    }
}

fn sequence(from: WasmType, through: WasmType, to: WasmType) -> Bitcast
    ensures { result ≡ Bitcast.Sequence from through to }
{
    Bitcast::Sequence { from, through, to }
}
