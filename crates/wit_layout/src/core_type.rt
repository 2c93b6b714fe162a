//! The join of two core types.

ghost use Rattle.std.specs.Prelude.{◌≡◌};
ghost use Rattle.wit_layout.specs.Join.{join};

use wit_model::WasmType;

/// The core type whose words hold the words of both types, as cases of a variant share their slots: the Canonical ABI's
/// `join`, in which a word also tells whether it is a pointer or a length.
pub fn join(a: WasmType, b: WasmType) -> WasmType
    ensures join { result ≡ join a b }
    ensures holds_first { join a result ≡ result }
    ensures holds_second { join b result ≡ result }
{
    use WasmType::{F32, F64, I32, I64, Length, Pointer, PointerOrI64};
    match (a, b) {
        (PointerOrI64, _) | (_, PointerOrI64) => PointerOrI64,
        (F32, F32) => F32,
        (F64, F64) => F64,
        (I32 | F32, I32 | F32) => I32,
        (Pointer, I64 | F64) | (I64 | F64, Pointer) => PointerOrI64,
        (Pointer, _) | (_, Pointer) => Pointer,
        (Length, Length | I32 | F32) | (I32 | F32, Length) => Length,
        _ => I64,
    }
}
