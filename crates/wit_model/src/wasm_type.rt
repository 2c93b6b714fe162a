//! Core types.

/// A core type. `Pointer` and `Length` have the pointer's width, and `PointerOrI64` holds either.
#[derive(Clone, Copy, Debug, PartialEq, Eq)]
pub enum WasmType {
    I32,
    I64,
    F32,
    F64,
    Pointer,
    PointerOrI64,
    Length,
}
