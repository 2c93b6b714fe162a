//! Expressions of wrappers.

use crate::path::Path;
use crate::repr::Repr;
use wit_model::{ArchitectureSize, Boxed, List, Text, WasmType};

/// The type behind `as` in a cast.
#[derive(Clone, Copy, Debug, PartialEq, Eq)]
pub enum CastType {
    U8,
    I8,
    U16,
    I16,
    U32,
    U64,
    I32,
    I64,
    Usize,
    /// `*mut u8`
    Pointer,
}

/// A number of one or two bytes in memory.
#[derive(Clone, Copy, Debug, PartialEq, Eq)]
pub enum SmallType {
    U8,
    I8,
    U16,
    I16,
}

/// A core type whose zero is no number with `i32` behind it.
#[derive(Clone, Copy, Debug, PartialEq, Eq)]
pub enum ZeroType {
    /// `0i64`
    I64,
    /// `0.0f32`
    F32,
    /// `0.0f64`
    F64,
    /// `::core::ptr::null_mut::<u8>()`
    Pointer,
    /// `::core::mem::MaybeUninit::<u64>::zeroed()`
    PointerOrI64,
    /// `0usize`
    Length,
}

/// A method without arguments that takes one core value to another.
#[derive(Clone, Copy, Debug, PartialEq, Eq)]
pub enum Method {
    /// The bits of a float: `.to_bits()`.
    ToBits,
    /// The number in what holds a number or a pointer: `.assume_init()`.
    AssumeInit,
    /// The pointer in it: `.as_ptr().cast::<*mut u8>().read()`.
    ReadPointer,
}

/// An expression. Where a method is called on another expression, that one stands in brackets unless it is a local.
#[derive(Debug, PartialEq)]
pub enum Expr {
    /// A local or a parameter: `x`.
    Local(Text),
    /// A reference to a local or a parameter: `&x`.
    Ref(Text),
    /// `e as T`.
    Cast(Boxed<Expr>, CastType),
    /// `path(e, e)`.
    Call(Path, List<Expr>),
    /// The word of a bool: `match e { true => 1i32, false => 0i32 }`.
    I32FromBool(Boxed<Expr>),
    /// The address of the text or list in a local: `x.as_ptr().cast::<u8>()`.
    AsPtr(Text),
    /// The length of the text or list in a local: `x.len()`.
    Len(Text),
    /// The same address, to be written through: `x.cast_mut()`.
    CastMut(Text),
    /// The address of the body's return area: `area.0.as_mut_ptr().cast::<u8>()`.
    ReturnPointer(Text),
    /// A core value in memory, at an offset from an address: `*e.add(8).cast::<T>()`.
    Load(Boxed<Expr>, ArchitectureSize, WasmType),
    /// A small number in memory, as an `i32`: `i32::from(*e.add(8).cast::<u8>())`.
    LoadSmall(Boxed<Expr>, ArchitectureSize, SmallType),
    /// The bytes at an address, taken over with the length that a local holds: `_rt::Vec::from_raw_parts(e.cast(), n, n)`.
    FromRawParts(Boxed<Expr>, Text),
    /// The bytes of the text in a local, as a box without spare capacity: `(x.into_bytes()).into_boxed_slice()`.
    IntoBoxedBytes(Text),
    /// The address of the module's static area: `(&raw mut _RET_AREA.0).cast::<u8>()`.
    StaticPointer,
    /// A size in bytes as a number: `8`, or `4+2*::core::mem::size_of::<*const u8>()`. An alignment is one too.
    Size(ArchitectureSize),
    /// A record by its path, with a value for each field: `P { f: x, g: y }`.
    Record(Path, List<(Text, Expr)>),
    /// A tuple: `(x,)` or `(x, y)`.
    Tuple(List<Expr>),
    /// The tuple of no parts, as a payload that is nothing: `()`.
    Unit,
    /// An array: `[x, y]`.
    Array(List<Expr>),
    /// The number of an enum's case, as a word: `(e).clone() as i32`.
    EnumNumber(Boxed<Expr>),
    /// The lowest word of the flags in a local once they are shifted by so many bits: `(x.bits() >> 32) as i32`.
    FlagsBits(Text, u32),
    /// The flags of a type by its path, of words that are each shifted by so many bits; there is a word:
    /// `P::empty() | P::from_bits_retain(((e as u32 as u64) << 32) as _)`.
    FlagsOfWords(Path, Repr, List<(u32, Expr)>),
    /// A number: `5i32`.
    I32Const(i32),
    /// The zero of another core type: `0i64`.
    Zero(ZeroType),
    /// A case of a type, by the type's path and the case's name: `P::C`. With a payload it is a call, `P::C(e)`.
    Case(Path),
    /// A method called on an expression, which always stands in brackets: `(e).to_bits()`.
    Method(Boxed<Expr>, Method),
}

// Not derived: what is derived stands again in each function that lets such a value go, and is proved with it.
impl Drop for Expr {
    #[cycle(drop)]
    fn drop(self) {
        match self {
            Expr::Local(_)
            | Expr::Ref(_)
            | Expr::Cast(_, _)
            | Expr::Call(_, _)
            | Expr::I32FromBool(_)
            | Expr::AsPtr(_)
            | Expr::Len(_)
            | Expr::CastMut(_)
            | Expr::ReturnPointer(_)
            | Expr::Load(_, _, _)
            | Expr::LoadSmall(_, _, _)
            | Expr::FromRawParts(_, _)
            | Expr::IntoBoxedBytes(_)
            | Expr::StaticPointer
            | Expr::Size(_)
            | Expr::Record(_, _)
            | Expr::Tuple(_)
            | Expr::Unit
            | Expr::Array(_)
            | Expr::EnumNumber(_)
            | Expr::FlagsBits(_, _)
            | Expr::FlagsOfWords(_, _, _)
            | Expr::I32Const(_)
            | Expr::Zero(_)
            | Expr::Case(_)
            | Expr::Method(_, _) => {}
        }
    }
}
