//! The text of types.

ghost use Rattle.std.specs.Prelude.{◌≡◌, ◌++◌, OnOk, map};
ghost use Rattle.rust_tree.specs.CodeText.{array_type_text, cast_type_text, core_type_text, option_text, primitive_text, repr_type_text, small_type_text, tuple_text, type_text};

use crate::expr::{CastType, SmallType};
use crate::print::path::push_path;
use crate::print::word::{DefinitionWord, ExprWord, ItemWord, Sign};
use crate::repr::Repr;
use crate::type_expr::{Primitive, TypeExpr};
use wit_model::{OutOfMemory, Text, WasmType};

fn primitive_name(primitive: Primitive) -> &'static str
    ensures { result.now ≡ primitive_text primitive }
{
    match primitive {
        Primitive::Bool => "bool",
        Primitive::U8 => "u8",
        Primitive::U16 => "u16",
        Primitive::U32 => "u32",
        Primitive::U64 => "u64",
        Primitive::I8 => "i8",
        Primitive::I16 => "i16",
        Primitive::I32 => "i32",
        Primitive::I64 => "i64",
        Primitive::F32 => "f32",
        Primitive::F64 => "f64",
        Primitive::Char => "char",
    }
}

fn cast_type_name(ty: CastType) -> &'static str
    ensures { result.now ≡ cast_type_text ty }
{
    match ty {
        CastType::U8 => "u8",
        CastType::I8 => "i8",
        CastType::U16 => "u16",
        CastType::I16 => "i16",
        CastType::U32 => "u32",
        CastType::U64 => "u64",
        CastType::I32 => "i32",
        CastType::I64 => "i64",
        CastType::Usize => "usize",
        CastType::Pointer => "*mut u8",
    }
}

fn repr_type_name(repr: Repr) -> &'static str
    ensures { result.now ≡ repr_type_text repr }
{
    match repr {
        Repr::U8 => "u8",
        Repr::U16 => "u16",
        Repr::U32 => "u32",
        Repr::U64 => "u64",
        Repr::U128 => "u128",
    }
}

pub(crate) fn small_type_name(ty: SmallType) -> &'static str
    ensures { result.now ≡ small_type_text ty }
{
    match ty {
        SmallType::U8 => "u8",
        SmallType::I8 => "i8",
        SmallType::U16 => "u16",
        SmallType::I16 => "i16",
    }
}

pub(crate) fn core_type_name(ty: WasmType) -> &'static str
    ensures { result.now ≡ core_type_text ty }
{
    match ty {
        WasmType::I32 => "i32",
        WasmType::I64 => "i64",
        WasmType::F32 => "f32",
        WasmType::F64 => "f64",
        WasmType::Pointer => "*mut u8",
        WasmType::PointerOrI64 => "::core::mem::MaybeUninit::<u64>",
        WasmType::Length => "usize",
    }
}

#[cycle(type_name)]
pub(crate) fn push_type(out: &mut Text, ty: &TypeExpr) -> Result<(), OutOfMemory>
    ensures { OnOk result (out.new ≡ out.old ++ type_text ty.now) }
{
    match ty {
        TypeExpr::Primitive(primitive) => out.push_str(primitive_name(*primitive)),
        TypeExpr::Unit => ItemWord::UnitType.put(out),
        TypeExpr::Str => ItemWord::StrType.put(out),
        TypeExpr::String => ItemWord::StringName.put(out),
        TypeExpr::Ref(ty) => {
            Sign::Reference.put(out)?;
            push_type(out, ty.get())
        }
        TypeExpr::Path(path) => push_path(out, path),
        TypeExpr::Tuple(parts) => push_tuple(out, parts.as_slice()),
        TypeExpr::Optional(ty) => push_option(out, ty.get()),
        TypeExpr::Array(ty, n) => push_array_type(out, ty.get(), *n),
        TypeExpr::Result(ok, err) => {
            DefinitionWord::ResultType.put(out)?;
            push_type(out, ok.get())?;
            Sign::Comma.put(out)?;
            push_type(out, err.get())?;
            DefinitionWord::TypeEnd.put(out)
        }
    }
}

#[cycle(type_name)]
fn push_tuple(out: &mut Text, parts: &[TypeExpr]) -> Result<(), OutOfMemory>
    ensures { OnOk result (out.new ≡ out.old ++ tuple_text (map type_text parts.now)) }
{
    Sign::Open.put(out)?;
    for (i, part) in parts.iter().enumerate() {
        if i > 0 {
            Sign::Comma.put(out)?;
        }
        push_type(out, part)?;
    }
    DefinitionWord::TupleEnd.put(out)
}

#[cycle(type_name)]
fn push_option(out: &mut Text, ty: &TypeExpr) -> Result<(), OutOfMemory>
    ensures { OnOk result (out.new ≡ out.old ++ option_text (type_text ty.now)) }
{
    DefinitionWord::OptionType.put(out)?;
    push_type(out, ty)?;
    DefinitionWord::TypeEnd.put(out)
}

#[cycle(type_name)]
fn push_array_type(out: &mut Text, ty: &TypeExpr, n: u32) -> Result<(), OutOfMemory>
    ensures { OnOk result (out.new ≡ out.old ++ array_type_text (type_text ty.now) n) }
{
    ExprWord::OpenArray.put(out)?;
    push_type(out, ty)?;
    DefinitionWord::ArrayLength.put(out)?;
    out.push_number(u64::from(n))?;
    ExprWord::CloseArray.put(out)
}

pub(crate) fn push_cast_type(out: &mut Text, ty: CastType) -> Result<(), OutOfMemory>
    ensures { OnOk result (out.new ≡ out.old ++ cast_type_text ty) }
{
    out.push_str(cast_type_name(ty))
}

pub(crate) fn push_repr_type(out: &mut Text, repr: Repr) -> Result<(), OutOfMemory>
    ensures { OnOk result (out.new ≡ out.old ++ repr_type_text repr) }
{
    out.push_str(repr_type_name(repr))
}

pub(crate) fn push_core_type(out: &mut Text, ty: WasmType) -> Result<(), OutOfMemory>
    ensures { OnOk result (out.new ≡ out.old ++ core_type_text ty) }
{
    out.push_str(core_type_name(ty))
}
