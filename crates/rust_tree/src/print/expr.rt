//! The text of an expression.

ghost use Rattle.std.specs.Prelude.{◌≡◌, ◌++◌, OnOk, decimal, map};
ghost use Rattle.rust_tree.specs.CodeText.{arguments_text, array_text, bracket, capacity_text, cast_type_text, expr_fields, expr_spelled, expr_text, expr_words, fields_text, flags_bits_text, flags_of_words_text, listed_text, method_text, parts_text, path_text, place_text, receiver_text, repr_type_text, small_type_text};
ghost use Rattle.rust_tree.specs.Word.{expr_word, flags_word, sign};
ghost use Rattle.rust_tree.specs.declared.print.word.expr.ExprWord.TheVariants.{CaseNumber, IntoBoxedBytes};
ghost use Rattle.rust_tree.specs.declared.print.word.flags.FlagsWord.TheVariants.{AsWord, FromBits, FromBitsEnd, Or, ShiftedBy};
ghost use Rattle.rust_tree.specs.declared.print.word.sign.Sign.TheVariants.{As, Close, Colon, Open, Reference};

use crate::expr::{CastType, Expr, Method, SmallType};
use crate::path::Path;
use crate::print::constant::{push_i32, zero_name};
use crate::print::path::push_path;
use crate::print::size::push_term;
use crate::print::type_name::{core_type_name, push_cast_type, push_repr_type, small_type_name};
use crate::print::word::{ExprWord, FlagsWord, Sign};
use crate::repr::Repr;
use wit_model::{ArchitectureSize, OutOfMemory, Text};

fn is_local(e: &Expr) -> bool
    ensures { result ≡ (expr_spelled e.now).is_local }
{
    matches!(e, Expr::Local(_))
}

fn push_bracket(out: &mut Text, e: &Expr, w: Sign) -> Result<(), OutOfMemory>
    ensures { OnOk result (out.new ≡ out.old ++ bracket (expr_spelled e.now) w) }
{
    if is_local(e) { Ok(()) } else { w.put(out) }
}

fn push_reference(out: &mut Text, name: &Text) -> Result<(), OutOfMemory>
    ensures { OnOk result (out.new ≡ out.old ++ (sign Reference ++ name.now)) }
{
    Sign::Reference.put(out)?;
    out.push_str(name.as_str())
}

fn push_as(out: &mut Text, to: CastType) -> Result<(), OutOfMemory>
    ensures { OnOk result (out.new ≡ out.old ++ (sign As ++ cast_type_text to)) }
{
    Sign::As.put(out)?;
    push_cast_type(out, to)
}

fn push_behind(out: &mut Text, name: &Text, w: ExprWord) -> Result<(), OutOfMemory>
    ensures { OnOk result (out.new ≡ out.old ++ (name.now ++ expr_word w)) }
{
    out.push_str(name.as_str())?;
    w.put(out)
}

/// What stands behind an address: the place that it is the address of, of a type by its name.
pub(crate) fn push_place(
    out: &mut Text,
    offset: ArchitectureSize,
    ty: &str,
) -> Result<(), OutOfMemory>
    ensures { OnOk result (out.new ≡ out.old ++ place_text offset ty.now) }
{
    ExprWord::Add.put(out)?;
    push_term(out, offset)?;
    ExprWord::CastTo.put(out)?;
    out.push_str(ty)?;
    ExprWord::CastEnd.put(out)
}

/// The same, and the bracket behind what is widened.
fn push_widened(out: &mut Text, offset: ArchitectureSize, ty: SmallType) -> Result<(), OutOfMemory>
    ensures { OnOk result (out.new ≡ out.old ++ (place_text offset (small_type_text ty) ++ sign Close)) }
{
    push_place(out, offset, small_type_name(ty))?;
    Sign::Close.put(out)
}

/// The name of a field, before what stands for it.
pub(crate) fn push_name(out: &mut Text, name: &Text) -> Result<(), OutOfMemory>
    ensures { OnOk result (out.new ≡ out.old ++ (name.now ++ sign Colon)) }
{
    out.push_str(name.as_str())?;
    Sign::Colon.put(out)
}

fn push_boxed_bytes(out: &mut Text, name: &Text) -> Result<(), OutOfMemory>
    ensures { OnOk result (out.new ≡ out.old ++ (sign Open ++ name.now ++ expr_word IntoBoxedBytes)) }
{
    Sign::Open.put(out)?;
    push_behind(out, name, ExprWord::IntoBoxedBytes)
}

/// What stands behind a pointer whose bytes are taken over: the length and the capacity.
fn push_capacity(out: &mut Text, len: &Text) -> Result<(), OutOfMemory>
    ensures { OnOk result (out.new ≡ out.old ++ capacity_text len.now) }
{
    ExprWord::PointerCast.put(out)?;
    out.push_str(len.as_str())?;
    Sign::Comma.put(out)?;
    out.push_str(len.as_str())?;
    Sign::Close.put(out)
}

fn push_flags_bits(out: &mut Text, name: &Text, n: u32) -> Result<(), OutOfMemory>
    ensures { OnOk result (out.new ≡ out.old ++ flags_bits_text name.now n) }
{
    Sign::Open.put(out)?;
    out.push_str(name.as_str())?;
    FlagsWord::Bits.put(out)?;
    out.push_number(u64::from(n))?;
    FlagsWord::AsCoreWord.put(out)
}

/// What stands before a word that flags are made of.
fn push_before_word(out: &mut Text, path: &Path) -> Result<(), OutOfMemory>
    ensures { OnOk result (out.new ≡ out.old ++ (flags_word Or ++ path_text path.now ++ flags_word FromBits)) }
{
    FlagsWord::Or.put(out)?;
    push_path(out, path)?;
    FlagsWord::FromBits.put(out)
}

/// What stands behind it: the type to which it is widened, and by how many bits it is shifted.
fn push_behind_word(out: &mut Text, repr: Repr, n: u32) -> Result<(), OutOfMemory>
    ensures { OnOk result (out.new ≡ out.old ++ (flags_word AsWord ++ repr_type_text repr ++ flags_word ShiftedBy ++ decimal n ++ flags_word FromBitsEnd)) }
{
    FlagsWord::AsWord.put(out)?;
    push_repr_type(out, repr)?;
    FlagsWord::ShiftedBy.put(out)?;
    out.push_number(u64::from(n))?;
    FlagsWord::FromBitsEnd.put(out)
}

fn method_name(method: Method) -> &'static str
    ensures { result.now ≡ method_text method }
{
    match method {
        Method::ToBits => ".to_bits()",
        Method::AssumeInit => ".assume_init()",
        Method::ReadPointer => ".as_ptr().cast::<*mut u8>().read()",
    }
}

#[cycle(expr)]
pub(crate) fn push_expr(out: &mut Text, e: &Expr) -> Result<(), OutOfMemory>
    ensures { OnOk result (out.new ≡ out.old ++ expr_text e.now) }
{
    match e {
        Expr::Local(name) => out.push_str(name.as_str()),
        Expr::Ref(name) => push_reference(out, name),
        Expr::Cast(e, to) => {
            push_expr(out, e.get())?;
            push_as(out, *to)
        }
        Expr::Call(path, arguments) => push_call(out, path, arguments.as_slice()),
        Expr::I32FromBool(e) => {
            ExprWord::Match.put(out)?;
            push_expr(out, e.get())?;
            ExprWord::BoolArms.put(out)
        }
        Expr::AsPtr(name) => push_behind(out, name, ExprWord::AsPtr),
        Expr::Len(name) => push_behind(out, name, ExprWord::Len),
        Expr::CastMut(name) => push_behind(out, name, ExprWord::CastMut),
        Expr::ReturnPointer(name) => push_behind(out, name, ExprWord::AreaPointer),
        Expr::Load(address, offset, ty) => {
            push_receiver(out, ExprWord::Dereference, address.get())?;
            push_place(out, *offset, core_type_name(*ty))
        }
        Expr::LoadSmall(address, offset, ty) => {
            push_receiver(out, ExprWord::Widened, address.get())?;
            push_widened(out, *offset, *ty)
        }
        Expr::FromRawParts(pointer, len) => {
            push_receiver(out, ExprWord::FromRawParts, pointer.get())?;
            push_capacity(out, len)
        }
        Expr::IntoBoxedBytes(name) => push_boxed_bytes(out, name),
        Expr::StaticPointer => ExprWord::StaticPointer.put(out),
        Expr::Size(size) => push_term(out, *size),
        Expr::Record(path, fields) => push_record(out, path, fields.as_slice()),
        Expr::Tuple(parts) => push_parts(out, parts.as_slice()),
        Expr::Unit => push_unit(out),
        Expr::Array(parts) => push_array(out, parts.as_slice()),
        Expr::EnumNumber(e) => push_case_number(out, e.get()),
        Expr::FlagsBits(name, n) => push_flags_bits(out, name, *n),
        Expr::FlagsOfWords(path, repr, words) => push_flags(out, path, *repr, words.as_slice()),
        Expr::I32Const(n) => push_i32(out, *n),
        Expr::Zero(ty) => out.push_str(zero_name(*ty)),
        Expr::Case(path) => push_path(out, path),
        Expr::Method(e, method) => push_method(out, e.get(), *method),
    }
}

fn push_unit(out: &mut Text) -> Result<(), OutOfMemory>
    ensures { OnOk result (out.new ≡ out.old ++ (sign Open ++ sign Close)) }
{
    Sign::Open.put(out)?;
    Sign::Close.put(out)
}

#[cycle(expr)]
fn push_case_number(out: &mut Text, e: &Expr) -> Result<(), OutOfMemory>
    ensures { OnOk result (out.new ≡ out.old ++ (sign Open ++ expr_text e.now ++ expr_word CaseNumber)) }
{
    Sign::Open.put(out)?;
    push_expr(out, e)?;
    ExprWord::CaseNumber.put(out)
}

#[cycle(expr)]
fn push_method(out: &mut Text, e: &Expr, method: Method) -> Result<(), OutOfMemory>
    ensures { OnOk result (out.new ≡ out.old ++ (sign Open ++ expr_text e.now ++ sign Close ++ method_text method)) }
{
    Sign::Open.put(out)?;
    push_expr(out, e)?;
    Sign::Close.put(out)?;
    out.push_str(method_name(method))
}

/// A word, and behind it an expression on which a method is called.
#[cycle(expr)]
pub(crate) fn push_receiver(out: &mut Text, w: ExprWord, e: &Expr) -> Result<(), OutOfMemory>
    ensures { OnOk result (out.new ≡ out.old ++ (expr_word w ++ receiver_text (expr_spelled e.now))) }
{
    w.put(out)?;
    push_bracket(out, e, Sign::Open)?;
    push_expr(out, e)?;
    push_bracket(out, e, Sign::Close)
}

/// Expressions with a comma between any two.
#[cycle(expr)]
fn push_listed(out: &mut Text, es: &[Expr]) -> Result<(), OutOfMemory>
    ensures { OnOk result (out.new ≡ out.old ++ listed_text (map expr_spelled es.now)) }
{
    for (i, e) in es.iter().enumerate() {
        if i > 0 {
            Sign::Comma.put(out)?;
        }
        push_expr(out, e)?;
    }
    Ok(())
}

#[cycle(expr)]
pub(crate) fn push_arguments(out: &mut Text, arguments: &[Expr]) -> Result<(), OutOfMemory>
    ensures { OnOk result (out.new ≡ out.old ++ arguments_text arguments.now) }
{
    Sign::Open.put(out)?;
    push_listed(out, arguments)?;
    Sign::Close.put(out)
}

#[cycle(expr)]
fn push_call(out: &mut Text, path: &Path, arguments: &[Expr]) -> Result<(), OutOfMemory>
    ensures { OnOk result (out.new ≡ out.old ++ (path_text path.now ++ arguments_text arguments.now)) }
{
    push_path(out, path)?;
    push_arguments(out, arguments)
}

/// The path of a record, and the values of its fields, each behind its name.
#[cycle(expr)]
fn push_record(out: &mut Text, path: &Path, fields: &[(Text, Expr)]) -> Result<(), OutOfMemory>
    ensures { OnOk result (out.new ≡ out.old ++ (path_text path.now ++ fields_text (expr_fields fields.now))) }
{
    push_path(out, path)?;
    ExprWord::OpenFields.put(out)?;
    for (i, field) in fields.iter().enumerate() {
        if i > 0 {
            Sign::Comma.put(out)?;
        }
        push_name(out, &field.0)?;
        push_expr(out, &field.1)?;
    }
    ExprWord::CloseFields.put(out)
}

#[cycle(expr)]
fn push_parts(out: &mut Text, parts: &[Expr]) -> Result<(), OutOfMemory>
    ensures { OnOk result (out.new ≡ out.old ++ parts_text (map expr_spelled parts.now)) }
{
    Sign::Open.put(out)?;
    push_listed(out, parts)?;
    if parts.len() == 1 {
        ExprWord::LoneComma.put(out)?;
    }
    Sign::Close.put(out)
}

#[cycle(expr)]
fn push_array(out: &mut Text, parts: &[Expr]) -> Result<(), OutOfMemory>
    ensures { OnOk result (out.new ≡ out.old ++ array_text (map expr_spelled parts.now)) }
{
    ExprWord::OpenArray.put(out)?;
    push_listed(out, parts)?;
    ExprWord::CloseArray.put(out)
}

/// The path of a flags type, and the words that its flags are made of.
#[cycle(expr)]
fn push_flags(
    out: &mut Text,
    path: &Path,
    repr: Repr,
    words: &[(u32, Expr)],
) -> Result<(), OutOfMemory>
    ensures { OnOk result (out.new ≡ out.old ++ flags_of_words_text path.now repr (expr_words words.now)) }
{
    push_path(out, path)?;
    FlagsWord::Empty.put(out)?;
    for word in words {
        push_before_word(out, path)?;
        push_expr(out, &word.1)?;
        push_behind_word(out, repr, word.0)?;
    }
    Ok(())
}
