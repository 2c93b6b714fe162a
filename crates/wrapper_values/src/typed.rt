//! Values of printed types, where the type may be one of the file.

ghost use Rattle.std.specs.Prelude.{◌≡◌, ◌++◌, IfOk, Some, None, if◌then◌else◌, map, option_and_then};
ghost use Rattle.std.specs.Option.{option_copied, option_map};
ghost use Rattle.rust_tree.specs.declared.type_expr.TypeExpr.{out-TypeExpr};
ghost use Rattle.wrapper_data.specs.declared.value.RustValue.TheVariants as value;
ghost use Rattle.wrapper_values.specs.Fields as fields;
ghost use Rattle.wrapper_values.specs.Typed as spec;

use crate::enums::has_case;
use crate::fields::{root_name, type_named};
use crate::flags::typed_flags;
use crate::printed::answer_of;
use crate::state::Val;
use rust_tree::{Item, Path, StructField, TypeExpr, TypeItem, VariantCase};
use std::alloc::Global;
use wit_model::{Boxed, List, OutOfMemory};
use wrapper_data::RustValue;

/// The type of a path, at the root of the file.
fn type_at<'a>(items: &'a [Item], path: &Path) -> Option<&'a TypeItem>
    ensures { option_copied result ≡ option_and_then (fields.type_named items.now) (fields.root_name path.now) }
{
    match root_name(path) {
        None => None,
        Some(name) => type_named(items, name.as_str()),
    }
}

/// The definition of a type that is named by a path.
fn definition_in<'a>(items: &'a [Item], ty: &TypeExpr) -> Option<&'a TypeItem>
    ensures { option_copied result ≡ spec.definition_in items.now (out-TypeExpr ty.now) }
{
    match ty {
        TypeExpr::Path(path) => type_at(items, path),
        _ => None,
    }
}

/// The type that a type is another name of.
fn target_of<'a>(items: &'a [Item], ty: &TypeExpr) -> Option<&'a TypeExpr>
    ensures { option_copied result ≡ spec.target_of items.now ty.now }
{
    match definition_in(items, ty) {
        Some(TypeItem::Alias(a)) => Some(&a.ty),
        _ => None,
    }
}

/// A type behind at most as many aliases as there are such items.
fn behind<'a>(fuel: &[Item], items: &'a [Item], ty: &'a TypeExpr) -> &'a TypeExpr
    ensures { result.now ≡ spec.behind fuel.now items.now ty.now }
{
    match fuel.split_first() {
        None => ty,
        Some((_, fuel)) => match target_of(items, ty) {
            None => ty,
            Some(target) => behind(fuel, items, target),
        },
    }
}

/// A type behind all aliases of the file.
fn unaliased<'a>(items: &'a [Item], ty: &'a TypeExpr) -> &'a TypeExpr
    ensures { result.now ≡ spec.unaliased items.now ty.now }
{
    behind(items, items, ty)
}

/// A value without parts, as one of a plain type.
fn plain_as(ty: &TypeExpr, v: &Val) -> Option<RustValue>
    ensures { result ≡ spec.plain_as ty.now v.now }
{
    answer_of(ty, v)?
}

/// A value, as one of a type.
#[cycle(typed)]
fn typed(
    value: &RustValue,
    alloc: Global,
    items: &[Item],
    ty: &TypeExpr,
) -> Result<Option<RustValue>, OutOfMemory>
    ensures { IfOk result (λ r. r ≡ spec.typed items.now value.now ty.now) }
{
    let ty = unaliased(items, ty);
    match value {
        RustValue::Struct(parts) => typed_parts(parts.as_slice(), alloc, items, ty),
        RustValue::Case(number, payload) => typed_case(payload, alloc, items, *number, ty),
        RustValue::Unit => Ok(typed_unit(ty)),
        RustValue::Bits(bits) => Ok(typed_flags(*bits, definition_in(items, ty))),
        RustValue::Bool(_) | RustValue::Num(_, _) | RustValue::F32(_) | RustValue::F64(_) => {
            Ok(plain_as(ty, &Val::Value(value.copy(alloc)?)))
        }
        RustValue::Char(_) | RustValue::Buffer { .. } => {
            Ok(plain_as(ty, &Val::Value(value.copy(alloc)?)))
        }
        _ => Ok(None),
    }
}

/// The value `()`, as one of a type that is no alias.
fn typed_unit(ty: &TypeExpr) -> Option<RustValue>
    ensures { result ≡ spec.typed_unit (out-TypeExpr ty.now) }
{
    match ty {
        TypeExpr::Unit => Some(RustValue::Unit),
        _ => None,
    }
}

/// A case with this payload, as one of a type that is no alias.
#[cycle(typed)]
fn typed_case(
    payload: &Option<Boxed<RustValue>>,
    alloc: Global,
    items: &[Item],
    number: u32,
    ty: &TypeExpr,
) -> Result<Option<RustValue>, OutOfMemory>
    ensures { IfOk result
        (λ r. r ≡ spec.typed_case items.now number (option_map (spec.typed items.now) payload.now) (out-TypeExpr ty.now)) }
{
    match ty {
        TypeExpr::Optional(ty) => typed_option(payload, alloc, items, number, ty.get()),
        TypeExpr::Result(ok, err) => {
            typed_result(payload, alloc, items, number, ok.get(), err.get())
        }
        _ => match definition_in(items, ty) {
            Some(TypeItem::Variant(v)) => {
                let case = v.cases.as_slice().get(number as usize);
                typed_variant(payload, alloc, items, number, case)
            }
            Some(TypeItem::Enum(e)) if has_case(e, number) => {
                typed_bare(payload, alloc, items, number)
            }
            _ => Ok(None),
        },
    }
}

/// A case with this payload, as one of a result of two types.
#[cycle(typed)]
fn typed_result(
    payload: &Option<Boxed<RustValue>>,
    alloc: Global,
    items: &[Item],
    number: u32,
    ok: &TypeExpr,
    err: &TypeExpr,
) -> Result<Option<RustValue>, OutOfMemory>
    ensures { IfOk result
        (λ r. r ≡ spec.typed_result number (option_map (spec.typed items.now) payload.now) ok.now err.now) }
{
    match number {
        0 => typed_payload(payload, alloc, items, 0, ok),
        1 => typed_payload(payload, alloc, items, 1, err),
        _ => Ok(None),
    }
}

/// A case of this number, with a payload of a type. Where the type is `()` there may be none.
#[cycle(typed)]
fn typed_payload(
    payload: &Option<Boxed<RustValue>>,
    alloc: Global,
    items: &[Item],
    number: u32,
    ty: &TypeExpr,
) -> Result<Option<RustValue>, OutOfMemory>
    ensures { IfOk result
        (λ r. r ≡ spec.typed_payload number (option_map (spec.typed items.now) payload.now) ty.now) }
{
    match payload {
        None => match ty {
            TypeExpr::Unit => Ok(Some(RustValue::Case(number, None))),
            _ => Ok(None),
        },
        Some(payload) => match typed(payload.get(), alloc, items, ty)? {
            None => Ok(None),
            Some(r) => Ok(Some(RustValue::Case(number, Some(Boxed::new(alloc, r)?)))),
        },
    }
}

/// A case with this payload, as one that a variant has.
#[cycle(typed)]
fn typed_variant(
    payload: &Option<Boxed<RustValue>>,
    alloc: Global,
    items: &[Item],
    number: u32,
    case: Option<&VariantCase>,
) -> Result<Option<RustValue>, OutOfMemory>
    ensures { IfOk result
        (λ r. r ≡ spec.typed_variant number (option_map (spec.typed items.now) payload.now) (option_copied case.entry)) }
{
    match case {
        None => Ok(None),
        Some(case) => match &case.ty {
            None => typed_bare(payload, alloc, items, number),
            Some(ty) => typed_payload(payload, alloc, items, number, ty),
        },
    }
}

/// A case of this number that has no payload, or `()`.
#[cycle(typed)]
fn typed_bare(
    payload: &Option<Boxed<RustValue>>,
    alloc: Global,
    items: &[Item],
    number: u32,
) -> Result<Option<RustValue>, OutOfMemory>
    ensures { IfOk result
        (λ r. r ≡ spec.typed_bare number (option_map (spec.typed items.now) payload.now)) }
{
    match payload {
        None => Ok(Some(RustValue::Case(number, None))),
        Some(payload) => match typed(payload.get(), alloc, items, &TypeExpr::Unit)? {
            None => Ok(None),
            Some(unit) => Ok(Some(RustValue::Case(number, Some(Boxed::new(alloc, unit)?)))),
        },
    }
}

/// A case with this payload, as one of an option of a type.
#[cycle(typed)]
fn typed_option(
    payload: &Option<Boxed<RustValue>>,
    alloc: Global,
    items: &[Item],
    number: u32,
    ty: &TypeExpr,
) -> Result<Option<RustValue>, OutOfMemory>
    ensures { IfOk result
        (λ r. r ≡ spec.typed_option number (option_map (spec.typed items.now) payload.now) ty.now) }
{
    match (number, payload) {
        (0, payload) => typed_bare(payload, alloc, items, 0),
        (1, Some(payload)) => match typed(payload.get(), alloc, items, ty)? {
            None => Ok(None),
            Some(r) => Ok(Some(RustValue::Case(1, Some(Boxed::new(alloc, r)?)))),
        },
        _ => Ok(None),
    }
}

/// A record, tuple or array of these parts, as one of a type that is no alias.
#[cycle(typed)]
fn typed_parts(
    parts: &[RustValue],
    alloc: Global,
    items: &[Item],
    ty: &TypeExpr,
) -> Result<Option<RustValue>, OutOfMemory>
    ensures { IfOk result
        (λ r. r ≡ option_map value.Struct (spec.typed_parts items.now (map (spec.typed items.now) parts.now) (out-TypeExpr ty.now))) }
{
    let mut whole = List::new(alloc);
    let all = match ty {
        TypeExpr::Tuple(types) => push_typed(parts, alloc, items, &mut whole, types.as_slice())?,
        TypeExpr::Array(ty, n) if parts.len() == *n as usize => {
            push_typed_alike(parts, alloc, items, &mut whole, ty.get())?
        }
        TypeExpr::Path(path) => match type_at(items, path) {
            Some(TypeItem::Struct(s)) => {
                push_typed_fields(parts, alloc, items, &mut whole, s.fields.as_slice())?
            }
            _ => false,
        },
        _ => false,
    };
    if all {
        Ok(Some(RustValue::Struct(whole)))
    } else {
        Ok(None)
    }
}

/// Puts values behind others, and tells whether each is of its type.
#[cycle(typed)]
fn push_typed(
    parts: &[RustValue],
    alloc: Global,
    items: &[Item],
    whole: &mut List<RustValue>,
    types: &[TypeExpr],
) -> Result<bool, OutOfMemory>
    ensures { IfOk result
        (λ all. (if all then Some whole.new else None) ≡ option_map (λ rs. whole.old ++ rs) (spec.typed_each (map (spec.typed items.now) parts.now) types.now)) }
{
    let mut left = types;
    for part in parts {
        match left.split_first() {
            None => return Ok(false),
            Some((ty, more)) => match typed(part, alloc, items, ty)? {
                None => return Ok(false),
                Some(r) => {
                    whole.push(r)?;
                    left = more;
                }
            },
        }
    }
    match left.split_first() {
        None => Ok(true),
        Some(_) => Ok(false),
    }
}

/// Puts values behind others, and tells whether each is of a type.
#[cycle(typed)]
fn push_typed_alike(
    parts: &[RustValue],
    alloc: Global,
    items: &[Item],
    whole: &mut List<RustValue>,
    ty: &TypeExpr,
) -> Result<bool, OutOfMemory>
    ensures { IfOk result
        (λ all. (if all then Some whole.new else None) ≡ option_map (λ rs. whole.old ++ rs) (spec.typed_alike ty.now (map (spec.typed items.now) parts.now))) }
{
    for part in parts {
        match typed(part, alloc, items, ty)? {
            None => return Ok(false),
            Some(r) => whole.push(r)?,
        }
    }
    Ok(true)
}

/// Puts values behind others, and tells whether each is of its field's type.
#[cycle(typed)]
fn push_typed_fields(
    parts: &[RustValue],
    alloc: Global,
    items: &[Item],
    whole: &mut List<RustValue>,
    fields: &[StructField],
) -> Result<bool, OutOfMemory>
    ensures { IfOk result
        (λ all. (if all then Some whole.new else None) ≡ option_map (λ rs. whole.old ++ rs) (spec.typed_each (map (spec.typed items.now) parts.now) (map (λ f. f.ty) fields.now))) }
{
    let mut left = fields;
    for part in parts {
        match left.split_first() {
            None => return Ok(false),
            Some((f, more)) => match typed(part, alloc, items, &f.ty)? {
                None => return Ok(false),
                Some(r) => {
                    whole.push(r)?;
                    left = more;
                }
            },
        }
    }
    match left.split_first() {
        None => Ok(true),
        Some(_) => Ok(false),
    }
}

fn whole_as(
    alloc: Global,
    items: &[Item],
    ty: &TypeExpr,
    v: &Val,
) -> Result<Option<RustValue>, OutOfMemory>
    ensures { IfOk result (λ r. r ≡ spec.whole_as items.now ty.now v.now) }
{
    match v {
        Val::Value(value) => typed(value, alloc, items, ty),
        _ => Ok(None),
    }
}

/// What a function of a printed type answers: no value for `()`. Nothing, where the value is none of that type. Out of memory
/// where there is none for a copy.
pub fn answer_in(
    alloc: Global,
    items: &[Item],
    ty: &TypeExpr,
    v: &Val,
) -> Result<Option<Option<RustValue>>, OutOfMemory>
    ensures { IfOk result (λ answer. answer ≡ spec.answer_in items.now ty.now v.now) }
{
    if let Some(answer) = answer_of(unaliased(items, ty), v) {
        return Ok(Some(answer));
    }
    match whole_as(alloc, items, ty, v)? {
        None => Ok(None),
        Some(value) => Ok(Some(Some(value))),
    }
}
