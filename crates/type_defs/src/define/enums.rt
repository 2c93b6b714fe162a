//! The definition of an enum.

ghost use Rattle.std.specs.Prelude.{◌≡◌, IfOk, map};
ghost use Rattle.type_defs.specs.EnumDef.{enum_case, enum_error, enum_item, enum_repr, error_case};
ghost use Rattle.rust_tree.specs.Ident.{type_ident};
ghost use Rattle.rust_tree.specs.declared.type_item.TypeItem.TheVariants as item;

use crate::define::derives::enum_derives;
use crate::docs::{doc_lines, trimmed_docs};
use rust_tree::{EnumCase, EnumItem, ErrorCase, ErrorEnum, Repr, TypeItem, to_upper_camel_case};
use std::alloc::Global;
use type_facts::TypeInfo;
use wit_model::{List, Member, Name, OutOfMemory, TypeDef};

/// The whole number that holds a case of an enum with so many.
pub fn enum_repr(count: usize) -> Repr
    ensures { result ≡ enum_repr count }
{
    if count <= 256 {
        Repr::U8
    } else if count <= 65_536 {
        Repr::U16
    } else {
        Repr::U32
    }
}

fn enum_case(alloc: Global, case: &Member) -> Result<EnumCase, OutOfMemory>
    ensures { IfOk result (λ c. c ≡ enum_case case.now) }
{
    Ok(EnumCase {
        docs: doc_lines(alloc, &case.docs)?,
        name: case.name.camel.copy(alloc)?,
    })
}

fn enum_cases(alloc: Global, cases: &[Member]) -> Result<List<EnumCase>, OutOfMemory>
    ensures { IfOk result (λ items. items ≡ map enum_case cases.now) }
{
    let mut items = List::new(alloc);
    for case in cases {
        items.push(enum_case(alloc, case)?)?;
    }
    Ok(items)
}

fn error_case(alloc: Global, case: &Member) -> Result<ErrorCase, OutOfMemory>
    ensures { IfOk result (λ c. c ≡ error_case case.now) }
{
    Ok(ErrorCase {
        name: case.name.camel.copy(alloc)?,
        wit: case.name.wit.copy(alloc)?,
        message: trimmed_docs(alloc, &case.docs)?,
    })
}

fn error_cases(alloc: Global, cases: &[Member]) -> Result<List<ErrorCase>, OutOfMemory>
    ensures { IfOk result (λ items. items ≡ map error_case cases.now) }
{
    let mut items = List::new(alloc);
    for case in cases {
        items.push(error_case(alloc, case)?)?;
    }
    Ok(items)
}

/// What an error type has besides.
fn enum_error(
    alloc: Global,
    info: TypeInfo,
    cases: &[Member],
) -> Result<Option<ErrorEnum>, OutOfMemory>
    ensures { IfOk result (λ error. error ≡ enum_error info cases.now) }
{
    if !info.error {
        return Ok(None);
    }
    Ok(Some(ErrorEnum {
        std_feature: false,
        cases: error_cases(alloc, cases)?,
    }))
}

/// The definition of an enum.
pub(crate) fn enum_item(
    alloc: Global,
    info: TypeInfo,
    entry: &TypeDef,
    name: &Name,
    cases: &[Member],
) -> Result<TypeItem, OutOfMemory>
    ensures { IfOk result
        (λ it. it ≡ item.Enum (enum_item info entry.now.docs (type_ident name.now) cases.now)) }
{
    let docs = doc_lines(alloc, &entry.docs)?;
    let derives = enum_derives(alloc)?;
    let name = to_upper_camel_case(alloc, name)?;
    let error = enum_error(alloc, info, cases)?;
    Ok(TypeItem::Enum(EnumItem {
        docs,
        repr: enum_repr(cases.len()),
        derives,
        name,
        cases: enum_cases(alloc, cases)?,
        error,
    }))
}
