//! Calls that nothing else makes here, each with its answer.

ghost use Rattle.wit_model.specs.WellFormed.{IsWellFormed};

use crate::parts::{checked, docs, entry, no_name, of_types, push};
use std::alloc::Global;
use std::test::Fail;
use wit_layout::SizeAlign;
use wit_model::{
    Alignment, ArchitectureSize, ConstructorReturn, Function, FunctionKind, Handle, List,
    OutOfMemory, Resolve, TypeDefKind, TypeId, WitType, classify_constructor,
};

#[test]
fn sizes_are_written_as_expressions(rt: HostRuntime) -> Result<(), Fail> {
    let size = ArchitectureSize {
        bytes: 4,
        pointers: 2,
    };
    let plain = size.format_term(rt.alloc(), true)?;
    assert!(rt; plain.as_str() == "4+2*::core::mem::size_of::<*const u8>()");
    let bracketed = size.format(rt.alloc())?;
    assert!(rt; bracketed.as_str() == "(4+2*::core::mem::size_of::<*const u8>())");
    let align = Alignment::Pointer.format(rt.alloc())?;
    assert!(rt; align.as_str() == "::core::mem::size_of::<*const u8>()");
    Ok(())
}

/// Where a text stands behind a byte.
#[tactic(auto, unfolding(wit_model::specs::TypeOrder::type_below))]
fn text_behind_a_byte(alloc: Global, resolve: &Resolve) -> Result<ArchitectureSize, Fail>
    requires { IsWellFormed resolve.now }
{
    let sizes = SizeAlign::fill(alloc, resolve)?;
    Ok(sizes.offset_in(&[WitType::U8, WitType::String], 1))
}

#[test]
fn a_text_stands_one_pointer_behind_a_byte(rt: HostRuntime) -> Result<(), Fail> {
    let tables = checked(rt.alloc(), of_types(rt.alloc(), List::new(rt.alloc())))?;
    let pointer = ArchitectureSize {
        bytes: 0,
        pointers: 1,
    };
    assert!(rt; text_behind_a_byte(rt.alloc(), &tables)? == pointer);
    Ok(())
}

/// A resource, an own handle of it, and a result with such a handle and a text as its error.
fn resource(alloc: Global) -> Result<Resolve, OutOfMemory> {
    let mut types = List::new(alloc);
    push(&mut types, TypeDefKind::Resource)?;
    push(&mut types, TypeDefKind::Handle(Handle::Own(TypeId(0))))?;
    let fallible = TypeDefKind::Result(Some(entry(1)), Some(WitType::String));
    push(&mut types, fallible)?;
    Ok(of_types(alloc, types))
}

/// What a constructor with this type as its result gives.
fn given(alloc: Global, resolve: &Resolve, id: u32) -> ConstructorReturn
    requires { IsWellFormed resolve.now }
{
    let func = Function {
        name: no_name(alloc),
        kind: FunctionKind::Constructor(TypeId(0)),
        params: List::new(alloc),
        result: Some(entry(id)),
        docs: docs(),
    };
    classify_constructor(resolve, &func)
}

#[test]
fn constructors_give_a_resource_or_a_result(rt: HostRuntime) -> Result<(), Fail> {
    let tables = checked(rt.alloc(), resource(rt.alloc())?)?;
    let error = Some(WitType::String);
    assert!(rt; given(rt.alloc(), &tables, 1) == ConstructorReturn::Itself);
    assert!(rt; given(rt.alloc(), &tables, 2) == ConstructorReturn::Fallible(error));
    Ok(())
}
