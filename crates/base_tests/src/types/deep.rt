//! Tables that are deep.

ghost use Rattle.wit_model.specs.WellFormed.{IsWellFormed};

use crate::parts::{checked, docs, entry, no_name, of_types, push};
use std::alloc::Global;
use std::test::Fail;
use wit_layout::{SizeAlign, flat_types};
use wit_model::{Field, List, OutOfMemory, Resolve, TypeDefKind, TypeId, WitType};

fn record(alloc: Global, members: &[WitType]) -> Result<TypeDefKind, OutOfMemory> {
    let mut list = List::new(alloc);
    for ty in members {
        list.push(Field {
            name: no_name(alloc),
            ty: *ty,
            docs: docs(),
        })?;
    }
    Ok(TypeDefKind::Record(list))
}

/// A byte, and 20,000 records of which each holds the type before it and a byte more.
fn records(alloc: Global) -> Result<Resolve, OutOfMemory> {
    let mut types = List::new(alloc);
    push(&mut types, TypeDefKind::Alias(WitType::U8))?;
    for id in 0..20000 {
        push(&mut types, record(alloc, &[entry(id), WitType::U8])?)?;
    }
    Ok(of_types(alloc, types))
}

/// An option, and a hundred results of which each has the type before it as both payloads.
fn results(alloc: Global) -> Result<Resolve, OutOfMemory> {
    let mut types = List::new(alloc);
    push(&mut types, TypeDefKind::Option(WitType::U8))?;
    for id in 0..100 {
        let both = Some(entry(id));
        push(&mut types, TypeDefKind::Result(both, both))?;
    }
    Ok(of_types(alloc, types))
}

/// How many words of the type with this number are told, and whether there are more.
#[tactic(auto, unfolding(wit_model::specs::TypeOrder::type_below))]
fn told(resolve: &Resolve, id: u32) -> Option<(u32, bool)>
    requires { IsWellFormed resolve.now }
{
    if (id as usize) < resolve.types.len() {
        let flat = flat_types(resolve, &WitType::Id(TypeId(id)));
        return Some((flat.count, flat.more));
    }
    None
}

fn bytes_of(sizes: &SizeAlign, id: u32) -> u64 {
    let ty = WitType::Id(TypeId(id));
    if !sizes.has_size(&ty) {
        return 0;
    }
    sizes.size(&ty).bytes
}

#[test]
fn a_long_chain_of_records(rt: HostRuntime) -> Result<(), Fail> {
    let tables = checked(rt.alloc(), records(rt.alloc())?)?;
    assert!(rt; told(&tables, 15) == Some((16, false)));
    assert!(rt; told(&tables, 16) == Some((16, true)));
    assert!(rt; told(&tables, 20000) == Some((16, true)));
    let sizes = SizeAlign::fill(rt.alloc(), &tables)?;
    assert!(rt; bytes_of(&sizes, 20000) == 20001);
    Ok(())
}

#[test]
fn results_within_one_another_share_their_slots(rt: HostRuntime) -> Result<(), Fail> {
    let tables = checked(rt.alloc(), results(rt.alloc())?)?;
    assert!(rt; told(&tables, 14) == Some((16, false)));
    assert!(rt; told(&tables, 15) == Some((16, true)));
    assert!(rt; told(&tables, 100) == Some((16, true)));
    Ok(())
}
