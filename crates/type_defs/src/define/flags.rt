//! The definition of a flags type.

ghost use Rattle.std.specs.Prelude.{◌≡◌, IfOk, map};
ghost use Rattle.type_defs.specs.FlagsDef.{flags_item, flags_member, flags_repr};
ghost use Rattle.rust_tree.specs.Ident.{type_ident};
ghost use Rattle.rust_tree.specs.declared.type_item.TypeItem.TheVariants as item;

use crate::docs::doc_lines;
use crate::paths::bitflags_path;
use rust_tree::{FlagsItem, FlagsMember, Repr, TypeItem, to_upper_camel_case};
use std::alloc::Global;
use wit_model::{List, Member, Name, OutOfMemory, TypeDef};

/// The whole number that holds so many flags, which are 128 at most.
pub fn flags_repr(count: usize) -> Repr
    ensures { result ≡ flags_repr count }
{
    if count <= 8 {
        Repr::U8
    } else if count <= 16 {
        Repr::U16
    } else if count <= 32 {
        Repr::U32
    } else if count <= 64 {
        Repr::U64
    } else {
        Repr::U128
    }
}

fn flags_member(alloc: Global, member: &Member) -> Result<FlagsMember, OutOfMemory>
    ensures { IfOk result (λ m. m ≡ flags_member member.now) }
{
    Ok(FlagsMember {
        docs: doc_lines(alloc, &member.docs)?,
        name: member.name.upper.copy(alloc)?,
    })
}

fn flags_members(alloc: Global, members: &[Member]) -> Result<List<FlagsMember>, OutOfMemory>
    ensures { IfOk result (λ items. items ≡ map flags_member members.now) }
{
    let mut items = List::new(alloc);
    for member in members {
        items.push(flags_member(alloc, member)?)?;
    }
    Ok(items)
}

/// The definition of a flags type.
pub(crate) fn flags_item(
    alloc: Global,
    entry: &TypeDef,
    name: &Name,
    members: &[Member],
) -> Result<TypeItem, OutOfMemory>
    ensures { IfOk result
        (λ it. it ≡ item.Flags (flags_item entry.now.docs (type_ident name.now) members.now)) }
{
    let bitflags = bitflags_path(alloc)?;
    let docs = doc_lines(alloc, &entry.docs)?;
    let name = to_upper_camel_case(alloc, name)?;
    Ok(TypeItem::Flags(FlagsItem {
        bitflags,
        docs,
        name,
        repr: flags_repr(members.len()),
        members: flags_members(alloc, members)?,
    }))
}
