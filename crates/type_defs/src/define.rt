//! The definitions of a world's types.

mod alias;
mod derives;
mod enums;
mod error_type;
mod flags;
mod options;
mod param;
mod part;
mod record;
mod results;
mod tuple;
mod variants;

ghost use Rattle.std.specs.Prelude.{◌≡◌, ◌++◌, ◌<◌, true, false, length, List, IfOk, OnOk};
ghost use Rattle.type_facts.specs.Facts.{IsAnalysis};
ghost use Rattle.type_defs.specs.Defined.{AreDefinitions, AreDefinitionsOf, are_defined_kinds, entry_definitions, entry_items, kind_items};
ghost use Rattle.type_defs.specs.Modes.{is_always_defined, is_owning, is_used, is_wanted};
ghost use Rattle.type_defs.specs.DefinedNames.{AreDefinable};
ghost use Rattle.rust_tree.specs.Ident.{type_ident};

use crate::define::alias::alias_item;
use crate::define::enums::enum_item;
pub use crate::define::enums::enum_repr;
use crate::define::flags::flags_item;
pub use crate::define::flags::flags_repr;
use crate::define::options::option_item;
pub use crate::define::param::param_type;
pub use crate::define::part::part_type;
use crate::define::record::record_item;
use crate::define::results::result_item;
use crate::define::tuple::tuple_item;
use crate::define::variants::variant_item;
use crate::listed_types::types_in;
use crate::printed_count::print_few;
use crate::type_opts::TypeOpts;
use rust_tree::TypeItem;
use std::alloc::Global;
use type_facts::{TypeInfo, Types};
use wit_model::{List, Name, OutOfMemory, Resolve, TypeDef, TypeDefKind, TypeId, World, WorldId};

/// Puts the definition of a type under its name behind others, by its kind.
fn push_kind(
    alloc: Global,
    items: &mut List<TypeItem>,
    types: &[TypeDef],
    info: TypeInfo,
    entry: &TypeDef,
    name: &Name,
) -> Result<(), OutOfMemory>
    ensures { OnOk result
        (items.new ≡ items.old ++ kind_items types.now info entry.now.docs (type_ident name.now) entry.now.kind) }
{
    let item = match &entry.kind {
        TypeDefKind::Record(fields) => record_item(
            alloc,
            types,
            info,
            entry,
            name,
            fields.as_slice(),
        )?,
        TypeDefKind::Alias(ty) => alias_item(alloc, types, entry, name, *ty)?,
        TypeDefKind::Tuple(parts) => tuple_item(alloc, types, entry, name, parts.as_slice())?,
        TypeDefKind::Option(ty) => option_item(alloc, types, entry, name, *ty)?,
        TypeDefKind::Result(ok, err) => result_item(alloc, types, entry, name, *ok, *err)?,
        TypeDefKind::Variant(cases) => variant_item(
            alloc,
            types,
            info,
            entry,
            name,
            cases.as_slice(),
        )?,
        TypeDefKind::Enum(cases) => enum_item(alloc, info, entry, name, cases.as_slice())?,
        TypeDefKind::Flags(members) => flags_item(alloc, entry, name, members.as_slice())?,
        _ => return Ok(()),
    };
    items.push(item)
}

/// Whether a type of this kind is defined even if no function uses it.
fn is_always_defined(kind: &TypeDefKind) -> bool
    ensures { result ≡ is_always_defined kind.now }
{
    matches!(
        kind,
        TypeDefKind::Enum(_) | TypeDefKind::Flags(_) | TypeDefKind::Resource
    )
}

/// Whether a function uses a type with these facts, which has a name.
pub fn is_used(info: TypeInfo) -> bool
    ensures { result ≡ is_used info }
{
    info.owned || info.borrowed
}

/// Whether a type is defined: by its kind, or since a function uses it, or unused types are asked for.
pub(crate) fn is_defined(opts: TypeOpts, info: TypeInfo, kind: &TypeDefKind) -> bool
    ensures { result ≡ is_wanted opts info kind.now }
{
    is_always_defined(kind) || is_used(info) || opts.generate_unused_types
}

/// Puts the definitions of an entry of the table behind others.
fn push_entry(
    alloc: Global,
    items: &mut List<TypeItem>,
    opts: TypeOpts,
    types: &[TypeDef],
    info: TypeInfo,
    entry: &TypeDef,
) -> Result<(), OutOfMemory>
    requires owning { is_owning opts.ownership ≡ true }
    requires owned { info.has_borrow_handle ≡ false }
    ensures { OnOk result
        (items.new ≡ items.old ++ entry_items types.now info entry.now (entry_definitions opts info entry.now.kind entry.now.name)) }
{
    let Some(name) = &entry.name else {
        return Ok(());
    };
    if !is_defined(opts, info, &entry.kind) {
        return Ok(());
    }
    push_kind(alloc, items, types, info, entry, name)
}

/// Puts the definitions of a type of the table behind others.
fn push_type(
    alloc: Global,
    items: &mut List<TypeItem>,
    opts: TypeOpts,
    resolve: &Resolve,
    facts: &Types,
    id: TypeId,
) -> Result<(), OutOfMemory>
    requires owning { is_owning opts.ownership ≡ true }
    requires kinds { are_defined_kinds resolve.now.types ≡ true }
    requires analyzed { (world : WorldId) × IsAnalysis resolve.now world facts.now }
    requires within { id.0 < length resolve.now.types }
    ensures { OnOk result
        ((own : List TypeItem) × (items.new ≡ items.old ++ own) × ((world : WorldId) → IsAnalysis resolve.now world facts.now → AreDefinitionsOf opts resolve.now world id own)) }
{
    let types = resolve.types.as_slice();
    push_entry(
        alloc,
        items,
        opts,
        types,
        facts.get(id),
        &types[id.0 as usize],
    )?;
    Ok(())
}

/// The definitions of the types that a world lists itself, in its order, by the facts of the types in this world. `OutOfMemory` comes where
/// there is no memory for a definition, or for a mark for each type, and where they would print more than 2^27 types: that is counted before one of them is made.
pub fn definitions_of(
    alloc: Global,
    opts: TypeOpts,
    resolve: &Resolve,
    facts: &Types,
    world: &World,
) -> Result<List<TypeItem>, OutOfMemory>
    requires { (id : WorldId) × AreDefinable opts resolve.now id world.now × IsAnalysis resolve.now id facts.now }
    ensures { IfOk result (λ items. (id : WorldId) → IsAnalysis resolve.now id facts.now → AreDefinitions opts resolve.now id world.now items) }
{
    let ids = types_in(alloc, world.imports.as_slice())?;
    if !print_few(alloc, opts, resolve, facts, ids.as_slice())? {
        return Err(OutOfMemory);
    }
    let mut items = List::new(alloc);
    for own in ids.as_slice() {
        push_type(alloc, &mut items, opts, resolve, facts, *own)?;
    }
    Ok(items)
}
