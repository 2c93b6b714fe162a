//! How the types that the functions of a world use are written.

ghost use Rattle.std.specs.Prelude.{◌≡◌, ◌||◌, None, Some, true, IfOk, if◌then◌else◌, length, map, slice_get};
ghost use Rattle.wit_model.specs.WellFormed.{IsWellFormed};
ghost use Rattle.wit_model.specs.declared.world.World.{World};
ghost use Rattle.type_facts.specs.Facts.{IsAnalysis, IsAnalyzed};
ghost use Rattle.rust_tree.specs.Ident.{rust_ident, type_ident};
ghost use Rattle.type_defs.specs.Levels.{are_shallow};
ghost use Rattle.type_defs.specs.Modes.{is_used};
ghost use Rattle.type_sites.specs.Sites.{enum_site, flags_site, record_site, site_by, site_of, type_sites, variant_site};

use func_gen::{EnumSite, FlagsSite, RecordSite, TypeSite, VariantSite};
use rust_tree::{to_rust_ident, to_upper_camel_case};
use std::alloc::Global;
use type_defs::{enum_repr, flags_repr, is_used, local_path};
use type_facts::{TypeInfo, Types};
use wit_model::{
    Case, Field, List, Member, Name, OutOfMemory, Resolve, Text, TypeDef, TypeDefKind, TypeId,
    WorldId,
};

fn field_idents(alloc: Global, fields: &[Field]) -> Result<List<Text>, OutOfMemory>
    ensures { IfOk result (λ idents. idents ≡ map (λ f. rust_ident f.name) fields.now) }
{
    let mut idents = List::new(alloc);
    for field in fields {
        idents.push(to_rust_ident(alloc, &field.name)?)?;
    }
    Ok(idents)
}

/// A record of this name.
fn record_site(alloc: Global, name: &Name, fields: &[Field]) -> Result<RecordSite, OutOfMemory>
    ensures { IfOk result (λ site. site ≡ record_site (type_ident name.now) fields.now) }
{
    let lifted = to_upper_camel_case(alloc, name)?;
    let lowered = to_upper_camel_case(alloc, name)?;
    Ok(RecordSite {
        lifted: local_path(alloc, lifted)?,
        lowered: local_path(alloc, lowered)?,
        fields: field_idents(alloc, fields)?,
    })
}

fn case_names(alloc: Global, cases: &[Case]) -> Result<List<Text>, OutOfMemory>
    ensures { IfOk result (λ names. names ≡ map (λ c. c.name.camel) cases.now) }
{
    let mut names = List::new(alloc);
    for case in cases {
        names.push(case.name.camel.copy(alloc)?)?;
    }
    Ok(names)
}

/// A variant of this name.
fn variant_site(alloc: Global, name: &Name, cases: &[Case]) -> Result<VariantSite, OutOfMemory>
    ensures { IfOk result (λ site. site ≡ variant_site (type_ident name.now) cases.now) }
{
    let lifted = to_upper_camel_case(alloc, name)?;
    let lowered = to_upper_camel_case(alloc, name)?;
    Ok(VariantSite {
        lifted: local_path(alloc, lifted)?,
        lowered: local_path(alloc, lowered)?,
        cases: case_names(alloc, cases)?,
    })
}

/// How many members there are, which fits in 32 bits or is answered by `OutOfMemory`.
fn member_count(members: &[Member]) -> Result<u32, OutOfMemory>
    ensures { IfOk result (λ n. n ≡ length members.now) }
{
    match u32::try_from(members.len()) {
        Ok(count) => Ok(count),
        Err(_) => Err(OutOfMemory),
    }
}

/// An enum of this name.
fn enum_site(alloc: Global, name: &Name, cases: &[Member]) -> Result<EnumSite, OutOfMemory>
    ensures { IfOk result (λ site. site ≡ enum_site (type_ident name.now) cases.now) }
{
    let name = to_upper_camel_case(alloc, name)?;
    Ok(EnumSite {
        path: local_path(alloc, name)?,
        repr: enum_repr(cases.len()),
        cases: member_count(cases)?,
    })
}

/// A flags type of this name.
fn flags_site(alloc: Global, name: &Name, members: &[Member]) -> Result<FlagsSite, OutOfMemory>
    ensures { IfOk result (λ site. site ≡ flags_site (type_ident name.now) members.now) }
{
    let name = to_upper_camel_case(alloc, name)?;
    Ok(FlagsSite {
        path: local_path(alloc, name)?,
        repr: flags_repr(members.len()),
        members: member_count(members)?,
    })
}

/// A type of this kind and name.
fn site_by(alloc: Global, kind: &TypeDefKind, name: &Name) -> Result<Option<TypeSite>, OutOfMemory>
    ensures { IfOk result (λ site. site ≡ site_by kind.now (Some name.now)) }
{
    match kind {
        TypeDefKind::Record(fields) => {
            let site = record_site(alloc, name, fields.as_slice())?;
            Ok(Some(TypeSite::Record(site)))
        }
        TypeDefKind::Enum(cases) => {
            let site = enum_site(alloc, name, cases.as_slice())?;
            Ok(Some(TypeSite::Enum(site)))
        }
        TypeDefKind::Flags(members) => {
            let site = flags_site(alloc, name, members.as_slice())?;
            Ok(Some(TypeSite::Flags(site)))
        }
        TypeDefKind::Variant(cases) => {
            let site = variant_site(alloc, name, cases.as_slice())?;
            Ok(Some(TypeSite::Variant(site)))
        }
        _ => Ok(None),
    }
}

fn site_of(alloc: Global, entry: &TypeDef) -> Result<Option<TypeSite>, OutOfMemory>
    ensures { IfOk result (λ site. site ≡ site_of entry.now) }
{
    match &entry.name {
        None => Ok(None),
        Some(name) => site_by(alloc, &entry.kind, name),
    }
}

/// An entry of the table of which these facts hold.
fn site_where(
    alloc: Global,
    info: TypeInfo,
    entry: &TypeDef,
) -> Result<Option<TypeSite>, OutOfMemory>
    ensures { IfOk result (λ site. site ≡ (if is_used info then site_of entry.now else None)) }
{
    if is_used(info) {
        return site_of(alloc, entry);
    }
    Ok(None)
}

/// By the number of a type, how it is written if a function of the world uses it. A type that no function uses, or without a name, is
/// written nowhere. The tables are those that [`wit_model::Resolve::check`] has passed, and the facts are those of their types.
///
/// It goes over the table once. `OutOfMemory` comes where there is no memory for a site of each entry.
pub fn type_sites(
    alloc: Global,
    resolve: &Resolve,
    facts: &Types,
) -> Result<List<Option<TypeSite>>, OutOfMemory>
    requires well { IsWellFormed resolve.now }
    requires analyzed { IsAnalyzed resolve.now facts.now }
    ensures { IfOk result
        (λ sites. (id : WorldId) (world : World) → IsAnalysis resolve.now id facts.now → slice_get resolve.now.worlds id.0 ≡ Some world → are_shallow resolve.now.types ≡ true → sites ≡ type_sites resolve.now world) }
{
    let mut sites = List::new(alloc);
    for (number, entry) in resolve.types.as_slice().iter().enumerate() {
        let info = facts.get(TypeId(number as u32));
        sites.push(site_where(alloc, info, entry)?)?;
    }
    Ok(sites)
}
