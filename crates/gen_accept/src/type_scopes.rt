//! Which names the definitions of types declare, in a scope for each type.

ghost use Rattle.std.specs.Prelude.{◌≡◌, ◌++◌, IfOk, OnOk, map};
ghost use Rattle.rust_tree.specs.Ident.{rust_ident};
ghost use Rattle.gen_accept.specs.declared.declared.Sort.TheVariants.{Value};
ghost use Rattle.gen_accept.specs.DeclaredNames.{all_declared, field_scope, member_scope};
ghost use Rattle.type_defs.specs.PrintedTypes.{field_names, member_names};

use crate::declared::{Declared, NameScope, Sort};
use rust_tree::to_rust_ident;
use std::alloc::Global;
use type_defs::type_name;
use wit_model::{Case, Field, List, Member, OutOfMemory, TypeDef, TypeDefKind};

fn declare_fields(
    alloc: Global,
    names: &mut List<Declared>,
    fields: &[Field],
) -> Result<(), OutOfMemory>
    ensures { OnOk result
        (names.new ≡ names.old ++ all_declared Value (map (λ f. rust_ident f.name) fields.now)) }
{
    for field in fields {
        names.push(Declared {
            sort: Sort::Value,
            name: to_rust_ident(alloc, &field.name)?,
        })?;
    }
    Ok(())
}

fn declare_field_names(
    alloc: Global,
    names: &mut List<Declared>,
    kind: &TypeDefKind,
) -> Result<(), OutOfMemory>
    ensures { OnOk result (names.new ≡ names.old ++ all_declared Value (field_names kind.now)) }
{
    match kind {
        TypeDefKind::Record(fields) => declare_fields(alloc, names, fields.as_slice()),
        _ => Ok(()),
    }
}

fn field_scope(alloc: Global, entry: &TypeDef) -> Result<NameScope, OutOfMemory>
    ensures { IfOk result (λ scope. scope ≡ field_scope entry.now) }
{
    let mut names = List::new(alloc);
    declare_field_names(alloc, &mut names, &entry.kind)?;
    Ok(NameScope {
        name: type_name(alloc, entry)?,
        names,
    })
}

/// Puts the fields of each record behind other scopes.
pub(crate) fn push_field_scopes(
    alloc: Global,
    scopes: &mut List<NameScope>,
    defined: &[&TypeDef],
) -> Result<(), OutOfMemory>
    ensures { OnOk result
        (scopes.new ≡ scopes.old ++ map field_scope (map (λ t. t.now) defined.now)) }
{
    for entry in defined {
        scopes.push(field_scope(alloc, entry)?)?;
    }
    Ok(())
}

fn declare_variant_cases(
    alloc: Global,
    names: &mut List<Declared>,
    cases: &[Case],
) -> Result<(), OutOfMemory>
    ensures { OnOk result
        (names.new ≡ names.old ++ all_declared Value (map (λ c. c.name.camel) cases.now)) }
{
    for case in cases {
        names.push(Declared {
            sort: Sort::Value,
            name: case.name.camel.copy(alloc)?,
        })?;
    }
    Ok(())
}

fn declare_cases(
    alloc: Global,
    names: &mut List<Declared>,
    cases: &[Member],
) -> Result<(), OutOfMemory>
    ensures { OnOk result
        (names.new ≡ names.old ++ all_declared Value (map (λ c. c.name.camel) cases.now)) }
{
    for case in cases {
        names.push(Declared {
            sort: Sort::Value,
            name: case.name.camel.copy(alloc)?,
        })?;
    }
    Ok(())
}

fn declare_flags(
    alloc: Global,
    names: &mut List<Declared>,
    members: &[Member],
) -> Result<(), OutOfMemory>
    ensures { OnOk result
        (names.new ≡ names.old ++ all_declared Value (map (λ m. m.name.upper) members.now)) }
{
    for member in members {
        names.push(Declared {
            sort: Sort::Value,
            name: member.name.upper.copy(alloc)?,
        })?;
    }
    Ok(())
}

fn declare_member_names(
    alloc: Global,
    names: &mut List<Declared>,
    kind: &TypeDefKind,
) -> Result<(), OutOfMemory>
    ensures { OnOk result (names.new ≡ names.old ++ all_declared Value (member_names kind.now)) }
{
    match kind {
        TypeDefKind::Variant(cases) => declare_variant_cases(alloc, names, cases.as_slice()),
        TypeDefKind::Enum(cases) => declare_cases(alloc, names, cases.as_slice()),
        TypeDefKind::Flags(members) => declare_flags(alloc, names, members.as_slice()),
        _ => Ok(()),
    }
}

fn member_scope(alloc: Global, entry: &TypeDef) -> Result<NameScope, OutOfMemory>
    ensures { IfOk result (λ scope. scope ≡ member_scope entry.now) }
{
    let mut names = List::new(alloc);
    declare_member_names(alloc, &mut names, &entry.kind)?;
    Ok(NameScope {
        name: type_name(alloc, entry)?,
        names,
    })
}

/// Puts the cases of each variant and enum, and the members of each flags type, behind other scopes.
pub(crate) fn push_member_scopes(
    alloc: Global,
    scopes: &mut List<NameScope>,
    defined: &[&TypeDef],
) -> Result<(), OutOfMemory>
    ensures { OnOk result
        (scopes.new ≡ scopes.old ++ map member_scope (map (λ t. t.now) defined.now)) }
{
    for entry in defined {
        scopes.push(member_scope(alloc, entry)?)?;
    }
    Ok(())
}
