//! Whether names and versions are written as WIT writes them.

ghost use Rattle.std.specs.Prelude.{◌≡◌};
ghost use Rattle.std.specs.List.{list_all};
ghost use Rattle.gen_accept.specs.NameText.{is_version_mark, is_version_char, is_version, is_written_package, are_written_members, is_written_type, is_written_type_name, is_written_function, is_written_item, is_written_key, is_written_entry, is_written_world, are_written_tables};
ghost use Rattle.type_defs.specs.WitForm.{is_nonempty, is_name_char, is_wit_form};

use wit_model::{
    Case, Field, Function, Member, Name, Package, Param, Resolve, Text, TypeDef, TypeDefKind,
    World, WorldItem, WorldKey,
};

fn is_name_char(c: u8) -> bool
    ensures { result ≡ is_name_char c }
{
    c.is_ascii_alphabetic() || c.is_ascii_digit() || c == b'-'
}

fn are_name_chars(bytes: &[u8]) -> bool
    ensures { result ≡ list_all is_name_char bytes.now }
{
    bytes.iter().all(|c| is_name_char(*c))
}

fn is_nonempty(bytes: &[u8]) -> bool
    ensures { result ≡ is_nonempty bytes.now }
{
    match bytes {
        [] => false,
        _ => true,
    }
}

fn is_wit_form(text: &Text) -> bool
    ensures { result ≡ is_wit_form text.now }
{
    let bytes = text.as_str().as_bytes();
    is_nonempty(bytes) && are_name_chars(bytes)
}

fn is_version_mark(c: u8) -> bool
    ensures { result ≡ is_version_mark c }
{
    !(c == b'"' || c == b'\\' || c == b'/' || c == b'#' || c == b':')
}

fn is_version_char(c: u8) -> bool
    ensures { result ≡ is_version_char c }
{
    33 <= c && c <= 126 && is_version_mark(c)
}

fn are_version_chars(bytes: &[u8]) -> bool
    ensures { result ≡ list_all is_version_char bytes.now }
{
    bytes.iter().all(|c| is_version_char(*c))
}

fn is_version(version: &Option<Text>) -> bool
    ensures { result ≡ is_version version.now }
{
    match version {
        None => true,
        Some(text) => is_nonempty(text.as_str().as_bytes())
            && are_version_chars(text.as_str().as_bytes()),
    }
}

fn is_written_package(p: &Package) -> bool
    ensures { result ≡ is_written_package p.now }
{
    is_wit_form(&p.namespace.wit) && is_wit_form(&p.name.wit) && is_version(&p.version)
}

fn are_written_packages(packages: &[Package]) -> bool
    ensures { result ≡ list_all is_written_package packages.now }
{
    packages.iter().all(|p| is_written_package(p))
}

fn are_written_params(params: &[Param]) -> bool
    ensures { result ≡ list_all (λ p. is_wit_form p.name.wit) params.now }
{
    params.iter().all(|p| is_wit_form(&p.name.wit))
}

fn is_written_function(f: &Function) -> bool
    ensures { result ≡ is_written_function f.now }
{
    is_wit_form(&f.name.wit) && are_written_params(f.params.as_slice())
}

fn is_written_type_name(name: &Option<Name>) -> bool
    ensures { result ≡ is_written_type_name name.now }
{
    match name {
        None => true,
        Some(name) => is_wit_form(&name.wit),
    }
}

fn are_written_fields(fields: &[Field]) -> bool
    ensures { result ≡ list_all (λ f. is_wit_form f.name.wit) fields.now }
{
    fields.iter().all(|field| is_wit_form(&field.name.wit))
}

fn are_written_cases(cases: &[Case]) -> bool
    ensures { result ≡ list_all (λ c. is_wit_form c.name.wit) cases.now }
{
    cases.iter().all(|case| is_wit_form(&case.name.wit))
}

fn are_written_labels(members: &[Member]) -> bool
    ensures { result ≡ list_all (λ m. is_wit_form m.name.wit) members.now }
{
    members.iter().all(|member| is_wit_form(&member.name.wit))
}

fn are_written_members(kind: &TypeDefKind) -> bool
    ensures { result ≡ are_written_members kind.now }
{
    match kind {
        TypeDefKind::Record(fields) => are_written_fields(fields.as_slice()),
        TypeDefKind::Variant(cases) => are_written_cases(cases.as_slice()),
        TypeDefKind::Enum(members) => are_written_labels(members.as_slice()),
        TypeDefKind::Flags(members) => are_written_labels(members.as_slice()),
        _ => true,
    }
}

fn is_written_type(entry: &TypeDef) -> bool
    ensures { result ≡ is_written_type entry.now }
{
    is_written_type_name(&entry.name) && are_written_members(&entry.kind)
}

fn are_written_types(types: &[TypeDef]) -> bool
    ensures { result ≡ list_all is_written_type types.now }
{
    types.iter().all(|entry| is_written_type(entry))
}

fn is_written_item(item: &WorldItem) -> bool
    ensures { result ≡ is_written_item item.now }
{
    match item {
        WorldItem::Function(f) => is_written_function(f),
        WorldItem::Interface(_) => true,
        WorldItem::Named(_) => true,
    }
}

fn is_written_key(key: &WorldKey) -> bool
    ensures { result ≡ is_written_key key.now }
{
    match key {
        WorldKey::Name(name) => is_wit_form(&name.wit),
        WorldKey::Interface(_) => false,
    }
}

fn are_written_entries(entries: &[(WorldKey, WorldItem)]) -> bool
    ensures { result ≡ list_all is_written_entry entries.now }
{
    entries.iter().all(|entry| is_written_entry(entry))
}

fn is_written_entry(entry: &(WorldKey, WorldItem)) -> bool
    ensures { result ≡ is_written_entry entry.now }
{
    is_written_key(&entry.0) && is_written_item(&entry.1)
}

fn is_written_world(world: &World) -> bool
    ensures { result ≡ is_written_world world.now }
{
    is_wit_form(&world.name.wit)
        && are_written_entries(world.imports.as_slice())
        && are_written_entries(world.exports.as_slice())
}

fn are_written_worlds(worlds: &[World]) -> bool
    ensures { result ≡ list_all is_written_world worlds.now }
{
    worlds.iter().all(|world| is_written_world(world))
}

/// Whether every name and version of the tables is written as WIT writes it, and every function and type stands under a
/// name.
#[tactic(auto, unfolding(crate::specs::NameText::are_written_tables))]
pub(crate) fn are_written_tables(resolve: &Resolve) -> bool
    ensures { result ≡ are_written_tables resolve.now }
{
    are_written_packages(resolve.packages.as_slice())
        && are_written_types(resolve.types.as_slice())
        && are_written_worlds(resolve.worlds.as_slice())
}
