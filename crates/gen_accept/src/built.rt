//! Which tables and options hold only what the generator builds so far.

ghost use Rattle.std.specs.Prelude.{◌≡◌};
ghost use Rattle.std.specs.List.{list_all};
ghost use Rattle.gen_accept.specs.Built.{is_built_kind, is_freestanding, is_built_function, is_built_item, is_empty, is_no_type, is_built_world, are_built_tables, are_flags_off, are_lists_empty, are_values_absent, are_built_options};
ghost use Rattle.type_defs.specs.Defined.{is_defined_part, is_defined_type};
ghost use Rattle.type_defs.specs.FunctionTypes.{function_passes};
ghost use Rattle.type_defs.specs.Modes.{is_owning};

use crate::opts::Opts;
use type_defs::Ownership;
use wit_model::{
    Case, Field, Function, FunctionKind, List, Param, Resolve, TypeDef, TypeDefKind, WitType,
    World, WorldItem, WorldKey,
};

/// So many cases have numbers that a word of 32 bits keeps without its sign.
const MOST_CASES: usize = 0x8000_0000;

fn is_defined_type(ty: WitType) -> bool
    ensures { result ≡ is_defined_type ty }
{
    !matches!(ty, WitType::ErrorContext)
}

/// A result, or a payload, if there is one.
fn is_defined_part(part: &Option<WitType>) -> bool
    ensures { result ≡ is_defined_part part.now }
{
    match part {
        None => true,
        Some(ty) => is_defined_type(*ty),
    }
}

fn is_freestanding(kind: FunctionKind) -> bool
    ensures { result ≡ is_freestanding kind }
{
    matches!(kind, FunctionKind::Freestanding)
}

fn are_defined_params(params: &[Param]) -> bool
    ensures { result ≡ list_all (λ p. is_defined_type p.ty) params.now }
{
    params.iter().all(|p| is_defined_type(p.ty))
}

fn has_defined_types(f: &Function) -> bool
    ensures { result ≡ function_passes is_defined_type f.now }
{
    are_defined_params(f.params.as_slice()) && is_defined_part(&f.result)
}

fn is_built_function(f: &Function) -> bool
    ensures { result ≡ is_built_function f.now }
{
    is_freestanding(f.kind) && has_defined_types(f)
}

fn is_built_item(item: &WorldItem) -> bool
    ensures { result ≡ is_built_item item.now }
{
    match item {
        WorldItem::Function(f) => is_built_function(f),
        WorldItem::Named(_) => true,
        WorldItem::Interface(_) => false,
    }
}

fn is_no_type(item: &WorldItem) -> bool
    ensures { result ≡ is_no_type item.now }
{
    !matches!(item, WorldItem::Named(_))
}

fn are_no_types(entries: &[(WorldKey, WorldItem)]) -> bool
    ensures { result ≡ list_all (λ entry. is_no_type entry.1) entries.now }
{
    entries.iter().all(|entry| is_no_type(&entry.1))
}

fn is_empty<T>(list: &List<T>) -> bool
    ensures { result ≡ is_empty list.now }
{
    match list.as_slice() {
        [] => true,
        _ => false,
    }
}

fn are_built_items(entries: &[(WorldKey, WorldItem)]) -> bool
    ensures { result ≡ list_all (λ entry. is_built_item entry.1) entries.now }
{
    entries.iter().all(|entry| is_built_item(&entry.1))
}

#[tactic(auto, unfolding(crate::specs::Built::is_built_world))]
fn is_built_world(world: &World) -> bool
    ensures { result ≡ is_built_world world.now }
{
    are_built_items(world.imports.as_slice())
        && are_built_items(world.exports.as_slice())
        && are_no_types(world.exports.as_slice())
}

fn are_built_worlds(worlds: &[World]) -> bool
    ensures { result ≡ list_all is_built_world worlds.now }
{
    worlds.iter().all(|world| is_built_world(world))
}

fn are_built_parts(members: &[WitType]) -> bool
    ensures { result ≡ list_all is_defined_type members.now }
{
    members.iter().all(|ty| is_defined_type(*ty))
}

fn are_built_fields(fields: &[Field]) -> bool
    ensures { result ≡ list_all (λ f. is_defined_type f.ty) fields.now }
{
    fields.iter().all(|field| is_defined_type(field.ty))
}

fn are_built_cases(cases: &[Case]) -> bool
    ensures { result ≡ list_all (λ c. is_defined_part c.ty) cases.now }
{
    cases.iter().all(|case| is_defined_part(&case.ty))
}

fn is_built_kind(kind: &TypeDefKind) -> bool
    ensures { result ≡ is_built_kind kind.now }
{
    match kind {
        TypeDefKind::Alias(ty) => is_defined_type(*ty),
        TypeDefKind::Tuple(members) => are_built_parts(members.as_slice()),
        TypeDefKind::Record(fields) => are_built_fields(fields.as_slice()),
        TypeDefKind::Option(ty) => is_defined_type(*ty),
        TypeDefKind::Result(ok, err) => is_defined_part(ok) && is_defined_part(err),
        TypeDefKind::Variant(cases) => {
            cases.len() <= MOST_CASES && are_built_cases(cases.as_slice())
        }
        TypeDefKind::Enum(cases) => cases.len() <= MOST_CASES,
        TypeDefKind::Flags(members) => members.len() <= 128,
        _ => false,
    }
}

fn are_built_kinds(types: &[TypeDef]) -> bool
    ensures { result ≡ list_all (λ t. is_built_kind t.kind) types.now }
{
    types.iter().all(|entry| is_built_kind(&entry.kind))
}

/// Whether the tables hold only worlds of functions, and of types which a world may import: aliases, records, tuples, options,
/// results, variants and enums of 2^31 cases at most, and flags types of 128 members at most.
#[tactic(auto, unfolding(crate::specs::Built::are_built_tables))]
pub(crate) fn are_built_tables(resolve: &Resolve) -> bool
    ensures { result ≡ are_built_tables resolve.now }
{
    is_empty(&resolve.interfaces)
        && are_built_kinds(resolve.types.as_slice())
        && are_built_worlds(resolve.worlds.as_slice())
}

fn is_owning(ownership: Ownership) -> bool
    ensures { result ≡ is_owning ownership }
{
    matches!(ownership, Ownership::Owning)
}

fn are_flags_off(opts: &Opts) -> bool
    ensures { result ≡ are_flags_off opts.now }
{
    !opts.std_feature
        && !opts.raw_strings
        && !opts.stubs
        && !opts.generate_all
        && !opts.pub_export_macro
}

fn are_lists_empty(opts: &Opts) -> bool
    ensures { result ≡ are_lists_empty opts.now }
{
    is_empty(&opts.skip)
        && is_empty(&opts.additional_derive_ignore)
        && is_empty(&opts.additional_derive_attributes)
        && is_empty(&opts.additional_type_attributes)
        && is_empty(&opts.additional_member_attributes)
        && is_empty(&opts.with)
        && is_empty(&opts.chainable_methods)
}

fn are_values_absent(opts: &Opts) -> bool
    ensures { result ≡ are_values_absent opts.now }
{
    opts.export_prefix.is_none()
        && opts.runtime_path.is_none()
        && opts.map_type.is_none()
        && opts.bitflags_path.is_none()
        && opts.default_bindings_module.is_none()
        && opts.export_macro_name.is_none()
        && opts.merge_structurally_equal_types.is_none()
}

/// Whether every option but that for unused types is at its default.
#[tactic(auto, unfolding(crate::specs::Built::are_built_options))]
pub(crate) fn are_built_options(opts: &Opts) -> bool
    ensures { result ≡ are_built_options opts.now }
{
    are_flags_off(opts)
        && are_lists_empty(opts)
        && are_values_absent(opts)
        && is_owning(opts.ownership)
}
