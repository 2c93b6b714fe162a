//! Whether each type that must have a name has one.

ghost use Rattle.std.specs.Prelude.{◌≡◌, ◌||◌, is_some, not};
ghost use Rattle.type_defs.specs.TypeNames.{are_type_names, needs_name};

use wit_model::{TypeDef, TypeDefKind};

fn needs_name(kind: &TypeDefKind) -> bool
    ensures { result ≡ needs_name kind.now }
{
    matches!(
        kind,
        TypeDefKind::Record(_)
            | TypeDefKind::Variant(_)
            | TypeDefKind::Enum(_)
            | TypeDefKind::Flags(_)
            | TypeDefKind::Resource
    )
}

fn has_type_name(entry: &TypeDef) -> bool
    ensures { result ≡ (not (needs_name entry.now.kind) || is_some entry.now.name) }
{
    !needs_name(&entry.kind) || entry.name.is_some()
}

/// Whether each record, variant, enum, flags type and resource of the table has a name.
#[tactic(auto, unfolding(crate::specs::TypeNames::are_type_names))]
pub fn are_type_names(types: &[TypeDef]) -> bool
    ensures { result ≡ are_type_names types.now }
{
    types.iter().all(|entry| has_type_name(entry))
}
