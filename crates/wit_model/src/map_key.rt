//! Which types may be the keys of maps.

ghost use Rattle.std.specs.Prelude.{◌≡◌, ◌<◌, not, length, position, IfSome};
ghost use Rattle.wit_model.specs.MapKey.{is_key_primitive, is_key_alias, is_key, has_good_key};
ghost use Rattle.wit_model.specs.Ends.{HasEnds};

use crate::alias_ends::AliasEnds;
use crate::types::{TypeDef, TypeDefKind, WitType};

fn is_key_primitive(ty: WitType) -> bool
    ensures { result ≡ is_key_primitive ty }
{
    match ty {
        WitType::F32 | WitType::F64 | WitType::ErrorContext | WitType::Id(_) => false,
        _ => true,
    }
}

fn is_key_alias(kind: &TypeDefKind) -> bool
    ensures { result ≡ is_key_alias kind.now }
{
    match kind {
        TypeDefKind::Alias(ty) => is_key_primitive(*ty),
        _ => false,
    }
}

#[tactic(auto, unfolding(crate::specs::MapKey::is_key))]
fn is_key(types: &[TypeDef], ends: &AliasEnds, ty: WitType) -> bool
    requires { HasEnds types.now ends.now }
    ensures { result ≡ is_key types.now ty }
{
    let WitType::Id(id) = ty else {
        return is_key_primitive(ty);
    };
    let end = ends.end(types, id);
    match types.get(end.0 as usize) {
        None => false,
        Some(entry) => is_key_alias(&entry.kind),
    }
}

#[tactic(auto, unfolding(crate::specs::MapKey::has_good_key))]
fn has_good_key(types: &[TypeDef], ends: &AliasEnds, kind: &TypeDefKind) -> bool
    requires { HasEnds types.now ends.now }
    ensures { result ≡ has_good_key types.now kind.now }
{
    match kind {
        TypeDefKind::Map(k, _) => is_key(types, ends, *k),
        _ => true,
    }
}

/// The first map whose key is, after aliases, no whole number, bool, char or string.
pub fn first_bad_key(types: &[TypeDef], ends: &AliasEnds) -> Option<usize>
    requires { HasEnds types.now ends.now }
    ensures first { result ≡ position (λ entry. not (has_good_key types.now entry.kind)) types.now }
    ensures within { IfSome result (λ index. index < length types.now) }
{
    types
        .iter()
        .position(|entry| !has_good_key(types, ends, &entry.kind))
}
