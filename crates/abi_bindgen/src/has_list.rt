//! Whether a value may have a text, a list or a map.

ghost use Rattle.std.specs.Prelude.{◌≡◌, ◌<◌, IsTrue, Option, Some, length, slice_get};
ghost use Rattle.std.specs.List.{list_any};
ghost use Rattle.wit_model.specs.Parts.{parts};
ghost use Rattle.wit_model.specs.TypeOrder.{GoesDown, payload_below, type_below};
ghost use Rattle.wit_model.specs.declared.types.WitType.{WitType};
ghost use Rattle.wrapper_meaning.specs.Kinds.{has_list, result_has_list};
ghost use Rattle.wrapper_meaning.specs.Shape.{result_shape, shape_at, shape_of};
ghost use Rattle.abi_bindgen.specs.HasList.{IsKindOf, is_list, is_told_by_parts, payload_has_list};

use wit_model::{Function, Resolve, TypeDefKind, TypeId, WitType};

/// Whether an export needs a post-return function: whether its result may have a text, a list or a map. After
/// `guest_export_needs_post_return` of wit-bindgen-core.
#[tactic(auto, unfolding(wit_model::specs::TypeOrder::payload_below))]
pub fn guest_export_needs_post_return(resolve: &Resolve, func: &Function) -> bool
    requires down { GoesDown resolve.now.types }
    requires below { IsTrue (payload_below (length resolve.now.types) func.now.result) }
    ensures { result ≡ result_has_list (result_shape resolve.now.types func.now) }
{
    match func.result {
        None => false,
        Some(ty) => type_has_list(resolve, ty),
    }
}

#[cycle(has_list)]
#[tactic(auto, unfolding(wit_model::specs::TypeOrder::type_below))]
fn type_has_list(resolve: &Resolve, ty: WitType) -> bool
    requires down { GoesDown resolve.now.types }
    requires below { IsTrue (type_below (length resolve.now.types) ty) }
    ensures { result ≡ has_list (shape_of resolve.now.types ty) }
{
    match ty {
        WitType::String => true,
        WitType::Id(id) => id_has_list(resolve, id),
        _ => false,
    }
}

/// Whether a value of the type at a place of the table may have a text, a list or a map.
#[cycle(has_list)]
pub fn id_has_list(resolve: &Resolve, id: TypeId) -> bool
    requires down { GoesDown resolve.now.types }
    requires within { id.0 < length resolve.now.types }
    ensures { result ≡ has_list (shape_at resolve.now.types id.0) }
{
    let types = resolve.types.as_slice();
    let at = id.0 as usize;
    let kind = &types[at].kind;
    if is_list(kind) {
        return true;
    }
    if !is_told_by_parts(kind) {
        return false;
    }
    parts_have_list(resolve, at, kind)
}

/// Whether a kind is a list or a map.
fn is_list(kind: &TypeDefKind) -> bool
    ensures { result ≡ is_list kind.now }
{
    matches!(kind, TypeDefKind::List(_) | TypeDefKind::Map(_, _))
}

/// Whether the values of a kind have what those of its parts have.
fn is_told_by_parts(kind: &TypeDefKind) -> bool
    ensures { result ≡ is_told_by_parts kind.now }
{
    !matches!(
        kind,
        TypeDefKind::Future(_) | TypeDefKind::Stream(_) | TypeDefKind::Handle(_)
    )
}

/// Whether a part may, of the kind of the type at a place of the table.
#[cycle(has_list)]
fn parts_have_list(resolve: &Resolve, at: usize, kind: &TypeDefKind) -> bool
    requires down { GoesDown resolve.now.types }
    requires within { at < length resolve.now.types }
    requires here { IsKindOf resolve.now.types at kind.now }
    ensures { result ≡ list_any (payload_has_list resolve.now.types) (parts kind.now) }
{
    for nth in 0..kind.part_count() {
        if part_has_list(resolve, at, kind, nth) {
            return true;
        }
    }
    false
}

/// Whether one of them may.
#[cycle(has_list)]
fn part_has_list(resolve: &Resolve, at: usize, kind: &TypeDefKind, nth: usize) -> bool
    requires down { GoesDown resolve.now.types }
    requires within { at < length resolve.now.types }
    requires here { IsKindOf resolve.now.types at kind.now }
    requires part { nth < length (parts kind.now) }
    ensures { (p : Option WitType) → slice_get (parts kind.now) nth ≡ Some p → result ≡ payload_has_list resolve.now.types p }
{
    match kind.part(nth) {
        None => false,
        Some(ty) => type_has_list(resolve, ty),
    }
}
