//! What a type reaches: texts, lists, handles and resources.

ghost use Rattle.std.specs.Prelude.{◌≡◌, length, IfOk};
ghost use Rattle.type_facts.specs.Own.{is_number, is_string, is_list, is_resource, is_tuple, is_borrow_handle, is_own_handle, is_plain, nothing, own_of_primitive, own_of_kind};
ghost use Rattle.type_facts.specs.Passes.{AreReaches, join, reach_of, reach_of_part, reach_of_kind};
ghost use Rattle.wit_model.specs.TypeOrder.{GoesDown};

use std::alloc::Global;
use wit_model::{Handle, List, OutOfMemory, TypeDef, TypeDefKind, WitType};

/// Of which kinds are the parts that a type reaches, or that a type is by itself.
#[derive(Clone, Copy)]
pub(crate) struct Reach {
    /// A string, a list or a map.
    pub list: bool,
    pub resource: bool,
    pub tuple: bool,
    pub borrow_handle: bool,
    pub own_handle: bool,
    /// What is neither a number nor a kind that is laid out as its parts are, one after another.
    pub other: bool,
}

impl Reach {
    fn join(self, more: Reach) -> Reach
        ensures { result ≡ join self more }
    {
        Reach {
            list: self.list || more.list,
            resource: self.resource || more.resource,
            tuple: self.tuple || more.tuple,
            borrow_handle: self.borrow_handle || more.borrow_handle,
            own_handle: self.own_handle || more.own_handle,
            other: self.other || more.other,
        }
    }
}

const NOTHING: Reach = Reach {
    list: false,
    resource: false,
    tuple: false,
    borrow_handle: false,
    own_handle: false,
    other: false,
};

/// Whether a type is a whole number or a float.
pub(crate) fn is_number(ty: WitType) -> bool
    ensures { result ≡ is_number ty }
{
    match ty {
        WitType::Bool | WitType::Char | WitType::String | WitType::ErrorContext => false,
        WitType::Id(_) => false,
        _ => true,
    }
}

fn own_of_primitive(ty: WitType) -> Reach
    ensures { result ≡ own_of_primitive ty }
{
    Reach {
        list: matches!(ty, WitType::String),
        other: !is_number(ty),
        ..NOTHING
    }
}

fn is_list(kind: &TypeDefKind) -> bool
    ensures { result ≡ is_list kind.now }
{
    matches!(kind, TypeDefKind::List(_) | TypeDefKind::Map(_, _))
}

fn is_plain(kind: &TypeDefKind) -> bool
    ensures { result ≡ is_plain kind.now }
{
    match kind {
        TypeDefKind::Alias(_) | TypeDefKind::Record(_) | TypeDefKind::FixedLengthList(_, _) => true,
        _ => false,
    }
}

fn is_borrow_handle(kind: &TypeDefKind) -> bool
    ensures { result ≡ is_borrow_handle kind.now }
{
    matches!(kind, TypeDefKind::Handle(Handle::Borrow(_)))
}

fn is_own_handle(kind: &TypeDefKind) -> bool
    ensures { result ≡ is_own_handle kind.now }
{
    matches!(kind, TypeDefKind::Handle(Handle::Own(_)))
}

fn own_of_kind(kind: &TypeDefKind) -> Reach
    ensures { result ≡ own_of_kind kind.now }
{
    Reach {
        list: is_list(kind),
        resource: matches!(kind, TypeDefKind::Resource),
        tuple: matches!(kind, TypeDefKind::Tuple(_)),
        borrow_handle: is_borrow_handle(kind),
        own_handle: is_own_handle(kind),
        other: !is_plain(kind),
    }
}

fn reach_of(known: &[Reach], ty: WitType) -> Reach
    ensures { result ≡ reach_of known.now ty }
{
    let WitType::Id(id) = ty else {
        return own_of_primitive(ty);
    };
    match known.get(id.0 as usize) {
        None => NOTHING,
        Some(reach) => *reach,
    }
}

fn reach_of_part(known: &[Reach], part: Option<WitType>) -> Reach
    ensures { result ≡ reach_of_part known.now part }
{
    match part {
        None => NOTHING,
        Some(ty) => reach_of(known, ty),
    }
}

fn reach_of_kind(known: &[Reach], kind: &TypeDefKind) -> Reach
    ensures { result ≡ reach_of_kind known.now kind.now }
{
    let mut sum = own_of_kind(kind);
    for nth in 0..kind.part_count() {
        sum = sum.join(reach_of_part(known, kind.part(nth)));
    }
    sum
}

/// What each type of the table reaches.
pub(crate) fn all_reaches(alloc: Global, types: &[TypeDef]) -> Result<List<Reach>, OutOfMemory>
    requires { GoesDown types.now }
    ensures count { IfOk result (λ known. length known ≡ length types.now) }
    ensures reach { IfOk result (λ known. AreReaches types.now known) }
{
    let mut known = List::new(alloc);
    for entry in types {
        let reach = reach_of_kind(known.as_slice(), &entry.kind);
        known.push(reach)?;
    }
    Ok(known)
}
