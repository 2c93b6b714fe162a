//! How the types of these worlds are written.

ghost use Rattle.std.specs.Prelude.{◌≡◌, [], ◌∷◌, ℕ, codes, true, length, List, Some, IfOk};
ghost use Rattle.wit_model.specs.declared.types.Case.{Case};
ghost use Rattle.wit_model.specs.declared.types.Member.{Member};
ghost use Rattle.wit_model.specs.declared.types.TypeDef.{TypeDef};
ghost use Rattle.wit_model.specs.declared.types.TypeDefKind.TheVariants as sort;
ghost use Rattle.type_defs.specs.Paths as paths;
ghost use Rattle.func_gen.specs.TypeSites.{CanBeDefined};
ghost use Rattle.func_gen.specs.Written.{CanWrite};
ghost use Rattle.func_gen.specs.declared.type_site.TypeSite.TheVariants as site;

use func_gen::{FlagsSite, TypeSite, VariantSite};
use rust_tree::{Path, Repr};
use std::alloc::Global;
use std::test::Fail;
use type_defs::local_path;
use wit_model::{List, OutOfMemory, Text, TypeDef, TypeDefKind};

/// The path of a type of this name.
fn path(alloc: Global, name: &str) -> Result<Path, OutOfMemory>
    ensures { IfOk result (λ path. path ≡ paths.local_path name.now) }
{
    let name = Text::from_str(alloc, name)?;
    local_path(alloc, name)
}

/// The names of the cases of the variant.
fn cases(alloc: Global) -> Result<List<Text>, OutOfMemory>
    ensures { IfOk result (λ cases. cases ≡ codes "A" ∷ codes "B" ∷ codes "C" ∷ []) }
{
    let mut cases = List::new(alloc);
    cases.push(Text::from_str(alloc, "A")?)?;
    cases.push(Text::from_str(alloc, "B")?)?;
    cases.push(Text::from_str(alloc, "C")?)?;
    Ok(cases)
}

/// A variant `V` with the cases `A`, `B` and `C`.
fn variant_site(alloc: Global) -> Result<VariantSite, OutOfMemory>
    ensures defined { IfOk result (λ s. CanBeDefined (Some (site.Variant s) ∷ [])) }
    ensures path { IfOk result (λ s. s.lowered ≡ paths.local_path (codes "V")) }
    ensures many { IfOk result (λ s. length s.cases ≡ 3) }
{
    let lifted = path(alloc, "V")?;
    let lowered = path(alloc, "V")?;
    let cases = cases(alloc)?;
    Ok(VariantSite {
        lifted,
        lowered,
        cases,
    })
}

fn has_three_cases(kind: &TypeDefKind) -> bool
    ensures { result ≡ true → (members : List Case) × (kind.now ≡ sort.Variant members) × (length members ≡ 3) }
{
    match kind {
        TypeDefKind::Variant(members) => members.len() == 3,
        _ => false,
    }
}

/// Whether these are one type, and that a variant of three cases.
fn are_a_variant(types: &[TypeDef]) -> bool
    ensures { result ≡ true
        → (t : TypeDef) × (members : List Case) × (types.now ≡ t ∷ []) × (t.kind ≡ sort.Variant members) × (length members ≡ 3) }
{
    match types {
        [entry] => has_three_cases(&entry.kind),
        _ => false,
    }
}

/// The variant as the only type of a table.
pub(crate) fn variant_sites(
    alloc: Global,
    types: &[TypeDef],
) -> Result<List<Option<TypeSite>>, Fail>
    ensures defined { IfOk result CanBeDefined }
    ensures written { IfOk result (λ sites. (id : ℕ) → CanWrite types.now sites id) }
{
    if !are_a_variant(types) {
        return Err(Fail::new("the table has another type"));
    }
    let site = variant_site(alloc)?;
    let mut sites = List::new(alloc);
    sites.push(Some(TypeSite::Variant(site)))?;
    Ok(sites)
}

fn has_forty_members(kind: &TypeDefKind) -> bool
    ensures { result ≡ true → (members : List Member) × (kind.now ≡ sort.Flags members) × (length members ≡ 40) }
{
    match kind {
        TypeDefKind::Flags(members) => members.len() == 40,
        _ => false,
    }
}

/// Whether these are one type, and that of forty flags.
fn are_flags(types: &[TypeDef]) -> bool
    ensures { result ≡ true
        → (t : TypeDef) × (members : List Member) × (types.now ≡ t ∷ []) × (t.kind ≡ sort.Flags members) × (length members ≡ 40) }
{
    match types {
        [entry] => has_forty_members(&entry.kind),
        _ => false,
    }
}

/// Flags `Fl` with forty members as the only type of a table.
pub(crate) fn flags_sites(alloc: Global, types: &[TypeDef]) -> Result<List<Option<TypeSite>>, Fail>
    ensures defined { IfOk result CanBeDefined }
    ensures written { IfOk result (λ sites. (id : ℕ) → CanWrite types.now sites id) }
{
    if !are_flags(types) {
        return Err(Fail::new("the table has another type"));
    }
    let path = path(alloc, "Fl")?;
    let mut sites = List::new(alloc);
    sites.push(Some(TypeSite::Flags(FlagsSite {
        path,
        repr: Repr::U64,
        members: 40,
    })))?;
    Ok(sites)
}
