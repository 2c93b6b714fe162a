//! Which declared name is the first that clashes.

ghost use Rattle.std.specs.Prelude.{◌≡◌, IfOk};
ghost use Rattle.gen_accept.specs.Clash.{clash_in, entry_in, first_clash, is_name};

use crate::declared::{Declared, NameScope, Sort};
use crate::error::{Clash, Entry};
use rust_tree::{is_ident, is_type_name};
use std::alloc::Global;
use std::collections::HashSet;
use wit_model::{OutOfMemory, Text};

#[tactic(auto, unfolding(crate::specs::Clash::root_module))]
fn entry_in(alloc: Global, scope: &NameScope, d: &Declared) -> Result<Entry, OutOfMemory>
    ensures { IfOk result (λ entry. entry ≡ entry_in scope.now d.now) }
{
    Ok(Entry {
        module: Text::from_str(alloc, "$root")?,
        scope: scope.name.copy(alloc)?,
        name: d.name.copy(alloc)?,
    })
}

fn is_name(d: &Declared) -> bool
    ensures { result ≡ is_name d.now }
{
    match d.sort {
        Sort::WorldType => is_type_name(d.name.as_str()),
        _ => is_ident(d.name.as_str()),
    }
}

/// The first name of a scope that clashes.
fn clash_in(alloc: Global, scope: &NameScope) -> Result<Option<Clash>, OutOfMemory>
    ensures { IfOk result (λ clash. clash ≡ clash_in scope.now) }
{
    let mut seen = HashSet::new(alloc);
    for d in scope.names.as_slice() {
        if !seen.insert((d.sort.space(), d.name.as_str()))? {
            return Ok(Some(Clash::Twice(entry_in(alloc, scope, d)?)));
        }
        if !is_name(d) {
            return Ok(Some(Clash::NotIdent(entry_in(alloc, scope, d)?)));
        }
    }
    Ok(None)
}

/// The first declared name that clashes.
pub(crate) fn first_clash(alloc: Global, scopes: &[NameScope]) -> Result<Option<Clash>, OutOfMemory>
    ensures { IfOk result (λ clash. clash ≡ first_clash scopes.now) }
{
    for scope in scopes {
        if let Some(clash) = clash_in(alloc, scope)? {
            return Ok(Some(clash));
        }
    }
    Ok(None)
}
