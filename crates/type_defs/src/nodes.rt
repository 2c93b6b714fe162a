//! How many nodes the types of a function unfold to.

ghost use Rattle.std.specs.Prelude.{◌≡◌, suc, IfOk, Some, map};
ghost use Rattle.type_defs.specs.Nodes.{capped, has_few_nodes, nodes, nodes_as, nodes_by, nodes_in, own_cases};

use std::alloc::Global;
use wit_model::{Function, List, OutOfMemory, Param, TypeDef, TypeDefKind, WitType};

/// The most nodes that a function may have.
const MOST: u32 = 65_536;

fn capped(count: u32) -> u32
    ensures { result ≡ capped count }
{
    if count <= MOST { count } else { MOST + 1 }
}

fn nodes_as(known: &[u32], part: Option<WitType>) -> u32
    ensures { result ≡ nodes_as known.now part }
{
    match part {
        None => 0,
        Some(WitType::Id(id)) => match known.get(id.0 as usize) {
            None => 1,
            Some(count) => *count,
        },
        Some(_) => 1,
    }
}

fn own_cases(kind: &TypeDefKind) -> usize
    ensures { result ≡ own_cases kind.now }
{
    match kind {
        TypeDefKind::Variant(cases) => cases.as_slice().len(),
        _ => 0,
    }
}

/// An entry and its own cases, without what it names.
fn own_nodes(kind: &TypeDefKind) -> u32
    ensures { result ≡ capped (suc (own_cases kind.now)) }
{
    let cases = own_cases(kind);
    if cases < MOST as usize {
        cases as u32 + 1
    } else {
        MOST + 1
    }
}

fn nodes_by(known: &[u32], kind: &TypeDefKind) -> u32
    ensures { result ≡ nodes_by known.now kind.now }
{
    let mut count = own_nodes(kind);
    for nth in 0..kind.part_count() {
        count = capped(count.saturating_add(nodes_as(known, kind.part(nth))));
    }
    count
}

/// The nodes that each entry of the table unfolds to: each type that is named counts as one, and then what that type names, as
/// often as it stands there, and so does each case of a variant; all that are more than 65,536 count alike. One pass up the
/// table, in memory for a number for each entry.
#[tactic(auto, unfolding(crate::specs::Nodes::nodes))]
pub fn node_counts(alloc: Global, types: &[TypeDef]) -> Result<List<u32>, OutOfMemory>
    ensures { IfOk result (λ known. known ≡ nodes types.now) }
{
    let mut known = List::new(alloc);
    for entry in types {
        let count = nodes_by(known.as_slice(), &entry.kind);
        known.push(count)?;
    }
    Ok(known)
}

fn param_nodes(known: &[u32], params: &[Param]) -> u32
    ensures { result ≡ capped (nodes_in known.now (map (λ p. Some p.ty) params.now)) }
{
    let mut count = 0u32;
    for p in params {
        count = capped(count.saturating_add(nodes_as(known, Some(p.ty))));
    }
    count
}

/// Whether the parameters and the result of a function unfold to at most 65,536 nodes, by those of each entry of the table.
pub fn has_few_nodes(known: &[u32], f: &Function) -> bool
    ensures { result ≡ has_few_nodes known.now f.now }
{
    let params = param_nodes(known, f.params.as_slice());
    params.saturating_add(nodes_as(known, f.result)) <= MOST
}
