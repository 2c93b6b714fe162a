//! How many types the definitions of a file print.

ghost use Rattle.std.specs.Prelude.{◌≡◌, ◌<◌, true, length, nat_lt};
ghost use Rattle.std.specs.List.{list_all};
ghost use Rattle.wit_model.specs.declared.name.WorldId.{WorldId};
ghost use Rattle.type_facts.specs.Facts.{IsAnalysis};

use crate::define::is_defined;
use crate::type_opts::TypeOpts;
use std::alloc::Global;
use type_facts::Types;
use wit_model::{List, OutOfMemory, Resolve, TypeDef, TypeDefKind, TypeId, WitType};

/// The most types that the definitions of a file may print.
const MOST: u32 = 1 << 27;

fn printed_as(known: &[u32], part: Option<WitType>) -> u32 {
    match part {
        None => 0,
        Some(WitType::Id(id)) => match known.get(id.0 as usize) {
            None => 1,
            Some(printed) => *printed,
        },
        Some(_) => 1,
    }
}

/// How many types the definition of a kind prints, with itself, by what each entry of the table prints as a part.
fn printed_by(known: &[u32], kind: &TypeDefKind) -> u32 {
    let mut printed = 1u32;
    for nth in 0..kind.part_count() {
        printed = printed.saturating_add(printed_as(known, kind.part(nth)));
    }
    printed
}

/// How many types each entry of the table prints as a part: one, where it has a name, and else it is printed whole. One pass up
/// the table; counts stop at the greatest `u32`.
fn printed_parts(alloc: Global, types: &[TypeDef]) -> Result<List<u32>, OutOfMemory> {
    let mut known = List::new(alloc);
    for entry in types {
        let printed = match entry.name {
            None => printed_by(known.as_slice(), &entry.kind),
            Some(_) => 1,
        };
        known.push(printed)?;
    }
    Ok(known)
}

/// How many types an entry of the table prints as its definition, if it has one.
fn printed_at(known: &[u32], opts: TypeOpts, resolve: &Resolve, facts: &Types, id: TypeId) -> u32
    requires analyzed { (world : WorldId) × IsAnalysis resolve.now world facts.now }
    requires within { id.0 < length resolve.now.types }
{
    let entry = &resolve.types.as_slice()[id.0 as usize];
    if is_defined(opts, facts.get(id), &entry.kind) {
        printed_by(known, &entry.kind)
    } else {
        0
    }
}

/// Whether the definitions of the types that a world lists print at most 2^27 types together, those in a part without a name as
/// often as it stands there. It is known before one of them is made: in one pass up the table, in memory for a number for each
/// entry, and then in the time of the parts of what is defined.
pub(crate) fn print_few(
    alloc: Global,
    opts: TypeOpts,
    resolve: &Resolve,
    facts: &Types,
    listed: &[TypeId],
) -> Result<bool, OutOfMemory>
    requires analyzed { (world : WorldId) × IsAnalysis resolve.now world facts.now }
    requires within { list_all (λ id. nat_lt id.0 (length resolve.now.types)) listed.now ≡ true }
{
    let known = printed_parts(alloc, resolve.types.as_slice())?;
    let mut printed = 0u32;
    for id in listed {
        printed = printed.saturating_add(printed_at(known.as_slice(), opts, resolve, facts, *id));
    }
    Ok(printed <= MOST)
}
