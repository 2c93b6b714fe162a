//! How many entries of the table lie on a way down from a type.

ghost use Rattle.std.specs.Prelude.{◌≡◌, IfOk};
ghost use Rattle.wit_model.specs.TypeOrder.{GoesDown};
ghost use Rattle.type_defs.specs.Levels.{first_deep, greater, greatest_below, level_of};

use std::alloc::Global;
use wit_model::{List, OutOfMemory, TypeDef, TypeDefKind, WitType};

fn level_of(known: &[u8], part: Option<WitType>) -> u8
    ensures { result ≡ level_of known.now part }
{
    let Some(WitType::Id(id)) = part else {
        return 0;
    };
    match known.get(id.0 as usize) {
        None => 0,
        Some(level) => *level,
    }
}

fn greater(a: u8, b: u8) -> u8
    ensures { result ≡ greater a b }
{
    if a < b { b } else { a }
}

fn greatest_below(known: &[u8], kind: &TypeDefKind) -> u8
    ensures { result ≡ greatest_below known.now kind.now }
{
    let mut greatest = 0;
    for nth in 0..kind.part_count() {
        greatest = greater(greatest, level_of(known, kind.part(nth)));
    }
    greatest
}

/// The place of the first type of the table from which more than a hundred entries lie on a way down, with itself. One pass up the
/// table, in memory for a number for each entry.
pub fn first_deep(alloc: Global, types: &[TypeDef]) -> Result<Option<usize>, OutOfMemory>
    requires { GoesDown types.now }
    ensures { IfOk result (λ deep. deep ≡ first_deep types.now) }
{
    let mut known = List::new(alloc);
    for (i, entry) in types.iter().enumerate() {
        let below = greatest_below(known.as_slice(), &entry.kind);
        if below >= 100 {
            return Ok(Some(i));
        }
        known.push(below + 1)?;
    }
    Ok(None)
}
