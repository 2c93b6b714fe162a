//! The facts of all types of a table, found in two passes.

ghost use Rattle.std.specs.Prelude.{◌≡◌, ◌<◌, ◌↔◌, length, IsTrue, IfOk};
ghost use Rattle.type_facts.specs.Facts.{IsAnalysis, IsAnalyzed, IsCanonical, IsInfoOf, type_count};
ghost use Rattle.type_facts.specs.Passes.{AreEntries, entry_of};
ghost use Rattle.wit_model.specs.IndexRange.{type_in_range};
ghost use Rattle.wit_model.specs.WellFormed.{IsWellFormed};

use crate::info::TypeInfo;
use crate::reach::{Reach, all_reaches, is_number};
use crate::uses::Uses;
use std::alloc::Global;
use wit_model::{List, OutOfMemory, Resolve, TypeDef, TypeId, WitType, WorldId};

/// The facts of one type, and whether a list of it lies in memory as its numbers do.
#[derive(Clone, Copy, Debug, PartialEq, Eq)]
pub(crate) struct Entry {
    pub info: TypeInfo,
    pub is_canonical: bool,
}

fn entry_of(is_named: bool, reach: Reach, uses: &Uses, index: usize) -> Entry
    ensures { result ≡ entry_of is_named reach uses.now index }
{
    let info = TypeInfo {
        borrowed: is_named && uses.borrowed.is_marked(index),
        owned: is_named && uses.owned.is_marked(index),
        error: is_named && uses.error.is_marked(index),
        has_list: reach.list,
        has_resource: reach.resource,
        has_tuple: reach.tuple,
        has_borrow_handle: reach.borrow_handle,
        has_own_handle: reach.own_handle,
    };
    Entry {
        info,
        is_canonical: !reach.other,
    }
}

fn entries(
    alloc: Global,
    types: &[TypeDef],
    reaches: &[Reach],
    uses: &Uses,
) -> Result<List<Entry>, OutOfMemory>
    requires { length reaches.now ≡ length types.now }
    ensures count { IfOk result (λ entries. length entries ≡ length types.now) }
    ensures exact { IfOk result (AreEntries types.now reaches.now uses.now) }
{
    let mut entries = List::new(alloc);
    for (index, type_def) in types.iter().enumerate() {
        let entry = entry_of(type_def.name.is_some(), reaches[index], uses, index);
        entries.push(entry)?;
    }
    Ok(entries)
}

/// The facts of all types of the table, in a world.
#[derive(Debug, Drop)]
pub struct Types {
    entries: List<Entry>,
}

impl Types {
    /// The facts of all types of tables that [`Resolve::check`] has passed, in one of their worlds. The functions of all
    /// interfaces that the world lists count. The table and the functions are gone through a fixed number of times.
    ///
    /// The facts are after those of wit-bindgen-core's `Types`; a future, a stream and an error context count as no
    /// resource here. `OutOfMemory` comes where there is no memory for an entry or a mark for each type.
    pub fn analyze(alloc: Global, resolve: &Resolve, world: WorldId) -> Result<Types, OutOfMemory>
        requires { IsWellFormed resolve.now }
        ensures { IfOk result (IsAnalysis resolve.now world) }
    {
        let types = resolve.types.as_slice();
        let reaches = all_reaches(alloc, types)?;
        let uses = Uses::of_world(alloc, resolve, world)?;
        Ok(Types {
            entries: entries(alloc, types, reaches.as_slice(), &uses)?,
        })
    }

    /// The facts of a type of the table. It takes no memory.
    pub fn get(&self, id: TypeId) -> TypeInfo
        requires { id.0 < type_count self.now }
        ensures { (r : Resolve) (world : WorldId) → IsAnalysis r world self.now → IsInfoOf r world id result }
    {
        self.entries.as_slice()[id.0 as usize].info
    }

    /// Whether a list of this type is canonical: it can be lent as the memory in which it lies, since the type is a whole
    /// number, a float, or made up of them by aliases, records and fixed-length lists alone. It takes no memory.
    pub fn is_list_canonical(&self, resolve: &Resolve, ty: &WitType) -> bool
        requires analyzed { IsAnalyzed resolve.now self.now }
        requires within { IsTrue (type_in_range resolve.now ty.now) }
        ensures { IsTrue result ↔ IsCanonical resolve.now.types ty.now }
    {
        let _ = resolve;
        match ty {
            WitType::Id(id) => self.entries.as_slice()[id.0 as usize].is_canonical,
            primitive => is_number(*primitive),
        }
    }
}
