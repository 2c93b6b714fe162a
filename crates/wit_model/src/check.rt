//! The check of the tables: the first rule that they break.

ghost use Rattle.std.specs.Prelude.{◌≡◌, None, IsTrue, OnOk, IfNone, IfOk, IfErr};
ghost use Rattle.wit_model.specs.TypeOrder.{GoesDown, first_out_of_order};
ghost use Rattle.wit_model.specs.Members.{first_without_members};
ghost use Rattle.wit_model.specs.MapKey.{first_bad_key};
ghost use Rattle.wit_model.specs.Numbered.{is_numbered, tables_short};
ghost use Rattle.wit_model.specs.WellFormed.{first_fault, IsFaultOf, IsWellFormed};

use crate::alias_ends::AliasEnds;
use crate::index_range::first_out_of_range;
use crate::map_key::first_bad_key;
use crate::members::first_without_members;
use crate::memory::OutOfMemory;
use crate::numbered::is_numbered;
use crate::place::placed;
use crate::resolve::{Resolve, Rule, Table, WorldFault};
use crate::type_order::first_out_of_order;
use std::alloc::Global;

#[tactic(auto, unfolding(crate::specs::TypeOrder::first_out_of_order, crate::specs::Numbered::tables_short, crate::specs::Numbered::is_short))]
fn out_of_order(resolve: &Resolve) -> Option<(Table, u32)>
    requires { IsTrue (tables_short resolve.now) }
    ensures first { result ≡ first_out_of_order resolve.now }
    ensures none { IfNone result (GoesDown resolve.now.types) }
{
    placed(Table::Type_, first_out_of_order(resolve.types.as_slice()))
}

#[tactic(auto, unfolding(crate::specs::Members::first_without_members, crate::specs::Numbered::tables_short, crate::specs::Numbered::is_short))]
fn without_members(resolve: &Resolve) -> Option<(Table, u32)>
    requires { IsTrue (tables_short resolve.now) }
    ensures { result ≡ first_without_members resolve.now }
{
    placed(
        Table::Type_,
        first_without_members(resolve.types.as_slice()),
    )
}

#[tactic(auto, unfolding(crate::specs::MapKey::first_bad_key, crate::specs::Numbered::tables_short, crate::specs::Numbered::is_short))]
fn bad_key(alloc: Global, resolve: &Resolve) -> Result<Option<(Table, u32)>, OutOfMemory>
    requires short { IsTrue (tables_short resolve.now) }
    requires down { GoesDown resolve.now.types }
    ensures { IfOk result (λ place. place ≡ first_bad_key resolve.now) }
{
    let types = resolve.types.as_slice();
    let ends = AliasEnds::of_types(alloc, types)?;
    Ok(placed(Table::Type_, first_bad_key(types, &ends)))
}

#[tactic(auto, unfolding(crate::specs::WellFormed::first_fault))]
fn first_fault(
    alloc: Global,
    resolve: &Resolve,
) -> Result<Option<(Rule, (Table, u32))>, OutOfMemory>
    requires { IsTrue (tables_short resolve.now) }
    ensures { IfOk result (λ fault. fault ≡ first_fault resolve.now) }
{
    if let Some(place) = first_out_of_range(resolve) {
        return Ok(Some((Rule::IndexRange, place)));
    }
    if let Some(place) = out_of_order(resolve) {
        return Ok(Some((Rule::TypeOrder, place)));
    }
    if let Some(place) = without_members(resolve) {
        return Ok(Some((Rule::Members, place)));
    }
    match bad_key(alloc, resolve)? {
        None => Ok(None),
        Some(place) => Ok(Some((Rule::MapKey, place))),
    }
}

impl Resolve {
    /// Whether the tables keep the rules of [`Rule`]. So far this looks at [`Rule::IndexRange`], [`Rule::TypeOrder`],
    /// [`Rule::Members`] and [`Rule::MapKey`]. The chains of aliases are followed once for all types, in memory for an id for
    /// each.
    ///
    /// `InvalidWorld` names the first rule that is broken and the first entry that breaks it, in the order of
    /// [`crate::Table`] and then by place. A part of the rule on functions, keys, or listed types or interfaces is broken
    /// by the interface or the world that holds or lists them. `OutOfMemory` comes where a table, or a list in one, has
    /// 2^32 entries or more, and where there is no memory for those ids.
    #[tactic(auto, unfolding(crate::specs::Numbered::is_numbered))]
    pub fn check(&self, alloc: Global) -> Result<(), WorldFault>
        ensures ok { OnOk result (first_fault self.now ≡ None) }
        ensures numbered { OnOk result (IsTrue (is_numbered self.now)) }
        ensures order { OnOk result (GoesDown self.now.types) }
        ensures well { OnOk result (IsWellFormed self.now) }
        ensures err { IfErr result (IsFaultOf self.now) }
    {
        if !is_numbered(self) {
            return Err(WorldFault::OutOfMemory);
        }
        match first_fault(alloc, self)? {
            None => Ok(()),
            Some((rule, (table, index))) => Err(WorldFault::InvalidWorld { rule, table, index }),
        }
    }
}
