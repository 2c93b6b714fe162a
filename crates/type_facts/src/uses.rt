//! Where types are used: lent, owned, or as errors.

ghost use Rattle.std.specs.Prelude.{◌≡◌, IfOk};
ghost use Rattle.std.specs.Option.{option_to_list};
ghost use Rattle.type_facts.specs.Passes.{AreUses, mark_all, no_uses, with_marked};
ghost use Rattle.type_facts.specs.Roots.{error_of_kind, error_of_payload, error_of_type, error_types, function_roots, functions_roots, in_table, item_roots, listed_roots, param_types, world_roots};
ghost use Rattle.wit_model.specs.Ends.{HasEnds};
ghost use Rattle.wit_model.specs.TypeOrder.{GoesDown};

use crate::marks::Marks;
use crate::side::Side;
use std::alloc::Global;
use wit_model::{
    AliasEnds, Function, OutOfMemory, Resolve, TypeDefKind, WitType, WorldId, WorldItem, WorldKey,
};

fn in_table(resolve: &Resolve, ends: &AliasEnds, ty: WitType) -> Option<WitType>
    requires { HasEnds resolve.now.types ends.now }
    ensures { option_to_list result ≡ in_table resolve.now.types ty }
{
    match ty {
        WitType::Id(id) => Some(WitType::Id(ends.end(resolve.types.as_slice(), id))),
        _ => None,
    }
}

fn error_of_payload(
    resolve: &Resolve,
    ends: &AliasEnds,
    payload: Option<WitType>,
) -> Option<WitType>
    requires { HasEnds resolve.now.types ends.now }
    ensures { option_to_list result ≡ error_of_payload resolve.now.types payload }
{
    match payload {
        None => None,
        Some(ty) => in_table(resolve, ends, ty),
    }
}

fn error_of_kind(resolve: &Resolve, ends: &AliasEnds, kind: &TypeDefKind) -> Option<WitType>
    requires { HasEnds resolve.now.types ends.now }
    ensures { option_to_list result ≡ error_of_kind resolve.now.types kind.now }
{
    match kind {
        TypeDefKind::Result(_, err) => error_of_payload(resolve, ends, *err),
        _ => None,
    }
}

fn error_of_type(resolve: &Resolve, ends: &AliasEnds, ty: WitType) -> Option<WitType>
    requires { HasEnds resolve.now.types ends.now }
    ensures { option_to_list result ≡ error_of_type resolve.now.types ty }
{
    let WitType::Id(id) = ty else {
        return None;
    };
    match resolve.type_def(id) {
        None => None,
        Some(entry) => error_of_kind(resolve, ends, &entry.kind),
    }
}

/// Behind its aliases, the error payload of a function's result, where the table has it.
fn error_type(resolve: &Resolve, ends: &AliasEnds, answer: Option<WitType>) -> Option<WitType>
    requires { HasEnds resolve.now.types ends.now }
    ensures { option_to_list result ≡ error_types resolve.now.types answer }
{
    match answer {
        None => None,
        Some(ty) => error_of_type(resolve, ends, ty),
    }
}

fn mark_params(marks: &mut Marks, function: &Function)
    ensures { marks.new ≡ mark_all marks.old (param_types function.now) }
{
    let params = function.params.as_slice();
    for param in params {
        marks.mark(param.ty);
    }
}

/// Which types are borrowed, owned and error types.
#[derive(Drop)]
pub(crate) struct Uses {
    pub borrowed: Marks,
    pub owned: Marks,
    pub error: Marks,
}

impl Uses {
    fn none(alloc: Global, count: usize) -> Result<Uses, OutOfMemory>
        ensures { IfOk result (λ uses. uses ≡ no_uses count) }
    {
        Ok(Uses {
            borrowed: Marks::none(alloc, count)?,
            owned: Marks::none(alloc, count)?,
            error: Marks::none(alloc, count)?,
        })
    }

    fn mark_function(
        &mut self,
        resolve: &Resolve,
        ends: &AliasEnds,
        side: Side,
        function: &Function,
    )
        requires { HasEnds resolve.now.types ends.now }
        ensures { self.new ≡ with_marked self.old (function_roots resolve.now.types side function.now) }
    {
        let error = error_type(resolve, ends, function.result);
        match side {
            Side::Import => {
                mark_params(&mut self.borrowed, function);
                self.owned.mark_part(function.result);
                self.error.mark_part(error);
            }
            Side::Export => {
                mark_params(&mut self.owned, function);
                self.owned.mark_part(function.result);
                self.error.mark_part(error);
            }
        }
    }

    fn mark_functions(
        &mut self,
        resolve: &Resolve,
        ends: &AliasEnds,
        side: Side,
        functions: &[Function],
    )
        requires { HasEnds resolve.now.types ends.now }
        ensures { self.new ≡ with_marked self.old (functions_roots resolve.now.types side functions.now) }
    {
        for function in functions {
            self.mark_function(resolve, ends, side, function);
        }
    }

    fn mark_item(&mut self, resolve: &Resolve, ends: &AliasEnds, side: Side, item: &WorldItem)
        requires { HasEnds resolve.now.types ends.now }
        ensures { self.new ≡ with_marked self.old (item_roots resolve.now side item.now) }
    {
        match item {
            WorldItem::Function(function) => self.mark_function(resolve, ends, side, function),
            WorldItem::Interface(id) => match resolve.interface(*id) {
                None => {}
                Some(entry) => {
                    self.mark_functions(resolve, ends, side, entry.functions.as_slice());
                }
            },
            WorldItem::Named(_) => {}
        }
    }

    fn mark_listed(
        &mut self,
        resolve: &Resolve,
        ends: &AliasEnds,
        side: Side,
        listed: &[(WorldKey, WorldItem)],
    )
        requires { HasEnds resolve.now.types ends.now }
        ensures { self.new ≡ with_marked self.old (listed_roots resolve.now side listed.now) }
    {
        for entry in listed {
            self.mark_item(resolve, ends, side, &entry.1);
        }
    }

    fn mark_world(&mut self, resolve: &Resolve, ends: &AliasEnds, world: WorldId)
        requires { HasEnds resolve.now.types ends.now }
        ensures { self.new ≡ with_marked self.old (world_roots resolve.now world) }
    {
        match resolve.world(world) {
            None => {}
            Some(entry) => {
                self.mark_listed(resolve, ends, Side::Import, entry.imports.as_slice());
                self.mark_listed(resolve, ends, Side::Export, entry.exports.as_slice());
            }
        }
    }

    /// How the functions of a world use the types of the table.
    pub(crate) fn of_world(
        alloc: Global,
        resolve: &Resolve,
        world: WorldId,
    ) -> Result<Uses, OutOfMemory>
        requires { GoesDown resolve.now.types }
        ensures { IfOk result (AreUses resolve.now world) }
    {
        let types = resolve.types.as_slice();
        let ends = AliasEnds::of_types(alloc, types)?;
        let mut uses = Uses::none(alloc, types.len())?;
        uses.mark_world(resolve, &ends, world);
        uses.borrowed.spread(types);
        uses.owned.spread(types);
        Ok(uses)
    }
}
