//! How the parameters and the result of a function are printed.

ghost use Rattle.std.specs.Prelude.{◌≡◌, true, IfOk, map};
ghost use Rattle.std.specs.List.{list_all};
ghost use Rattle.wit_model.specs.IndexRange.{type_in_range};
ghost use Rattle.type_defs.specs.ParamType.{HasFacts};
ghost use Rattle.type_defs.specs.PartType.{printed_result};
ghost use Rattle.rust_gen.specs.Wrapper.{printed_param};

use rust_tree::{FnParam, TypeExpr, to_rust_ident};
use std::alloc::Global;
use type_defs::{param_type, part_type};
use type_facts::Types;
use wit_model::{List, OutOfMemory, Param, Resolve, WitType};

/// The type that a function answers: `()` where it has no result.
pub(crate) fn printed_result(
    alloc: Global,
    resolve: &Resolve,
    answer: &Option<WitType>,
) -> Result<TypeExpr, OutOfMemory>
    ensures { IfOk result (λ printed. printed ≡ printed_result resolve.now.types answer.now) }
{
    match answer {
        None => Ok(TypeExpr::Unit),
        Some(ty) => part_type(alloc, resolve.types.as_slice(), *ty),
    }
}

fn printed_param(
    alloc: Global,
    resolve: &Resolve,
    facts: &Types,
    p: &Param,
) -> Result<FnParam, OutOfMemory>
    requires facts { HasFacts resolve.now facts.now }
    requires within { type_in_range resolve.now p.now.ty ≡ true }
    ensures { IfOk result (λ printed. printed ≡ printed_param resolve.now.types p.now) }
{
    Ok(FnParam {
        name: to_rust_ident(alloc, &p.name)?,
        ty: param_type(alloc, resolve, facts, p.ty)?,
    })
}

/// The parameters of an imported function, in order.
pub(crate) fn printed_params(
    alloc: Global,
    resolve: &Resolve,
    facts: &Types,
    params: &[Param],
) -> Result<List<FnParam>, OutOfMemory>
    requires facts { HasFacts resolve.now facts.now }
    requires within { list_all (λ p. type_in_range resolve.now p.ty) params.now ≡ true }
    ensures { IfOk result (λ printed. printed ≡ map (printed_param resolve.now.types) params.now) }
{
    let mut printed = List::new(alloc);
    for p in params {
        printed.push(printed_param(alloc, resolve, facts, p)?)?;
    }
    Ok(printed)
}
