//! The types of the parts of a type.

ghost use Rattle.std.specs.Prelude.{◌≡◌, ◌<◌, ◌^◌, length, map, IfOk};

use std::alloc::Global;
use wit_model::{Field, List, OutOfMemory, Param, WitType};

/// The types of some fields, or `OutOfMemory` where there is no memory for them.
pub fn field_types(alloc: Global, members: &[Field]) -> Result<List<WitType>, OutOfMemory>
    ensures { IfOk result (λ tys. tys ≡ map (λ f. f.ty) members.now) }
{
    let mut tys = List::new(alloc);
    for member in members {
        tys.push(member.ty)?;
    }
    Ok(tys)
}

/// The types of some parameters, or `OutOfMemory` where there is no memory for them.
pub fn param_types(alloc: Global, params: &[Param]) -> Result<List<WitType>, OutOfMemory>
    ensures { IfOk result (λ tys. tys ≡ map (λ p. p.ty) params.now) }
{
    let mut tys = List::new(alloc);
    for param in params {
        tys.push(param.ty)?;
    }
    Ok(tys)
}

/// How many there are, of fewer than 2^32.
pub fn part_count(tys: &[WitType]) -> u32
    requires short { length tys.now < 2 ^ 32 }
    ensures { result ≡ length tys.now }
{
    tys.len() as u32
}
