//! Names of a body that are the same in all bodies, unless a parameter has them.

ghost use Rattle.std.specs.Prelude.{◌≡◌, IfOk};
ghost use Rattle.func_gen.specs.Scope.{is_used};
ghost use Rattle.rust_gen.specs.FixedName.{IsFixedName, fixed};

use std::alloc::Global;
use wit_model::{OutOfMemory, Text};

fn is_used(used: &[Text], name: &Text) -> bool
    ensures { result ≡ is_used used.now name.now }
{
    used.iter().any(|u| u.as_str() == name.as_str())
}

fn fixed(alloc: Global, base: &str, n: u32) -> Result<Text, OutOfMemory>
    ensures { IfOk result (λ name. name ≡ fixed base.now n) }
{
    let mut name = Text::from_str(alloc, base)?;
    name.push_number(u64::from(n))?;
    Ok(name)
}

/// A fixed name of a body, with the least number behind it that frees it where a parameter has it. There is no memory also
/// where a `u32` holds no such number.
#[tactic(auto, using(crate::proofs::FixedLemmas::unhidden, crate::proofs::FixedLemmas::numbered_name))]
pub(crate) fn fixed_name(alloc: Global, params: &[Text], base: &str) -> Result<Text, OutOfMemory>
    ensures { IfOk result (IsFixedName params.now base.now) }
{
    let name = Text::from_str(alloc, base)?;
    if !is_used(params, &name) {
        return Ok(name);
    }
    for n in 0..u32::MAX {
        let name = fixed(alloc, base, n)?;
        if !is_used(params, &name) {
            return Ok(name);
        }
    }
    Err(OutOfMemory)
}
