//! Words are cast to the types of other words, and zeros are made.

ghost use Rattle.std.specs.Prelude.{◌≡◌, [], length, IfOk, OnOk};
ghost use Rattle.std.specs.List.{list_all};
ghost use Rattle.abi_bindgen.specs.Code.{cast_code, zero_code};
ghost use Rattle.abi_bindgen.specs.Flows.{Flows};
ghost use Rattle.abi_bindgen.specs.SlotCasts.{AddsZeros, AreOrdered, CastsAll, ReadBack, casts_between, is_no_cast};

use crate::bindgen::Bindgen;
use crate::instruction::Instruction;
use crate::sending::send;
use std::alloc::Global;
use wit_layout::{Bitcast, cast};
use wit_model::{List, OutOfMemory, Resolve, WasmType};

/// The cast from each type to the one at its place.
fn casts_between(
    alloc: Global,
    froms: &[WasmType],
    tos: &[WasmType],
) -> Result<List<Bitcast>, OutOfMemory>
    requires { AreOrdered froms.now tos.now }
    ensures casts { IfOk result (λ casts. casts ≡ casts_between froms.now tos.now) }
    ensures back { OnOk result (ReadBack froms.now tos.now) }
{
    let mut casts = List::new(alloc);
    for i in 0..froms.len() {
        casts.push(cast(froms[i], tos[i]))?;
    }
    Ok(casts)
}

/// Whether a cast leaves each word as it is.
fn is_no_cast(cast: Bitcast) -> bool
    ensures { result ≡ is_no_cast cast }
{
    match cast {
        Bitcast::None => true,
        _ => false,
    }
}

/// Whether none of the casts changes anything.
fn change_nothing(casts: &[Bitcast]) -> bool
    ensures { result ≡ list_all is_no_cast casts.now }
{
    for cast in casts {
        if !is_no_cast(*cast) {
            return false;
        }
    }
    true
}

/// Words of some types become words of others, by one instruction where one of the casts changes anything. The answer is `OutOfMemory`
/// as of `send`, and where there is no memory for the casts.
pub fn cast_words<B: Bindgen>(
    alloc: Global,
    resolve: &Resolve,
    bindgen: &mut B,
    words: List<B::Operand>,
    froms: &[WasmType],
    tos: &[WasmType],
) -> Result<List<B::Operand>, OutOfMemory>
    requires ordered { AreOrdered froms.now tos.now }
    requires enough { length words ≡ length froms.now }
    ensures casts { IfOk result (λ os. CastsAll B.meaning froms.now tos.now words os bindgen.old bindgen.new) }
    ensures back { OnOk result (ReadBack froms.now tos.now) }
    ensures flows { IfOk result (λ os. Flows B.meaning resolve.now.types (cast_code froms.now tos.now) words os bindgen.old bindgen.new) }
{
    let casts = casts_between(alloc, froms, tos)?;
    let casts = casts.as_slice();
    if change_nothing(casts) {
        return Ok(words);
    }
    let cast = send(alloc, resolve, bindgen, Instruction::Bitcasts(casts), words)?;
    Ok(cast)
}

/// A zero of each type, by one instruction where there is a type.
pub(crate) fn zero_words<B: Bindgen>(
    alloc: Global,
    resolve: &Resolve,
    bindgen: &mut B,
    types: &[WasmType],
) -> Result<List<B::Operand>, OutOfMemory>
    ensures zeros { IfOk result (λ os. AddsZeros B.meaning types.now os bindgen.old bindgen.new) }
    ensures flows { IfOk result (λ os. Flows B.meaning resolve.now.types (zero_code types.now) [] os bindgen.old bindgen.new) }
{
    if types.len() == 0 {
        return Ok(List::new(alloc));
    }
    let none = List::new(alloc);
    let zeros = send(alloc, resolve, bindgen, Instruction::ConstZero(types), none)?;
    Ok(zeros)
}
