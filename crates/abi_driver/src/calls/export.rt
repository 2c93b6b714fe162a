//! The whole code of an export.

ghost use Rattle.std.specs.Prelude.{◌≡◌, ◌<◌, ◌≤◌, ◌+◌, ◌^◌, ◌++◌, [], IsTrue, Some, true, false, length, map, option_to_list, IfOk, IfSome, OnOk};
ghost use Rattle.std.specs.List.{list_all};
ghost use Rattle.std.specs.Option.{option_map};
ghost use Rattle.wit_model.specs.IndexRange.{function_in_range};
ghost use Rattle.wit_model.specs.TypeOrder.{GoesDown, payload_below, type_below};
ghost use Rattle.wit_model.specs.WellFormed.{IsWellFormed};
ghost use Rattle.wrapper_meaning.specs.Represents.{are_indirect, is_indirect, param_words};
ghost use Rattle.wrapper_meaning.specs.Shape.{param_shapes, result_shape, shape_of};
ghost use Rattle.abi_bindgen.specs.Code as code;
ghost use Rattle.abi_bindgen.specs.Code.{
  export_code,
  get_arguments,
  give_code,
  lower_code,
  store_answer_code,
  take_code,
};
ghost use Rattle.abi_driver.specs.Exports.{
  CallsExport,
  GivesAnswer,
  ReadsWords,
  StoresAnswer,
  TakesArgumentsOver,
  argument_words,
  export_params,
};
ghost use Rattle.abi_bindgen.specs.Frees.{nowhere};
ghost use Rattle.abi_bindgen.specs.Instructions.{shapes_of};
ghost use Rattle.abi_bindgen.specs.Laws.{IsCount, IsFresh};
ghost use Rattle.abi_bindgen.specs.Lifts.{LiftsArguments};
ghost use Rattle.abi_bindgen.specs.Lowers.{LowersAnswer};
ghost use Rattle.abi_bindgen.specs.Flows.{Flows};
ghost use Rattle.abi_bindgen.specs.Served.{Serves, ServesAll, ServesFunction, ServesResult};
ghost use Rattle.abi_bindgen.specs.WordCount.{word_count};
ghost use Rattle.abi_bindgen.specs.Written.{Writes, WritesEach, WritesFunction, WritesPart};
ghost use Rattle.abi_driver.specs.Low.{IsSmallRecord};

use crate::calls::area::point_at;
use crate::calls::record::load_arguments;
use crate::lift::lift_flat;
use crate::memory::place::start;
use crate::memory::store::store_type;
use abi_bindgen::{Bindgen, Instruction, Operand, argument, lower_flat, only, param_types, send};
use std::alloc::Global;
use wit_layout::{AbiVariant, flat_types, wasm_signature};
use wit_model::{Function, List, OutOfMemory, Resolve, WitType};

/// The code of an exported function.
pub(super) fn call_export<B: Bindgen>(
    alloc: Global,
    resolve: &Resolve,
    func: &Function,
    bindgen: &mut B,
) -> Result<(), OutOfMemory>
    requires well { IsWellFormed resolve.now }
    requires within { function_in_range resolve.now func.now ≡ true }
    requires side { B.meaning.exports bindgen.old ≡ true }
    requires knows { B.meaning.knows bindgen.old resolve.now.types }
    requires arguments { IsCount B.meaning (B.meaning.arguments bindgen.old) (length (export_params resolve.now.types func.now)) }
    requires serves { ServesFunction resolve.now.types func.now }
    requires writes { WritesFunction B.meaning resolve.now.types func.now bindgen.old }
    requires small { IsSmallRecord resolve.now.types (map (λ p. p.ty) func.now.params) }
    requires fresh { IsFresh B.meaning bindgen.old }
    ensures calls { OnOk result (CallsExport B.meaning func.now (param_shapes resolve.now.types func.now) (result_shape resolve.now.types func.now) bindgen.old bindgen.new) }
    ensures flows { OnOk result (Flows B.meaning resolve.now.types (export_code resolve.now.types func.entry) [] [] bindgen.old bindgen.new) }
{
    let signature = wasm_signature(resolve, AbiVariant::GuestExport, func);
    let indirect = signature.indirect_params;
    let retptr = signature.retptr;
    let tys = param_types(alloc, func.params.as_slice())?;
    let values = take_arguments(alloc, resolve, bindgen, tys.as_slice(), indirect)?;
    let answer = send(
        alloc,
        resolve,
        bindgen,
        Instruction::CallInterface(func),
        values,
    )?;
    let given = give_answer(
        alloc,
        resolve,
        bindgen,
        answer.as_slice(),
        func.result,
        retptr,
    )?;
    let given_count = given.len() as u32;
    send(
        alloc,
        resolve,
        bindgen,
        Instruction::Return(given_count),
        given,
    )?;
    Ok(())
}

/// The values of the arguments, which are words, or the address of a record.
fn take_arguments<B: Bindgen>(
    alloc: Global,
    resolve: &Resolve,
    bindgen: &mut B,
    tys: &[WitType],
    indirect: bool,
) -> Result<List<B::Operand>, OutOfMemory>
    requires well { IsWellFormed resolve.now }
    requires below { list_all (λ ty. type_below (length resolve.now.types) ty) tys.now ≡ true }
    requires knows { B.meaning.knows bindgen.old resolve.now.types }
    requires arguments { IsCount B.meaning (B.meaning.arguments bindgen.old) (length (argument_words (shapes_of resolve.now.types tys.now))) }
    requires indirect { indirect ≡ are_indirect (shapes_of resolve.now.types tys.now) }
    requires serves { ServesAll (shapes_of resolve.now.types tys.now) }
    requires writes { WritesEach B.meaning resolve.now.types tys.now bindgen.old }
    requires small { IsSmallRecord resolve.now.types tys.now }
    requires few { length tys.now < 2 ^ 32 }
    ensures takes { IfOk result (λ values. TakesArgumentsOver B.meaning (shapes_of resolve.now.types tys.now) values bindgen.old bindgen.new) }
    ensures flows { IfOk result (λ values. Flows B.meaning resolve.now.types (take_code resolve.now.types tys.now) [] values bindgen.old bindgen.new) }
{
    if indirect {
        let loaded = load_arguments(alloc, resolve, bindgen, tys)?;
        return Ok(loaded);
    }
    let values = lift_arguments(alloc, resolve, bindgen, tys)?;
    Ok(values)
}

/// The values of the arguments, which are words: those of each are read and lifted before those of the next.
fn lift_arguments<B: Bindgen>(
    alloc: Global,
    resolve: &Resolve,
    bindgen: &mut B,
    tys: &[WitType],
) -> Result<List<B::Operand>, OutOfMemory>
    requires well { IsWellFormed resolve.now }
    requires below { list_all (λ ty. type_below (length resolve.now.types) ty) tys.now ≡ true }
    requires direct { are_indirect (shapes_of resolve.now.types tys.now) ≡ false }
    requires arguments { IsCount B.meaning (B.meaning.arguments bindgen.old) (length (param_words (shapes_of resolve.now.types tys.now))) }
    requires serves { ServesAll (shapes_of resolve.now.types tys.now) }
    requires writes { WritesEach B.meaning resolve.now.types tys.now bindgen.old }
    ensures lifts { IfOk result (λ values. LiftsArguments B.meaning (shapes_of resolve.now.types tys.now) 0 values bindgen.old bindgen.new) }
    ensures flows { IfOk result (λ values. Flows B.meaning resolve.now.types (code.lift_arguments resolve.now.types 0 tys.now) [] values bindgen.old bindgen.new) }
{
    let mut values = List::new(alloc);
    let mut first = 0;
    for i in 0..tys.len() {
        let flat = flat_types(resolve, &tys[i]);
        let count = flat.count;
        let words = read_words(alloc, resolve, bindgen, first, count)?;
        let value = lift_flat(alloc, resolve, bindgen, &words, &tys[i])?;
        values.push(value)?;
        first += count;
    }
    Ok(values)
}

/// The arguments from one on, which are so many words.
fn read_words<B: Bindgen>(
    alloc: Global,
    resolve: &Resolve,
    bindgen: &mut B,
    first: u32,
    count: u32,
) -> Result<List<B::Operand>, OutOfMemory>
    requires few { first + count ≤ 16 }
    requires arguments { IfSome (B.meaning.arguments bindgen.old) (λ k. first + count ≤ k) }
    ensures reads { IfOk result (λ words. ReadsWords B.meaning first count words bindgen.old bindgen.new) }
    ensures flows { IfOk result (λ words. Flows B.meaning resolve.now.types (get_arguments first words) [] words bindgen.old bindgen.new) }
{
    let mut words = List::new(alloc);
    for i in 0..count {
        let word = argument(alloc, resolve, bindgen, first + i)?;
        words.push(word)?;
    }
    Ok(words)
}

/// The words of the answer, where there is one, or the address of the area in which it was stored.
#[tactic(auto, unfolding(wit_model::specs::TypeOrder::payload_below))]
fn give_answer<B: Bindgen>(
    alloc: Global,
    resolve: &Resolve,
    bindgen: &mut B,
    answer: &[B::Operand],
    ty: Option<WitType>,
    retptr: bool,
) -> Result<List<B::Operand>, OutOfMemory>
    requires well { IsWellFormed resolve.now }
    requires down { GoesDown resolve.now.types }
    requires below { IsTrue (payload_below (length resolve.now.types) ty) }
    requires side { B.meaning.exports bindgen.old ≡ true }
    requires knows { B.meaning.knows bindgen.old resolve.now.types }
    requires due { length answer.now ≡ length (option_to_list ty) }
    requires retptr { retptr ≡ is_indirect (option_map (shape_of resolve.now.types) ty) }
    requires serves { ServesResult (option_map (shape_of resolve.now.types) ty) }
    requires writes { WritesPart B.meaning resolve.now.types ty bindgen.old }
    requires closed { B.meaning.opened bindgen.old ≡ [] }
    ensures gives { IfOk result (λ given. GivesAnswer B.meaning (option_map (shape_of resolve.now.types) ty) answer.now given bindgen.old bindgen.new) }
    ensures flows { IfOk result (λ given. Flows B.meaning resolve.now.types (give_code resolve.now.types ty) answer.now given bindgen.old bindgen.new) }
{
    match ty {
        None => Ok(List::new(alloc)),
        Some(ty) if retptr => store_answer(alloc, resolve, bindgen, answer, ty),
        Some(ty) => lower_answer(alloc, resolve, bindgen, answer, ty),
    }
}

/// The answer is given away as words.
fn lower_answer<B: Bindgen>(
    alloc: Global,
    resolve: &Resolve,
    bindgen: &mut B,
    answer: &[B::Operand],
    ty: WitType,
) -> Result<List<B::Operand>, OutOfMemory>
    requires well { IsWellFormed resolve.now }
    requires down { GoesDown resolve.now.types }
    requires below { IsTrue (type_below (length resolve.now.types) ty) }
    requires side { B.meaning.exports bindgen.old ≡ true }
    requires due { length answer.now ≡ 1 }
    requires serves { Serves (shape_of resolve.now.types ty) }
    requires writes { Writes B.meaning resolve.now.types ty bindgen.old }
    requires few { word_count resolve.now.types ty ≤ 16 }
    ensures lowers { IfOk result (λ given. LowersAnswer B.meaning (Some (shape_of resolve.now.types ty)) answer.now given bindgen.old bindgen.new) }
    ensures flows { IfOk result (λ given. Flows B.meaning resolve.now.types (lower_code resolve.now.types true ty) answer.now given bindgen.old bindgen.new) }
{
    let value = answer[0].copy(alloc)?;
    let words = lower_flat(alloc, resolve, bindgen, value, &ty, true)?;
    Ok(words)
}

/// The answer is given away in the area.
fn store_answer<B: Bindgen>(
    alloc: Global,
    resolve: &Resolve,
    bindgen: &mut B,
    answer: &[B::Operand],
    ty: WitType,
) -> Result<List<B::Operand>, OutOfMemory>
    requires well { IsWellFormed resolve.now }
    requires down { GoesDown resolve.now.types }
    requires below { IsTrue (type_below (length resolve.now.types) ty) }
    requires side { B.meaning.exports bindgen.old ≡ true }
    requires knows { B.meaning.knows bindgen.old resolve.now.types }
    requires due { length answer.now ≡ 1 }
    requires serves { Serves (shape_of resolve.now.types ty) }
    requires writes { Writes B.meaning resolve.now.types ty bindgen.old }
    requires closed { B.meaning.opened bindgen.old ≡ [] }
    ensures stores { IfOk result (λ given. StoresAnswer B.meaning (shape_of resolve.now.types ty) answer.now given bindgen.old bindgen.new) }
    ensures flows { IfOk result (λ given. Flows B.meaning resolve.now.types (store_answer_code resolve.now.types ty) answer.now given bindgen.old bindgen.new) }
{
    let address = point_at(resolve, bindgen, ty)?;
    let value = answer[0].copy(alloc)?;
    let start = start(bindgen);
    store_type(alloc, resolve, bindgen, &address, start, value, ty, true)?;
    let given = only(alloc, address)?;
    Ok(given)
}
