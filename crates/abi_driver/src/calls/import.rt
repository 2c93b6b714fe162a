//! The whole code of an import.

ghost use Rattle.std.specs.Prelude.{◌≡◌, ◌<◌, ◌≤◌, ◌^◌, ◌++◌, [], IsTrue, Some, true, false, length, map, IfOk, OnOk};
ghost use Rattle.std.specs.List.{list_all};
ghost use Rattle.std.specs.Option.{option_map};
ghost use Rattle.wit_model.specs.IndexRange.{function_in_range};
ghost use Rattle.wit_model.specs.TypeOrder.{GoesDown, payload_below, type_below};
ghost use Rattle.wit_model.specs.WellFormed.{IsWellFormed};
ghost use Rattle.wrapper_meaning.specs.Represents.{are_indirect, is_indirect, result_words};
ghost use Rattle.wrapper_meaning.specs.Shape.{param_shapes, result_shape, shape_of};
ghost use Rattle.abi_bindgen.specs.Code as code;
ghost use Rattle.abi_bindgen.specs.Code.{import_code, lift_code, load_code, pass_code, point_code, read_code};
ghost use Rattle.abi_bindgen.specs.Frees.{nowhere};
ghost use Rattle.abi_driver.specs.Imports.{
  CallsImport,
  LoadsAnswer,
  PassesArguments,
  PointsAtResult,
  ReadsAnswer,
};
ghost use Rattle.abi_bindgen.specs.Instructions.{shapes_of};
ghost use Rattle.abi_bindgen.specs.Laws.{IsCount};
ghost use Rattle.abi_bindgen.specs.Lifts.{LiftsAnswer};
ghost use Rattle.abi_bindgen.specs.Lowers.{LowersArguments};
ghost use Rattle.abi_bindgen.specs.Flows.{Flows};
ghost use Rattle.abi_bindgen.specs.Served.{Serves, ServesAll, ServesFunction, ServesResult};
ghost use Rattle.abi_bindgen.specs.WordCount.{word_count};
ghost use Rattle.abi_bindgen.specs.Written.{Writes, WritesEach, WritesFunction, WritesPart};
ghost use Rattle.abi_driver.specs.Low.{IsSmallRecord};

use crate::calls::area::{point_at, store_arguments};
use crate::lift::lift_flat;
use crate::memory::lift_from_memory;
use abi_bindgen::{
    Bindgen, Instruction, Operand, argument, lower_flat, only, param_types, push_copies, send,
};
use std::alloc::Global;
use wit_layout::{AbiVariant, wasm_signature};
use wit_model::{Function, List, OutOfMemory, Resolve, WitType};

/// The code of an imported function.
pub(super) fn call_import<B: Bindgen>(
    alloc: Global,
    resolve: &Resolve,
    func: &Function,
    bindgen: &mut B,
) -> Result<(), OutOfMemory>
    requires well { IsWellFormed resolve.now }
    requires within { function_in_range resolve.now func.now ≡ true }
    requires side { B.meaning.imports bindgen.old ≡ true }
    requires knows { B.meaning.knows bindgen.old resolve.now.types }
    requires arguments { IsCount B.meaning (B.meaning.arguments bindgen.old) (length func.now.params) }
    requires serves { ServesFunction resolve.now.types func.now }
    requires writes { WritesFunction B.meaning resolve.now.types func.now bindgen.old }
    requires small { IsSmallRecord resolve.now.types (map (λ p. p.ty) func.now.params) }
    requires closed { B.meaning.opened bindgen.old ≡ [] }
    ensures calls { OnOk result (CallsImport B.meaning func.now (param_shapes resolve.now.types func.now) (result_shape resolve.now.types func.now) bindgen.old bindgen.new) }
    ensures flows { OnOk result (Flows B.meaning resolve.now.types (import_code resolve.now.types func.entry) [] [] bindgen.old bindgen.new) }
{
    let signature = wasm_signature(resolve, AbiVariant::GuestImport, func);
    let indirect = signature.indirect_params;
    let retptr = signature.retptr;
    let tys = param_types(alloc, func.params.as_slice())?;
    let words = pass_arguments(alloc, resolve, bindgen, tys.as_slice(), indirect)?;
    let pointer = point_at_result(alloc, resolve, bindgen, func.result, retptr)?;
    let all = both(alloc, words.as_slice(), pointer.as_slice())?;
    let answer = send(alloc, resolve, bindgen, Instruction::CallWasm(func), all)?;
    let given = read_answer(
        alloc,
        resolve,
        bindgen,
        pointer.as_slice(),
        &answer,
        func.result,
        retptr,
    )?;
    let count = given.len() as u32;
    send(alloc, resolve, bindgen, Instruction::Return(count), given)?;
    Ok(())
}

/// Some operands and then others.
fn both<O: Operand>(alloc: Global, first: &[O], later: &[O]) -> Result<List<O>, OutOfMemory>
    ensures { IfOk result (λ all. all ≡ first.now ++ later.now) }
{
    let mut all = Vec::new(alloc);
    push_copies(&mut all, alloc, first)?;
    push_copies(&mut all, alloc, later)?;
    Ok(List::from_vec(all))
}

/// The words of all arguments, or the address of the record of them.
fn pass_arguments<B: Bindgen>(
    alloc: Global,
    resolve: &Resolve,
    bindgen: &mut B,
    tys: &[WitType],
    indirect: bool,
) -> Result<List<B::Operand>, OutOfMemory>
    requires well { IsWellFormed resolve.now }
    requires down { GoesDown resolve.now.types }
    requires below { list_all (λ ty. type_below (length resolve.now.types) ty) tys.now ≡ true }
    requires side { B.meaning.imports bindgen.old ≡ true }
    requires knows { B.meaning.knows bindgen.old resolve.now.types }
    requires arguments { IsCount B.meaning (B.meaning.arguments bindgen.old) (length tys.now) }
    requires indirect { indirect ≡ are_indirect (shapes_of resolve.now.types tys.now) }
    requires serves { ServesAll (shapes_of resolve.now.types tys.now) }
    requires writes { WritesEach B.meaning resolve.now.types tys.now bindgen.old }
    requires small { IsSmallRecord resolve.now.types tys.now }
    requires few { length tys.now < 2 ^ 32 }
    requires closed { B.meaning.opened bindgen.old ≡ [] }
    ensures passes { IfOk result (λ os. PassesArguments B.meaning (shapes_of resolve.now.types tys.now) os bindgen.old bindgen.new) }
    ensures flows { IfOk result (λ os. Flows B.meaning resolve.now.types (pass_code resolve.now.types tys.now) [] os bindgen.old bindgen.new) }
{
    if indirect {
        let address = store_arguments(alloc, resolve, bindgen, tys)?;
        let stored = only(alloc, address)?;
        return Ok(stored);
    }
    let words = lower_arguments(alloc, resolve, bindgen, tys)?;
    Ok(words)
}

/// The words of all arguments, one after another.
fn lower_arguments<B: Bindgen>(
    alloc: Global,
    resolve: &Resolve,
    bindgen: &mut B,
    tys: &[WitType],
) -> Result<List<B::Operand>, OutOfMemory>
    requires well { IsWellFormed resolve.now }
    requires down { GoesDown resolve.now.types }
    requires below { list_all (λ ty. type_below (length resolve.now.types) ty) tys.now ≡ true }
    requires side { B.meaning.imports bindgen.old ≡ true }
    requires arguments { IsCount B.meaning (B.meaning.arguments bindgen.old) (length tys.now) }
    requires serves { ServesAll (shapes_of resolve.now.types tys.now) }
    requires writes { WritesEach B.meaning resolve.now.types tys.now bindgen.old }
    requires few { length tys.now < 2 ^ 32 }
    requires direct { are_indirect (shapes_of resolve.now.types tys.now) ≡ false }
    ensures lowers { IfOk result (λ os. LowersArguments B.meaning false (shapes_of resolve.now.types tys.now) 0 os bindgen.old bindgen.new) }
    ensures flows { IfOk result (λ os. Flows B.meaning resolve.now.types (code.lower_arguments resolve.now.types tys.now) [] os bindgen.old bindgen.new) }
{
    let mut all = Vec::new(alloc);
    for i in 0..tys.len() {
        let value = argument(alloc, resolve, bindgen, i as u32)?;
        let words = lower_flat(alloc, resolve, bindgen, value, &tys[i], false)?;
        push_copies(&mut all, alloc, words.as_slice())?;
    }
    Ok(List::from_vec(all))
}

/// What denotes the address of the area, where the result passes by it.
#[tactic(auto, unfolding(wit_model::specs::TypeOrder::payload_below))]
fn point_at_result<B: Bindgen>(
    alloc: Global,
    resolve: &Resolve,
    bindgen: &mut B,
    ty: Option<WitType>,
    retptr: bool,
) -> Result<List<B::Operand>, OutOfMemory>
    requires below { IsTrue (payload_below (length resolve.now.types) ty) }
    requires knows { B.meaning.knows bindgen.old resolve.now.types }
    requires retptr { retptr ≡ is_indirect (option_map (shape_of resolve.now.types) ty) }
    requires closed { B.meaning.opened bindgen.old ≡ [] }
    ensures points { IfOk result (λ pointer. PointsAtResult B.meaning (option_map (shape_of resolve.now.types) ty) pointer bindgen.old bindgen.new) }
    ensures flows { IfOk result (λ pointer. Flows B.meaning resolve.now.types (point_code resolve.now.types ty) [] pointer bindgen.old bindgen.new) }
{
    match ty {
        Some(ty) if retptr => {
            let pointer = point_at(resolve, bindgen, ty)?;
            only(alloc, pointer)
        }
        _ => Ok(List::new(alloc)),
    }
}

/// What denotes the answer, where there is one: it is loaded from the area, or lifted from its word.
#[tactic(auto, unfolding(wit_model::specs::TypeOrder::payload_below))]
fn read_answer<B: Bindgen>(
    alloc: Global,
    resolve: &Resolve,
    bindgen: &mut B,
    pointer: &[B::Operand],
    words: &List<B::Operand>,
    ty: Option<WitType>,
    retptr: bool,
) -> Result<List<B::Operand>, OutOfMemory>
    requires well { IsWellFormed resolve.now }
    requires down { GoesDown resolve.now.types }
    requires below { IsTrue (payload_below (length resolve.now.types) ty) }
    requires knows { B.meaning.knows bindgen.old resolve.now.types }
    requires retptr { retptr ≡ is_indirect (option_map (shape_of resolve.now.types) ty) }
    requires pointed { retptr ≡ true → length pointer.now ≡ 1 }
    requires unpointed { retptr ≡ false → pointer.now ≡ [] }
    requires unanswered { retptr ≡ true → words.now ≡ [] }
    requires answered { retptr ≡ false → length words.now ≡ length (result_words (option_map (shape_of resolve.now.types) ty)) }
    requires serves { ServesResult (option_map (shape_of resolve.now.types) ty) }
    requires writes { WritesPart B.meaning resolve.now.types ty bindgen.old }
    ensures reads { IfOk result (λ given. ReadsAnswer B.meaning (option_map (shape_of resolve.now.types) ty) pointer.now words.now given bindgen.old bindgen.new) }
    ensures flows { IfOk result (λ given. Flows B.meaning resolve.now.types (read_code resolve.now.types ty) (words.now ++ pointer.now) given bindgen.old bindgen.new) }
{
    match ty {
        None => Ok(List::new(alloc)),
        Some(ty) if retptr => load_answer(alloc, resolve, bindgen, pointer, ty),
        Some(ty) => lift_answer(alloc, resolve, bindgen, words, ty),
    }
}

/// What denotes the answer, which stands in the area.
fn load_answer<B: Bindgen>(
    alloc: Global,
    resolve: &Resolve,
    bindgen: &mut B,
    pointer: &[B::Operand],
    ty: WitType,
) -> Result<List<B::Operand>, OutOfMemory>
    requires well { IsWellFormed resolve.now }
    requires down { GoesDown resolve.now.types }
    requires below { IsTrue (type_below (length resolve.now.types) ty) }
    requires knows { B.meaning.knows bindgen.old resolve.now.types }
    requires pointed { length pointer.now ≡ 1 }
    requires serves { Serves (shape_of resolve.now.types ty) }
    requires writes { Writes B.meaning resolve.now.types ty bindgen.old }
    ensures loads { IfOk result (λ given. LoadsAnswer B.meaning (shape_of resolve.now.types ty) pointer.now given bindgen.old bindgen.new) }
    ensures flows { IfOk result (λ given. Flows B.meaning resolve.now.types (load_code resolve.now.types ty nowhere) pointer.now given bindgen.old bindgen.new) }
{
    let address = pointer[0].copy(alloc)?;
    let value = lift_from_memory(alloc, resolve, bindgen, address, &ty)?;
    only(alloc, value)
}

/// What denotes the answer, which is a word.
fn lift_answer<B: Bindgen>(
    alloc: Global,
    resolve: &Resolve,
    bindgen: &mut B,
    words: &List<B::Operand>,
    ty: WitType,
) -> Result<List<B::Operand>, OutOfMemory>
    requires well { IsWellFormed resolve.now }
    requires down { GoesDown resolve.now.types }
    requires below { IsTrue (type_below (length resolve.now.types) ty) }
    requires few { length words.now ≤ 16 }
    requires exact { length words.now ≡ word_count resolve.now.types ty }
    requires serves { Serves (shape_of resolve.now.types ty) }
    requires writes { Writes B.meaning resolve.now.types ty bindgen.old }
    ensures lifts { IfOk result (λ given. LiftsAnswer B.meaning (Some (shape_of resolve.now.types ty)) words.now given bindgen.old bindgen.new) }
    ensures flows { IfOk result (λ given. Flows B.meaning resolve.now.types (lift_code resolve.now.types ty) words.now given bindgen.old bindgen.new) }
{
    let value = lift_flat(alloc, resolve, bindgen, words, &ty)?;
    only(alloc, value)
}
