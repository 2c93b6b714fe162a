//! The core parameters of exports and of their post-return functions, and the core results.

ghost use Rattle.std.specs.Prelude.{◌≡◌, ◌≤◌, ◌+◌, ◌++◌, ◌∷◌, true, length, option_to_list, take, IfOk, OnOk};
ghost use Rattle.wit_model.specs.Distinct.{is_distinct};
ghost use Rattle.wit_model.specs.IndexRange.{function_in_range};
ghost use Rattle.wit_model.specs.WellFormed.{IsWellFormed};
ghost use Rattle.wrapper_faithful.specs.Passed.{passed};
ghost use Rattle.abi_driver.specs.Exports.{export_params};
ghost use Rattle.wrapper_closing.specs.Params.{arg_name, arg_names, arg_types, core_args, export_args, param_types, result_types, ret_area, return_args};

use rust_tree::CoreParam;
use std::alloc::Global;
use wit_layout::{AbiVariant, Flat, wasm_signature};
use wit_model::{Function, List, OutOfMemory, Resolve, Text, WasmType};

/// The name of a core parameter, by its number.
#[tactic(auto, unfolding(crate::specs::Params::arg_prefix))]
fn arg_name(alloc: Global, n: u32) -> Result<Text, OutOfMemory>
    ensures { IfOk result (λ name. name ≡ arg_name n) }
{
    let mut name = Text::from_str(alloc, "arg")?;
    name.push_number(u64::from(n))?;
    Ok(name)
}

/// Puts core parameters that are numbered from `n` behind others.
fn push_args(
    alloc: Global,
    args: &mut List<CoreParam>,
    n: u32,
    types: &[WasmType],
) -> Result<(), OutOfMemory>
    requires few { n + length types.now ≤ 16 }
    ensures { OnOk result (args.new ≡ args.old ++ core_args n types.now) }
{
    match types.split_first() {
        None => Ok(()),
        Some((ty, types)) => {
            let name = arg_name(alloc, n)?;
            args.push(CoreParam { name, ty: *ty })?;
            push_args(alloc, args, n + 1, types)
        }
    }
}

/// Core parameters of these types, numbered from 0.
fn core_args(alloc: Global, types: &[WasmType]) -> Result<List<CoreParam>, OutOfMemory>
    requires few { length types.now ≤ 16 }
    ensures { IfOk result (λ args. args ≡ core_args 0 types.now) }
{
    let mut args = List::new(alloc);
    push_args(alloc, &mut args, 0, types)?;
    Ok(args)
}

/// The words that are told.
fn told(flat: &Flat) -> &[WasmType]
    requires within { flat.now.count ≤ 16 }
    ensures { result.now ≡ take flat.now.count flat.now.words }
{
    &flat.words[..flat.count as usize]
}

/// The core parameters of an export's wrapper, `arg0`, `arg1` and so on: the words of the function's parameters, or where those are
/// more than sixteen one pointer to a record of them, as the Canonical ABI's `flatten_functype` has it.
pub fn core_params(
    alloc: Global,
    resolve: &Resolve,
    func: &Function,
) -> Result<List<CoreParam>, OutOfMemory>
    requires well { IsWellFormed resolve.now }
    requires within { function_in_range resolve.now func.now ≡ true }
    ensures args { IfOk result (λ params. params ≡ export_args (passed resolve.now.types func.now)) }
    ensures typed { IfOk result (λ params. arg_types params ≡ param_types (passed resolve.now.types func.now)) }
    ensures many { IfOk result (λ params. length params ≡ length (export_params resolve.now.types func.now)) }
    ensures distinct { IfOk result (λ params. is_distinct (ret_area ∷ arg_names params) ≡ true) }
{
    let signature = wasm_signature(resolve, AbiVariant::GuestExport, func);
    core_args(alloc, told(&signature.params))
}

/// The core parameters of an export's post-return function, which is given what the wrapper returned: `arg0`, a pointer, where the
/// function's result has more than one word.
pub fn post_return_params(
    alloc: Global,
    resolve: &Resolve,
    func: &Function,
) -> Result<List<CoreParam>, OutOfMemory>
    requires well { IsWellFormed resolve.now }
    requires within { function_in_range resolve.now func.now ≡ true }
    ensures args { IfOk result (λ params. params ≡ return_args (passed resolve.now.types func.now)) }
    ensures typed { IfOk result (λ params. arg_types params ≡ result_types (passed resolve.now.types func.now)) }
    ensures distinct { IfOk result (λ params. is_distinct (ret_area ∷ arg_names params) ≡ true) }
{
    let signature = wasm_signature(resolve, AbiVariant::GuestExport, func);
    core_args(alloc, told(&signature.results))
}

/// The core result of an export's wrapper, if it has one: the word of the function's result, or where that has more than one word a
/// pointer to it, as the Canonical ABI's `flatten_functype` has it.
pub fn core_result(resolve: &Resolve, func: &Function) -> Option<WasmType>
    requires well { IsWellFormed resolve.now }
    requires within { function_in_range resolve.now func.now ≡ true }
    ensures { option_to_list result ≡ result_types (passed resolve.now.types func.now) }
{
    let signature = wasm_signature(resolve, AbiVariant::GuestExport, func);
    told(&signature.results).first().copied()
}
