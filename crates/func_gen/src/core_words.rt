//! The core words of an imported function.

ghost use Rattle.std.specs.Prelude.{◌≡◌, true, option_to_list, IfOk};
ghost use Rattle.wit_model.specs.IndexRange.{function_in_range};
ghost use Rattle.wit_model.specs.WellFormed.{IsWellFormed};
ghost use Rattle.abi_bindgen.specs.Calls.{import_params, import_results};

use std::alloc::Global;
use wit_layout::{AbiVariant, wasm_signature};
use wit_model::{Function, List, OutOfMemory, Resolve, WasmType};

/// The core words that an import is passed: those of its parameters, or a pointer where they are more than sixteen, and a pointer where its
/// result has more than one word, as the Canonical ABI's `flatten_functype` has it.
pub fn import_params(
    alloc: Global,
    resolve: &Resolve,
    func: &Function,
) -> Result<List<WasmType>, OutOfMemory>
    requires well { IsWellFormed resolve.now }
    requires within { function_in_range resolve.now func.now ≡ true }
    ensures { IfOk result (λ params. params ≡ import_params resolve.now.types func.now) }
{
    let told = wasm_signature(resolve, AbiVariant::GuestImport, func).params;
    let mut params = List::new(alloc);
    for word in &told.words[..told.count as usize] {
        params.push(*word)?;
    }
    if told.more {
        params.push(WasmType::Pointer)?;
        return Ok(params);
    }
    Ok(params)
}

/// The core word that an import answers, if there is one.
pub fn import_result(resolve: &Resolve, func: &Function) -> Option<WasmType>
    requires well { IsWellFormed resolve.now }
    requires within { function_in_range resolve.now func.now ≡ true }
    ensures { option_to_list result ≡ import_results resolve.now.types func.now }
{
    let signature = wasm_signature(resolve, AbiVariant::GuestImport, func);
    if signature.results.count == 0 {
        return None;
    }
    Some(signature.results.words[0])
}
