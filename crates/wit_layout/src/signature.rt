//! The core signature of a function.

ghost use Rattle.std.specs.Prelude.{◌≡◌, IsTrue, List, Some, length, slice_get, take};
ghost use Rattle.wit_model.specs.declared.function.Function.{Function};
ghost use Rattle.wit_model.specs.declared.types.TypeDef.{TypeDef};
ghost use Rattle.wit_model.specs.IndexRange.{function_in_range};
ghost use Rattle.wit_model.specs.TypeOrder.{GoesDown};
ghost use Rattle.wit_model.specs.WellFormed.{IsWellFormed};
ghost use Rattle.wit_layout.specs.declared.signature.AbiVariant.{AbiVariant};
ghost use Rattle.wit_layout.specs.Flat.{EachHasWords};
ghost use Rattle.wit_layout.specs.inside.Words.{kept};
ghost use Rattle.wit_layout.specs.Signature.{IsCoreSignature, IsFlattenedFunctype, core_params, direct_words, has_param, param_words, params_below, result_words};

use crate::flat::Flat;
use crate::flatten::{flatten_payload, flatten_type};
use crate::words::Words;
use wit_model::{Function, Param, Resolve, TypeDef, WasmType};

/// From which side a function is called: an import, which the component calls, or an export, which is called in it.
#[derive(Clone, Copy, Debug, PartialEq, Eq)]
pub enum AbiVariant {
    GuestImport,
    GuestExport,
}

/// The core signature of a function.
#[derive(Clone, Copy, Debug)]
pub struct WasmSignature {
    /// The words of the parameters; or, where they are more than sixteen, one pointer to a record of them. For an import
    /// whose result comes back by a pointer, that pointer stands behind them, and may be a seventeenth word.
    pub params: Flat,
    /// The word of the result; for an export whose result has more than one word, a pointer to it.
    pub results: Flat,
    /// Whether the parameters go by a pointer.
    pub indirect_params: bool,
    /// Whether the result comes back by a pointer.
    pub retptr: bool,
}

impl WasmSignature {
    /// The core parameter at a place, counted from 0, also where it is the seventeenth, which is the pointer for the
    /// result.
    pub fn param(&self, nth: u32) -> WasmType
        requires { IsTrue (has_param self.now nth) }
        ensures { (types : List TypeDef) (variant : AbiVariant) (func : Function) → IsFlattenedFunctype types variant func self.now
            → slice_get (core_params variant (param_words types func.params) (result_words types func.result)) nth ≡ Some result }
    {
        if nth < 16 {
            self.params.words[nth as usize]
        } else {
            WasmType::Pointer
        }
    }
}

/// The core signature of a function whose types are in tables that [`Resolve::check`] has passed: the Canonical ABI's
/// `flatten_functype`, by which at most sixteen words of parameters and one of the result are passed directly. It takes no
/// memory.
pub fn wasm_signature(resolve: &Resolve, variant: AbiVariant, func: &Function) -> WasmSignature
    requires well { IsWellFormed resolve.now }
    requires within { IsTrue (function_in_range resolve.now func.now) }
    ensures { IsFlattenedFunctype resolve.now.types variant func.now result }
{
    let types = resolve.types.as_slice();
    let params = flatten_params(types, func.params.as_slice());
    let answer = flatten_payload(types, func.result, Words::none(17));
    core_signature(variant, params, answer)
}

/// The words of the parameters, one after another.
fn flatten_params(types: &[TypeDef], params: &[Param]) -> Words
    requires down { GoesDown types.now }
    requires worded { EachHasWords types.now }
    requires within { IsTrue (params_below (length types.now) params.now) }
    ensures words { kept result ≡ take 17 (param_words types.now params.now) }
    ensures room { result.room ≡ 17 }
{
    let mut all = Words::none(17);
    for param in params {
        if all.left() == 0 {
            return all;
        }
        all = flatten_type(types, param.ty, all);
    }
    all
}

/// The parameters as they are passed: as words, or by one pointer.
fn direct_params(params: Words) -> Words
    requires { params.room ≡ 17 }
    ensures words { kept result ≡ direct_words (kept params) }
    ensures room { result.room ≡ 17 }
{
    if params.len() > 16 {
        return Words::none(17).with(WasmType::Pointer);
    }
    params
}

fn core_signature(variant: AbiVariant, params: Words, answer: Words) -> WasmSignature
    requires params { params.room ≡ 17 }
    requires answer { answer.room ≡ 17 }
    ensures { IsCoreSignature variant (kept params) (kept answer) result }
{
    let retptr = answer.len() > 1;
    let direct = direct_params(params);
    let (params_told, results) = match variant {
        AbiVariant::GuestImport if retptr => (direct.with(WasmType::Pointer), Words::none(17)),
        AbiVariant::GuestExport if retptr => (direct, Words::none(17).with(WasmType::Pointer)),
        _ => (direct, answer),
    };
    WasmSignature {
        params: Flat::of_words(params_told),
        results: Flat::of_words(results),
        indirect_params: params.len() > 16,
        retptr,
    }
}
