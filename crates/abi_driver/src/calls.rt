//! The whole code of a function.

mod area;
mod export;
mod import;
mod record;

ghost use Rattle.std.specs.Prelude.{◌≡◌, [], true, map, OnOk};
ghost use Rattle.wit_model.specs.IndexRange.{function_in_range};
ghost use Rattle.wit_model.specs.WellFormed.{IsWellFormed};
ghost use Rattle.abi_bindgen.specs.Code.{call_code};
ghost use Rattle.abi_bindgen.specs.Laws.{IsFresh};
ghost use Rattle.abi_bindgen.specs.Flows.{Flows};
ghost use Rattle.abi_bindgen.specs.Served.{ServesFunction};
ghost use Rattle.abi_bindgen.specs.Written.{WritesFunction};
ghost use Rattle.abi_driver.specs.Low.{IsSmallRecord};
ghost use Rattle.abi_driver.specs.WholeCalls.{CallsFunction, HasArguments, IsServed, IsWay};

use crate::calls::export::call_export;
use crate::calls::import::call_import;
use abi_bindgen::Bindgen;
use std::alloc::Global;
use wit_layout::AbiVariant;
use wit_model::{Function, OutOfMemory, Resolve};

/// Which way values pass: arguments are lowered and results lifted, as in an import; or arguments are lifted and results lowered, as in
/// an export.
#[derive(Clone, Copy, Debug, PartialEq, Eq)]
pub enum LiftLower {
    LowerArgsLiftResults,
    LiftArgsLowerResults,
}

/// The code of a function, after `call` of wit-bindgen-core. An import lowers and lends its arguments, calls the core import, and lifts and
/// gives what that answers. An export reads and lifts its arguments, calls the method with them, and lowers and gives away what that answers.
///
/// Arguments of more than sixteen core words pass by the address of a record of them: of an import it is stored in the return area, and
/// of an export it is a block, which is freed when it was read. A result of more than one word passes by the address of the area.
///
/// Of an export's code it is told what it does in a whole in which values of its parameters are passed to the method as they are: only
/// the whole has the method.
///
/// When it is asked for, no block is open, the area was not asked for, and no method was called in the code.
///
/// So far the function is of no resource and answers at once; each parameter and the result is a scalar, a text, an enum or flags, or a
/// record, a tuple, a variant, an option or a result of such, also through aliases; and a record of all parameters has at most 2^31 - 1
/// bytes where pointers have 8. The answer is `OutOfMemory` where there is no memory for the code, or for the operands.
pub fn call<B: Bindgen>(
    alloc: Global,
    resolve: &Resolve,
    variant: AbiVariant,
    dir: LiftLower,
    func: &Function,
    bindgen: &mut B,
) -> Result<(), OutOfMemory>
    requires well { IsWellFormed resolve.now }
    requires within { function_in_range resolve.now func.now ≡ true }
    requires way { IsWay variant dir }
    requires side { IsServed B.meaning variant bindgen.old }
    requires knows { B.meaning.knows bindgen.old resolve.now.types }
    requires serves { ServesFunction resolve.now.types func.now }
    requires writes { WritesFunction B.meaning resolve.now.types func.now bindgen.old }
    requires small { IsSmallRecord resolve.now.types (map (λ p. p.ty) func.now.params) }
    requires fresh { IsFresh B.meaning bindgen.old }
    requires arguments { HasArguments B.meaning resolve.now.types variant func.now bindgen.old }
    ensures calls { OnOk result (CallsFunction B.meaning resolve.now.types variant func.now bindgen.old bindgen.new) }
    ensures flows { OnOk result (Flows B.meaning resolve.now.types (call_code resolve.now.types variant func.entry) [] [] bindgen.old bindgen.new) }
{
    match (variant, dir) {
        (AbiVariant::GuestImport, LiftLower::LowerArgsLiftResults) => {
            call_import(alloc, resolve, func, bindgen)
        }
        (AbiVariant::GuestExport, LiftLower::LiftArgsLowerResults) => {
            call_export(alloc, resolve, func, bindgen)
        }
        _ => unreachable!(),
    }
}
