//! The body of an export's wrapper.

ghost use Rattle.std.specs.Prelude.{◌≡◌, length, map, true, IfOk};
ghost use Rattle.abi_driver.specs.Exports.{export_params};
ghost use Rattle.abi_bindgen.specs.Served.{ServesFunction};
ghost use Rattle.abi_driver.specs.Low.{IsSmallRecord};
ghost use Rattle.wit_model.specs.IndexRange.{function_in_range};
ghost use Rattle.wit_model.specs.WellFormed.{IsWellFormed};
ghost use Rattle.wrapper_closing.specs.Bodies.{MakesExport};
ghost use Rattle.wrapper_closing.specs.Parts.{AreParts, CanWriteFunction};

use crate::parts::{BodyParts, begin};
use abi_driver::{LiftLower, call};
use func_gen::Body;
use std::alloc::Global;
use wit_layout::AbiVariant;
use wit_model::{Function, OutOfMemory, Resolve};

/// The body of the wrapper of an exported function: the block that calls its method, and the driver's code behind it. The answer is
/// `OutOfMemory` where there is no memory for it.
pub fn export_body(
    alloc: Global,
    resolve: &Resolve,
    func: &Function,
    parts: BodyParts<'_>,
) -> Result<Body, OutOfMemory>
    requires well { IsWellFormed resolve.now }
    requires within { function_in_range resolve.now func.now ≡ true }
    requires serves { ServesFunction resolve.now.types func.now }
    requires small { IsSmallRecord resolve.now.types (map (λ p. p.ty) func.now.params) }
    requires parts { AreParts resolve.now.types parts }
    requires writes { CanWriteFunction resolve.now.types parts.tables.now.sites func.now }
    requires many { length parts.params ≡ length (export_params resolve.now.types func.now) }
    ensures { IfOk result (MakesExport resolve.now.types func.entry parts.entry) }
{
    let mut bindgen = begin(alloc, false, parts)?;
    call(
        alloc,
        resolve,
        AbiVariant::GuestExport,
        LiftLower::LiftArgsLowerResults,
        func,
        &mut bindgen,
    )?;
    Ok(bindgen.finish())
}
