//! The body of an export's post-return function.

ghost use Rattle.std.specs.Prelude.{◌≡◌, ◌<◌, length, true, IfOk};
ghost use Rattle.abi_bindgen.specs.Served.{ServesResult};
ghost use Rattle.wrapper_meaning.specs.Shape.{result_shape};
ghost use Rattle.wit_model.specs.IndexRange.{function_in_range};
ghost use Rattle.wit_model.specs.WellFormed.{IsWellFormed};
ghost use Rattle.wrapper_closing.specs.Bodies.{MakesPostReturn};
ghost use Rattle.wrapper_closing.specs.Parts.{AreParts};

use crate::parts::{BodyParts, begin};
use abi_driver::post_return;
use func_gen::Body;
use std::alloc::Global;
use wit_model::{Function, OutOfMemory, Resolve};

/// The body of the post-return function of an exported function, which is the driver's code by which the blocks of its result are freed. The
/// answer is `OutOfMemory` where there is no memory for it.
pub fn post_return_body(
    alloc: Global,
    resolve: &Resolve,
    func: &Function,
    parts: BodyParts<'_>,
) -> Result<Body, OutOfMemory>
    requires well { IsWellFormed resolve.now }
    requires within { function_in_range resolve.now func.now ≡ true }
    requires serves { ServesResult (result_shape resolve.now.types func.now) }
    requires parts { AreParts resolve.now.types parts }
    requires some { 0 < length parts.params }
    ensures { IfOk result (MakesPostReturn resolve.now.types func.now parts.entry) }
{
    let mut bindgen = begin(alloc, false, parts)?;
    post_return(alloc, resolve, func, &mut bindgen)?;
    Ok(bindgen.finish())
}
