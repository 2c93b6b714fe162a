//! What an exported function gave is freed, once its caller has read it.

ghost use Rattle.std.specs.Prelude.{◌<◌, [], IsTrue, length, IfSome, OnOk};
ghost use Rattle.std.specs.Option.{option_map};
ghost use Rattle.wit_model.specs.TypeOrder.{GoesDown, payload_below};
ghost use Rattle.wrapper_meaning.specs.Shape.{result_shape, shape_of};
ghost use Rattle.abi_bindgen.specs.Code.{free_result_code, post_return_code};
ghost use Rattle.abi_bindgen.specs.Frees.{FreesResult, PostReturns};
ghost use Rattle.abi_bindgen.specs.Laws.{Adds};
ghost use Rattle.abi_bindgen.specs.Flows.{Flows};
ghost use Rattle.abi_bindgen.specs.Served.{ServesResult};

use crate::dealloc::memory::free_type;
use crate::memory::place::start;
use abi_bindgen::{Bindgen, Instruction, argument, send};
use std::alloc::Global;
use wit_model::{Function, List, OutOfMemory, Resolve, WitType};

/// The code of the post-return function of an export, after `post_return` of wit-bindgen-core: the blocks of its result are
/// freed, which stands at the address that is the first argument, and nothing is given.
///
/// So far a result holds scalars, texts, enums and flags, and records, tuples, variants, options and results of such, also through aliases.
/// The answer is `OutOfMemory` where there is no memory for the code, or for the operands.
pub fn post_return<B: Bindgen>(
    alloc: Global,
    resolve: &Resolve,
    func: &Function,
    bindgen: &mut B,
) -> Result<(), OutOfMemory>
    requires down { GoesDown resolve.now.types }
    requires below { IsTrue (payload_below (length resolve.now.types) func.now.result) }
    requires knows { B.meaning.knows bindgen.old resolve.now.types }
    requires serves { ServesResult (result_shape resolve.now.types func.now) }
    requires argument { IfSome (B.meaning.arguments bindgen.old) (λ k. 0 < k) }
    ensures frees { OnOk result (PostReturns B.meaning (result_shape resolve.now.types func.now) bindgen.old bindgen.new) }
    ensures flows { OnOk result (Flows B.meaning resolve.now.types (post_return_code resolve.now.types func.now.result) [] [] bindgen.old bindgen.new) }
{
    free_result(alloc, resolve, bindgen, func.result)?;
    send(
        alloc,
        resolve,
        bindgen,
        Instruction::Return(0),
        List::new(alloc),
    )?;
    Ok(())
}

/// The blocks of a result, where there is one.
#[tactic(auto, unfolding(wit_model::specs::TypeOrder::payload_below))]
fn free_result<B: Bindgen>(
    alloc: Global,
    resolve: &Resolve,
    bindgen: &mut B,
    ty: Option<WitType>,
) -> Result<(), OutOfMemory>
    requires down { GoesDown resolve.now.types }
    requires below { IsTrue (payload_below (length resolve.now.types) ty) }
    requires knows { B.meaning.knows bindgen.old resolve.now.types }
    requires argument { IfSome (B.meaning.arguments bindgen.old) (λ k. 0 < k) }
    requires serves { ServesResult (option_map (shape_of resolve.now.types) ty) }
    ensures adds { OnOk result (Adds B.meaning bindgen.old bindgen.new) }
    ensures frees { OnOk result (FreesResult B.meaning (option_map (shape_of resolve.now.types) ty) bindgen.old bindgen.new) }
    ensures flows { OnOk result (Flows B.meaning resolve.now.types (free_result_code resolve.now.types ty) [] [] bindgen.old bindgen.new) }
{
    let Some(ty) = ty else {
        return Ok(());
    };
    let address = argument(alloc, resolve, bindgen, 0)?;
    let start = start(bindgen);
    free_type(alloc, resolve, bindgen, &address, start, ty)?;
    Ok(())
}
