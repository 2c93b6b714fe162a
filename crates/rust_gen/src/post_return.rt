//! The post-return function of an exported function.

ghost use Rattle.std.specs.Prelude.{◌≡◌, ◌∷◌, true, IfOk, OnOk};
ghost use Rattle.wit_model.specs.Distinct.{is_distinct};
ghost use Rattle.wit_model.specs.IndexRange.{function_in_range};
ghost use Rattle.wit_model.specs.WellFormed.{IsWellFormed};
ghost use Rattle.wrapper_meaning.specs.Represents.{is_indirect};
ghost use Rattle.wrapper_meaning.specs.Shape.{result_shape};
ghost use Rattle.wrapper_faithful.specs.Passed.{passed};
ghost use Rattle.wrapper_closing.specs.Params.{arg_names, ret_area, return_args};
ghost use Rattle.rust_gen.specs.Body.{IsReturnCode, IsReturnMade};
ghost use Rattle.rust_gen.specs.Known.{AreAtHand, HasCode};

use crate::export::{ExportHead, export_head, export_parts};
use func_gen::{Body, TypeTables};
use rust_tree::{Block, CoreParam, PostReturnFn, RuntimeItem};
use std::alloc::Global;
use wit_model::{Function, List, OutOfMemory, Resolve};
use wrapper_closing::{post_return_body, post_return_params};

/// The block of a post-return function with these core parameters, and the items of `_rt` that it asks for. The function is given the
/// address of the result.
fn return_code(
    alloc: Global,
    resolve: &Resolve,
    tables: &TypeTables,
    f: &Function,
    params: &[CoreParam],
) -> Result<(Block, List<RuntimeItem>), OutOfMemory>
    requires well { IsWellFormed resolve.now }
    requires within { function_in_range resolve.now f.now ≡ true }
    requires code { HasCode resolve.now.types f.now }
    requires indirect { is_indirect (result_shape resolve.now.types f.now) ≡ true }
    requires tables { AreAtHand resolve.now.types tables.now }
    requires params { params.now ≡ return_args (passed resolve.now.types f.now) }
    requires distinct { is_distinct (ret_area ∷ arg_names params.now) ≡ true }
    ensures { IfOk result (λ made. IsReturnCode resolve.now.types tables.now.sites f.now made.0 made.1) }
{
    let parts = export_parts(alloc, resolve, tables, params)?;
    let body = post_return_body(alloc, resolve, f, parts)?;
    let Body {
        stmts,
        tail,
        runtime,
        ..
    } = body;
    Ok((Block { stmts, tail }, runtime))
}

/// The post-return function with this head and this body.
fn return_fn(head: ExportHead, body: Block) -> PostReturnFn
    ensures { result ≡ record { base = head.base; bound = head.bound; params = head.params; body = body } }
{
    let ExportHead {
        base,
        bound,
        params,
    } = head;
    PostReturnFn {
        base,
        bound,
        params,
        body,
    }
}

/// The post-return function of an exported function, and the items of `_rt` that it asks for.
pub(crate) fn post_return(
    alloc: Global,
    resolve: &Resolve,
    tables: &TypeTables,
    f: &Function,
) -> Result<(PostReturnFn, List<RuntimeItem>), OutOfMemory>
    requires well { IsWellFormed resolve.now }
    requires within { function_in_range resolve.now f.now ≡ true }
    requires code { HasCode resolve.now.types f.now }
    requires indirect { is_indirect (result_shape resolve.now.types f.now) ≡ true }
    requires tables { AreAtHand resolve.now.types tables.now }
    ensures { IfOk result (λ made. IsReturnMade resolve.now.types tables.now.sites f.now made.0 made.1) }
{
    let params = post_return_params(alloc, resolve, f)?;
    let (body, runtime) = return_code(alloc, resolve, tables, f, params.as_slice())?;
    let head = export_head(alloc, f, params)?;
    Ok((return_fn(head, body), runtime))
}
