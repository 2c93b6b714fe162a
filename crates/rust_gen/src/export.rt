//! The wrapper of an exported function.

ghost use Rattle.std.specs.Prelude.{◌≡◌, ◌∷◌, true, length, IfOk, OnOk};
ghost use Rattle.wit_model.specs.Distinct.{is_distinct};
ghost use Rattle.wit_model.specs.IndexRange.{function_in_range};
ghost use Rattle.wit_model.specs.WellFormed.{IsWellFormed};
ghost use Rattle.gen_accept.specs.DeclaredNames.{guest_name};
ghost use Rattle.wrapper_faithful.specs.Passed.{passed};
ghost use Rattle.abi_driver.specs.Exports.{export_params};
ghost use Rattle.wrapper_closing.specs.Bodies.{calls_method};
ghost use Rattle.wrapper_closing.specs.Params.{arg_names, export_args, ret_area};
ghost use Rattle.wrapper_closing.specs.Parts.{CanWriteFunction};
ghost use Rattle.rust_gen.specs.Body.{AreExportParts, CallsMethodOf, IsCodeOf, IsExportCode, IsExportMade, IsExportOutside};
ghost use Rattle.rust_gen.specs.Known.{AreAtHand, HasCode};

use crate::exported::{export_result, guest_name};
use abi_bindgen::Asked;
use func_gen::{Body, TypeTables};
use rust_tree::{Block, CallBlock, CoreParam, ExportFn, RuntimeItem};
use std::alloc::Global;
use wit_model::{Function, List, OutOfMemory, Resolve, Text};
use wrapper_closing::{BodyParts, cleanup_list, core_params, core_sites, export_body, ret_area};

/// The code of an export's wrapper.
#[derive(Drop)]
pub(crate) struct ExportCode {
    /// The block that calls the method.
    pub(crate) call: CallBlock,
    /// What stands behind it.
    pub(crate) rest: Block,
    /// The area that it needs, if it needs one.
    pub(crate) area: Option<Asked>,
    /// The items of `_rt` that it asks for.
    pub(crate) runtime: List<RuntimeItem>,
}

/// Of what the body of an exported function's wrapper with these core parameters is made, and that of its post-return function.
pub(crate) fn export_parts<'a>(
    alloc: Global,
    resolve: &Resolve,
    tables: &'a TypeTables,
    params: &[CoreParam],
) -> Result<BodyParts<'a>, OutOfMemory>
    requires well { IsWellFormed resolve.now }
    requires distinct { is_distinct (ret_area ∷ arg_names params.now) ≡ true }
    requires tables { AreAtHand resolve.now.types tables.now }
    ensures { IfOk result (AreExportParts resolve.now.types tables.now.sites params.now) }
{
    let home = guest_name(alloc)?;
    let area = ret_area(alloc)?;
    let cleanup = cleanup_list(alloc)?;
    let params = core_sites(alloc, params)?;
    Ok(BodyParts {
        tables,
        home,
        area,
        cleanup,
        params,
    })
}

/// The code that a body is, which calls a method.
fn code_of(body: Body) -> ExportCode
    requires { calls_method body ≡ true }
    ensures { IsCodeOf body result }
{
    let Body {
        call,
        stmts,
        tail,
        area,
        runtime,
    } = body;
    match call {
        Some(call) => ExportCode {
            call,
            rest: Block { stmts, tail },
            area,
            runtime,
        },
        None => unreachable!(),
    }
}

/// The code of the wrapper of an exported function with these core parameters, which calls its method, and keeps a value where the
/// function has one.
fn export_code(
    alloc: Global,
    resolve: &Resolve,
    tables: &TypeTables,
    f: &Function,
    params: &[CoreParam],
) -> Result<ExportCode, OutOfMemory>
    requires well { IsWellFormed resolve.now }
    requires within { function_in_range resolve.now f.now ≡ true }
    requires code { HasCode resolve.now.types f.now }
    requires writes { CanWriteFunction resolve.now.types tables.now.sites f.now }
    requires tables { AreAtHand resolve.now.types tables.now }
    requires params { params.now ≡ export_args (passed resolve.now.types f.now) }
    requires many { length params.now ≡ length (export_params resolve.now.types f.now) }
    requires distinct { is_distinct (ret_area ∷ arg_names params.now) ≡ true }
    ensures made { IfOk result (IsExportCode resolve.now.types tables.now.sites f.entry) }
    ensures calls { IfOk result (λ code. CallsMethodOf f.now code.call) }
{
    let parts = export_parts(alloc, resolve, tables, params)?;
    let body = export_body(alloc, resolve, f, parts)?;
    Ok(code_of(body))
}

/// What comes before the code of a wrapper.
#[derive(Drop)]
pub(crate) struct ExportHead {
    pub(crate) base: Text,
    pub(crate) bound: Text,
    pub(crate) params: List<CoreParam>,
}

/// The head of the wrapper of an exported function, and that of its post-return function.
pub(crate) fn export_head(
    alloc: Global,
    f: &Function,
    params: List<CoreParam>,
) -> Result<ExportHead, OutOfMemory>
    ensures base { IfOk result (λ h. h.base ≡ f.now.name.snake) }
    ensures bound { IfOk result (λ h. h.bound ≡ guest_name) }
    ensures params { IfOk result (λ h. h.params ≡ params) }
{
    let base = f.name.snake.copy(alloc)?;
    let bound = guest_name(alloc)?;
    Ok(ExportHead {
        base,
        bound,
        params,
    })
}

/// The wrapper of an exported function with this head and this code.
fn export_fn(
    resolve: &Resolve,
    f: &Function,
    head: ExportHead,
    call: CallBlock,
    rest: Block,
) -> ExportFn
    requires well { IsWellFormed resolve.now }
    requires within { function_in_range resolve.now f.now ≡ true }
    requires base { head.base ≡ f.now.name.snake }
    requires bound { head.bound ≡ guest_name }
    requires params { head.params ≡ export_args (passed resolve.now.types f.now) }
    ensures { IsExportOutside resolve.now.types f.now call rest result }
{
    let ExportHead {
        base,
        bound,
        params,
    } = head;
    ExportFn {
        base,
        bound,
        params,
        result: export_result(resolve, f),
        call,
        rest,
    }
}

/// The wrapper of an exported function; the area that it needs, if it needs one; and the items of `_rt` that it asks for.
#[derive(Drop)]
pub(crate) struct ExportMade {
    pub(crate) wrapper: ExportFn,
    pub(crate) area: Option<Asked>,
    pub(crate) runtime: List<RuntimeItem>,
}

/// The wrapper of an exported function, and what it asks for.
pub(crate) fn export_wrapper(
    alloc: Global,
    resolve: &Resolve,
    tables: &TypeTables,
    f: &Function,
) -> Result<ExportMade, OutOfMemory>
    requires well { IsWellFormed resolve.now }
    requires within { function_in_range resolve.now f.now ≡ true }
    requires code { HasCode resolve.now.types f.now }
    requires writes { CanWriteFunction resolve.now.types tables.now.sites f.now }
    requires tables { AreAtHand resolve.now.types tables.now }
    ensures { IfOk result (IsExportMade resolve.now.types tables.now.sites f.now) }
{
    let params = core_params(alloc, resolve, f)?;
    let ExportCode {
        call,
        rest,
        area,
        runtime,
    } = export_code(alloc, resolve, tables, f, params.as_slice())?;
    let head = export_head(alloc, f, params)?;
    let wrapper = export_fn(resolve, f, head, call, rest);
    Ok(ExportMade {
        wrapper,
        area,
        runtime,
    })
}
