//! The wrapper of an imported function.

ghost use Rattle.std.specs.Prelude.{◌≡◌, true, IfOk};
ghost use Rattle.wit_model.specs.Distinct.{is_distinct};
ghost use Rattle.wit_model.specs.IndexRange.{function_in_range};
ghost use Rattle.wit_model.specs.WellFormed.{IsWellFormed};
ghost use Rattle.gen_accept.specs.DeclaredNames.{param_idents};
ghost use Rattle.type_defs.specs.ParamType.{HasFacts};
ghost use Rattle.wrapper_closing.specs.Parts.{CanWriteFunction};
ghost use Rattle.rust_gen.specs.Body.{AreImportParts, IsImportCode, IsImportHead, IsImportMade};
ghost use Rattle.rust_gen.specs.Known.{AreAtHand, HasCode};
ghost use Rattle.rust_gen.specs.Wrapper.{printed_param, root_module};

use crate::fixed_name::fixed_name;
use crate::signature::{printed_params, printed_result};
use crate::sites::import_sites;
use func_gen::TypeTables;
use gen_accept::param_idents;
use rust_tree::{Block, FnItem, FnParam, RuntimeItem, TypeExpr, to_rust_ident};
use std::alloc::Global;
use type_defs::doc_lines;
use type_facts::Types;
use wit_model::{Function, List, OutOfMemory, Resolve, Text};
use wrapper_closing::{BodyParts, import_block, import_body};

/// The wrapper of an import as it looks from outside, without its body.
#[derive(Drop)]
pub(crate) struct ImportHead {
    docs: List<Text>,
    name: Text,
    params: List<FnParam>,
    result: TypeExpr,
}

/// The module of the core imports.
#[tactic(auto, unfolding(crate::specs::Wrapper::root_module))]
fn root_module(alloc: Global) -> Result<Text, OutOfMemory>
    ensures { IfOk result (λ name. name ≡ root_module) }
{
    Text::from_str(alloc, "$root")
}

fn import_parts<'a>(
    alloc: Global,
    resolve: &Resolve,
    tables: &'a TypeTables,
    f: &Function,
) -> Result<BodyParts<'a>, OutOfMemory>
    requires well { IsWellFormed resolve.now }
    requires distinct { is_distinct (param_idents f.now) ≡ true }
    requires tables { AreAtHand resolve.now.types tables.now }
    ensures { IfOk result (AreImportParts resolve.now.types tables.now.sites f.now) }
{
    let home = root_module(alloc)?;
    let names = param_idents(alloc, f.params.as_slice())?;
    let area = fixed_name(alloc, names.as_slice(), "ret_area")?;
    let cleanup = fixed_name(alloc, names.as_slice(), "cleanup_list")?;
    let params = import_sites(alloc, f.params.as_slice())?;
    Ok(BodyParts {
        tables,
        home,
        area,
        cleanup,
        params,
    })
}

/// The block of the wrapper's body, and the items of `_rt` that it asks for.
fn import_code(
    alloc: Global,
    resolve: &Resolve,
    tables: &TypeTables,
    f: &Function,
) -> Result<(Block, List<RuntimeItem>), OutOfMemory>
    requires well { IsWellFormed resolve.now }
    requires within { function_in_range resolve.now f.now ≡ true }
    requires code { HasCode resolve.now.types f.now }
    requires writes { CanWriteFunction resolve.now.types tables.now.sites f.now }
    requires distinct { is_distinct (param_idents f.now) ≡ true }
    requires tables { AreAtHand resolve.now.types tables.now }
    ensures { IfOk result (λ made. IsImportCode resolve.now.types tables.now.sites f.entry made.0 made.1) }
{
    let parts = import_parts(alloc, resolve, tables, f)?;
    let area = parts.area.copy(alloc)?;
    let body = import_body(alloc, resolve, f, parts)?;
    let made = import_block(alloc, area, body)?;
    Ok(made)
}

fn import_head(
    alloc: Global,
    resolve: &Resolve,
    facts: &Types,
    f: &Function,
) -> Result<ImportHead, OutOfMemory>
    requires facts { HasFacts resolve.now facts.now }
    requires within { function_in_range resolve.now f.now ≡ true }
    ensures { IfOk result (IsImportHead resolve.now.types f.now) }
{
    Ok(ImportHead {
        docs: doc_lines(alloc, &f.docs)?,
        name: to_rust_ident(alloc, &f.name)?,
        params: printed_params(alloc, resolve, facts, f.params.as_slice())?,
        result: printed_result(alloc, resolve, &f.result)?,
    })
}

/// The wrapper with this head and this body.
fn import_fn(head: ImportHead, body: Block) -> FnItem
    ensures { result ≡ record { docs = head.docs; name = head.name; params = head.params; result = head.result; body = body } }
{
    let ImportHead {
        docs,
        name,
        params,
        result,
    } = head;
    FnItem {
        docs,
        name,
        params,
        result,
        body,
    }
}

/// The wrapper of an imported function, and the items of `_rt` that its body asks for.
pub(crate) fn import_wrapper(
    alloc: Global,
    resolve: &Resolve,
    facts: &Types,
    tables: &TypeTables,
    f: &Function,
) -> Result<(FnItem, List<RuntimeItem>), OutOfMemory>
    requires well { IsWellFormed resolve.now }
    requires within { function_in_range resolve.now f.now ≡ true }
    requires code { HasCode resolve.now.types f.now }
    requires writes { CanWriteFunction resolve.now.types tables.now.sites f.now }
    requires distinct { is_distinct (param_idents f.now) ≡ true }
    requires tables { AreAtHand resolve.now.types tables.now }
    requires facts { HasFacts resolve.now facts.now }
    ensures { IfOk result (λ made. IsImportMade resolve.now.types tables.now.sites f.now made.0 made.1) }
{
    let head = import_head(alloc, resolve, facts, f)?;
    let (body, runtime) = import_code(alloc, resolve, tables, f)?;
    Ok((import_fn(head, body), runtime))
}
