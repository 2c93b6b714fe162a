//! The block of an import's wrapper.

ghost use Rattle.std.specs.Prelude.{◌≡◌, ◌++◌, IfOk, OnOk};
ghost use Rattle.wrapper_closing.specs.ImportBlock.{block_of, local_area};

use abi_bindgen::Asked;
use func_gen::Body;
use rust_tree::{Block, ReturnArea, RuntimeItem, Stmt};
use std::alloc::Global;
use wit_model::{List, OutOfMemory, Text};

/// The declaration of an area by a local of this name, if one is needed.
fn local_area(alloc: Global, name: Text, area: Option<Asked>) -> Result<List<Stmt>, OutOfMemory>
    ensures { IfOk result (λ stmts. stmts ≡ local_area name area) }
{
    let mut stmts = List::new(alloc);
    if let Some(Asked { size, align }) = area {
        stmts.push(Stmt::Area(ReturnArea { name, size, align }))?;
    }
    Ok(stmts)
}

/// Puts statements behind others, in their order.
fn push_all(stmts: &mut List<Stmt>, later: List<Stmt>) -> Result<(), OutOfMemory>
    ensures { OnOk result (stmts.new ≡ stmts.old ++ later) }
{
    for stmt in later.into_vec() {
        stmts.push(stmt)?;
    }
    Ok(())
}

/// Statements behind the declaration of an area by a local of this name, if one is needed.
fn behind_area(
    alloc: Global,
    name: Text,
    area: Option<Asked>,
    code: List<Stmt>,
) -> Result<List<Stmt>, OutOfMemory>
    ensures { IfOk result (λ stmts. stmts ≡ local_area name area ++ code) }
{
    let mut stmts = local_area(alloc, name, area)?;
    push_all(&mut stmts, code)?;
    Ok(stmts)
}

/// The block of an import's wrapper, and the items of `_rt` that it names: first its area, if it needs one, in a local of this name, and then
/// what its body is.
pub fn import_block(
    alloc: Global,
    area: Text,
    body: Body,
) -> Result<(Block, List<RuntimeItem>), OutOfMemory>
    ensures block { IfOk result (λ made. made.0 ≡ block_of area body) }
    ensures runtime { IfOk result (λ made. made.1 ≡ body.runtime) }
{
    let Body {
        stmts: code,
        tail,
        area: asked,
        runtime,
        ..
    } = body;
    let stmts = behind_area(alloc, area, asked, code)?;
    Ok((Block { stmts, tail }, runtime))
}
