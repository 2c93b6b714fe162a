//! Functions of a document.

ghost use Rattle.std.specs.Prelude.{◌≡◌};
ghost use Rattle.wit_document.specs.Function.{free_kind, bound_kind, bound_kind_of, kind_of, param_of, function_of};
ghost use Rattle.wit_document.specs.View.{view};
ghost use Rattle.wit_document.specs.Reads.{Reads};

use crate::fault::DocumentFault;
use crate::members::{only, optional, required, required_two, sole_member};
use crate::name::docs_in;
use crate::reading::Readable;
use crate::value::as_str;
use json::Value;
use std::alloc::Global;
use wit_model::{Function, FunctionKind, Param, TypeId};

#[tactic(auto, unfolding(crate::specs::Function::kind_of))]
impl Readable for FunctionKind {
    ghost read_of = { kind_of };

    fn read(alloc: Global, value: &Value<'_>) -> Result<FunctionKind, DocumentFault> {
        match as_str(value) {
            Some(word) => free_kind(word).ok_or(DocumentFault::BadJson),
            None => read_bound_kind(alloc, value),
        }
    }
}

#[tactic(auto, unfolding(crate::specs::Function::free_kind))]
fn free_kind(word: &str) -> Option<FunctionKind>
    ensures { result ≡ free_kind word.now }
{
    match word {
        "freestanding" => Some(FunctionKind::Freestanding),
        "async-freestanding" => Some(FunctionKind::AsyncFreestanding),
        _ => None,
    }
}

#[tactic(auto, unfolding(crate::specs::Function::bound_kind_of))]
fn read_bound_kind(alloc: Global, value: &Value<'_>) -> Result<FunctionKind, DocumentFault>
    ensures { Reads result (bound_kind_of (view value.now)) }
{
    let Some((word, member)) = sole_member(value) else {
        return Err(DocumentFault::BadJson);
    };
    let id = TypeId::read(alloc, member)?;
    bound_kind(word, id).ok_or(DocumentFault::BadJson)
}

#[tactic(auto, unfolding(crate::specs::Function::bound_kind))]
fn bound_kind(word: &str, id: TypeId) -> Option<FunctionKind>
    ensures { result ≡ bound_kind word.now id }
{
    match word {
        "method" => Some(FunctionKind::Method(id)),
        "static" => Some(FunctionKind::Static(id)),
        "constructor" => Some(FunctionKind::Constructor(id)),
        "async-method" => Some(FunctionKind::AsyncMethod(id)),
        "async-static" => Some(FunctionKind::AsyncStatic(id)),
        _ => None,
    }
}

#[tactic(auto, unfolding(crate::specs::Function::param_of))]
impl Readable for Param {
    ghost read_of = { param_of };

    fn read(alloc: Global, value: &Value<'_>) -> Result<Param, DocumentFault> {
        only(value, &["name", "ty"])?;
        let ty = required(alloc, value, "ty")?;
        Ok(Param {
            name: required(alloc, value, "name")?,
            ty,
        })
    }
}

#[tactic(auto, unfolding(crate::specs::Function::function_of))]
impl Readable for Function {
    ghost read_of = { function_of };

    fn read(alloc: Global, value: &Value<'_>) -> Result<Function, DocumentFault> {
        only(value, &["name", "kind", "params", "result", "docs"])?;
        let kind = required(alloc, value, "kind")?;
        let result = optional(alloc, value, "result")?;
        let named = required_two(alloc, value, "name", "params")?;
        let docs = docs_in(alloc, value)?;
        let (name, params) = named;
        Ok(Function {
            name,
            kind,
            params,
            result,
            docs,
        })
    }
}
