//! Worlds of one type, and of one function that takes it.

ghost use Rattle.std.specs.Prelude.{◌≡◌, ◌<◌, [], ◌∷◌, length, map, true, List, IfOk};
ghost use Rattle.wit_model.specs.IndexRange.{function_in_range};
ghost use Rattle.wit_model.specs.WellFormed.{IsWellFormed};
ghost use Rattle.wit_model.specs.declared.resolve.Resolve.{Resolve};
ghost use Rattle.wit_model.specs.declared.types.TypeDef.{TypeDef};
ghost use Rattle.wit_model.specs.declared.types.WitType.TheVariants.{Id};
ghost use Rattle.wrapper_meaning.specs.Shape.{shape_at};
ghost use Rattle.abi_bindgen.specs.Served.{Serves, ServesFunction};
ghost use Rattle.abi_driver.specs.Low.{IsSmallRecord};

use gen_accept::{Opts, accepted_world};
use std::alloc::Global;
use std::test::Fail;
use wit_document::{Document, document_of};
use wit_layout::SizeAlign;
use wit_model::{
    Docs, Function, FunctionKind, List, Name, OutOfMemory, Param, Resolve, Text, TypeId, WitType,
    WorldId,
};

/// A name of small letters and of great ones.
fn name(alloc: Global, small: &str, great: &str) -> Result<Name, OutOfMemory> {
    Ok(Name {
        wit: Text::from_str(alloc, small)?,
        snake: Text::from_str(alloc, small)?,
        camel: Text::from_str(alloc, great)?,
        upper: Text::from_str(alloc, great)?,
    })
}

/// `f: func(x: T)`, of the first type of a table.
pub(crate) fn function(alloc: Global) -> Result<Function, OutOfMemory>
    ensures within { IfOk result (λ f. (r : Resolve) → 0 < length r.types → function_in_range r f ≡ true) }
    ensures one { IfOk result (λ f. length f.params ≡ 1) }
    ensures serves { IfOk result (λ f. (types : List TypeDef) → Serves (shape_at types 0) → ServesFunction types f) }
    ensures types { IfOk result (λ f. map (λ p. p.ty) f.params ≡ Id (record { 0 = 0 }) ∷ []) }
{
    let param = Param {
        name: name(alloc, "x", "X")?,
        ty: WitType::Id(TypeId(0)),
    };
    let mut params = List::new(alloc);
    params.push(param)?;
    Ok(Function {
        name: name(alloc, "f", "F")?,
        kind: FunctionKind::Freestanding,
        params,
        result: None,
        docs: Docs { contents: None },
    })
}

/// The tables of a document, which have a type that the driver makes code for.
fn tables(alloc: Global, document: &str) -> Result<Resolve, Fail>
    ensures well { IfOk result IsWellFormed }
    ensures some { IfOk result (λ r. 0 < length r.types) }
    ensures serves { IfOk result (λ r. Serves (shape_at r.types 0)) }
    ensures small { IfOk result (λ r. IsSmallRecord r.types (Id (record { 0 = 0 }) ∷ [])) }
{
    let Document { resolve, .. } = document_of(alloc, document.as_bytes())?;
    resolve.check(alloc)?;
    if resolve.types.is_empty() {
        return Err(Fail::new("the document has no type"));
    }
    accepted_world(alloc, &Opts::default(alloc), &resolve, WorldId(0))?;
    let sizes = SizeAlign::fill(alloc, &resolve)?;
    if !sizes.fits_in_record(&[WitType::Id(TypeId(0))]) {
        return Err(Fail::new("the type is too large"));
    }
    Ok(resolve)
}

/// `variant v { a(f32), b(u64), c(string) }`, and an import that takes it.
const VARIANT: &str = r#"{"world": 0, "resolve": {"interfaces": [],
"packages": [{"namespace": {"wit": "t", "snake": "t", "camel": "T", "upper": "T"},
  "name": {"wit": "p", "snake": "p", "camel": "P", "upper": "P"}, "module": "p"}],
"worlds": [{"name": {"wit": "w", "snake": "w", "camel": "W", "upper": "W"}, "package": 0, "exports": [],
  "imports": [{"type": 0}, {"function": {"kind": "freestanding",
    "name": {"wit": "f", "snake": "f", "camel": "F", "upper": "F"},
    "params": [{"name": {"wit": "x", "snake": "x", "camel": "X", "upper": "X"}, "ty": 0}]}}]}],
"types": [{"name": {"wit": "v", "snake": "v", "camel": "V", "upper": "V"}, "owner": {"world": 0}, "kind": {"variant": [
  {"name": {"wit": "a", "snake": "a", "camel": "A", "upper": "A"}, "ty": "f32"},
  {"name": {"wit": "b", "snake": "b", "camel": "B", "upper": "B"}, "ty": "u64"},
  {"name": {"wit": "c", "snake": "c", "camel": "C", "upper": "C"}, "ty": "string"}]}}]}}"#;

/// The tables of that document.
pub(crate) fn world_of_a_variant(alloc: Global) -> Result<Resolve, Fail>
    ensures well { IfOk result IsWellFormed }
    ensures some { IfOk result (λ r. 0 < length r.types) }
    ensures serves { IfOk result (λ r. Serves (shape_at r.types 0)) }
    ensures small { IfOk result (λ r. IsSmallRecord r.types (Id (record { 0 = 0 }) ∷ [])) }
{
    tables(alloc, VARIANT)
}

/// `flags fl { .. }`, and an export that takes them, up to the members of the flags.
const FLAGS: &str = r#"{"world": 0, "resolve": {"interfaces": [],
"packages": [{"namespace": {"wit": "t", "snake": "t", "camel": "T", "upper": "T"},
  "name": {"wit": "p", "snake": "p", "camel": "P", "upper": "P"}, "module": "p"}],
"worlds": [{"name": {"wit": "w", "snake": "w", "camel": "W", "upper": "W"}, "package": 0, "imports": [{"type": 0}],
  "exports": [{"function": {"kind": "freestanding",
    "name": {"wit": "f", "snake": "f", "camel": "F", "upper": "F"},
    "params": [{"name": {"wit": "x", "snake": "x", "camel": "X", "upper": "X"}, "ty": 0}]}}]}],
"types": [{"name": {"wit": "fl", "snake": "fl", "camel": "Fl", "upper": "FL"}, "owner": {"world": 0}, "kind": {"flags": [
  {"name": {"wit": "m0", "snake": "m0", "camel": "M0", "upper": "M0"}}"#;

/// That document with so many members `m0`, `m1` and so on.
fn document_of_flags(alloc: Global, count: u32) -> Result<String, Fail> {
    let mut document = String::new(alloc);
    document.push_str(FLAGS)?;
    for n in 1..count {
        let member = format!(in alloc;
            r#", {{"name": {{"wit": "m{n}", "snake": "m{n}", "camel": "M{n}", "upper": "M{n}"}}}}"#
        )?;
        document.push_str(member.as_str())?;
    }
    document.push_str("]}}]}}")?;
    Ok(document)
}

/// The tables of forty flags, and of an export that takes them.
pub(crate) fn world_of_flags(alloc: Global) -> Result<Resolve, Fail>
    ensures well { IfOk result IsWellFormed }
    ensures some { IfOk result (λ r. 0 < length r.types) }
    ensures serves { IfOk result (λ r. Serves (shape_at r.types 0)) }
    ensures small { IfOk result (λ r. IsSmallRecord r.types (Id (record { 0 = 0 }) ∷ [])) }
{
    let document = document_of_flags(alloc, 40)?;
    tables(alloc, document.as_str())
}
