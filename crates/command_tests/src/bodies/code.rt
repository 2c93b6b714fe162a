//! The driver's code for the functions of these worlds, made apart from their files.

ghost use Rattle.std.specs.Prelude.{◌≡◌, ◌<◌, ℕ, [], ◌∷◌, length, map, true, IfOk};
ghost use Rattle.std.specs.List.{AllByRecursion};
ghost use Rattle.wit_model.specs.Distinct.{is_distinct};
ghost use Rattle.wit_model.specs.IndexRange.{function_in_range};
ghost use Rattle.wit_model.specs.WellFormed.{IsWellFormed};
ghost use Rattle.wit_layout.specs.Filled.{IsFilledFor};
ghost use Rattle.wit_model.specs.declared.types.WitType.TheVariants.{Id};
ghost use Rattle.wrapper_meaning.specs.Shape.{shape_at};
ghost use Rattle.abi_bindgen.specs.Laws.{IsNew};
ghost use Rattle.abi_bindgen.specs.Served.{Serves, ServesFunction};
ghost use Rattle.abi_driver.specs.Low.{IsSmallRecord};
ghost use Rattle.abi_driver.specs.Exports.{export_params};
ghost use Rattle.func_gen.specs.Meaning.{func_meaning};
ghost use Rattle.func_gen.specs.Sites.{IsSite, site_names};
ghost use Rattle.func_gen.specs.TypeSites.{CanBeDefined};
ghost use Rattle.func_gen.specs.Written.{CanWrite};
ghost use Rattle.wrapper_closing.specs.Parts.{AreParts, CanWriteFunction, IsMadeFrom};

use crate::bodies::sites::{flags_sites, variant_sites};
use crate::bodies::worlds::function;
use abi_driver::{AbiVariant, LiftLower, call};
use func_gen::{Body, FunctionBindgen, TypeTables};
use std::alloc::Global;
use std::test::Fail;
use wit_layout::SizeAlign;
use wit_model::{Function, List, OutOfMemory, Resolve, Text};
use wrapper_closing::{
    BodyParts, are_distinct_names, cleanup_list, core_params, core_sites, param_sites, ret_area,
};

/// The names of the function's parameters.
fn names(alloc: Global) -> Result<List<Text>, OutOfMemory>
    ensures { IfOk result (λ names. length names ≡ 1) }
{
    let mut names = List::new(alloc);
    names.push(Text::from_str(alloc, "x")?)?;
    Ok(names)
}

/// What is known of the types of a world of a variant.
pub(crate) fn variant_tables(alloc: Global, resolve: &Resolve) -> Result<TypeTables, Fail>
    requires { IsWellFormed resolve.now }
    ensures filled { IfOk result (λ tables. IsFilledFor tables.sizes resolve.now.types) }
    ensures defined { IfOk result (λ tables. CanBeDefined tables.sites) }
    ensures written { IfOk result (λ tables. (id : ℕ) → CanWrite resolve.now.types tables.sites id) }
{
    let sites = variant_sites(alloc, resolve.types.as_slice())?;
    let sizes = SizeAlign::fill(alloc, resolve)?;
    Ok(TypeTables { sizes, sites })
}

/// Of what the body of an import over a variant is made.
pub(crate) fn import_parts<'a>(
    alloc: Global,
    resolve: &Resolve,
    tables: &'a TypeTables,
) -> Result<BodyParts<'a>, Fail>
    requires filled { IsFilledFor tables.now.sizes resolve.now.types }
    requires defined { CanBeDefined tables.now.sites }
    ensures parts { IfOk result (AreParts resolve.now.types) }
    ensures many { IfOk result (λ parts. length parts.params ≡ 1) }
    ensures over { IfOk result (λ parts. parts.tables.now ≡ tables.now) }
{
    let names = names(alloc)?;
    let area = ret_area(alloc)?;
    if !are_distinct_names(alloc, &area, names.as_slice())? {
        return Err(Fail::from(OutOfMemory));
    }
    let home = Text::from_str(alloc, "$root")?;
    let cleanup = cleanup_list(alloc)?;
    let params = param_sites(alloc, names.as_slice())?;
    Ok(BodyParts {
        tables,
        home,
        area,
        cleanup,
        params,
    })
}

/// A fresh bindgen of these parts.
pub(crate) fn fresh<'a>(
    alloc: Global,
    import: bool,
    parts: BodyParts<'a>,
) -> Result<FunctionBindgen<'a>, OutOfMemory>
    requires sites { AllByRecursion IsSite parts.params }
    requires defined { CanBeDefined parts.tables.now.sites }
    requires distinct { is_distinct (parts.area ∷ site_names parts.params) ≡ true }
    ensures made { IfOk result (IsMadeFrom import parts.entry) }
    ensures begins { IfOk result (λ b. IsNew func_meaning b) }
{
    let BodyParts {
        tables,
        home,
        area,
        cleanup,
        params,
    } = parts;
    FunctionBindgen::new(alloc, tables, import, home, area, cleanup, params)
}

/// The driver's code for the import of a world of a variant.
pub(crate) fn import_code(alloc: Global, resolve: &Resolve) -> Result<Body, Fail>
    requires well { IsWellFormed resolve.now }
    requires some { 0 < length resolve.now.types }
    requires serves { Serves (shape_at resolve.now.types 0) }
    requires small { IsSmallRecord resolve.now.types (Id (record { 0 = 0 }) ∷ []) }
{
    let func = function(alloc)?;
    let tables = variant_tables(alloc, resolve)?;
    let parts = import_parts(alloc, resolve, &tables)?;
    let body = called_import(alloc, resolve, &func, parts)?;
    Ok(body)
}

/// The driver's code for an import, by a fresh bindgen.
fn called_import(
    alloc: Global,
    resolve: &Resolve,
    func: &Function,
    parts: BodyParts<'_>,
) -> Result<Body, OutOfMemory>
    requires well { IsWellFormed resolve.now }
    requires within { function_in_range resolve.now func.now ≡ true }
    requires serves { ServesFunction resolve.now.types func.now }
    requires small { IsSmallRecord resolve.now.types (map (λ p. p.ty) func.now.params) }
    requires parts { AreParts resolve.now.types parts }
    requires writes { CanWriteFunction resolve.now.types parts.tables.now.sites func.now }
    requires many { length parts.params ≡ length func.now.params }
{
    let mut bindgen = fresh(alloc, true, parts)?;
    call(
        alloc,
        resolve,
        AbiVariant::GuestImport,
        LiftLower::LowerArgsLiftResults,
        func,
        &mut bindgen,
    )?;
    Ok(bindgen.finish())
}

/// What is known of the types of a world of flags.
fn flags_tables(alloc: Global, resolve: &Resolve) -> Result<TypeTables, Fail>
    requires { IsWellFormed resolve.now }
    ensures filled { IfOk result (λ tables. IsFilledFor tables.sizes resolve.now.types) }
    ensures defined { IfOk result (λ tables. CanBeDefined tables.sites) }
    ensures written { IfOk result (λ tables. (id : ℕ) → CanWrite resolve.now.types tables.sites id) }
{
    let sites = flags_sites(alloc, resolve.types.as_slice())?;
    let sizes = SizeAlign::fill(alloc, resolve)?;
    Ok(TypeTables { sizes, sites })
}

/// Of what the body of an export over flags is made.
fn export_parts<'a>(
    alloc: Global,
    resolve: &Resolve,
    tables: &'a TypeTables,
    func: &Function,
) -> Result<BodyParts<'a>, Fail>
    requires well { IsWellFormed resolve.now }
    requires within { function_in_range resolve.now func.now ≡ true }
    requires filled { IsFilledFor tables.now.sizes resolve.now.types }
    requires defined { CanBeDefined tables.now.sites }
    ensures parts { IfOk result (AreParts resolve.now.types) }
    ensures many { IfOk result (λ parts. length parts.params ≡ length (export_params resolve.now.types func.now)) }
    ensures over { IfOk result (λ parts. parts.tables.now ≡ tables.now) }
{
    let words = core_params(alloc, resolve, func)?;
    let home = Text::from_str(alloc, "Guest")?;
    let area = ret_area(alloc)?;
    let cleanup = cleanup_list(alloc)?;
    let params = core_sites(alloc, words.as_slice())?;
    Ok(BodyParts {
        tables,
        home,
        area,
        cleanup,
        params,
    })
}

/// The driver's code for the export of a world of flags.
pub(crate) fn export_code(alloc: Global, resolve: &Resolve) -> Result<Body, Fail>
    requires well { IsWellFormed resolve.now }
    requires some { 0 < length resolve.now.types }
    requires serves { Serves (shape_at resolve.now.types 0) }
    requires small { IsSmallRecord resolve.now.types (Id (record { 0 = 0 }) ∷ []) }
{
    let func = function(alloc)?;
    let tables = flags_tables(alloc, resolve)?;
    let parts = export_parts(alloc, resolve, &tables, &func)?;
    let body = called_export(alloc, resolve, &func, parts)?;
    Ok(body)
}

/// The driver's code for an export, by a fresh bindgen.
fn called_export(
    alloc: Global,
    resolve: &Resolve,
    func: &Function,
    parts: BodyParts<'_>,
) -> Result<Body, OutOfMemory>
    requires well { IsWellFormed resolve.now }
    requires within { function_in_range resolve.now func.now ≡ true }
    requires serves { ServesFunction resolve.now.types func.now }
    requires small { IsSmallRecord resolve.now.types (map (λ p. p.ty) func.now.params) }
    requires parts { AreParts resolve.now.types parts }
    requires writes { CanWriteFunction resolve.now.types parts.tables.now.sites func.now }
    requires many { length parts.params ≡ length (export_params resolve.now.types func.now) }
{
    let mut bindgen = fresh(alloc, false, parts)?;
    call(
        alloc,
        resolve,
        AbiVariant::GuestExport,
        LiftLower::LiftArgsLowerResults,
        func,
        &mut bindgen,
    )?;
    Ok(bindgen.finish())
}
