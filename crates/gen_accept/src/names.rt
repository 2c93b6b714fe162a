//! Which names the file of a world declares, in the order of the format, and whether functions of one side have distinct names.

ghost use Rattle.std.specs.Prelude.{◌≡◌, ◌∷◌, [], ◌++◌, true, IfOk, IsTrue, OnOk, Some, map, slice_get};
ghost use Rattle.std.specs.List.{flat_map, list_all, list_any};
ghost use Rattle.wit_model.specs.IndexRange.{function_in_range};
ghost use Rattle.wit_model.specs.WellFormed.{IsWellFormed};
ghost use Rattle.rust_tree.specs.Ident.{rust_ident};
ghost use Rattle.type_defs.specs.Levels.{are_shallow};
ghost use Rattle.type_defs.specs.Listing.{are_listed_well};
ghost use Rattle.gen_accept.specs.InRange.{AreInRange};
ghost use Rattle.gen_accept.specs.declared.declared.Sort.TheVariants.{Macro, Type_, Value, WorldType};
ghost use Rattle.gen_accept.specs.DeclaredNames.{all_declared, among_types, are_distinct_functions, area_idents, area_type_idents, declared, declared_names, export_ident, has_distinct_names, is_flags, macro_idents, module_scope, outside_idents, param_scope, return_names, return_prefix, runtime_ident, scopes_of, trait_idents, trait_scope, where_exported};
ghost use Rattle.gen_accept.specs.Emitted as emitted;
ghost use Rattle.type_defs.specs.PrintedTypes.{type_name};

use crate::area::{any_needs_area, needs_return};
use crate::declared::{Declared, NameScope, Sort};
use crate::emitted::functions_in;
use crate::opts::Opts;
use crate::type_scopes::{push_field_scopes, push_member_scopes};
use rust_tree::to_rust_ident;
use std::alloc::Global;
use type_defs::{defined_types, type_name};
use type_facts::Types;
use wit_layout::AbiVariant;
use wit_model::{
    Function, List, OutOfMemory, Param, Resolve, Text, TypeDef, TypeDefKind, World, WorldId,
    WorldItem, WorldKey, are_distinct,
};

fn wit_names<'a>(alloc: Global, functions: &[&'a Function]) -> Result<Vec<&'a str>, OutOfMemory>
    ensures { IfOk result
        (λ names. map (λ n. n.now) names.items ≡ map (λ f. f.name.wit) (map (λ f. f.now) functions.now)) }
{
    let mut names = Vec::new(alloc);
    for function in functions {
        names.push(function.name.wit.as_str())?;
    }
    Ok(names)
}

fn are_distinct_functions(
    alloc: Global,
    entries: &[(WorldKey, WorldItem)],
) -> Result<bool, OutOfMemory>
    ensures { IfOk result (λ b. b ≡ are_distinct_functions (emitted.functions_in entries.now)) }
{
    let functions = functions_in(alloc, entries)?;
    let names = wit_names(alloc, functions.as_slice())?;
    are_distinct(alloc, names.as_slice())
}

fn has_distinct_names(alloc: Global, world: &World) -> Result<bool, OutOfMemory>
    ensures { IfOk result (λ b. b ≡ has_distinct_names world.now) }
{
    if are_distinct_functions(alloc, world.imports.as_slice())? {
        are_distinct_functions(alloc, world.exports.as_slice())
    } else {
        Ok(false)
    }
}

/// Whether no two functions of one side of a world have the same name.
pub(crate) fn have_distinct_names(alloc: Global, worlds: &[World]) -> Result<bool, OutOfMemory>
    ensures { IfOk result (λ b. b ≡ list_all has_distinct_names worlds.now) }
{
    for world in worlds {
        if !has_distinct_names(alloc, world)? {
            return Ok(false);
        }
    }
    Ok(true)
}

/// The names of parameters, as identifiers.
pub fn param_idents(alloc: Global, params: &[Param]) -> Result<List<Text>, OutOfMemory>
    ensures { IfOk result (λ names. names ≡ map (λ p. rust_ident p.name) params.now) }
{
    let mut names = List::new(alloc);
    for p in params {
        names.push(to_rust_ident(alloc, &p.name)?)?;
    }
    Ok(names)
}

/// The name of an exported function's wrapper.
#[tactic(auto, unfolding(crate::specs::DeclaredNames::export_prefix, crate::specs::DeclaredNames::cabi_suffix))]
fn export_ident(alloc: Global, f: &Function) -> Result<Text, OutOfMemory>
    ensures { IfOk result (λ name. name ≡ export_ident f.now) }
{
    between(alloc, "_export_", &f.name.snake, "_cabi")
}

/// The name of a post-return function.
#[tactic(auto, unfolding(crate::specs::DeclaredNames::return_prefix))]
fn return_ident(alloc: Global, f: &Function) -> Result<Text, OutOfMemory>
    ensures { IfOk result (λ name. name ≡ return_prefix ++ f.now.name.snake) }
{
    between(alloc, "__post_return_", &f.name.snake, "")
}

fn between(alloc: Global, front: &str, name: &Text, behind: &str) -> Result<Text, OutOfMemory>
    ensures { IfOk result (λ t. t ≡ front.now ++ name.now ++ behind.now) }
{
    let mut text = Text::from_str(alloc, front)?;
    text.push_str(name.as_str())?;
    text.push_str(behind)?;
    Ok(text)
}

fn declare_all(
    alloc: Global,
    names: &mut List<Declared>,
    sort: Sort,
    words: &[&str],
) -> Result<(), OutOfMemory>
    ensures { OnOk result
        (names.new ≡ names.old ++ all_declared sort (map (λ w. w.now) words.now)) }
{
    for word in words {
        names.push(Declared {
            sort,
            name: Text::from_str(alloc, word)?,
        })?;
    }
    Ok(())
}

fn declare_functions(
    alloc: Global,
    names: &mut List<Declared>,
    functions: &[&Function],
) -> Result<(), OutOfMemory>
    ensures { OnOk result
        (names.new ≡ names.old ++ map (λ f. declared Value (rust_ident f.name)) (map (λ f. f.now) functions.now)) }
{
    for function in functions {
        names.push(Declared {
            sort: Sort::Value,
            name: to_rust_ident(alloc, &function.name)?,
        })?;
    }
    Ok(())
}

/// A function that is compared with the types too.
fn declare_among_types(
    alloc: Global,
    names: &mut List<Declared>,
    name: Text,
) -> Result<(), OutOfMemory>
    ensures { OnOk result (names.new ≡ names.old ++ among_types name) }
{
    let value = name.copy(alloc)?;
    names.push(Declared {
        sort: Sort::Value,
        name: value,
    })?;
    names.push(Declared {
        sort: Sort::Type_,
        name,
    })
}

fn declare_exports(
    alloc: Global,
    names: &mut List<Declared>,
    functions: &[&Function],
) -> Result<(), OutOfMemory>
    ensures { OnOk result
        (names.new ≡ names.old ++ flat_map (λ f. among_types (export_ident f)) (map (λ f. f.now) functions.now)) }
{
    for function in functions {
        declare_among_types(alloc, names, export_ident(alloc, function)?)?;
    }
    Ok(())
}

fn declare_return(
    alloc: Global,
    names: &mut List<Declared>,
    resolve: &Resolve,
    f: &Function,
) -> Result<(), OutOfMemory>
    requires well { IsWellFormed resolve.now }
    requires within { IsTrue (function_in_range resolve.now f.now) }
    ensures { OnOk result (names.new ≡ names.old ++ return_names resolve.now.types f.now) }
{
    if needs_return(resolve, f) {
        declare_among_types(alloc, names, return_ident(alloc, f)?)
    } else {
        Ok(())
    }
}

fn declare_returns(
    alloc: Global,
    names: &mut List<Declared>,
    resolve: &Resolve,
    functions: &[&Function],
) -> Result<(), OutOfMemory>
    requires well { IsWellFormed resolve.now }
    requires within { AreInRange resolve.now (map (λ f. f.now) functions.now) }
    ensures { OnOk result
        (names.new ≡ names.old ++ flat_map (return_names resolve.now.types) (map (λ f. f.now) functions.now)) }
{
    for function in functions {
        declare_return(alloc, names, resolve, function)?;
    }
    Ok(())
}

#[tactic(auto, unfolding(crate::specs::DeclaredNames::runtime_ident))]
fn declare_runtime(alloc: Global, names: &mut List<Declared>) -> Result<(), OutOfMemory>
    ensures { OnOk result (names.new ≡ names.old ++ all_declared Type_ (runtime_ident ∷ [])) }
{
    declare_all(alloc, names, Sort::Type_, &["_rt"])
}

#[tactic(auto, unfolding(crate::specs::DeclaredNames::guest_name, crate::specs::DeclaredNames::implementation_ident))]
fn declare_trait(
    alloc: Global,
    names: &mut List<Declared>,
    exports: &[&Function],
) -> Result<(), OutOfMemory>
    ensures { OnOk result
        (names.new ≡ names.old ++ all_declared Type_ (trait_idents (map (λ f. f.now) exports.now))) }
{
    if exports.is_empty() {
        Ok(())
    } else {
        declare_all(alloc, names, Sort::Type_, &["Guest", "T_"])
    }
}

#[tactic(auto, unfolding(crate::specs::DeclaredNames::area_type_ident))]
fn declare_area_type(
    alloc: Global,
    names: &mut List<Declared>,
    resolve: &Resolve,
    imports: &[&Function],
    exports: &[&Function],
) -> Result<(), OutOfMemory>
    requires well { IsWellFormed resolve.now }
    requires imports { AreInRange resolve.now (map (λ f. f.now) imports.now) }
    requires exports { AreInRange resolve.now (map (λ f. f.now) exports.now) }
    ensures { OnOk result
        (names.new ≡ names.old ++ all_declared Type_ (area_type_idents resolve.now.types (map (λ f. f.now) imports.now) (map (λ f. f.now) exports.now))) }
{
    if any_needs_area(AbiVariant::GuestImport, resolve, imports)
        || any_needs_area(AbiVariant::GuestExport, resolve, exports)
    {
        declare_all(alloc, names, Sort::Type_, &["_RetArea"])
    } else {
        Ok(())
    }
}

fn is_flags(entry: &TypeDef) -> bool
    ensures { result ≡ is_flags entry.now }
{
    matches!(entry.kind, TypeDefKind::Flags(_))
}

fn has_flags(defined: &[&TypeDef]) -> bool
    ensures { result ≡ list_any is_flags (map (λ t. t.now) defined.now) }
{
    for entry in defined {
        if is_flags(entry) {
            return true;
        }
    }
    false
}

/// The crate of the runtime, by which flags types are written.
#[tactic(auto, unfolding(type_defs::specs::Paths::runtime_crate))]
fn declare_outside(
    alloc: Global,
    names: &mut List<Declared>,
    defined: &[&TypeDef],
) -> Result<(), OutOfMemory>
    ensures { OnOk result
        (names.new ≡ names.old ++ all_declared Type_ (outside_idents (map (λ t. t.now) defined.now))) }
{
    if has_flags(defined) {
        declare_all(alloc, names, Sort::Type_, &["wit_bindgen"])
    } else {
        Ok(())
    }
}

#[tactic(auto, unfolding(crate::specs::DeclaredNames::area_ident))]
fn declare_area(
    alloc: Global,
    names: &mut List<Declared>,
    resolve: &Resolve,
    exports: &[&Function],
) -> Result<(), OutOfMemory>
    requires well { IsWellFormed resolve.now }
    requires within { AreInRange resolve.now (map (λ f. f.now) exports.now) }
    ensures { OnOk result
        (names.new ≡ names.old ++ all_declared Value (area_idents resolve.now.types (map (λ f. f.now) exports.now))) }
{
    if any_needs_area(AbiVariant::GuestExport, resolve, exports) {
        declare_all(alloc, names, Sort::Value, &["_RET_AREA"])
    } else {
        Ok(())
    }
}

#[tactic(auto, unfolding(crate::specs::DeclaredNames::macro_idents))]
fn macro_idents(alloc: Global, world: &World) -> Result<List<Text>, OutOfMemory>
    ensures { IfOk result (λ names. names ≡ macro_idents world.now) }
{
    let snake = &world.name.snake;
    let mut names = List::new(alloc);
    names.push(between(alloc, "__export_world_", snake, "_cabi")?)?;
    names.push(between(alloc, "__export_", snake, "_impl")?)?;
    names.push(Text::from_str(alloc, "export")?)?;
    Ok(names)
}

fn declare_copies(
    alloc: Global,
    names: &mut List<Declared>,
    sort: Sort,
    texts: &[Text],
) -> Result<(), OutOfMemory>
    ensures { OnOk result (names.new ≡ names.old ++ all_declared sort texts.now) }
{
    for text in texts {
        names.push(Declared {
            sort,
            name: text.copy(alloc)?,
        })?;
    }
    Ok(())
}

fn declare_macros(
    alloc: Global,
    names: &mut List<Declared>,
    world: &World,
    exports: &[&Function],
) -> Result<(), OutOfMemory>
    ensures { OnOk result
        (names.new ≡ names.old ++ all_declared Macro (where_exported (map (λ f. f.now) exports.now) (macro_idents world.now))) }
{
    if exports.is_empty() {
        return Ok(());
    }
    let macros = macro_idents(alloc, world)?;
    declare_copies(alloc, names, Sort::Macro, macros.as_slice())
}

fn declare_types(
    alloc: Global,
    names: &mut List<Declared>,
    defined: &[&TypeDef],
) -> Result<(), OutOfMemory>
    ensures { OnOk result
        (names.new ≡ names.old ++ all_declared WorldType (map type_name (map (λ t. t.now) defined.now))) }
{
    for entry in defined {
        names.push(Declared {
            sort: Sort::WorldType,
            name: type_name(alloc, entry)?,
        })?;
    }
    Ok(())
}

/// The names of the module itself: its types, its functions and its static, its macros.
fn module_scope(
    alloc: Global,
    resolve: &Resolve,
    world: &World,
    defined: &[&TypeDef],
    imports: &[&Function],
    exports: &[&Function],
) -> Result<NameScope, OutOfMemory>
    requires well { IsWellFormed resolve.now }
    requires imports { AreInRange resolve.now (map (λ f. f.now) imports.now) }
    requires exports { AreInRange resolve.now (map (λ f. f.now) exports.now) }
    ensures { IfOk result
        (λ scope. scope ≡ module_scope resolve.now.types world.now (map (λ t. t.now) defined.now) (map (λ f. f.now) imports.now) (map (λ f. f.now) exports.now)) }
{
    let mut names = List::new(alloc);
    declare_runtime(alloc, &mut names)?;
    declare_types(alloc, &mut names, defined)?;
    declare_trait(alloc, &mut names, exports)?;
    declare_area_type(alloc, &mut names, resolve, imports, exports)?;
    declare_outside(alloc, &mut names, defined)?;
    declare_functions(alloc, &mut names, imports)?;
    declare_exports(alloc, &mut names, exports)?;
    declare_returns(alloc, &mut names, resolve, exports)?;
    declare_area(alloc, &mut names, resolve, exports)?;
    declare_macros(alloc, &mut names, world, exports)?;
    Ok(NameScope {
        name: Text::new(alloc),
        names,
    })
}

#[tactic(auto, unfolding(crate::specs::DeclaredNames::guest_name))]
fn trait_scope(alloc: Global, exports: &[&Function]) -> Result<NameScope, OutOfMemory>
    ensures { IfOk result (λ scope. scope ≡ trait_scope (map (λ f. f.now) exports.now)) }
{
    let mut names = List::new(alloc);
    declare_functions(alloc, &mut names, exports)?;
    Ok(NameScope {
        name: Text::from_str(alloc, "Guest")?,
        names,
    })
}

fn param_scope(alloc: Global, f: &Function) -> Result<NameScope, OutOfMemory>
    ensures { IfOk result (λ scope. scope ≡ param_scope f.now) }
{
    let mut names = List::new(alloc);
    for p in f.params.as_slice() {
        names.push(Declared {
            sort: Sort::Value,
            name: to_rust_ident(alloc, &p.name)?,
        })?;
    }
    Ok(NameScope {
        name: to_rust_ident(alloc, &f.name)?,
        names,
    })
}

fn push_param_scopes(
    alloc: Global,
    scopes: &mut List<NameScope>,
    functions: &[&Function],
) -> Result<(), OutOfMemory>
    ensures { OnOk result
        (scopes.new ≡ scopes.old ++ map param_scope (map (λ f. f.now) functions.now)) }
{
    for function in functions {
        scopes.push(param_scope(alloc, function)?)?;
    }
    Ok(())
}

fn scopes_of(
    alloc: Global,
    resolve: &Resolve,
    world: &World,
    defined: &[&TypeDef],
) -> Result<List<NameScope>, OutOfMemory>
    requires well { IsWellFormed resolve.now }
    requires imports { AreInRange resolve.now (emitted.imported_functions world.now) }
    requires exports { AreInRange resolve.now (emitted.exported_functions world.now) }
    ensures { IfOk result
        (λ scopes. scopes ≡ scopes_of resolve.now.types world.now (map (λ t. t.now) defined.now)) }
{
    let imports = functions_in(alloc, world.imports.as_slice())?;
    let exports = functions_in(alloc, world.exports.as_slice())?;
    let mut scopes = List::new(alloc);
    scopes.push(module_scope(
        alloc,
        resolve,
        world,
        defined,
        imports.as_slice(),
        exports.as_slice(),
    )?)?;
    push_field_scopes(alloc, &mut scopes, defined)?;
    push_member_scopes(alloc, &mut scopes, defined)?;
    scopes.push(trait_scope(alloc, exports.as_slice())?)?;
    push_param_scopes(alloc, &mut scopes, imports.as_slice())?;
    push_param_scopes(alloc, &mut scopes, exports.as_slice())?;
    Ok(scopes)
}

/// The names that the file of a world declares, scope by scope: the root's, the fields of each record, the members of
/// each variant, enum and flags type, the trait's, and the parameters of each function.
pub(crate) fn declared_names(
    alloc: Global,
    opts: &Opts,
    resolve: &Resolve,
    id: WorldId,
    world: &World,
) -> Result<List<NameScope>, OutOfMemory>
    requires well { IsWellFormed resolve.now }
    requires found { slice_get resolve.now.worlds id.0 ≡ Some world.now }
    requires shallow { are_shallow resolve.now.types ≡ true }
    requires listed { are_listed_well resolve.now ≡ true }
    ensures { IfOk result (λ scopes. scopes ≡ declared_names opts.now resolve.now world.now) }
{
    let facts = Types::analyze(alloc, resolve, id)?;
    let defined = defined_types(alloc, opts.type_opts(), resolve, &facts, world)?;
    scopes_of(alloc, resolve, world, defined.as_slice())
}
