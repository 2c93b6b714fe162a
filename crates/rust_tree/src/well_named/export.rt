//! The wrappers and post-return functions of exported functions, and the macros that export them.

ghost use Rattle.std.specs.Prelude.{◌≡◌};
ghost use Rattle.std.specs.List.{list_all};
ghost use Rattle.rust_tree.specs.Ident.{is_ident};
ghost use Rattle.rust_tree.specs.WellNamed.{are_named_core_params, is_absent_or, is_named_call, is_named_entry, is_named_export, is_named_module_macro, is_named_post_return, is_named_root_macro};

use crate::export::{CallBlock, CoreParam, ExportFn, PostReturnFn};
use crate::macros::{ExportEntry, ModuleMacro, RootMacro};
use crate::well_named::code::{are_named_exprs, are_named_stmts, is_named_block};
use crate::well_named::text::{are_ident_parts, is_ident_part, is_name, is_quotable};
use wit_model::Text;

fn are_named_core_params(params: &[CoreParam]) -> bool
    ensures { result ≡ are_named_core_params params.now }
{
    params.iter().all(|param| is_name(&param.name))
}

fn is_named_local(local: &Option<Text>) -> bool
    ensures { result ≡ is_absent_or is_ident local.now }
{
    match local {
        None => true,
        Some(name) => is_name(name),
    }
}

fn is_named_call(call: &CallBlock) -> bool
    ensures { result ≡ is_named_call call.now }
{
    is_named_local(&call.result)
        && are_named_stmts(call.stmts.as_slice())
        && is_name(&call.method)
        && are_named_exprs(call.arguments.as_slice())
}

pub(crate) fn is_named_export(f: &ExportFn) -> bool
    ensures { result ≡ is_named_export f.now }
{
    is_ident_part(&f.base)
        && is_name(&f.bound)
        && are_named_core_params(f.params.as_slice())
        && is_named_call(&f.call)
        && is_named_block(&f.rest)
}

pub(crate) fn is_named_post_return(f: &PostReturnFn) -> bool
    ensures { result ≡ is_named_post_return f.now }
{
    is_ident_part(&f.base)
        && is_name(&f.bound)
        && are_named_core_params(f.params.as_slice())
        && is_named_block(&f.body)
}

fn is_named_entry(entry: &ExportEntry) -> bool
    ensures { result ≡ is_named_entry entry.now }
{
    is_quotable(&entry.export_name)
        && is_ident_part(&entry.base)
        && are_named_core_params(entry.params.as_slice())
}

fn are_named_entries(entries: &[ExportEntry]) -> bool
    ensures { result ≡ list_all is_named_entry entries.now }
{
    entries.iter().all(|entry| is_named_entry(entry))
}

pub(crate) fn is_named_module_macro(item: &ModuleMacro) -> bool
    ensures { result ≡ is_named_module_macro item.now }
{
    is_ident_part(&item.name) && are_named_entries(item.entries.as_slice())
}

pub(crate) fn is_named_root_macro(item: &RootMacro) -> bool
    ensures { result ≡ is_named_root_macro item.now }
{
    is_ident_part(&item.world) && are_ident_parts(item.modules.as_slice())
}
