//! Functions and traits.

ghost use Rattle.std.specs.Prelude.{◌≡◌};
ghost use Rattle.std.specs.List.{list_all};
ghost use Rattle.rust_tree.specs.WellNamed.{is_named_fn, is_named_method, is_named_param, is_named_trait};

use crate::item::{FnItem, FnParam};
use crate::trait_item::{TraitFn, TraitItem};
use crate::well_named::code::is_named_block;
use crate::well_named::text::{are_lines, is_name};
use crate::well_named::type_expr::is_named_type;

fn is_named_param(param: &FnParam) -> bool
    ensures { result ≡ is_named_param param.now }
{
    is_name(&param.name) && is_named_type(&param.ty)
}

fn are_named_params(params: &[FnParam]) -> bool
    ensures { result ≡ list_all is_named_param params.now }
{
    params.iter().all(|param| is_named_param(param))
}

pub(crate) fn is_named_fn(f: &FnItem) -> bool
    ensures { result ≡ is_named_fn f.now }
{
    are_lines(f.docs.as_slice())
        && is_name(&f.name)
        && are_named_params(f.params.as_slice())
        && is_named_type(&f.result)
        && is_named_block(&f.body)
}

fn is_named_method(f: &TraitFn) -> bool
    ensures { result ≡ is_named_method f.now }
{
    are_lines(f.docs.as_slice())
        && is_name(&f.name)
        && are_named_params(f.params.as_slice())
        && is_named_type(&f.result)
}

fn are_named_methods(functions: &[TraitFn]) -> bool
    ensures { result ≡ list_all is_named_method functions.now }
{
    functions.iter().all(|f| is_named_method(f))
}

pub(crate) fn is_named_trait(item: &TraitItem) -> bool
    ensures { result ≡ is_named_trait item.now }
{
    is_name(&item.name) && are_named_methods(item.functions.as_slice())
}
