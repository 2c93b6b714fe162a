//! What denotes the parameters of a wrapper, and which names they may have.

ghost use Rattle.std.specs.Prelude.{◌≡◌, ◌∷◌, length, IfOk};
ghost use Rattle.std.specs.List.{AllByRecursion};
ghost use Rattle.wit_model.specs.Distinct.{is_distinct};
ghost use Rattle.func_gen.specs.Scope.{is_used};
ghost use Rattle.func_gen.specs.Sites.{IsSite, site_names};
ghost use Rattle.wrapper_closing.specs.Params.{arg_names, cleanup_list, local_site, local_sites, ret_area};

use func_gen::{ExprOperand, ParamSite};
use rust_tree::{CoreParam, Expr};
use std::alloc::Global;
use wit_model::{List, OutOfMemory, Text, are_distinct_texts};

fn local_site(alloc: Global, name: &Text) -> Result<ParamSite, OutOfMemory>
    ensures { IfOk result (λ site. site ≡ local_site name.now) }
{
    let local = name.copy(alloc)?;
    let name = name.copy(alloc)?;
    let expr = Expr::Local(local);
    Ok(ParamSite {
        operand: ExprOperand { expr, kept: false },
        name,
    })
}

/// The parameters of these names, each denoted by its name. An import writes a scalar as a reference, `&a`, as wit-bindgen does: that site is the
/// caller's to make.
pub fn param_sites(alloc: Global, names: &[Text]) -> Result<List<ParamSite>, OutOfMemory>
    ensures are { IfOk result (λ sites. sites ≡ local_sites names.now) }
    ensures sites { IfOk result (λ sites. AllByRecursion IsSite sites) }
    ensures names { IfOk result (λ sites. site_names sites ≡ names.now) }
    ensures many { IfOk result (λ sites. length sites ≡ length names.now) }
{
    let mut sites = List::new(alloc);
    for name in names {
        sites.push(local_site(alloc, name)?)?;
    }
    Ok(sites)
}

/// The parameters of a core function, each denoted by its name.
pub fn core_sites(alloc: Global, params: &[CoreParam]) -> Result<List<ParamSite>, OutOfMemory>
    ensures are { IfOk result (λ sites. sites ≡ local_sites (arg_names params.now)) }
    ensures sites { IfOk result (λ sites. AllByRecursion IsSite sites) }
    ensures names { IfOk result (λ sites. site_names sites ≡ arg_names params.now) }
    ensures many { IfOk result (λ sites. length sites ≡ length params.now) }
{
    let mut sites = List::new(alloc);
    for param in params {
        sites.push(local_site(alloc, &param.name)?)?;
    }
    Ok(sites)
}

fn has_name(names: &[Text], name: &Text) -> bool
    ensures { result ≡ is_used names.now name.now }
{
    names.iter().any(|n| n.as_str() == name.as_str())
}

/// Whether no two parameters have one name, and none has that of the area. It takes memory as [`are_distinct_texts`] does.
pub fn are_distinct_names(alloc: Global, area: &Text, names: &[Text]) -> Result<bool, OutOfMemory>
    ensures { IfOk result (λ b. b ≡ is_distinct (area.now ∷ names.now)) }
{
    if has_name(names, area) {
        return Ok(false);
    }
    are_distinct_texts(alloc, names)
}

/// The name of the local that holds a return area, where no parameter has it.
#[tactic(auto, unfolding(crate::specs::Params::ret_area))]
pub fn ret_area(alloc: Global) -> Result<Text, OutOfMemory>
    ensures { IfOk result (λ name. name ≡ ret_area) }
{
    Text::from_str(alloc, "ret_area")
}

/// The name of the local that holds the lists to be freed, where no parameter has it.
#[tactic(auto, unfolding(crate::specs::Params::cleanup_list))]
pub fn cleanup_list(alloc: Global) -> Result<Text, OutOfMemory>
    ensures { IfOk result (λ name. name ≡ cleanup_list) }
{
    Text::from_str(alloc, "cleanup_list")
}
