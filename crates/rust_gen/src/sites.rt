//! What denotes the parameters of an import in its body.

ghost use Rattle.std.specs.Prelude.{◌≡◌, IfOk, map};
ghost use Rattle.rust_gen.specs.Body.{import_site, site_expr};

use func_gen::{ExprOperand, ParamSite};
use rust_tree::{Expr, to_rust_ident};
use std::alloc::Global;
use wit_model::{List, OutOfMemory, Param, Text, WitType};

/// The expression of a parameter of this type and name: a text and a type of the table are taken as they are, and all else by a reference.
fn site_expr(ty: WitType, name: Text) -> Expr
    ensures { result ≡ site_expr ty name }
{
    match ty {
        WitType::String | WitType::Id(_) => Expr::Local(name),
        _ => Expr::Ref(name),
    }
}

fn import_site(alloc: Global, p: &Param) -> Result<ParamSite, OutOfMemory>
    ensures { IfOk result (λ site. site ≡ import_site p.now) }
{
    let name = to_rust_ident(alloc, &p.name)?;
    let expr = site_expr(p.ty, name.copy(alloc)?);
    Ok(ParamSite {
        operand: ExprOperand { expr, kept: false },
        name,
    })
}

/// What denotes the parameters of an import, in their order.
pub(crate) fn import_sites(alloc: Global, params: &[Param]) -> Result<List<ParamSite>, OutOfMemory>
    ensures { IfOk result (λ sites. sites ≡ map import_site params.now) }
{
    let mut sites = List::new(alloc);
    for p in params {
        sites.push(import_site(alloc, p)?)?;
    }
    Ok(sites)
}
