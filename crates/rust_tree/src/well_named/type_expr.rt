//! Types.

ghost use Rattle.std.specs.Prelude.{◌≡◌};
ghost use Rattle.std.specs.List.{list_all};
ghost use Rattle.rust_tree.specs.WellNamed.{is_named_type, is_nonempty, is_other_form, is_type_path};

use crate::ident::is_primitive_name;
use crate::path::Path;
use crate::type_expr::TypeExpr;
use crate::well_named::text::are_path_names;
use wit_model::Text;

fn is_other_form(names: &[Text]) -> bool
    ensures { result ≡ is_other_form names.now }
{
    match names {
        [name] => is_primitive_name(name.as_str()),
        [module, name] => module.as_str() == "_rt" && name.as_str() == "String",
        _ => false,
    }
}

fn is_type_path(path: &Path) -> bool
    ensures { result ≡ is_type_path path.now }
{
    let names = path.names.as_slice();
    are_path_names(names) && (path.lead || path.supers != 0 || !is_other_form(names))
}

fn is_nonempty(types: &[TypeExpr]) -> bool
    ensures { result ≡ is_nonempty types.now }
{
    !types.is_empty()
}

#[cycle(named_type)]
pub(crate) fn is_named_type(ty: &TypeExpr) -> bool
    ensures { result ≡ is_named_type ty.now }
{
    match ty {
        TypeExpr::Primitive(_) | TypeExpr::Unit | TypeExpr::Str | TypeExpr::String => true,
        TypeExpr::Ref(ty) | TypeExpr::Optional(ty) => is_named_type(ty.get()),
        TypeExpr::Array(ty, _) => is_named_type(ty.get()),
        TypeExpr::Path(path) => is_type_path(path),
        TypeExpr::Tuple(parts) => is_nonempty(parts.as_slice())
            && are_named_types(parts.as_slice()),
        TypeExpr::Result(ok, err) => is_named_type(ok.get()) && is_named_type(err.get()),
    }
}

#[cycle(named_type)]
fn are_named_types(types: &[TypeExpr]) -> bool
    ensures { result ≡ list_all is_named_type types.now }
{
    for ty in types {
        if !is_named_type(ty) {
            return false;
        }
    }
    true
}
