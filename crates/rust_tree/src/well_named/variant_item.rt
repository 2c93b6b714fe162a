//! Definitions of variants.

ghost use Rattle.std.specs.Prelude.{◌≡◌};
ghost use Rattle.std.specs.List.{list_all};
ghost use Rattle.rust_tree.specs.WellNamed.{is_absent_or, is_named_type, is_named_variant, is_named_variant_case};

use crate::type_expr::TypeExpr;
use crate::variant_item::{VariantCase, VariantItem};
use crate::well_named::text::{are_lines, are_named_paths, is_name};
use crate::well_named::type_expr::is_named_type;

fn is_named_payload(ty: &Option<TypeExpr>) -> bool
    ensures { result ≡ is_absent_or is_named_type ty.now }
{
    match ty {
        None => true,
        Some(ty) => is_named_type(ty),
    }
}

fn is_named_variant_case(case: &VariantCase) -> bool
    ensures { result ≡ is_named_variant_case case.now }
{
    are_lines(case.docs.as_slice()) && is_name(&case.name) && is_named_payload(&case.ty)
}

fn are_named_variant_cases(cases: &[VariantCase]) -> bool
    ensures { result ≡ list_all is_named_variant_case cases.now }
{
    cases.iter().all(|case| is_named_variant_case(case))
}

pub(crate) fn is_named_variant(item: &VariantItem) -> bool
    ensures { result ≡ is_named_variant item.now }
{
    are_lines(item.docs.as_slice())
        && are_named_paths(item.derives.as_slice())
        && is_name(&item.name)
        && are_named_variant_cases(item.cases.as_slice())
}
