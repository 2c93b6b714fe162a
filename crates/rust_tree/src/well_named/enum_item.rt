//! Definitions of enums.

ghost use Rattle.std.specs.Prelude.{◌≡◌};
ghost use Rattle.std.specs.List.{list_all};
ghost use Rattle.rust_tree.specs.WellNamed.{is_absent_or, is_named_case, is_named_enum, is_named_error, is_named_error_case};

use crate::enum_item::{EnumCase, EnumItem, ErrorCase, ErrorEnum};
use crate::well_named::text::{are_lines, are_named_paths, is_name, is_quotable};

fn is_named_case(case: &EnumCase) -> bool
    ensures { result ≡ is_named_case case.now }
{
    are_lines(case.docs.as_slice()) && is_name(&case.name)
}

fn are_named_cases(cases: &[EnumCase]) -> bool
    ensures { result ≡ list_all is_named_case cases.now }
{
    cases.iter().all(|case| is_named_case(case))
}

fn is_named_error_case(case: &ErrorCase) -> bool
    ensures { result ≡ is_named_error_case case.now }
{
    is_name(&case.name) && is_quotable(&case.wit)
}

fn are_named_error_cases(cases: &[ErrorCase]) -> bool
    ensures { result ≡ list_all is_named_error_case cases.now }
{
    cases.iter().all(|case| is_named_error_case(case))
}

fn is_named_error(error: &Option<ErrorEnum>) -> bool
    ensures { result ≡ is_absent_or is_named_error error.now }
{
    match error {
        None => true,
        Some(error) => are_named_error_cases(error.cases.as_slice()),
    }
}

pub(crate) fn is_named_enum(item: &EnumItem) -> bool
    ensures { result ≡ is_named_enum item.now }
{
    are_lines(item.docs.as_slice())
        && are_named_paths(item.derives.as_slice())
        && is_name(&item.name)
        && are_named_cases(item.cases.as_slice())
        && is_named_error(&item.error)
}
