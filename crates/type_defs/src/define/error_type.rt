//! What makes a definition that of an error type.

ghost use Rattle.std.specs.Prelude.{◌≡◌};
ghost use Rattle.type_defs.specs.ErrorDef.{error_type};

use rust_tree::ErrorType;
use type_facts::TypeInfo;

/// What there is besides of a record or a variant that is an error type.
pub(crate) fn error_type(info: TypeInfo) -> Option<ErrorType>
    ensures { result ≡ error_type info }
{
    if info.error {
        Some(ErrorType { std_feature: false })
    } else {
        None
    }
}
