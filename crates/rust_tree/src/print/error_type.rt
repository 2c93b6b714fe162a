//! What definitions of error types have besides.

ghost use Rattle.std.specs.Prelude.{◌≡◌, ◌++◌, OnOk};
ghost use Rattle.rust_tree.specs.EnumText.{error_type_text};

use crate::error_type::ErrorType;
use crate::print::error_enum::{push_display, push_error_impl};
use crate::print::word::EnumWord;
use wit_model::{OutOfMemory, Text};

/// What there is of a type of this name where it is an error type, and else nothing.
pub(crate) fn push_error_type(
    out: &mut Text,
    name: &Text,
    error: &Option<ErrorType>,
) -> Result<(), OutOfMemory>
    ensures { OnOk result (out.new ≡ out.old ++ error_type_text name.now error.now) }
{
    match error {
        None => Ok(()),
        Some(error) => {
            push_display(out, name, EnumWord::WriteDebug)?;
            push_error_impl(out, name, error.std_feature)
        }
    }
}
