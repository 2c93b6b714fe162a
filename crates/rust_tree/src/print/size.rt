//! Sizes as expressions.

ghost use Rattle.std.specs.Prelude.{◌≡◌, ◌++◌, OnOk};
ghost use Rattle.rust_tree.specs.CodeText.{term_text};

use wit_model::{ArchitectureSize, OutOfMemory, Text};

#[tactic(auto, unfolding(crate::specs::CodeText::term_text))]
pub(crate) fn push_term(out: &mut Text, size: ArchitectureSize) -> Result<(), OutOfMemory>
    ensures { OnOk result (out.new ≡ out.old ++ term_text size) }
{
    size.push_term(out, true)
}
