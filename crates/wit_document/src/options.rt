//! Options of a document.

ghost use Rattle.std.specs.Prelude.{◌≡◌};
ghost use Rattle.wit_document.specs.Options.{no_options, options_of};

use crate::fault::DocumentFault;
use crate::members::{given, only};
use crate::reading::Readable;
use json::Value;
use std::alloc::Global;

/// The options that a document asks for.
#[derive(Debug, PartialEq, Drop)]
pub struct DocumentOptions {
    /// Whether types that no function uses are printed: `unused`.
    pub generate_unused_types: bool,
}

impl DocumentOptions {
    /// Those of a document that sets none. It takes no memory.
    pub(crate) fn none() -> DocumentOptions
        ensures { result ≡ no_options }
    {
        DocumentOptions {
            generate_unused_types: false,
        }
    }
}

#[tactic(auto, unfolding(crate::specs::Options::options_of, crate::specs::Members::only, crate::specs::Members::given))]
impl Readable for DocumentOptions {
    ghost read_of = { options_of };

    fn read(alloc: Global, value: &Value<'_>) -> Result<DocumentOptions, DocumentFault> {
        only(value, &["generate-unused-types"])?;
        let unused = given(alloc, value, "generate-unused-types")?;
        Ok(DocumentOptions {
            generate_unused_types: unused.unwrap_or(false),
        })
    }
}
