//! Bodies have identifiers alone as names.

ghost use Rattle.wrapper_closing.specs.NameLaws.{
  ExportBodyIsNamed,
  ImportBodyIsNamed,
  PostReturnBodyIsNamed,
};

/// The body that was made for a function has identifiers alone as names, where the parts of which it was made have, and the function that it
/// calls has such a name. A post-return function calls none.
pub fn named_body_law()
    ensures imports { ImportBodyIsNamed }
    ensures exports { ExportBodyIsNamed }
    ensures post_returns { PostReturnBodyIsNamed }
{}
