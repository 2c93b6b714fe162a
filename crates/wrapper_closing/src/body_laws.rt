//! A function has one body.

ghost use Rattle.wrapper_closing.specs.OneBody.{
  ExportHasOneBody,
  ImportHasOneBody,
  PostReturnHasOneBody,
};

/// Two bodies that are made for one function, of parts that differ in their layouts alone, are equal: the statements, what they give, the
/// area and the items of `_rt` follow from the function, the tables, the names, and how the types are written.
pub fn one_body_law()
    ensures imports { ImportHasOneBody }
    ensures exports { ExportHasOneBody }
    ensures post_returns { PostReturnHasOneBody }
{}
