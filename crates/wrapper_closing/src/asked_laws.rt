//! The texts of bodies name what their code asks for of `_rt`.

ghost use Rattle.wrapper_closing.specs.AskedLaws.{
  ExportBodyNamesAsked,
  ImportBodyNamesAsked,
  PostReturnBodyNamesAsked,
};

/// The text of the body that was made for a function names each item of `_rt` that its code asks for.
pub fn asked_body_law()
    ensures imports { ImportBodyNamesAsked }
    ensures exports { ExportBodyNamesAsked }
    ensures post_returns { PostReturnBodyNamesAsked }
{}
