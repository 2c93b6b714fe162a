//! The item of a function has one code.

ghost use Rattle.rust_gen.specs.OneCode.{ExportHasOneCode, ImportHasOneCode, ReturnHasOneCode};

/// In a file the code of a function's item is one: the tables, the function and how its types are written tell it, each name and each item
/// of `_rt` included.
pub fn one_code_law()
    ensures imports { ImportHasOneCode }
    ensures exports { ExportHasOneCode }
    ensures post_returns { ReturnHasOneCode }
{}
