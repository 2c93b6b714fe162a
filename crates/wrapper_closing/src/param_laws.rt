//! A law on core parameters and core results of exports.

ghost use Rattle.wrapper_closing.specs.ParamLaws.{AreaIsReturned, ArgsMakeSignature};

/// An export with the core parameters and the core result that are made for its function has the function's core signature. And a post-return
/// function has one parameter, a pointer, where the result passes by an area.
pub fn param_law()
    ensures signature { ArgsMakeSignature }
    ensures pointer { AreaIsReturned }
{}
