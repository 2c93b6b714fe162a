//! Laws of the machine, each of any code: a proof above may cite them. The functions do nothing.

ghost use Rattle.wrapper_run.specs.Growth.{BlocksGrow, ExportsGrow, ImportsGrow, InnerBlocksGrow};
ghost use Rattle.wrapper_run.specs.Inward.{BlocksCallNothing, InnerBlocksCallNothing};
ghost use Rattle.wrapper_run.specs.OtherBlocks.{IgnoresBlocks, InnerIgnoresBlocks};
ghost use Rattle.wrapper_run.specs.OuterLocals.{BlocksRunBehind, InnerBlocksRunBehind};
ghost use Rattle.wrapper_run.specs.UnusedLocals.{IgnoresUnused, InnerIgnoresUnused};

/// Along a run calls and requests only grow: those that a state has are the first of those that it comes to.
pub fn growth_law()
    ensures blocks { BlocksGrow }
    ensures inner { InnerBlocksGrow }
    ensures imports { ImportsGrow }
    ensures exports { ExportsGrow }
{}

/// A block ends as it does without the locals that it does not name, and leaves these as they are.
pub fn unused_law()
    ensures bodies { IgnoresUnused }
    ensures inner { InnerIgnoresUnused }
{}

/// A block that makes no call ends as it does without the blocks that stand beside its own, where the choices fit there
/// too, and leaves these as they are.
pub fn beside_law()
    ensures bodies { IgnoresBlocks }
    ensures inner { InnerIgnoresBlocks }
{}

/// Inward code makes no call, from whatever state and however it ends.
pub fn inward_law()
    ensures bodies { BlocksCallNothing }
    ensures inner { InnerBlocksCallNothing }
{}

/// Inward code that is not stuck behind the locals in its reach, none of which owns anything, ends behind all locals as it does behind those, and leaves
/// them as they are.
pub fn outer_law()
    ensures bodies { BlocksRunBehind }
    ensures inner { InnerBlocksRunBehind }
{}
