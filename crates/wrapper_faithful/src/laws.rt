//! Laws of faithful wrappers.

ghost use Rattle.wrapper_faithful.specs.KeptHeaps.{ExportKeepsHeap, ImportKeepsHeap, PostReturnKeepsHeap};
ghost use Rattle.wrapper_faithful.specs.Laws.{AllCallsCount, NothingIsDropped, RoundLeaves, RunLeaves};

/// A run from a well-formed heap shows well-formed heaps alone, whatever the tree is and whatever is answered.
pub fn heap_law()
    ensures imports { ImportKeepsHeap }
    ensures exports { ExportKeepsHeap }
    ensures post_returns { PostReturnKeepsHeap }
{}

/// Of a faithful export and then its post-return function, nothing is left but what the implementation kept and the area.
pub fn round_law()
    ensures { RoundLeaves }
{}

/// Of a faithful export without a post-return function, nothing is left but what the implementation kept and the area.
pub fn unreturned_law()
    ensures { RunLeaves }
{}

/// Where the types of a function reach no resource, each call of a run counts, and no handle is owed a drop.
pub fn handle_law()
    ensures calls { AllCallsCount }
    ensures drops { NothingIsDropped }
{}
