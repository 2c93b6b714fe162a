//! Laws of representation and layout.

ghost use Rattle.wrapper_meaning.specs.Laws.{BufferIsItsWords, FewerAreAPart, LayoutIsTree, ListIsItsElements, MadeIsLent, MemoryDetermines, MemoryHasNoBlocks, PlainIsAlike, PlainIsCanonical, PostReturnLeaves, ResultHasNoBlocks, RustValueDetermines, RustValueHasNoBlocks, SameBlocksArePermuted, SameRequestsArePermuted, SettledIsDistinct, ShapeIsByKind, SignatureIsByShapes, WordsDetermine};

/// The layout of a type's shape is the tree that `wit_layout` has for the type.
pub fn layout_law()
    ensures { LayoutIsTree }
{}

/// The core words of a function's shapes are those that `wit_layout` has for its signature.
pub fn signature_law()
    ensures { SignatureIsByShapes }
{}

/// Where each type of a table names only types before it, the shape of an entry is that of its kind, over the shapes of the
/// table.
pub fn shape_law()
    ensures { ShapeIsByKind }
{}

/// A list of a type lies in memory as it is exactly where `type_facts` calls it canonical.
pub fn canonical_law()
    ensures { PlainIsCanonical }
{}

/// Bytes that hold a value, with its blocks, hold no other. What is lent has to be lent in a well-formed heap.
pub fn memory_law()
    ensures { MemoryDetermines }
{}

/// Core words that say a value, with its blocks, say no other.
pub fn words_law()
    ensures { WordsDetermine }
{}

/// A value of the Rust side that stands for a value, with its blocks, stands for no other.
pub fn rust_value_law()
    ensures { RustValueDetermines }
{}

/// The bytes of a canonical list are those of its elements, each at its place, in each direction; and a buffer that stands
/// for it is passed as its address and its length.
pub fn canonical_list_law()
    ensures alike { PlainIsAlike }
    ensures elements { ListIsItsElements }
    ensures words { BufferIsItsWords }
{}

/// A map is handed on as it is exactly where its keys are distinct.
pub fn map_law()
    ensures { SettledIsDistinct }
{}

/// What has no text, no list and no map has no blocks. So a function without a post-return function returns words that own
/// nothing.
pub fn no_blocks_law()
    ensures memory { MemoryHasNoBlocks }
    ensures words { ResultHasNoBlocks }
    ensures rust_value { RustValueHasNoBlocks }
{}

/// What a wrapper makes of an import's arguments lends them.
pub fn made_law()
    ensures { MadeIsLent }
{}

/// Of an export and then its post-return function, nothing is left but what the implementation kept and the area.
pub fn post_return_law()
    ensures { PostReturnLeaves }
{}

/// Two lists of blocks or of requests weigh the same, whatever their items weigh, exactly where one is a permutation of the
/// other. Requests weigh no more than others exactly where they are a part of a permutation.
pub fn permutation_law()
    ensures blocks { SameBlocksArePermuted }
    ensures requests { SameRequestsArePermuted }
    ensures part { FewerAreAPart }
{}
