//! The core words of types and functions.

ghost use Rattle.std.specs.Prelude.{IsTrue, length};
ghost use Rattle.wit_model.specs.TypeOrder.{type_below};
ghost use Rattle.wit_model.specs.WellFormed.{IsWellFormed};
ghost use Rattle.wit_layout.specs.Flat.{IsFlatOf, flatten_type};
ghost use Rattle.wit_layout.specs.Tree.{tree_of};

use crate::flatten::flatten_type;
use crate::words::Words;
use wit_model::{Resolve, WasmType, WitType};

/// The core words of a type, or of the parameters or the result of a function, as far as sixteen of them.
#[derive(Clone, Copy, Debug)]
pub struct Flat {
    /// The words, of which the first `count` are told.
    pub words: [WasmType; 16],
    pub count: u32,
    /// Whether there are more than sixteen words; `count` is 16 then.
    pub more: bool,
}

impl Flat {
    ghost use Rattle.std.specs.Prelude.{take};
    ghost use Rattle.wit_layout.specs.inside.Words.{kept};

    /// The first sixteen of the words.
    pub(crate) fn of_words(all: Words) -> Flat
        ensures { IsFlatOf result (kept all) }
    {
        let mut words = [WasmType::I32; 16];
        let count = all.count.min(16);
        for at in 0..count {
            words[at] = all.words[at];
        }
        Flat {
            words,
            count: count as u32,
            more: all.count > 16,
        }
    }
}

/// The core words of a type of tables that [`Resolve::check`] has passed: the Canonical ABI's `flatten_type`, in which a
/// word also tells whether it is a pointer or a length. It takes no memory. From the type it goes down as far as the
/// first seventeen words need it, however deep that is: a call stands within another only for variants in variants, of
/// which it opens seventeen at most.
///
/// Each case of a variant is flattened anew, as wit-parser's `push_flat` does, unless the case behind it has the same type.
/// So where variants of k cases of several types stand within one another, as many as 1 + k + .. + k^16 of them are opened.
/// A caller with a bound on the nodes of an unfolded type asks for it first: then no more than those nodes are opened.
pub fn flat_types(resolve: &Resolve, ty: &WitType) -> Flat
    requires well { IsWellFormed resolve.now }
    requires below { IsTrue (type_below (length resolve.now.types) ty.now) }
    ensures { IsFlatOf result (flatten_type (tree_of resolve.now.types ty.now)) }
{
    Flat::of_words(flatten_type(resolve.types.as_slice(), *ty, Words::none(17)))
}
