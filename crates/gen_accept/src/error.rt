//! Why a world is not built, or its options are refused.

ghost use Rattle.std.specs.Prelude.{◌≡◌, IfOk};
ghost use Rattle.gen_accept.specs.LackText.{lack_text};

use std::alloc::Global;
use std::error::Error;
use std::fmt;
use wit_model::{List, OutOfMemory, Rule, Table, Text, TypeId};

/// What a world or the options ask for that is not supported.
#[derive(Clone, Copy, Debug, PartialEq, Eq)]
pub enum Lack {
    Async,
    Future,
    Stream,
    ErrorContext,
    /// More than 128 flags.
    Flags,
    /// A method, a static function or a constructor among the world's exports.
    WorldResource,
    RemappedExport,
    RemappedImport,
    BorrowInFixedList,
    BorrowInList,
    OwningChain,
    /// Whatever the generator does not build yet.
    Unbuilt,
}

impl Lack {
    /// What is not supported, in words, as a line for the reader names it.
    #[tactic(auto, unfolding(crate::specs::LackText::lack_text))]
    pub fn words(self) -> &'static str
        ensures { result.now ≡ lack_text self }
    {
        match self {
            Lack::Async => "async",
            Lack::Future => "future",
            Lack::Stream => "stream",
            Lack::ErrorContext => "error-context",
            Lack::Flags => "flags",
            Lack::WorldResource => "world resource",
            Lack::RemappedExport => "remapped export",
            Lack::RemappedImport => "remapped import",
            Lack::BorrowInFixedList => "borrow in fixed list",
            Lack::BorrowInList => "borrow in list",
            Lack::OwningChain => "owning chain",
            Lack::Unbuilt => "unbuilt",
        }
    }
}

impl fmt::Display for Lack {
    ghost use Rattle.std.specs.Prelude.{Some};
    ghost use Rattle.gen_accept.specs.LackText.{lack_text};

    ghost output = { λ lack. Some (lack_text lack) };

    fn fmt<W: fmt::Write>(&self, f: &mut fmt::Formatter<W>) -> fmt::Result {
        f.write_str(self.words())
    }
}

/// The key of an imported interface that no option maps.
#[derive(Debug, PartialEq, Drop)]
pub struct MissingWith(pub Text);

impl MissingWith {
    /// An equal error.
    pub fn copy(&self, alloc: Global) -> Result<MissingWith, OutOfMemory>
        ensures { IfOk result (λ missing. missing ≡ self.now) }
    {
        Ok(MissingWith(self.0.copy(alloc)?))
    }
}

impl fmt::Display for MissingWith {
    ghost use Rattle.std.specs.Prelude.{Some};
    ghost use Rattle.gen_accept.specs.WithText.{missing_with_text};

    ghost output = { λ missing. Some (missing_with_text missing) };

    fn fmt<W: fmt::Write>(&self, f: &mut fmt::Formatter<W>) -> fmt::Result {
        f.write_str("missing `with` mapping for the key `")?;
        f.write_str(self.0.as_str())?;
        f.write_str("`")
    }
}

impl Error for MissingWith {}

/// What is too large to be built: a type of the table, or the function of that full name.
#[derive(Debug, PartialEq, Drop)]
pub enum TooLarge {
    Type_(TypeId),
    Func(Text),
}

/// A name that the file declares: in a module, given by its path from the root or as `$root`, and in a scope of it, or
/// in the module itself where the scope is empty.
#[derive(Debug, PartialEq, Drop)]
pub struct Entry {
    pub module: Text,
    pub scope: Text,
    pub name: Text,
}

/// A declared name that an earlier one equals, or that is no identifier.
#[derive(Debug, PartialEq, Drop)]
pub enum Clash {
    Twice(Entry),
    NotIdent(Entry),
}

/// Why no file is made, in the order in which the causes are tried. Want of memory may come at any point.
#[derive(Debug, PartialEq)]
pub enum GenError {
    /// The tables break a rule, first at this entry of this table.
    InvalidWorld {
        rule: Rule,
        table: Table,
        index: u32,
    },
    /// An option, by its field and its entry's place, is not in its written form.
    InvalidOption {
        field: Text,
        index: u32,
    },
    MissingWith(MissingWith),
    TooLarge(TooLarge),
    /// The function or type at this place needs what is not supported.
    Unsupported {
        what: Lack,
        place: Text,
    },
    NameClash(Clash),
    /// Keys of `with` that name nothing.
    UnusedWith(List<Text>),
    /// Selectors that match nothing.
    UnusedSelector(List<Text>),
    /// A chaining entry that applies to nothing.
    UnusedChainable(Text),
    OutOfMemory,
}

// Not derived: what is derived stands again in each function that lets such a value go, and is proved with it.
impl Drop for GenError {
    fn drop(self) {
        match self {
            GenError::InvalidWorld {
                rule: _,
                table: _,
                index: _,
            }
            | GenError::InvalidOption { field: _, index: _ }
            | GenError::MissingWith(_)
            | GenError::TooLarge(_)
            | GenError::Unsupported { what: _, place: _ }
            | GenError::NameClash(_)
            | GenError::UnusedWith(_)
            | GenError::UnusedSelector(_)
            | GenError::UnusedChainable(_)
            | GenError::OutOfMemory => {}
        }
    }
}

impl From<OutOfMemory> for GenError {
    ghost use Rattle.std.specs.Prelude.{◌≡◌};
    ghost use Rattle.gen_accept.specs.declared.error.GenError.TheVariants as error;

    ghost from_gives = { λ _ e. e ≡ error.OutOfMemory };

    fn from(_error: OutOfMemory) -> GenError {
        GenError::OutOfMemory
    }
}
