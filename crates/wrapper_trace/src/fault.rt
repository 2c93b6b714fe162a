//! Why a line is answered by no run.

use std::alloc::{AllocError, AllocFailed};
use std::fmt;
use wit_model::{OutOfMemory, Text};

/// What a part of a line should have been.
#[derive(Clone, Copy)]
pub(crate) enum Part {
    Object,
    List,
    Pair,
    Bool,
    Text,
    Byte,
    Number,
    LongNumber,
    Bit,
    Kind,
    Word,
    Value,
    Choice,
    Side,
    Form,
    Writes,
}

impl Part {
    fn words(self) -> &'static str {
        match self {
            Part::Object => "an object",
            Part::List => "a list",
            Part::Pair => "a list of two",
            Part::Bool => "true or false",
            Part::Text => "a text",
            Part::Byte => "a byte",
            Part::Number => "a whole number of 32 bits",
            Part::LongNumber => "a whole number of 64 bits",
            Part::Bit => "the number of a bit",
            Part::Kind => "a type of whole numbers",
            Part::Word => "a core word",
            Part::Value => "a value",
            Part::Choice => "a choice of the allocator",
            Part::Side => "a side",
            Part::Form => "a form",
            Part::Writes => "bytes that end within the memory",
        }
    }
}

impl fmt::Display for Part {
    fn fmt<W: fmt::Write>(&self, f: &mut fmt::Formatter<W>) -> fmt::Result {
        f.write_str(self.words())
    }
}

/// Why a line is answered by no run.
#[derive(Drop)]
pub(crate) enum LineFault {
    /// The line is no JSON value.
    NoJson,
    /// A part is not what it should be.
    Expected(Part),
    /// An object lacks this key.
    Missing(Text),
    /// An object has this key, which it should not have.
    Unknown(Text),
    /// The document's file cannot be read.
    NoFile,
    /// There is no tree of the document, for this cause.
    Refused(Text),
    /// The tree has no import's wrapper of this number.
    NoImport(u32),
    /// The tree has no export's wrapper of this number.
    NoExport(u32),
    /// The tree has no export's wrapper of this number that has a post-return function.
    NoPostReturn(u32),
    /// There are more or fewer arguments than parameters.
    Arguments,
    /// The words are not those of the core signature.
    Words,
    /// The peer's word is not of the type of the core result.
    Answer,
    /// A heap is not well formed.
    Heap,
    OutOfMemory,
}

impl fmt::Display for LineFault {
    fn fmt<W: fmt::Write>(&self, f: &mut fmt::Formatter<W>) -> fmt::Result {
        match self {
            LineFault::NoJson => f.write_str("the line is no JSON value"),
            LineFault::Expected(part) => write!(f, "there should be {part}"),
            LineFault::Missing(key) => write!(f, "there is no `{}`", key.as_str()),
            LineFault::Unknown(key) => write!(f, "there should be no `{}`", key.as_str()),
            LineFault::NoFile => f.write_str("the file cannot be read"),
            LineFault::Refused(cause) => f.write_str(cause.as_str()),
            LineFault::NoImport(nth) => write!(f, "wrapper {nth} is not that of an import"),
            LineFault::NoExport(nth) => write!(f, "wrapper {nth} is not that of an export"),
            LineFault::NoPostReturn(nth) => write!(f, "wrapper {nth} has no post-return function"),
            LineFault::Arguments => f.write_str("there are not as many arguments as parameters"),
            LineFault::Words => f.write_str("the words are not those of the core signature"),
            LineFault::Answer => f.write_str("the answer's word is not the core result"),
            LineFault::Heap => f.write_str("a heap is not well formed"),
            LineFault::OutOfMemory => f.write_str("out of memory"),
        }
    }
}

impl From<OutOfMemory> for LineFault {
    ghost use Rattle.std.specs.Prelude.{◌≡◌};
    ghost use Rattle.wrapper_trace.specs.declared.fault.LineFault.TheVariants as fault;

    ghost from_gives = { λ _ e. e ≡ fault.OutOfMemory };

    fn from(_error: OutOfMemory) -> LineFault {
        LineFault::OutOfMemory
    }
}

impl From<AllocError> for LineFault {
    ghost use Rattle.std.specs.Prelude.{◌≡◌};
    ghost use Rattle.wrapper_trace.specs.declared.fault.LineFault.TheVariants as fault;

    ghost from_gives = { λ _ e. e ≡ fault.OutOfMemory };

    fn from(_error: AllocError) -> LineFault {
        LineFault::OutOfMemory
    }
}

impl<T: Drop> From<AllocFailed<T>> for LineFault {
    ghost use Rattle.std.specs.Prelude.{◌≡◌};
    ghost use Rattle.wrapper_trace.specs.declared.fault.LineFault.TheVariants as fault;

    ghost from_gives = { λ _ e. e ≡ fault.OutOfMemory };

    fn from(_error: AllocFailed<T>) -> LineFault {
        LineFault::OutOfMemory
    }
}
