//! Why the program makes no file, and the line that tells it.

use crate::gen_line::push_gen_line;
use crate::status::gen_status;
use crate::word::{Word, put};
use gen_accept::GenError;
use std::alloc::Global;
use wit_model::{OutOfMemory, Text};

/// Why the program makes no file.
#[derive(Debug, PartialEq)]
pub enum Refusal {
    /// The command line is none that the program knows.
    Usage,
    /// A read of the input failed.
    ReadFault,
    /// The input has more bytes than an input may have.
    InputTooLong,
    /// The input is not a bindings document.
    BadJson,
    /// The generator refuses what the document asks for.
    Gen(GenError),
    /// A write of the output failed.
    WriteFault,
    /// There was no memory.
    OutOfMemory,
}

// Not derived: what is derived stands again in each function that lets such a value go, and is proved with it.
impl Drop for Refusal {
    fn drop(self) {
        match self {
            Refusal::Usage
            | Refusal::ReadFault
            | Refusal::InputTooLong
            | Refusal::BadJson
            | Refusal::Gen(_)
            | Refusal::WriteFault
            | Refusal::OutOfMemory => {}
        }
    }
}

impl From<GenError> for Refusal {
    ghost use Rattle.std.specs.Prelude.{◌≡◌};
    ghost use Rattle.wit_refusal.specs.declared.refusal.Refusal.TheVariants.{Gen};

    ghost from_gives = { λ error refusal. refusal ≡ Gen error };

    fn from(error: GenError) -> Refusal {
        Refusal::Gen(error)
    }
}

impl From<OutOfMemory> for Refusal {
    ghost use Rattle.std.specs.Prelude.{◌≡◌};
    ghost use Rattle.wit_refusal.specs.declared.refusal.Refusal.TheVariants as refusal;

    ghost from_gives = { λ _ made. made ≡ refusal.OutOfMemory };

    fn from(_error: OutOfMemory) -> Refusal {
        Refusal::OutOfMemory
    }
}

impl Refusal {
    ghost use Rattle.std.specs.Prelude.{◌≡◌, IfOk};
    ghost use Rattle.wit_refusal.specs.Line.{line_of};
    ghost use Rattle.wit_refusal.specs.Status.{status_of};

    /// The exit status. Each cause has its own, and every want of memory has one.
    pub fn status(&self) -> u8
        ensures { result ≡ status_of self.now }
    {
        match self {
            Refusal::Usage => 2,
            Refusal::ReadFault => 3,
            Refusal::InputTooLong => 4,
            Refusal::BadJson => 5,
            Refusal::Gen(error) => gen_status(error),
            Refusal::WriteFault => 15,
            Refusal::OutOfMemory => 16,
        }
    }

    /// The line that says why, with its line feed.
    pub fn line(&self, alloc: Global) -> Result<Text, OutOfMemory>
        ensures { IfOk result (λ t. t ≡ line_of self.now) }
    {
        let mut out = Text::new(alloc);
        match self {
            Refusal::Usage => put(&mut out, Word::UsageLine)?,
            Refusal::ReadFault => put(&mut out, Word::ReadFaultLine)?,
            Refusal::InputTooLong => put(&mut out, Word::InputTooLongLine)?,
            Refusal::BadJson => put(&mut out, Word::BadJsonLine)?,
            Refusal::Gen(error) => push_gen_line(&mut out, error)?,
            Refusal::WriteFault => put(&mut out, Word::WriteFaultLine)?,
            Refusal::OutOfMemory => put(&mut out, Word::OutOfMemoryLine)?,
        }
        Ok(out)
    }
}
