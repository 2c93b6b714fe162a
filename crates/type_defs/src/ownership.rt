//! The ways of owning, and the words by which options name them.

ghost use Rattle.std.specs.Prelude.{◌≡◌, ◌⊎◌, Ok, IfOk, IfErr};
ghost use Rattle.type_defs.specs.OwnershipText.{ownership_text};
ghost use Rattle.type_defs.specs.declared.ownership.Ownership.{Ownership};
ghost use Rattle.type_defs.specs.declared.ownership.OwnershipFault.TheVariants as fault;

use std::alloc::Global;
use std::error::Error;
use std::fmt;
use wit_model::{OutOfMemory, Text};

/// Whether printed types own what they hold or borrow it where they can.
#[derive(Clone, Copy, Debug, PartialEq, Eq)]
pub enum Ownership {
    Owning,
    Borrowing {
        /// Whether a type that is used both ways gets two definitions.
        duplicate_if_necessary: bool,
    },
}

impl Default for Ownership {
    ghost use Rattle.type_defs.specs.declared.ownership.Ownership.TheVariants.{Owning};

    ghost is_default = { λ ownership. ownership ≡ Owning };

    fn default() -> Ownership {
        Ownership::Owning
    }
}

/// Why a text gives no way of owning.
#[derive(Debug, PartialEq, Drop)]
pub enum OwnershipFault {
    /// The text is none of the words.
    Unrecognized(Text),
    /// There is no memory to tell the text.
    OutOfMemory,
}

impl Ownership {
    fn word(self) -> &'static str
        ensures { result.now ≡ ownership_text self }
    {
        match self {
            Ownership::Owning => "owning",
            Ownership::Borrowing {
                duplicate_if_necessary: false,
            } => "borrowing",
            Ownership::Borrowing {
                duplicate_if_necessary: true,
            } => "borrowing-duplicate-if-necessary",
        }
    }

    /// The way of owning whose word this is. Off the three words it is refused with the text, or for want of memory.
    pub fn from_text(alloc: Global, s: &str) -> Result<Ownership, OwnershipFault>
        ensures ok { IfOk result (λ ownership. ownership_text ownership ≡ s.now) }
        ensures word { (ownership : Ownership) → ownership_text ownership ≡ s.now → result ≡ Ok ownership }
        ensures err { IfErr result (λ e. (e ≡ fault.Unrecognized s.now) ⊎ (e ≡ fault.OutOfMemory)) }
    {
        if s == "owning" {
            return Ok(Ownership::Owning);
        }
        if s == "borrowing" {
            return Ok(Ownership::Borrowing {
                duplicate_if_necessary: false,
            });
        }
        if s == "borrowing-duplicate-if-necessary" {
            return Ok(Ownership::Borrowing {
                duplicate_if_necessary: true,
            });
        }
        Err(OwnershipFault::Unrecognized(Text::from_str(alloc, s)?))
    }
}

impl fmt::Display for Ownership {
    ghost use Rattle.std.specs.Prelude.{Some};

    ghost output = { λ ownership. Some (ownership_text ownership) };

    fn fmt<W: fmt::Write>(&self, f: &mut fmt::Formatter<W>) -> fmt::Result {
        f.write_str(self.word())
    }
}

impl From<OutOfMemory> for OwnershipFault {
    ghost from_gives = { λ _ e. e ≡ fault.OutOfMemory };

    fn from(_error: OutOfMemory) -> OwnershipFault {
        OwnershipFault::OutOfMemory
    }
}

impl fmt::Display for OwnershipFault {
    ghost use Rattle.std.specs.Prelude.{Some};
    ghost use Rattle.type_defs.specs.OwnershipText.{ownership_fault_text};

    ghost output = { λ e. Some (ownership_fault_text e) };

    fn fmt<W: fmt::Write>(&self, f: &mut fmt::Formatter<W>) -> fmt::Result {
        match self {
            OwnershipFault::Unrecognized(text) => {
                f.write_str("unrecognized ownership: `")?;
                f.write_str(text.as_str())?;
                f.write_str(
                    "`; expected `owning`, `borrowing`, or `borrowing-duplicate-if-necessary`",
                )
            }
            OwnershipFault::OutOfMemory => f.write_str("out of memory"),
        }
    }
}

impl Error for OwnershipFault {}
