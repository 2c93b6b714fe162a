//! What values own, and what is asked of them.

ghost use Rattle.std.specs.Prelude.{◌≡◌, IfOk};
ghost use Rattle.wrapper_values.specs.Owning as spec;

use crate::flags::word_of_flags;
use crate::owned::{lent_value, push_owned, push_owned_parts};
use crate::state::Val;
use std::alloc::Global;
use wit_model::{List, OutOfMemory};
use wrapper_data::{RustValue, Word};

impl Val {
    /// An equal value. Out of memory where there is none for it.
    pub fn copy(&self, alloc: Global) -> Result<Val, OutOfMemory>
        ensures { IfOk result (λ v. v ≡ self.now) }
    {
        match self {
            Val::Word(word) => Ok(Val::Word(*word)),
            Val::Value(value) => Ok(Val::Value(value.copy(alloc)?)),
            Val::Area(address, size) => Ok(Val::Area(*address, *size)),
        }
    }

    /// The address of a text or list, its length in entries, and whether it owns its block. Nothing of any other value.
    pub fn buffer(&self) -> Option<(u32, u32, bool)>
        ensures { result ≡ spec.buffer_of self.now }
    {
        match self {
            Val::Value(
                RustValue::Buffer {
                    address,
                    len,
                    owned,
                },
            ) => Some((*address, *len, *owned)),
            _ => None,
        }
    }

    /// The addresses of the blocks that a value owns. Out of memory where there is none for the list.
    pub fn owned(&self, alloc: Global) -> Result<List<u32>, OutOfMemory>
        ensures { IfOk result (λ addresses. addresses ≡ spec.owned self.now) }
    {
        let mut addresses = List::new(alloc);
        match self {
            Val::Word(_) => {}
            Val::Value(value) => push_owned(&mut addresses, value)?,
            Val::Area(address, _) => addresses.push(*address)?,
        }
        Ok(addresses)
    }

    /// The value behind a reference, which owns nothing.
    pub(crate) fn lent(&self, alloc: Global) -> Result<Option<Val>, OutOfMemory>
        ensures { IfOk result (λ v. v ≡ spec.lent self.now) }
    {
        match self {
            Val::Word(word) => Ok(Some(Val::Word(*word))),
            Val::Value(value) => Ok(Some(Val::Value(lent_value(value, alloc)?))),
            Val::Area(_, _) => Ok(None),
        }
    }
}

/// The addresses of the blocks that values own. Out of memory where there is none for the list.
pub fn taken_by(alloc: Global, values: &[RustValue]) -> Result<List<u32>, OutOfMemory>
    ensures { IfOk result (λ taken. taken ≡ spec.taken_by values.now) }
{
    let mut taken = List::new(alloc);
    push_owned_parts(&mut taken, values)?;
    Ok(taken)
}

/// Whether an address is one of those that owners have.
pub fn is_taken(address: u32, taken: &[u32]) -> bool
    ensures { result ≡ spec.is_taken address taken.now }
{
    taken.iter().any(|t| *t == address)
}

/// What a method tells of a value.
#[derive(Clone, Copy)]
pub enum View {
    /// The address of a text.
    TextAddress,
    /// Its length.
    TextLength,
    /// The same address.
    Pointer,
    /// The address of a return area.
    AreaAddress,
    /// The lowest word of flags, once they are shifted right by so many bits.
    FlagsWord(u32),
}

impl View {
    pub(crate) fn of(self, v: &Val) -> Option<Word>
        ensures { result ≡ spec.view self v.now }
    {
        match self {
            View::TextAddress => Some(Word::Pointer(v.buffer()?.0)),
            View::TextLength => Some(Word::Length(v.buffer()?.1)),
            View::Pointer => match v {
                Val::Word(Word::Pointer(address)) => Some(Word::Pointer(*address)),
                _ => None,
            },
            View::AreaAddress => match v {
                Val::Area(address, _) => Some(Word::Pointer(*address)),
                _ => None,
            },
            View::FlagsWord(by) => word_of_flags(by, v),
        }
    }
}
