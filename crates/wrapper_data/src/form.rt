//! The forms of printed code, and what each tests.

ghost use Rattle.std.specs.Prelude.{◌≡◌};
ghost use Rattle.wrapper_data.specs.LastCase as spec;

use crate::run::TrapKind;

/// Whether the printed code tests what comes in.
#[derive(Clone, Copy, Debug, PartialEq, Eq)]
pub enum Form {
    Debug,
    Release,
}

impl Form {
    /// The trap that a word is, where the number of a last case is expected. The release form tests nothing.
    pub fn trap_at(self, expected: u32, word: i32) -> Option<TrapKind>
        ensures { result ≡ spec.trap_at self expected word }
    {
        match self {
            Form::Debug if i64::from(word) != i64::from(expected) => Some(TrapKind::Discriminant),
            _ => None,
        }
    }
}
