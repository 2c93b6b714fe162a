//! What a `let` and the arm of a `match` take apart.

use crate::path::Path;
use wit_model::{List, Text};

/// What a `let` takes apart: each part of a value gets a name.
#[derive(Debug, PartialEq)]
pub enum Pattern {
    /// A record by its path, with a name for each field: `P { f: x, g: y }`.
    Record(Path, List<(Text, Text)>),
    /// A tuple: `(x, y, )`.
    Tuple(List<Text>),
    /// An array: `[x, y, ]`.
    Array(List<Text>),
}

// Not derived: what is derived stands again in each function that lets such a value go, and is proved with it.
impl Drop for Pattern {
    fn drop(self) {
        match self {
            Pattern::Record(_, _) | Pattern::Tuple(_) | Pattern::Array(_) => {}
        }
    }
}

/// What an arm of a `match` takes.
#[derive(Debug, PartialEq)]
pub enum ArmPattern {
    /// A case without a payload: `P::C`.
    Case(Path),
    /// A case whose payload gets a name: `P::C(x)`.
    Payload(Path, Text),
    /// A case whose payload is left out: `P::C(_)`.
    LeftOut(Path),
    /// A number: `0`.
    Number(u32),
    /// Whatever is left, under a name: `n`.
    Name(Text),
    /// Whatever is left: `_`.
    AnyOther,
}

impl Drop for ArmPattern {
    fn drop(self) {
        match self {
            ArmPattern::Case(_)
            | ArmPattern::Payload(_, _)
            | ArmPattern::LeftOut(_)
            | ArmPattern::Number(_)
            | ArmPattern::Name(_)
            | ArmPattern::AnyOther => {}
        }
    }
}
