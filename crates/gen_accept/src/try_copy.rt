//! Equal values of what takes memory, where a refusal is the one fault.

ghost use Rattle.std.specs.Prelude.{◌≡◌, IfOk};

use std::alloc::Global;
use wit_model::{List, OutOfMemory, Text};

/// What has a copy where there is memory for it.
pub(crate) trait TryCopy: Drop {
    /// An equal value.
    fn try_copy(&self, alloc: Global) -> Result<Self, OutOfMemory>
        ensures { IfOk result (λ copy. copy ≡ self.now) };
}

impl TryCopy for Text {
    fn try_copy(&self, alloc: Global) -> Result<Text, OutOfMemory> {
        self.copy(alloc)
    }
}

impl<A: TryCopy, B: TryCopy> TryCopy for (A, B) {
    fn try_copy(&self, alloc: Global) -> Result<(A, B), OutOfMemory> {
        let (first, second) = self;
        Ok((first.try_copy(alloc)?, second.try_copy(alloc)?))
    }
}

impl<T: TryCopy> TryCopy for Option<T> {
    fn try_copy(&self, alloc: Global) -> Result<Option<T>, OutOfMemory> {
        match self {
            None => Ok(None),
            Some(value) => Ok(Some(value.try_copy(alloc)?)),
        }
    }
}

impl<T: TryCopy> TryCopy for List<T> {
    fn try_copy(&self, alloc: Global) -> Result<List<T>, OutOfMemory> {
        let mut copies = List::new(alloc);
        for value in self.as_slice() {
            copies.push(value.try_copy(alloc)?)?;
        }
        Ok(copies)
    }
}
