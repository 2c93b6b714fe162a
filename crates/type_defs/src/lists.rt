//! Lists of few elements.

ghost use Rattle.std.specs.Prelude.{◌≡◌, [], ◌∷◌, IfOk};

use std::alloc::Global;
use wit_model::{List, OutOfMemory};

/// A list of one element.
pub fn one<T: Drop>(alloc: Global, first: T) -> Result<List<T>, OutOfMemory>
    ensures { IfOk result (λ list. list ≡ first ∷ []) }
{
    let mut list = List::new(alloc);
    list.push(first)?;
    Ok(list)
}

/// A list of two elements, in this order.
pub fn two<T: Drop>(alloc: Global, first: T, second: T) -> Result<List<T>, OutOfMemory>
    ensures { IfOk result (λ list. list ≡ first ∷ second ∷ []) }
{
    let mut list = List::new(alloc);
    list.push(first)?;
    list.push(second)?;
    Ok(list)
}
