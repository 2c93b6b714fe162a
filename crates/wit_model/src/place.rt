//! The place of an entry of a table.

ghost use Rattle.std.specs.Prelude.{◌≡◌, ◌<◌, ◌^◌};
ghost use Rattle.std.specs.Option.{option_map, ForSome};

use crate::resolve::Table;

/// The place of an entry of a table, by its index.
pub fn placed(table: Table, index: Option<usize>) -> Option<(Table, u32)>
    requires { ForSome index (λ i. i < 2 ^ 32) }
    ensures { result ≡ option_map (λ i. (table, i)) index }
{
    match index {
        None => None,
        Some(i) => Some((table, i as u32)),
    }
}
