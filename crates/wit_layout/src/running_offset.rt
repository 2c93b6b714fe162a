//! A place that goes along the fields of a record.

ghost use Rattle.wit_layout.specs.inside.Spread.{IsSize};

use crate::spread::Spread;

/// How far a record's fields have been gone along: so many of them lie behind, and there they end.
#[derive(Clone, Copy, Debug)]
pub struct RunningOffset {
    pub(crate) nth: usize,
    pub(crate) end: Spread,
    ghost is_size: { IsSize end },
}
