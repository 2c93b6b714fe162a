//! Tables that are deep.

mod deep;
