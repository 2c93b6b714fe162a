//! Requests for memory, and what the allocator answers.

use wit_model::List;

/// What the allocator answers to a request.
#[derive(Clone, Copy, Debug, PartialEq, Eq)]
pub enum Choice {
    /// The address that it gives.
    At(u32),
    /// It has no memory for the request.
    Refuse,
}

/// The answers of the allocator, in the order of the requests.
#[derive(Debug, PartialEq, Drop)]
pub struct Choices {
    pub list: List<Choice>,
}

/// A request for memory: so many bytes at an alignment; or room for so many entries of a Rust list or map, with the
/// alignment 0.
#[derive(Clone, Copy, Debug, PartialEq, Eq)]
pub struct Request {
    pub size: u128,
    pub align: u32,
}
