//! The facts that are known of a type.

ghost use Rattle.std.specs.Prelude.{◌≡◌, ◌&&◌, not};

/// The facts of a type. A type reaches itself, and what is reached by the types that it names, through aliases too and
/// from a handle to its resource.
#[derive(Clone, Copy, Debug, PartialEq, Eq)]
pub struct TypeInfo {
    /// It has a name, and a parameter of an imported function reaches it.
    pub borrowed: bool,
    /// It has a name, and the result of an imported function, or any part of an exported one, reaches it.
    pub owned: bool,
    /// It has a name, and a function's result is a result whose error payload it is, behind aliases.
    pub error: bool,
    /// It reaches a string, a list or a map.
    pub has_list: bool,
    /// It reaches a resource.
    pub has_resource: bool,
    /// It reaches a tuple.
    pub has_tuple: bool,
    /// It reaches a handle that borrows.
    pub has_borrow_handle: bool,
    /// It reaches a handle that owns.
    pub has_own_handle: bool,
}

impl TypeInfo {
    /// Whether the type is `Copy` in Rust: it reaches no list and no resource.
    pub fn is_copy(&self) -> bool
        ensures { result ≡ (not self.now.has_list && not self.now.has_resource) }
    {
        !self.has_list && !self.has_resource
    }

    /// Whether the type is `Clone` in Rust: it reaches no resource.
    pub fn is_clone(&self) -> bool
        ensures { result ≡ not self.now.has_resource }
    {
        !self.has_resource
    }
}
