//! Which types are copied and cloned, by rows that are proved of the clauses of `TypeInfo`.

use type_facts::TypeInfo;

/// The facts of a type that reaches nothing but numbers.
const NUMBERS: TypeInfo = TypeInfo {
    borrowed: false,
    owned: false,
    error: false,
    has_list: false,
    has_resource: false,
    has_tuple: false,
    has_borrow_handle: false,
    has_own_handle: false,
};

/// A list is not copied, and a resource neither copied nor cloned.
pub fn copied_and_cloned() {
    prove!(NUMBERS.is_copy());
    let list = TypeInfo {
        has_list: true,
        ..NUMBERS
    };
    prove!(!list.is_copy());
    prove!(list.is_clone());
    let resource = TypeInfo {
        has_resource: true,
        ..NUMBERS
    };
    prove!(!resource.is_copy());
    prove!(!resource.is_clone());
}
