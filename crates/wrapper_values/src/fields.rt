//! The fields of a record: those of the struct of the file that its path names, in its order.

ghost use Rattle.std.specs.Prelude.{◌≡◌, ◌++◌, IfOk, map, Some, None, if◌then◌else◌};
ghost use Rattle.std.specs.Option.{option_copied, option_map};
ghost use Rattle.wrapper_values.specs.Fields as spec;

use crate::state::Val;
use rust_tree::{Item, Path, StructField, TypeItem};
use std::alloc::Global;
use wit_model::{List, OutOfMemory, Text};

fn type_name(t: &TypeItem) -> &Text
    ensures { result.now ≡ spec.type_name t.now }
{
    match t {
        TypeItem::Struct(s) => &s.name,
        TypeItem::Alias(a) => &a.name,
        TypeItem::Enum(e) => &e.name,
        TypeItem::Flags(f) => &f.name,
        TypeItem::Variant(v) => &v.name,
    }
}

fn defined_in<'a>(item: &'a Item, name: &str) -> Option<&'a TypeItem>
    ensures { option_copied result ≡ spec.defined_in item.now name.now }
{
    match item {
        Item::Type(t) if type_name(t).as_str() == name => Some(t),
        _ => None,
    }
}

/// The type of a name, at the root of the file.
pub(crate) fn type_named<'a>(items: &'a [Item], name: &str) -> Option<&'a TypeItem>
    ensures { option_copied result ≡ spec.type_named items.now name.now }
{
    for item in items {
        if let Some(found) = defined_in(item, name) {
            return Some(found);
        }
    }
    None
}

/// The name that a path is, if it is one of the file's root.
pub(crate) fn root_name(path: &Path) -> Option<&Text>
    ensures { option_copied result ≡ spec.root_name path.now }
{
    if path.lead || path.supers != 0 {
        return None;
    }
    match path.names.as_slice() {
        [name] => Some(name),
        _ => None,
    }
}

/// The fields of the struct of a name, at the root of the file.
fn fields_of<'a>(items: &'a [Item], name: &Text) -> Option<&'a [StructField]>
    ensures { option_map (λ fields. fields.now) result ≡ spec.fields_in (spec.type_named items.now name.now) }
{
    match type_named(items, name.as_str()) {
        Some(TypeItem::Struct(s)) => Some(s.fields.as_slice()),
        _ => None,
    }
}

/// What stands for a field and can be copied.
pub(crate) trait Part: Drop {
    /// An equal one.
    fn copied(&self, alloc: Global) -> Result<Self, OutOfMemory>
        ensures { IfOk result (λ copied. copied ≡ self.now) };
}

impl Part for Text {
    fn copied(&self, alloc: Global) -> Result<Text, OutOfMemory> {
        self.copy(alloc)
    }
}

impl Part for Val {
    fn copied(&self, alloc: Global) -> Result<Val, OutOfMemory> {
        self.copy(alloc)
    }
}

fn field_named<'a, A>(fields: &'a [(Text, A)], name: &Text) -> Option<&'a A>
    ensures { option_copied result ≡ spec.field_named name.now fields.now }
{
    match fields.iter().find(|f| f.0.as_str() == name.as_str()) {
        None => None,
        Some(f) => Some(&f.1),
    }
}

/// Puts what stands for each of a struct's fields behind others, and tells whether each is there.
fn push_each<A: Part>(
    alloc: Global,
    given: &mut List<A>,
    of: &[StructField],
    fields: &[(Text, A)],
) -> Result<bool, OutOfMemory>
    ensures { IfOk result
        (λ all. (if all then Some given.new else None) ≡ option_map (λ more. given.old ++ more) (spec.each_named of.now fields.now)) }
{
    match of.split_first() {
        None => Ok(true),
        Some((f, of)) => match field_named(fields, &f.name) {
            None => Ok(false),
            Some(part) => {
                given.push(part.copied(alloc)?)?;
                push_each(alloc, given, of, fields)
            }
        },
    }
}

/// What stands for a struct's fields, in its order, if it stands for these and no others.
fn in_order<A: Part>(
    alloc: Global,
    of: &[StructField],
    fields: &[(Text, A)],
) -> Result<Option<List<A>>, OutOfMemory>
    ensures { IfOk result (λ given. given ≡ spec.in_order of.now fields.now) }
{
    if of.len() != fields.len() {
        return Ok(None);
    }
    let mut given = List::new(alloc);
    if push_each(alloc, &mut given, of, fields)? {
        Ok(Some(given))
    } else {
        Ok(None)
    }
}

fn in_the_tree<A: Part>(alloc: Global, fields: &[(Text, A)]) -> Result<List<A>, OutOfMemory>
    ensures { IfOk result (λ given. given ≡ map (λ f. f.1) fields.now) }
{
    let mut given = List::new(alloc);
    for field in fields {
        given.push(field.1.copied(alloc)?)?;
    }
    Ok(given)
}

/// What stands for the fields of a record, in the order of its struct; in that of the tree, where its path leads outside
/// of the file.
pub(crate) fn arranged<A: Part>(
    alloc: Global,
    items: &[Item],
    path: &Path,
    fields: &[(Text, A)],
) -> Result<Option<List<A>>, OutOfMemory>
    ensures { IfOk result (λ given. given ≡ spec.arranged items.now path.now fields.now) }
{
    match root_name(path) {
        None => Ok(Some(in_the_tree(alloc, fields)?)),
        Some(name) => match fields_of(items, name) {
            None => Ok(None),
            Some(of) => in_order(alloc, of, fields),
        },
    }
}
