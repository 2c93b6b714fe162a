//! Whether the numbers of a JSON value are in range, also those that a later equal key hides.

ghost use Rattle.std.specs.Prelude.{◌≡◌};
ghost use Rattle.json.specs.Value.{value_view, items_view, members_view};
ghost use Rattle.wit_document.specs.View.{is_in_range, items_are_in_range, members_are_in_range};

use crate::number::number_of;
use json::Value;

/// Whether each number in a value is one that a float can hold.
#[cycle(range)]
pub(crate) fn is_in_range(value: &Value<'_>) -> bool
    ensures { result ≡ is_in_range (value_view value.now) }
{
    match value {
        Value::Number(text) => number_of(text).is_some(),
        Value::Array(items) => items_are_in_range(items),
        Value::Object(members) => members_are_in_range(members),
        _ => true,
    }
}

#[cycle(range)]
fn items_are_in_range(items: &Vec<Value<'_>>) -> bool
    ensures { result ≡ items_are_in_range (items_view items.now.items) }
{
    for item in items {
        if !is_in_range(item) {
            return false;
        }
    }
    true
}

#[cycle(range)]
fn members_are_in_range(members: &Vec<(&str, Value<'_>)>) -> bool
    ensures { result ≡ members_are_in_range (members_view members.now.items) }
{
    for member in members {
        if !is_in_range(&member.1) {
            return false;
        }
    }
    true
}
