//! Cases: the number that a case has by its path, and the values that are cases.

ghost use Rattle.std.specs.Prelude.{◌≡◌, IfOk, option_and_then, position};
ghost use Rattle.std.specs.Option.{option_copied, option_map};
ghost use Rattle.std.specs.Str.{bytes_eq};
ghost use Rattle.wrapper_values.specs.Act.{Runs, or_stop};
ghost use Rattle.wrapper_values.specs.Setting.{setting, stuck};
ghost use Rattle.wrapper_values.specs.Variants as spec;

use crate::fields::type_named;
use crate::parts::rust_of;
use crate::state::{Halt, State, Val, World};
use rust_tree::{EnumCase, EnumItem, Item, Path, TypeItem, VariantCase, VariantItem};
use std::alloc::Global;
use wit_model::{Boxed, Text};
use wrapper_data::RustValue;

/// The place of the enum's case of a name.
fn enum_place(cases: &[EnumCase], name: &str) -> Option<usize>
    ensures { result ≡ position (λ c. bytes_eq c.name name.now) cases.now }
{
    cases.iter().position(|c| c.name.as_str() == name)
}

/// The place of the variant's case of a name.
fn variant_place(cases: &[VariantCase], name: &str) -> Option<usize>
    ensures { result ≡ position (λ c. bytes_eq c.name name.now) cases.now }
{
    cases.iter().position(|c| c.name.as_str() == name)
}

/// A place as the number of a case, which has 32 bits.
fn in_32_bits(place: Option<usize>) -> Option<u32>
    ensures { result ≡ option_and_then spec.in_32_bits place }
{
    match place {
        None => None,
        Some(place) => u32::try_from(place).ok(),
    }
}

/// The number of the enum's case of a name.
#[tactic(auto, unfolding(crate::specs::Variants::number_in_enum))]
fn number_in_enum(name: &Text, e: &EnumItem) -> Option<u32>
    ensures { result ≡ spec.number_in_enum name.now e.now }
{
    in_32_bits(enum_place(e.cases.as_slice(), name.as_str()))
}

/// The number of the variant's case of a name.
#[tactic(auto, unfolding(crate::specs::Variants::number_in_variant))]
fn number_in_variant(name: &Text, v: &VariantItem) -> Option<u32>
    ensures { result ≡ spec.number_in_variant name.now v.now }
{
    in_32_bits(variant_place(v.cases.as_slice(), name.as_str()))
}

/// The number of the case of a name, in an enum or a variant.
fn number_in(name: &Text, t: Option<&TypeItem>) -> Option<u32>
    ensures { result ≡ spec.number_in name.now (option_copied t.entry) }
{
    match t {
        Some(TypeItem::Enum(e)) => number_in_enum(name, e),
        Some(TypeItem::Variant(v)) => number_in_variant(name, v),
        _ => None,
    }
}

#[tactic(auto, unfolding(crate::specs::Variants::number_in_option))]
fn number_in_option(name: &Text) -> Option<u32>
    ensures { result ≡ spec.number_in_option name.now }
{
    if name.as_str() == "None" {
        Some(0)
    } else if name.as_str() == "Some" {
        Some(1)
    } else {
        None
    }
}

#[tactic(auto, unfolding(crate::specs::Variants::number_in_result))]
fn number_in_result(name: &Text) -> Option<u32>
    ensures { result ≡ spec.number_in_result name.now }
{
    if name.as_str() == "Ok" {
        Some(0)
    } else if name.as_str() == "Err" {
        Some(1)
    } else {
        None
    }
}

#[tactic(auto, unfolding(crate::specs::Variants::is_core_option))]
fn is_core_option(first: &Text, second: &Text, third: &Text) -> bool
    ensures { result ≡ spec.is_core_option first.now second.now third.now }
{
    first.as_str() == "core" && second.as_str() == "option" && third.as_str() == "Option"
}

#[tactic(auto, unfolding(crate::specs::Variants::is_core_result))]
fn is_core_result(first: &Text, second: &Text, third: &Text) -> bool
    ensures { result ≡ spec.is_core_result first.now second.now third.now }
{
    first.as_str() == "core" && second.as_str() == "result" && third.as_str() == "Result"
}

/// The number of the case of a name, in a type of the file's root by its name.
pub fn number_at_root(items: &[Item], ty: &Text, name: &Text) -> Option<u32>
    ensures { result ≡ spec.number_at_root items.now ty.now name.now }
{
    number_in(name, type_named(items, ty.as_str()))
}

/// The number of the case that names behind a leading `::` name: one of `Option` or `Result`.
pub fn number_in_core(names: &[Text]) -> Option<u32>
    ensures { result ≡ spec.number_in_core names.now }
{
    match names {
        [first, second, third, name] if is_core_option(first, second, third) => {
            number_in_option(name)
        }
        [first, second, third, name] if is_core_result(first, second, third) => {
            number_in_result(name)
        }
        _ => None,
    }
}

/// The number of the case that a path names.
pub(crate) fn case_number(items: &[Item], path: &Path) -> Option<u32>
    ensures { result ≡ spec.case_number items.now path.now }
{
    if path.supers != 0 {
        return None;
    }
    if path.lead {
        return number_in_core(path.names.as_slice());
    }
    match path.names.as_slice() {
        [ty, name] => number_at_root(items, ty, name),
        _ => None,
    }
}

/// The case that a path names, without a payload. Stuck where it names none.
#[tactic(auto, unfolding(crate::specs::Variants::bare_case))]
pub fn bare_case(world: &World, state: &State, path: &Path) -> Result<Val, Halt>
    ensures { Runs (or_stop (stuck (setting world.now)) (spec.bare_case world.now.items.now path.now) state.now) result state.now }
{
    match case_number(world.items, path) {
        None => Err(Halt::Stopped(world.stuck())),
        Some(number) => Ok(Val::Value(RustValue::Case(number, None))),
    }
}

/// The case of a number, with a payload. Stuck where there is no number, or the payload is no value of the Rust side; and out of
/// memory where there is none for a copy.
#[tactic(auto, unfolding(crate::specs::Variants::full_case))]
pub fn full_case(
    alloc: Global,
    world: &World,
    state: &State,
    number: Option<u32>,
    v: &Val,
) -> Result<Val, Halt>
    ensures { Runs (or_stop (stuck (setting world.now)) (spec.full_case number v.now) state.now) result state.now }
{
    let number = match number {
        None => return Err(Halt::Stopped(world.stuck())),
        Some(number) => number,
    };
    match rust_of(alloc, v)? {
        None => Err(Halt::Stopped(world.stuck())),
        Some(r) => Ok(Val::Value(RustValue::Case(number, Some(Boxed::new(alloc, r)?)))),
    }
}
