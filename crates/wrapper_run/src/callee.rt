//! What the path of a call names.

ghost use Rattle.std.specs.Prelude.{◌≡◌};
ghost use Rattle.wrapper_run.specs.Run as spec;
ghost use Rattle.wrapper_run.specs.Seen.{seen};

use rust_tree::Path;
use wit_model::Text;
use wrapper_values::{CoreFn, number_in_core};

/// What a path of a call names.
pub(crate) enum Callee<'a> {
    Alone(&'a Text),
    Runtime(&'a Text),
    /// A member of a type of the file, by the type's name and its own.
    MemberOf(&'a Text, &'a Text),
    /// A case of `Option` or `Result`, by its number.
    CoreCase(u32),
    /// A function of the core library on core values.
    Core(CoreFn),
    /// `::core::mem::forget`
    Forget,
    Unknown,
}

#[tactic(auto, unfolding(crate::specs::Run::is_core_forget))]
fn is_core_forget(first: &Text, second: &Text, third: &Text) -> bool
    ensures { result ≡ spec.is_core_forget first.now second.now third.now }
{
    first.as_str() == "core" && second.as_str() == "mem" && third.as_str() == "forget"
}

#[tactic(auto, unfolding(crate::specs::Run::is_new_slot))]
fn is_new_slot(first: &Text, second: &Text, third: &Text, fourth: &Text) -> bool
    ensures { result ≡ spec.is_new_slot first.now second.now third.now fourth.now }
{
    first.as_str() == "core"
        && second.as_str() == "mem"
        && third.as_str() == "MaybeUninit"
        && fourth.as_str() == "new"
}

#[tactic(auto, unfolding(crate::specs::Run::is_i64_from))]
fn is_i64_from(first: &Text, name: &Text) -> bool
    ensures { result ≡ spec.is_i64_from first.now name.now }
{
    first.as_str() == "i64" && name.as_str() == "from"
}

#[tactic(auto, unfolding(crate::specs::Run::is_f32_from_bits))]
fn is_f32_from_bits(first: &Text, name: &Text) -> bool
    ensures { result ≡ spec.is_f32_from_bits first.now name.now }
{
    first.as_str() == "f32" && name.as_str() == "from_bits"
}

#[tactic(auto, unfolding(crate::specs::Run::is_f64_from_bits))]
fn is_f64_from_bits(first: &Text, name: &Text) -> bool
    ensures { result ≡ spec.is_f64_from_bits first.now name.now }
{
    first.as_str() == "f64" && name.as_str() == "from_bits"
}

/// What stands behind the name of a type: a function of a number type, or a member of a type of the file.
fn member_callee<'a>(first: &'a Text, name: &'a Text) -> Callee<'a>
    ensures { spec.member_callee first.now name.now ≡ seen result }
{
    if is_i64_from(first, name) {
        Callee::Core(CoreFn::I64From)
    } else if is_f32_from_bits(first, name) {
        Callee::Core(CoreFn::F32FromBits)
    } else if is_f64_from_bits(first, name) {
        Callee::Core(CoreFn::F64FromBits)
    } else {
        Callee::MemberOf(first, name)
    }
}

fn case_callee<'a>(number: Option<u32>) -> Callee<'a>
    ensures { spec.case_callee number ≡ seen result }
{
    match number {
        None => Callee::Unknown,
        Some(number) => Callee::CoreCase(number),
    }
}

/// What names behind a leading `::` name.
fn absolute_callee(names: &[Text]) -> Callee<'_>
    ensures { spec.absolute_callee names.now ≡ seen result }
{
    match names {
        [first, second, third] if is_core_forget(first, second, third) => Callee::Forget,
        [first, second, third, fourth] => {
            if is_new_slot(first, second, third, fourth) {
                Callee::Core(CoreFn::NewSlot)
            } else {
                case_callee(number_in_core(names))
            }
        }
        _ => Callee::Unknown,
    }
}

#[tactic(auto, unfolding(crate::specs::Run::callee, crate::specs::Run::runtime_module_name))]
pub(crate) fn callee_of(path: &Path) -> Callee<'_>
    ensures { spec.callee path.now ≡ seen result }
{
    if path.supers != 0 {
        return Callee::Unknown;
    }
    if path.lead {
        return absolute_callee(path.names.as_slice());
    }
    match path.names.as_slice() {
        [name] => Callee::Alone(name),
        [first, name] if first.as_str() == "_rt" => Callee::Runtime(name),
        [first, name] => member_callee(first, name),
        _ => Callee::Unknown,
    }
}
