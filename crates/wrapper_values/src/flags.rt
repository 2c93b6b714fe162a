//! Flags: the bits of a value, one word of them, and the flags that words are.

ghost use Rattle.std.specs.Prelude.{◌≡◌, ◌%◌, ◌^◌};
ghost use Rattle.std.specs.Option.{option_copied, option_map};
ghost use Rattle.wrapper_values.specs.Act.{Runs, or_stop};
ghost use Rattle.wrapper_values.specs.Effect as effect;
ghost use Rattle.wrapper_values.specs.Flags as spec;
ghost use Rattle.wrapper_values.specs.Setting.{setting, stuck};
ghost use Rattle.wrapper_values.specs.Typed as typed;

use crate::fields::{root_name, type_named};
use crate::state::{Halt, State, Val, World};
use crate::views::integer_of;
use rust_tree::{FlagsItem, Item, Path, Repr, TypeItem};
use wrapper_data::{RustValue, Word, low_word};

fn bits_of_flags(v: &Val) -> Option<u128>
    ensures { result ≡ spec.bits_of_flags v.now }
{
    match v {
        Val::Value(RustValue::Bits(bits)) => Some(*bits),
        _ => None,
    }
}

#[tactic(auto, using(crate::proofs::FlagsLemmas::shifted_right))]
fn word_at(by: u32, bits: u128) -> Word
    ensures { result ≡ spec.word_at by bits }
{
    let word = bits.unbounded_shr(by) % (1 << 32);
    Word::I32((word as u32).cast_signed())
}

/// The lowest 32 bits of a value that is flags, once they are shifted right.
pub(crate) fn word_of_flags(by: u32, v: &Val) -> Option<Word>
    ensures { result ≡ option_map (spec.word_at by) (spec.bits_of_flags v.now) }
{
    match bits_of_flags(v) {
        None => None,
        Some(bits) => Some(word_at(by, bits)),
    }
}

/// The bits that flags have.
fn within(repr: Repr, bits: u128) -> u128
    ensures { result ≡ bits % 2 ^ spec.repr_bits repr }
{
    match repr {
        Repr::U8 => bits % (1 << 8),
        Repr::U16 => bits % (1 << 16),
        Repr::U32 => bits % (1 << 32),
        Repr::U64 => bits % (1 << 64),
        Repr::U128 => bits,
    }
}

/// The flags type that a type is.
fn flags_in(t: Option<&TypeItem>) -> Option<&FlagsItem>
    ensures { option_copied result ≡ spec.flags_in (option_copied t.entry) }
{
    match t {
        Some(TypeItem::Flags(f)) => Some(f),
        _ => None,
    }
}

/// Flags of these bits, as a value of a type.
pub(crate) fn typed_flags(bits: u128, t: Option<&TypeItem>) -> Option<RustValue>
    ensures { result ≡ typed.typed_flags bits (spec.flags_in (option_copied t.entry)) }
{
    match flags_in(t) {
        Some(f) if within(f.repr, bits) == bits => Some(RustValue::Bits(bits)),
        _ => None,
    }
}

fn is_flags_path(items: &[Item], path: &Path, repr: Repr) -> bool
    ensures { result ≡ spec.is_flags_path items.now path.now repr }
{
    match root_name(path) {
        None => true,
        Some(name) => match flags_in(type_named(items, name.as_str())) {
            None => false,
            Some(f) => f.repr == repr,
        },
    }
}

#[tactic(auto, using(crate::proofs::FlagsLemmas::shifted_left))]
fn shifted(repr: Repr, by: u32, z: i128) -> u128
    ensures { result ≡ spec.shifted repr by z }
{
    within(repr, low_word(z).unbounded_shl(by))
}

/// The bits that are joined of words, each shifted by its own number of bits. Nothing where one is no number.
fn joined_words(repr: Repr, words: &[(u32, Val)]) -> Option<u128>
    ensures { result ≡ option_map (spec.joined repr) (spec.shifted_numbers words.now) }
{
    match words.split_first() {
        None => Some(0),
        Some((word, words)) => {
            Some(shifted(repr, word.0, integer_of(&word.1)?) | joined_words(repr, words)?)
        }
    }
}

/// The flags of a type by its path, of words that are each shifted by a number of bits. Stuck where the path is a name of the
/// file's root but not of a flags type that is held thus, or where a word is no number.
pub fn flags_from(
    world: &World,
    state: &State,
    path: &Path,
    repr: Repr,
    words: &[(u32, Val)],
) -> Result<Val, Halt>
    ensures { Runs (or_stop (stuck (setting world.now)) (spec.flags_from world.now.items.now path.now repr words.now) state.now) result state.now }
{
    if !is_flags_path(world.items, path, repr) {
        return Err(Halt::Stopped(world.stuck()));
    }
    match joined_words(repr, words) {
        None => Err(Halt::Stopped(world.stuck())),
        Some(bits) => Ok(Val::Value(RustValue::Bits(bits))),
    }
}
