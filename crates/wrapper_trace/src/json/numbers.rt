//! Whole numbers, which are written with no point and no exponent.

ghost use Rattle.std.specs.Prelude.{◌≡◌, ◌<◌, IfSome};
ghost use Rattle.serde_json.specs.View.{view};
ghost use Rattle.wrapper_trace.specs.Numbers.{bit, byte, integer, signed_32, signed_64, unsigned_32, unsigned_64};

use serde_json::Value;

/// A whole number below 2^64.
pub(crate) fn u64_of(value: &Value) -> Option<u64>
    ensures { result ≡ unsigned_64 (view value.now) }
{
    value.as_u64()
}

/// A whole number below 2^32.
#[tactic(auto, unfolding(crate::specs::Numbers::unsigned_32))]
pub(crate) fn u32_of(value: &Value) -> Option<u32>
    ensures { result ≡ unsigned_32 (view value.now) }
{
    match u64_of(value) {
        Some(n) if n <= u64::from(u32::MAX) => Some(n as u32),
        _ => None,
    }
}

/// A whole number below 2^8.
#[tactic(auto, unfolding(crate::specs::Numbers::byte))]
pub(crate) fn byte_of(value: &Value) -> Option<u8>
    ensures { result ≡ byte (view value.now) }
{
    match u64_of(value) {
        Some(n) if n <= u64::from(u8::MAX) => Some(n as u8),
        _ => None,
    }
}

/// The number of a bit of 128.
#[tactic(auto, unfolding(crate::specs::Numbers::bit))]
pub(crate) fn bit_of(value: &Value) -> Option<u32>
    ensures value { result ≡ bit (view value.now) }
    ensures within { IfSome result (λ n. n < 128) }
{
    match u64_of(value) {
        Some(n) if n < 128 => Some(n as u32),
        _ => None,
    }
}

/// A whole number of 64 bits with a sign.
pub(crate) fn i64_of(value: &Value) -> Option<i64>
    ensures { result ≡ signed_64 (view value.now) }
{
    value.as_i64()
}

/// A whole number of 32 bits with a sign.
#[tactic(auto, unfolding(crate::specs::Numbers::signed_32))]
pub(crate) fn i32_of(value: &Value) -> Option<i32>
    ensures { result ≡ signed_32 (view value.now) }
{
    match i64_of(value) {
        Some(n) if i64::from(i32::MIN) <= n && n <= i64::from(i32::MAX) => Some(n as i32),
        _ => None,
    }
}

/// A whole number of 64 bits, with a sign or without.
pub(crate) fn integer_of(value: &Value) -> Option<i128>
    ensures { result ≡ integer (view value.now) }
{
    value.as_number()?.as_i128()
}
