//! Words of core signatures.

ghost use Rattle.std.specs.Prelude.{◌≡◌, ◌^◌, pos, unsigned_abs};
ghost use Rattle.std.specs.Int.{int_rem_euclid};

/// A word of a core signature. Floats are their bits.
#[derive(Clone, Copy, Debug, PartialEq, Eq)]
pub enum Word {
    I32(i32),
    I64(i64),
    F32(u32),
    F64(u64),
    /// An address.
    Pointer(u32),
    /// A number of elements.
    Length(u32),
    /// A word that holds a pointer or 64 bits; nothing where it is not written yet.
    Slot(Option<u64>),
}

/// The low 32 bits of a whole number, widened without their sign, as the words of flags are.
pub fn low_word(z: i128) -> u128
    ensures { result ≡ unsigned_abs (int_rem_euclid z (pos (2 ^ 32))) }
{
    z.rem_euclid(1 << 32) as u128
}
