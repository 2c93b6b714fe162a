//! Reads an input to its end.

ghost use Rattle.std.specs.Prelude.{◌≡◌, ℕ, ◌+◌, ◌-◌, ◌<◌, ◌≤◌, ◌++◌, length, take, vec_len, IfOk, OnOk, OnErr, IfSome, IsErr, IsErrOf};
ghost use Rattle.std.specs.Io.KnownBytes.{prepend_known, IsAtEnd};
ghost use Rattle.wit_ends.specs.Faults.{Rose};
ghost use Rattle.wit_ends.specs.Input.{Loses, LosesAtMost, Moves};

use crate::source::{Source, SourceFailed};
use std::alloc::{AllocError, Global};
use thiserror::Error;
use wit_model::List;

/// The most bytes that an input may have.
pub const INPUT_LIMIT: usize = 67_108_864;

/// The most bytes that are asked of a source at once.
const PIECE: usize = 65_536;

/// Why an input could not be read to its end.
#[derive(Debug, Drop, PartialEq, Error)]
pub enum InputFault {
    /// A read of the source failed.
    #[error("the input could not be read")]
    ReadFault,
    /// More than `INPUT_LIMIT` bytes came.
    #[error("the input is too long")]
    InputTooLong,
    /// There was no memory for the bytes.
    #[error("out of memory")]
    OutOfMemory,
}

impl From<AllocError> for InputFault {
    ghost use Rattle.std.specs.Prelude.{◌≡◌};
    ghost use Rattle.wit_ends.specs.declared.read.InputFault.TheVariants.{OutOfMemory};

    ghost from_gives = { λ _ fault. fault ≡ OutOfMemory };

    fn from(_error: AllocError) -> InputFault {
        InputFault::OutOfMemory
    }
}

impl From<SourceFailed> for InputFault {
    ghost use Rattle.std.specs.Prelude.{◌≡◌};
    ghost use Rattle.wit_ends.specs.declared.read.InputFault.TheVariants.{ReadFault};

    ghost from_gives = { λ _ fault. fault ≡ ReadFault };

    fn from(_error: SourceFailed) -> InputFault {
        InputFault::ReadFault
    }
}

/// Reads all bytes to the end of the source. Each turn but the last takes at least one byte, and none takes a byte
/// behind the one that shows that there are too many. What it took is lost after a fault.
///
/// `ReadFault` comes only where the source's count of faults rose in this call, and `InputTooLong` only where more than
/// `INPUT_LIMIT` bytes came. A longer input is never `Ok`: it ends with `InputTooLong`, or with another fault before
/// that shows. `OutOfMemory` may come at any point.
pub fn read_input<S: Source>(alloc: Global, source: &mut S) -> Result<List<u8>, InputFault>
    ensures bytes { IfOk result (λ bytes. S.left source.old ≡ prepend_known bytes (S.left source.new)) }
    ensures end { OnOk result (IsAtEnd (S.left source.new)) }
    ensures within { IfOk result (λ bytes. length bytes ≤ INPUT_LIMIT) }

    ensures read_fault { IsErrOf result InputFault.ReadFault → Rose (S.faults source.old) (S.faults source.new) }
    ensures too_long { IsErrOf result InputFault.InputTooLong
        → IfSome (S.left source.old) (λ told. INPUT_LIMIT < length told) }
    ensures too_long_took { IsErrOf result InputFault.InputTooLong
        → Loses (S.left source.old) (S.left source.new) (INPUT_LIMIT + 1) }
    ensures longer { IfSome (S.left source.old) (λ told. INPUT_LIMIT < length told → IsErr result) }

    ensures took { LosesAtMost (S.left source.old) (S.left source.new) (INPUT_LIMIT + 1) }
    ensures never_falls { S.faults source.old ≤ S.faults source.new }
{
    let mut piece = zeros(alloc, PIECE)?;
    let mut bytes = Vec::new(alloc);
    for _turn in 0..INPUT_LIMIT + 1 {
        if read_piece(source, &mut piece, &mut bytes)? == 0 {
            return Ok(List::from_vec(bytes));
        }
        if bytes.len() > INPUT_LIMIT {
            return Err(InputFault::InputTooLong);
        }
    }
    unreachable!()
}

/// Reads the next bytes into a piece and puts them behind the bytes so far, at most one more than the limit in all.
/// It answers how many came; 0 is the end.
fn read_piece<S: Source>(
    source: &mut S,
    piece: &mut [u8],
    bytes: &mut Vec<u8>,
) -> Result<usize, InputFault>
    requires piece_has_room { 0 < length piece.old }
    requires within { vec_len bytes.old ≤ INPUT_LIMIT }
    ensures moves { IfOk result (λ n. Moves (S.left source.old) (S.left source.new) bytes.old.items bytes.new.items n) }
    ensures grows { IfOk result (λ n. vec_len bytes.new ≡ vec_len bytes.old + n) }
    ensures at_most { IfOk result (λ n. vec_len bytes.new ≤ INPUT_LIMIT + 1) }
    ensures end { IfOk result (λ n. n ≡ 0 → IsAtEnd (S.left source.new)) }

    ensures read_fault { IsErrOf result InputFault.ReadFault → Rose (S.faults source.old) (S.faults source.new) }
    ensures not_too_long { IsErrOf result InputFault.InputTooLong → ⊥ }
    ensures took { OnErr result (LosesAtMost (S.left source.old) (S.left source.new) (INPUT_LIMIT + 1 - vec_len bytes.old)) }
    ensures never_falls { S.faults source.old ≤ S.faults source.new }
{
    let wanted = piece.len().min(INPUT_LIMIT + 1 - bytes.len());
    let front = &mut piece[..wanted];
    let count = source.read(front)?;
    bytes.extend_from_slice(&front[..count])?;
    Ok(count)
}

/// So many zeros.
fn zeros(alloc: Global, count: usize) -> Result<Vec<u8>, AllocError>
    ensures { IfOk result (λ piece. vec_len piece ≡ count) }
{
    vec![in alloc; 0; count]
}
