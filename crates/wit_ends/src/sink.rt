//! What a sink of bytes is.

ghost use Rattle.std.specs.Prelude.{◌≡◌, ℕ, ◌<◌, ◌≤◌, List, Option, length, take, IfOk, OnErr};
ghost use Rattle.std.specs.Io.KnownBytes.{append_known};
ghost use Rattle.wit_ends.specs.Faults.{Rose};

/// A write failed.
#[derive(Clone, Copy, Debug, PartialEq, Eq)]
pub struct SinkFailed;

/// Where bytes go.
pub trait Sink {
    // The bytes that were taken, where the sink tells them.
    ghost taken: { Self → Option (List ℕ) };

    // How many faults there were, counted up to 2^64 - 1.
    ghost faults: { Self → ℕ };

    /// Takes bytes from the front of the piece, and answers how many. 0 at a piece that is not empty counts as a
    /// fault. `SinkFailed` comes only where the count of faults rose in this call, and then no byte was taken.
    fn write(&mut self, piece: &[u8]) -> Result<usize, SinkFailed>
        ensures within { IfOk result (λ n. n ≤ length piece.now) }
        ensures bytes { IfOk result (λ n. taken self.new ≡ append_known (taken self.old) (take n piece.now)) }
        ensures full { IfOk result (λ n. n ≡ 0 → 0 < length piece.now → Rose (faults self.old) (faults self.new)) }

        ensures failed { OnErr result (Rose (faults self.old) (faults self.new)) }
        ensures unchanged { OnErr result (taken self.new ≡ taken self.old) }
        ensures never_falls { faults self.old ≤ faults self.new };
}
