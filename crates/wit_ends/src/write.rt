//! Writes all bytes to a sink.

ghost use Rattle.std.specs.Prelude.{◌≡◌, ℕ, ◌<◌, ◌≤◌, length, take, OnOk, OnErr};
ghost use Rattle.std.specs.Io.KnownBytes.{append_known};
ghost use Rattle.wit_ends.specs.Faults.{Rose};

use crate::sink::{Sink, SinkFailed};

/// Writes all the bytes, in as many writes as the sink needs. `SinkFailed` comes only where the sink's count of
/// faults rose in this call; the sink has then taken a part of the bytes, from their front. It takes no memory.
pub fn write_all<K: Sink>(sink: &mut K, bytes: &[u8]) -> Result<(), SinkFailed>
    ensures ok { OnOk result (K.taken sink.new ≡ append_known (K.taken sink.old) bytes.now) }

    ensures failed { OnErr result (Rose (K.faults sink.old) (K.faults sink.new)) }
    ensures part { OnErr result ((n : ℕ) × (n < length bytes.now)
        × (K.taken sink.new ≡ append_known (K.taken sink.old) (take n bytes.now))) }
    ensures never_falls { K.faults sink.old ≤ K.faults sink.new }
{
    let mut done = 0;
    while done < bytes.len() {
        let count = sink.write(&bytes[done..])?;
        if count == 0 {
            return Err(SinkFailed);
        }
        done += count;
    }
    Ok(())
}
