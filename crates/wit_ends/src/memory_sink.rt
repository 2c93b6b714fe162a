//! A sink in memory, for tests.

ghost use Rattle.std.specs.Prelude.{◌≡◌, ◌≤◌, [], ◌↔◌, length, Contains, IsErr, IfOk, OnErr};
ghost use Rattle.wit_ends.specs.Faults.{one_more};
ghost use Rattle.wit_ends.specs.SinkState.{count_taken, after_failed, after_taken};

use crate::sink::{Sink, SinkFailed};
use std::alloc::Global;
use std::marker::Model;
use wit_model::{List, OutOfMemory};

/// A sink that keeps its bytes in memory, as many as it has room for, and some of whose writes fail.
#[derive(Drop)]
pub struct MemorySink {
    bytes: Vec<u8>,
    room: usize,
    fails: List<u64>,
    most: usize,
    calls: u64,
    faults: u64,
}

impl Model for MemorySink {
    ghost use Rattle.std.specs.Prelude.{◌≤◌, vec_len, vec_capacity};
    ghost use Rattle.wit_ends.specs.SinkState.{SinkState};

    ghost Value = { SinkState };

    ghost view = { λ s. record {
      taken = s.bytes.items;
      room = s.room;
      fails = s.fails;
      most = s.most;
      calls = s.calls;
      faults = s.faults;
    } };

    ghost invariant = { λ s. (vec_len s.bytes ≤ s.room) × (s.room ≤ vec_capacity s.bytes) };
}

impl MemorySink {
    /// An empty sink with room for so many bytes, which takes at most `most` in a call. The calls whose numbers,
    /// counted from 1, are in `fails` fail. It begins without a fault, and takes all its memory here.
    pub fn new(
        alloc: Global,
        room: usize,
        fails: List<u64>,
        most: usize,
    ) -> Result<MemorySink, OutOfMemory>
        ensures { IfOk result (λ sink. sink ≡ record { taken = []; room = room; fails = fails; most = most; calls = 0; faults = 0 }) }
    {
        let bytes = Vec::with_capacity(alloc, room)?;
        Ok(MemorySink {
            bytes,
            room,
            fails,
            most,
            calls: 0,
            faults: 0,
        })
    }

    /// The bytes that it took.
    pub fn bytes(&self) -> &[u8]
        ensures { result.now ≡ self.now.taken }
    {
        self.bytes.as_slice()
    }

    /// How many faults there were.
    pub fn faults(&self) -> u64
        ensures { result ≡ self.now.faults }
    {
        self.faults
    }
}

impl Sink for MemorySink {
    ghost use Rattle.std.specs.Prelude.{Some};

    ghost taken = { λ s. Some s.taken };

    ghost faults = { λ s. s.faults };

    fn write(&mut self, piece: &[u8]) -> Result<usize, SinkFailed>
        ensures fails { IsErr result ↔ Contains self.old.fails (one_more self.old.calls) }
        ensures after_failed { OnErr result (self.new ≡ after_failed self.old) }

        ensures count { IfOk result (λ n. n ≡ count_taken self.old (length piece.now)) }
        ensures after_taken { IfOk result (λ n. self.new ≡ after_taken self.old piece.now n) }

        ensures never_falls { self.old.faults ≤ self.new.faults }
    {
        self.calls = self.calls.saturating_add(1);
        if self.fails.as_slice().contains(&self.calls) {
            self.faults = self.faults.saturating_add(1);
            return Err(SinkFailed);
        }
        let count = piece.len().min(self.most).min(self.room - self.bytes.len());
        self.bytes.extend_from_slice(&piece[..count]).unwrap();
        if count == 0 && !piece.is_empty() {
            self.faults = self.faults.saturating_add(1);
        }
        Ok(count)
    }
}
