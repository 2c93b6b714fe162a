//! A source in memory, for tests.

ghost use Rattle.std.specs.Prelude.{◌≡◌, ◌<◌, ◌≤◌, [], ◌++◌, ◌↔◌, length, take, drop, Contains, IsErr, IfOk, OnErr};
ghost use Rattle.wit_ends.specs.Faults.{one_more};
ghost use Rattle.wit_ends.specs.SourceState.{count_given, after_failed, after_given};

use crate::source::{Source, SourceFailed};
use std::marker::Model;
use wit_model::List;

/// A source whose bytes lie in memory, and some of whose reads fail.
#[derive(Drop)]
pub struct MemorySource {
    bytes: List<u8>,
    at: usize,
    fails: List<u64>,
    most: usize,
    calls: u64,
    faults: u64,
}

impl Model for MemorySource {
    ghost use Rattle.std.specs.Prelude.{◌≤◌, length, drop};
    ghost use Rattle.wit_ends.specs.SourceState.{SourceState};

    ghost Value = { SourceState };

    ghost view = { λ s. record {
      left = drop s.at s.bytes;
      fails = s.fails;
      most = s.most;
      calls = s.calls;
      faults = s.faults;
    } };

    ghost invariant = { λ s. (s.at ≤ length s.bytes) × (1 ≤ s.most) };
}

impl MemorySource {
    /// A source that gives these bytes, at most `most` in a call. The calls whose numbers, counted from 1, are in
    /// `fails` fail. It begins without a fault, and takes no memory.
    pub fn new(bytes: List<u8>, fails: List<u64>, most: usize) -> MemorySource
        requires { 1 ≤ most }
        ensures { result ≡ record { left = bytes; fails = fails; most = most; calls = 0; faults = 0 } }
    {
        MemorySource {
            bytes,
            at: 0,
            fails,
            most,
            calls: 0,
            faults: 0,
        }
    }

    /// The bytes that are left.
    pub fn left(&self) -> &[u8]
        ensures { result.now ≡ self.now.left }
    {
        &self.bytes.as_slice()[self.at..]
    }

    /// How many faults there were.
    pub fn faults(&self) -> u64
        ensures { result ≡ self.now.faults }
    {
        self.faults
    }
}

impl Source for MemorySource {
    ghost use Rattle.std.specs.Prelude.{Some};

    ghost left = { λ s. Some s.left };

    ghost faults = { λ s. s.faults };

    fn read(&mut self, buf: &mut [u8]) -> Result<usize, SourceFailed>
        ensures fails { IsErr result ↔ Contains self.old.fails (one_more self.old.calls) }
        ensures after_failed { OnErr result (self.new ≡ after_failed self.old) }
        ensures buffer_stays { OnErr result (buf.new ≡ buf.old) }

        ensures count { IfOk result (λ n. n ≡ count_given self.old (length buf.old)) }
        ensures given { IfOk result (λ n. buf.new ≡ take n self.old.left ++ drop n buf.old) }
        ensures after_given { IfOk result (λ n. self.new ≡ after_given self.old n) }
        ensures end { IfOk result (λ n. n ≡ 0 → 0 < length buf.old → self.new.left ≡ []) }

        ensures never_falls { self.old.faults ≤ self.new.faults }
    {
        self.calls = self.calls.saturating_add(1);
        if self.fails.as_slice().contains(&self.calls) {
            self.faults = self.faults.saturating_add(1);
            return Err(SourceFailed);
        }
        let left = &self.bytes.as_slice()[self.at..];
        let count = buf.len().min(self.most).min(left.len());
        buf[..count].copy_from_slice(&left[..count]);
        self.at += count;
        Ok(count)
    }
}
