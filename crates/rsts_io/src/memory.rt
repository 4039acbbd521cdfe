//! Sources and sinks in memory that fail at given calls.

ghost use Rattle.std.specs.Prelude.{◌≡◌, ℕ, ◌-◌, ◌<◌, ◌≤◌, ◌⊎◌, ◌↔◌, true, [], min, length, Some};
ghost use Rattle.std.specs.Prelude.{IfOk};
ghost use Rattle.rsts_io.specs.Ends.{raised, IsTaken, Accepts};
ghost use Rattle.rsts_io.specs.Memory.{sink_room, is_listed, feed_state, store_state};

use crate::copies::{SINK_ROOM, copy_next, is_listed, keep_front};
use crate::sink::{Gave, Sink};
use crate::source::{Source, Took};
use basic_values::NoMemory;
use std::alloc::Global;
use std::marker::Model;

/// A source of given bytes. It counts its calls, from 1, and fails those that it was made to fail.
#[derive(Drop)]
pub struct MemorySource {
    bytes: Vec<u8>,
    at: usize,
    failing: Vec<u64>,
    calls: u64,
    faults: u64,
}

impl Model for MemorySource {
    ghost use Rattle.std.specs.Prelude.{◌≤◌, drop, vec_len};
    ghost use Rattle.rsts_io.specs.Memory.{Feed};

    ghost Value = { Feed };

    ghost view = { λ s. record {
      left = drop s.at s.bytes.items;
      taken = s.at;
      failing = s.failing.items;
      calls = s.calls;
      faults = s.faults;
    } };

    ghost invariant = { λ s. s.at ≤ vec_len s.bytes };
}

impl MemorySource {
    /// Returns a source of these bytes that fails the calls of these numbers.
    pub fn new(alloc: Global, bytes: &[u8], failing: &[u64]) -> Result<MemorySource, NoMemory>
        ensures left { IfOk result (λ source. source.left ≡ bytes.now) }
        ensures taken { IfOk result (λ source. source.taken ≡ 0) }
        ensures failing { IfOk result (λ source. source.failing ≡ failing.now) }
        ensures calls { IfOk result (λ source. source.calls ≡ 0) }
        ensures faults { IfOk result (λ source. source.faults ≡ 0) }
    {
        let bytes = Vec::from_slice(alloc, bytes)?;
        let failing = Vec::from_slice(alloc, failing)?;
        Ok(MemorySource {
            bytes,
            at: 0,
            failing,
            calls: 0,
            faults: 0,
        })
    }
}

impl Source for MemorySource {
    ghost state = { λ s. feed_state s };

    fn take(&mut self, buffer: &mut [u8]) -> Took
        requires { 0 < length buffer.old }
        ensures told { IsTaken result buffer.new (feed_state self.old) (feed_state self.new) }
        ensures fails { (result ≡ Took.Failed)
            ↔ (is_listed self.new.calls self.old.failing ≡ true) }
        ensures fits { (n : ℕ) → result ≡ Took.Bytes n
            → n ≡ min (length self.old.left) (length buffer.old) }
        ensures calls { self.new.calls ≡ raised self.old.calls }
        ensures failing { self.new.failing ≡ self.old.failing }
    {
        self.calls = self.calls.saturating_add(1);
        if is_listed(self.calls, self.failing.as_slice()) {
            self.faults = self.faults.saturating_add(1);
            return Took::Failed;
        }
        let count = copy_next(&self.bytes, self.at, buffer);
        if count == 0 {
            return Took::End;
        }
        self.at += count;
        Took::Bytes(count)
    }
}

/// A sink that keeps what it is given. It counts its calls, from 1. It fails those that it was made
/// to fail, and if its 16 MiB are full.
#[derive(Drop)]
pub struct MemorySink {
    kept: Vec<u8>,
    failing: Vec<u64>,
    calls: u64,
    faults: u64,
}

impl Model for MemorySink {
    ghost use Rattle.std.specs.Prelude.{◌≤◌, vec_len, vec_capacity};
    ghost use Rattle.rsts_io.specs.Memory.{sink_room, Store};

    ghost Value = { Store };

    ghost view = { λ s. record {
      given = s.kept.items;
      failing = s.failing.items;
      calls = s.calls;
      faults = s.faults;
    } };

    ghost invariant = { λ s. (vec_len s.kept ≤ sink_room) × (sink_room ≤ vec_capacity s.kept) };
}

impl MemorySink {
    /// Returns an empty sink, with its memory taken, that fails the calls of these numbers.
    pub fn new(alloc: Global, failing: &[u64]) -> Result<MemorySink, NoMemory>
        ensures given { IfOk result (λ sink. sink.given ≡ []) }
        ensures failing { IfOk result (λ sink. sink.failing ≡ failing.now) }
        ensures calls { IfOk result (λ sink. sink.calls ≡ 0) }
        ensures faults { IfOk result (λ sink. sink.faults ≡ 0) }
    {
        let failing = Vec::from_slice(alloc, failing)?;
        Ok(MemorySink {
            kept: Vec::with_capacity(alloc, SINK_ROOM)?,
            failing,
            calls: 0,
            faults: 0,
        })
    }

    /// Returns what it was given.
    pub fn bytes(&self) -> &[u8]
        ensures bytes { result.now ≡ self.now.given }
        ensures room { length self.now.given ≤ sink_room }
    {
        self.kept.as_slice()
    }
}

impl Sink for MemorySink {
    ghost state = { λ s. store_state s };

    fn give(&mut self, piece: &[u8]) -> Gave
        requires { 0 < length piece.now }
        ensures told { Accepts result piece.now (store_state self.old) (store_state self.new) }
        ensures fails { (result ≡ Gave.Failed)
            ↔ ((is_listed self.new.calls self.old.failing ≡ true)
            ⊎ (length self.old.given ≡ sink_room)) }
        ensures fits { (n : ℕ) → result ≡ Gave.Bytes n
            → n ≡ min (length piece.now) (sink_room - length self.old.given) }
        ensures calls { self.new.calls ≡ raised self.old.calls }
        ensures failing { self.new.failing ≡ self.old.failing }
    {
        self.calls = self.calls.saturating_add(1);
        let fails = is_listed(self.calls, self.failing.as_slice());
        if fails || self.kept.len() == SINK_ROOM {
            self.faults = self.faults.saturating_add(1);
            return Gave::Failed;
        }
        Gave::Bytes(keep_front(&mut self.kept, piece))
    }
}
