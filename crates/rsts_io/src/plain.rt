//! Sources and sinks in memory that never fail, except for a sink that is full.

ghost use Rattle.std.specs.Prelude.{◌≡◌, ℕ, ◌+◌, ◌-◌, ◌<◌, ◌≤◌, ◌↔◌, [], min, length, Some, IfOk};
ghost use Rattle.rsts_io.specs.Ends.{IsTaken, Accepts};
ghost use Rattle.rsts_io.specs.Memory.{sink_room, plain_feed_state, plain_store_state};

use crate::copies::{SINK_ROOM, copy_next, keep_front};
use crate::sink::{Gave, Sink};
use crate::source::{Source, Took};
use basic_values::NoMemory;
use std::alloc::Global;
use std::marker::Model;

/// A source of given bytes, which never fails.
#[derive(Drop)]
pub struct PlainSource {
    bytes: Vec<u8>,
    at: usize,
}

impl Model for PlainSource {
    ghost use Rattle.std.specs.Prelude.{◌≤◌, drop, vec_len};
    ghost use Rattle.rsts_io.specs.Memory.{PlainFeed};

    ghost Value = { PlainFeed };

    ghost view = { λ s. record { left = drop s.at s.bytes.items; taken = s.at } };

    ghost invariant = { λ s. s.at ≤ vec_len s.bytes };
}

impl PlainSource {
    /// Returns a source that gives these bytes, and then is at its end.
    pub fn new(alloc: Global, bytes: &[u8]) -> Result<PlainSource, NoMemory>
        ensures left { IfOk result (λ source. source.left ≡ bytes.now) }
        ensures taken { IfOk result (λ source. source.taken ≡ 0) }
    {
        Ok(PlainSource {
            bytes: Vec::from_slice(alloc, bytes)?,
            at: 0,
        })
    }
}

impl Source for PlainSource {
    ghost state = { λ s. plain_feed_state s };

    fn take(&mut self, buffer: &mut [u8]) -> Took
        requires { 0 < length buffer.old }
        ensures told { IsTaken result buffer.new
            (plain_feed_state self.old) (plain_feed_state self.new) }
        ensures fits { (n : ℕ) → result ≡ Took.Bytes n
            → n ≡ min (length self.old.left) (length buffer.old) }
    {
        let count = copy_next(&self.bytes, self.at, buffer);
        if count == 0 {
            return Took::End;
        }
        self.at += count;
        Took::Bytes(count)
    }
}

/// A sink that keeps what it is given. It fails if its 16 MiB are full, and counts that.
#[derive(Drop)]
pub struct PlainSink {
    kept: Vec<u8>,
    faults: u64,
}

impl Model for PlainSink {
    ghost use Rattle.std.specs.Prelude.{◌≤◌, vec_len, vec_capacity};
    ghost use Rattle.rsts_io.specs.Memory.{sink_room, PlainStore};

    ghost Value = { PlainStore };

    ghost view = { λ s. record { given = s.kept.items; faults = s.faults } };

    ghost invariant = { λ s. (vec_len s.kept ≤ sink_room) × (sink_room ≤ vec_capacity s.kept) };
}

impl PlainSink {
    /// Returns an empty sink, with its memory taken.
    pub fn new(alloc: Global) -> Result<PlainSink, NoMemory>
        ensures given { IfOk result (λ sink. sink.given ≡ []) }
        ensures faults { IfOk result (λ sink. sink.faults ≡ 0) }
    {
        Ok(PlainSink {
            kept: Vec::with_capacity(alloc, SINK_ROOM)?,
            faults: 0,
        })
    }

    /// Returns what it was given.
    pub fn bytes(&self) -> &[u8]
        ensures bytes { result.now ≡ self.now.given }
        ensures room { length self.now.given ≤ sink_room }
    {
        self.kept.as_slice()
    }
}

impl Sink for PlainSink {
    ghost state = { λ s. plain_store_state s };

    fn give(&mut self, piece: &[u8]) -> Gave
        requires { 0 < length piece.now }
        ensures told { Accepts result piece.now
            (plain_store_state self.old) (plain_store_state self.new) }
        ensures fails { (result ≡ Gave.Failed) ↔ (length self.old.given ≡ sink_room) }
        ensures fits { (n : ℕ) → result ≡ Gave.Bytes n
            → n ≡ min (length piece.now) (sink_room - length self.old.given) }
    {
        let count = keep_front(&mut self.kept, piece);
        if count == 0 {
            self.faults = self.faults.saturating_add(1);
            return Gave::Failed;
        }
        Gave::Bytes(count)
    }
}
