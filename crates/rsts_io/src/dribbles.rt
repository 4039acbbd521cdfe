//! Sources and sinks in memory that move few bytes a call.

ghost use Rattle.std.specs.Prelude.{◌≡◌, ℕ, ◌-◌, ◌<◌, ◌≤◌, ◌↔◌, [], min, length, Some, IfOk};
ghost use Rattle.rsts_io.specs.Ends.{IsTaken, Accepts};
ghost use Rattle.rsts_io.specs.Memory.{sink_room, dribble_feed_state, dribble_store_state};

use crate::plain::{PlainSink, PlainSource};
use crate::sink::{Gave, Sink};
use crate::source::{Source, Took};
use basic_values::NoMemory;
use std::alloc::Global;
use std::marker::Model;

/// A source of given bytes, which never fails and gives at most this many bytes a call.
#[derive(Drop)]
pub struct DribbleSource {
    inner: PlainSource,
    most: usize,
}

impl Model for DribbleSource {
    ghost use Rattle.std.specs.Prelude.{◌<◌};
    ghost use Rattle.rsts_io.specs.Memory.{DribbleFeed};

    ghost Value = { DribbleFeed };

    ghost view = { λ s. record { left = s.inner.left; taken = s.inner.taken; most = s.most } };

    ghost invariant = { λ s. 0 < s.most };
}

impl DribbleSource {
    /// Returns a source that gives these bytes, at most this many a call, and then is at its end.
    pub fn new(alloc: Global, bytes: &[u8], most: usize) -> Result<DribbleSource, NoMemory>
        requires { 0 < most }
        ensures left { IfOk result (λ source. source.left ≡ bytes.now) }
        ensures taken { IfOk result (λ source. source.taken ≡ 0) }
        ensures most { IfOk result (λ source. source.most ≡ most) }
    {
        let inner = PlainSource::new(alloc, bytes)?;
        Ok(DribbleSource { inner, most })
    }
}

impl Source for DribbleSource {
    ghost state = { λ s. dribble_feed_state s };

    fn take(&mut self, buffer: &mut [u8]) -> Took
        requires { 0 < length buffer.old }
        ensures told { IsTaken result buffer.new
            (dribble_feed_state self.old) (dribble_feed_state self.new) }
        ensures fits { (n : ℕ) → result ≡ Took.Bytes n
            → n ≡ min (length self.old.left) (min (length buffer.old) self.old.most) }
        ensures never_fails { result ≡ Took.Failed → ⊥ }
        ensures most { self.new.most ≡ self.old.most }
    {
        let most = buffer.len().min(self.most);
        self.inner.take(&mut buffer[..most])
    }
}

/// A sink that keeps what it is given, at most this many bytes a call. It fails if its 16 MiB are
/// full, and counts that.
#[derive(Drop)]
pub struct DribbleSink {
    inner: PlainSink,
    most: usize,
}

impl Model for DribbleSink {
    ghost use Rattle.std.specs.Prelude.{◌<◌};
    ghost use Rattle.rsts_io.specs.Memory.{DribbleStore};

    ghost Value = { DribbleStore };

    ghost view = { λ s. record {
      given = s.inner.given;
      faults = s.inner.faults;
      most = s.most;
    } };

    ghost invariant = { λ s. 0 < s.most };
}

impl DribbleSink {
    /// Returns an empty sink, with its memory taken, that takes at most this many bytes a call.
    pub fn new(alloc: Global, most: usize) -> Result<DribbleSink, NoMemory>
        requires { 0 < most }
        ensures given { IfOk result (λ sink. sink.given ≡ []) }
        ensures faults { IfOk result (λ sink. sink.faults ≡ 0) }
        ensures most { IfOk result (λ sink. sink.most ≡ most) }
    {
        let inner = PlainSink::new(alloc)?;
        Ok(DribbleSink { inner, most })
    }

    /// Returns what it was given.
    pub fn bytes(&self) -> &[u8]
        ensures bytes { result.now ≡ self.now.given }
        ensures room { length self.now.given ≤ sink_room }
    {
        self.inner.bytes()
    }
}

impl Sink for DribbleSink {
    ghost state = { λ s. dribble_store_state s };

    fn give(&mut self, piece: &[u8]) -> Gave
        requires { 0 < length piece.now }
        ensures told { Accepts result piece.now
            (dribble_store_state self.old) (dribble_store_state self.new) }
        ensures fails { (result ≡ Gave.Failed) ↔ (length self.old.given ≡ sink_room) }
        ensures fits { (n : ℕ) → result ≡ Gave.Bytes n
            → n ≡ min (min (length piece.now) self.old.most) (sink_room - length self.old.given) }
        ensures most { self.new.most ≡ self.old.most }
    {
        let most = piece.len().min(self.most);
        self.inner.give(&piece[..most])
    }
}
