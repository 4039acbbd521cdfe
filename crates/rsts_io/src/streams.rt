//! The real ends: any reader and any writer of std. They do not report what they read and write;
//! `read` and `written` say it for a reader and a writer whose bytes are known.

ghost use Rattle.std.specs.Prelude.{◌≡◌, ◌<◌, length};
ghost use Rattle.rsts_io.specs.Ends.{IsTaken, Accepts};
ghost use Rattle.rsts_io.specs.Streams.{ReadSo, WrittenSo, untold_source, untold_sink};

use crate::sink::{Gave, Sink};
use crate::source::{Source, Took};
use std::io::{Read, Write};

/// A source over a reader. A read that fails is counted; a read of no bytes is its end.
#[derive(Drop)]
pub struct StdSource<R: Read> {
    inner: R,
    taken: u64,
    faults: u64,
}

impl<R: Read> StdSource<R> {
    /// Returns a source from which nothing was taken yet.
    pub fn new(inner: R) -> StdSource<R>
        ensures taken { result.taken ≡ 0 }
        ensures faults { result.faults ≡ 0 }
    {
        StdSource {
            inner,
            taken: 0,
            faults: 0,
        }
    }
}

impl<R: Read> Source for StdSource<R> {
    ghost state = { λ s. untold_source s.taken s.faults };

    fn take(&mut self, buffer: &mut [u8]) -> Took
        requires { 0 < length buffer.old }
        ensures told { IsTaken result buffer.new
            (untold_source self.old.taken self.old.faults)
            (untold_source self.new.taken self.new.faults) }
        ensures read { ReadSo result buffer.new
            (R.remaining self.old.inner) (R.remaining self.new.inner) self.old.taken }
    {
        let room = u64::MAX - self.taken;
        if room == 0 {
            return Took::End;
        }
        let most = buffer.len().min(room as usize);
        match self.inner.read(&mut buffer[..most]) {
            Ok(0) => Took::End,
            Ok(count) => {
                self.taken += count as u64;
                Took::Bytes(count)
            }
            Err(_) => {
                self.faults = self.faults.saturating_add(1);
                Took::Failed
            }
        }
    }
}

/// A sink over a writer. A write that fails or takes no bytes is counted.
#[derive(Drop)]
pub struct StdSink<W: Write> {
    inner: W,
    faults: u64,
}

impl<W: Write> StdSink<W> {
    /// Returns a sink that has not failed yet.
    pub fn new(inner: W) -> StdSink<W>
        ensures { result.faults ≡ 0 }
    {
        StdSink { inner, faults: 0 }
    }
}

impl<W: Write> Sink for StdSink<W> {
    ghost state = { λ s. untold_sink s.faults };

    fn give(&mut self, piece: &[u8]) -> Gave
        requires { 0 < length piece.now }
        ensures told { Accepts result piece.now
            (untold_sink self.old.faults) (untold_sink self.new.faults) }
        ensures written { WrittenSo result piece.now
            (W.contents self.old.inner) (W.contents self.new.inner) }
    {
        match self.inner.write(piece) {
            Ok(0) | Err(_) => {
                self.faults = self.faults.saturating_add(1);
                Gave::Failed
            }
            Ok(count) => Gave::Bytes(count),
        }
    }
}
