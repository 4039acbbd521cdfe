//! Reading a source to its end, and giving bytes to a sink.

ghost use Rattle.std.specs.Prelude.{◌≡◌, ◌+◌, ◌<◌, ◌≤◌, ◌==◌, length, position, Err, IfSome};
ghost use Rattle.std.specs.Prelude.{MatchOption, OnOk, OnErr};
ghost use Rattle.rsts_io.specs.Ends.{IsTaken};
ghost use Rattle.rsts_io.specs.Whole.{ReadWhole, TookNext, IsOverLimit, Written, BrokeOff};

use crate::sink::{Gave, Sink};
use crate::source::{Source, Took};
use std::alloc::{AllocError, Global};

/// The most bytes of an input of a run and of a check: 8 MiB.
pub const INPUT_LIMIT: usize = 8_388_608;

/// The most bytes of an input of a replay, which has a history: 256 MiB.
pub const REPLAY_LIMIT: usize = 268_435_456;

/// Why an input was not read.
#[derive(Clone, Copy, Debug, PartialEq, Eq)]
pub enum ReadEnd {
    /// The source failed.
    Fault,
    /// It has more bytes than an input may have.
    TooLong,
    NoMemory,
}

impl From<AllocError> for ReadEnd {
    ghost use Rattle.rsts_io.specs.declared.whole.ReadEnd.TheVariants as end;

    ghost from_gives = { λ _ e. e ≡ end.NoMemory };

    fn from(_error: AllocError) -> ReadEnd {
        ReadEnd::NoMemory
    }
}

/// Reads all the bytes of a source, up to its end, of which there may be at most this many. It asks
/// for no byte after the first that is too many.
pub fn read_all<S: Source>(alloc: Global, source: &mut S, limit: usize) -> Result<Vec<u8>, ReadEnd>
    requires { limit ≤ REPLAY_LIMIT }
    ensures ended { ReadWhole limit result (S.state source.old) (S.state source.new) }
    // Whatever the answer, what was taken was the next of what was left, and is at most one byte
    // more than an input may have.
    ensures next { TookNext limit (S.state source.old) (S.state source.new) }
    ensures too_long { IsOverLimit limit (S.state source.old) (S.state source.new)
        → result ≡ Err ReadEnd.TooLong }
{
    let mut chunk = [0u8; 4096];
    read_through(alloc, source, limit, &mut chunk)
}

fn read_through<S: Source>(
    alloc: Global,
    source: &mut S,
    limit: usize,
    chunk: &mut [u8],
) -> Result<Vec<u8>, ReadEnd>
    requires limit { limit ≤ REPLAY_LIMIT }
    requires room { 0 < length chunk.old }
    ensures ended { ReadWhole limit result (S.state source.old) (S.state source.new) }
    ensures next { TookNext limit (S.state source.old) (S.state source.new) }
    ensures too_long { IsOverLimit limit (S.state source.old) (S.state source.new)
        → result ≡ Err ReadEnd.TooLong }
{
    let mut bytes = Vec::new(alloc);
    'reading: loop {
        match take_some(source, chunk, limit + 1 - bytes.len()) {
            Took::End => return Ok(bytes),
            Took::Failed => return Err(ReadEnd::Fault),
            Took::Bytes(count) => {
                if bytes.len() + count > limit {
                    return Err(ReadEnd::TooLong);
                }
                bytes.extend_from_slice(&chunk[..count])?;
            }
        }
    }
}

/// Takes at most this many bytes to the start of the buffer.
fn take_some<S: Source>(source: &mut S, chunk: &mut [u8], most: usize) -> Took
    requires room { 0 < length chunk.old }
    requires some { 0 < most }
    ensures told { IsTaken result chunk.new (S.state source.old) (S.state source.new) }
    ensures most { (S.state source.new).taken ≤ (S.state source.old).taken + most }
{
    let most = chunk.len().min(most);
    source.take(&mut chunk[..most])
}

/// A sink failed.
#[derive(Clone, Copy, PartialEq, Eq)]
pub struct SinkFault;

/// Gives all the bytes, the first line as a piece of its own.
pub fn give_all<K: Sink>(sink: &mut K, bytes: &[u8]) -> Result<(), SinkFault>
    ensures all { OnOk result (Written bytes.now (K.state sink.old) (K.state sink.new)) }
    ensures front { OnErr result (BrokeOff bytes.now (K.state sink.old) (K.state sink.new)) }
{
    let (head, rest) = bytes.split_at(line_length(bytes));
    give_piece(sink, head)?;
    give_piece(sink, rest)
}

/// Returns how many bytes the first line has, with its LF.
fn line_length(bytes: &[u8]) -> usize
    ensures line { MatchOption (position (λ b. b == 10) bytes.now)
        (result ≡ length bytes.now) (λ at. result ≡ at + 1) }
    ensures within { result ≤ length bytes.now }
{
    match place_of(b'\n', bytes) {
        Some(at) => at + 1,
        None => bytes.len(),
    }
}

/// Returns the place of the first such byte.
fn place_of(byte: u8, text: &[u8]) -> Option<usize>
    ensures place { result ≡ position (λ b. b == byte) text.now }
    ensures within { IfSome result (λ at. at < length text.now) }
{
    text.iter().position(|b| *b == byte)
}

/// Gives a piece, in as many calls as the sink needs.
fn give_piece<K: Sink>(sink: &mut K, piece: &[u8]) -> Result<(), SinkFault>
    ensures all { OnOk result (Written piece.now (K.state sink.old) (K.state sink.new)) }
    ensures front { OnErr result (BrokeOff piece.now (K.state sink.old) (K.state sink.new)) }
{
    let mut rest = piece;
    while !rest.is_empty() {
        match sink.give(rest) {
            Gave::Bytes(count) => rest = &rest[count..],
            Gave::Failed => return Err(SinkFault),
        }
    }
    Ok(())
}
