//! INPUT # on a channel: a line, from as many records as it needs.

ghost use Rattle.std.specs.Prelude.{◌≡◌, ◌+◌, ◌-◌, ◌≤◌, [], length, take, drop, Some, IfOk, Err};
ghost use Rattle.std.specs.Option.{option_map};
ghost use Rattle.basic_values.specs.declared.limits.TheConstants.{MOST_BLOCKS, MOST_RECORD_BLOCKS};
ghost use Rattle.job_model.specs.Follow.{Follows, answered_by};
ghost use Rattle.job_model.specs.Play as play;
ghost use Rattle.record_fields.specs.Buffers.{IsChannel, buffer_of};
ghost use Rattle.channels.specs.Files.{Files, channel_at};
ghost use Rattle.channels.specs.TextIn.{record_loaded, reads_next, unread_bytes, takes_unread};
ghost use Rattle.channels.specs.TextIn.{with_unread, ends_line, goes_on_with, takes_turn};
ghost use Rattle.channels.specs.TextIn.{whole_line, reads_line, bytes_left};
ghost use Rattle.channels.specs.Seen.{files};

use crate::channels::Channels;
use crate::lines::{Line, MOST_TURNS, Taken, Turn};
use crate::states::{ChannelState, Waiting};
use crate::transfers::fetch;
use basic_values::errors::{DATA_FORMAT_ERROR, END_OF_FILE};
use basic_values::limits::BLOCK_BYTES;
use basic_values::{Fault, Int, NoMemory, Stop, Text};
use monitor_calls::Port;
use record_fields::Buffers;
use std::alloc::Global;

impl Channels {
    /// Returns the next line of INPUT #, without its end. Errors 46, 9, 50 if it is too long, and
    /// those of the monitor: 11 at the end of the file, if nothing was taken. Bytes that were taken
    /// before an error are lost.
    pub fn read_line<P: Port>(
        &mut self,
        alloc: Global,
        buffers: &mut Buffers,
        port: &mut P,
        channel: Int,
    ) -> Result<Text, Stop>
        ensures { (clock : play.Clock) → Follows P.who P.log port.old port.new clock clock
            (reads_line channel (files self.old buffers.old))
            (answered_by result (files self.new buffers.new)) }
    {
        let channel = self.open_channel(channel)?;
        self.settle(alloc, buffers, port, channel)?;
        self.read_whole(alloc, buffers, port, channel)
    }

    /// Reads the line, record by record.
    fn read_whole<P: Port>(
        &mut self,
        alloc: Global,
        buffers: &mut Buffers,
        port: &mut P,
        channel: u8,
    ) -> Result<Text, Stop>
        requires { IsChannel channel }
        ensures { (clock : play.Clock) → Follows P.who P.log port.old port.new clock clock
            (whole_line channel (files self.old buffers.old))
            (answered_by result (files self.new buffers.new)) }
    {
        let mut line = Line::new(alloc);
        for turn in 0..MOST_TURNS {
            match self.take_turn(alloc, buffers, port, channel, line)? {
                Turn::GoesOn(more) => line = more,
                Turn::IsWhole(whole) => return Ok(whole.text(alloc)?),
            }
        }
        Err(Stop::Expired)
    }

    /// Takes what is unread. If the line continues after it, reads the next record.
    fn take_turn<P: Port>(
        &mut self,
        alloc: Global,
        buffers: &mut Buffers,
        port: &mut P,
        channel: u8,
        line: Line,
    ) -> Result<Turn, Stop>
        requires { IsChannel channel }
        ensures { (clock : play.Clock) → Follows P.who P.log port.old port.new clock clock
            (takes_turn channel line (files self.old buffers.old))
            (answered_by result (files self.new buffers.new)) }
    {
        match self.take_unread(buffers, channel, line)? {
            Taken::AllTaken(line) => self.go_on_with(alloc, buffers, port, channel, line),
            Taken::LineTaken { line, .. } => ends_line(line.without_last_return()),
            Taken::TooMany { .. } => Err(Stop::Fault(Fault::new(DATA_FORMAT_ERROR))),
        }
    }

    /// Takes unread bytes, up to a line feed.
    fn take_unread(&mut self, buffers: &Buffers, channel: u8, line: Line) -> Result<Taken, NoMemory>
        requires { IsChannel channel }
        ensures taken { IfOk result (λ taken. taken
            ≡ takes_unread channel line (files self.old buffers.now)) }
        ensures left { IfOk result (λ taken. files self.new buffers.now
            ≡ with_unread channel (bytes_left taken) (files self.old buffers.now)) }
    {
        let taken = line.take_from(self.unread(buffers, channel))?;
        self.note_unread(channel, taken.left());
        Ok(taken)
    }

    /// Returns the bytes of the last record that no line has taken.
    fn unread<'a>(&self, buffers: &'a Buffers, channel: u8) -> &'a [u8]
        requires { IsChannel channel }
        ensures bytes { result.now
            ≡ unread_bytes (channel_at channel self.now.states) (buffer_of channel buffers.now) }
        ensures short { length result.now ≤ 65535 }
    {
        let state = self.state(channel);
        unread_of(buffers.buffer(channel), state.loaded, state.unread)
    }

    /// Notes that this many bytes are unread.
    fn note_unread(&mut self, channel: u8, left: usize)
        requires channel { IsChannel channel }
        requires short { left ≤ 65535 }
        ensures { files self.new [] ≡ with_unread channel left (files self.old []) }
    {
        let state = self.state(channel);
        let unread = left as u16;
        self.set(channel, ChannelState { unread, ..state });
    }

    /// Reads the next record. At the end of the file, the line is what was taken so far.
    fn go_on_with<P: Port>(
        &mut self,
        alloc: Global,
        buffers: &mut Buffers,
        port: &mut P,
        channel: u8,
        line: Line,
    ) -> Result<Turn, Stop>
        requires { IsChannel channel }
        ensures { (clock : play.Clock) → Follows P.who P.log port.old port.new clock clock
            (goes_on_with line (reads_next channel (files self.old buffers.old)))
            (answered_by result (files self.new buffers.new)) }
    {
        match self.read_next(alloc, buffers, port, channel) {
            Ok(()) => Ok(Turn::GoesOn(line)),
            Err(stop) => ends_at_stop(line, stop),
        }
    }

    /// Reads the next record, whose bytes are then unread.
    fn read_next<P: Port>(
        &mut self,
        alloc: Global,
        buffers: &mut Buffers,
        port: &mut P,
        channel: u8,
    ) -> Result<(), Stop>
        requires { IsChannel channel }
        ensures { (clock : play.Clock) → Follows P.who P.log port.old port.new clock clock
            (reads_next channel (files self.old buffers.old))
            (answered_by result (files self.new buffers.new)) }
    {
        let state = self.state(channel);
        let (count, bytes) = fetch(alloc, port, channel, state.next, state.size)?;
        self.keep_loaded(buffers, channel, count, bytes.as_slice());
        Ok(())
    }

    /// Puts the record into the buffer; none of it is taken.
    fn keep_loaded(&mut self, buffers: &mut Buffers, channel: u8, count: u16, bytes: &[u8])
        requires channel { IsChannel channel }
        requires few { count ≤ MOST_RECORD_BLOCKS }
        requires blocks { (channel_at channel self.old.states).next + count ≤ MOST_BLOCKS + 1 }
        ensures { files self.new buffers.new
            ≡ record_loaded channel (count, bytes.now) (files self.old buffers.old) }
    {
        buffers.fill(channel, bytes);
        let loaded = BLOCK_BYTES as u16 * count;
        let state = self.state(channel);
        self.set(
            channel,
            ChannelState {
                next: state.next + count,
                waiting: Waiting::Nothing,
                loaded,
                unread: loaded,
                ..state
            },
        );
    }
}

/// Returns the last `unread` of this many bytes.
fn unread_of(buffer: &[u8], loaded: u16, unread: u16) -> &[u8]
    ensures bytes { result.now ≡ take unread (drop (loaded - unread) buffer.entry.now) }
    ensures short { length result.now ≤ 65535 }
{
    let start = (loaded.saturating_sub(unread) as usize).min(buffer.len());
    let rest = &buffer[start..];
    &rest[..(unread as usize).min(rest.len())]
}

/// Ends the line, if it is not too long.
fn ends_line(line: Line) -> Result<Turn, Stop>
    ensures { (files : Files) → answered_by result files ≡ Some (ends_line line files) }
{
    if line.is_too_long() {
        Err(Stop::Fault(Fault::new(DATA_FORMAT_ERROR)))
    } else {
        Ok(Turn::IsWhole(line))
    }
}

/// Returns what a failed read leaves of the line.
fn ends_at_stop(line: Line, stop: Stop) -> Result<Turn, Stop>
    ensures { (files : Files) → option_map (goes_on_with line) (answered_by (Err stop) files)
        ≡ answered_by result files }
{
    match stop {
        Stop::Fault(fault) if fault.number() == END_OF_FILE && line.is_begun() => ends_line(line),
        other => Err(other),
    }
}
