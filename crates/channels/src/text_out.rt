//! PRINT # on a channel.

ghost use Rattle.std.specs.Prelude.{◌≡◌, ◌≤◌, ◌<◌, ◌+◌, ◌-◌, false, length, take, drop, OnOk};
ghost use Rattle.job_model.specs.Follow.{Follows, answered_by};
ghost use Rattle.job_model.specs.Play as play;
ghost use Rattle.record_fields.specs.Buffers.{IsChannel};
ghost use Rattle.record_fields.specs.Sizes.{bytes_of};
ghost use Rattle.channels.specs.Files.{channel_at};
ghost use Rattle.channels.specs.Waiting.{is_state_due};
ghost use Rattle.channels.specs.TextOut.{bytes_waiting, gathers, writes_text, run_gathered};
ghost use Rattle.channels.specs.Seen.{files};

use crate::channels::Channels;
use crate::states::{ChannelState, Waiting};
use basic_values::{Int, Stop};
use monitor_calls::Port;
use record_fields::Buffers;
use std::alloc::Global;
use terminal_line::column_from;

impl Channels {
    /// Does one write of PRINT #: collects bytes in the buffer, and writes it each time it is full.
    /// Errors 46, 9, and those of the monitor, after which the collected bytes stay pending.
    pub fn write_text<P: Port>(
        &mut self,
        alloc: Global,
        buffers: &mut Buffers,
        port: &mut P,
        channel: Int,
        bytes: &[u8],
    ) -> Result<(), Stop>
        ensures { (clock : play.Clock) → Follows P.who P.log port.old port.new clock clock
            (writes_text channel bytes.now (files self.old buffers.old))
            (answered_by result (files self.new buffers.new)) }
    {
        let channel = self.open_channel(channel)?;
        self.settle_due(alloc, buffers, port, channel)?;
        self.gather(alloc, buffers, port, channel, bytes)
    }

    /// Collects bytes, as many at a time as fit into the buffer.
    fn gather<P: Port>(
        &mut self,
        alloc: Global,
        buffers: &mut Buffers,
        port: &mut P,
        channel: u8,
        bytes: &[u8],
    ) -> Result<(), Stop>
        requires channel { IsChannel channel }
        requires room { is_state_due (channel_at channel self.old.states) ≡ false }
        ensures { (clock : play.Clock) → Follows P.who P.log port.old port.new clock clock
            (gathers channel bytes.now (files self.old buffers.old))
            (answered_by result (files self.new buffers.new)) }
    {
        let mut rest = bytes;
        while !rest.is_empty() {
            let room = self.state(channel).room();
            let (run, behind) = rest.split_at(rest.len().min(room as usize));
            self.gather_run(alloc, buffers, port, channel, run)?;
            rest = behind;
        }
        Ok(())
    }

    /// Collects bytes that fit into the buffer, and writes it if they fill it.
    fn gather_run<P: Port>(
        &mut self,
        alloc: Global,
        buffers: &mut Buffers,
        port: &mut P,
        channel: u8,
        run: &[u8],
    ) -> Result<(), Stop>
        requires channel { IsChannel channel }
        requires room { is_state_due (channel_at channel self.old.states) ≡ false }
        requires some { 1 ≤ length run.now }
        requires fits { bytes_waiting (channel_at channel self.old.states).waiting + length run.now
            ≤ bytes_of (channel_at channel self.old.states).size }
        ensures follows { (clock : play.Clock) → Follows P.who P.log port.old port.new clock clock
            (gathers channel run.now (files self.old buffers.old))
            (answered_by result (files self.new buffers.new)) }
        ensures room { OnOk result (is_state_due (channel_at channel self.new.states) ≡ false) }
    {
        self.keep_run(buffers, channel, run);
        self.settle_due(alloc, buffers, port, channel)
    }

    /// Puts the bytes into the buffer.
    fn keep_run(&mut self, buffers: &mut Buffers, channel: u8, run: &[u8])
        requires channel { IsChannel channel }
        requires fits { bytes_waiting (channel_at channel self.old.states).waiting + length run.now
            ≤ bytes_of (channel_at channel self.old.states).size }
        ensures kept { files self.new buffers.new
            ≡ run_gathered channel run.now (files self.old buffers.old) }
        ensures among { channel - 1 < length self.old.states }
    {
        let state = self.state(channel);
        let count = state.waiting.bytes();
        buffers.write_from(channel, count, run);
        self.set(
            channel,
            ChannelState {
                waiting: Waiting::Bytes(count + run.len() as u16),
                unread: 0,
                column: column_from(state.column, run),
                ..state
            },
        );
    }
}

impl ChannelState {
    /// Returns how many more bytes fit into the buffer.
    fn room(&self) -> u16
        ensures { result ≡ bytes_of self.now.size - bytes_waiting self.now.waiting }
    {
        self.size.bytes().saturating_sub(self.waiting.bytes())
    }
}

impl Waiting {
    /// Returns how many bytes are collected.
    fn bytes(&self) -> u16
        ensures { result ≡ bytes_waiting self.now }
    {
        match self {
            Waiting::Bytes(count) => *count,
            Waiting::Nothing | Waiting::Window { .. } => 0,
        }
    }
}
