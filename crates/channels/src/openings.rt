//! OPEN, CLOSE, and the implicit close.

ghost use Rattle.std.specs.Prelude.{◌≡◌, [], Some, IfOk};
ghost use Rattle.std.specs.Option.{option_map};
ghost use Rattle.job_model.specs.Follow.{Follows, answered_by};
ghost use Rattle.job_model.specs.Play as play;
ghost use Rattle.record_fields.specs.Buffers.{IsChannel};
ghost use Rattle.channels.specs.Files.{Files, tested, channel_named, is_open_at};
ghost use Rattle.channels.specs.Openings.{with_opened, opens_file, with_closed, closes_on};
ghost use Rattle.channels.specs.Openings.{if_opened, closes_file, quietly, shuts_on, shuts_file};
ghost use Rattle.channels.specs.Openings.{closes_all};
ghost use Rattle.channels.specs.Transfers.{asks_close};
ghost use Rattle.channels.specs.Waiting.{settles};
ghost use Rattle.channels.specs.Seen.{files};

use crate::channels::{Channels, channel_named};
use crate::states::{CLOSED, ChannelState};
use crate::transfers::{ask_close, ask_open};
use basic_values::limits::LAST_CHANNEL;
use basic_values::{Int, Stop};
use monitor_calls::{FileName, OpenKind, Port};
use record_fields::{Buffers, RecordSize};
use std::alloc::Global;

impl Channels {
    /// Does OPEN on a channel that `to_open` returned, for records of this size. The code is for a
    /// new file. The errors are those of the monitor.
    pub fn open_file<P: Port>(
        &mut self,
        alloc: Global,
        buffers: &mut Buffers,
        port: &mut P,
        channel: u8,
        name: FileName,
        kind: OpenKind,
        update: bool,
        code: Option<u8>,
        size: RecordSize,
    ) -> Result<(), Stop>
        requires { IsChannel channel }
        ensures { (clock : play.Clock) → Follows P.who P.log port.old port.new clock clock
            (opens_file channel name kind update code size (files self.old buffers.old))
            (answered_by result (files self.new buffers.new)) }
    {
        buffers.set_size(alloc, channel, size)?;
        match ask_open(alloc, port, channel, name, kind, update, code) {
            Ok(_) => {
                self.note_opened(channel, update, size);
                Ok(())
            }
            Err(stop) => {
                buffers.shrink(channel);
                Err(stop)
            }
        }
    }

    /// Notes that the channel is open.
    fn note_opened(&mut self, channel: u8, update: bool, size: RecordSize)
        requires { IsChannel channel }
        ensures { files self.new []
            ≡ record (with_opened channel update size (files self.old [])) { buffers = [] } }
    {
        self.set(
            channel,
            ChannelState {
                open_now: true,
                update,
                size,
                ..CLOSED
            },
        );
    }

    /// Does CLOSE of one channel, and returns the channel, or none if it was not open. Error 46,
    /// and those of the monitor.
    pub fn close_file<P: Port>(
        &mut self,
        alloc: Global,
        buffers: &mut Buffers,
        port: &mut P,
        channel: Int,
    ) -> Result<Option<u8>, Stop>
        ensures { (clock : play.Clock) → Follows P.who P.log port.old port.new clock clock
            (closes_file channel (files self.old buffers.old))
            (answered_by result (files self.new buffers.new)) }
    {
        let channel = any_channel(channel)?;
        self.close_if_open(alloc, buffers, port, channel)
    }

    fn close_if_open<P: Port>(
        &mut self,
        alloc: Global,
        buffers: &mut Buffers,
        port: &mut P,
        channel: u8,
    ) -> Result<Option<u8>, Stop>
        requires { IsChannel channel }
        ensures { (clock : play.Clock) → Follows P.who P.log port.old port.new clock clock
            (if_opened (is_open_at channel self.old.states) (closes_on channel)
            (files self.old buffers.old))
            (answered_by result (files self.new buffers.new)) }
    {
        if self.state(channel).open_now {
            self.close_on(alloc, buffers, port, channel)
        } else {
            Ok(None)
        }
    }

    fn close_on<P: Port>(
        &mut self,
        alloc: Global,
        buffers: &mut Buffers,
        port: &mut P,
        channel: u8,
    ) -> Result<Option<u8>, Stop>
        requires { IsChannel channel }
        ensures { (clock : play.Clock) → Follows P.who P.log port.old port.new clock clock
            (closes_on channel (files self.old buffers.old))
            (answered_by result (files self.new buffers.new)) }
    {
        self.settle(alloc, buffers, port, channel)?;
        ask_close(alloc, port, channel)?;
        self.note_closed(buffers, channel);
        Ok(Some(channel))
    }

    /// Notes that the channel is closed.
    fn note_closed(&mut self, buffers: &mut Buffers, channel: u8)
        requires { IsChannel channel }
        ensures { files self.new buffers.new ≡ with_closed channel (files self.old buffers.old) }
    {
        buffers.shrink(channel);
        self.set(channel, CLOSED);
    }

    /// Closes all channels implicitly, in increasing order. Refusals are ignored.
    pub fn close_all<P: Port>(
        &mut self,
        alloc: Global,
        buffers: &mut Buffers,
        port: &mut P,
    ) -> Result<(), Stop>
        ensures { (clock : play.Clock) → Follows P.who P.log port.old port.new clock clock
            (closes_all (files self.old buffers.old))
            (answered_by result (files self.new buffers.new)) }
    {
        for place in 0..LAST_CHANNEL {
            self.shut_file(alloc, buffers, port, place + 1)?;
        }
        Ok(())
    }

    /// Closes one channel implicitly, and returns the channel, or none if it was not open. Refusals
    /// are ignored.
    pub fn shut_file<P: Port>(
        &mut self,
        alloc: Global,
        buffers: &mut Buffers,
        port: &mut P,
        channel: u8,
    ) -> Result<Option<u8>, Stop>
        requires { IsChannel channel }
        ensures { (clock : play.Clock) → Follows P.who P.log port.old port.new clock clock
            (shuts_file channel (files self.old buffers.old))
            (answered_by result (files self.new buffers.new)) }
    {
        if self.state(channel).open_now {
            self.shut_on(alloc, buffers, port, channel)
        } else {
            Ok(None)
        }
    }

    fn shut_on<P: Port>(
        &mut self,
        alloc: Global,
        buffers: &mut Buffers,
        port: &mut P,
        channel: u8,
    ) -> Result<Option<u8>, Stop>
        requires { IsChannel channel }
        ensures { (clock : play.Clock) → Follows P.who P.log port.old port.new clock clock
            (shuts_on channel (files self.old buffers.old))
            (answered_by result (files self.new buffers.new)) }
    {
        self.settle_quietly(alloc, buffers, port, channel)?;
        ask_close_quietly(alloc, port, channel)?;
        self.note_closed(buffers, channel);
        Ok(Some(channel))
    }

    fn settle_quietly<P: Port>(
        &mut self,
        alloc: Global,
        buffers: &Buffers,
        port: &mut P,
        channel: u8,
    ) -> Result<(), Stop>
        requires { IsChannel channel }
        ensures { (clock : play.Clock) → Follows P.who P.log port.old port.new clock clock
            (quietly (settles channel (files self.old buffers.now)))
            (answered_by result (files self.new buffers.now)) }
    {
        let settled = self.settle(alloc, buffers, port, channel);
        past_faults(settled)
    }
}

fn ask_close_quietly<P: Port>(alloc: Global, port: &mut P, channel: u8) -> Result<(), Stop>
    ensures { (clock : play.Clock) (files : Files) → Follows P.who P.log port.old port.new
        clock clock (quietly (asks_close channel files)) (answered_by result files) }
{
    let closed = ask_close(alloc, port, channel);
    past_faults(closed)
}

/// Ignores a refusal.
fn past_faults(outcome: Result<(), Stop>) -> Result<(), Stop>
    ensures { (files : Files) → option_map quietly (answered_by outcome files)
        ≡ answered_by result files }
{
    match outcome {
        Err(Stop::Fault(_)) => Ok(()),
        other => other,
    }
}

/// Returns the channel with this number, open or not; an error ends the statement.
fn any_channel(number: Int) -> Result<u8, Stop>
    ensures judged { (files : Files) → answered_by result files
        ≡ Some (tested (channel_named number) files) }
    ensures channel { IfOk result IsChannel }
{
    match channel_named(number) {
        Ok(channel) => Ok(channel),
        Err(fault) => Err(Stop::Fault(fault)),
    }
}
