//! GET, PUT and UNLOCK.

ghost use Rattle.std.specs.Prelude.{◌≡◌, ◌+◌, ◌≤◌, [], Some};
ghost use Rattle.basic_values.specs.declared.limits.TheConstants.{MOST_BLOCKS, MOST_RECORD_BLOCKS};
ghost use Rattle.job_model.specs.Follow.{Follows, answered_by};
ghost use Rattle.job_model.specs.Play as play;
ghost use Rattle.record_fields.specs.Buffers.{IsChannel};
ghost use Rattle.record_fields.specs.Sizes.{blocks_of};
ghost use Rattle.channels.specs.Files.{Files, tested, channel_at};
ghost use Rattle.channels.specs.Records.{record_named, block_or_next, record_got, gets_at, gets_on};
ghost use Rattle.channels.specs.Records.{gets_record, record_put, puts_at, puts_on, puts_record};
ghost use Rattle.channels.specs.Records.{unlocks};
ghost use Rattle.channels.specs.Seen.{files};

use crate::channels::Channels;
use crate::states::{ChannelState, Waiting};
use crate::transfers::{ask_unlock, fetch, store};
use basic_values::errors::ILLEGAL_BYTE_COUNT;
use basic_values::limits::BLOCK_BYTES;
use basic_values::{Fault, Int, Stop};
use monitor_calls::Port;
use record_fields::{Buffers, natural};
use std::alloc::Global;

impl Channels {
    /// Does GET: reads a record into the channel's buffer, from this block on. Block 0 is the next
    /// one. Errors 46, 9, 31, and those of the monitor.
    pub fn get<P: Port>(
        &mut self,
        alloc: Global,
        buffers: &mut Buffers,
        port: &mut P,
        channel: Int,
        block: Int,
    ) -> Result<(), Stop>
        ensures { (clock : play.Clock) → Follows P.who P.log port.old port.new clock clock
            (gets_record channel block (files self.old buffers.old))
            (answered_by result (files self.new buffers.new)) }
    {
        let channel = self.open_channel(channel)?;
        let block = record_named(block)?;
        self.get_on(alloc, buffers, port, channel, block)
    }

    fn get_on<P: Port>(
        &mut self,
        alloc: Global,
        buffers: &mut Buffers,
        port: &mut P,
        channel: u8,
        block: u16,
    ) -> Result<(), Stop>
        requires { IsChannel channel }
        ensures { (clock : play.Clock) → Follows P.who P.log port.old port.new clock clock
            (gets_on channel block (files self.old buffers.old))
            (answered_by result (files self.new buffers.new)) }
    {
        self.settle(alloc, buffers, port, channel)?;
        let block = self.block_or_next(channel, block);
        self.get_at(alloc, buffers, port, channel, block)
    }

    fn get_at<P: Port>(
        &mut self,
        alloc: Global,
        buffers: &mut Buffers,
        port: &mut P,
        channel: u8,
        block: u16,
    ) -> Result<(), Stop>
        requires { IsChannel channel }
        ensures { (clock : play.Clock) → Follows P.who P.log port.old port.new clock clock
            (gets_at channel block (files self.old buffers.old))
            (answered_by result (files self.new buffers.new)) }
    {
        let state = self.state(channel);
        let (count, bytes) = fetch(alloc, port, channel, block, state.size)?;
        self.keep_record(buffers, channel, block, count, bytes.as_slice());
        Ok(())
    }

    /// Puts the record into the buffer.
    fn keep_record(
        &mut self,
        buffers: &mut Buffers,
        channel: u8,
        block: u16,
        count: u16,
        bytes: &[u8],
    )
        requires channel { IsChannel channel }
        requires few { count ≤ MOST_RECORD_BLOCKS }
        requires blocks { block + count ≤ MOST_BLOCKS + 1 }
        ensures { files self.new buffers.new
            ≡ record_got channel block (count, bytes.now) (files self.old buffers.old) }
    {
        buffers.fill(channel, bytes);
        let recount = BLOCK_BYTES as u16 * count;
        let state = self.state(channel);
        self.recount = recount;
        self.set(
            channel,
            ChannelState {
                next: block + count,
                recount,
                waiting: Waiting::Nothing,
                unread: 0,
                ..state
            },
        );
    }

    /// Does PUT: writes the channel's buffer as a record, from this block on. Block 0 is the next
    /// one. Errors 46, 9, 31, and those of the monitor.
    pub fn put<P: Port>(
        &mut self,
        alloc: Global,
        buffers: &Buffers,
        port: &mut P,
        channel: Int,
        block: Int,
    ) -> Result<(), Stop>
        ensures { (clock : play.Clock) → Follows P.who P.log port.old port.new clock clock
            (puts_record channel block (files self.old buffers.now))
            (answered_by result (files self.new buffers.now)) }
    {
        let channel = self.open_channel(channel)?;
        let block = record_named(block)?;
        self.put_on(alloc, buffers, port, channel, block)
    }

    fn put_on<P: Port>(
        &mut self,
        alloc: Global,
        buffers: &Buffers,
        port: &mut P,
        channel: u8,
        block: u16,
    ) -> Result<(), Stop>
        requires { IsChannel channel }
        ensures { (clock : play.Clock) → Follows P.who P.log port.old port.new clock clock
            (puts_on channel block (files self.old buffers.now))
            (answered_by result (files self.new buffers.now)) }
    {
        self.settle(alloc, buffers, port, channel)?;
        let block = self.block_or_next(channel, block);
        self.put_at(alloc, buffers, port, channel, block)
    }

    fn put_at<P: Port>(
        &mut self,
        alloc: Global,
        buffers: &Buffers,
        port: &mut P,
        channel: u8,
        block: u16,
    ) -> Result<(), Stop>
        requires { IsChannel channel }
        ensures { (clock : play.Clock) → Follows P.who P.log port.old port.new clock clock
            (puts_at channel block (files self.old buffers.now))
            (answered_by result (files self.new buffers.now)) }
    {
        let state = self.state(channel);
        let bytes = buffers.buffer(channel);
        store(alloc, port, channel, block, state.size, bytes)?;
        self.note_put(channel, block);
        Ok(())
    }

    /// Notes that the buffer is written.
    fn note_put(&mut self, channel: u8, block: u16)
        requires channel { IsChannel channel }
        requires blocks { block + blocks_of (channel_at channel self.old.states).size
            ≤ MOST_BLOCKS + 1 }
        ensures { files self.new [] ≡ record_put channel block (files self.old []) }
    {
        let state = self.state(channel);
        self.set(
            channel,
            ChannelState {
                next: block + u16::from(state.size.blocks()),
                waiting: Waiting::Nothing,
                unread: 0,
                ..state
            },
        );
    }

    /// Does UNLOCK: the monitor releases what the channel has locked. Errors 46, 9, and those of
    /// the monitor.
    pub fn unlock<P: Port>(
        &self,
        alloc: Global,
        buffers: &Buffers,
        port: &mut P,
        channel: Int,
    ) -> Result<(), Stop>
        ensures { (clock : play.Clock) → Follows P.who P.log port.old port.new clock clock
            (unlocks channel (files self.now buffers.now))
            (answered_by result (files self.now buffers.now)) }
    {
        let channel = self.open_channel(channel)?;
        ask_unlock(alloc, port, channel)
    }

    /// Returns the block, or the next one for block 0.
    fn block_or_next(&self, channel: u8, block: u16) -> u16
        requires { IsChannel channel }
        ensures { result ≡ block_or_next block channel (files self.now []) }
    {
        if block == 0 {
            self.state(channel).next
        } else {
            block
        }
    }
}

/// Returns the block that RECORD names; an error ends the statement.
fn record_named(number: Int) -> Result<u16, Stop>
    ensures { (files : Files) → answered_by result files
        ≡ Some (tested (record_named number) files) }
{
    match natural(number) {
        Some(block) => Ok(block),
        None => Err(Stop::Fault(Fault::new(ILLEGAL_BYTE_COUNT))),
    }
}
