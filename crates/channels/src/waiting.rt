//! Pending data of a channel, and how it is written.

ghost use Rattle.std.specs.Prelude.{◌≡◌, ◌+◌, ◌≤◌, false, [], take, OnOk};
ghost use Rattle.basic_values.specs.declared.limits.TheConstants.{MOST_BLOCKS};
ghost use Rattle.job_model.specs.Follow.{Follows, answered_by};
ghost use Rattle.job_model.specs.Play as play;
ghost use Rattle.record_fields.specs.Buffers.{buffer_of, IsChannel};
ghost use Rattle.record_fields.specs.Sizes.{blocks_of};
ghost use Rattle.channels.specs.declared.states.Waiting.TheVariants as waiting;
ghost use Rattle.channels.specs.Files.{channel_at};
ghost use Rattle.channels.specs.Waiting.{with_waiting, gathered_stored, stores_gathered};
ghost use Rattle.channels.specs.Waiting.{stores_window, settles, settles_due, is_state_due};
ghost use Rattle.channels.specs.Seen.{files};

use crate::channels::Channels;
use crate::states::{ChannelState, Waiting};
use crate::transfers::{store, store_block};
use basic_values::Stop;
use monitor_calls::Port;
use record_fields::Buffers;
use std::alloc::Global;

impl Channels {
    /// Writes the pending data of the channel.
    pub(crate) fn settle<P: Port>(
        &mut self,
        alloc: Global,
        buffers: &Buffers,
        port: &mut P,
        channel: u8,
    ) -> Result<(), Stop>
        requires { IsChannel channel }
        ensures follows { (clock : play.Clock) → Follows P.who P.log port.old port.new clock clock
            (settles channel (files self.old buffers.now))
            (answered_by result (files self.new buffers.now)) }
        ensures settled { OnOk result (is_state_due (channel_at channel self.new.states) ≡ false) }
    {
        match self.state(channel).waiting {
            Waiting::Nothing => Ok(()),
            Waiting::Bytes(count) => self.store_gathered(alloc, buffers, port, channel, count),
            Waiting::Window { block, dirty } => {
                if dirty {
                    self.store_window(alloc, buffers, port, channel, block)
                } else {
                    Ok(())
                }
            }
        }
    }

    /// Writes pending data if no byte can be collected with it: a whole record of bytes, or a
    /// changed window.
    pub(crate) fn settle_due<P: Port>(
        &mut self,
        alloc: Global,
        buffers: &Buffers,
        port: &mut P,
        channel: u8,
    ) -> Result<(), Stop>
        requires { IsChannel channel }
        ensures follows { (clock : play.Clock) → Follows P.who P.log port.old port.new clock clock
            (settles_due channel (files self.old buffers.now))
            (answered_by result (files self.new buffers.now)) }
        ensures settled { OnOk result (is_state_due (channel_at channel self.new.states) ≡ false) }
    {
        if self.state(channel).is_due() {
            self.settle(alloc, buffers, port, channel)
        } else {
            Ok(())
        }
    }

    fn store_gathered<P: Port>(
        &mut self,
        alloc: Global,
        buffers: &Buffers,
        port: &mut P,
        channel: u8,
        count: u16,
    ) -> Result<(), Stop>
        requires { IsChannel channel }
        ensures follows { (clock : play.Clock) → Follows P.who P.log port.old port.new clock clock
            (stores_gathered channel count (files self.old buffers.now))
            (answered_by result (files self.new buffers.now)) }
        ensures settled { OnOk result (is_state_due (channel_at channel self.new.states) ≡ false) }
    {
        let state = self.state(channel);
        let bytes = first_bytes(buffers, channel, count);
        store(alloc, port, channel, state.next, state.size, bytes)?;
        self.note_gathered_stored(channel);
        Ok(())
    }

    fn store_window<P: Port>(
        &mut self,
        alloc: Global,
        buffers: &Buffers,
        port: &mut P,
        channel: u8,
        block: u16,
    ) -> Result<(), Stop>
        requires { IsChannel channel }
        ensures follows { (clock : play.Clock) → Follows P.who P.log port.old port.new clock clock
            (stores_window channel block (files self.old buffers.now))
            (answered_by result (files self.new buffers.now)) }
        ensures settled { OnOk result (is_state_due (channel_at channel self.new.states) ≡ false) }
    {
        store_block(alloc, port, channel, block, buffers.buffer(channel))?;
        self.note_window(channel, block, false);
        Ok(())
    }

    /// Moves the channel to the block after the record of collected bytes.
    fn note_gathered_stored(&mut self, channel: u8)
        requires channel { IsChannel channel }
        requires behind { (channel_at channel self.old.states).next
            + blocks_of (channel_at channel self.old.states).size ≤ MOST_BLOCKS + 1 }
        ensures state { files self.new [] ≡ gathered_stored channel (files self.old []) }
        ensures settled { is_state_due (channel_at channel self.new.states) ≡ false }
    {
        let state = self.state(channel);
        self.set(
            channel,
            ChannelState {
                waiting: Waiting::Nothing,
                next: state.next + u16::from(state.size.blocks()),
                ..state
            },
        );
    }

    /// Notes that the block is the channel's window.
    pub(crate) fn note_window(&mut self, channel: u8, block: u16, dirty: bool)
        requires { IsChannel channel }
        ensures state { files self.new []
            ≡ with_waiting channel (waiting.Window block dirty) (files self.old []) }
        ensures due { is_state_due (channel_at channel self.new.states) ≡ dirty }
    {
        let state = self.state(channel);
        let waiting = Waiting::Window { block, dirty };
        self.set(channel, ChannelState { waiting, ..state });
    }
}

impl ChannelState {
    /// Returns whether the pending data has to be written before a byte is collected.
    fn is_due(&self) -> bool
        ensures { result ≡ is_state_due self.now }
    {
        match self.waiting {
            Waiting::Nothing => false,
            Waiting::Bytes(count) => count >= self.size.bytes(),
            Waiting::Window { dirty, .. } => dirty,
        }
    }
}

/// Returns this many bytes of the channel's buffer, from the first on.
fn first_bytes(buffers: &Buffers, channel: u8, count: u16) -> &[u8]
    requires { IsChannel channel }
    ensures { result.now ≡ take count (buffer_of channel buffers.entry.now) }
{
    let bytes = buffers.buffer(channel);
    &bytes[..(count as usize).min(bytes.len())]
}
