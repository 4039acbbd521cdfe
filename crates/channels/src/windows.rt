//! The window of arrays in files.

ghost use Rattle.std.specs.Prelude.{◌≡◌, [], Err};
ghost use Rattle.std.specs.Option.{option_map};
ghost use Rattle.job_model.specs.Follow.{Follows, answered_by};
ghost use Rattle.job_model.specs.Play as play;
ghost use Rattle.record_fields.specs.Buffers.{IsChannel};
ghost use Rattle.channels.specs.Windows.{with_window, framed, reads_window, is_window, with_use};
ghost use Rattle.channels.specs.Windows.{changes_window, opens_window};
ghost use Rattle.channels.specs.Seen.{files};

use crate::channels::Channels;
use crate::states::{ChannelState, Waiting};
use crate::transfers::ask_block;
use basic_values::Stop;
use basic_values::errors::END_OF_FILE;
use monitor_calls::Port;
use record_fields::Buffers;
use std::alloc::Global;

impl Channels {
    /// Reads a block into the buffer as the channel's window, after pending data was written. The
    /// channel is open, with records of one block. For writing, a block past the end of the file is
    /// a window of zeros, and the window is dirty.
    pub fn window<P: Port>(
        &mut self,
        alloc: Global,
        buffers: &mut Buffers,
        port: &mut P,
        channel: u8,
        block: u16,
        writing: bool,
    ) -> Result<(), Stop>
        requires { IsChannel channel }
        ensures { (clock : play.Clock) → Follows P.who P.log port.old port.new clock clock
            (opens_window channel block writing (files self.old buffers.old))
            (answered_by result (files self.new buffers.new)) }
    {
        if self.state(channel).is_window(block) {
            self.note_use(channel, block, writing);
            return Ok(());
        }
        self.change_window(alloc, buffers, port, channel, block, writing)
    }

    fn change_window<P: Port>(
        &mut self,
        alloc: Global,
        buffers: &mut Buffers,
        port: &mut P,
        channel: u8,
        block: u16,
        writing: bool,
    ) -> Result<(), Stop>
        requires { IsChannel channel }
        ensures { (clock : play.Clock) → Follows P.who P.log port.old port.new clock clock
            (changes_window channel block writing (files self.old buffers.old))
            (answered_by result (files self.new buffers.new)) }
    {
        self.settle(alloc, buffers, port, channel)?;
        self.read_window(alloc, buffers, port, channel, block, writing)
    }

    fn read_window<P: Port>(
        &mut self,
        alloc: Global,
        buffers: &mut Buffers,
        port: &mut P,
        channel: u8,
        block: u16,
        writing: bool,
    ) -> Result<(), Stop>
        requires { IsChannel channel }
        ensures { (clock : play.Clock) → Follows P.who P.log port.old port.new clock clock
            (reads_window channel block writing (files self.old buffers.old))
            (answered_by result (files self.new buffers.new)) }
    {
        match ask_block(alloc, port, channel, block) {
            Ok(page) => {
                self.keep_window(buffers, channel, block, writing, page.as_bytes());
                Ok(())
            }
            Err(stop) => self.zeros_at_end(buffers, channel, block, writing, stop),
        }
    }

    /// Handles a failed read: for writing, a block past the end of the file is a window of zeros.
    fn zeros_at_end(
        &mut self,
        buffers: &mut Buffers,
        channel: u8,
        block: u16,
        writing: bool,
        stop: Stop,
    ) -> Result<(), Stop>
        requires { IsChannel channel }
        ensures { option_map (framed channel block writing)
            (answered_by (Err stop) (files self.old buffers.old))
            ≡ answered_by result (files self.new buffers.new) }
    {
        match stop {
            Stop::Fault(fault) if writing && fault.number() == END_OF_FILE => {
                self.keep_window(buffers, channel, block, true, &[]);
                Ok(())
            }
            other => Err(other),
        }
    }

    /// Puts a page into the buffer as the window.
    fn keep_window(
        &mut self,
        buffers: &mut Buffers,
        channel: u8,
        block: u16,
        dirty: bool,
        page: &[u8],
    )
        requires { IsChannel channel }
        ensures { files self.new buffers.new
            ≡ with_window channel block dirty page.now (files self.old buffers.old) }
    {
        buffers.fill(channel, page);
        let state = self.state(channel);
        let waiting = Waiting::Window { block, dirty };
        self.set(
            channel,
            ChannelState {
                waiting,
                unread: 0,
                ..state
            },
        );
    }

    /// Notes that the window is dirty, if it is written to.
    fn note_use(&mut self, channel: u8, block: u16, writing: bool)
        requires { IsChannel channel }
        ensures { files self.new [] ≡ with_use channel block writing (files self.old []) }
    {
        if writing {
            self.note_window(channel, block, true);
        }
    }
}

impl ChannelState {
    /// Returns whether the block is the channel's window.
    fn is_window(&self, block: u16) -> bool
        ensures { result ≡ is_window block self.now.waiting }
    {
        match self.waiting {
            Waiting::Window { block: other, .. } => other == block,
            Waiting::Nothing | Waiting::Bytes(_) => false,
        }
    }
}
