//! The channels of a job, and which of them a number means.

ghost use Rattle.std.specs.Prelude.{◌≡◌, ◌-◌, Some, IfOk, slice_set, replicate};
ghost use Rattle.job_model.specs.Follow.{answered_by};
ghost use Rattle.record_fields.specs.Buffers.{IsChannel};
ghost use Rattle.channels.specs.Files.{Files, tested, closed_channel, channel_at, channel_named};
ghost use Rattle.channels.specs.Files.{channel_to_open, channel_opened, channel_blocks};
ghost use Rattle.channels.specs.Files.{channel_column, shown_count};
ghost use Rattle.channels.specs.Seen.{states_of, recount_of};

use crate::states::{CLOSED, ChannelState};
use basic_values::errors::{ALREADY_OPEN, ILLEGAL_CHANNEL, NOT_OPEN};
use basic_values::limits::LAST_CHANNEL;
use basic_values::{Fault, Int, Stop};
use record_fields::{BUFFER_COUNT, natural};
use terminal_line::MOST_COLUMN;

/// The channels of a job, numbered from 1 to 12, and its RECOUNT.
#[derive(Drop)]
pub struct Channels {
    states: [ChannelState; BUFFER_COUNT],
    pub(crate) recount: u16,
}

impl Channels {
    /// Returns channels of which none is open.
    pub fn new() -> Channels
        ensures states { states_of result ≡ replicate BUFFER_COUNT closed_channel }
        ensures recount { recount_of result ≡ 0 }
    {
        Channels {
            states: [CLOSED; BUFFER_COUNT],
            recount: 0,
        }
    }

    /// Returns the state of a channel.
    pub fn state(&self, channel: u8) -> ChannelState
        requires { IsChannel channel }
        ensures { result ≡ channel_at channel (states_of self.now) }
    {
        self.states[(channel - 1) as usize]
    }

    /// Sets the state of a channel.
    pub(crate) fn set(&mut self, channel: u8, state: ChannelState)
        requires { IsChannel channel }
        ensures states { self.new.states ≡ slice_set self.old.states (channel - 1) state }
        ensures recount { self.new.recount ≡ self.old.recount }
    {
        self.states[(channel - 1) as usize] = state;
    }

    /// Returns the job's RECOUNT: how many bytes the last GET read.
    pub fn recount(&self) -> Int
        ensures { result ≡ shown_count (recount_of self.now) }
    {
        shown_count(u32::from(self.recount))
    }

    /// Returns the number of blocks of a channel's records; 1 if it is not open.
    pub fn blocks(&self, channel: u8) -> u8
        requires { IsChannel channel }
        ensures { result ≡ channel_blocks channel (states_of self.now) }
    {
        let state = self.state(channel);
        if state.open_now {
            state.size.blocks()
        } else {
            1
        }
    }

    /// Returns the channel with this number, for an OPEN. Error 46: it is not from 1 to 12; 7: it
    /// is open.
    pub fn to_open(&self, channel: Int) -> Result<u8, Fault>
        ensures which { result ≡ channel_to_open channel (states_of self.now) }
        ensures channel { IfOk result IsChannel }
    {
        let channel = channel_named(channel)?;
        if self.state(channel).open_now {
            Err(Fault::new(ALREADY_OPEN))
        } else {
            Ok(channel)
        }
    }

    /// Returns the channel with this number, which must be open. Error 46: it is not from 1 to 12;
    /// 9: it is not open.
    pub fn opened(&self, channel: Int) -> Result<u8, Fault>
        ensures which { result ≡ channel_opened channel (states_of self.now) }
        ensures channel { IfOk result IsChannel }
    {
        let channel = channel_named(channel)?;
        if self.state(channel).open_now {
            Ok(channel)
        } else {
            Err(Fault::new(NOT_OPEN))
        }
    }

    /// Returns the column of a channel: the manual's POS. Errors 46 and 9 as for `opened`.
    pub fn column(&self, channel: Int) -> Result<Int, Fault>
        ensures { result ≡ channel_column channel (states_of self.now) }
    {
        let channel = self.opened(channel)?;
        Ok(shown_count(self.state(channel).column))
    }

    /// Returns the channel with this number, which must be open; an error ends the statement.
    pub(crate) fn open_channel(&self, channel: Int) -> Result<u8, Stop>
        ensures judged { (files : Files) → answered_by result files
            ≡ Some (tested (channel_opened channel self.now.states) files) }
        ensures channel { IfOk result IsChannel }
    {
        match self.opened(channel) {
            Ok(channel) => Ok(channel),
            Err(fault) => Err(Stop::Fault(fault)),
        }
    }
}

/// Returns the channel with this number, open or not. Error 46: it is not from 1 to 12.
pub(crate) fn channel_named(number: Int) -> Result<u8, Fault>
    ensures which { result ≡ channel_named number }
    ensures channel { IfOk result IsChannel }
{
    match natural(number) {
        Some(number) if (1..=u16::from(LAST_CHANNEL)).contains(&number) => Ok(number as u8),
        _ => Err(Fault::new(ILLEGAL_CHANNEL)),
    }
}

/// Returns a count as a program sees it.
fn shown_count(count: u32) -> Int
    ensures { result ≡ shown_count count }
{
    Int::new(count.min(MOST_COLUMN) as i16)
}
