//! The state of a channel.

use record_fields::RecordSize;

/// Pending data: what has to be written before the channel is used otherwise.
#[derive(Clone, Copy)]
pub enum Waiting {
    Nothing,
    /// This many bytes that PRINT # collected in the buffer.
    Bytes(u16),
    /// A block of the file that is in the buffer for an array. It is written if it is dirty.
    Window { block: u16, dirty: bool },
}

/// A channel, open or not.
#[derive(Clone, Copy)]
pub struct ChannelState {
    pub open_now: bool,
    /// Whether it was opened for update, by MODE.
    pub update: bool,
    /// The size of its records, and so of its buffer.
    pub size: RecordSize,
    /// The block that a GET or PUT without RECORD means.
    pub next: u16,
    /// The bytes of the last GET.
    pub recount: u16,
    pub waiting: Waiting,
    /// The bytes that INPUT # read last.
    pub loaded: u16,
    /// How many of them, the last ones, no line has taken.
    pub unread: u16,
    /// The column of the next byte. The first column is 0.
    pub column: u32,
}

/// A channel that is not open.
pub(crate) const CLOSED: ChannelState = ChannelState {
    open_now: false,
    update: false,
    size: RecordSize::One,
    next: 1,
    recount: 0,
    waiting: Waiting::Nothing,
    loaded: 0,
    unread: 0,
    column: 0,
};
