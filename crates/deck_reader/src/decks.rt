//! Decks, and a file of a deck while its content is read.

ghost use Rattle.std.specs.Prelude.{◌≤◌, ◌*◌, length};
ghost use Rattle.basic_values.specs.declared.limits.TheConstants.{BLOCK_BYTES};

use basic_values::KeyLine;
use monitor_calls::{FileName, TerminalName, Volume};

/// A terminal, and the keys that are pressed at it, line by line.
#[derive(Drop)]
pub struct Terminal {
    pub name: TerminalName,
    pub keys: Vec<KeyLine>,
}

/// The volume of a run, and its terminals in their order.
#[derive(Drop)]
pub struct Deck {
    pub volume: Volume,
    pub terminals: Vec<Terminal>,
}

/// A file that may get more content.
#[derive(Drop)]
pub(crate) struct OpenFile {
    pub(crate) name: FileName,
    pub(crate) code: u8,
    pub(crate) blocks: u16,
    /// The bytes that its lines gave so far.
    pub(crate) content: Vec<u8>,
    ghost fits: { length content.items ≤ BLOCK_BYTES * blocks },
}
