//! The size of a channel's records.

ghost use Rattle.std.specs.Prelude.{◌≡◌, ◌*◌, ◌≤◌};
ghost use Rattle.basic_values.specs.declared.limits.TheConstants.{MOST_RECORD_BLOCKS};
ghost use Rattle.record_fields.specs.Sizes.{blocks_of, bytes_of, is_single};
ghost use Rattle.record_fields.specs.declared.buffers.TheConstants.{BUFFER_BYTES};

use crate::buffers::BUFFER_BYTES;

/// The number of blocks of a channel's records.
#[derive(Clone, Copy)]
pub enum RecordSize {
    One,
    Two,
    Three,
}

impl RecordSize {
    /// Returns the blocks of a record.
    pub fn blocks(self) -> u8
        ensures is { result ≡ blocks_of self }
        ensures least { 1 ≤ result }
        ensures most { result ≤ MOST_RECORD_BLOCKS }
    {
        match self {
            RecordSize::One => 1,
            RecordSize::Two => 2,
            RecordSize::Three => 3,
        }
    }

    /// Returns whether a record is one block.
    pub fn is_single(self) -> bool
        ensures { result ≡ is_single self }
    {
        matches!(self, RecordSize::One)
    }

    /// Returns the bytes of a record.
    pub fn bytes(self) -> u16
        ensures is { result ≡ bytes_of self }
        ensures least { BUFFER_BYTES ≤ result }
        ensures most { result ≤ BUFFER_BYTES * MOST_RECORD_BLOCKS }
    {
        BUFFER_BYTES as u16 * u16::from(self.blocks())
    }
}
