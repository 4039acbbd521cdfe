//! Consecutive blocks of one file.

ghost use Rattle.std.specs.Prelude.{◌≡◌, ◌+◌, ◌<◌, ◌^◌};
ghost use Rattle.block_interlock.specs.Index.{nth_block};

use monitor_calls::FileName;

/// This many blocks of a file, from this one on.
#[derive(Clone, Copy)]
pub struct Run {
    pub name: FileName,
    pub block: u16,
    pub count: u8,
}

/// A block of a file.
#[derive(Clone, Copy)]
pub(crate) struct Held {
    pub(crate) name: FileName,
    pub(crate) block: u16,
}

impl Run {
    /// Returns the block at a place, counted from 0.
    pub(crate) fn nth(&self, place: u8) -> Held
        requires { self.now.block + place < 2 ^ 16 }
        ensures { result ≡ nth_block self.now place }
    {
        Held {
            name: self.name,
            block: self.block + u16::from(place),
        }
    }
}
