//! The buffers of a job's channels.

ghost use Rattle.std.specs.Prelude.{◌≡◌, ◌*◌, ◌-◌, ◌≤◌, length, replicate, IfOk, OnOk, OnErr};
ghost use Rattle.basic_values.specs.declared.limits.TheConstants.{MOST_RECORD_BLOCKS};
ghost use Rattle.record_fields.specs.declared.sizes.RecordSize.TheVariants.{One};
ghost use Rattle.record_fields.specs.Buffers.{blank, buffer_of, filled, fill_part, with_buffer};
ghost use Rattle.record_fields.specs.Buffers.{written_from, IsChannel};
ghost use Rattle.record_fields.specs.Parts.{part_of};
ghost use Rattle.record_fields.specs.Writing.{set_part, shifted};

use crate::parts::{Part, cut};
use crate::sizes::RecordSize;
use crate::writing::{Side, fill, fill_part, set_part, shift_within, write_from};
use basic_values::NoMemory;
use basic_values::limits::{BLOCK_BYTES, LAST_CHANNEL};
use std::alloc::Global;
use std::marker::Model;

/// The number of channels that have a buffer. They are numbered from 1.
pub const BUFFER_COUNT: usize = LAST_CHANNEL as usize;

/// The bytes of a buffer for records of one block, and of a block of a file.
pub const BUFFER_BYTES: usize = BLOCK_BYTES;

/// The buffer of one channel: from one block to as many blocks as a record can have.
#[derive(Drop)]
struct Buffer {
    bytes: Vec<u8>,
}

impl Model for Buffer {
    ghost use Rattle.std.specs.Prelude.{List, ℕ};
    ghost use Rattle.record_fields.specs.SeenBuffers.{IsBuffer};

    ghost Value = { List ℕ };

    ghost view = { λ buffer. buffer.bytes.items };

    ghost invariant = { λ buffer. IsBuffer buffer.bytes.items };
}

impl Buffer {
    /// Returns a buffer of zeros for records of this size.
    fn new(alloc: Global, size: RecordSize) -> Result<Buffer, NoMemory>
        ensures { IfOk result (λ buffer. buffer ≡ blank size) }
    {
        let bytes = vec![in alloc; 0; size.bytes() as usize]?;
        Ok(Buffer { bytes })
    }

    /// Returns its bytes.
    fn as_bytes(&self) -> &[u8]
        ensures bytes { result.now ≡ self.now }
        ensures least { BUFFER_BYTES ≤ length self.now }
        ensures most { length self.now ≤ BUFFER_BYTES * MOST_RECORD_BLOCKS }
    {
        self.bytes.as_slice()
    }

    /// Makes it one block of zeros.
    fn shrink(&mut self)
        ensures { self.new ≡ blank One }
    {
        self.bytes.truncate(BUFFER_BYTES);
        self.bytes.fill(0);
    }

    /// Writes these bytes at the beginning, with zeros after them.
    fn fill(&mut self, bytes: &[u8])
        ensures { self.new ≡ filled bytes.now self.old }
    {
        fill(self.bytes.as_mut_slice(), bytes);
    }

    /// Writes these bytes from a place on; bytes past the end are dropped.
    fn write_from(&mut self, place: u16, bytes: &[u8])
        ensures { self.new ≡ written_from place bytes.now self.old }
    {
        write_from(self.bytes.as_mut_slice(), place as usize, bytes);
    }

    /// Does LSET or RSET of a part.
    fn set_part(&mut self, part: Part, value: &[u8], side: Side)
        ensures { self.new ≡ set_part side part value.now self.old }
    {
        set_part(self.bytes.as_mut_slice(), part, value, side);
    }

    /// Copies one part to another, as LSET or RSET does.
    fn shift(&mut self, from: Part, to: Part, side: Side)
        ensures { self.new ≡ shifted from to side self.old }
    {
        shift_within(self.bytes.as_mut_slice(), from, to, side);
    }

    /// Fills a part with these bytes, and zeros after them.
    fn fill_part(&mut self, part: Part, bytes: &[u8])
        ensures { self.new ≡ fill_part part bytes.now self.old }
    {
        fill_part(self.bytes.as_mut_slice(), part, bytes);
    }
}

/// A buffer for each of the twelve channels, with 512 bytes for each block of its records.
#[derive(Drop)]
pub struct Buffers {
    buffers: Vec<Buffer>,
}

impl Model for Buffers {
    ghost use Rattle.std.specs.Prelude.{List, ℕ, ◌≡◌, vec_len};
    ghost use Rattle.record_fields.specs.declared.buffers.TheConstants.{BUFFER_COUNT};

    ghost Value = { List (List ℕ) };

    ghost view = { λ buffers. buffers.buffers.items };

    ghost invariant = { λ buffers. vec_len buffers.buffers ≡ BUFFER_COUNT };
}

impl Buffers {
    /// Returns buffers of one block of zeros.
    pub fn new(alloc: Global) -> Result<Buffers, NoMemory>
        ensures { IfOk result (λ buffers. buffers ≡ replicate BUFFER_COUNT (blank One)) }
    {
        let mut buffers = Vec::new(alloc);
        for made in 0..BUFFER_COUNT {
            buffers.push(Buffer::new(alloc, RecordSize::One)?)?;
        }
        Ok(Buffers { buffers })
    }

    /// Returns the buffer of a channel.
    pub fn buffer(&self, channel: u8) -> &[u8]
        requires { IsChannel channel }
        ensures bytes { result.now ≡ buffer_of channel self.now }
        ensures least { BUFFER_BYTES ≤ length result.now }
        ensures most { length result.now ≤ BUFFER_BYTES * MOST_RECORD_BLOCKS }
    {
        self.buffers[(channel - 1) as usize].as_bytes()
    }

    /// Makes the channel's buffer one of zeros, for records of this size. If memory runs out, the
    /// buffer stays.
    pub fn set_size(&mut self, alloc: Global, channel: u8, size: RecordSize) -> Result<(), NoMemory>
        requires { IsChannel channel }
        ensures ok { OnOk result (self.new ≡ with_buffer channel (blank size) self.old) }
        ensures err { OnErr result (self.new ≡ self.old) }
    {
        let buffer = Buffer::new(alloc, size)?;
        self.buffers[(channel - 1) as usize] = buffer;
        Ok(())
    }

    /// Makes the channel's buffer one block of zeros. It takes no memory.
    pub fn shrink(&mut self, channel: u8)
        requires { IsChannel channel }
        ensures { self.new ≡ with_buffer channel (blank One) self.old }
    {
        self.buffers[(channel - 1) as usize].shrink();
    }

    /// Fills the channel's buffer with these bytes, and zeros after them.
    pub fn fill(&mut self, channel: u8, bytes: &[u8])
        requires { IsChannel channel }
        ensures { self.new
            ≡ with_buffer channel (filled bytes.now (buffer_of channel self.old)) self.old }
    {
        self.buffers[(channel - 1) as usize].fill(bytes);
    }

    /// Writes these bytes into the channel's buffer, from a place on; bytes past its end are
    /// dropped.
    pub fn write_from(&mut self, channel: u8, place: u16, bytes: &[u8])
        requires { IsChannel channel }
        ensures { self.new ≡ with_buffer channel
            (written_from place bytes.now (buffer_of channel self.old)) self.old }
    {
        self.buffers[(channel - 1) as usize].write_from(place, bytes);
    }

    /// Returns the bytes of a part of the channel's buffer, as far as they exist.
    pub fn part(&self, channel: u8, part: Part) -> &[u8]
        ensures { result.now ≡ part_of part (buffer_of channel self.entry.now) }
    {
        match self.buffers.get(index(channel)) {
            Some(buffer) => cut(buffer.as_bytes(), part),
            None => &[],
        }
    }

    /// Fills a part of the channel's buffer with these bytes, and zeros after them. A part that is
    /// not in the buffer is ignored.
    pub fn fill_part(&mut self, channel: u8, part: Part, bytes: &[u8])
        ensures { self.new ≡ with_buffer channel
            (fill_part part bytes.now (buffer_of channel self.old)) self.old }
    {
        let index = index(channel);
        if index < self.buffers.len() {
            self.buffers[index].fill_part(part, bytes);
        }
    }

    /// Does LSET or RSET of a part of the channel's buffer. A part that is not in the buffer is
    /// ignored.
    pub fn set_part(&mut self, channel: u8, part: Part, value: &[u8], side: Side)
        ensures { self.new ≡ with_buffer channel
            (set_part side part value.now (buffer_of channel self.old)) self.old }
    {
        let index = index(channel);
        if index < self.buffers.len() {
            self.buffers[index].set_part(part, value, side);
        }
    }

    /// Does LSET or RSET of a part of the channel's buffer, with another part of it as the value.
    /// It takes no memory, and the parts may overlap.
    pub fn shift(&mut self, channel: u8, from: Part, to: Part, side: Side)
        ensures { self.new
            ≡ with_buffer channel (shifted from to side (buffer_of channel self.old)) self.old }
    {
        let index = index(channel);
        if index < self.buffers.len() {
            self.buffers[index].shift(from, to, side);
        }
    }
}

/// Returns the index of a channel's buffer in the list.
fn index(channel: u8) -> usize
    ensures { result ≡ channel - 1 }
{
    channel.saturating_sub(1) as usize
}
