//! What LSET and RSET write, also from one field to another, and what fills a buffer.

ghost use Rattle.std.specs.Prelude.{◌≡◌, length};
ghost use Rattle.record_fields.specs.Buffers.{filled, fill_part, written_from};
ghost use Rattle.record_fields.specs.Parts.{LiesIn, part_of, with_part};
ghost use Rattle.record_fields.specs.Writing.{left_justified, right_justified, set_part, shifted};

use crate::parts::{Part, inside};

/// The side of a field at which a value is written.
#[derive(Clone, Copy)]
pub enum Side {
    /// The left side, for LSET.
    Left,
    /// The right side, for RSET.
    Right,
}

/// Writes the first bytes of a value, with spaces after a shorter one: the manual's LSET.
pub fn lset(target: &mut [u8], value: &[u8])
    ensures { target.new ≡ left_justified (length target.old) value.now }
{
    let kept = value.len().min(target.len());
    target[..kept].copy_from_slice(&value[..kept]);
    target[kept..].fill(b' ');
}

/// Writes the last bytes of a value, with spaces before a shorter one: the manual's RSET.
pub fn rset(target: &mut [u8], value: &[u8])
    ensures { target.new ≡ right_justified (length target.old) value.now }
{
    let kept = value.len().min(target.len());
    let spaces = target.len() - kept;
    target[..spaces].fill(b' ');
    target[spaces..].copy_from_slice(&value[value.len() - kept..]);
}

/// Writes the first of these bytes, with zeros after fewer ones.
pub fn fill(target: &mut [u8], bytes: &[u8])
    ensures { target.new ≡ filled bytes.now target.old }
{
    let kept = bytes.len().min(target.len());
    target[..kept].copy_from_slice(&bytes[..kept]);
    target[kept..].fill(0);
}

/// Writes these bytes from a place on; bytes past the end are dropped. The rest stays.
pub fn write_from(target: &mut [u8], place: usize, bytes: &[u8])
    ensures { target.new ≡ written_from place bytes.now target.old }
{
    let start = place.min(target.len());
    let kept = bytes.len().min(target.len() - start);
    target[start..start + kept].copy_from_slice(&bytes[..kept]);
}

/// Does LSET of a part. The rest of the buffer stays.
pub fn lset_part(buffer: &mut [u8], part: Part, value: &[u8])
    requires { LiesIn (length buffer.old) part }
    ensures { buffer.new ≡ with_part part (left_justified part.length value.now) buffer.old }
{
    let start = part.offset as usize;
    lset(&mut buffer[start..start + part.length as usize], value);
}

/// Does RSET of a part. The rest of the buffer stays.
pub fn rset_part(buffer: &mut [u8], part: Part, value: &[u8])
    requires { LiesIn (length buffer.old) part }
    ensures { buffer.new ≡ with_part part (right_justified part.length value.now) buffer.old }
{
    let start = part.offset as usize;
    rset(&mut buffer[start..start + part.length as usize], value);
}

/// Writes the first of these bytes into a part, with zeros after fewer ones. A part that is not in
/// the buffer is ignored.
pub fn fill_part(buffer: &mut [u8], part: Part, bytes: &[u8])
    ensures { buffer.new ≡ fill_part part bytes.now buffer.old }
{
    let start = part.offset as usize;
    let end = start + part.length as usize;
    if end <= buffer.len() {
        fill(&mut buffer[start..end], bytes);
    }
}

/// Does LSET or RSET of a part. A part that is not in the buffer is ignored.
pub fn set_part(buffer: &mut [u8], part: Part, value: &[u8], side: Side)
    ensures { buffer.new ≡ set_part side part value.now buffer.old }
{
    if part.offset as usize + part.length as usize > buffer.len() {
        return;
    }
    match side {
        Side::Left => lset_part(buffer, part, value),
        Side::Right => rset_part(buffer, part, value),
    }
}

/// Copies the bytes of one part to another, as LSET or RSET with these bytes as the value does. The
/// parts may overlap, and no copy of them is made.
pub fn shift_within(buffer: &mut [u8], from: Part, to: Part, side: Side)
    ensures { buffer.new ≡ shifted from to side buffer.old }
{
    if to.offset as usize + to.length as usize > buffer.len() {
        return;
    }
    let from = inside(from, buffer.len());
    match side {
        Side::Left => shift_left(buffer, from, to),
        Side::Right => shift_right(buffer, from, to),
    }
}

fn shift_left(buffer: &mut [u8], from: Part, to: Part)
    requires from { LiesIn (length buffer.old) from }
    requires to { LiesIn (length buffer.old) to }
    ensures { buffer.new ≡ with_part to
        (left_justified to.length (part_of from buffer.old)) buffer.old }
{
    let kept = from.length.min(to.length) as usize;
    let source = from.offset as usize;
    let target = to.offset as usize;
    buffer.copy_within(source..source + kept, target);
    buffer[target + kept..target + to.length as usize].fill(b' ');
}

fn shift_right(buffer: &mut [u8], from: Part, to: Part)
    requires from { LiesIn (length buffer.old) from }
    requires to { LiesIn (length buffer.old) to }
    ensures { buffer.new ≡ with_part to
        (right_justified to.length (part_of from buffer.old)) buffer.old }
{
    let kept = from.length.min(to.length) as usize;
    let spaces = to.length as usize - kept;
    let source = from.offset as usize + (from.length as usize - kept);
    let target = to.offset as usize;
    buffer.copy_within(source..source + kept, target + spaces);
    buffer[target..target + spaces].fill(b' ');
}
