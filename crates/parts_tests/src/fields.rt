//! Fields over the buffers of channels.

use crate::expects::expect_none;
use basic_values::{Int, Trouble};
use record_fields::{Buffers, Part, RecordSize, Side, layout, lset, rset, shift_within};
use std::alloc::Global;
use std::test::Fail;

/// The bytes of a buffer, the widths of three fields, and the offset and the length of each in
/// turn.
type Widths = (u16, [i16; 3], Option<[u16; 6]>);

static LAYOUTS: [Widths; 13] = [
    (512, [4, 6, 0], Some([0, 4, 4, 6, 10, 0])),
    (512, [512, 0, 0], Some([0, 512, 512, 0, 512, 0])),
    (512, [0, 0, 512], Some([0, 0, 0, 0, 0, 512])),
    (512, [512, 1, 0], None),
    (512, [4, -1, 0], None),
    (512, [32767, 32767, 2], None),
    (1024, [512, 1, 511], Some([0, 512, 512, 1, 513, 511])),
    (1024, [1024, 0, 1], None),
    (1024, [-1, 1024, 0], None),
    (1536, [1, 1535, 0], Some([0, 1, 1, 1535, 1536, 0])),
    (1536, [512, 512, 512], Some([0, 512, 512, 512, 1024, 512])),
    (1536, [512, 1024, 1], None),
    (1536, [32767, 32767, 2], None),
];

/// Returns the parts of these widths; none if they fail with 63.
fn parts_of(alloc: Global, bytes: u16, widths: [i16; 3]) -> Result<Option<Vec<Part>>, Fail> {
    let [first, second, third] = widths;
    let widths = [Int::new(first), Int::new(second), Int::new(third)];
    match layout(alloc, &widths, bytes) {
        Ok(parts) => Ok(Some(parts)),
        Err(Trouble::Refused(fault)) if fault.number() == 63 => Ok(None),
        Err(_) => Err("another answer")?,
    }
}

fn are_at(parts: &[Part], places: &[u16; 6]) -> bool {
    match parts {
        [first, second, third] => {
            [
                first.offset,
                first.length,
                second.offset,
                second.length,
                third.offset,
                third.length,
            ] == *places
        }
        _ => false,
    }
}

fn is_laid_out(alloc: Global, row: &Widths) -> Result<bool, Fail> {
    match (parts_of(alloc, row.0, row.1)?, row.2) {
        (Some(parts), Some(places)) => Ok(are_at(parts.as_slice(), &places)),
        (None, None) => Ok(true),
        _ => Ok(false),
    }
}

fn first_wrong_layout(alloc: Global) -> Result<Option<usize>, Fail> {
    for (place, row) in LAYOUTS.iter().enumerate() {
        if !is_laid_out(alloc, row)? {
            return Ok(Some(place));
        }
    }
    Ok(None)
}

#[test]
fn fields_stand_one_behind_the_other(rt: HostRuntime) -> Result<(), Fail> {
    expect_none(rt.alloc(), first_wrong_layout(rt.alloc())?)
}

/// A part from this byte on, of this length.
#[derive(Clone, Copy)]
struct At(u16, u16);

fn part(at: At) -> Part {
    Part {
        offset: at.0,
        length: at.1,
    }
}

/// A buffer of ten bytes, the part that is moved, its target, and the buffer after that.
type Move = (&'static [u8], At, At, Side, &'static [u8]);

static MOVES: [Move; 16] = [
    (
        b"ABCDEFGHIJ",
        At(0, 10),
        At(4, 6),
        Side::Left,
        b"ABCDABCDEF",
    ),
    (
        b"ABCDABCDEF",
        At(4, 6),
        At(0, 4),
        Side::Right,
        b"CDEFABCDEF",
    ),
    (b"ABCDEFGHIJ", At(0, 6), At(2, 6), Side::Left, b"ABABCDEFIJ"),
    (b"ABCDEFGHIJ", At(2, 6), At(0, 6), Side::Left, b"CDEFGHGHIJ"),
    (
        b"ABCDEFGHIJ",
        At(0, 6),
        At(2, 6),
        Side::Right,
        b"ABABCDEFIJ",
    ),
    (
        b"ABCDEFGHIJ",
        At(2, 6),
        At(0, 6),
        Side::Right,
        b"CDEFGHGHIJ",
    ),
    (b"ABCDEFGHIJ", At(0, 4), At(2, 8), Side::Left, b"ABABCD    "),
    (
        b"ABCDEFGHIJ",
        At(0, 4),
        At(2, 8),
        Side::Right,
        b"AB    ABCD",
    ),
    (b"ABCDEFGHIJ", At(4, 6), At(0, 8), Side::Left, b"EFGHIJ  IJ"),
    (
        b"ABCDEFGHIJ",
        At(4, 6),
        At(0, 8),
        Side::Right,
        b"  EFGHIJIJ",
    ),
    (
        b"ABCDEFGHIJ",
        At(0, 10),
        At(0, 10),
        Side::Left,
        b"ABCDEFGHIJ",
    ),
    (b"ABCDEFGHIJ", At(3, 0), At(1, 3), Side::Left, b"A   EFGHIJ"),
    (
        b"ABCDEFGHIJ",
        At(3, 0),
        At(1, 3),
        Side::Right,
        b"A   EFGHIJ",
    ),
    (
        b"ABCDEFGHIJ",
        At(0, 10),
        At(5, 0),
        Side::Right,
        b"ABCDEFGHIJ",
    ),
    (b"ABCDEFGHIJ", At(8, 9), At(0, 4), Side::Left, b"IJ  EFGHIJ"),
    (b"ABCDEFGHIJ", At(0, 4), At(8, 3), Side::Left, b"ABCDEFGHIJ"),
];

/// Returns the place of the first row that leaves another buffer.
fn first_wrong_move(alloc: Global) -> Result<Option<usize>, Fail> {
    for (place, row) in MOVES.iter().enumerate() {
        if !is_moved(alloc, row)? {
            return Ok(Some(place));
        }
    }
    Ok(None)
}

fn is_moved(alloc: Global, row: &Move) -> Result<bool, Fail> {
    let (before, from, to, side, behind) = *row;
    let mut buffer = Vec::new(alloc);
    buffer.extend_from_slice(before)?;
    shift_within(buffer.as_mut_slice(), part(from), part(to), side);
    Ok(buffer.as_slice() == behind)
}

#[test]
fn a_field_is_moved_onto_one_that_it_meets(rt: HostRuntime) -> Result<(), Fail> {
    expect_none(rt.alloc(), first_wrong_move(rt.alloc())?)
}

/// A value, and a field of four bytes after LSET and after RSET.
type Value = (&'static [u8], &'static [u8], &'static [u8]);

static VALUES: [Value; 4] = [
    (b"ABCDEF", b"ABCD", b"CDEF"),
    (b"ABCD", b"ABCD", b"ABCD"),
    (b"AB", b"AB  ", b"  AB"),
    (b"", b"    ", b"    "),
];

fn is_justified(row: &Value) -> bool {
    let (value, left, right) = *row;
    let mut field = *b"....";
    lset(&mut field, value);
    let is_left = field.as_slice() == left;
    rset(&mut field, value);
    is_left && field.as_slice() == right
}

#[test]
fn a_value_is_cut_or_padded(rt: HostRuntime) -> Result<(), Fail> {
    expect_none(rt.alloc(), VALUES.iter().position(|row| !is_justified(row)))
}

/// What is done to the buffer of channel 3.
#[derive(Clone, Copy)]
enum Act {
    Size(RecordSize),
    Shrink,
    Fill(&'static [u8]),
    /// Bytes from a place on.
    Write(u16, &'static [u8]),
    /// A part with zeros after the bytes.
    Part(At, &'static [u8]),
    Lset(At, &'static [u8]),
    Rset(At, &'static [u8]),
    /// A part that is moved to another by LSET.
    Shift(At, At),
}

/// A step, how many bytes the buffer has then, and a part of it.
type Row = (Act, usize, At, &'static [u8]);

static ROWS: [Row; 20] = [
    (
        Act::Lset(At(0, 10), b"ABCDEFGHIJKL"),
        512,
        At(0, 12),
        b"ABCDEFGHIJ\0\0",
    ),
    (
        Act::Rset(At(0, 10), b"ABCDEFGHIJKL"),
        512,
        At(0, 12),
        b"CDEFGHIJKL\0\0",
    ),
    (Act::Rset(At(0, 4), b"X"), 512, At(0, 10), b"   XGHIJKL"),
    (
        Act::Shift(At(0, 10), At(4, 6)),
        512,
        At(0, 12),
        b"   X   XGH\0\0",
    ),
    (Act::Lset(At(510, 3), b"XYZ"), 512, At(509, 9), b"\0\0\0"),
    (Act::Size(RecordSize::Two), 1024, At(0, 4), b"\0\0\0\0"),
    (Act::Lset(At(510, 3), b"XYZ"), 1024, At(509, 5), b"\0XYZ\0"),
    (
        Act::Part(At(508, 4), b"PQRSTU"),
        1024,
        At(507, 7),
        b"\0PQRSZ\0",
    ),
    (Act::Part(At(511, 3), b"T"), 1024, At(507, 7), b"\0PQRT\0\0"),
    (
        Act::Part(At(511, 514), b"U"),
        1024,
        At(507, 7),
        b"\0PQRT\0\0",
    ),
    (Act::Write(1022, b"KLMN"), 1024, At(1021, 9), b"\0KL"),
    (Act::Write(1024, b"KLMN"), 1024, At(1021, 9), b"\0KL"),
    (Act::Write(9999, b"K"), 1024, At(1021, 9), b"\0KL"),
    (
        Act::Shift(At(508, 4), At(1019, 5)),
        1024,
        At(1018, 9),
        b"\0PQRT ",
    ),
    (Act::Fill(b"AB"), 1024, At(0, 4), b"AB\0\0"),
    (
        Act::Lset(At(1020, 4), b"WXYZ"),
        1024,
        At(1018, 9),
        b"\0\0WXYZ",
    ),
    (
        Act::Size(RecordSize::Three),
        1536,
        At(1018, 6),
        b"\0\0\0\0\0\0",
    ),
    (
        Act::Rset(At(1532, 4), b"AB"),
        1536,
        At(1530, 9),
        b"\0\0  AB",
    ),
    (Act::Lset(At(0, 1), b"A"), 1536, At(0, 2), b"A\0"),
    (Act::Shrink, 512, At(0, 2), b"\0\0"),
];

/// Does the step; a part that a call cannot take is left out.
fn does(alloc: Global, buffers: &mut Buffers, act: Act) -> Result<(), Fail> {
    match act {
        Act::Size(size) => buffers.set_size(alloc, 3, size)?,
        Act::Shrink => buffers.shrink(3),
        Act::Fill(bytes) => buffers.fill(3, bytes),
        Act::Write(place, bytes) => buffers.write_from(3, place, bytes),
        Act::Part(at, bytes) => buffers.fill_part(3, part(at), bytes),
        Act::Lset(at, value) => buffers.set_part(3, part(at), value, Side::Left),
        Act::Rset(at, value) => buffers.set_part(3, part(at), value, Side::Right),
        Act::Shift(from, to) => buffers.shift(3, part(from), part(to), Side::Left),
    }
    Ok(())
}

/// Returns the place of the first row after which the buffer, or another one, is not as it says.
fn first_wrong_act(alloc: Global) -> Result<Option<usize>, Fail> {
    let mut buffers = Buffers::new(alloc)?;
    first_shown_wrong(alloc, &mut buffers)
}

fn first_shown_wrong(alloc: Global, buffers: &mut Buffers) -> Result<Option<usize>, Fail> {
    for (place, row) in ROWS.iter().enumerate() {
        does(alloc, buffers, row.0)?;
        if !shows(buffers, row) {
            return Ok(Some(place));
        }
    }
    Ok(None)
}

fn shows(buffers: &Buffers, row: &Row) -> bool {
    let all = Part {
        offset: 0,
        length: 2000,
    };
    let others = buffers.part(2, all).len() + buffers.part(13, all).len();
    buffers.buffer(3).len() == row.1 && buffers.part(3, part(row.2)) == row.3 && others == 512
}

#[test]
fn a_buffer_has_the_size_of_its_records(rt: HostRuntime) -> Result<(), Fail> {
    expect_none(rt.alloc(), first_wrong_act(rt.alloc())?)
}
