//! Memory to the last byte.

use crate::expects::expect_none;
use crate::memory::{Row, Step, Told, expect_rows, first_wrong};
use std::alloc::Global;
use std::test::Fail;

const X: u8 = b'X';

/// Seven strings of 32,767 bytes and one of 32,759 fill the memory. A string that is lent takes
/// none.
static TEXTS: [Row; 14] = [
    (Step::SetText(b'A', X, 32767), Told::Done),
    (Step::SetText(b'B', X, 32767), Told::Done),
    (Step::SetText(b'C', X, 32767), Told::Done),
    (Step::SetText(b'D', X, 32767), Told::Done),
    (Step::SetText(b'E', X, 32767), Told::Done),
    (Step::SetText(b'F', X, 32767), Told::Done),
    (Step::SetText(b'G', X, 32767), Told::Done),
    (Step::SetText(b'H', X, 32760), Told::Full),
    (Step::SetText(b'H', X, 32759), Told::Done),
    (Step::SetNumber(b'A', 1), Told::Full),
    (Step::EnterText(b'H'), Told::Full),
    (Step::Bind(b'I'), Told::Full),
    (Step::Bind(b'A'), Told::Done),
    (Step::SetText(b'I', X, 32765), Told::Done),
];

#[test]
fn texts_fill_the_room(rt: HostRuntime) -> Result<(), Fail> {
    expect_rows(rt.alloc(), &TEXTS)
}

/// The bounds of an array, and whether there is space for it.
static ARRAYS: [(u16, Option<u16>, Told); 6] = [
    (255, Some(511), Told::Done),
    (255, Some(512), Told::Full),
    (65535, Some(1), Told::Done),
    (65535, Some(2), Told::Full),
    (65535, Some(65535), Told::Full),
    (65535, None, Told::Done),
];

/// Returns the first row with another answer, for an array in the place of the first.
fn first_wrong_array(alloc: Global) -> Result<Option<usize>, Fail> {
    for (place, (first, second, told)) in ARRAYS.iter().enumerate() {
        let step = Step::Dim(b'A', *first, *second);
        if first_wrong(alloc, &[(step, *told), (step, *told)])?.is_some() {
            return Ok(Some(place));
        }
    }
    Ok(None)
}

#[test]
fn arrays_fill_the_room(rt: HostRuntime) -> Result<(), Fail> {
    expect_none(rt.alloc(), first_wrong_array(rt.alloc())?)
}

/// The first row leaves 65,536 bytes.
static ELEMENTS: [Row; 10] = [
    (Step::Dim(b'A', 32767, Some(2)), Told::Done),
    (Step::SetTextAt(b'T', 0, None, X, 32767), Told::Done),
    (Step::SetTextAt(b'T', 1, None, X, 32748), Told::Full),
    (Step::SetTextAt(b'T', 1, None, X, 32747), Told::Done),
    (Step::SetNumber(b'B', 1), Told::Full),
    (Step::SetNumberAt(b'A', 1, Some(1), 1), Told::Done),
    (Step::SetTextAt(b'T', 1, None, X, 32726), Told::Done),
    (Step::SetNumberAt(b'B', 1, None, 1), Told::Full),
    (Step::SetTextAt(b'T', 1, None, X, 32725), Told::Done),
    (Step::SetNumberAt(b'B', 1, None, 1), Told::Done),
];

#[test]
fn elements_fill_the_room(rt: HostRuntime) -> Result<(), Fail> {
    expect_rows(rt.alloc(), &ELEMENTS)
}

/// The first row leaves 65,536 bytes.
static PARAMETERS: [Row; 12] = [
    (Step::Dim(b'A', 32767, Some(2)), Told::Done),
    (Step::SetText(b'Z', X, 32767), Told::Done),
    (Step::SetTextAt(b'T', 0, None, X, 32741), Told::Done),
    (Step::EnterTextTwice(b'Z'), Told::Done),
    (Step::SetText(b'Z', X, 3), Told::Full),
    (Step::SetText(b'Z', X, 2), Told::Done),
    (Step::SetNumber(b'N', 1), Told::Full),
    (Step::Leave, Told::Done),
    (Step::SetNumber(b'N', 1), Told::Done),
    (Step::Enter(b"NM"), Told::Full),
    (Step::Number(b'N'), Told::Is(1)),
    (Step::Enter(b"N"), Told::Done),
];

#[test]
fn parameters_kept_aside_fill_the_room(rt: HostRuntime) -> Result<(), Fail> {
    expect_rows(rt.alloc(), &PARAMETERS)
}
