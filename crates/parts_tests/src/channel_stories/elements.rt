//! Elements of virtual arrays: their places, the requests for them, and their values.

use crate::channel_stories::jobs::{Job, OPEN_1, Step, expect_stories};
use crate::channel_stories::report::Report;
use crate::channel_stories::words::Words;
use basic_tree::Name;
use basic_values::{Int, Stop, Text};
use std::test::Fail;
use virtual_arrays::{Element, VirtualShape, read, write};

/// Returns the array of that name, of the file on a channel.
fn shape_of(name: &str, channel: i16) -> VirtualShape {
    match name {
        // `DIM #1%, A%(300%)`.
        "numbers" => shape(false, channel, (300, None), 0, 2),
        // `DIM #1%, A%(1%,255%)`, whose second row begins a block.
        "table" => shape(false, channel, (1, Some(255)), 0, 2),
        // `DIM #1%, B%(7%), A$(3%)`: of 16 bytes, after the numbers.
        "texts" => shape(true, channel, (3, None), 16, 16),
        // `DIM #1%, A$(32766%)=512%`: 32,767 blocks.
        _ => shape(true, channel, (32766, None), 0, 512),
    }
}

fn shape(
    text: bool,
    channel: i16,
    bounds: (u16, Option<u16>),
    start: u64,
    size: u16,
) -> VirtualShape {
    VirtualShape {
        name: Name {
            letter: b'A',
            digit: None,
            text,
        },
        channel: Int::new(channel),
        first: bounds.0,
        second: bounds.1,
        start,
        size,
    }
}

static STORIES: [&[Step]; 6] = [
    // Numbers over two blocks: the low byte comes first, and a block past the end of the file
    // begins as zeros.
    &[
        OPEN_1,
        "store numbers 1 256 - 7 | failed 11 | get 1 2; ok",
        "byte 1 0 |  | byte 7",
        "byte 1 1 |  | byte 0",
        "fetch numbers 1 256 - |  | number 7",
        "fetch numbers 1 255 - | done block  | put 1 2 7 1 1; get 1 1; number 0",
        "store numbers 1 255 - -2 |  | ok",
        "store numbers 1 254 - 258 |  | ok",
        "byte 1 508 |  | byte 2",
        "byte 1 509 |  | byte 1",
        "byte 1 511 |  | byte 255",
        "fetch numbers 1 254 - |  | number 258",
        "fetch numbers 1 255 - |  | number -2",
        "close 1 | done done | put 1 1 0 512 4; close 1; closed 1",
    ],
    // The last subscript runs fastest.
    &[
        OPEN_1,
        "store table 1 0 255 1 | block  | get 1 1; ok",
        "byte 1 510 |  | byte 1",
        "store table 1 1 0 2 | done block AB | put 1 1 0 511 1; get 1 2; ok",
        "fetch table 1 1 0 |  | number 2",
        "fetch table 1 1 1 |  | number 0",
        "fetch table 1 0 256 |  | fault 55",
        "fetch table 1 2 0 |  | fault 55",
        "fetch table 1 0 -1 |  | fault 55",
        "fetch table 1 1 - |  | fault 55",
        "fetch numbers 1 1 0 |  | fault 55",
        "fetch numbers 1 301 - |  | fault 55",
        "store numbers 1 -1 - 7 |  | fault 55",
    ],
    // Strings are cut, or have zeros after them; zeros at the end are cut on reading.
    &[
        OPEN_1,
        "store_text texts 1 0 - AB\0C\0\0 | block 01234567890123456789012345678901PQRS \
         | get 1 1; ok",
        "fetch texts 1 0 - |  | line 'AB\0C'",
        "byte 1 15 |  | byte 53",
        "byte 1 20 |  | byte 0",
        "byte 1 31 |  | byte 0",
        "fetch texts 1 1 - |  | line 'PQRS'",
        "store_text texts 1 1 - abcdefghijklmnopqrst |  | ok",
        "fetch texts 1 1 - |  | line 'abcdefghijklmnop'",
        "fetch texts 1 2 - |  | line ''",
        "store_text texts 1 1 - \0 |  | ok",
        "fetch texts 1 1 - |  | line ''",
        "fetch texts 1 4 - |  | fault 55",
        "close 1 | done done | put 1 1 48 20 19; close 1; closed 1",
    ],
    // A block is an element, as far as the largest file.
    &[
        OPEN_1,
        "store_text blocks 1 1 - AB\0C\0 | failed 11 | get 1 2; ok",
        "store_text blocks 1 16383 - Z | done failed 11 | put 1 2 65 4 3; get 1 16384; ok",
        "fetch blocks 1 16384 - |  | fault 55",
        "store_text blocks 1 32766 - Z |  | fault 55",
        "fetch blocks 1 32767 - |  | fault 55",
        "fetch blocks 1 16382 - | failed 4 | put 1 16384 90 1 1; fault 4",
        "fetch blocks 1 16383 - |  | line 'Z'",
        "fetch blocks 1 2 - | done failed 11 | put 1 16384 90 1 1; get 1 3; fault 11",
        "fetch blocks 1 0 - | failed 19 | get 1 1; fault 19",
        "fetch blocks 1 0 - | expired | get 1 1; expired",
    ],
    // A channel that does not exist, that is not open, or that has larger records, and then the
    // place.
    &[
        "open 2 either true - 2 | opened | either 2 true 99; ok",
        "fetch numbers 0 301 - |  | fault 46",
        "store numbers 13 301 - 7 |  | fault 46",
        "fetch numbers 1 301 - |  | fault 9",
        "store_text texts 1 4 - A |  | fault 9",
        "fetch numbers 2 301 - |  | fault 31",
        "store numbers 2 0 - 7 |  | fault 31",
    ],
    // Pending bytes are written first, and LSET into the window makes it no dirtier.
    &[
        OPEN_1,
        "text 1 AB |  | ok",
        "fetch numbers 1 0 - | done block AB | put 1 1 65 2 2; get 1 1; number 16961",
        "set 1 0 67 |  | ok",
        "fetch numbers 1 0 - |  | number 16963",
        "fetch numbers 1 256 - | block A | get 1 2; number 65",
        "store numbers 1 257 - 1 |  | ok",
        "get 1 9 | failed 4 | put 1 2 65 3 2; fault 4",
        "fetch numbers 1 257 - |  | number 1",
    ],
];

/// An element: its array, and its subscripts.
#[derive(Drop)]
struct Place {
    shape: VirtualShape,
    first: Int,
    second: Option<Int>,
}

fn place_of(words: &mut Words) -> Place {
    let name = words.word();
    Place {
        shape: shape_of(name, words.number()),
        first: Int::new(words.number()),
        second: int_of(words.optional()),
    }
}

fn int_of(subscript: Option<i16>) -> Option<Int> {
    match subscript {
        Some(number) => Some(Int::new(number)),
        None => None,
    }
}

fn fetched(job: &mut Job, place: &Place) -> Result<Element, Stop> {
    let (channels, buffers, port) = (&mut job.channels, &mut job.buffers, &mut job.port);
    read(
        job.alloc,
        channels,
        buffers,
        port,
        &place.shape,
        place.first,
        place.second,
    )
}

fn fetch(job: &mut Job, place: &Place, end: &mut Report) {
    match fetched(job, place) {
        Ok(element) => tell(element, end),
        Err(stop) => end.stop(&stop),
    }
}

fn tell(element: Element, end: &mut Report) {
    match element {
        Element::Number(number) => end.tell("number", &[i32::from(number.value())]),
        Element::Text(text) => end.text(text),
    }
}

fn store(job: &mut Job, place: &Place, value: &Element, end: &mut Report) {
    let (channels, buffers, port) = (&mut job.channels, &mut job.buffers, &mut job.port);
    end.done(write(
        job.alloc,
        channels,
        buffers,
        port,
        &place.shape,
        place.first,
        place.second,
        value,
    ))
}

fn store_text(job: &mut Job, place: &Place, bytes: &[u8], end: &mut Report) {
    match Text::of(job.alloc, bytes) {
        Ok(text) => store(job, place, &Element::Text(text), end),
        Err(_) => end.push("no text"),
    }
}

/// Does a step on an element, and reports how it ended.
pub(crate) fn access(job: &mut Job, word: &str, words: &mut Words, end: &mut Report) {
    let place = place_of(words);
    match word {
        "fetch" => fetch(job, &place, end),
        "store" => store(job, &place, &number(words), end),
        "store_text" => store_text(job, &place, words.word().as_bytes(), end),
        _ => end.push("another call"),
    }
}

fn number(words: &mut Words) -> Element {
    Element::Number(Int::new(words.number()))
}

#[test]
fn elements_stand_in_windows(rt: HostRuntime) -> Result<(), Fail> {
    expect_stories(rt.alloc(), &STORIES)
}
