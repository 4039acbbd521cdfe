//! The requests of each call, and its errors before a request.

use crate::channel_stories::jobs::{OPEN_1, Step, expect_stories};
use std::test::Fail;

static STORIES: [&[Step]; 5] = [
    // Kinds, update and code of an opening are passed on.
    &[
        "open 1 input false - 1 | opened | input 1 false 99; ok",
        "open 12 output true 40 3 | opened | output 12 true 40; ok",
        "tell 1 |  | has 1 0 0 0 0 1 512",
        "tell 12 |  | has 1 0 0 0 0 3 1536",
        "tell 2 |  | has 1 0 0 0 -1 1 512",
    ],
    // The first tests are which number is a channel, and whether it is open; then comes a negative
    // RECORD.
    &[
        "get 0 -1 |  | fault 46",
        "put 13 -1 |  | fault 46",
        "unlock -1 |  | fault 46",
        "text 13 A |  | fault 46",
        "read 0 |  | fault 46",
        "close 13 |  | fault 46",
        "get 1 -1 |  | fault 9",
        "put 12 -1 |  | fault 9",
        "unlock 1 |  | fault 9",
        "text 1 A |  | fault 9",
        "read 1 |  | fault 9",
        OPEN_1,
        "get 1 -1 |  | fault 31",
        "put 1 -32768 |  | fault 31",
    ],
    // An open channel is not opened again; one whose opening failed has a blank buffer.
    &[
        OPEN_1,
        "open 1 either true - 1 |  | fault 7",
        "open 13 either true - 1 |  | fault 46",
        "open 2 input true - 2 | failed 5 | input 2 true 99; fault 5",
        "tell 2 |  | has 1 0 0 0 -1 1 512",
        "open 2 input true - 2 | done | input 2 true 99; expired",
    ],
    // Block 0 is the next one, and a named one is that block.
    &[
        OPEN_1,
        "get 1 0 | block A | get 1 1; ok",
        "put 1 0 | done | put 1 2 65 1 1; ok",
        "get 1 7 | block B | get 1 7; ok",
        "get 1 0 | failed 19 | get 1 8; fault 19",
        "get 1 0 | block C | get 1 8; ok",
        "unlock 1 | done | unlock 1; ok",
        "unlock 1 | failed 9 | unlock 1; fault 9",
        "close 1 | done | close 1; closed 1",
        "close 1 |  | none",
    ],
    // A reply that does not fit the request ends the job.
    &[
        OPEN_1,
        "get 1 1 | done | get 1 1; expired",
        "put 1 1 | block A | put 1 1 0 0 0; expired",
        "put 1 0 | failed 71 | put 1 1 0 0 0; expired",
        "put 1 16385 | done | put 1 16385 0 0 0; expired",
        "close 1 |  | close 1; expired",
    ],
];

#[test]
fn each_call_asks_its_request(rt: HostRuntime) -> Result<(), Fail> {
    expect_stories(rt.alloc(), &STORIES)
}
