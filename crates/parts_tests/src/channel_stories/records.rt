//! Records of one to three blocks, as far as the file goes.

use crate::channel_stories::jobs::{OPEN_1, Step, expect_stories};
use std::test::Fail;

/// An opening of channel 2 for records of two blocks, and of channel 3 for three.
const OPEN_2: Step = "open 2 either true - 2 | opened | either 2 true 99; ok";

const OPEN_3: Step = "open 3 either true - 3 | opened | either 3 true 99; ok";

static STORIES: [&[Step]; 4] = [
    // A record whose file ends in it: RECOUNT is 512 of 1,024, and the rest is zeros.
    &[
        OPEN_2,
        "get 2 1 | record AB | get 2 1 2; ok",
        "tell 2 |  | has 3 1024 0 1024 0 2 1024",
        "byte 2 1023 |  | byte 66",
        "get 2 0 | record C | get 2 3 2; ok",
        "tell 2 |  | has 4 512 0 512 0 2 1024",
        "byte 2 511 |  | byte 67",
        "byte 2 512 |  | byte 0",
        "byte 2 1023 |  | byte 0",
        "byte 2 1024 |  | none",
        "put 2 0 | done | put 2 4 67 512 512 0 0 0; ok",
        "tell 2 |  | has 6 512 0 512 0 2 1024",
        "put 2 9 | failed 4 | put 2 9 67 512 512 0 0 0; fault 4",
        "tell 2 |  | has 6 512 0 512 0 2 1024",
    ],
    // A GET that fails leaves the buffer, the counts and what is next.
    &[
        OPEN_1,
        "get 1 4 | block AB | get 1 4; ok",
        "get 1 9 | failed 11 | get 1 9; fault 11",
        "tell 1 |  | has 5 512 0 512 0 1 512",
        "byte 1 1 |  | byte 66",
        "close 1 | failed 10 | close 1; fault 10",
        "byte 1 1 |  | byte 66",
        "close 1 | done | close 1; closed 1",
        "byte 1 1 |  | byte 0",
        "tell 1 |  | has 1 0 0 512 -1 1 512",
    ],
    // Three blocks, to the end of the largest disk and no further.
    &[
        OPEN_3,
        "get 3 16382 | record ABC | get 3 16382 3; ok",
        "tell 3 |  | has 16385 1536 0 1536 0 3 1536",
        "get 3 16383 | record ABC | get 3 16383 3; expired",
        "get 3 16383 | record AB | get 3 16383 3; ok",
        "get 3 1 | record ABCD | get 3 1 3; expired",
        "get 3 1 | record  | get 3 1 3; expired",
        "get 3 1 | block A | get 3 1 3; expired",
        "put 3 16383 | done | put 3 16383 65 512 512 66 512 512 0 0 0; expired",
    ],
    // RECOUNT is the job's, and each channel has its own.
    &[
        OPEN_1,
        OPEN_2,
        "get 2 1 | record AB | get 2 1 2; ok",
        "get 1 1 | block A | get 1 1; ok",
        "tell 2 |  | has 3 1024 0 512 0 2 1024",
        "tell 1 |  | has 2 512 0 512 0 1 512",
    ],
];

#[test]
fn records_go_as_far_as_the_file(rt: HostRuntime) -> Result<(), Fail> {
    expect_stories(rt.alloc(), &STORIES)
}
