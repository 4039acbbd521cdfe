//! CLOSE, and the implicit close.

use crate::channel_stories::jobs::{OPEN_1, Step, expect_stories};
use std::test::Fail;

/// An opening of channel 12 for records of two blocks.
const OPEN_12: Step = "open 12 fresh false 60 2 | opened | fresh 12 false 60; ok";

static STORIES: [&[Step]; 4] = [
    // In increasing order, each with its pending bytes; refusals are ignored.
    &[
        OPEN_12,
        OPEN_1,
        "open 2 either true - 1 | opened | either 2 true 99; ok",
        "text 12 AB |  | ok",
        "window 1 3 true | failed 11 | get 1 3; ok",
        "close_all | failed 4 failed 9 done failed 19 done | put 1 3 0 0 0; close 1; close 2; \
         put 12 1 65 2 2 0 0 0; close 12; ok",
        "tell 12 |  | has 1 0 0 0 -1 1 512",
        "close_all |  | ok",
    ],
    // It stops if the job's calls are used up.
    &[
        OPEN_1,
        OPEN_12,
        "text 1 AB |  | ok",
        "close_all | failed 4 | put 1 1 65 2 2; close 1; expired",
    ],
    // One channel alone.
    &[
        OPEN_1,
        "shut 12 |  | none",
        "text 1 A |  | ok",
        "shut 1 | failed 4 failed 10 | put 1 1 65 1 1; close 1; closed 1",
        "shut 1 |  | none",
    ],
    // A CLOSE that fails leaves the channel open, and its bytes still pending.
    &[
        OPEN_1,
        "text 1 AB |  | ok",
        "close 1 | failed 4 | put 1 1 65 2 2; fault 4",
        "close 1 | done failed 10 | put 1 1 65 2 2; close 1; fault 10",
        "text 1 C |  | ok",
        "close 1 | done done | put 1 2 67 1 1; close 1; closed 1",
        "close 1 |  | none",
        "close 12 |  | none",
    ],
];

#[test]
fn channels_are_closed_in_order(rt: HostRuntime) -> Result<(), Fail> {
    expect_stories(rt.alloc(), &STORIES)
}
