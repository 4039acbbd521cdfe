//! Bytes that PRINT # collects, and when they are written.

use crate::channel_stories::jobs::{OPEN_1, Step, expect_stories};
use std::test::Fail;

static STORIES: [&[Step]; 6] = [
    // A Put follows the 512th byte; the rest waits, and is written with zeros after it.
    &[
        OPEN_1,
        "write 1 65 511 |  | ok",
        "write 1 65 1 | done | put 1 1 65 512 512; ok",
        "write 1 66 1112 | done done | put 1 2 66 512 512; put 1 3 66 512 512; ok",
        "tell 1 |  | has 4 0 0 0 1624 1 512",
        "close 1 | done done | put 1 4 66 88 88; close 1; closed 1",
    ],
    // A Put that fails: its bytes wait, the rest is not collected, and the Put is requested again.
    &[
        OPEN_1,
        "write 1 65 600 | failed 4 | put 1 1 65 512 512; fault 4",
        "tell 1 |  | has 1 0 0 0 512 1 512",
        "text 1 B | failed 4 | put 1 1 65 512 512; fault 4",
        "text 1  | failed 10 | put 1 1 65 512 512; fault 10",
        "close 1 | failed 4 | put 1 1 65 512 512; fault 4",
        "text 1 BC | done | put 1 1 65 512 512; ok",
        "tell 1 |  | has 2 0 0 0 514 1 512",
        "close 1 | done done | put 1 2 66 2 2; close 1; closed 1",
    ],
    // With larger records it follows the 1,024th byte, and the 1,536th.
    &[
        "open 1 either true - 2 | opened | either 1 true 99; ok",
        "write 1 65 1023 |  | ok",
        "write 1 66 2 | done | put 1 1 65 512 512 65 512 512; ok",
        "tell 1 |  | has 3 0 0 0 1025 2 1024",
        "close 1 | done done | put 1 3 66 1 1 0 0 0; close 1; closed 1",
    ],
    &[
        "open 1 either true - 3 | opened | either 1 true 99; ok",
        "write 1 65 1535 |  | ok",
        "write 1 65 1 | failed 4 | put 1 1 65 512 512 65 512 512 65 512 512; fault 4",
        "write 1 66 1 | done | put 1 1 65 512 512 65 512 512 65 512 512; ok",
        "tell 1 |  | has 4 0 0 0 1537 3 1536",
    ],
    // GET, PUT and INPUT # first write what is collected, and stop if that fails.
    &[
        OPEN_1,
        "text 1 AB |  | ok",
        "get 1 0 | failed 19 | put 1 1 65 2 2; fault 19",
        "put 1 5 | failed 19 | put 1 1 65 2 2; fault 19",
        "read 1 | failed 19 | put 1 1 65 2 2; fault 19",
        "window 1 3 false | failed 19 | put 1 1 65 2 2; fault 19",
        "unlock 1 | done | unlock 1; ok",
        "get 1 0 | done block C | put 1 1 65 2 2; get 1 2; ok",
        "text 1 DE |  | ok",
        "put 1 0 | done done | put 1 3 68 2 2; put 1 4 68 2 2; ok",
        "text 1 F |  | ok",
        "read 1 | done block G\n | put 1 5 70 1 1; get 1 6; line 'G'",
    ],
    // The column is that of the bytes that were collected.
    &[
        OPEN_1,
        "text 1 ABC\r\nDE\x07 |  | ok",
        "tell 1 |  | has 1 0 0 0 2 1 512",
        "write 1 70 32767 | failed 4 | put 1 1 65 512 512; fault 4",
        "tell 1 |  | has 1 0 0 0 506 1 512",
    ],
];

#[test]
fn full_buffers_are_written(rt: HostRuntime) -> Result<(), Fail> {
    expect_stories(rt.alloc(), &STORIES)
}
