//! The window of virtual arrays, and when it is written.

use crate::channel_stories::jobs::{OPEN_1, Step, expect_stories};
use std::test::Fail;

static STORIES: [&[Step]; 5] = [
    // The block that is already the window makes no request; another one is read after pending
    // bytes are written.
    &[
        OPEN_1,
        "window 1 2 false | block AB | get 1 2; ok",
        "window 1 2 false |  | ok",
        "window 1 3 false | block CD | get 1 3; ok",
        "window 1 3 true |  | ok",
        "set 1 0 90 |  | ok",
        "window 1 2 true | done block EF | put 1 3 90 2 2; get 1 2; ok",
        "tell 1 |  | has 1 0 0 0 0 1 512",
        "close 1 | done done | put 1 2 69 2 2; close 1; closed 1",
    ],
    // A dirty window is put before all else, and stays dirty if that fails.
    &[
        OPEN_1,
        "window 1 2 true | failed 11 | get 1 2; ok",
        "set 1 0 65 |  | ok",
        "get 1 5 | failed 4 | put 1 2 65 1 1; fault 4",
        "put 1 5 | failed 4 | put 1 2 65 1 1; fault 4",
        "read 1 | failed 4 | put 1 2 65 1 1; fault 4",
        "text 1 B | failed 4 | put 1 2 65 1 1; fault 4",
        "window 1 3 true | failed 4 | put 1 2 65 1 1; fault 4",
        "close 1 | failed 4 | put 1 2 65 1 1; fault 4",
        "window 1 3 false |  | put 1 2 65 1 1; expired",
    ],
    // Once put, it is clean, and a write of no bytes leaves it the window.
    &[
        OPEN_1,
        "window 1 2 true | block A | get 1 2; ok",
        "text 1  | done | put 1 2 65 1 1; ok",
        "text 1  |  | ok",
        "window 1 2 true |  | ok",
        "text 1 B | done | put 1 2 65 1 1; ok",
        "window 1 2 false | done block C | put 1 1 66 1 1; get 1 2; ok",
        "window 1 2 true |  | ok",
        "get 1 0 | done block D | put 1 2 67 1 1; get 1 2; ok",
        "window 1 2 true | block E | get 1 2; ok",
        "put 1 0 | done done | put 1 2 69 1 1; put 1 3 69 1 1; ok",
        "window 1 9 true | block F | get 1 9; ok",
        "read 1 | done block G\n | put 1 9 70 1 1; get 1 4; line 'G'",
    ],
    // Past the end of the file a read fails, and a write gets zeros; a refusal leaves the window as
    // it was.
    &[
        OPEN_1,
        "window 1 2 false | block AB | get 1 2; ok",
        "window 1 9 false | failed 11 | get 1 9; fault 11",
        "window 1 9 true | failed 19 | get 1 9; fault 19",
        "window 1 2 false |  | ok",
        "byte 1 1 |  | byte 66",
        "window 1 9 true | failed 11 | get 1 9; ok",
        "byte 1 1 |  | byte 0",
        "window 1 16384 true | done failed 11 | put 1 9 0 0 0; get 1 16384; ok",
    ],
    // A window that fails leaves the unread bytes, and a new one leaves none.
    &[
        OPEN_1,
        "read 1 | block A\nB\nC\n | get 1 1; line 'A'",
        "window 1 5 false | failed 19 | get 1 5; fault 19",
        "read 1 |  | line 'B'",
        "window 1 5 false | block D\n | get 1 5; ok",
        "read 1 | block E\n | get 1 2; line 'E'",
    ],
];

#[test]
fn windows_are_written_before_all_else(rt: HostRuntime) -> Result<(), Fail> {
    expect_stories(rt.alloc(), &STORIES)
}
