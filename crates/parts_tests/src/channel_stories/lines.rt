//! Lines of INPUT #.

use crate::channel_stories::jobs::{OPEN_1, Step, expect_stories};
use std::test::Fail;

static SHORT: [&[Step]; 6] = [
    // Zeros are skipped wherever they are, and a return before the line feed is dropped.
    &[
        OPEN_1,
        "read 1 | block AB\r\n\0C\0\0D\n\r\r\n\nE\rF\n | get 1 1; line 'AB'",
        "read 1 |  | line 'CD'",
        "read 1 |  | line '\r'",
        "read 1 |  | line ''",
        "read 1 |  | line 'E\rF'",
        "read 1 | failed 11 | get 1 2; fault 11",
        "tell 1 |  | has 2 0 0 0 0 1 512",
        "read 1 | block G\n | get 1 2; line 'G'",
    ],
    // At the end of the file the bytes that were taken are the line, with its return.
    &[
        OPEN_1,
        "read 1 | block AB\r failed 11 | get 1 1; get 1 2; line 'AB\r'",
        "read 1 | failed 11 | get 1 2; fault 11",
        "read 1 | expired | get 1 2; expired",
    ],
    // Over two blocks.
    &[
        OPEN_1,
        "read 1 | ended 65 510 \0B block \0C\nD\n | get 1 1; get 1 2; line 512 65 67",
        "tell 1 |  | has 3 0 509 0 0 1 512",
        "read 1 |  | line 'D'",
    ],
    // A read that fails in the middle of a line: what was taken is gone.
    &[
        OPEN_1,
        "read 1 | blocks 65 2 failed 19 | get 1 1; get 1 2; get 1 3; fault 19",
        "read 1 | block B\nC\n | get 1 3; line 'B'",
        "get 1 9 | failed 11 | get 1 9; fault 11",
        "read 1 |  | line 'C'",
        "read 1 | failed 10 | get 1 4; fault 10",
    ],
    // GET leaves nothing unread.
    &[
        OPEN_1,
        "read 1 | block A\nB\n | get 1 1; line 'A'",
        "tell 1 |  | has 2 0 510 0 0 1 512",
        "get 1 7 | block C\n | get 1 7; ok",
        "tell 1 |  | has 8 512 0 512 0 1 512",
        "read 1 | block D\nE\n | get 1 8; line 'D'",
        "text 1 F |  | ok",
        "read 1 | done block G\n | put 1 9 70 1 1; get 1 10; line 'G'",
    ],
    // After a record that was read in part, its existing pages are unread.
    &[
        "open 1 input false - 2 | opened | input 1 false 99; ok",
        "read 1 | record AB record \n | get 1 1 2; get 1 3 2; line 1024 65 66",
        "tell 1 |  | has 4 0 511 0 0 2 1024",
        "set 1 512 67 |  | ok",
        "read 1 |  | line ''",
        "tell 1 |  | has 4 0 510 0 0 2 1024",
    ],
];

#[test]
fn lines_end_at_their_line_feeds(rt: HostRuntime) -> Result<(), Fail> {
    expect_stories(rt.alloc(), &SHORT)
}

static LONG: [&[Step]; 6] = [
    // 32,765 bytes, with zeros inside and over more than 64 blocks.
    &[
        OPEN_1,
        "read 1 | blocks 65 40 blocks 0 30 blocks 66 23 ended 67 509 \nD\n \
         | get 1 1 to get 1 94, 94; line 32765 65 67",
        "read 1 |  | line 'D'",
    ],
    // 32,765 bytes and a return.
    &[
        OPEN_1,
        "read 1 | blocks 65 63 ended 66 509 \r\nC | get 1 1 to get 1 64, 64; line 32765 65 66",
    ],
    // 32,766 bytes are too many, and those after the line feed are the next line.
    &[
        OPEN_1,
        "read 1 | blocks 65 63 ended 66 510 \nC | get 1 1 to get 1 64, 64; fault 50",
        "tell 1 |  | has 65 0 1 0 0 1 512",
        "read 1 | block D\n | get 1 65; line 'CD'",
    ],
    // 32,767 bytes without a line feed are gone, and the next line begins after them.
    &[
        OPEN_1,
        "read 1 | blocks 65 63 ended 66 511 \n | get 1 1 to get 1 64, 64; fault 50",
        "tell 1 |  | has 65 0 1 0 0 1 512",
        "read 1 |  | line ''",
    ],
    // The end of the file is no line feed.
    &[
        OPEN_1,
        "read 1 | blocks 65 63 ended 66 509  failed 11 | get 1 1 to get 1 65, 65; line 32765 65 66",
    ],
    &[
        OPEN_1,
        "read 1 | blocks 65 63 ended 66 510  failed 11 | get 1 1 to get 1 65, 65; fault 50",
        "read 1 | failed 11 | get 1 65; fault 11",
    ],
];

#[test]
fn lines_have_a_greatest_length(rt: HostRuntime) -> Result<(), Fail> {
    expect_stories(rt.alloc(), &LONG)
}
