//! Statements on files: their requests, their errors before a request, and when channels are
//! closed.

use crate::talks::{Answer, READY, Row, Talk, expect_of_ready, expect_talks};
use std::test::Fail;

const BY_BLOCKS: Talk = (
    &[
        ("OPEN 'data.txt' AS FILE 1%, MODE 1%", READY),
        ("GET #1% : GET #1% : PUT #1%, RECORD 1%", READY),
        ("GET #1%", READY),
        ("UNLOCK #1%", READY),
        ("CLOSE 2%, #1%, 3%", READY),
        ("GET #1%", "?I/O channel not open\nReady\n"),
    ],
    &[
        Answer::Opened(3),
        Answer::Block("A"),
        Answer::Block("B"),
        Answer::Done,
        Answer::Block("B"),
        Answer::Done,
        Answer::Done,
        Answer::Done,
    ],
    "Either [100,5]DATA.TXT Opened 3\nGet 1 Block\nGet 2 Block\nPut 1 Done\nGet 2 Block\n\
     Unlock 1 Done\nClose 1 Done\n",
);

const PURPOSES: Talk = (
    &[
        ("OPEN 'A<40>' FOR OUTPUT AS FILE 1%", READY),
        (
            "OPEN '$A.' FOR INPUT AS FILE #2%, RECORDSIZE 1024%, CLUSTERSIZE 7%, MODE 0%",
            READY,
        ),
        ("GET #2%, RECORD 5%", "?End of file on device\nReady\n"),
        (
            "KILL 'A<1>' : NAME 'A<1>' AS '[1,2]B<60>'",
            "?Illegal file name\nReady\n",
        ),
        ("SLEEP 5% : SLEEP -1%", READY),
    ],
    &[
        Answer::Opened(0),
        Answer::Opened(1),
        Answer::Failed(11),
        Answer::Done,
        Answer::Failed(2),
        Answer::Done,
        Answer::Done,
        Answer::Done,
    ],
    "Output [100,5]A<40> Opened 0\nInput [1,2]A Opened 1\nGetRecord 5 2 Failed 11\n\
     Kill [100,5]A Done\nRename to [1,2]B<60> Failed 2\nSleep 5 Done\nSleep 0 Done\n",
);

/// The channels 1 and 12 are open, a program ends, and nothing fails.
const ENDS: Talk = (
    &[
        ("10 OPEN 'A' AS FILE 12% : OPEN 'B' AS FILE 1%", ""),
        ("RUNNH", READY),
        ("20 END : GET #1%", ""),
        ("RUNNH", READY),
        ("20 STOP", ""),
        ("RUNNH", "Stop at line 20\nReady\n"),
        ("END", READY),
        ("20 RETURN", ""),
        ("RUNNH", "?RETURN without GOSUB at line 20\nReady\n"),
        ("NEW", READY),
    ],
    &[
        Answer::Opened(0),
        Answer::Opened(0),
        Answer::Failed(9),
        Answer::Done,
        Answer::Opened(0),
        Answer::Opened(0),
        Answer::Done,
        Answer::Done,
        Answer::Opened(0),
        Answer::Opened(0),
        Answer::Done,
        Answer::Done,
        Answer::Opened(0),
        Answer::Opened(0),
        Answer::Done,
        Answer::Done,
        Answer::Done,
    ],
    "Either [100,5]A Opened 0\nEither [100,5]B Opened 0\nClose 1 Failed 9\nClose 12 Done\n\
     Either [100,5]A Opened 0\nEither [100,5]B Opened 0\nClose 1 Done\nClose 12 Done\n\
     Either [100,5]A Opened 0\nEither [100,5]B Opened 0\nClose 1 Done\nClose 12 Done\n\
     Either [100,5]A Opened 0\nEither [100,5]B Opened 0\nClose 1 Done\nClose 12 Done\n",
);

/// A channel stays open over lines, commands that fail and reports; OLD and RUN close it.
const COMMANDS: Talk = (
    &[
        ("OPEN 'A' AS FILE 1%", READY),
        ("PRINT 1%/0%", "?Division by 0\nReady\n"),
        ("OLD X", "?Can't find file or account\nReady\n"),
        ("NEW ?", "?Illegal file name\nReady\n"),
        ("GET #1%", READY),
        ("OLD X", READY),
        ("OPEN 'A' AS FILE 1%", READY),
        ("RUN", "X\n?Undefined line at line 10\nReady\n"),
        ("OPEN 'A' AS FILE 1%", READY),
        ("RUN X", "?Undefined line at line 10\nReady\n"),
        ("OPEN 'A' AS FILE 1%", READY),
    ],
    &[
        Answer::Opened(1),
        Answer::Failed(5),
        Answer::Block(""),
        Answer::Opened(1),
        Answer::Block("10 GOTO 20\n"),
        Answer::Done,
        Answer::Done,
        Answer::Opened(1),
        Answer::Done,
        Answer::Opened(1),
        Answer::Opened(1),
        Answer::Block("10 GOTO 20\n"),
        Answer::Done,
        Answer::Done,
        Answer::Opened(1),
        Answer::Done,
    ],
    "Either [100,5]A Opened 1\nInput [100,5]X.BAS Failed 5\nGet 1 Block\n\
     Input [100,5]X.BAS Opened 1\nGet 1 Block\nClose 0 Done\nClose 1 Done\n\
     Either [100,5]A Opened 1\nClose 1 Done\n\
     Either [100,5]A Opened 1\nInput [100,5]X.BAS Opened 1\nGet 1 Block\nClose 0 Done\n\
     Close 1 Done\n\
     Either [100,5]A Opened 1\n",
);

static TALKS: [Talk; 4] = [BY_BLOCKS, PURPOSES, ENDS, COMMANDS];

#[test]
fn files_are_used_and_closed(rt: HostRuntime) -> Result<(), Fail> {
    expect_talks(rt.alloc(), &TALKS)
}

/// Statements that fail before any request.
static REFUSED: [Row; 14] = [
    (
        "OPEN 'D:A' AS FILE 0%, RECORDSIZE 7%",
        "?Illegal I/O channel",
    ),
    ("OPEN 'D:A' AS FILE 13%, MODE 2%", "?Illegal I/O channel"),
    (
        "OPEN 'D:A' AS FILE 1%, RECORDSIZE 513%",
        "?Illegal byte count for I/O",
    ),
    (
        "OPEN 'D:A' AS FILE 1%, RECORDSIZE -512%",
        "?Illegal byte count for I/O",
    ),
    (
        "OPEN 'D:A' AS FILE 1%, MODE 2%",
        "?Illegal byte count for I/O",
    ),
    ("OPEN 'D:A' AS FILE 1%", "?Device not available"),
    (
        "OPEN '' AS FILE 12%, RECORDSIZE 1536%",
        "?Illegal file name",
    ),
    ("OPEN 'A' AS FILE 1%, MODE 1%/0%", "?Division by 0"),
    ("CLOSE 1%, 13%", "?Illegal I/O channel"),
    ("GET #-1%, RECORD -1%", "?Illegal I/O channel"),
    ("PUT #1%, RECORD -1%", "?I/O channel not open"),
    ("UNLOCK #1%", "?I/O channel not open"),
    ("KILL 'A.BASE'", "?Illegal file name"),
    ("NAME 'A' AS 'DK1:A'", "?Device not available"),
];

#[test]
fn statements_refuse_before_they_ask(rt: HostRuntime) -> Result<(), Fail> {
    expect_of_ready(rt.alloc(), &REFUSED)
}
