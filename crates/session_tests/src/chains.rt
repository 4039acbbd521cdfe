//! CHAIN: how the next program is read and begins, in which state, and what a CHAIN that fails
//! leaves.

use crate::talks::{Answer, HELLO, Talk, expect_talk, expect_talks};
use std::test::Fail;

/// An error of the reading is one of the CHAIN, and the program stays.
const REFUSED: Talk = (
    &[
        ("10 CHAIN 'B'", ""),
        ("RUNNH", "?Can't find file or account at line 10\nReady\n"),
        ("RUNNH", "?Protection violation at line 10\nReady\n"),
        ("RUNNH", "?Data format error at line 10\nReady\n"),
        ("LIST", "NONAME\n10 CHAIN 'B'\nReady\n"),
        ("10 CHAIN ''", ""),
        ("RUNNH", "?Illegal file name at line 10\nReady\n"),
        ("CHAIN 'D:B'", "?Device not available\nReady\n"),
        ("CHAIN 'B'", "?Can't find file or account\nReady\n"),
    ],
    &[
        Answer::Failed(5),
        Answer::Failed(10),
        Answer::Opened(1),
        Answer::Block("STOP\n"),
        Answer::Done,
        Answer::Failed(5),
        Answer::Done,
    ],
    "Input [100,5]B.BAS Failed 5\nInput [100,5]B.BAS Failed 10\n\
     Input [100,5]B.BAS Opened 1\nGet 1 Block\nClose 0 Done\nInput [100,5]B.BAS Failed 5\n",
);

/// It is trapped in the old program, which has its channels and its variables.
const TRAPPED: Talk = (
    &[
        ("10 ON ERROR GOTO 40", ""),
        ("20 A%=7% : OPEN 'D' AS FILE 3%", ""),
        ("30 CHAIN 'B'", ""),
        ("40 PRINT ERR;ERL;A% : GET #3% : STOP", ""),
        ("RUNNH", " 5  30  7 \nStop at line 40\nReady\n"),
    ],
    &[
        Answer::Opened(1),
        Answer::Failed(5),
        Answer::Block(""),
        Answer::Done,
    ],
    "Either [100,5]D Opened 1\nInput [100,5]B.BAS Failed 5\nGet 1 Block\n",
);

/// So is an error in the body of a function.
const TRAPPED_IN_A_BODY: Talk = (
    &[
        ("10 DEF FNA%(X%)", ""),
        ("20 CHAIN 'B'", ""),
        ("30 FNEND", ""),
        ("40 ON ERROR GOTO 60", ""),
        ("50 A%=FNA%(1%)", ""),
        ("55 END", ""),
        ("60 PRINT ERR;ERL : RESUME 55", ""),
        ("RUNNH", " 5  20 \nReady\n"),
    ],
    &[Answer::Failed(5), Answer::Done],
    "Input [100,5]B.BAS Failed 5\n",
);

/// The given line is one of the new program. 0 and negative numbers mean no line.
const LINES: Talk = (
    &[
        ("CHAIN 'B' LINE 20%", " 2 \nReady\n"),
        ("CHAIN 'B' 0%", " 1 \n 2 \nReady\n"),
        ("CHAIN 'B' LINE -5%", " 1 \n 2 \nReady\n"),
        ("15 STOP", ""),
        ("CHAIN 'B' 15%", "?Undefined line at line 15\nReady\n"),
        ("CONT", "?Can't continue\nReady\n"),
        ("LIST", "B\n10 PRINT 1\n20 PRINT 2\nReady\n"),
    ],
    &[
        Answer::Opened(1),
        Answer::Block("10 PRINT 1\n20 PRINT 2\n"),
        Answer::Done,
        Answer::Opened(1),
        Answer::Block("10 PRINT 1\n20 PRINT 2\n"),
        Answer::Done,
        Answer::Opened(1),
        Answer::Block("10 PRINT 1\n20 PRINT 2\n"),
        Answer::Done,
        Answer::Opened(1),
        Answer::Block("10 PRINT 1\n20 PRINT 2\n"),
        Answer::Done,
        Answer::Done,
    ],
    "Input [100,5]B.BAS Opened 1\nGet 1 Block\nClose 0 Done\n\
     Input [100,5]B.BAS Opened 1\nGet 1 Block\nClose 0 Done\n\
     Input [100,5]B.BAS Opened 1\nGet 1 Block\nClose 0 Done\n\
     Input [100,5]B.BAS Opened 1\nGet 1 Block\nClose 0 Done\n",
);

const WITH_A_BODY: &str = "10 DEF FNA%(X%)\n20 FNA%=1%\n30 FNEND\n40 PRINT 4\n";

/// No program begins in the body of a function, its FNEND included.
const BODIES: Talk = (
    &[
        ("CHAIN 'B' 20%", "?Undefined line at line 20\nReady\n"),
        ("CHAIN 'B' 30%", "?Undefined line at line 30\nReady\n"),
        ("CHAIN 'B' 10%", " 4 \nReady\n"),
    ],
    &[
        Answer::Opened(1),
        Answer::Block(WITH_A_BODY),
        Answer::Done,
        Answer::Opened(1),
        Answer::Block(WITH_A_BODY),
        Answer::Done,
        Answer::Opened(1),
        Answer::Block(WITH_A_BODY),
        Answer::Done,
        Answer::Done,
    ],
    "Input [100,5]B.BAS Opened 1\nGet 1 Block\nClose 0 Done\n\
     Input [100,5]B.BAS Opened 1\nGet 1 Block\nClose 0 Done\n\
     Input [100,5]B.BAS Opened 1\nGet 1 Block\nClose 0 Done\n",
);

/// A program that is rejected is the one in memory, and the old variables are gone.
const UNSOUND: Talk = (
    &[
        ("A%=7%", "Ready\n"),
        ("CHAIN 'B'", "?Undefined line at line 10\nReady\n"),
        ("PRINT A%", " 0 \nReady\n"),
        ("LISTNH", "10 GOTO 20\nReady\n"),
    ],
    &[
        Answer::Opened(1),
        Answer::Block("10 GOTO 20\n"),
        Answer::Done,
        Answer::Done,
    ],
    "Input [100,5]B.BAS Opened 1\nGet 1 Block\nClose 0 Done\n",
);

/// Variables and the trap are those of a program that begins, core common stays, and channels are
/// closed after the reading.
const CLEARED: Talk = (
    &[
        ("10 ON ERROR GOTO 30 : OPEN 'D' AS FILE 3%", ""),
        ("20 A%=7% : X$=SYS(CHR$(8%)+'HI') : CHAIN 'B'", ""),
        ("30 STOP", ""),
        ("RUNNH", "HI 0 \n?I/O channel not open at line 20\nReady\n"),
    ],
    &[
        Answer::Opened(1),
        Answer::Opened(1),
        Answer::Block("10 PRINT SYS(CHR$(7%));A%\n20 GET #3%\n30 STOP\n"),
        Answer::Done,
        Answer::Done,
        Answer::Done,
    ],
    "Either [100,5]D Opened 1\nInput [100,5]B.BAS Opened 1\n\
     Get 1 Block\nClose 0 Done\nClose 3 Done\n",
);

/// Three programs pass a number on in core common.
const THREE: Talk = (
    &[
        ("10 X$=SYS(CHR$(8%)+'1') : CHAIN 'B'", ""),
        ("RUNNH", " 3 \nReady\n"),
        ("LIST", "C\n10 PRINT VAL(SYS(CHR$(7%)))+1%\nReady\n"),
    ],
    &[
        Answer::Opened(1),
        Answer::Block("10 N%=VAL(SYS(CHR$(7%)))+1%\n20 X$=SYS(CHR$(8%)+NUM1$(N%)) : CHAIN 'C'\n"),
        Answer::Done,
        Answer::Opened(1),
        Answer::Block("10 PRINT VAL(SYS(CHR$(7%)))+1%\n"),
        Answer::Done,
        Answer::Done,
    ],
    "Input [100,5]B.BAS Opened 1\nGet 1 Block\nClose 0 Done\n\
     Input [100,5]C.BAS Opened 1\nGet 1 Block\nClose 0 Done\n",
);

const ADDS_ONE: &str = "10 OPEN 'N' FOR INPUT AS FILE 1% : INPUT #1%,N% : CLOSE 1%\n\
     20 OPEN 'N' FOR OUTPUT AS FILE 1% : PRINT #1%,N%+1% : CLOSE 1%\n\
     30 CHAIN 'C'\n";

/// Three programs pass a number on in a file: it is written, read and rewritten, and read.
const THREE_BY_A_FILE: Talk = (
    &[
        ("10 OPEN 'N' FOR OUTPUT AS FILE 1%", ""),
        ("20 PRINT #1%,1% : CLOSE 1% : CHAIN 'B'", ""),
        ("RUNNH", " 2 \nReady\n"),
        (
            "LIST",
            "C\n10 OPEN 'N' FOR INPUT AS FILE 1%\n20 INPUT #1%,N% : PRINT N%\nReady\n",
        ),
    ],
    &[
        Answer::Opened(0),
        Answer::Done,
        Answer::Done,
        Answer::Opened(1),
        Answer::Block(ADDS_ONE),
        Answer::Done,
        Answer::Opened(1),
        Answer::Block(" 1 \n"),
        Answer::Done,
        Answer::Opened(0),
        Answer::Done,
        Answer::Done,
        Answer::Opened(1),
        Answer::Block("10 OPEN 'N' FOR INPUT AS FILE 1%\n20 INPUT #1%,N% : PRINT N%\n"),
        Answer::Done,
        Answer::Opened(1),
        Answer::Block(" 2 \n"),
        Answer::Done,
        Answer::Done,
    ],
    "Output [100,5]N Opened 0\nPut 1 Done\nClose 1 Done\n\
     Input [100,5]B.BAS Opened 1\nGet 1 Block\nClose 0 Done\n\
     Input [100,5]N Opened 1\nGet 1 Block\nClose 1 Done\n\
     Output [100,5]N Opened 0\nPut 1 Done\nClose 1 Done\n\
     Input [100,5]C.BAS Opened 1\nGet 1 Block\nClose 0 Done\n\
     Input [100,5]N Opened 1\nGet 1 Block\nClose 1 Done\n",
);

/// A CHAIN that fails keeps a STOP; after one that succeeds, CONT continues where the new program
/// stopped.
const CONT: Talk = (
    &[
        ("10 STOP", ""),
        ("RUNNH", "Stop at line 10\nReady\n"),
        ("CHAIN 'B'", "?Can't find file or account\nReady\n"),
        ("CONT", "Ready\n"),
        ("RUNNH", "Stop at line 10\nReady\n"),
        ("CHAIN 'B'", " 1 \nReady\n"),
        ("CONT", "?Can't continue\nReady\n"),
        ("CHAIN 'B'", "Stop at line 10\nReady\n"),
        ("CONT", " 2 \nReady\n"),
    ],
    &[
        Answer::Failed(5),
        Answer::Opened(1),
        Answer::Block("10 PRINT 1\n"),
        Answer::Done,
        Answer::Opened(1),
        Answer::Block("10 STOP\n20 PRINT 2\n"),
        Answer::Done,
        Answer::Done,
    ],
    "Input [100,5]B.BAS Failed 5\nInput [100,5]B.BAS Opened 1\nGet 1 Block\nClose 0 Done\n\
     Input [100,5]B.BAS Opened 1\nGet 1 Block\nClose 0 Done\n",
);

/// A report after a CHAIN begins at the start of a line. It is about a program that is rejected, or
/// a line that the program does not have; the last two are of immediate lines that chain to them.
const REPORTS: Talk = (
    &[
        ("10 PRINT 'Z'; : CHAIN 'B'", ""),
        ("RUNNH", "Z\n?Undefined line at line 10\nReady\n"),
        ("NEW", "Ready\n"),
        ("10 PRINT 'Y'; : CHAIN 'C' 77%", ""),
        ("RUNNH", "Y\n?Undefined line at line 77\nReady\n"),
        (
            "PRINT 'X'; : CHAIN 'B'",
            "X\n?Undefined line at line 10\nReady\n",
        ),
        (
            "PRINT 'W'; : CHAIN 'C' 77%",
            "W\n?Undefined line at line 77\nReady\n",
        ),
    ],
    &[
        Answer::Opened(1),
        Answer::Block("10 GOTO 20\n"),
        Answer::Done,
        Answer::Opened(1),
        Answer::Block("10 PRINT 1\n"),
        Answer::Done,
        Answer::Opened(1),
        Answer::Block("10 GOTO 20\n"),
        Answer::Done,
        Answer::Opened(1),
        Answer::Block("10 PRINT 1\n"),
        Answer::Done,
        Answer::Done,
    ],
    "Input [100,5]B.BAS Opened 1\nGet 1 Block\nClose 0 Done\n\
     Input [100,5]C.BAS Opened 1\nGet 1 Block\nClose 0 Done\n\
     Input [100,5]B.BAS Opened 1\nGet 1 Block\nClose 0 Done\n\
     Input [100,5]C.BAS Opened 1\nGet 1 Block\nClose 0 Done\n",
);

static CHAINS: [Talk; 11] = [
    REFUSED,
    TRAPPED,
    TRAPPED_IN_A_BODY,
    LINES,
    BODIES,
    UNSOUND,
    CLEARED,
    THREE,
    THREE_BY_A_FILE,
    CONT,
    REPORTS,
];

#[test]
fn programs_chain(rt: HostRuntime) -> Result<(), Fail> {
    expect_talks(rt.alloc(), &CHAINS)
}

/// The replies of a job whose calls are used up at its third CHAIN.
static TWICE: [Answer; 8] = [
    Answer::Done,
    Answer::Opened(1),
    Answer::Block("10 CHAIN 'B'\n"),
    Answer::Done,
    Answer::Opened(1),
    Answer::Block("10 CHAIN 'B'\n"),
    Answer::Done,
    Answer::Expired,
];

#[test]
fn a_chain_without_end_is_ended_by_the_calls(rt: HostRuntime) -> Result<(), Fail> {
    expect_talk(
        rt.alloc(),
        &[HELLO, "CHAIN 'B'"],
        &TWICE,
        "HELLO 100,5;DEMO\nReady\nCHAIN 'B'\n?Job expired\n",
        "Login 100,5;DEMO Done\nInput [100,5]B.BAS Opened 1\nGet 1 Block\nClose 0 Done\n\
         Input [100,5]B.BAS Opened 1\nGet 1 Block\nClose 0 Done\nInput [100,5]B.BAS Expired\n",
    )
}
