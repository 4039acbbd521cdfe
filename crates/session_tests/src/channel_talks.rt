//! Fields, text on channels, arrays in files, formats and SYS: what they show, and their requests
//! to a port.

use crate::talks::{Answer, READY, Row, Talk, expect_of_ready, expect_talks};
use std::test::Fail;

/// Parts of a buffer that overlap, an own string, and a variable that was never stored.
const FIELDS: Talk = (
    &[
        ("OPEN 'A' AS FILE 1%", READY),
        ("FIELD #1%,10% AS A$ : FIELD #1%,4% AS B$,6% AS C$", READY),
        (
            "LSET A$='ABCDEFGHIJKL' : PRINT A$;'/';B$;'/';C$",
            "ABCDEFGHIJ/ABCD/EFGHIJ\nReady\n",
        ),
        ("RSET A$='ABCDEFGHIJKL' : PRINT A$", "CDEFGHIJKL\nReady\n"),
        ("RSET B$='X' : PRINT B$", "   X\nReady\n"),
        (
            "FIELD #1%,512% AS A$,1% AS B$",
            "?FIELD overflows buffer\nReady\n",
        ),
        ("PRINT A$;'/';B$", "   XGHIJKL/   X\nReady\n"),
        (
            "LSET A$='ABCDEFGHIJ' : LSET C$=A$ : PRINT A$",
            "ABCDABCDEF\nReady\n",
        ),
        ("RSET B$=C$ : PRINT A$", "CDEFABCDEF\nReady\n"),
        (
            "D$=B$ : PRINT B$+C$;LEN(C$);B$<C$;MID(A$,2%,3%);D$",
            "CDEFABCDEF 6  0 DEFCDEF\nReady\n",
        ),
        (
            "B$='OWN' : LSET B$='12345' : PRINT B$;A$",
            "123CDEFABCDEF\nReady\n",
        ),
        ("RSET B$='1' : PRINT B$", "  1\nReady\n"),
        ("LSET E$='X' : PRINT LEN(E$)", " 0 \nReady\n"),
        (
            "LSET B$=CVT%$(16961%+1%) : PRINT B$;CVT$%(B$);CVT$%(E$)",
            "BB  16962  0 \nReady\n",
        ),
        ("RSET B$=CVT%$(CVT$%(B$)-1%) : PRINT B$", " BA\nReady\n"),
        ("FIELD #1%,2% AS C$,2% AS C$ : PRINT C$", "EF\nReady\n"),
        (
            "LSET C$=CVT%$(CVT$%(C$)+1%) : PRINT A$",
            "CDEGABCDEF\nReady\n",
        ),
        // A concatenation makes an own string of a fielded one, and leaves the buffer.
        (
            "FIELD #1%,3% AS D$ : D$=D$+'Z' : D$=RIGHT(D$,2%) : PRINT D$;'/';A$",
            "DEZ/CDEGABCDEF\nReady\n",
        ),
        (
            "CLOSE 1% : PRINT LEN(A$); LEN(C$); B$",
            " 0  0  BA\nReady\n",
        ),
    ],
    &[Answer::Opened(1), Answer::Done, Answer::Done],
    "Either [100,5]A Opened 1\nClose 1 Done\n",
);

/// Lines of a channel, by their items and whole, to the end of the file.
const LINES: Talk = (
    &[
        ("OPEN 'A' FOR INPUT AS FILE 1%", READY),
        (
            "INPUT #1%,A%,B$ : PRINT A%;B$;RECOUNT",
            " 7 A,B 0 \nReady\n",
        ),
        ("INPUT #1%,A%", "?Data format error\nReady\n"),
        ("INPUT #1%,A%,B$", "?Not enough data in record\nReady\n"),
        ("INPUT LINE #1%,A$ : PRINT LEN(A$)", " 5 \nReady\n"),
        ("INPUT #1%,A$", "?End of file on device\nReady\n"),
        ("GET #1%,RECORD 1% : PRINT RECOUNT", " 512 \nReady\n"),
        ("INPUT #0%,A%", "? "),
        ("41", READY),
        ("PRINT #0%,A%+1%;POS(0%)", " 42  4 \nReady\n"),
        (
            "PRINT POS(1%);POS(2%)",
            " 0 \n?I/O channel not open\nReady\n",
        ),
    ],
    &[
        Answer::Opened(1),
        Answer::Block("7,'A,B'\nX\n8\nEND\n"),
        Answer::Failed(11),
        Answer::Block(""),
        Answer::Done,
    ],
    "Input [100,5]A Opened 1\nGet 1 Block\nGet 2 Failed 11\nGet 1 Block\n",
);

/// Pending bytes are written before a channel is closed; at an END a refusal is not shown.
const WAITING: Talk = (
    &[
        ("OPEN 'A' AS FILE 1% : PRINT #1%,'AB'", READY),
        ("CLOSE 1%", "?No room for user on device\nReady\n"),
        (
            "PRINT POS(1%) : PRINT #1%,'C',1%; : PRINT POS(1%)",
            " 0 \n 17 \nReady\n",
        ),
        ("CLOSE 1%", READY),
        ("10 OPEN 'A' AS FILE 1% : PRINT #1%,TAB(3%);POS(1%)", ""),
        ("RUNNH", READY),
        ("PRINT #1%", "?I/O channel not open\nReady\n"),
        ("PRINT #13%,1%/0%", "?Illegal I/O channel\nReady\n"),
    ],
    &[
        Answer::Opened(0),
        Answer::Failed(4),
        Answer::Done,
        Answer::Done,
        Answer::Opened(1),
        Answer::Failed(4),
        Answer::Done,
        Answer::Done,
    ],
    "Either [100,5]A Opened 0\nPut 1 Failed 4\nPut 1 Done\nClose 1 Done\n\
     Either [100,5]A Opened 1\nPut 1 Failed 4\nClose 1 Done\n",
);

/// An element is requested by its place, and a refusal is trapped at the statement.
const ELEMENTS: Talk = (
    &[
        ("10 DIM #1%,A%(300%)", ""),
        ("20 ON ERROR GOTO 60 : OPEN 'A' AS FILE 1%", ""),
        ("30 A%(256%)=7%", ""),
        ("40 PRINT A%(256%); 1%+A%(0%)", ""),
        ("50 END", ""),
        ("60 PRINT ERR; : RESUME", ""),
        ("RUNNH", " 7  19  7  513 \nReady\n"),
    ],
    &[
        Answer::Opened(2),
        Answer::Failed(11),
        Answer::Done,
        Answer::Failed(19),
        Answer::Block("\u{0}\u{2}"),
        Answer::Done,
        Answer::Done,
    ],
    "Either [100,5]A Opened 2\nGet 2 Failed 11\n\
     Put 2 Done\nGet 1 Failed 19\nGet 1 Block\nClose 1 Done\n",
);

/// SYS makes a request in the middle of an expression, and a refusal is trapped at the statement.
const MESSAGES: Talk = (
    &[
        ("10 ON ERROR GOTO 50 : M$=CHR$(6%)+CHR$(22%)", ""),
        ("20 X$='A'+SYS(M$+CHR$(2%))", ""),
        ("30 PRINT LEN(X$); RIGHT(X$,5%)", ""),
        ("40 X$=SYS(M$+CHR$(255%)+'ab    HI') : END", ""),
        ("50 PRINT ERR; : RESUME", ""),
        ("RUNNH", " 5  6 HI\nReady\n"),
        (
            "S$=SYS(CHR$(6%)+CHR$(128%)) : PRINT LEN(S$); CVT$%(RIGHT(S$,4%))",
            " 5  258 \nReady\n",
        ),
        (
            "PRINT LEN(SYS(M$+CHR$(1%)+'A1    '+CHR$(32%))+SYS(M$+CHR$(0%)))",
            " 0 \nReady\n",
        ),
    ],
    &[
        Answer::Failed(5),
        Answer::Message("HI"),
        Answer::Done,
        Answer::State(258),
        Answer::Done,
        Answer::Done,
        Answer::Done,
    ],
    "Receive Failed 5\nReceive Message\nSend AB HI Done\n\
     Status State\nDeclare A1 32 Done\nRemove Done\n",
);

static TALKS: [Talk; 5] = [FIELDS, LINES, WAITING, ELEMENTS, MESSAGES];

#[test]
fn fields_texts_elements_and_messages(rt: HostRuntime) -> Result<(), Fail> {
    expect_talks(rt.alloc(), &TALKS)
}

/// A line, and what it shows before CR LF and Ready; it makes no request.
static SHOWN: [Row; 22] = [
    ("PRINT USING '###-',-42%", " 42-"),
    ("PRINT USING '**##',7%", "***7"),
    ("PRINT USING '##',123%", "%123"),
    ("PRINT USING '\\ \\ ##;','ABCD',5%", "ABC  5;"),
    ("PRINT USING '##','A'", "?Data format error"),
    ("PRINT USING 'AB',1%", "?Data format error"),
    ("PRINT USING '<##>',1%,2%;3%", "< 1>< 2>< 3>"),
    ("PRINT USING '\\\\','ABC'", "AB"),
    ("PRINT USING '<!>',''", "< >"),
    ("PRINT USING '!','A', : PRINT 'B'", "AB"),
    (
        "PRINT 'A'; : PRINT USING '# !',1%,2%",
        "A\n?Data format error",
    ),
    ("PRINT #0%, USING '##',7% : PRINT 'B'", " 7\nB"),
    ("PRINT #1%, USING '##',1%/0%", "?I/O channel not open"),
    ("PRINT #13%, USING '##','A'", "?Illegal I/O channel"),
    (
        "PRINT SYS(CHR$(6%)+CHR$(9%)+CHR$(19%))",
        "Disk block is interlocked",
    ),
    ("X$=SYS(CHR$(8%)+'HI') : PRINT SYS(CHR$(7%))", "HI"),
    ("PRINT SYS(CHR$(99%))", "?Illegal SYS() usage"),
    ("FIELD #1%, 600% AS A$", "?I/O channel not open"),
    ("FIELD #13%, 600% AS A$", "?Illegal I/O channel"),
    ("FIELD #13%, 1%/0% AS A$", "?Division by 0"),
    ("INPUT LINE #1%, A$", "?I/O channel not open"),
    ("PRINT POS(13%)", "?Illegal I/O channel"),
];

#[test]
fn formats_and_refusals_ask_nothing(rt: HostRuntime) -> Result<(), Fail> {
    expect_of_ready(rt.alloc(), &SHOWN)
}
