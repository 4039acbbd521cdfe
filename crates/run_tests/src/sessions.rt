//! Whole sessions at the terminals of a deck: what files, records, fields, arrays in files, strings
//! on channels and messages show over a monitor.

use crate::screens::{LOGIN, NO_FILE, ONE_ACCOUNT, PROTECTED, READY, System, expect_systems};
use std::test::Fail;

const END_OF_FILE: &str = "?End of file on device\nReady\n";

const INTERLOCKED: &str = "?Disk block is interlocked\nReady\n";

const TWO_BLOCKS: &str = "RSTS-DECK 1\nDISK 8\nACCOUNT 100,5 DEMO 100\nFILE [100,5]DATA<60> 2\n";

const CODES_60_40_AND_2: System<'static> = (
    "RSTS-DECK 1\nDISK 8\nACCOUNT 100,5 DEMO 100\nACCOUNT 100,6 DEMO 100\nACCOUNT 1,2 SYS 100\n\
     FILE [100,5]OWN<60> 1\nFILE [100,5]SHOWN<40> 1\nFILE [100,5]KEPT<2> 1\n",
    &[
        &[
            ("HELLO 100,6;DEMO", READY),
            ("OPEN '[100,5]OWN' AS FILE 1%", PROTECTED),
            ("OPEN '[100,5]SHOWN' AS FILE 1%", READY),
            ("GET #1%, RECORD 1%", READY),
            ("PUT #1%, RECORD 1%", PROTECTED),
        ],
        &[
            ("HELLO 1,2;SYS", READY),
            ("OPEN '[100,5]OWN' AS FILE 1% : GET #1% : PUT #1%", READY),
        ],
        &[
            LOGIN,
            ("OPEN 'KEPT' AS FILE 1% : GET #1%, RECORD 1%", READY),
            ("PUT #1%, RECORD 1%", PROTECTED),
        ],
    ],
);

const PAST_THE_END: System<'static> = (
    TWO_BLOCKS,
    &[&[
        LOGIN,
        ("OPEN 'DATA' AS FILE 1%", READY),
        ("FIELD #1%, 2% AS A$ : LSET A$='XY'", READY),
        ("GET #1%, RECORD 3%", END_OF_FILE),
        ("PUT #1%, RECORD 4%", READY),
        ("GET #1%, RECORD 3% : PRINT ASCII(A$)", " 0 \nReady\n"),
        ("GET #1% : PRINT A$", "XY\nReady\n"),
        ("GET #1%", END_OF_FILE),
    ]],
);

const DISK_OF_THREE_BLOCKS: System<'static> = (
    "RSTS-DECK 1\nDISK 3\nACCOUNT 100,5 DEMO 100\nFILE [100,5]DATA<60> 2\n",
    &[&[
        LOGIN,
        ("OPEN 'DATA' AS FILE 1%", READY),
        ("PUT #1%, RECORD 4%", "?No room for user on device\nReady\n"),
        ("CAT", "DATA  .        2  <60>\nReady\n"),
    ]],
);

const TWO_CHANNELS_FOR_UPDATE: System<'static> = (
    TWO_BLOCKS,
    &[&[
        LOGIN,
        ("OPEN 'DATA' AS FILE 1%, MODE 1%", READY),
        ("OPEN 'DATA' AS FILE 2%, MODE 1%", READY),
        ("GET #1%, RECORD 1%", READY),
        ("GET #2%, RECORD 1%", INTERLOCKED),
        ("GET #2%, RECORD 2%", READY),
        ("GET #1%, RECORD 2%", INTERLOCKED),
        ("GET #2%, RECORD 1%", INTERLOCKED),
        ("UNLOCK #1%", READY),
        ("GET #2%, RECORD 1%", READY),
        ("GET #1%, RECORD 2%", READY),
    ]],
);

const RECORDS_OF_TWO_BLOCKS: System<'static> = (
    "RSTS-DECK 1\nDISK 8\nACCOUNT 100,5 DEMO 100\nFILE [100,5]DATA<60> 4\n",
    &[&[
        LOGIN,
        ("OPEN 'DATA' AS FILE 1%, RECORDSIZE 1024%, MODE 1%", READY),
        ("OPEN 'DATA' AS FILE 2%, RECORDSIZE 1024%, MODE 1%", READY),
        ("GET #1%, RECORD 1% : PRINT RECOUNT", " 1024 \nReady\n"),
        ("GET #2%, RECORD 2%", INTERLOCKED),
        (
            "FIELD #2%, 512% AS A$, 512% AS B$ : LSET A$='A' : LSET B$='B'",
            READY,
        ),
        (
            "GET #2%, RECORD 4% : PRINT RECOUNT; ASCII(A$); B$=STRING$(512%,0%)",
            " 512  0 -1 \nReady\n",
        ),
        ("PUT #1%, RECORD 3%", INTERLOCKED),
        ("GET #2%, RECORD 2%", INTERLOCKED),
        ("UNLOCK #1%", READY),
        ("GET #2%, RECORD 2%", READY),
        ("GET #1%, RECORD 3%", INTERLOCKED),
        (
            "OPEN 'DATA' AS FILE 3%, RECORDSIZE 1000%",
            "?Illegal byte count for I/O\nReady\n",
        ),
    ]],
);

static BLOCKS: [System<'static>; 5] = [
    CODES_60_40_AND_2,
    PAST_THE_END,
    DISK_OF_THREE_BLOCKS,
    TWO_CHANNELS_FOR_UPDATE,
    RECORDS_OF_TWO_BLOCKS,
];

#[test]
fn blocks_are_refused_held_and_made(rt: HostRuntime) -> Result<(), Fail> {
    expect_systems(&rt, rt.alloc(), &BLOCKS)
}

/// What was put through fields is there again, and the variable is empty until it is fielded anew.
const FIELDS_OF_A_BLOCK: System<'static> = (
    ONE_ACCOUNT,
    &[&[
        LOGIN,
        ("OPEN 'A' AS FILE 1% : FIELD #1%,10% AS A$", READY),
        ("FIELD #1%,4% AS B$,6% AS C$", READY),
        (
            "LSET A$='ABCDEFGHIJKL' : PRINT A$; '/'; B$; '/'; C$",
            "ABCDEFGHIJ/ABCD/EFGHIJ\nReady\n",
        ),
        ("PUT #1% : CLOSE #1% : PRINT LEN(A$)", " 0 \nReady\n"),
        (
            "OPEN 'A' AS FILE 1% : GET #1% : PRINT LEN(A$)",
            " 0 \nReady\n",
        ),
        ("FIELD #1%,10% AS A$ : PRINT A$", "ABCDEFGHIJ\nReady\n"),
    ]],
);

const TEXTS_OF_512_BYTES_IN_A_FILE: System<'static> = (
    ONE_ACCOUNT,
    &[&[
        LOGIN,
        ("10 DIM #1%, S$(3%)=512%", ""),
        ("20 OPEN 'S' AS FILE 1%", ""),
        ("30 S$(1%)='AB'+CHR$(0%)+'C'+CHR$(0%)", ""),
        ("40 PRINT LEN(S$(1%)) : CLOSE 1%", ""),
        ("50 OPEN 'S' FOR INPUT AS FILE 1%", ""),
        ("60 PRINT LEN(S$(0%)); LEN(S$(1%))", ""),
        ("70 PRINT S$(2%)", ""),
        (
            "RUNNH",
            " 4 \n 0  4 \n?End of file on device at line 70\nReady\n",
        ),
        ("CAT", "S     .        2  <60>\nReady\n"),
    ]],
);

const NUMBERS_OVER_TWO_BLOCKS: System<'static> = (
    ONE_ACCOUNT,
    &[&[
        LOGIN,
        ("10 DIM #1%, A%(300%)", ""),
        ("20 OPEN 'A' AS FILE 1% : A%(256%)=7% : CLOSE 1%", ""),
        ("30 OPEN 'A' AS FILE 1% : PRINT A%(255%); A%(256%)", ""),
        ("40 FIELD #1%, 2% AS B$ : GET #1%, RECORD 2%", ""),
        ("50 PRINT ASCII(B$); ASCII(RIGHT(B$,2%))", ""),
        ("60 PRINT 1%+A%(301%)", ""),
        (
            "RUNNH",
            " 0  7 \n 7  0 \n?Subscript out of range at line 60\nReady\n",
        ),
        ("CAT", "A     .        2  <60>\nReady\n"),
        ("PRINT A%(256%)", "?Subscript out of range\nReady\n"),
    ]],
);

/// An element is a target of READ and INPUT, and is within an argument.
const ELEMENTS_AS_TARGETS: System<'static> = (
    ONE_ACCOUNT,
    &[&[
        LOGIN,
        ("10 DIM #1%, N$(4%)=8%, V%(4%)", ""),
        ("20 DEF FNT%(X%)=2%*V%(X%)", ""),
        ("30 OPEN 'E' AS FILE 1%", ""),
        ("40 READ N$(1%), V%(1%) : INPUT N$(2%), V%(2%)", ""),
        ("50 V%(0%), V%(3%)=FNT%(V%(1%))+V%(2%)", ""),
        ("60 PRINT N$(1%); V%(0%); N$(V%(1%)); V%(3%)", ""),
        ("70 DATA ADA, 2", ""),
        ("RUNNH", "? "),
        ("A LONG NAME, 5", "ADA 15 A LONG N 15 \nReady\n"),
    ]],
);

const TEXT_IS_READ_BACK: System<'static> = (
    ONE_ACCOUNT,
    &[&[
        LOGIN,
        ("OPEN 'T' FOR OUTPUT AS FILE 1%", READY),
        ("PRINT #1%,'AB' : PRINT POS(1%) : CLOSE 1%", " 0 \nReady\n"),
        ("OPEN 'T' FOR INPUT AS FILE 1%", READY),
        ("INPUT LINE #1%,L$ : PRINT LEN(L$); L$;", " 4 AB\nReady\n"),
        ("INPUT LINE #1%,L$", END_OF_FILE),
    ]],
);

/// The bytes of a PRINT USING wait while the disk has no space for them, and are written once it
/// has.
const REFUSED_PUT_OF_A_FORMAT: System<'static> = (
    "RSTS-DECK 1\nDISK 1\nACCOUNT 100,5 DEMO 100\nFILE [100,5]FULL<60> 1\n",
    &[&[
        LOGIN,
        ("OPEN 'T' FOR OUTPUT AS FILE 1%", READY),
        ("PRINT #1%, USING '##','A'", "?Data format error\nReady\n"),
        ("PRINT POS(1%) : F$='\\'+SPACE$(510%)+'\\'", " 0 \nReady\n"),
        (
            "PRINT #1%, USING F$,'A'",
            "?No room for user on device\nReady\n",
        ),
        ("PRINT POS(1%) : KILL 'FULL'", " 512 \nReady\n"),
        (
            "PRINT #1%, USING F$,'A';",
            "?No room for user on device\nReady\n",
        ),
        ("CAT", "T     .        1  <60>\nReady\n"),
    ]],
);

static CHANNELS: [System<'static>; 6] = [
    FIELDS_OF_A_BLOCK,
    TEXTS_OF_512_BYTES_IN_A_FILE,
    NUMBERS_OVER_TWO_BLOCKS,
    ELEMENTS_AS_TARGETS,
    TEXT_IS_READ_BACK,
    REFUSED_PUT_OF_A_FORMAT,
];

#[test]
fn fields_elements_and_texts_of_files(rt: HostRuntime) -> Result<(), Fail> {
    expect_systems(&rt, rt.alloc(), &CHANNELS)
}

const ILLEGAL_SYS: &str = "?Illegal SYS() usage\nReady\n";

const MESSAGES_TO_ITSELF: System<'static> = (
    ONE_ACCOUNT,
    &[&[
        LOGIN,
        ("M$=CHR$(6%)+CHR$(22%) : T$=M$+CHR$(255%)+'ORDERS'", READY),
        ("X$=SYS(T$+'A')", NO_FILE),
        ("X$=SYS(M$+CHR$(1%)+'ORDERS'+CHR$(2%))", READY),
        ("X$=SYS(M$+CHR$(2%))", NO_FILE),
        ("X$=SYS(T$+'A') : X$=SYS(T$+STRING$(512%,66%))", READY),
        ("X$=SYS(T$+'C')", "?No buffer space available\nReady\n"),
        ("X$=SYS(T$+STRING$(513%,66%))", ILLEGAL_SYS),
        (
            "X$=SYS(M$+CHR$(1%)+'OTHER '+CHR$(2%))",
            "?Name or account now exists\nReady\n",
        ),
        ("X$=SYS(M$+CHR$(1%)+'OTHER'+CHR$(2%))", ILLEGAL_SYS),
        ("X$=SYS(M$+CHR$(1%)+'OTHER '+CHR$(33%))", ILLEGAL_SYS),
        ("A$=SYS(M$+CHR$(2%))", READY),
        (
            "PRINT ASCII(A$); ASCII(RIGHT(A$,2%)); ASCII(RIGHT(A$,3%)); RIGHT(A$,4%)",
            " 1  100  5 A\nReady\n",
        ),
        (
            "X$=SYS(T$+'D') : PRINT LEN(SYS(M$+CHR$(2%)))",
            " 515 \nReady\n",
        ),
        ("X$=SYS(M$+CHR$(0%)) : X$=SYS(T$)", NO_FILE),
    ]],
);

const CALLS_OF_SYS: System<'static> = (
    ONE_ACCOUNT,
    &[&[
        LOGIN,
        ("PRINT ASCII(SYS(CHR$(6%)+CHR$(128%)))", " 1 \nReady\n"),
        (
            "PRINT SYS(CHR$(6%)+CHR$(9%)+CHR$(19%))",
            "Disk block is interlocked\nReady\n",
        ),
        ("X$=SYS(CHR$(99%))", ILLEGAL_SYS),
        ("X$=SYS(CHR$(8%)+'HI')", READY),
        ("X$=SYS(CHR$(8%)+SPACE$(128%))", ILLEGAL_SYS),
        ("NEW", READY),
        ("PRINT SYS(CHR$(7%))", "HI\nReady\n"),
    ]],
);

const MANY_CALLS: &str =
    "RSTS-DECK 1\nDISK 200\nACCOUNT 100,5 DEMO 16384\nFILE [100,5]DATA<60> 1\n";

/// One holds a block until a message says that the other was refused, and the other polls for it.
const A_HELD_BLOCK_IS_POLLED_FOR: System<'static> = (
    MANY_CALLS,
    &[
        &[
            LOGIN,
            ("10 ON ERROR GOTO 90 : M$=CHR$(6%)+CHR$(22%)", ""),
            ("20 X$=SYS(M$+CHR$(1%)+'HOLDER'+CHR$(1%))", ""),
            ("30 OPEN 'DATA' AS FILE 1%, MODE 1% : GET #1%", ""),
            ("40 X$=SYS(M$+CHR$(255%)+'POLLER')", ""),
            ("50 X$=SYS(M$+CHR$(2%)) : UNLOCK #1% : PRINT 'LET GO'", ""),
            ("60 END", ""),
            ("90 IF ERR<>5% THEN ON ERROR GOTO 0", ""),
            ("100 K%=0% : K%=K%+1% WHILE K%<1000%", ""),
            ("110 SLEEP 1% : RESUME", ""),
            ("RUNNH", "LET GO\nReady\n"),
        ],
        &[
            LOGIN,
            ("10 ON ERROR GOTO 90 : M$=CHR$(6%)+CHR$(22%)", ""),
            ("20 X$=SYS(M$+CHR$(1%)+'POLLER'+CHR$(1%))", ""),
            ("30 X$=SYS(M$+CHR$(2%))", ""),
            ("40 OPEN 'DATA' AS FILE 1%, MODE 1%", ""),
            ("50 GET #1% : PRINT 'GOT IT' : END", ""),
            ("90 IF ERR<>5% AND ERR<>19% THEN ON ERROR GOTO 0", ""),
            ("100 IF ERR=19% AND L%=0% THEN 130", ""),
            ("110 K%=0% : K%=K%+1% WHILE K%<1000%", ""),
            ("120 SLEEP 1% : RESUME", ""),
            ("130 PRINT 'REFUSED'", ""),
            ("140 L%=1% : X$=SYS(M$+CHR$(255%)+'HOLDER') : GOTO 110", ""),
            ("RUNNH", "REFUSED\nGOT IT\nReady\n"),
        ],
    ],
);

/// Eight customers are in a block; each balance is changed. It takes 250 calls, and 4 Ticks.
const A_THOUSAND_CUSTOMERS: System<'static> = (
    MANY_CALLS,
    &[&[
        LOGIN,
        ("10 OPEN 'CUSTOM' FOR OUTPUT AS FILE 1%", ""),
        ("20 FOR B%=1% TO 125%", ""),
        ("30 PUT #1%", ""),
        ("40 NEXT B%", ""),
        ("50 CLOSE 1% : OPEN 'CUSTOM' AS FILE 1%, MODE 1%", ""),
        ("60 FOR B%=1% TO 125%", ""),
        ("70 GET #1%, RECORD B%", ""),
        ("80 FOR R%=0% TO 7%", ""),
        ("90 FIELD #1%, 64%*R% AS D$, 20% AS N$, 2% AS B$", ""),
        ("100 LSET N$='CUSTOMER '+NUM1$(8%*(B%-1%)+R%)", ""),
        ("110 LSET B$=CVT%$(CVT$%(B$)+B%)", ""),
        ("120 NEXT R%", ""),
        ("130 PUT #1%, RECORD B%", ""),
        ("140 NEXT B%", ""),
        ("150 GET #1%, RECORD 125% : PRINT N$; CVT$%(B$)", ""),
        ("160 S$=SYS(CHR$(6%)+CHR$(128%))", ""),
        ("170 PRINT CVT$%(RIGHT(S$,4%))", ""),
        ("RUNNH", "CUSTOMER 999         125 \n 384 \nReady\n"),
    ]],
);

static JOBS: [System<'static>; 4] = [
    MESSAGES_TO_ITSELF,
    CALLS_OF_SYS,
    A_HELD_BLOCK_IS_POLLED_FOR,
    A_THOUSAND_CUSTOMERS,
];

#[test]
fn jobs_send_poll_and_keep_customers(rt: HostRuntime) -> Result<(), Fail> {
    expect_systems(&rt, rt.alloc(), &JOBS)
}
