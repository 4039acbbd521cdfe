//! Constants and variables as operands of operators, relations, functions and stores.

use crate::talks::{Row, expect_of_lines};
use std::test::Fail;

static LEAVES: [Row; 15] = [
    ("10 A$='AB' : A$=A$+'X' : PRINT A$;LEN(A$);ASCII(A$)", ""),
    (
        "20 B$=MID(A$,2%,2%) : PRINT B$;'/';LEFT(A$,1%);RIGHT(A$,2%);\
         INSTR(1%,A$,B$);INSTR(1%,'AXBX',B$)",
        "",
    ),
    (
        "30 PRINT A$<B$;'BX  '=B$;B$=='BX  ';A$+B$>B$+A$;A$+B$=='ABXBX';VAL('12')",
        "",
    ),
    (
        "40 A%=5% : B%=A%-7% : PRINT B%;A%*B%;A%/2%;A%<B%;A%-B%-7%>=0%;ABS%(B%);32767%+1%",
        "",
    ),
    ("50 C$=B$ : B$='' : D%=A% : A%=0% : PRINT C$;B$;D%;A%", ""),
    ("60 ON ERROR GOTO 90", ""),
    ("70 PRINT 'A'; : D%=D%/A%", ""),
    ("80 PRINT 'B'; : D%=D%*2%/A%", ""),
    (
        "90 PRINT ERR;ERL;D%; : IF ERL=70% THEN RESUME 80 ELSE RESUME 100",
        "",
    ),
    ("100 T$=SPACE$(32767%) : PRINT LEN(T$) : T$=T$+'X'", ""),
    (
        "RUNNH",
        "ABX 3  65 \nBX/ABX 2  3 \n-1 -1  0  0 -1  12 \n-2 -10  2  0 -1  2 -32768 \nBX 5  0 \n\
         A 61  70  5 B 61  80  5  32767 \n?String too long at line 100\nReady\n",
    ),
    (
        "PRINT LEN(T$);INSTR(32767%,T$,' ')",
        " 32767  32767 \nReady\n",
    ),
    ("PRINT LEN('A'+C$+T$)", "?String too long\nReady\n"),
    (
        "PRINT LEN(XLATE('ABC',T$));LEN(RIGHT(T$,32767%))",
        " 3  1 \nReady\n",
    ),
    ("PRINT T$==T$;T$<>' ';T$>C$", "-1  0  0 \nReady\n"),
];

/// Checks that their values, faults and halts are those that they have one by one.
#[test]
fn leaves_are_taken_where_they_stand(rt: HostRuntime) -> Result<(), Fail> {
    expect_of_lines(rt.alloc(), &LEAVES)
}

/// A string that is stored to the variable from which it was loaded, in a line and in a program;
/// one that another variable takes; and one that was never stored.
static STORED_BACK: [Row; 7] = [
    ("10 A$='0123' : B$=A$ : A$=A$+'45' : PRINT A$;'/';B$", ""),
    ("20 B$=A$+'X' : A$=B$+'Y' : PRINT A$;'/';B$", ""),
    (
        "30 A$=RIGHT(A$,3%) : C%=4% : A$=LEFT(A$,C%) \
         : A$=MID(A$,2%,2%) : B$=LEFT(A$,1%) : PRINT A$;'/';B$",
        "",
    ),
    (
        "40 A$=MID(A$,C%,1%) : D$=D$+'D' : E$=RIGHT(E$,1%) : PRINT A$;'/';D$;'/';E$;LEN(E$)",
        "",
    ),
    (
        "RUNNH",
        "012345/0123\n012345XY/012345X\n34/3\n/D/ 0 \nReady\n",
    ),
    ("D$=D$+'' : D$=RIGHT(D$,-1%) : PRINT D$", "D\nReady\n"),
    ("D$=LEFT(D$,-1%) : PRINT LEN(D$);B$", " 0 3\nReady\n"),
];

/// Checks that the string is changed in place, and shows what a string would that is made and
/// stored.
#[test]
fn texts_are_stored_back(rt: HostRuntime) -> Result<(), Fail> {
    expect_of_lines(rt.alloc(), &STORED_BACK)
}

/// A number that a function gives of a string: alone, in sums, as a subscript, as a limit, as the
/// value of two bytes, and at an error.
static NUMBERS_OF_TEXTS: [Row; 10] = [
    (
        "10 A$='AB' : B%=LEN(A$)*10%+ASCII(A$) : PRINT B%;LEN(A$);-LEN(A$);LEN(B$);ASCII(B$)",
        "",
    ),
    (
        "20 C%=CVT$%(A$) : PRINT C%;CVT$%(A$)-C%;CVT%$(C%);LEN(CVT%$(C%))",
        "",
    ),
    (
        "30 IF LEN(A$)=2% THEN PRINT 'TWO'; : IF ASCII(A$)<65% THEN PRINT 'LOW' ELSE PRINT 'HIGH'",
        "",
    ),
    (
        "40 D%(LEN(A$))=7% : PRINT D%(2%);D%(LEN(A$));D%(LEN(A$)-1%)",
        "",
    ),
    (
        "50 FOR I%=LEN(A$) TO LEN(A$)+1% : PRINT I%; : NEXT I% : PRINT",
        "",
    ),
    ("60 ON ERROR GOTO 70 : PRINT 1%/LEN(B$)", ""),
    ("70 PRINT ERR;ERL : RESUME 80", ""),
    (
        "80 LSET A$=CVT%$(LEN(A$)+16961%) : PRINT A$ : RSET A$=CVT%$(SWAP%(CVT$%(A$))) : PRINT A$",
        "",
    ),
    (
        "RUNNH",
        " 85  2 -2  0  0 \n 16706  0 AB 2 \nTWOHIGH\n 7  7  0 \n 2  3 \n 61  60 \nBC\nCB\nReady\n",
    ),
    (
        "PRINT LEN(A$)+LEN(B$)*2%;ASCII(A$)<>ASCII(B$)",
        " 2 -1 \nReady\n",
    ),
];

/// Checks that such a number can be used wherever a number can. If its bytes are stored at once, no
/// string is made of it.
#[test]
fn numbers_of_texts(rt: HostRuntime) -> Result<(), Fail> {
    expect_of_lines(rt.alloc(), &NUMBERS_OF_TEXTS)
}
