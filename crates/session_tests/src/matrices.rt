//! MAT: what its statements read, store and write, and their errors.

use crate::talks::{Answer, READY, Row, expect_of_files, expect_of_lines};
use crate::told::joined;
use std::alloc::Global;
use std::test::Fail;

const OUT_OF_RANGE: &str = "?Subscript out of range\nReady\n";

const NO_ROOM: &str = "?Maximum memory exceeded at line 20\nReady\n";

const IN_A_FILE: &str = "?Virtual array in MAT at line 20\nReady\n";

/// Lines after the login with what they show.
type Lines = &'static [Row];

fn expect_each(alloc: Global, sessions: &[Lines]) -> Result<(), Fail> {
    for lines in sessions {
        expect_of_lines(alloc, lines)?;
    }
    Ok(())
}

// VALUES

const PRODUCT: Lines = &[
    ("10 DIM A%(2%,2%),B%(2%,2%)", ""),
    ("20 MAT READ A%", ""),
    ("30 MAT B%=A%*A%", ""),
    ("40 MAT PRINT B%;", ""),
    ("50 DATA 1,2,3,4", ""),
    ("RUNNH", " 7  10 \n 15  22 \nReady\n"),
    ("30 MAT A%=A%*A%", ""),
    ("40 MAT PRINT A%;", ""),
    ("RUNNH", " 7  10 \n 15  22 \nReady\n"),
];

const RECTANGLES: Lines = &[
    ("10 DIM A%(2%,3%),B%(3%,2%),C%(2%,2%),D%(3%,3%)", ""),
    ("20 MAT READ A%", ""),
    ("30 MAT B%=TRN(A%) : MAT PRINT B%;", ""),
    ("40 MAT C%=A%*B% : MAT PRINT C%;", ""),
    ("50 MAT D%=B%*A% : MAT PRINT D%;", ""),
    ("60 DATA 1,2,3,4,5,6", ""),
    (
        "RUNNH",
        " 1  4 \n 2  5 \n 3  6 \n 14  32 \n 32  77 \n \
         17  22  27 \n 22  29  36 \n 27  36  45 \nReady\n",
    ),
];

/// An array of one subscript has one element in each row.
const OF_ONE_SUBSCRIPT: Lines = &[
    ("10 DIM A%(3%),B%(3%)", ""),
    ("20 MAT READ A% : MAT B%=CON", ""),
    ("30 MAT B%=A%+B% : MAT PRINT B%;", ""),
    ("40 MAT A%=(2%)*A% : MAT A%=A%-B% : MAT PRINT A%", ""),
    ("50 MAT B%=A% : MAT PRINT B%,", ""),
    ("60 MAT A%=ZER : MAT PRINT A%;", ""),
    ("70 DATA 1,2,3", ""),
    (
        "RUNNH",
        " 2 \n 3 \n 4 \n 0 \n 1 \n 2 \n 0 \n 1 \n 2 \n 0 \n 0 \n 0 \nReady\n",
    ),
];

/// A product over no middle subscript is 0, and an array without elements takes none.
const WITHOUT_ELEMENTS: Lines = &[
    ("10 DIM A%(2%,0%),B%(0%,2%),C%(2%,2%),D%(0%,0%),E%(0%)", ""),
    ("20 MAT READ A%,B%,C%,D%,E%", ""),
    ("30 MAT C%=A%*B% : MAT D%=IDN : MAT D%=B%*A%", ""),
    ("40 MAT PRINT C%; : MAT PRINT D%;", ""),
    ("50 DATA 1,2,3,4", ""),
    ("RUNNH", " 0  0 \n 0  0 \nReady\n"),
    ("MAT B%=IDN", OUT_OF_RANGE),
    ("MAT PRINT A%;", "\n\nReady\n"),
    ("MAT PRINT A%,", "\n\nReady\n"),
    ("MAT PRINT A%", READY),
    ("MAT PRINT B%;", READY),
    ("MAT PRINT E%;", READY),
];

static VALUES: [Lines; 4] = [PRODUCT, RECTANGLES, OF_ONE_SUBSCRIPT, WITHOUT_ELEMENTS];

#[test]
fn values_of_matrices(rt: HostRuntime) -> Result<(), Fail> {
    expect_each(rt.alloc(), &VALUES)
}

/// A statement, and what it leaves in B%. It began as 0 1, 2 0, and A% as 1 2, 3 4.
static LEFT_IN_B: [Row; 22] = [
    ("MAT B%=ZER", " 0  0 \n 0  0 \n"),
    ("MAT B%=CON", " 1  1 \n 1  1 \n"),
    ("MAT B%=IDN", " 1  0 \n 0  1 \n"),
    ("MAT B%=A%", " 1  2 \n 3  4 \n"),
    ("MAT B%=B%", " 0  1 \n 2  0 \n"),
    ("MAT B%=A%+B%", " 1  3 \n 5  4 \n"),
    ("MAT B%=B%+A%", " 1  3 \n 5  4 \n"),
    ("MAT B%=B%+B%", " 0  2 \n 4  0 \n"),
    ("MAT B%=A%-B%", " 1  1 \n 1  4 \n"),
    ("MAT B%=B%-A%", "-1 -1 \n-1 -4 \n"),
    ("MAT B%=B%-B%", " 0  0 \n 0  0 \n"),
    ("MAT B%=A%*B%", " 4  1 \n 8  3 \n"),
    ("MAT B%=B%*A%", " 3  4 \n 2  4 \n"),
    ("MAT B%=B%*B%", " 2  0 \n 0  2 \n"),
    ("MAT B%=(A%(2%,1%)-5%)*A%", "-2 -4 \n-6 -8 \n"),
    ("MAT B%=(B%(2%,1%))*B%", " 0  2 \n 4  0 \n"),
    ("MAT B%=TRN(A%)", " 1  3 \n 2  4 \n"),
    ("MAT B%=TRN(B%)", " 0  2 \n 1  0 \n"),
    ("MAT B%=(16384%)*A%", " 16384 -32768 \n-16384  0 \n"),
    ("A%(1%,1%)=32767% : MAT B%=A%+A%", "-2  4 \n 6  8 \n"),
    ("B%(1%,2%)=-32767% : MAT B%=B%-A%", "-1  32767 \n-1 -4 \n"),
    ("A%(1%,1%)=300% : MAT B%=A%*A%", " 24470  608 \n 912  22 \n"),
];

fn expect_left_in_b(alloc: Global, statement: &str, rows: &str) -> Result<(), Fail> {
    let line = joined(alloc, &["30 ", statement])?;
    let shown = joined(alloc, &[rows, READY])?;
    let lines = [
        ("10 DIM A%(2%,2%),B%(2%,2%)", ""),
        ("20 MAT READ A%,B%", ""),
        (line.as_str(), ""),
        ("40 MAT PRINT B%;", ""),
        ("50 DATA 1,2,3,4,0,1,2,0", ""),
        ("RUNNH", shown.as_str()),
    ];
    expect_of_lines(alloc, &lines)
}

/// Checks that a value is computed before it is stored, also if the target is among the operands.
#[test]
fn a_value_is_formed_before_it_is_stored(rt: HostRuntime) -> Result<(), Fail> {
    for (statement, rows) in LEFT_IN_B.iter() {
        expect_left_in_b(rt.alloc(), statement, rows)?;
    }
    Ok(())
}

/// A statement, and the element with the subscripts 1 and 1 that it leaves, which was 5. Those with
/// a subscript 0 were 2, 3 and 4.
static BESIDE_0: [Row; 10] = [
    ("MAT A%=ZER", "0"),
    ("MAT A%=CON", "1"),
    ("MAT A%=IDN", "1"),
    ("MAT A%=B%", "6"),
    ("MAT A%=A%+B%", "11"),
    ("MAT A%=A%-A%", "0"),
    ("MAT A%=A%*A%", "25"),
    ("MAT A%=(2%)*A%", "10"),
    ("MAT A%=TRN(A%)", "5"),
    ("MAT READ A%", "7"),
];

fn expect_beside_0(alloc: Global, statement: &str, element: &str) -> Result<(), Fail> {
    let line = joined(alloc, &["30 ", statement])?;
    let shown = joined(alloc, &[" 2  3  4  ", element, " \n", READY])?;
    let lines = [
        (
            "10 DIM A%(1%,1%),B%(1%,1%) : MAT B%=CON : MAT B%=(6%)*B%",
            "",
        ),
        (
            "20 A%(0%,0%)=2% : A%(0%,1%)=3% : A%(1%,0%)=4% : A%(1%,1%)=5%",
            "",
        ),
        (line.as_str(), ""),
        ("40 PRINT A%(0%,0%);A%(0%,1%);A%(1%,0%);A%(1%,1%)", ""),
        ("50 DATA 7", ""),
        ("RUNNH", shown.as_str()),
    ];
    expect_of_lines(alloc, &lines)
}

/// Checks that they are no part of a matrix in an operand either.
#[test]
fn elements_with_a_subscript_0_stay(rt: HostRuntime) -> Result<(), Fail> {
    for (statement, element) in BESIDE_0.iter() {
        expect_beside_0(rt.alloc(), statement, element)?;
    }
    Ok(())
}

// ERROR 55

/// Arrays of five shapes, each with 1 in all elements.
const SHAPES: &str = "10 DIM A%(2%,3%),B%(2%,2%),C%(3%,3%),V%(2%),W%(2%,1%)";

const ONES: &str = "20 MAT A%=CON : MAT B%=CON : MAT C%=CON : MAT V%=CON : MAT W%=CON";

const PRINTED: &str =
    "MAT PRINT A%; : MAT PRINT B%; : MAT PRINT C%; : MAT PRINT V%; : MAT PRINT W%;";

const ALL_ONES: &str =
    " 1  1  1 \n 1  1  1 \n 1  1 \n 1  1 \n 1  1  1 \n 1  1  1 \n 1  1  1 \n 1 \n 1 \n 1 \n 1 \n\
    Ready\n";

static MISMATCHED: [&str; 27] = [
    "MAT A%=IDN",
    "MAT V%=IDN",
    "MAT W%=IDN",
    "MAT B%=TRN(A%)",
    "MAT A%=TRN(A%)",
    "MAT V%=TRN(V%)",
    "MAT W%=TRN(V%)",
    "MAT V%=TRN(W%)",
    "MAT B%=A%*A%",
    "MAT A%=A%*A%",
    "MAT B%=A%*C%",
    "MAT C%=A%*C%",
    "MAT W%=B%*V%",
    "MAT V%=B%*W%",
    "MAT V%=V%*V%",
    "MAT B%=A%",
    "MAT W%=V%",
    "MAT V%=W%",
    "MAT B%=A%+A%",
    "MAT A%=A%+B%",
    "MAT A%=A%-C%",
    "MAT V%=V%+W%",
    "MAT W%=V%-V%",
    "MAT W%=W%-V%",
    "MAT B%=(2%)*A%",
    "MAT V%=(2%)*W%",
    "MAT W%=(2%)*V%",
];

fn expect_nothing_stored(alloc: Global, statement: &str) -> Result<(), Fail> {
    let lines = [
        (SHAPES, ""),
        (ONES, ""),
        ("RUNNH", READY),
        (statement, OUT_OF_RANGE),
        (PRINTED, ALL_ONES),
    ];
    expect_of_lines(alloc, &lines)
}

#[test]
fn what_does_not_fit_stores_nothing(rt: HostRuntime) -> Result<(), Fail> {
    for statement in MISMATCHED.iter() {
        expect_nothing_stored(rt.alloc(), statement)?;
    }
    Ok(())
}

// ARRAYS THAT ARE NOT MADE

/// They get two subscripts to 10, also if the statement then fails.
const NOT_MADE: Lines = &[
    (
        "MAT A%=IDN : PRINT A%(10%,10%);A%(9%,10%);A%(0%,0%)",
        " 1  0  0 \nReady\n",
    ),
    ("PRINT A%(11%,1%)", OUT_OF_RANGE),
    (
        "MAT B%=A%+C% : PRINT B%(7%,7%);C%(7%,7%)",
        " 1  0 \nReady\n",
    ),
    ("C%(1%)=1%", OUT_OF_RANGE),
    ("MAT READ D%", "?Out of data\nReady\n"),
    ("D%(1%)=1%", OUT_OF_RANGE),
    ("E%(1%)=1% : MAT E%=F%", OUT_OF_RANGE),
    ("F%(1%)=1%", OUT_OF_RANGE),
    ("MAT PRINT G%, IF 0% : G%(1%)=1%", READY),
];

/// The number before an array is evaluated before any is made.
const NUMBER_FIRST: Lines = &[
    ("10 DEF FNA%(X%)", ""),
    ("20 B%(1%)=7%", ""),
    ("30 FNA%=2%", ""),
    ("40 FNEND", ""),
    ("50 MAT C%=(FNA%(1%))*B%", ""),
    ("RUNNH", "?Subscript out of range at line 50\nReady\n"),
    ("PRINT B%(1%)", " 7 \nReady\n"),
    ("C%(1%)=1%", OUT_OF_RANGE),
    ("MAT D%=(1%/0%)*D%", "?Division by 0\nReady\n"),
    ("D%(1%)=1%", READY),
];

/// There is space for one array of two subscripts to 10, which is made in the order of the source,
/// and then for 11 elements twice. The halt is not trapped, and nothing is read or stored.
const ROOM_FOR_ONE: Lines = &[
    ("10 ON ERROR GOTO 40 : DIM F%(32767%,2%),G%(32600%)", ""),
    ("20 MAT READ A%,B%", ""),
    ("30 DATA 1,2,3", ""),
    ("40 PRINT ERR", ""),
    ("RUNNH", NO_ROOM),
    ("PRINT A%(1%,1%)", " 0 \nReady\n"),
    ("A%(1%)=1%", OUT_OF_RANGE),
    ("B%(1%)=1%", READY),
    ("20 MAT C%=A%*B%", ""),
    ("RUNNH", NO_ROOM),
    ("C%(1%)=1%", OUT_OF_RANGE),
    ("A%(1%)=1% : B%(1%)=1%", READY),
    ("MAT PRINT D%", "?Maximum memory exceeded\nReady\n"),
];

const ROOM_TO_THE_LAST: Lines = &[
    ("10 DIM F%(32767%,2%),G%(32646%)", ""),
    ("20 MAT A%=IDN : MAT A%=A%*A% : MAT A%=A%+A%", ""),
    ("RUNNH", READY),
    ("PRINT A%(10%,10%)", " 2 \nReady\n"),
    ("10 DIM F%(32767%,2%),G%(32647%)", ""),
    ("RUNNH", NO_ROOM),
];

static MADE: [Lines; 4] = [NOT_MADE, NUMBER_FIRST, ROOM_FOR_ONE, ROOM_TO_THE_LAST];

#[test]
fn arrays_that_are_not_made(rt: HostRuntime) -> Result<(), Fail> {
    expect_each(rt.alloc(), &MADE)
}

// MAT READ

/// READ and MAT READ take from one list.
const ONE_LIST: Lines = &[
    ("10 DIM A%(1%,2%)", ""),
    ("20 READ X% : MAT READ A%,A% : READ Y%", ""),
    ("30 PRINT X%;Y%;A%(1%,1%);A%(1%,2%)", ""),
    ("40 RESTORE : MAT READ A% : MAT PRINT A%;", ""),
    ("50 DATA 1,2,3", ""),
    ("60 DATA 4,5, 6 ", ""),
    ("RUNNH", " 1  6  4  5 \n 1  2 \nReady\n"),
];

const OUT_OF_DATA: Lines = &[
    ("10 ON ERROR GOTO 50", ""),
    ("20 DIM A%(2%,2%),B%(1%,1%)", ""),
    ("30 MAT READ B%,A%", ""),
    ("40 DATA 9,1,2", ""),
    ("50 PRINT ERR;ERL : MAT PRINT B%; : MAT PRINT A%;", ""),
    ("RUNNH", " 57  30 \n 9 \n 1  2 \n 0  0 \nReady\n"),
    ("10", ""),
    ("RUNNH", "?Out of data at line 30\nReady\n"),
    ("MAT PRINT A%;", " 1  2 \n 0  0 \nReady\n"),
    ("MAT READ A%", "?Out of data\nReady\n"),
];

/// An item that is rejected counts as read, and RESUME begins the statement again.
const REFUSED_ITEMS: Lines = &[
    ("10 ON ERROR GOTO 60", ""),
    ("20 DIM A%(2%,2%)", ""),
    ("30 MAT READ A%", ""),
    ("40 MAT PRINT A%; : END", ""),
    ("50 DATA 1,X,2,40000,'3',3,4,5,6,7", ""),
    ("60 PRINT ERR;ERL : MAT PRINT A%; : RESUME", ""),
    (
        "RUNNH",
        " 50  30 \n 1  0 \n 0  0 \n 51  30 \n 2  0 \n 0  0 \n \
         50  30 \n 2  0 \n 0  0 \n 3  4 \n 5  6 \nReady\n",
    ),
];

static READING: [Lines; 3] = [ONE_LIST, OUT_OF_DATA, REFUSED_ITEMS];

#[test]
fn matrices_are_read(rt: HostRuntime) -> Result<(), Fail> {
    expect_each(rt.alloc(), &READING)
}

// MAT PRINT

const ROWS: Lines = &[
    ("10 DIM A%(2%,2%)", ""),
    ("20 MAT READ A%", ""),
    ("30 DATA 1,-2,30,4", ""),
    ("RUNNH", READY),
    ("MAT PRINT A%", " 1 \n-2 \n 30 \n 4 \nReady\n"),
    ("MAT PRINT A%;", " 1 -2 \n 30  4 \nReady\n"),
    (
        "MAT PRINT A%,",
        " 1            -2 \n 30            4 \nReady\n",
    ),
    ("PRINT 'X'; : MAT PRINT A%", "X 1 \n-2 \n 30 \n 4 \nReady\n"),
    ("PRINT 'X'; : MAT PRINT A%;", "X 1 -2 \n 30  4 \nReady\n"),
    (
        "PRINT 'X'; : MAT PRINT A%,",
        "X 1           -2 \n 30            4 \nReady\n",
    ),
];

/// A row with more elements than there are zones continues in a new line.
const ZONES: Lines = &[
    ("10 DIM A%(2%,6%) : MAT A%=CON", ""),
    ("20 MAT PRINT A%,", ""),
    (
        "RUNNH",
        " 1             1             1             1             1 \n 1 \n \
         1             1             1             1             1 \n 1 \nReady\n",
    ),
];

static WRITING: [Lines; 2] = [ROWS, ZONES];

#[test]
fn matrices_are_printed(rt: HostRuntime) -> Result<(), Fail> {
    expect_each(rt.alloc(), &WRITING)
}

// ARRAYS IN FILES

/// F% is an array in a file.
static OF_FILES: [&str; 16] = [
    "MAT READ F%",
    "MAT READ A%,F%",
    "MAT PRINT F%",
    "MAT PRINT F%;",
    "MAT F%=ZER",
    "MAT F%=A%",
    "MAT A%=F%",
    "MAT A%=F%+B%",
    "MAT A%=B%+F%",
    "MAT A%=B%-F%",
    "MAT A%=F%*B%",
    "MAT A%=B%*F%",
    "MAT A%=(2%)*F%",
    "MAT A%=TRN(F%)",
    "IF 0% THEN PRINT ELSE MAT F%=IDN",
    "MAT READ F% IF 0%",
];

fn expect_in_a_file(alloc: Global, statement: &str) -> Result<(), Fail> {
    let line = joined(alloc, &["20 ", statement])?;
    let lines = [
        ("10 PRINT 'NOT RUN' : MAT A%=ZER", ""),
        (line.as_str(), ""),
        ("30 DIM #1%,F%(2%,2%)", ""),
        ("RUNNH", IN_A_FILE),
    ];
    expect_of_lines(alloc, &lines)
}

/// An element of such an array is a number as any other, and a line of immediate mode names arrays
/// in memory.
const BESIDE_FILES: Lines = &[
    ("10 DIM #1%,F%(2%,2%)", ""),
    ("20 MAT A%=(F%(1%,1%))*B%", ""),
    ("RUNNH", "?I/O channel not open at line 20\nReady\n"),
    ("MAT F%=CON : PRINT F%(10%,10%)", " 1 \nReady\n"),
    ("MAT B%=F%+F% : PRINT B%(10%,10%)", " 2 \nReady\n"),
];

static WITH_A_FILE: [Row; 3] = [
    ("10 OPEN 'A' AS FILE 1% : DIM #1%,F%(9%)", ""),
    ("20 MAT B%=CON : MAT B%=(F%(1%))*B% : PRINT B%(1%,1%)", ""),
    ("RUNNH", " 17475 \nReady\n"),
];

static ELEMENT_READ: [Answer; 4] = [
    Answer::Opened(1),
    Answer::Block("ABCD"),
    Answer::Done,
    Answer::Done,
];

const FILE_ASKED: &str = "Either [100,5]A Opened 1\nGet 1 Block\nClose 1 Done\n";

#[test]
fn an_array_in_a_file_is_no_matrix(rt: HostRuntime) -> Result<(), Fail> {
    for statement in OF_FILES.iter() {
        expect_in_a_file(rt.alloc(), statement)?;
    }
    expect_of_lines(rt.alloc(), BESIDE_FILES)?;
    expect_of_files(rt.alloc(), &WITH_A_FILE, &ELEMENT_READ, FILE_ASKED)
}

// UNITS

/// A line that takes a unit, and one more for each turn; the answer to the logout, or to a Tick
/// before it; and the requests.
type Units = (&'static str, &'static [Answer], &'static str);

static UNITS: [Units; 2] = [
    ("MAT A%=B%*C% FOR I%=1% TO 998%", &[Answer::Done], ""),
    (
        "MAT A%=B%*C% FOR I%=1% TO 999%",
        &[Answer::Done, Answer::Done],
        "Tick Done\n",
    ),
];

#[test]
fn a_statement_on_matrices_is_one_unit(rt: HostRuntime) -> Result<(), Fail> {
    for (line, answers, asked) in UNITS.iter() {
        expect_of_files(rt.alloc(), &[(*line, READY)], answers, asked)?;
    }
    Ok(())
}
