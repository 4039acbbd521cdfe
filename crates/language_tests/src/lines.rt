//! Lines that have a tree, and lines that are rejected at a token.

use crate::expects::{expect, expect_row};
use basic_line::parse_line;
use basic_scanner::scan;
use basic_tree::{Cause, Line, Refusal};
use basic_values::Trouble;
use std::alloc::{AllocError, Global};
use std::test::Fail;

/// The result for a line. Places are numbers of tokens, from 0.
#[derive(Clone, Copy, PartialEq, Eq)]
enum Answer {
    Tree,
    Syntax(u16),
    TooDeep(u16),
    /// Rejected by the scanner, at this byte.
    Unscanned(u16),
    NoMemory,
    /// It has more bytes than a line can have.
    NoLine,
}

/// A line and its result.
type Row = (&'static [u8], Answer);

fn refused(refusal: Refusal) -> Answer {
    match refusal.cause {
        Cause::Syntax => Answer::Syntax(refusal.place),
        Cause::TooDeep => Answer::TooDeep(refusal.place),
        _ => Answer::Unscanned(refusal.place),
    }
}

fn answer_of(alloc: Global, line: &[u8]) -> Answer {
    if line.len() > 255 {
        return Answer::NoLine;
    }
    match scan(line) {
        Ok(tokens) => parsed(parse_line(alloc, &tokens)),
        Err(refusal) => refused(refusal),
    }
}

fn parsed(answer: Result<Line, Trouble<Refusal>>) -> Answer {
    match answer {
        Ok(_) => Answer::Tree,
        Err(Trouble::Refused(refusal)) => refused(refusal),
        Err(Trouble::NoMemory) => Answer::NoMemory,
    }
}

/// Fails with the first row that has another result.
fn expect_answers(alloc: Global, table: &str, rows: &[Row]) -> Result<(), Fail> {
    for place in 0..rows.len() {
        let (line, answer) = rows[place];
        expect_row(table, place, answer_of(alloc, line) == answer)?;
    }
    Ok(())
}

static ASSIGNMENTS: [Row; 21] = [
    (b"A%=1%", Answer::Tree),
    (b"LET A%=1%", Answer::Tree),
    (b"LET A%,B%(1%),C%(1%,2%)=A%+1%", Answer::Tree),
    (b"A$,B$='X'", Answer::Tree),
    (b"A%=B%=1%", Answer::Tree),
    (b"A%=", Answer::Syntax(2)),
    (b"A%,=1%", Answer::Syntax(2)),
    (b"A%,,B%=1%", Answer::Syntax(2)),
    (b"A%,B$=1%", Answer::Syntax(2)),
    (b"A%='X'", Answer::Syntax(3)),
    (b"A$=1%", Answer::Syntax(2)),
    (b"LET", Answer::Syntax(1)),
    (b"A%", Answer::Syntax(1)),
    (b"A%(1%=2%", Answer::Syntax(5)),
    (b"A%(1%,2%,3%)=1%", Answer::Syntax(5)),
    (b"A%()=1%", Answer::Syntax(2)),
    (b"FNA%=1%", Answer::Tree),
    (b"FNA$='X'", Answer::Tree),
    (b"FNA%='X'", Answer::Syntax(3)),
    (b"FNA$=1%", Answer::Syntax(2)),
    (b"FNA%", Answer::Syntax(1)),
];

fn assignments() -> &'static [Row] {
    &ASSIGNMENTS
}

static PRINTING: [Row; 40] = [
    (b"PRINT", Answer::Tree),
    (b"PRINT 1%", Answer::Tree),
    (b"PRINT 1%;", Answer::Tree),
    (b"PRINT 1%,2%;A$;TAB(3%);'X'", Answer::Tree),
    (b"PRINT #1%", Answer::Tree),
    (b"PRINT #1%,", Answer::Tree),
    (b"PRINT #1%,1%;2%", Answer::Tree),
    (b"PRINT ,1%", Answer::Syntax(1)),
    (b"PRINT 1%,,2%", Answer::Syntax(3)),
    (b"PRINT 1%;;", Answer::Syntax(3)),
    (b"PRINT #1%;'A'", Answer::Syntax(3)),
    (b"PRINT #", Answer::Syntax(2)),
    (b"PRINT 1% 2%", Answer::Syntax(2)),
    (b"PRINT TAB 3%", Answer::Syntax(2)),
    (b"PRINT TAB(3%", Answer::Syntax(4)),
    (b"PRINT TAB('X')", Answer::Syntax(4)),
    (b"INPUT A%", Answer::Tree),
    (b"INPUT 'N';A%,B$(1%)", Answer::Tree),
    (b"INPUT 'N',A$", Answer::Tree),
    (b"INPUT #1%,A%,B%", Answer::Tree),
    (b"INPUT LINE A$", Answer::Tree),
    (b"INPUT LINE #1%,A$", Answer::Tree),
    (b"INPUT", Answer::Syntax(1)),
    (b"INPUT 'N' A%", Answer::Syntax(2)),
    (b"INPUT 'N';", Answer::Syntax(3)),
    (b"INPUT #1%;A%", Answer::Syntax(3)),
    (b"INPUT #1%,'N';A%", Answer::Syntax(4)),
    (b"INPUT LINE A%", Answer::Syntax(2)),
    (b"INPUT LINE A$(1%)", Answer::Syntax(3)),
    (b"INPUT A%,", Answer::Syntax(3)),
    (b"INPUT LINE 'N';A$", Answer::Syntax(2)),
    (b"READ A%", Answer::Tree),
    (b"READ A%,B$,C%(1%)", Answer::Tree),
    (b"READ", Answer::Syntax(1)),
    (b"READ A%,,B%", Answer::Syntax(3)),
    (b"READ 1%", Answer::Syntax(1)),
    (b"RESTORE", Answer::Tree),
    (b"RESTORE 10", Answer::Syntax(1)),
    (b"DATA", Answer::Tree),
    (b"DATA 1,'A,B'", Answer::Tree),
];

fn printing() -> &'static [Row] {
    &PRINTING
}

static JUMPS: [Row; 47] = [
    (b"GOTO 10", Answer::Tree),
    (b"GOTO 32767%", Answer::Tree),
    (b"GO TO 10", Answer::Tree),
    (b"GOSUB 10", Answer::Tree),
    (b"GO SUB 10", Answer::Tree),
    (b"GOTO 0", Answer::Syntax(1)),
    (b"GO 10", Answer::Syntax(1)),
    (b"GOTO", Answer::Syntax(1)),
    (b"GOTO A%", Answer::Syntax(1)),
    (b"GOTO 10 20", Answer::Syntax(2)),
    (b"RETURN", Answer::Tree),
    (b"RETURN 10", Answer::Syntax(1)),
    (b"ON A% GOTO 10", Answer::Tree),
    (b"ON A%+1% GOSUB 10,20,30", Answer::Tree),
    (b"ON A% GO TO 10", Answer::Syntax(2)),
    (b"ON A$ GOTO 10", Answer::Syntax(2)),
    (b"ON A% GOTO", Answer::Syntax(3)),
    (b"ON A% GOTO 10,", Answer::Syntax(5)),
    (b"ON A% GOTO 0", Answer::Syntax(3)),
    (b"ON ERROR GOTO", Answer::Tree),
    (b"ON ERROR GOTO 0", Answer::Tree),
    (b"ON ERROR GOTO 100", Answer::Tree),
    (b"ON ERROR GO TO 10", Answer::Syntax(2)),
    (b"ON ERROR", Answer::Syntax(2)),
    (b"RESUME", Answer::Tree),
    (b"RESUME 0", Answer::Tree),
    (b"RESUME 10", Answer::Tree),
    (b"RESUME A%", Answer::Syntax(1)),
    (b"STOP", Answer::Tree),
    (b"STOP 1%", Answer::Syntax(1)),
    (b"END", Answer::Tree),
    (b"END:END", Answer::Tree),
    (b"CHAIN 'B'", Answer::Tree),
    (b"CHAIN 'B' LINE 10", Answer::Tree),
    (b"CHAIN 'B' 10%", Answer::Tree),
    (b"CHAIN A$ (5)", Answer::Tree),
    (b"CHAIN A$(5) (6)", Answer::Tree),
    (b"CHAIN 'B' (6)", Answer::Tree),
    (b"CHAIN 'B' LINE -1%", Answer::Tree),
    (b"CHAIN 'B' NOT 1%", Answer::Tree),
    (b"CHAIN 'B' -1%", Answer::Syntax(2)),
    (b"CHAIN 'B' +1%", Answer::Syntax(3)),
    (b"CHAIN 1%", Answer::Syntax(1)),
    (b"CHAIN", Answer::Syntax(1)),
    (b"CHAIN 'B' LINE", Answer::Syntax(3)),
    (b"SLEEP 1%", Answer::Tree),
    (b"SLEEP", Answer::Syntax(1)),
];

fn jumps() -> &'static [Row] {
    &JUMPS
}

static FILES: [Row; 40] = [
    (b"OPEN 'A' AS FILE 1%", Answer::Tree),
    (
        b"OPEN 'A' FOR INPUT AS FILE #1%, RECORDSIZE 512%, CLUSTERSIZE 1%, MODE 1%",
        Answer::Tree,
    ),
    (b"OPEN 'A' FOR OUTPUT AS FILE 1%, MODE 1%", Answer::Tree),
    (b"OPEN 'A' AS FILE 1%, CLUSTERSIZE 1%", Answer::Tree),
    (
        b"OPEN 'A' AS FILE 1%, MODE 1%, RECORDSIZE 512%",
        Answer::Syntax(8),
    ),
    (b"OPEN 'A' FOR READ AS FILE 1%", Answer::Syntax(3)),
    (b"OPEN 'A' AS 1%", Answer::Syntax(3)),
    (b"OPEN 'A' AS FILE 1%,", Answer::Syntax(6)),
    (b"OPEN 'A'", Answer::Syntax(2)),
    (b"CLOSE 1%", Answer::Tree),
    (b"CLOSE #1%, 2%, #3%", Answer::Tree),
    (b"CLOSE", Answer::Syntax(1)),
    (b"CLOSE 1%,", Answer::Syntax(3)),
    (b"GET #1%", Answer::Tree),
    (b"GET #1%, RECORD 2%", Answer::Tree),
    (b"GET 1%", Answer::Syntax(1)),
    (b"GET #1%, 2%", Answer::Syntax(4)),
    (b"GET #1% RECORD 2%", Answer::Syntax(3)),
    (b"PUT #1%", Answer::Tree),
    (b"PUT #1%, RECORD 2%", Answer::Tree),
    (b"PUT #1%,", Answer::Syntax(4)),
    (b"UNLOCK #1%", Answer::Tree),
    (b"UNLOCK 1%", Answer::Syntax(1)),
    (b"FIELD #1%,10% AS A$", Answer::Tree),
    (b"FIELD #1%, 4% AS B$, 6% AS C$", Answer::Tree),
    (b"FIELD #1% 10% AS A$", Answer::Syntax(3)),
    (b"FIELD #1%,10% AS A%", Answer::Syntax(6)),
    (b"FIELD #1%,10% AS A$(1%)", Answer::Syntax(7)),
    (b"FIELD #1%,", Answer::Syntax(4)),
    (b"LSET A$='X'", Answer::Tree),
    (b"RSET B$=A$+'X'", Answer::Tree),
    (b"LSET A%=1%", Answer::Syntax(1)),
    (b"LSET A$(1%)='X'", Answer::Syntax(2)),
    (b"RSET A$", Answer::Syntax(2)),
    (b"KILL 'A'", Answer::Tree),
    (b"KILL 1%", Answer::Syntax(1)),
    (b"KILL", Answer::Syntax(1)),
    (b"NAME 'A' AS 'B'", Answer::Tree),
    (b"NAME 'A'", Answer::Syntax(2)),
    (b"NAME 'A' 'B'", Answer::Syntax(2)),
];

fn files() -> &'static [Row] {
    &FILES
}

static HEADS: [Row; 33] = [
    (b"FOR I%=1% TO 3%", Answer::Tree),
    (b"FOR I%=1% TO 3% STEP -1%", Answer::Tree),
    (b"FOR A$=1% TO 2%", Answer::Syntax(1)),
    (b"FOR I%=1%", Answer::Syntax(4)),
    (b"FOR I%=1% TO 3% IF A%", Answer::Syntax(6)),
    (b"FOR I%(1%)=1% TO 2%", Answer::Syntax(2)),
    (b"NEXT I%", Answer::Tree),
    (b"NEXT", Answer::Syntax(1)),
    (b"NEXT A$", Answer::Syntax(1)),
    (b"NEXT I%,J%", Answer::Syntax(2)),
    (b"FNEND", Answer::Tree),
    (b"FNEND IF A%", Answer::Syntax(1)),
    (b"DIM A%(10%)", Answer::Tree),
    (b"DIM A%(10%,20%),B$(3)", Answer::Tree),
    (b"DIM #1%, S$(3%)=512%, A%(3%)", Answer::Tree),
    (b"DIM A%", Answer::Syntax(2)),
    (b"DIM A%(1%,2%,3%)", Answer::Syntax(6)),
    (b"DIM A%()", Answer::Syntax(3)),
    (b"DIM #1%, A%(3%)=16%", Answer::Syntax(8)),
    (b"DIM #1%, S$(3%)=3%", Answer::Syntax(9)),
    (b"DIM #1%, S$(3%)=1%", Answer::Syntax(9)),
    (b"DIM #1%, S$(3%)=1024%", Answer::Syntax(9)),
    (b"DIM #1%", Answer::Syntax(3)),
    (b"DIM A%(B%)", Answer::Syntax(3)),
    (b"DEF FNA%", Answer::Tree),
    (b"DEF FNA%(X%)", Answer::Tree),
    (b"DEF FNA1$(X%,Y$)=Y$", Answer::Tree),
    (b"DEF FNA%(A%,B%,C%,D%,E%)=A%", Answer::Tree),
    (b"DEF FNA%(A%,B%,C%,D%,E%,F%)=A%", Answer::Syntax(12)),
    (b"DEF FNA%()", Answer::Syntax(3)),
    (b"DEF FNA%='X'", Answer::Syntax(4)),
    (b"DEF A%", Answer::Syntax(1)),
    (b"DEF FNA%(A%(1%))", Answer::Syntax(4)),
];

fn heads() -> &'static [Row] {
    &HEADS
}

static CHOICES: [Row; 38] = [
    (b"IF A% THEN 10", Answer::Tree),
    (b"IF A% THEN 10 ELSE 20", Answer::Tree),
    (b"IF A% GOTO 10", Answer::Tree),
    (b"IF A% GOTO 10 ELSE PRINT", Answer::Tree),
    (b"IF A% THEN IF B% THEN 10 ELSE 20", Answer::Tree),
    (b"IF A% THEN IF B% THEN 10 ELSE 20 ELSE 30", Answer::Tree),
    (b"IF A% THEN PRINT A% IF B%", Answer::Tree),
    (b"IF A% THEN 10:PRINT", Answer::Tree),
    (b"IF A% THEN 10 IF B%", Answer::Syntax(4)),
    (b"IF A% GOTO 10 IF B%", Answer::Syntax(4)),
    (b"IF A% GO TO 10", Answer::Syntax(2)),
    (b"IF A%", Answer::Syntax(2)),
    (b"IF A% THEN", Answer::Syntax(3)),
    (b"IF A% THEN FOR I%=1% TO 2%", Answer::Syntax(3)),
    (b"IF A% THEN DATA", Answer::Syntax(3)),
    (b"IF A$ THEN 10", Answer::Syntax(2)),
    (b"IF A% THEN 0", Answer::Syntax(3)),
    (b"IF A% THEN 10 ELSE", Answer::Syntax(5)),
    (b"IF A% THEN 10 ELSE 20 ELSE 30", Answer::Syntax(6)),
    (b"IF A% THEN :", Answer::Syntax(3)),
    (b"ELSE 10", Answer::Syntax(0)),
    (b"THEN 10", Answer::Syntax(0)),
    (b"PRINT IF A%", Answer::Tree),
    (
        b"PRINT UNLESS A% WHILE B% UNTIL C% FOR I%=1% TO 2% STEP 3%",
        Answer::Tree,
    ),
    (b"PRINT IF", Answer::Syntax(2)),
    (b"PRINT FOR I%", Answer::Syntax(3)),
    (b"STOP IF A% THEN 10", Answer::Syntax(3)),
    (b"STOP IF A% ELSE 10", Answer::Syntax(3)),
    (b"", Answer::Tree),
    (b":", Answer::Tree),
    (b"::STOP", Answer::Tree),
    (b"PRINT\\PRINT", Answer::Tree),
    (b"PRINT:", Answer::Tree),
    (b"PRINT::PRINT:", Answer::Tree),
    (b"10", Answer::Syntax(0)),
    (b")", Answer::Syntax(0)),
    (b"'A'", Answer::Syntax(0)),
    (b"TO", Answer::Syntax(0)),
];

fn choices() -> &'static [Row] {
    &CHOICES
}

static EXPRESSIONS: [Row; 33] = [
    (b"PRINT 1%+", Answer::Syntax(3)),
    (b"PRINT A%^-B%", Answer::Tree),
    (b"PRINT NOT A%=1% OR B%", Answer::Tree),
    (b"PRINT (1%", Answer::Syntax(3)),
    (b"PRINT ()", Answer::Syntax(2)),
    (b"PRINT 1%)", Answer::Syntax(2)),
    (b"PRINT 1%+A$", Answer::Syntax(3)),
    (b"PRINT A$-B$", Answer::Syntax(2)),
    (b"PRINT A$*2%", Answer::Syntax(2)),
    (b"PRINT A$+'X'=B$", Answer::Tree),
    (b"PRINT A$=1%", Answer::Syntax(3)),
    (b"PRINT 1%=A$", Answer::Syntax(3)),
    (b"PRINT LEN(A$)", Answer::Tree),
    (b"PRINT MID(A$,1%,2%)", Answer::Tree),
    (b"PRINT LEN(5%)", Answer::Syntax(3)),
    (b"PRINT LEFT(A$)", Answer::Syntax(4)),
    (b"PRINT LEFT(A$,1%,2%)", Answer::Syntax(6)),
    (b"PRINT ERR", Answer::Tree),
    (b"PRINT ERR(1%)", Answer::Syntax(2)),
    (b"PRINT LEN", Answer::Syntax(2)),
    (b"PRINT FNA%(1%,B$)+FNC%", Answer::Tree),
    (b"PRINT FNA%()", Answer::Syntax(3)),
    (b"PRINT 1%+NOT 2%", Answer::Syntax(3)),
    (b"PRINT -NOT 2%", Answer::Syntax(2)),
    (b"PRINT 1%==2%", Answer::Tree),
    (b"PRINT A%=B%=C%", Answer::Tree),
    (b"PRINT A%(1%,2%,3%)", Answer::Syntax(6)),
    (b"PRINT A%^NOT B%", Answer::Syntax(3)),
    (b"PRINT 1%**2%", Answer::Tree),
    (b"PRINT +1%-+2%", Answer::Tree),
    (b"PRINT 1% TO 2%", Answer::Syntax(2)),
    (b"PRINT AND 1%", Answer::Syntax(1)),
    (b"PRINT A% AND", Answer::Syntax(3)),
];

fn expressions() -> &'static [Row] {
    &EXPRESSIONS
}

/// What a user meets first.
static MET_FIRST: [Row; 6] = [
    (b"PRINT A", Answer::Unscanned(6)),
    (b"PRINT 1.5", Answer::Unscanned(6)),
    (b"PRINT 40000", Answer::Unscanned(6)),
    (b"PRINT \"AB", Answer::Unscanned(6)),
    (b"PRINT 1%+", Answer::Syntax(3)),
    (b"print 2 + 3%", Answer::Tree),
];

#[test]
fn lines_have_a_tree_or_are_refused(rt: HostRuntime) -> Result<(), Fail> {
    let alloc = rt.alloc();
    expect_answers(alloc, "the lines met first", &MET_FIRST)?;
    expect_answers(alloc, "the assignments", assignments())?;
    expect_answers(alloc, "the lines that print and read", printing())?;
    expect_answers(alloc, "the jumps", jumps())?;
    expect_answers(alloc, "the lines of files", files())?;
    expect_answers(alloc, "the heads", heads())?;
    expect_answers(alloc, "the choices", choices())?;
    expect_answers(alloc, "the expressions", expressions())
}

/// Every word of the language that cannot follow a value.
static WORDS: [&[u8]; 69] = [
    b"ABS%",
    b"AS",
    b"ASCII",
    b"CHAIN",
    b"CHR$",
    b"CLOSE",
    b"CLUSTERSIZE",
    b"CVT$%",
    b"CVT%$",
    b"DATA",
    b"DEF",
    b"DIM",
    b"ELSE",
    b"END",
    b"ERL",
    b"ERR",
    b"ERROR",
    b"FIELD",
    b"FILE",
    b"FNEND",
    b"GET",
    b"GO",
    b"GOSUB",
    b"GOTO",
    b"INPUT",
    b"INSTR",
    b"KILL",
    b"LEFT",
    b"LEN",
    b"LET",
    b"LINE",
    b"LSET",
    b"MID",
    b"MODE",
    b"NAME",
    b"NEXT",
    b"NOT",
    b"NUM$",
    b"NUM1$",
    b"ON",
    b"OPEN",
    b"OUTPUT",
    b"POS",
    b"PRINT",
    b"PUT",
    b"READ",
    b"RECORD",
    b"RECORDSIZE",
    b"RECOUNT",
    b"RESTORE",
    b"RESUME",
    b"RETURN",
    b"RIGHT",
    b"RSET",
    b"SGN",
    b"SLEEP",
    b"SPACE$",
    b"STEP",
    b"STOP",
    b"STRING$",
    b"SUB",
    b"SWAP%",
    b"SYS",
    b"TAB",
    b"THEN",
    b"TO",
    b"UNLOCK",
    b"VAL",
    b"XLATE",
];

fn words() -> &'static [&'static [u8]] {
    &WORDS
}

/// The operators and the words of modifiers, after which something is missing.
static GOING_ON: [&[u8]; 10] = [
    b"AND", b"OR", b"XOR", b"IMP", b"EQV", b"IF", b"UNLESS", b"WHILE", b"UNTIL", b"FOR",
];

/// Returns whether a line with this word after a value has this result.
fn is_answered_behind(alloc: Global, word: &[u8], answer: Answer) -> bool {
    match [b"PRINT 1% ".as_slice(), word].concat(alloc) {
        Ok(line) => answer_of(alloc, line.as_slice()) == answer,
        Err(_) => false,
    }
}

/// Fails with the first word that has another result after a value.
fn expect_words(alloc: Global, table: &str, words: &[&[u8]], answer: Answer) -> Result<(), Fail> {
    for place in 0..words.len() {
        let is_so = is_answered_behind(alloc, words[place], answer);
        expect_row(table, place, is_so)?;
    }
    Ok(())
}

#[test]
fn words_stand_behind_a_value_or_not(rt: HostRuntime) -> Result<(), Fail> {
    expect_words(rt.alloc(), "the words", words(), Answer::Syntax(2))?;
    expect_words(
        rt.alloc(),
        "the words that go on",
        &GOING_ON,
        Answer::Syntax(3),
    )?;
    let remark = answer_of(rt.alloc(), b"PRINT 1% REM STOP");
    expect(remark == Answer::Tree, "a remark behind a value")
}

/// The parts of a nested line, and its result: beginning, part, middle, end, number of nesting
/// levels, result.
type Nest = (
    &'static [u8],
    &'static [u8],
    &'static [u8],
    &'static [u8],
    usize,
    Answer,
);

static NESTS: [Nest; 15] = [
    (b"PRINT", b"(", b"1", b")", 64, Answer::Tree),
    (b"PRINT", b"(", b"1", b")", 65, Answer::TooDeep(65)),
    (b"PRINT", b"-", b"1", b"", 64, Answer::Tree),
    (b"PRINT", b"-", b"1", b"", 65, Answer::TooDeep(65)),
    (b"PRINT", b"NOT", b"1", b"", 64, Answer::Tree),
    (b"PRINT", b"NOT", b"1", b"", 65, Answer::TooDeep(65)),
    (b"PRINT1^", b"-", b"1", b"", 65, Answer::TooDeep(67)),
    (b"STOP", b"IF1", b"", b"", 64, Answer::Tree),
    (b"STOP", b"IF1", b"", b"", 65, Answer::TooDeep(129)),
    (
        b"IF1THENIF1THENIF1THENIF1THENPRINT",
        b"(",
        b"1",
        b")",
        60,
        Answer::Tree,
    ),
    (
        b"IF1THENIF1THENIF1THENIF1THENPRINT",
        b"(",
        b"1",
        b")",
        61,
        Answer::TooDeep(73),
    ),
    (b"STOPIF1IF1IF", b"(", b"1", b")", 61, Answer::Tree),
    (b"STOPIF1IF1IF", b"(", b"1", b")", 62, Answer::TooDeep(67)),
    (b"PRINT", b"(", b")", b")", 65, Answer::TooDeep(65)),
    // an error before the nesting level that is too deep is reported first
    (b"PRINT 1 1", b"(", b"1", b")", 65, Answer::Syntax(2)),
];

/// Appends a part to a line this many times.
fn push_times(line: &mut Vec<u8>, part: &[u8], times: usize) -> Result<(), AllocError> {
    for _ in 0..times {
        line.extend_from_slice(part)?;
    }
    Ok(())
}

/// Appends the beginning, the part this many times, the middle, and the end as many times.
fn push_nest(line: &mut Vec<u8>, nest: &Nest) -> Result<(), AllocError> {
    line.extend_from_slice(nest.0)?;
    push_times(line, nest.1, nest.4)?;
    line.extend_from_slice(nest.2)?;
    push_times(line, nest.3, nest.4)
}

fn is_nest(alloc: Global, nest: &Nest) -> bool {
    let mut line = Vec::new(alloc);
    push_nest(&mut line, nest).is_ok() && answer_of(alloc, line.as_slice()) == nest.5
}

fn expect_nests(alloc: Global, nests: &[Nest]) -> Result<(), Fail> {
    for place in 0..nests.len() {
        expect_row("the nests", place, is_nest(alloc, &nests[place]))?;
    }
    Ok(())
}

#[test]
fn the_65th_level_is_refused(rt: HostRuntime) -> Result<(), Fail> {
    expect_nests(rt.alloc(), &NESTS)
}
