//! The trees of lines: at least one row for each form of a statement.

use crate::expects::expect_row;
use crate::trees::is_told;
use basic_line::read_line;
use std::alloc::Global;
use std::test::Fail;

/// A line, and its tree as `trees` writes it.
type Row = (&'static [u8], &'static str);

static LINES: [Row; 3] = [
    (b"", ""),
    (b"::STOP:", ":STOP"),
    (b"STOP\\END:RETURN", ":STOP:END:RETURN"),
];

static EXPRESSIONS: [Row; 16] = [
    (b"SLEEP 1+2*3-4", ":SLEEP [[1 Plus [2 Times 3]] Minus 4]"),
    (b"SLEEP -1^-2^3", ":SLEEP [-[[1 Power [-2]] Power 3]]"),
    (b"SLEEP 2**+3", ":SLEEP [2 Power [+3]]"),
    (b"SLEEP 8/4/2", ":SLEEP [[8 Divided 4] Divided 2]"),
    (b"SLEEP NOT 1=2 OR 3", ":SLEEP [[Not [1 Equal 2]] Or 3]"),
    (b"SLEEP 1 AND 2 OR 3", ":SLEEP [[1 And 2] Or 3]"),
    (b"SLEEP 1 OR 2 AND 3", ":SLEEP [1 Or [2 And 3]]"),
    (
        b"SLEEP 1 XOR 2 IMP 3 EQV 4",
        ":SLEEP [[[1 Xor 2] Imp 3] Eqv 4]",
    ),
    (b"SLEEP A$==B$", ":SLEEP [A$ Same B$]"),
    (b"SLEEP 1<2<=3", ":SLEEP [[1 Less 2] LessOrEqual 3]"),
    (
        b"SLEEP 1>2>=3<>4",
        ":SLEEP [[[1 Greater 2] GreaterOrEqual 3] Different 4]",
    ),
    (b"SLEEP A1%(1,B%)+C%(2)", ":SLEEP [A1%[1,B%] Plus C%[2]]"),
    (b"SLEEP (1+2)*3", ":SLEEP [([1 Plus 2]) Times 3]"),
    (b"SLEEP LEN('A'+\"it's\")", ":SLEEP Len[[|A| Plus |it's|],]"),
    (
        b"SLEEP INSTR(1,A$,B$)-ERR",
        ":SLEEP [Instr[1,A$,B$,] Minus Err[]]",
    ),
    (
        b"SLEEP FNA%(1,B$)*FNC%",
        ":SLEEP [FNA%[1,B$,] Times FNC%[]]",
    ),
];

fn expressions() -> &'static [Row] {
    &EXPRESSIONS
}

static JUMPS: [Row; 20] = [
    (b"FOR I%=1 TO 3", ":FOR I%=1 TO 3"),
    (b"FOR I%=1 TO 3 STEP -1", ":FOR I%=1 TO 3 STEP [-1]"),
    (b"NEXT I%", ":NEXT I%"),
    (b"GOTO 10", ":GOTO 10"),
    (b"GO TO 10", ":GO TO 10"),
    (b"GOSUB 20", ":GOSUB 20"),
    (b"GO SUB 20", ":GO SUB 20"),
    (b"RETURN", ":RETURN"),
    (b"ON A% GOTO 10,20", ":ON A% GOTO 10 20"),
    (b"ON A%+1 GOSUB 30", ":ON [A% Plus 1] GOSUB 30"),
    (b"ON ERROR GOTO 100", ":ON ERROR GOTO 100"),
    (b"ON ERROR GOTO", ":ON ERROR GOTO"),
    (b"RESUME", ":RESUME"),
    (b"RESUME 0", ":RESUME 0"),
    (b"STOP", ":STOP"),
    (b"END", ":END"),
    (b"CHAIN 'B'", ":CHAIN |B|"),
    (b"CHAIN 'B' LINE 10", ":CHAIN |B| LINE 10"),
    (b"CHAIN A$(5) (6)", ":CHAIN A$[5] (6)"),
    (b"SLEEP 5", ":SLEEP 5"),
];

fn jumps() -> &'static [Row] {
    &JUMPS
}

static FILES: [Row; 18] = [
    (b"OPEN 'A' AS FILE 1", ":OPEN |A| AS FILE 1"),
    (
        b"OPEN 'A' FOR INPUT AS FILE #1, RECORDSIZE 2, CLUSTERSIZE 3, MODE 4",
        ":OPEN |A| FOR INPUT AS FILE #1 RECORDSIZE 2 CLUSTERSIZE 3 MODE 4",
    ),
    (
        b"OPEN 'A' FOR OUTPUT AS FILE 1, CLUSTERSIZE 3, MODE 4",
        ":OPEN |A| FOR OUTPUT AS FILE 1 CLUSTERSIZE 3 MODE 4",
    ),
    (b"OPEN 'A' AS FILE 1, MODE 4", ":OPEN |A| AS FILE 1 MODE 4"),
    (
        b"OPEN 'A' AS FILE 1, RECORDSIZE 2, MODE 4",
        ":OPEN |A| AS FILE 1 RECORDSIZE 2 MODE 4",
    ),
    (b"CLOSE 1", ":CLOSE 1"),
    (b"CLOSE #1, 2, #3", ":CLOSE #1 2 #3"),
    (b"GET #1", ":GET #1"),
    (b"GET #1, RECORD 2", ":GET #1 RECORD 2"),
    (b"PUT #1", ":PUT #1"),
    (b"PUT #1, RECORD 2", ":PUT #1 RECORD 2"),
    (b"UNLOCK #1", ":UNLOCK #1"),
    (b"FIELD #1,10 AS A$", ":FIELD #1 10 AS A$"),
    (b"FIELD #1, 4 AS B$, 6 AS C1$", ":FIELD #1 4 AS B$ 6 AS C1$"),
    (b"LSET A$='X'", ":LSET A$=|X|"),
    (b"RSET B$=A$+'X'", ":RSET B$=[A$ Plus |X|]"),
    (b"KILL 'A'", ":KILL |A|"),
    (b"NAME 'A' AS 'B'", ":NAME |A| AS |B|"),
];

fn files() -> &'static [Row] {
    &FILES
}

static VALUES: [Row; 28] = [
    (
        b"DATA 1, two ,'a,b',\"\"",
        ":DATA | 1| | two | |'a,b'| |\"\"|",
    ),
    (b"DATA", ":DATA ||"),
    (b"DIM A%(10)", ":DIM A%[10]"),
    (b"DIM A%(10,20),B$(3)", ":DIM A%[10,20] B$[3]"),
    (b"DIM #1, S$(3)=512, A%(4,5)", ":DIM #1 S$[3]=512 A%[4,5]"),
    (b"DEF FNA%", ":DEF FNA%"),
    (b"DEF FNA1$(X%,Y$)=Y$", ":DEF FNA1$ X% Y$ = Y$"),
    (b"FNEND", ":FNEND"),
    (b"LET A%=1", ":LET A% = 1"),
    (b"A%=1", ":SET A% = 1"),
    (b"LET A%,B%(1),C%(1,2)=D%", ":LET A% B%[1] C%[1,2] = D%"),
    (b"A$,B$='X'", ":SET A$ B$ = |X|"),
    (b"FNA%=1", ":FNA%=1"),
    (b"PRINT", ":PRINT"),
    (b"PRINT 1", ":PRINT 1"),
    (b"PRINT 1,2;A$;TAB(3);'X'", ":PRINT 1, 2; A$; TAB 3; |X|"),
    (b"PRINT 1;", ":PRINT 1;"),
    (b"PRINT #1", ":PRINT #1"),
    (b"PRINT #1,", ":PRINT #1,"),
    (b"PRINT #1,2;3", ":PRINT #1, 2; 3"),
    (b"INPUT A%", ":INPUT A%"),
    (b"INPUT 'N';A%,B$(1)", ":INPUT |N|; A% B$[1]"),
    (b"INPUT 'N',A$", ":INPUT |N|, A$"),
    (b"INPUT #1,A%,B%", ":INPUT #1 A% B%"),
    (b"INPUT LINE A$", ":INPUT LINE A$"),
    (b"INPUT LINE #1,A$", ":INPUT LINE #1 A$"),
    (b"READ A%,B$,C%(1)", ":READ A% B$ C%[1]"),
    (b"RESTORE", ":RESTORE"),
];

fn values() -> &'static [Row] {
    &VALUES
}

static CHOICES: [Row; 12] = [
    (b"IF 1 THEN 10", ":IF 1 THEN {10}"),
    (b"IF 1 THEN 10 ELSE 20", ":IF 1 THEN {10} ELSE {20}"),
    (b"IF 1 GOTO 10", ":IF 1 GOTO 10"),
    (b"IF 1 GOTO 10 ELSE STOP", ":IF 1 GOTO 10 ELSE {STOP}"),
    (
        b"IF 1 THEN IF 2 THEN 10 ELSE 20",
        ":IF 1 THEN {IF 2 THEN {10} ELSE {20}}",
    ),
    (
        b"IF 1 THEN IF 2 THEN 10 ELSE 20 ELSE 30",
        ":IF 1 THEN {IF 2 THEN {10} ELSE {20}} ELSE {30}",
    ),
    (b"IF 1 THEN STOP IF 2", ":IF 1 THEN {{STOP} IF 2}"),
    (b"IF 1 THEN STOP:END", ":IF 1 THEN {STOP}:END"),
    (b"STOP IF 1 UNTIL 2", ":{{STOP} IF 1} UNTIL 2"),
    (b"STOP UNLESS 1", ":{STOP} UNLESS 1"),
    (b"STOP WHILE 1", ":{STOP} WHILE 1"),
    (
        b"PRINT I% FOR I%=1 TO 2 STEP 3",
        ":{PRINT I%} FOR I%=1 TO 2 STEP 3",
    ),
];

fn choices() -> &'static [Row] {
    &CHOICES
}

/// Returns whether a line has this tree, as `trees` writes it.
fn is_shown(alloc: Global, bytes: &[u8], tree: &'static str) -> Result<bool, Fail> {
    if bytes.len() > 255 {
        return Err(Fail::new("a line is too long"));
    }
    match read_line(alloc, bytes) {
        Ok(line) => Ok(is_told(&line, tree)),
        Err(_) => Err(Fail::new("a line has no tree")),
    }
}

/// Fails with the first line that has another tree.
fn expect_shown(alloc: Global, table: &str, rows: &[Row]) -> Result<(), Fail> {
    for place in 0..rows.len() {
        let (bytes, tree) = rows[place];
        expect_row(table, place, is_shown(alloc, bytes, tree)?)?;
    }
    Ok(())
}

#[test]
fn trees_are_those_of_the_lines(rt: HostRuntime) -> Result<(), Fail> {
    expect_shown(rt.alloc(), "the lines", &LINES)?;
    expect_shown(rt.alloc(), "the expressions", expressions())?;
    expect_shown(rt.alloc(), "the jumps", jumps())?;
    expect_shown(rt.alloc(), "the lines of files", files())?;
    expect_shown(rt.alloc(), "the lines of values", values())?;
    expect_shown(rt.alloc(), "the choices", choices())
}
