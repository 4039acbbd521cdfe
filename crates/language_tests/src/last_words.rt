//! PRINT USING and MAT: the trees of lines, and each token at which a line is rejected. The helpers
//! have no contract: a row compares the actual result.

use crate::expects::expect_row;
use crate::trees::is_told;
use basic_line::read_line;
use basic_tree::Cause;
use basic_values::Trouble;
use std::alloc::Global;
use std::test::Fail;

/// A line, and its tree as `trees` writes it.
type Tree = (&'static [u8], &'static str);

/// A line, and the place of the token that is a syntax error.
type Wrong = (&'static [u8], u16);

/// A line, the byte at which it is rejected, and why.
type Old = (&'static [u8], u16, Cause);

static TREES: [Tree; 39] = [
    (b"PRINT USING '##',1%", ":PRINT USING |##| 1"),
    (
        b"PRINT USING \"##\",1%;2%,3%;",
        ":PRINT USING |##| 1; 2, 3;",
    ),
    (b"PRINT USING A$,1%,2%,", ":PRINT USING A$ 1, 2,"),
    (b"PRINT #1%,USING \"##\",1%", ":PRINT #1 USING |##| 1"),
    (
        b"PRINT #A%+1%,USING A$,1%;",
        ":PRINT #[A% Plus 1] USING A$ 1;",
    ),
    (
        b"PRINT USING A$+B$,C$;1%+2%",
        ":PRINT USING [A$ Plus B$] C$; [1 Plus 2]",
    ),
    (b"PRINT USING A$,B$=C$", ":PRINT USING A$ [B$ Equal C$]"),
    (b"PRINT USING A$,B$ IF 1%", ":{PRINT USING A$ B$} IF 1"),
    (
        b"PRINT USING A$,B$; UNTIL 1%",
        ":{PRINT USING A$ B$;} UNTIL 1",
    ),
    (
        b"IF 1% THEN PRINT USING A$,1% ELSE PRINT USING B$,2%",
        ":IF 1 THEN {PRINT USING A$ 1} ELSE {PRINT USING B$ 2}",
    ),
    (b"print using a$,b%:stop", ":PRINT USING A$ B%:STOP"),
    (b"PRINTUSINGA$,1", ":PRINT USING A$ 1"),
    (b"MAT READ A%", ":MAT READ A%"),
    (b"MAT READ A%,B1%,C%", ":MAT READ A% B1% C%"),
    (b"MAT PRINT A%", ":MAT PRINT A%"),
    (b"MAT PRINT A%,", ":MAT PRINT A%,"),
    (b"MAT PRINT A%;", ":MAT PRINT A%;"),
    (b"MAT A%=ZER", ":MAT A%=ZER"),
    (b"MAT A%=CON", ":MAT A%=CON"),
    (b"MAT A%=IDN", ":MAT A%=IDN"),
    (b"MAT A%=B%", ":MAT A%=B%"),
    (b"MAT A%=B%+C%", ":MAT A%=B%+C%"),
    (b"MAT A%=B%-C%", ":MAT A%=B%-C%"),
    (b"MAT A%=B%*C%", ":MAT A%=B%*C%"),
    (b"MAT A%=(2%)*B%", ":MAT A%=(2)*B%"),
    (b"MAT A%=(A%(1)+N%)*A%", ":MAT A%=([A%[1] Plus N%])*A%"),
    (b"MAT A%=TRN(A%)", ":MAT A%=TRN A%"),
    (b"MAT A%=CON IF 1%", ":{MAT A%=CON} IF 1"),
    (b"MAT A%=B% UNLESS 1%", ":{MAT A%=B%} UNLESS 1"),
    (
        b"MAT A%=(2%)*B% FOR I%=1 TO 2",
        ":{MAT A%=(2)*B%} FOR I%=1 TO 2",
    ),
    (b"MAT READ A%,B% WHILE 1%", ":{MAT READ A% B%} WHILE 1"),
    (b"MAT PRINT A%; UNTIL 1%", ":{MAT PRINT A%;} UNTIL 1"),
    (
        b"IF 1% THEN MAT A%=B% ELSE MAT READ A%",
        ":IF 1 THEN {MAT A%=B%} ELSE {MAT READ A%}",
    ),
    (
        b"MAT A%=B%:MAT PRINT A%\\STOP",
        ":MAT A%=B%:MAT PRINT A%:STOP",
    ),
    (b"MATA%=ZER", ":MAT A%=ZER"),
    (b"MATREADA%,B%", ":MAT READ A% B%"),
    (b"MATPRINTA%;", ":MAT PRINT A%;"),
    (
        b"mat a%=zer:mat a%=con:mat a%=idn",
        ":MAT A%=ZER:MAT A%=CON:MAT A%=IDN",
    ),
    (b"mata%=trn(b%)", ":MAT A%=TRN B%"),
];

fn trees() -> &'static [Tree] {
    &TREES
}

static WRONG: [Wrong; 79] = [
    (b"PRINT USING", 2),
    (b"PRINT USING ,1%", 2),
    (b"PRINT USING 1%", 2),
    (b"PRINT USING A$", 3),
    (b"PRINT USING A$;1%", 3),
    (b"PRINT USING A$ 1%", 3),
    (b"PRINT USING A$=B$,1%", 3),
    (b"PRINT USING A$,", 4),
    (b"PRINT USING A$,,1%", 4),
    (b"PRINT USING A$,TAB(1%)", 4),
    (b"PRINT USING A$,1% 2%", 5),
    (b"PRINT USING A$,1%,,2%", 6),
    (b"PRINT USING A$,1%;TAB(1%)", 6),
    (b"PRINT USING A$,1% USING B$,2%", 5),
    (b"PRINT #1% USING A$,1%", 3),
    (b"PRINT #1%,USING", 5),
    (b"PRINT #1%,USING A$", 6),
    (b"PRINT 1%;USING A$,1%", 3),
    (b"USING A$,1%", 0),
    (b"MAT", 1),
    (b"MAT 1%", 1),
    (b"MAT INPUT A%", 1),
    (b"MAT A$=ZER", 1),
    (b"MAT FNA%=ZER", 1),
    (b"LET MAT A%=ZER", 1),
    (b"MAT A%", 2),
    (b"MAT A%+B%", 2),
    (b"MAT A%(1%)=ZER", 2),
    (b"MAT A%,B%=ZER", 2),
    (b"MAT A%=", 3),
    (b"MAT A%=1%", 3),
    (b"MAT A%=-B%", 3),
    (b"MAT A%=B$", 3),
    (b"MAT A%=2%*B%", 3),
    (b"MAT A%=ABS%(B%)", 3),
    (b"MAT A%=ZER CON", 4),
    (b"MAT A%=CON(2%)", 4),
    (b"MAT A%=IDN+B%", 4),
    (b"MAT A%=B%(1%)", 4),
    (b"MAT A%=B%/C%", 4),
    (b"MAT A%=B% C%", 4),
    (b"MAT A%=B%+", 5),
    (b"MAT A%=B%+C$", 5),
    (b"MAT A%=B%-1%", 5),
    (b"MAT A%=B%*(2%)", 5),
    (b"MAT A%=B%+C%+D%", 6),
    (b"MAT A%=B%*C%*D%", 6),
    (b"MAT A%=()*B%", 4),
    (b"MAT A%=(2%", 5),
    (b"MAT A%=(A$)*B%", 5),
    (b"MAT A%=(2%)", 6),
    (b"MAT A%=(2%)+B%", 6),
    (b"MAT A%=(2%)*", 7),
    (b"MAT A%=(2%)*C$", 7),
    (b"MAT A%=(2%)*(3%)*B%", 7),
    (b"MAT A%=(2%)*B%*C%", 8),
    (b"MAT A%=TRN", 4),
    (b"MAT A%=TRN B%", 4),
    (b"MAT A%=TRN(", 5),
    (b"MAT A%=TRN(1%)", 5),
    (b"MAT A%=TRN(B$)", 5),
    (b"MAT A%=TRN(B%", 6),
    (b"MAT A%=TRN(B%+C%)", 6),
    (b"MAT A%=TRN(B%)+C%", 7),
    (b"MAT READ", 2),
    (b"MAT READ A$", 2),
    (b"MAT READ A%(1%)", 3),
    (b"MAT READ A%;B%", 3),
    (b"MAT READ A%,", 4),
    (b"MAT READ A%,B$", 4),
    (b"MAT PRINT", 2),
    (b"MAT PRINT A$", 2),
    (b"MAT PRINT #1%,A%", 2),
    (b"MAT PRINT A%+B%", 3),
    (b"MAT PRINT A%,B%", 4),
    (b"ZER", 0),
    (b"PRINT CON", 1),
    (b"A%=IDN", 2),
    (b"FOR MAT A%=1%", 1),
];

fn wrong() -> &'static [Wrong] {
    &WRONG
}

/// Lines whose first letters are a keyword: the byte that is rejected, and why.
static OLD: [Old; 4] = [
    (b"MATCH%=1", 3, Cause::FloatingName),
    (b"CON%=1", 3, Cause::StrayByte),
    (b"FORMAT%=1", 6, Cause::StrayByte),
    (b"FNMAT%=1", 0, Cause::FloatingName),
];

/// Returns whether a line has this tree, as `trees` writes it.
fn has_tree(alloc: Global, line: &[u8], tree: &'static str) -> bool {
    if line.len() > 255 {
        return false;
    }
    match read_line(alloc, line) {
        Ok(line) => is_told(&line, tree),
        Err(_) => false,
    }
}

/// Returns where a line is rejected, and why.
fn refusal_of(alloc: Global, line: &[u8]) -> Option<(u16, Cause)> {
    if line.len() > 255 {
        return None;
    }
    match read_line(alloc, line) {
        Err(Trouble::Refused(refusal)) => Some((refusal.place, refusal.cause)),
        _ => None,
    }
}

/// Fails with the first line that has another tree.
fn expect_trees(alloc: Global, rows: &[Tree]) -> Result<(), Fail> {
    for place in 0..rows.len() {
        let (line, tree) = rows[place];
        expect_row("the lines", place, has_tree(alloc, line, tree))?;
    }
    Ok(())
}

#[test]
fn last_words_have_their_trees(rt: HostRuntime) -> Result<(), Fail> {
    expect_trees(rt.alloc(), trees())
}

/// Returns whether a line is rejected there, for this cause.
fn is_refused(alloc: Global, line: &[u8], place: u16, cause: Cause) -> bool {
    match refusal_of(alloc, line) {
        Some((found, why)) => found == place && why == cause,
        None => false,
    }
}

fn expect_wrong(alloc: Global, rows: &[Wrong]) -> Result<(), Fail> {
    for row in 0..rows.len() {
        let (line, place) = rows[row];
        let is_so = is_refused(alloc, line, place, Cause::Syntax);
        expect_row("the wrong lines", row, is_so)?;
    }
    Ok(())
}

fn expect_old(alloc: Global, rows: &[Old]) -> Result<(), Fail> {
    for row in 0..rows.len() {
        let (line, place, cause) = rows[row];
        expect_row("the old lines", row, is_refused(alloc, line, place, cause))?;
    }
    Ok(())
}

#[test]
fn last_words_are_refused_at_each_token(rt: HostRuntime) -> Result<(), Fail> {
    expect_wrong(rt.alloc(), wrong())?;
    expect_old(rt.alloc(), &OLD)
}

/// The number of parentheses, and where the line is rejected as too deep.
static LEVELS: [(usize, Option<u16>); 2] = [(64, None), (65, Some(67))];

/// Returns whether MAT with a number in these parentheses is rejected there as too deep, or
/// accepted.
fn is_level(alloc: Global, opening: &[u8], closing: &[u8], place: Option<u16>) -> bool {
    match [b"MAT A%=".as_slice(), opening, b"1", closing, b"*B%"].concat(alloc) {
        Ok(line) => is_so_deep(alloc, line.as_slice(), place),
        Err(_) => false,
    }
}

fn is_so_deep(alloc: Global, line: &[u8], place: Option<u16>) -> bool {
    match place {
        Some(place) => is_refused(alloc, line, place, Cause::TooDeep),
        None => refusal_of(alloc, line).is_none(),
    }
}

/// Fails with the first row that has another result with this many parentheses.
fn expect_levels(alloc: Global, opening: &[u8], closing: &[u8]) -> Result<(), Fail> {
    for (levels, place) in &LEVELS {
        let opening = &opening[..opening.len().min(*levels)];
        let closing = &closing[..closing.len().min(*levels)];
        expect_row(
            "the levels",
            *levels,
            is_level(alloc, opening, closing, *place),
        )?;
    }
    Ok(())
}

#[test]
fn a_factor_opens_levels(rt: HostRuntime) -> Result<(), Fail> {
    expect_levels(rt.alloc(), &[b'('; 65], &[b')'; 65])
}
