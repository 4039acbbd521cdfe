//! Lines and their words, and the longest expression that a line begins with.

use crate::expects::expect_row;
use basic_expr::{Word, Words, parse_expr};
use basic_scanner::scan;
use basic_tree::{Cause, Expr, Keyword, Name, Refusal, Sign, Want};
use basic_values::Trouble;
use std::alloc::Global;
use std::test::Fail;

const A_TEXT: Name = Name {
    letter: b'A',
    digit: None,
    text: true,
};

const A: Name = Name {
    letter: b'A',
    digit: None,
    text: false,
};

const B: Name = Name {
    letter: b'B',
    digit: None,
    text: false,
};

const A1_TEXT: Name = Name {
    letter: b'A',
    digit: Some(b'1'),
    text: true,
};

const Z: Name = Name {
    letter: b'Z',
    digit: None,
    text: false,
};

const X9_TEXT: Name = Name {
    letter: b'X',
    digit: Some(b'9'),
    text: true,
};

const A9: Name = Name {
    letter: b'A',
    digit: Some(b'9'),
    text: false,
};

const A0_TEXT: Name = Name {
    letter: b'A',
    digit: Some(b'0'),
    text: true,
};

/// A line, and its words.
type Line = (&'static [u8], &'static [Word<'static>]);

static LINES: [Line; 30] = [
    (b"", &[]),
    (b" \t! nothing", &[]),
    (b"GOTO 10", &[Word::Key(Keyword::Goto), Word::Number(10)]),
    (
        b"go to 10%",
        &[
            Word::Key(Keyword::Go),
            Word::Key(Keyword::To),
            Word::Number(10),
        ],
    ),
    (
        b"LEFT$(A$,1%)",
        &[
            Word::Key(Keyword::Left),
            Word::Punctuation(Sign::Opening),
            Word::Named(A_TEXT),
            Word::Punctuation(Sign::Comma),
            Word::Number(1),
            Word::Punctuation(Sign::Closing),
        ],
    ),
    (
        b"LEFT(a$,1)",
        &[
            Word::Key(Keyword::Left),
            Word::Punctuation(Sign::Opening),
            Word::Named(A_TEXT),
            Word::Punctuation(Sign::Comma),
            Word::Number(1),
            Word::Punctuation(Sign::Closing),
        ],
    ),
    (
        b"RIGHT$right",
        &[Word::Key(Keyword::Right), Word::Key(Keyword::Right)],
    ),
    (
        b"mid$MID",
        &[Word::Key(Keyword::Mid), Word::Key(Keyword::Mid)],
    ),
    (
        b"2**3^4",
        &[
            Word::Number(2),
            Word::Punctuation(Sign::Caret),
            Word::Number(3),
            Word::Punctuation(Sign::Caret),
            Word::Number(4),
        ],
    ),
    (
        b"A%* *b%",
        &[
            Word::Named(A),
            Word::Punctuation(Sign::Star),
            Word::Punctuation(Sign::Star),
            Word::Named(B),
        ],
    ),
    (
        b"STOP\\END:Stop",
        &[
            Word::Key(Keyword::Stop),
            Word::Punctuation(Sign::Colon),
            Word::Key(Keyword::End),
            Word::Punctuation(Sign::Colon),
            Word::Key(Keyword::Stop),
        ],
    ),
    (b"FNA1$", &[Word::FnNamed(A1_TEXT)]),
    (
        b"fnz%(x9$)",
        &[
            Word::FnNamed(Z),
            Word::Punctuation(Sign::Opening),
            Word::Named(X9_TEXT),
            Word::Punctuation(Sign::Closing),
        ],
    ),
    (b"FNEND", &[Word::Key(Keyword::FnEnd)]),
    (b"A9%", &[Word::Named(A9)]),
    (
        b"a0$=B%",
        &[
            Word::Named(A0_TEXT),
            Word::Punctuation(Sign::Equal),
            Word::Named(B),
        ],
    ),
    (b"32767%", &[Word::Number(32767)]),
    (b"32767", &[Word::Number(32767)]),
    (b"00000000000000000007", &[Word::Number(7)]),
    (b"0%0", &[Word::Number(0), Word::Number(0)]),
    (
        b"PRINT \"it's\"",
        &[Word::Key(Keyword::Print), Word::Quotation(b"it's")],
    ),
    (b"'say \"no\"'", &[Word::Quotation(b"say \"no\"")]),
    (
        b"\"\"+''",
        &[
            Word::Quotation(b""),
            Word::Punctuation(Sign::Plus),
            Word::Quotation(b""),
        ],
    ),
    (b"\"a**b\\c\"", &[Word::Quotation(b"a**b\\c")]),
    (
        b"DATA 1, two ,'a,b',\"\"",
        &[
            Word::Key(Keyword::Data),
            Word::Item(b" 1"),
            Word::Item(b" two "),
            Word::Item(b"'a,b'"),
            Word::Item(b"\"\""),
        ],
    ),
    (b"DATA", &[Word::Key(Keyword::Data), Word::Item(b"")]),
    (
        b"data,",
        &[Word::Key(Keyword::Data), Word::Item(b""), Word::Item(b"")],
    ),
    (
        b"<>==<=>=<>-/",
        &[
            Word::Punctuation(Sign::Different),
            Word::Punctuation(Sign::Same),
            Word::Punctuation(Sign::LessOrEqual),
            Word::Punctuation(Sign::GreaterOrEqual),
            Word::Punctuation(Sign::Different),
            Word::Punctuation(Sign::Minus),
            Word::Punctuation(Sign::Slash),
        ],
    ),
    (
        b"NUM1$ num$ CVT%$ cvt$% Abs%",
        &[
            Word::Key(Keyword::Num1),
            Word::Key(Keyword::Num),
            Word::Key(Keyword::CvtToText),
            Word::Key(Keyword::CvtToNumber),
            Word::Key(Keyword::Abs),
        ],
    ),
    (
        b"PRINT #1,A%;REM b",
        &[
            Word::Key(Keyword::Print),
            Word::Punctuation(Sign::Hash),
            Word::Number(1),
            Word::Punctuation(Sign::Comma),
            Word::Named(A),
            Word::Punctuation(Sign::Semicolon),
        ],
    ),
];

fn lines() -> &'static [Line] {
    &LINES
}

/// Returns whether the two are the same word.
fn is_same(word: Word<'_>, wanted: Word<'_>) -> bool {
    match (word, wanted) {
        (Word::Key(a), Word::Key(b)) => a == b,
        (Word::Punctuation(a), Word::Punctuation(b)) => a == b,
        (Word::Named(a), Word::Named(b)) => a == b,
        (Word::FnNamed(a), Word::FnNamed(b)) => a == b,
        (Word::Number(a), Word::Number(b)) => a == b,
        (Word::Quotation(a), Word::Quotation(b)) => a == b,
        (Word::Item(a), Word::Item(b)) => a == b,
        _ => false,
    }
}

/// Returns the number of the first word that differs, or `None` if they are these and no more.
fn first_other(words: &Words<'_>, wanted: &[Word<'_>]) -> Option<usize> {
    if words.len() != wanted.len() || words.peek(wanted.len()).is_some() {
        return Some(wanted.len());
    }
    for (place, want) in wanted.iter().enumerate() {
        match words.peek(place) {
            Some(word) if is_same(word, *want) => {}
            _ => return Some(place),
        }
    }
    None
}

/// Returns whether a line has exactly these words.
fn has_words(alloc: Global, line: &[u8], wanted: &[Word<'_>]) -> bool {
    if line.len() > 255 {
        return false;
    }
    let Ok(tokens) = scan(line) else {
        return false;
    };
    match Words::of(alloc, &tokens) {
        Ok(words) => first_other(&words, wanted).is_none(),
        Err(_) => false,
    }
}

/// Fails with the first line that has other words.
fn expect_words(alloc: Global, rows: &[Line]) -> Result<(), Fail> {
    for place in 0..rows.len() {
        let (line, wanted) = rows[place];
        expect_row("the lines", place, has_words(alloc, line, wanted))?;
    }
    Ok(())
}

#[test]
fn lines_have_their_words(rt: HostRuntime) -> Result<(), Fail> {
    expect_words(rt.alloc(), lines())
}

// Expressions

/// The result for an expression of a line: the place after it, or where it is rejected.
#[derive(Clone, Copy, PartialEq, Eq)]
enum Answer {
    Read(u16),
    Syntax(u16),
    TooDeep(u16),
    Failed,
}

fn parsed(alloc: Global, line: &[u8], want: Want) -> Answer {
    if line.len() > 255 {
        return Answer::Failed;
    }
    match scan(line) {
        Ok(tokens) => answered(parse_expr(alloc, &tokens, 0, want)),
        Err(_) => Answer::Failed,
    }
}

fn answered(answer: Result<(Expr, u16), Trouble<Refusal>>) -> Answer {
    match answer {
        Ok((_, end)) => Answer::Read(end),
        Err(Trouble::Refused(refusal)) => refused(refusal),
        Err(Trouble::NoMemory) => Answer::Failed,
    }
}

fn refused(refusal: Refusal) -> Answer {
    match refusal.cause {
        Cause::Syntax => Answer::Syntax(refusal.place),
        Cause::TooDeep => Answer::TooDeep(refusal.place),
        _ => Answer::Failed,
    }
}

/// A line, the kind that is expected at its beginning, and the result.
type Row = (&'static [u8], Want, Answer);

/// The longest run of tokens is taken, and the others are left.
static EXPRESSIONS: [Row; 24] = [
    (b"1%", Want::Number, Answer::Read(1)),
    (b"A%(1%,2%)^-3%)", Want::Number, Answer::Read(9)),
    (b"A%(1%,2%)^-3%)", Want::Text, Answer::Syntax(0)),
    (b"B$+'C'=LEFT$(B$,1%)-1%", Want::Text, Answer::Read(3)),
    (b"B$+'C'=LEFT$(B$,1%)-1%", Want::Number, Answer::Read(10)),
    (b"1%+2% TO 3%", Want::Number, Answer::Read(3)),
    (b"A$ THEN", Want::Number, Answer::Syntax(1)),
    (b"A$ THEN", Want::Either, Answer::Read(1)),
    (b"A$", Want::Number, Answer::Syntax(1)),
    (b"", Want::Either, Answer::Syntax(0)),
    (b"1%+", Want::Number, Answer::Syntax(2)),
    (b"1%+NOT 2%", Want::Number, Answer::Syntax(2)),
    (b"(1%", Want::Number, Answer::Syntax(2)),
    (b"A%(1%,2%,3%)", Want::Number, Answer::Syntax(5)),
    (b"LEN(5%)", Want::Number, Answer::Syntax(2)),
    (b"LEFT(A$)", Want::Text, Answer::Syntax(3)),
    (b"MID(A$,1%,2%)", Want::Text, Answer::Read(8)),
    (b"ERR(1%)", Want::Number, Answer::Read(1)),
    (b"FNA%()", Want::Number, Answer::Syntax(2)),
    (b"FNA%(1%,B$)+FNC%", Want::Number, Answer::Read(8)),
    (b"NOT A%=1% OR B%", Want::Number, Answer::Read(6)),
    (b"A$-B$", Want::Text, Answer::Read(1)),
    (b"A%=B%=C%", Want::Number, Answer::Read(5)),
    (b"AND", Want::Either, Answer::Syntax(0)),
];

fn expressions() -> &'static [Row] {
    &EXPRESSIONS
}

fn expect_answers(alloc: Global, rows: &[Row]) -> Result<(), Fail> {
    for place in 0..rows.len() {
        let (line, want, answer) = rows[place];
        expect_row(
            "the expressions",
            place,
            parsed(alloc, line, want) == answer,
        )?;
    }
    Ok(())
}

#[test]
fn expressions_are_read_or_refused(rt: HostRuntime) -> Result<(), Fail> {
    expect_answers(rt.alloc(), expressions())
}

/// The number of signs, and the result for the number after them.
static SIGNS: [(usize, Answer); 2] = [(64, Answer::Read(65)), (65, Answer::TooDeep(64))];

/// Fails unless the number after these signs has this result, in a line with more of them.
fn expect_levels(alloc: Global, line: &[u8]) -> Result<(), Fail> {
    for (count, answer) in &SIGNS {
        let front = line.len().saturating_sub(*count).saturating_sub(1);
        let found = parsed(alloc, &line[front..], Want::Number);
        expect_row("the signs", *count, found == *answer)?;
    }
    Ok(())
}

#[test]
fn the_65th_level_is_refused(rt: HostRuntime) -> Result<(), Fail> {
    let signs = [b'-'; 65];
    let line = [signs.as_slice(), b"1"].concat(rt.alloc())?;
    expect_levels(rt.alloc(), line.as_slice())
}
