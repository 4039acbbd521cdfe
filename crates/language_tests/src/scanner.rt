//! Lines and their tokens.

use crate::expects::{expect, expect_row};
use basic_scanner::{Token, Tokens, keyword_of, literal_value, scan, sign_of};
use basic_tree::{Cause, Keyword, Sign, TokenKind};
use std::alloc::Global;
use std::test::Fail;

const K: TokenKind = TokenKind::Keyword;

const F: TokenKind = TokenKind::FnName;

const V: TokenKind = TokenKind::Variable;

const L: TokenKind = TokenKind::Literal;

const Q: TokenKind = TokenKind::Quoted;

const D: TokenKind = TokenKind::DataItem;

const S: TokenKind = TokenKind::Sign;

/// An expected token: its kind, its start and its bytes.
type Wanted<'a> = (TokenKind, u16, &'a [u8]);

/// A line, and its tokens.
type Taken = (&'static [u8], &'static [Wanted<'static>]);

static TAKEN: [Taken; 60] = [
    (b"", &[]),
    (b" \x09 ", &[]),
    (
        b"FORI%=1TO3",
        &[
            (K, 0, b"FOR"),
            (V, 3, b"I%"),
            (S, 5, b"="),
            (L, 6, b"1"),
            (K, 7, b"TO"),
            (L, 9, b"3"),
        ],
    ),
    (b"GOTO10", &[(K, 0, b"GOTO"), (L, 4, b"10")]),
    (b"GO TO 10", &[(K, 0, b"GO"), (K, 3, b"TO"), (L, 6, b"10")]),
    (
        b"GO\x09SUB 10",
        &[(K, 0, b"GO"), (K, 3, b"SUB"), (L, 7, b"10")],
    ),
    (b"GOSUB 10", &[(K, 0, b"GOSUB"), (L, 6, b"10")]),
    (b"go to", &[(K, 0, b"go"), (K, 3, b"to")]),
    (b"print A1$", &[(K, 0, b"print"), (V, 6, b"A1$")]),
    (b"a%=b9%", &[(V, 0, b"a%"), (S, 2, b"="), (V, 3, b"b9%")]),
    (b"A%B$", &[(V, 0, b"A%"), (V, 2, b"B$")]),
    (
        b"LEFT$(A$,1%)",
        &[
            (K, 0, b"LEFT$"),
            (S, 5, b"("),
            (V, 6, b"A$"),
            (S, 8, b","),
            (L, 9, b"1%"),
            (S, 11, b")"),
        ],
    ),
    (
        b"LEFT(A$,1%)",
        &[
            (K, 0, b"LEFT"),
            (S, 4, b"("),
            (V, 5, b"A$"),
            (S, 7, b","),
            (L, 8, b"1%"),
            (S, 10, b")"),
        ],
    ),
    (b"RIGHT$RIGHT", &[(K, 0, b"RIGHT$"), (K, 6, b"RIGHT")]),
    (
        b"MID$MIDA$",
        &[(K, 0, b"MID$"), (K, 4, b"MID"), (V, 7, b"A$")],
    ),
    (
        b"RECORDSIZERECORDRECOUNT",
        &[
            (K, 0, b"RECORDSIZE"),
            (K, 10, b"RECORD"),
            (K, 16, b"RECOUNT"),
        ],
    ),
    (
        b"ERRORERRERL",
        &[(K, 0, b"ERROR"), (K, 5, b"ERR"), (K, 8, b"ERL")],
    ),
    (
        b"ONERRORGOTO0",
        &[
            (K, 0, b"ON"),
            (K, 2, b"ERROR"),
            (K, 7, b"GOTO"),
            (L, 11, b"0"),
        ],
    ),
    (
        b"NUM1$(NUM$",
        &[(K, 0, b"NUM1$"), (S, 5, b"("), (K, 6, b"NUM$")],
    ),
    (b"CVT%$CVT$%", &[(K, 0, b"CVT%$"), (K, 5, b"CVT$%")]),
    (b"FNEND", &[(K, 0, b"FNEND")]),
    (
        b"FNA%FNB2$fnz%",
        &[(F, 0, b"FNA%"), (F, 4, b"FNB2$"), (F, 9, b"fnz%")],
    ),
    (b"FNT%", &[(F, 0, b"FNT%")]),
    (b"F%N%", &[(V, 0, b"F%"), (V, 2, b"N%")]),
    (b"E%", &[(V, 0, b"E%")]),
    (b"1", &[(L, 0, b"1")]),
    (b"1%", &[(L, 0, b"1%")]),
    (b"1%", &[(L, 0, b"1%")]),
    (b"32767", &[(L, 0, b"32767")]),
    (b"00001", &[(L, 0, b"00001")]),
    (b"0%0", &[(L, 0, b"0%"), (L, 2, b"0")]),
    (b"1E%", &[(L, 0, b"1"), (V, 1, b"E%")]),
    (b"1ELSE", &[(L, 0, b"1"), (K, 1, b"ELSE")]),
    (b"1EQV2", &[(L, 0, b"1"), (K, 1, b"EQV"), (L, 4, b"2")]),
    (b"1 E5%", &[(L, 0, b"1"), (V, 2, b"E5%")]),
    (b"1%E5%", &[(L, 0, b"1%"), (V, 2, b"E5%")]),
    (b"1+2", &[(L, 0, b"1"), (S, 1, b"+"), (L, 2, b"2")]),
    (b"\"it's\"", &[(Q, 0, b"\"it's\"")]),
    (b"'say \"'", &[(Q, 0, b"'say \"'")]),
    (b"\"\"''", &[(Q, 0, b"\"\""), (Q, 2, b"''")]),
    (
        b"\"! REM \x00\xc8\"A$",
        &[(Q, 0, b"\"! REM \x00\xc8\""), (V, 10, b"A$")],
    ),
    (b"\"a\"\"b\"", &[(Q, 0, b"\"a\""), (Q, 3, b"\"b\"")]),
    (
        b"+-*/^**(),;:\\#===<><=>=><",
        &[
            (S, 0, b"+"),
            (S, 1, b"-"),
            (S, 2, b"*"),
            (S, 3, b"/"),
            (S, 4, b"^"),
            (S, 5, b"**"),
            (S, 7, b"("),
            (S, 8, b")"),
            (S, 9, b","),
            (S, 10, b";"),
            (S, 11, b":"),
            (S, 12, b"\\"),
            (S, 13, b"#"),
            (S, 14, b"=="),
            (S, 16, b"="),
            (S, 17, b"<>"),
            (S, 19, b"<="),
            (S, 21, b">="),
            (S, 23, b">"),
            (S, 24, b"<"),
        ],
    ),
    (b"***", &[(S, 0, b"**"), (S, 2, b"*")]),
    (b"* *", &[(S, 0, b"*"), (S, 2, b"*")]),
    (b"====", &[(S, 0, b"=="), (S, 2, b"==")]),
    (b"=>", &[(S, 0, b"="), (S, 1, b">")]),
    (b"A%!\"", &[(V, 0, b"A%")]),
    (b"!", &[]),
    (b"REM 1.5", &[]),
    (
        b"A%=1:rem \"",
        &[(V, 0, b"A%"), (S, 2, b"="), (L, 3, b"1"), (S, 4, b":")],
    ),
    (b"REMARK", &[]),
    (b"DATA", &[(K, 0, b"DATA"), (D, 4, b"")]),
    (b"DATA,", &[(K, 0, b"DATA"), (D, 4, b""), (D, 5, b"")]),
    (
        b"data 1 , 2",
        &[(K, 0, b"data"), (D, 4, b" 1 "), (D, 8, b" 2")],
    ),
    (
        b"DATA\"a,b\",c",
        &[(K, 0, b"DATA"), (D, 4, b"\"a,b\""), (D, 10, b"c")],
    ),
    (
        b"DATA x'y,\"z',w",
        &[(K, 0, b"DATA"), (D, 4, b" x'y,\"z'"), (D, 13, b"w")],
    ),
    (b"DATA \"open,x", &[(K, 0, b"DATA"), (D, 4, b" \"open,x")]),
    (
        b"A%:DATA \x7f!?,REM",
        &[
            (V, 0, b"A%"),
            (S, 2, b":"),
            (K, 3, b"DATA"),
            (D, 7, b" \x7f!?"),
            (D, 12, b"REM"),
        ],
    ),
    (b"\x09A%\x09", &[(V, 1, b"A%")]),
];

/// A line, the byte at which it is rejected, and why.
type Refused = (&'static [u8], u16, Cause);

static REFUSED: [Refused; 39] = [
    (b"A", 0, Cause::FloatingName),
    (b"A1", 0, Cause::FloatingName),
    (b"A12%", 0, Cause::FloatingName),
    (b"AB%", 0, Cause::FloatingName),
    (b"A %", 0, Cause::FloatingName),
    (b"FN", 0, Cause::FloatingName),
    (b"FNA", 0, Cause::FloatingName),
    (b"FN5%", 0, Cause::FloatingName),
    (b"FNAB%", 0, Cause::FloatingName),
    (b"TOTAL%", 2, Cause::FloatingName),
    (b"FNTO%", 0, Cause::FloatingName),
    (b"ABS(1)", 0, Cause::FloatingName),
    (b"1.5", 0, Cause::FloatingLiteral),
    (b" 1.", 1, Cause::FloatingLiteral),
    (b"1E5", 0, Cause::FloatingLiteral),
    (b"1e5", 0, Cause::FloatingLiteral),
    (b"1E+5", 0, Cause::FloatingLiteral),
    (b"1E-5", 0, Cause::FloatingLiteral),
    (b"1E+A%", 1, Cause::FloatingName),
    (b"99999.5", 0, Cause::FloatingLiteral),
    (b"1%E5", 2, Cause::FloatingName),
    (b"1%.5", 2, Cause::StrayByte),
    (b".5", 0, Cause::StrayByte),
    (b"32768", 0, Cause::NumberTooWide),
    (b"A%=0065536%", 3, Cause::NumberTooWide),
    (b"99999999999999999999", 0, Cause::NumberTooWide),
    (b"\"", 0, Cause::OpenString),
    (b"A$='x\"", 3, Cause::OpenString),
    (b"\"a\"b\"", 3, Cause::FloatingName),
    (b"\x00", 0, Cause::StrayByte),
    (b"A%\x7f", 2, Cause::StrayByte),
    (b"\xc8", 0, Cause::StrayByte),
    (b"A%?", 2, Cause::StrayByte),
    (b"%", 0, Cause::StrayByte),
    (b"$A%", 0, Cause::StrayByte),
    (b"A%%", 2, Cause::StrayByte),
    (b"A%\x0d", 2, Cause::StrayByte),
    (b"TO$", 2, Cause::StrayByte),
    (b"A% ? \"", 3, Cause::StrayByte),
];

fn refused() -> &'static [Refused] {
    &REFUSED
}

/// The keywords except REM and DATA, and the longer one of two spellings, with blanks between them:
/// the proof goes through each row of a table, but takes this string as one.
const WORDS: &[u8] =
    b"ABS% AND AS ASCII CHAIN CHR$ CLOSE CLUSTERSIZE CON CVT$% CVT%$ DEF DIM ELSE END EQV \
ERL ERR ERROR FIELD FILE FNEND FOR GET GO GOSUB GOTO IDN IF IMP INPUT INSTR KILL \
LEFT$ LEN LET LINE LSET MAT MID$ MODE NAME NEXT NOT NUM$ NUM1$ ON OPEN OR OUTPUT \
POS PRINT PUT READ RECORD RECORDSIZE RECOUNT RESTORE RESUME RETURN RIGHT$ RSET SGN \
SLEEP SPACE$ STEP STOP STRING$ SUB SWAP% SYS TAB THEN TO TRN UNLESS UNLOCK UNTIL \
USING VAL WHILE XLATE XOR ZER";

/// Returns whether a token is the expected one.
fn is_token(token: Token<'_>, wanted: &Wanted<'_>) -> bool {
    token.kind == wanted.0 && token.start == wanted.1 && token.bytes == wanted.2
}

/// Returns the number of the first token that differs, or `None` if they are these and no more.
fn first_other(tokens: &Tokens<'_>, wanted: &[Wanted<'_>]) -> Option<usize> {
    if tokens.len() as usize != wanted.len() {
        return Some(wanted.len());
    }
    for place in 0..tokens.len() {
        let token = tokens.token(place);
        match wanted.get(place as usize) {
            Some(want) if is_token(token, want) => {}
            _ => return Some(place as usize),
        }
    }
    None
}

/// Returns whether a line has exactly these tokens.
fn is_taken(line: &[u8], wanted: &[Wanted<'_>]) -> bool {
    if line.len() > 255 {
        return false;
    }
    match scan(line) {
        Ok(tokens) => first_other(&tokens, wanted).is_none(),
        Err(_) => false,
    }
}

/// Returns whether a line is rejected there, for this cause.
fn is_refused(line: &[u8], place: u16, cause: Cause) -> bool {
    if line.len() > 255 {
        return false;
    }
    match scan(line) {
        Ok(_) => false,
        Err(refusal) => refusal.place == place && refusal.cause == cause,
    }
}

/// Returns the first line that has other tokens.
// The loop names the table: the prover cannot handle a function that borrows tokens of lines.
fn first_not_taken() -> Option<&'static [u8]> {
    for (line, wanted) in TAKEN {
        if !is_taken(line, wanted) {
            return Some(line);
        }
    }
    None
}

/// Fails with a line that has other tokens.
fn expect_none_other(line: Option<&[u8]>) -> Result<(), Fail> {
    match line {
        None => Ok(()),
        Some(line) => Err(Fail::new(format_args!("{line:?} has other tokens"))),
    }
}

/// Fails with the first line that is not rejected there.
fn expect_refused(rows: &[Refused]) -> Result<(), Fail> {
    for row in 0..rows.len() {
        let (line, place, cause) = rows[row];
        expect_row("the refused lines", row, is_refused(line, place, cause))?;
    }
    Ok(())
}

#[test]
fn lines_have_their_tokens_or_are_refused(_rt: HostRuntime) -> Result<(), Fail> {
    expect_none_other(first_not_taken())?;
    expect_refused(refused())
}

/// What follows a word, and the kind of token that it is; `None` if it is no token.
static BEHIND: [(&[u8], Option<TokenKind>); 4] = [
    (b"Q%", Some(V)),
    (b"7", Some(L)),
    (b"%", None),
    (b"$", None),
];

/// Returns the length of a word. No word has 20 bytes.
fn end_of(word: &[u8]) -> u16 {
    word.len().min(20) as u16
}

/// Returns whether a word ends where a token of that kind begins, or where a stray byte is
/// rejected.
fn ends_before(line: &[u8], word: &[u8], behind: &[u8], kind: Option<TokenKind>) -> bool {
    match kind {
        Some(kind) => is_taken(line, &[(K, 0, word), (kind, end_of(word), behind)]),
        None => is_refused(line, end_of(word), Cause::StrayByte),
    }
}

/// Returns the same for the word with those bytes after it.
fn is_ended(alloc: Global, word: &[u8], behind: &[u8], kind: Option<TokenKind>) -> bool {
    match [word, behind].concat(alloc) {
        Ok(line) => ends_before(line.as_slice(), word, behind, kind),
        Err(_) => false,
    }
}

/// Returns whether a word ends before each of these.
fn ends(alloc: Global, word: &[u8]) -> bool {
    for (behind, kind) in &BEHIND {
        if !is_ended(alloc, word, behind, *kind) {
            return false;
        }
    }
    true
}

/// Returns the first word of some bytes, and what follows the blank after it.
fn cut_word(text: &[u8]) -> (&[u8], &[u8]) {
    for place in 0..text.len() {
        if text[place] == b' ' {
            return (&text[..place], &text[place + 1..]);
        }
    }
    (text, &text[text.len()..])
}

/// Fails with the first of these words that does not end like this.
fn expect_ends(alloc: Global, words: &[u8]) -> Result<(), Fail> {
    let mut rest = words;
    for place in 0..words.len() {
        if rest.is_empty() {
            return Ok(());
        }
        let (word, behind) = cut_word(rest);
        expect_row("the words", place, ends(alloc, word))?;
        rest = behind;
    }
    Ok(())
}

#[test]
fn keywords_end_where_another_byte_begins(rt: HostRuntime) -> Result<(), Fail> {
    expect_ends(rt.alloc(), WORDS)
}

/// Returns whether a line has 255 bytes and this many tokens.
fn has_tokens(line: &[u8], count: u16) -> bool {
    if line.len() != 255 {
        return false;
    }
    match scan(line) {
        Ok(tokens) => tokens.len() == count,
        Err(_) => false,
    }
}

/// Returns whether a line of 255 zeros is one token.
fn is_one_token(alloc: Global) -> bool {
    match vec![in alloc; b'0'; 255] {
        Ok(zeros) => has_tokens(zeros.as_slice(), 1),
        Err(_) => false,
    }
}

/// Returns whether DATA with these commas is a line of 255 bytes, with one item more than commas.
fn are_all_items(alloc: Global, commas: &[u8]) -> bool {
    match [b"DATA".as_slice(), commas].concat(alloc) {
        Ok(line) => has_tokens(line.as_slice(), 253),
        Err(_) => false,
    }
}

#[test]
fn long_lines_and_words(rt: HostRuntime) -> Result<(), Fail> {
    expect(is_one_token(rt.alloc()), "255 zeros")?;
    expect(are_all_items(rt.alloc(), &[b','; 251]), "251 commas")
}

/// Returns whether the first word is a keyword by itself, and the second is not.
fn are_keywords(word: &[u8], other: &[u8]) -> bool {
    keyword_of(word) == Some(Keyword::Left) && keyword_of(other).is_none()
}

/// Returns the same for signs.
fn are_signs(sign: &[u8], other: &[u8]) -> bool {
    sign_of(sign) == Some(Sign::DoubleStar) && sign_of(other).is_none()
}

/// A literal, and its number.
static LITERALS: [(&[u8], u16); 3] = [(b"0012%", 12), (b"99999", 32768), (b"%", 0)];

#[test]
fn words_signs_and_literals_are_known(_rt: HostRuntime) -> Result<(), Fail> {
    expect(are_keywords(b"left$", b"LEF"), "a word")?;
    expect(are_signs(b"**", b"!"), "a sign")?;
    for (bytes, number) in &LITERALS {
        expect(literal_value(bytes) == *number, "a literal")?;
    }
    Ok(())
}
