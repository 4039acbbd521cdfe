//! One key line each: what it shows before the login and after it.

use crate::talks::{
    Answer, FLOATING_LITERAL, FLOATING_NAME, HELLO, ILLEGAL_COMMAND, ILLEGAL_NAME, ILLEGAL_NUMBER,
    IMMEDIATE, OPEN_STRING, Row, STRAY_BYTE, SYNTAX, TOO_DEEP, TOO_WIDE, expect_of_each,
    expect_of_lines, expect_of_ready, expect_of_user, expect_of_users, expect_of_visitor,
    expect_of_visitors, expect_talk,
};
use crate::told::joined;
use std::alloc::Global;
use std::test::Fail;

static BEFORE: [Row; 15] = [
    ("", "Please say HELLO\n"),
    (" \t ", "Please say HELLO\n"),
    ("^Z", "Please say HELLO\n"),
    ("^Z ", "Please say HELLO\n"),
    ("PRINT 2%+3%", "Please say HELLO\n"),
    ("PRINT", "Please say HELLO\n"),
    ("HELLOX 100,5;DEMO", "Please say HELLO\n"),
    ("HELL 100,5;DEMO", "Please say HELLO\n"),
    ("100,5;DEMO", "Please say HELLO\n"),
    ("BYES", "Please say HELLO\n"),
    ("CAFÉ", "Please say HELLO\n"),
    ("BYE X", "?Illegal command\nReady\n"),
    (" bye1", "?Illegal command\nReady\n"),
    ("BYE", ""),
    (" bye \t", ""),
];

#[test]
fn lines_before_the_login(rt: HostRuntime) -> Result<(), Fail> {
    expect_of_visitors(rt.alloc(), &BEFORE)?;
    expect_talk(rt.alloc(), &["BYE", HELLO], &[Answer::Done], "BYE\n", "")?;
    let shown = "BYE X\n?Illegal command\nReady\nHELLO 100,5;DEMO\nReady\nBye\n";
    let log = "Login 100,5;DEMO Done\nLogout Expired\n";
    let answers = [Answer::Done, Answer::Expired];
    expect_talk(rt.alloc(), &["BYE X", HELLO], &answers, shown, log)
}

static BEHIND: [Row; 21] = [
    ("", ""),
    ("  \t", ""),
    ("^Z", ""),
    (" ^Z", ""),
    ("HELLO", "?Already logged in\nReady\n"),
    ("hello 100,6;OTHER", "?Already logged in\nReady\n"),
    ("BYE X", "?Illegal command\nReady\n"),
    ("BYE;", "?Illegal command\nReady\n"),
    ("GOTO 10", IMMEDIATE),
    ("  A%=1", "Ready\n"),
    ("!", "Ready\n"),
    ("^Z ", FLOATING_NAME),
    ("^z", FLOATING_NAME),
    ("BYES", FLOATING_NAME),
    ("CAFÉ", FLOATING_NAME),
    ("A$=1.5", FLOATING_LITERAL),
    ("A%=40000", TOO_WIDE),
    ("A$='B\"", OPEN_STRING),
    ("&", STRAY_BYTE),
    ("A%=", SYNTAX),
    ("GOTO 0", SYNTAX),
];

#[test]
fn lines_behind_the_login(rt: HostRuntime) -> Result<(), Fail> {
    expect_of_users(rt.alloc(), &BEHIND)
}

/// A line, and the sum that it prints.
static SUMS: [Row; 11] = [
    ("PRINT 2%+3%", " 5 "),
    ("print2+3", " 5 "),
    ("PRINT 0", " 0 "),
    ("  Print\t 2%  +\t3  ", " 5 "),
    ("PRINT 00002%+1", " 3 "),
    ("PRINT 000000000000032767", " 32767 "),
    ("PRINT 32767%+1%", "-32768 "),
    ("PRINT 32767+32767", "-2 "),
    ("PRINT 32767+32767+2", " 0 "),
    ("PRINT 32767+32767+32767", " 32765 "),
    ("PRINT 1+2+3+4+5+6+7+8+9+10", " 55 "),
];

#[test]
fn sums_are_printed(rt: HostRuntime) -> Result<(), Fail> {
    expect_of_ready(rt.alloc(), &SUMS)
}

static PRINTING: [Row; 20] = [
    ("PRINT", "\nReady\n"),
    ("PRINT +1", " 1 \nReady\n"),
    ("PRINT -1", "-1 \nReady\n"),
    ("PRINT 2*3", " 6 \nReady\n"),
    ("PRINT A%", " 0 \nReady\n"),
    ("PRINT 1;2", " 1  2 \nReady\n"),
    ("PRINT 1:", " 1 \nReady\n"),
    ("PRINT 1!", " 1 \nReady\n"),
    ("PRINT 'A';", "A\nReady\n"),
    ("PRINT 32768", TOO_WIDE),
    ("PRINT 1+32768", TOO_WIDE),
    ("PRINT 18446744073709551617", TOO_WIDE),
    ("PRINT 1 2", SYNTAX),
    ("PRINT 1+", SYNTAX),
    ("2+3", SYNTAX),
    ("PRINT 2 %", STRAY_BYTE),
    ("PRINT %2", STRAY_BYTE),
    ("PRINT 2.0", FLOATING_LITERAL),
    ("PRINTX 1", FLOATING_NAME),
    ("PR INT 1", FLOATING_NAME),
];

#[test]
fn lines_of_print(rt: HostRuntime) -> Result<(), Fail> {
    expect_of_users(rt.alloc(), &PRINTING)
}

static FOR_PROGRAMS: [&str; 17] = [
    "GOTO 10",
    "GOSUB 10",
    "IF 1% THEN 10",
    "ON 1% GOTO 10",
    "RETURN",
    "RESUME",
    "STOP",
    "FOR I%=1% TO 2%",
    "NEXT I%",
    "DATA 1",
    "DIM A%(5%)",
    "DEF FNA%=1%",
    "FNEND",
    "FNA%=1%",
    "PRINT FNA%(1%)",
    "ON ERROR GOTO 10",
    "ON ERROR GOTO 0",
];

#[test]
fn lines_that_are_for_programs(rt: HostRuntime) -> Result<(), Fail> {
    expect_of_each(rt.alloc(), &FOR_PROGRAMS, IMMEDIATE)
}

static ON_FILES: [&str; 5] = ["OLD", "SAVE", "REPLACE", "UNSAVE", " save"];

/// Checks that what follows a word of a command on files is its name, and that a longer word is no
/// command.
fn expect_word(alloc: Global, word: &str) -> Result<(), Fail> {
    expect_behind(alloc, word, "& 1.5 \"", ILLEGAL_NAME)?;
    expect_behind(alloc, word, "Q", FLOATING_NAME)
}

fn expect_behind(alloc: Global, word: &str, tail: &str, shown: &str) -> Result<(), Fail> {
    let line = joined(alloc, &[word, tail])?;
    expect_of_user(alloc, line.as_str(), shown)
}

static TAILS_OF_CAT: [&str; 11] = [
    "CAT X",
    "CAT 0,1",
    "CAT 255,1",
    "CAT 1,255",
    "CAT [1,2",
    "CAT 1,2]",
    "CAT [1,2]X",
    "CAT 1/2",
    "CAT[]",
    "CAT $",
    "CAT 01,2",
];

static WORDS: [Row; 3] = [
    ("OLD", ILLEGAL_COMMAND),
    (" old \t", ILLEGAL_COMMAND),
    ("CATQ", FLOATING_NAME),
];

#[test]
fn words_of_commands_on_files(rt: HostRuntime) -> Result<(), Fail> {
    for word in ON_FILES.iter() {
        expect_word(rt.alloc(), word)?;
    }
    expect_of_each(rt.alloc(), &TAILS_OF_CAT, ILLEGAL_COMMAND)?;
    expect_of_users(rt.alloc(), &WORDS)
}

/// Statements that are done at once; as a line of a program each is stored as it is.
static OF_MATRICES: [Row; 6] = [
    ("MAT READ A%", "?Out of data\nReady\n"),
    ("MAT A%=ZER", "Ready\n"),
    ("MAT A%=B%+C%", "Ready\n"),
    ("IF 0% THEN MAT A%=(2%)*B%", "Ready\n"),
    ("A%=1%:MAT A%=TRN(A%):PRINT A%", " 1 \nReady\n"),
    ("MAT READ A% FOR I%=2% TO 1%", "Ready\n"),
];

fn expect_stored(alloc: Global, statement: &str) -> Result<(), Fail> {
    let line = joined(alloc, &["10 ", statement])?;
    let listed = joined(alloc, &["10 ", statement, "\nReady\n"])?;
    let lines = [(line.as_str(), ""), ("LISTNH", listed.as_str())];
    expect_of_lines(alloc, &lines)
}

#[test]
fn lines_of_matrices(rt: HostRuntime) -> Result<(), Fail> {
    expect_of_users(rt.alloc(), &OF_MATRICES)?;
    for (statement, _) in OF_MATRICES.iter() {
        expect_stored(rt.alloc(), statement)?;
    }
    Ok(())
}

static PROGRAM_LINES: [Row; 18] = [
    ("10", ""),
    ("10 ", ""),
    ("10 PRINT 1", ""),
    (" 10 PRINT 1%", ""),
    ("32767 GOTO 10", ""),
    ("00001STOP", ""),
    ("0", ILLEGAL_NUMBER),
    ("0 PRINT 1", ILLEGAL_NUMBER),
    ("32768 PRINT 1", ILLEGAL_NUMBER),
    ("99999999999999999999 PRINT A", ILLEGAL_NUMBER),
    ("99999 OPEN 'A' AS FILE 1%", ILLEGAL_NUMBER),
    ("0 SLEEP 1%", ILLEGAL_NUMBER),
    ("10PRINT A", FLOATING_NAME),
    ("10 LIST", FLOATING_NAME),
    ("10.5", STRAY_BYTE),
    ("10%", STRAY_BYTE),
    ("10 20", SYNTAX),
    ("10 PRINT 1.5", FLOATING_LITERAL),
];

#[test]
fn program_lines(rt: HostRuntime) -> Result<(), Fail> {
    expect_of_users(rt.alloc(), &PROGRAM_LINES)
}

/// Returns `front`, then `times` times a part, a middle, and as many times an end.
fn nested(
    alloc: Global,
    front: &str,
    part: &str,
    times: usize,
    middle: &str,
    end: &str,
) -> Result<String, Fail> {
    let mut line = String::from_str(alloc, front)?;
    push_times(&mut line, part, times)?;
    line.push_str(middle)?;
    push_times(&mut line, end, times)?;
    Ok(line)
}

fn push_times(line: &mut String, part: &str, times: usize) -> Result<(), Fail> {
    for _ in 0..times {
        line.push_str(part)?;
    }
    Ok(())
}

fn expect_of_levels(alloc: Global, levels: usize, shown: &str) -> Result<(), Fail> {
    let line = nested(alloc, "PRINT ", "(", levels, "1", ")")?;
    expect_of_user(alloc, line.as_str(), shown)
}

#[test]
fn levels_of_nesting(rt: HostRuntime) -> Result<(), Fail> {
    expect_of_levels(rt.alloc(), 64, " 1 \nReady\n")?;
    expect_of_levels(rt.alloc(), 65, TOO_DEEP)
}

/// Fails unless a line has the most bytes that there are.
fn expect_longest(line: &str) -> Result<(), Fail> {
    if line.len() == 255 {
        Ok(())
    } else {
        Err(Fail::from("a line has not 255 bytes"))
    }
}

fn expect_longest_sum(alloc: Global) -> Result<(), Fail> {
    let sum = nested(alloc, "PRINT 1", "+1", 124, "", "")?;
    expect_longest(sum.as_str())?;
    expect_of_user(alloc, sum.as_str(), " 125 \nReady\n")
}

fn expect_longest_hello(alloc: Global) -> Result<(), Fail> {
    let hello = nested(alloc, "HELLO", "1", 250, "", "")?;
    expect_longest(hello.as_str())?;
    expect_of_visitor(alloc, hello.as_str(), "Invalid entry - try again\n")
}

/// Lines of 255 bytes, the most that there are.
#[test]
fn the_longest_lines(rt: HostRuntime) -> Result<(), Fail> {
    expect_longest_sum(rt.alloc())?;
    expect_longest_hello(rt.alloc())
}
