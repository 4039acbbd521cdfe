//! Whole sessions, the forms of HELLO, and each reply to a login and to a logout.

use crate::talks::{Answer, HELLO, NOTHING_BETWEEN, expect_of_visitor, expect_talk};
use crate::told::joined;
use std::alloc::Global;
use std::test::Fail;

/// The keys of a session, the answers of its port, what it shows and its requests.
type Talk = (
    &'static [&'static str],
    &'static [Answer],
    &'static str,
    &'static str,
);

fn expect_talks(alloc: Global, talks: &[Talk]) -> Result<(), Fail> {
    for (keys, answers, screen, log) in talks {
        expect_talk(alloc, keys, answers, screen, log)?;
    }
    Ok(())
}

static WORKED: [Talk; 4] = [
    (
        &[HELLO, "PRINT 2%+3%", "BYE"],
        &[Answer::Done, Answer::Done],
        "HELLO 100,5;DEMO\nReady\nPRINT 2%+3%\n 5 \nReady\nBYE\nBye\n",
        NOTHING_BETWEEN,
    ),
    (
        &[HELLO],
        &[Answer::Done, Answer::Done],
        "HELLO 100,5;DEMO\nReady\nBye\n",
        NOTHING_BETWEEN,
    ),
    (
        &[HELLO, "bye\t", "PRINT 1", HELLO],
        &[Answer::Done, Answer::Done],
        "HELLO 100,5;DEMO\nReady\nbye\t\nBye\n",
        NOTHING_BETWEEN,
    ),
    (&[], &[Answer::Done, Answer::Done], "", ""),
];

#[test]
fn worked_sessions(rt: HostRuntime) -> Result<(), Fail> {
    expect_talks(rt.alloc(), &WORKED)
}

static SECOND_TRIES: [Talk; 2] = [
    (
        &["HELLO 100,5;DEMON", " hello 100 / 5 ; demo", "PRINT 7"],
        &[Answer::Failed(5), Answer::Done],
        "HELLO 100,5;DEMON\nInvalid entry - try again\n hello 100 / 5 ; demo\nReady\n\
        PRINT 7\n 7 \nReady\nBye\n",
        "Login 100,5;DEMON Failed 5\nLogin 100,5;DEMO Done\nLogout Done\n",
    ),
    (
        &["HELLO 100,5;DEMON", "PRINT 7", "BYE", HELLO],
        &[Answer::Failed(5), Answer::Done],
        "HELLO 100,5;DEMON\nInvalid entry - try again\nPRINT 7\nPlease say HELLO\nBYE\n",
        "Login 100,5;DEMON Failed 5\n",
    ),
];

#[test]
fn a_second_try_after_a_wrong_password(rt: HostRuntime) -> Result<(), Fail> {
    expect_talks(rt.alloc(), &SECOND_TRIES)
}

/// A form of HELLO, and the account and the password that it asks for.
static ASKING: [(&str, &str); 5] = [
    (HELLO, "100,5;DEMO"),
    ("hello\t1/0;a", "1,0;A"),
    ("HELLO254,254;ABC123", "254,254;ABC123"),
    ("  Hello 1 0 0,5; d e m o ", "100,5;DEMO"),
    ("HELLO 7,10;000000", "7,10;000000"),
];

fn expect_refused_login(alloc: Global, line: &str, asked: &str) -> Result<(), Fail> {
    let screen = joined(alloc, &[line, "\nInvalid entry - try again\n"])?;
    let log = joined(alloc, &["Login ", asked, " Failed 5\n"])?;
    expect_talk(
        alloc,
        &[line],
        &[Answer::Failed(5)],
        screen.as_str(),
        log.as_str(),
    )
}

#[test]
fn forms_of_hello_that_ask(rt: HostRuntime) -> Result<(), Fail> {
    for (line, asked) in ASKING.iter() {
        expect_refused_login(rt.alloc(), line, asked)?;
    }
    Ok(())
}

static NOT_ASKING: [&str; 21] = [
    "HELLO",
    "HELLO ",
    "HELLO 100,5",
    "HELLO 100,5;",
    "HELLO ;DEMO",
    "HELLO ,5;DEMO",
    "HELLO 100;DEMO",
    "HELLO 100,;DEMO",
    "HELLO 0,5;DEMO",
    "HELLO 255,5;DEMO",
    "HELLO 100,255;DEMO",
    "HELLO 0100,5;DEMO",
    "HELLO 100,05;DEMO",
    "HELLO 99999999999,5;DEMO",
    "HELLO 100,5;DEMO567",
    "HELLO 100,5;DE-MO",
    "HELLO 100,5;DEMO;DEMO",
    "HELLO 100,5,6;DEMO",
    "HELLO 100.5;DEMO",
    "HELLO [100,5];DEMO",
    "HELLO +1,5;DEMO",
];

#[test]
fn forms_of_hello_that_do_not_ask(rt: HostRuntime) -> Result<(), Fail> {
    for line in NOT_ASKING.iter() {
        expect_of_visitor(rt.alloc(), line, "Invalid entry - try again\n")?;
    }
    Ok(())
}

static LOGINS: [Talk; 8] = [
    (
        &[HELLO, "BYE"],
        &[Answer::Expired, Answer::Done],
        "HELLO 100,5;DEMO\n?Job expired\n",
        "Login 100,5;DEMO Expired\n",
    ),
    (
        &[HELLO, "BYE"],
        &[],
        "HELLO 100,5;DEMO\n?Job expired\n",
        "Login 100,5;DEMO Expired\n",
    ),
    (
        &[HELLO, "BYE"],
        &[Answer::Failed(0), Answer::Done],
        "HELLO 100,5;DEMO\n?Job expired\n",
        "Login 100,5;DEMO Failed 0\n",
    ),
    (
        &[HELLO, "BYE"],
        &[Answer::Failed(71), Answer::Done],
        "HELLO 100,5;DEMO\n?Job expired\n",
        "Login 100,5;DEMO Failed 71\n",
    ),
    (
        &[HELLO, "BYE"],
        &[Answer::Failed(255), Answer::Done],
        "HELLO 100,5;DEMO\n?Job expired\n",
        "Login 100,5;DEMO Failed 255\n",
    ),
    (
        &[HELLO, "BYE"],
        &[Answer::Failed(1), Answer::Done],
        "HELLO 100,5;DEMO\nInvalid entry - try again\nBYE\n",
        "Login 100,5;DEMO Failed 1\n",
    ),
    (
        &[HELLO, "BYE"],
        &[Answer::Failed(70), Answer::Done],
        "HELLO 100,5;DEMO\nInvalid entry - try again\nBYE\n",
        "Login 100,5;DEMO Failed 70\n",
    ),
    (
        &["HELLO 1,2;A", HELLO],
        &[Answer::Failed(5)],
        "HELLO 1,2;A\nInvalid entry - try again\nHELLO 100,5;DEMO\n?Job expired\n",
        "Login 1,2;A Failed 5\nLogin 100,5;DEMO Expired\n",
    ),
];

#[test]
fn replies_to_a_login(rt: HostRuntime) -> Result<(), Fail> {
    expect_talks(rt.alloc(), &LOGINS)
}

/// An answer to a logout, and how it is written.
static LOGOUTS: [(Answer, &str); 4] = [
    (Answer::Done, "Done"),
    (Answer::Expired, "Expired"),
    (Answer::Failed(3), "Failed 3"),
    (Answer::Failed(0), "Failed 0"),
];

/// Checks that no answer to a logout shows another end than Done does.
fn expect_logout(alloc: Global, answer: Answer, told: &str) -> Result<(), Fail> {
    let log = joined(alloc, &["Login 100,5;DEMO Done\nLogout ", told, "\n"])?;
    let answers = [Answer::Done, answer];
    let shown = "HELLO 100,5;DEMO\nReady\nBYE\nBye\n";
    expect_talk(alloc, &[HELLO, "BYE", "BYE"], &answers, shown, log.as_str())?;
    let shown = "HELLO 100,5;DEMO\nReady\nBye\n";
    expect_talk(alloc, &[HELLO], &answers, shown, log.as_str())
}

#[test]
fn replies_to_a_logout(rt: HostRuntime) -> Result<(), Fail> {
    for (answer, told) in LOGOUTS.iter() {
        expect_logout(rt.alloc(), *answer, told)?;
    }
    Ok(())
}
