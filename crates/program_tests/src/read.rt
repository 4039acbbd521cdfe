//! Programs and lines of immediate mode, from their bytes.

use basic_tree::Line;
use basic_values::Trouble;
use line_editor::{EditRefusal, ProgramText};
use lowering::{lower, lower_now};
use polish_code::Code;
use program_model::{LowerCause, LowerRefusal};
use std::alloc::Global;
use std::test::Fail;

/// A rejection by its line and its cause; none if there is code.
pub(crate) type Verdict = Option<(u16, LowerCause)>;

/// Returns a program of these lines, which are numbered 10, 20 and so on.
pub(crate) fn program_of(alloc: Global, lines: &str) -> Result<ProgramText, Fail> {
    let mut text = ProgramText::new(alloc);
    put_lines(&mut text, lines)?;
    Ok(text)
}

fn put_lines(text: &mut ProgramText, lines: &str) -> Result<(), Fail> {
    let mut number = 10;
    for line in lines.lines() {
        stored(text.put_line(number, line.as_bytes()))?;
        number = if number < 60000 { number + 10 } else { number };
    }
    Ok(())
}

fn stored(answer: Result<(), Trouble<EditRefusal>>) -> Result<(), Fail> {
    match answer {
        Ok(()) => Ok(()),
        Err(Trouble::Refused(_)) => Err(Fail::from("a line is refused")),
        Err(Trouble::NoMemory) => Err(Fail::from("no memory")),
    }
}

fn verdict_of(answer: Result<Code, Trouble<LowerRefusal>>) -> Result<Verdict, Fail> {
    match answer {
        Ok(_) => Ok(None),
        Err(Trouble::Refused(refusal)) => Ok(Some((refusal.line, refusal.cause))),
        Err(Trouble::NoMemory) => Err(Fail::from("no memory")),
    }
}

/// Returns the verdict on a program of these lines.
fn judged(alloc: Global, lines: &str) -> Result<Verdict, Fail> {
    let text = program_of(alloc, lines)?;
    verdict_of(lower(alloc, text.program()))
}

/// Returns these pieces one after another.
fn joined(alloc: Global, pieces: &[&str]) -> Result<String, Fail> {
    let mut text = String::new(alloc);
    for piece in pieces {
        text.push_str(piece)?;
    }
    Ok(text)
}

/// Returns whether a program whose lines are these pieces has this verdict.
pub(crate) fn is_judged(alloc: Global, pieces: &[&str], wanted: Verdict) -> Result<bool, Fail> {
    let lines = joined(alloc, pieces)?;
    Ok(judged(alloc, lines.as_str())? == wanted)
}

/// Returns the verdict on a line in immediate mode.
fn judged_now(alloc: Global, line: &str) -> Result<Verdict, Fail> {
    let text = program_of(alloc, line)?;
    match text.program().lines.get(&10) {
        Some(line) => verdict_of(lower_now(alloc, line)),
        None => Err(Fail::from("no line")),
    }
}

/// Returns whether a line has this verdict in immediate mode.
pub(crate) fn is_judged_now(alloc: Global, line: &str, wanted: Verdict) -> Result<bool, Fail> {
    Ok(judged_now(alloc, line)? == wanted)
}
