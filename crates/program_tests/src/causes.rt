//! Each cause by itself, each pair of causes on one line and on two, and in immediate mode.

use crate::expects::expect_none;
use crate::read::{Verdict, is_judged, is_judged_now};
use program_model::LowerCause;
use std::alloc::Global;
use std::test::Fail;

/// A cause, and a line that is rejected for it.
type Row = (LowerCause, &'static str);

/// A line for each cause, in the order in which those of one line are reported. None of them takes
/// a cause from another.
static ROWS: [Row; 12] = [
    (LowerCause::NoLine, "GOTO 5"),
    (LowerCause::OpenFor, "FOR I%=1% TO 2%"),
    (LowerCause::StrayNext, "NEXT J%"),
    (LowerCause::OpenDef, "DEF FND%(X%):DEF FNG%(X%)=X%:FNEND"),
    (LowerCause::StrayFnend, "FNEND"),
    (LowerCause::DoubleDef, "DEF FNE%(X%)=X%:DEF FNE%(X%)=X%"),
    (LowerCause::AcrossBody, "DEF FNB%(X%):ON ERROR GOTO 0:FNEND"),
    (LowerCause::NoFunction, "A%=FNZ%(1%)"),
    (LowerCause::Arguments, "DEF FNC%(X%)=X%:A%=FNC%(1%,2%)"),
    (LowerCause::DoubleDim, "DIM A%(3%):DIM A%(4%)"),
    (LowerCause::StrayResult, "FNA%=1%"),
    (LowerCause::MatFile, "DIM #1%,M%(2%):MAT M%=ZER"),
];

fn rows() -> &'static [Row] {
    &ROWS
}

fn first_wrong_by_itself(alloc: Global) -> Result<Option<usize>, Fail> {
    for (place, (cause, line)) in rows().iter().enumerate() {
        if !is_judged(alloc, &["A%=1%\n", line, "\nEND"], Some((20, *cause)))? {
            return Ok(Some(place));
        }
    }
    Ok(None)
}

#[test]
fn each_cause_is_told_at_its_line(rt: HostRuntime) -> Result<(), Fail> {
    expect_none(rt.alloc(), first_wrong_by_itself(rt.alloc())?)
}

/// Returns the first other row for which one line, made of this row's line and that one, has
/// another verdict than expected.
fn wrong_on_one_line(alloc: Global, row: usize, first: &Row) -> Result<Option<usize>, Fail> {
    for (place, (other, behind)) in rows().iter().enumerate() {
        let wanted = if row < place { first.0 } else { *other };
        if place != row && !is_judged(alloc, &[first.1, ":", behind], Some((10, wanted)))? {
            return Ok(Some(place));
        }
    }
    Ok(None)
}

/// Fails with two rows, if the first one has another verdict with the second after it.
fn expect_none_behind(alloc: Global, row: usize, wrong: Option<usize>) -> Result<(), Fail> {
    match wrong {
        None => Ok(()),
        Some(place) => Err(Fail::new(format!(in alloc;
            "row {row} is told otherwise with row {place} behind it"
        )?)),
    }
}

#[test]
fn the_first_cause_of_a_line_is_told(rt: HostRuntime) -> Result<(), Fail> {
    for (row, first) in rows().iter().enumerate() {
        expect_none_behind(rt.alloc(), row, wrong_on_one_line(rt.alloc(), row, first)?)?;
    }
    Ok(())
}

/// Returns the first other row whose line, put after this row's line, changes the verdict from this
/// row's cause.
fn wrong_on_two_lines(alloc: Global, row: usize, first: &Row) -> Result<Option<usize>, Fail> {
    for (place, (_, behind)) in rows().iter().enumerate() {
        if place != row && !is_judged(alloc, &[first.1, "\n", behind], Some((10, first.0)))? {
            return Ok(Some(place));
        }
    }
    Ok(None)
}

#[test]
fn the_least_line_is_told(rt: HostRuntime) -> Result<(), Fail> {
    for (row, first) in rows().iter().enumerate() {
        expect_none_behind(rt.alloc(), row, wrong_on_two_lines(rt.alloc(), row, first)?)?;
    }
    Ok(())
}

const IMMEDIATE: Verdict = Some((0, LowerCause::Immediate));

fn first_not_immediate(alloc: Global) -> Result<Option<usize>, Fail> {
    for (place, (_, line)) in rows().iter().enumerate() {
        if !is_judged_now(alloc, line, IMMEDIATE)? {
            return Ok(Some(place));
        }
    }
    Ok(None)
}

#[test]
fn immediate_mode_has_one_cause(rt: HostRuntime) -> Result<(), Fail> {
    expect_none(rt.alloc(), first_not_immediate(rt.alloc())?)
}

static NOW: [(&str, bool); 24] = [
    ("PRINT 1%", true),
    ("A%=1%:PRINT A%", true),
    ("PRINT I% FOR I%=1% TO 3%", true),
    ("IF A%=1% THEN PRINT 1% ELSE PRINT 2%", true),
    ("READ A%", true),
    ("RESTORE", true),
    ("END", true),
    ("INPUT A%", true),
    ("A%=B%(1%)", true),
    ("RETURN", false),
    ("STOP", false),
    ("RESUME", false),
    ("RESUME 0", false),
    ("ON ERROR GOTO 0", false),
    ("ON ERROR GOTO", false),
    ("GOSUB 10", false),
    ("ON A% GOTO 10,20", false),
    ("ON A% GOSUB 10", false),
    ("IF A%=1% THEN 10", false),
    ("IF A%=1% THEN PRINT 1% ELSE 10", false),
    ("IF A%=1% THEN STOP", false),
    ("PRINT FNA%(1%)", false),
    ("DATA 1,2", false),
    ("NEXT I%", false),
];

fn first_wrong_now(alloc: Global) -> Result<Option<usize>, Fail> {
    for (place, (line, fits)) in NOW.iter().enumerate() {
        let wanted = if *fits { None } else { IMMEDIATE };
        if !is_judged_now(alloc, line, wanted)? {
            return Ok(Some(place));
        }
    }
    Ok(None)
}

#[test]
fn immediate_mode_refuses_what_belongs_to_programs(rt: HostRuntime) -> Result<(), Fail> {
    expect_none(rt.alloc(), first_wrong_now(rt.alloc())?)
}
