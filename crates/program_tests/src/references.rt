//! References into, out of and beside the bodies of functions, and what makes a program sound.

use crate::expects::expect_none;
use crate::read::{Verdict, is_judged};
use program_model::LowerCause;
use std::alloc::Global;
use std::test::Fail;

/// The lines of a program, numbered 10, 20 and so on, and the verdict on it.
type Row = (&'static str, Verdict);

const ACROSS: LowerCause = LowerCause::AcrossBody;

fn first_wrong(alloc: Global, rows: &[Row]) -> Result<Option<usize>, Fail> {
    for (place, (lines, wanted)) in rows.iter().enumerate() {
        if !is_judged(alloc, &[lines], *wanted)? {
            return Ok(Some(place));
        }
    }
    Ok(None)
}

static BODIES: [Row; 14] = [
    // into the body, to its result and to its FNEND
    ("DEF FNA%(X%)\nFNA%=X%\nFNEND\nGOTO 20", Some((40, ACROSS))),
    ("DEF FNA%(X%)\nFNA%=X%\nFNEND\nGOTO 30", Some((40, ACROSS))),
    // to its DEF, which is outside
    ("DEF FNA%(X%)\nFNA%=X%\nFNEND\nGOTO 10", None),
    // out of it, to what comes after it and to its own DEF
    ("DEF FNA%(X%)\nGOTO 40\nFNEND\nEND", Some((20, ACROSS))),
    ("DEF FNA%(X%)\nGOTO 10\nFNEND\nEND", Some((20, ACROSS))),
    // within it
    ("DEF FNA%(X%)\nGOTO 30\nFNEND\nEND", None),
    ("DEF FNA%(X%)\nIF X%=0% THEN 30\nFNEND\nEND", None),
    // beside it
    ("GOTO 50\nDEF FNA%(X%)\nFNA%=X%\nFNEND\nEND", None),
    ("GOSUB 50\nDEF FNA%(X%)\nFNA%=X%\nFNEND\nRETURN", None),
    // a line without statements means the next one that has some
    (
        "GOTO 30\nDEF FNA%(X%)\n!\nFNA%=X%\nFNEND\nEND",
        Some((10, ACROSS)),
    ),
    (
        "DEF FNA%(X%)\n!\nFNA%=X%\nFNEND\nGOTO 20",
        Some((50, ACROSS)),
    ),
    ("GOTO 20\n!\nEND", None),
    // from one body into another
    (
        "DEF FNA%(X%)\nGOTO 50\nFNEND\nDEF FNB%(X%)\nFNEND",
        Some((20, ACROSS)),
    ),
    // the lines of an ON are judged one by one
    ("ON A% GOTO 10,30\nDEF FNA%(X%)\nFNEND", Some((10, ACROSS))),
];

#[test]
fn references_stay_in_their_body(rt: HostRuntime) -> Result<(), Fail> {
    expect_none(rt.alloc(), first_wrong(rt.alloc(), &BODIES)?)
}

static LINES: [Row; 19] = [
    ("GOTO 10", None),
    ("GOTO 15\nEND", Some((10, LowerCause::NoLine))),
    ("ON A% GOSUB 10,11\nEND", Some((10, LowerCause::NoLine))),
    ("IF A%=1% THEN 11 ELSE 10", Some((10, LowerCause::NoLine))),
    ("IF A%=1% THEN 10 ELSE 11", Some((10, LowerCause::NoLine))),
    ("IF A%=1% GOTO 11", Some((10, LowerCause::NoLine))),
    ("GOTO 11 IF A%=1%", Some((10, LowerCause::NoLine))),
    // line 0 is no line
    ("ON ERROR GOTO 0\nRESUME 0\nEND", None),
    ("ON ERROR GOTO\nRESUME\nEND", None),
    ("ON ERROR GOTO 11\nEND", Some((10, LowerCause::NoLine))),
    // in a body errors are not handled
    ("DEF FNA%(X%)\nRESUME\nFNEND", Some((20, ACROSS))),
    (
        "DEF FNA%(X%)\nIF X%=1% THEN ON ERROR GOTO 0\nFNEND",
        Some((20, ACROSS)),
    ),
    // arrays of DIM
    (
        "DIM A%(3%),B%(3%)\nDIM A$(3%)\nDIM A%(3%,3%)",
        Some((30, LowerCause::DoubleDim)),
    ),
    ("DIM A%(3%),A%(3%)", Some((10, LowerCause::DoubleDim))),
    // a function that is defined after its call, and calls within arguments
    ("A%=FNA%(FNA%(1%))\nDEF FNA%(X%)=X%", None),
    (
        "A%=FNA%(FNB%(1%))\nDEF FNA%(X%)=X%",
        Some((10, LowerCause::NoFunction)),
    ),
    (
        "A%(FNA%)=1%\nDEF FNA%(X%)=X%",
        Some((10, LowerCause::Arguments)),
    ),
    (
        "A%(FNA%('1'))=1%\nDEF FNA%(X%)=X%",
        Some((10, LowerCause::Arguments)),
    ),
    ("DEF FNA$(X$)=FNA$(1%)", Some((10, LowerCause::Arguments))),
];

#[test]
fn lines_arrays_and_functions_are_found(rt: HostRuntime) -> Result<(), Fail> {
    expect_none(rt.alloc(), first_wrong(rt.alloc(), &LINES)?)
}

static LOOPS: [Row; 10] = [
    ("FOR I%=1% TO 3%\nFOR J%=1% TO 3%\nNEXT J%\nNEXT I%", None),
    ("FOR I%=1% TO 3%:NEXT I%", None),
    // a NEXT closes only the innermost FOR
    (
        "FOR I%=1% TO 3%\nFOR J%=1% TO 3%\nNEXT I%\nNEXT J%",
        Some((10, LowerCause::OpenFor)),
    ),
    (
        "FOR I%=1% TO 3%\nNEXT I%\nNEXT I%",
        Some((30, LowerCause::StrayNext)),
    ),
    // of its body
    (
        "FOR I%=1% TO 3%\nDEF FNA%(X%)\nNEXT I%\nFNEND\nNEXT I%",
        Some((30, LowerCause::StrayNext)),
    ),
    ("FOR I%=1% TO 3%\nDEF FNA%(X%)\nFNEND\nNEXT I%", None),
    ("DEF FNA%(X%)\nFOR I%=1% TO 3%\nNEXT I%\nFNEND", None),
    // DEF and FNEND
    ("DEF FNA%(X%)\nFNA%=X%", Some((10, LowerCause::OpenDef))),
    (
        "DEF FNA%(X%)\nFNB%=X%\nFNEND",
        Some((20, LowerCause::StrayResult)),
    ),
    (
        "DEF FNA%(X%)\nFNA%=X%\nFNEND\nDEF FNA%(X%)=X%",
        Some((40, LowerCause::DoubleDef)),
    ),
];

#[test]
fn loops_and_bodies_are_closed(rt: HostRuntime) -> Result<(), Fail> {
    expect_none(rt.alloc(), first_wrong(rt.alloc(), &LOOPS)?)
}
