//! Arguments of functions of the program: as many as the parameters, and each of its kind.

use crate::expects::{expect_none, expect_none_of};
use crate::read::{Verdict, is_judged};
use program_model::LowerCause;
use std::alloc::Global;
use std::test::Fail;

static NUMBERS: [&str; 24] = [
    "1%",
    "I%",
    "I%(1%)",
    "(I%)",
    "-I%",
    "+I%",
    "NOT I%",
    "I%+J%",
    "I%=J%",
    "I$=J$",
    "I$<'A'",
    "LEN(I$)",
    "ASCII(I$)",
    "INSTR(1%,I$,J$)",
    "VAL(I$)",
    "CVT$%(I$)",
    "SWAP%(1%)",
    "ABS%(1%)",
    "SGN(1%)",
    "ERR",
    "ERL",
    "FNN%(1%)",
    "FNT%('A')",
    "FNN%(LEN(FNN$(1%)))",
];

static TEXTS: [&str; 18] = [
    "'A'",
    "I$",
    "I$(1%,2%)",
    "((I$))",
    "I$+'A'",
    "LEFT(I$,1%)",
    "RIGHT$(I$,1%)",
    "MID(I$,1%,1%)",
    "CHR$(65%)",
    "SPACE$(1%)",
    "STRING$(1%,65%)",
    "NUM1$(1%)",
    "NUM$(1%)",
    "CVT%$(1%)",
    "XLATE(I$,J$)",
    "FNN$(1%)",
    "FNN$(FNT%('A'))+'B'",
    "(I$+LEFT(J$,1%))",
];

const FUNCTIONS: &str = "DEF FNN%(X%)=X%\nDEF FNT%(X$)=1%\nDEF FNN$(X%)='A'\n";

/// Returns whether a program whose line 40 gives a function that argument has this verdict.
fn is_told(alloc: Global, function: &str, argument: &str, wanted: Verdict) -> Result<bool, Fail> {
    is_judged(
        alloc,
        &[FUNCTIONS, "A%=", function, "(", argument, ")"],
        wanted,
    )
}

const UNFIT: Verdict = Some((40, LowerCause::Arguments));

/// Returns the first argument that does not fit its own function, or fits the other.
fn first_misfit(
    alloc: Global,
    arguments: &[&str],
    own: &str,
    other: &str,
) -> Result<Option<usize>, Fail> {
    for (place, argument) in arguments.iter().enumerate() {
        let is_fit = is_told(alloc, own, argument, None)?;
        if !is_fit || !is_told(alloc, other, argument, UNFIT)? {
            return Ok(Some(place));
        }
    }
    Ok(None)
}

#[test]
fn an_argument_has_the_kind_of_its_parameter(rt: HostRuntime) -> Result<(), Fail> {
    let wrong = first_misfit(rt.alloc(), &NUMBERS, "FNN%", "FNT%")?;
    expect_none_of(rt.alloc(), "the numbers", wrong)?;
    let wrong = first_misfit(rt.alloc(), &TEXTS, "FNT%", "FNN%")?;
    expect_none_of(rt.alloc(), "the texts", wrong)
}

/// Arguments of a function with the parameters X%, Y$ and Z%, and whether they fit.
static LISTS: [(&str, bool); 9] = [
    ("A%=FNA%(1%,'A',2%)", true),
    ("A%=FNA%('A',1%,2%)", false),
    ("A%=FNA%(1%,2%,3%)", false),
    ("A%=FNA%(1%,'A','B')", false),
    ("A%=FNA%(1%,'A')", false),
    ("A%=FNA%(1%,'A',2%,3%)", false),
    ("A%=FNA%", false),
    ("A%=FNA%(FNA%(1%,'A',2%),'A',2%)", true),
    ("A%=FNA%(FNA%(1%,2%,2%),'A',2%)", false),
];

fn first_wrong_list(alloc: Global) -> Result<Option<usize>, Fail> {
    for (place, (line, fit)) in LISTS.iter().enumerate() {
        let wanted = if *fit {
            None
        } else {
            Some((20, LowerCause::Arguments))
        };
        if !is_judged(alloc, &["DEF FNA%(X%,Y$,Z%)=X%+Z%\n", line], wanted)? {
            return Ok(Some(place));
        }
    }
    Ok(None)
}

#[test]
fn each_argument_is_judged(rt: HostRuntime) -> Result<(), Fail> {
    expect_none(rt.alloc(), first_wrong_list(rt.alloc())?)
}
