//! How many instructions code has, at which its lines begin, and how many FORs there are.

use crate::expects::{expect, expect_none};
use crate::read::program_of;
use basic_values::Trouble;
use line_editor::ProgramText;
use lowering::{loops_in_program, lower};
use polish_code::{Code, Item};
use program_model::LowerRefusal;
use std::alloc::Global;
use std::test::Fail;

/// The lines of a program, numbered 10 and 20; how many instructions it has, at which line 20
/// begins, how many DATA items it has, and how many FORs.
type Row = (&'static str, (usize, usize, usize, usize));

static ROWS: [Row; 14] = [
    ("!\nEND", (3, 0, 0, 0)),
    ("GOTO 20\nEND", (5, 2, 0, 0)),
    ("DATA 1,A\nDATA B", (2, 1, 3, 0)),
    ("A%=1%\nEND", (7, 4, 0, 0)),
    ("PRINT 1%\nEND", (7, 4, 0, 0)),
    ("FOR I%=1% TO 2%\nNEXT I%", (7, 5, 0, 1)),
    ("A%=1% FOR I%=1% TO 2% IF A%=1%\nEND", (18, 15, 0, 1)),
    ("DEF FNA%(X%)=X%\nPRINT FNA%(1%)", (11, 6, 0, 0)),
    ("OPEN 'A' AS FILE 1%\nCLOSE 1%,2%", (12, 7, 0, 0)),
    ("PRINT #1%,A%;1%\nPRINT USING '##',A%", (16, 10, 0, 0)),
    ("INPUT #1%,A%\nINPUT LINE #1%,A$", (14, 7, 0, 0)),
    ("FIELD #1%,2% AS A$,3% AS B$\nEND", (8, 5, 0, 0)),
    ("LSET A$=B$\nRSET A$='B'", (5, 2, 0, 0)),
    ("DIM #1%,A%(3%)\nA%(1%)=A%(2%)", (7, 1, 0, 0)),
];

type Answer = Result<Code, Trouble<LowerRefusal>>;

/// Returns whether there is code of this many instructions, whose line 20 begins there, with this
/// many DATA items.
fn has_counts(answer: &Answer, items: usize, second: usize, words: usize) -> bool {
    match answer {
        Ok(code) => {
            code.items().len() == items
                && code.place_of(20) == second
                && code.words().len() == words
                && has_ends(code)
        }
        Err(_) => false,
    }
}

/// Returns whether line 10 begins at the first instruction, and a line after the last one at the
/// end.
fn has_ends(code: &Code) -> bool {
    code.place_of(10) == 0 && code.place_of(30) == code.items().len()
}

fn is_coded(alloc: Global, row: &Row) -> Result<bool, Fail> {
    let (lines, (items, second, words, loops)) = row;
    let text = program_of(alloc, lines)?;
    let answer = lower(alloc, text.program());
    Ok(has_counts(&answer, *items, *second, *words) && has_loops(alloc, &text, *loops))
}

fn has_loops(alloc: Global, text: &ProgramText, loops: usize) -> bool {
    match loops_in_program(alloc, text.program()) {
        Ok(found) => found == loops,
        Err(_) => false,
    }
}

fn first_wrong(alloc: Global) -> Result<Option<usize>, Fail> {
    for (place, row) in ROWS.iter().enumerate() {
        if !is_coded(alloc, row)? {
            return Ok(Some(place));
        }
    }
    Ok(None)
}

#[test]
fn code_has_its_items(rt: HostRuntime) -> Result<(), Fail> {
    expect_none(rt.alloc(), first_wrong(rt.alloc())?)
}

/// Returns whether the arrays from which elements are loaded begin at these bytes of their files.
fn has_starts(code: &Code, starts: &[u64]) -> bool {
    let mut wanted = starts.iter();
    for item in code.items() {
        if let Item::LoadFileElement { array, .. } = item {
            if wanted.next() != Some(&array.start) {
                return false;
            }
        }
    }
    wanted.next().is_none()
}

/// Does the same for the code of a program of these lines.
fn are_loaded(alloc: Global, lines: &str, starts: &[u64]) -> Result<bool, Fail> {
    let text = program_of(alloc, lines)?;
    match lower(alloc, text.program()) {
        Ok(code) => Ok(has_starts(&code, starts)),
        Err(_) => Err(Fail::from("there is no code")),
    }
}

const OF_FILES: &str = "DIM #1%,A%(3%),B$(2%)=8%,C%(1%),D$(0%)\n\
    PRINT A%(0%);B$(0%);C%(0%);D$(0%);E%(0%)";

#[test]
fn elements_are_in_the_files_of_dim(rt: HostRuntime) -> Result<(), Fail> {
    let is_so = are_loaded(rt.alloc(), OF_FILES, &[0, 8, 32, 48])?;
    expect(is_so, "the starts of the arrays")
}
