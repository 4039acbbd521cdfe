//! What the words after the program's name ask for.

use crate::expects::expect_row;
use program_words::{Asked, Wanted, asked_by};
use std::alloc::Global;
use std::test::Fail;

/// A run, and nothing but its report.
const PLAIN: Asked = Asked::Run(Wanted {
    history: false,
    printer: false,
});

const WITH_HISTORY: Asked = Asked::Run(Wanted {
    history: true,
    printer: false,
});

const WITH_PRINTER: Asked = Asked::Run(Wanted {
    history: false,
    printer: true,
});

const WITH_BOTH: Asked = Asked::Run(Wanted {
    history: true,
    printer: true,
});

/// Words, and what they ask for.
type Row = (&'static [&'static str], Asked);

static ROWS: [Row; 60] = [
    (&["run"], PLAIN),
    (&["run", "--history"], WITH_HISTORY),
    (&["--history", "run"], WITH_HISTORY),
    (&["--", "run"], PLAIN),
    (&["run", "--"], PLAIN),
    (&["--history", "--", "run"], WITH_HISTORY),
    (&["run", "--printer"], WITH_PRINTER),
    (&["--printer", "run"], WITH_PRINTER),
    (&["--printer", "--", "run"], WITH_PRINTER),
    (&["run", "--history", "--printer"], WITH_BOTH),
    (&["run", "--printer", "--history"], WITH_BOTH),
    (&["--printer", "run", "--history"], WITH_BOTH),
    (&["--history", "run", "--printer"], WITH_BOTH),
    (&["--printer", "--history", "run", "--"], WITH_BOTH),
    (&["check"], Asked::Check),
    (&["--", "check"], Asked::Check),
    (&["drill", "1"], Asked::Drill(1)),
    (&["drill", "16"], Asked::Drill(16)),
    (&["drill", "--", "4"], Asked::Drill(4)),
    (&["replay"], Asked::Replay),
    (&["--", "replay"], Asked::Replay),
    (&["drill"], Asked::Nothing),
    (&["drill", "0"], Asked::Nothing),
    (&["drill", "17"], Asked::Nothing),
    (&["drill", "04"], Asked::Nothing),
    (&["drill", "+4"], Asked::Nothing),
    (&["drill", "4", "--history"], Asked::Nothing),
    (&["drill", "4", "4"], Asked::Nothing),
    (&[], Asked::Nothing),
    (&[""], Asked::Nothing),
    (&["--"], Asked::Nothing),
    (&["-"], Asked::Nothing),
    (&["RUN"], Asked::Nothing),
    (&["runs"], Asked::Nothing),
    (&["check "], Asked::Nothing),
    (&["run", "run"], Asked::Nothing),
    (&["run", "3"], Asked::Nothing),
    (&["run", "check", "run"], Asked::Nothing),
    (&["check", "--history"], Asked::Nothing),
    (&["--history"], Asked::Nothing),
    (&["run", "--history", "--history"], Asked::Nothing),
    (&["run", "--", "--history"], Asked::Nothing),
    (&["check", "--printer"], Asked::Nothing),
    (&["drill", "4", "--printer"], Asked::Nothing),
    (&["--printer"], Asked::Nothing),
    (&["run", "--printer", "--printer"], Asked::Nothing),
    (
        &["run", "--history", "--printer", "--history"],
        Asked::Nothing,
    ),
    (&["run", "--", "--printer"], Asked::Nothing),
    (&["run", "--printer=1"], Asked::Nothing),
    (&["run", "--print"], Asked::Nothing),
    (&["run", "--history=1"], Asked::Nothing),
    (&["run", "--hist"], Asked::Nothing),
    (&["run", "-h"], Asked::Nothing),
    (&["run", "--help"], Asked::Nothing),
    (&["REPLAY"], Asked::Nothing),
    (&["replay", "3"], Asked::Nothing),
    (&["replay", "replay"], Asked::Nothing),
    (&["replay", "--history"], Asked::Nothing),
    (&["--printer", "replay"], Asked::Nothing),
    (&["replay", "--", "--history"], Asked::Nothing),
];

fn rows() -> &'static [Row] {
    &ROWS
}

/// Appends the words, as the program has them.
fn push_words(words: &mut Vec<String>, alloc: Global, row: &[&str]) -> Result<(), Fail> {
    for word in row {
        words.push(String::from_str(alloc, word)?)?;
    }
    Ok(())
}

/// Returns whether the words ask for this.
fn is_asked(alloc: Global, row: &Row) -> Result<bool, Fail> {
    let mut words = Vec::new(alloc);
    push_words(&mut words, alloc, row.0)?;
    Ok(asked_by(alloc, &words)? == row.1)
}

fn expect_asked(alloc: Global, rows: &[Row]) -> Result<(), Fail> {
    for place in 0..rows.len() {
        expect_row("the words", place, is_asked(alloc, &rows[place])?)?;
    }
    Ok(())
}

#[test]
fn words_ask_for_what_one_flat_command_takes(rt: HostRuntime) -> Result<(), Fail> {
    expect_asked(rt.alloc(), rows())
}
