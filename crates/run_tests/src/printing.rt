//! The line printer at the terminals of a deck, and what of it comes after the report.

use crate::calls::{FIRST_SUM, Good, SUM_REPORT, expect_all};
use crate::pacing::{Hold, expect_ordered};
use crate::screens::{LOGIN, NO_FILE, PROTECTED, READY, Row, System, deck_and_report};
use std::alloc::Global;
use std::sync::Wait;
use std::test::Fail;
use std::thread::Threads;
use std::time::Clock;

const NO_PRINTER: &str = "?Device not available\nReady\n";

/// The report of the first sum, the text of its history, and no print job.
const SUM_WITH_ALL: &[u8] =
    b"TERMINAL T1 60\nHELLO 100,5;DEMO\r\nReady\r\nPRINT 2%+3%\r\n 5 \r\nReady\r\nBYE\r\nBye\r\n\n\
HISTORY 2\n0 LOGIN 100,5 44454d4f = DONE\n0 LOGOUT = DONE\nPRINTED 0\n";

static WITHOUT_LISTINGS: [Good; 4] = [
    (&["run"], FIRST_SUM, SUM_REPORT),
    (&["run", "--printer", "--history"], FIRST_SUM, SUM_WITH_ALL),
    (&["--history", "run", "--printer"], FIRST_SUM, SUM_WITH_ALL),
    (
        &["run", "--printer"],
        b"RSTS-DECK 1\nDISK 8\nTERMINAL T1\nEND\n",
        b"TERMINAL T1 0\n\nPRINTED 0\n",
    ),
];

#[test]
fn no_listing_is_told_behind_the_history(rt: HostRuntime) -> Result<(), Fail> {
    expect_all(&rt, rt.alloc(), &WITHOUT_LISTINGS)
}

/// Terminals, the calls of which some are held, and what is written after their report.
struct Printing {
    system: System<'static>,
    holds: &'static [Hold],
    printed: &'static [u8],
}

/// Runs the deck with its calls held so, and fails unless this is written.
fn expect_printing<R: Threads + Wait + Clock + Sync>(
    rt: &R,
    alloc: Global,
    row: &Printing,
) -> Result<(), Fail> {
    let (deck, mut report) = deck_and_report(alloc, 0, &row.system)?;
    report.extend_from_slice(row.printed)?;
    let jobs = row.system.1.len().min(63) as u32;
    expect_ordered(
        rt,
        alloc,
        &["run", "--printer"],
        &deck,
        jobs,
        row.holds,
        &report,
    )
}

const FILES: &str = "RSTS-DECK 1\nDISK 32\nACCOUNT 100,5 DEMO 100\nACCOUNT 100,6 DEMO 100\n\
FILE [100,5]EMPTY.LST<60> 0\nFILE [100,5]LONG.LST<60> 16\n>LINE\n\
FILE [100,6]SECRET.LST<60> 1\n";

const PRINTED_FILES: &[Row<'static>] = &[
    LOGIN,
    ("NEW DEMO", READY),
    ("10 PRINT \"HI\"", ""),
    ("SAVE", READY),
    ("QUE DEMO.BAS", READY),
    ("QUE EMPTY", READY),
    ("QUE LONG", READY),
    ("QUE NONE", NO_FILE),
    ("QUE [100,6]SECRET", PROTECTED),
    ("QUE", "?Illegal command\nReady\n"),
];

static OF_ONE_TERMINAL: Printing = Printing {
    system: (FILES, &[PRINTED_FILES]),
    holds: &[],
    printed: b"PRINTED 3\nLISTING T0 15\n10 PRINT \"HI\"\r\n\n\
     LISTING T0 0\n\nLISTING T0 6\nLINE\r\n\n",
};

#[test]
fn a_program_and_files_are_printed(rt: HostRuntime) -> Result<(), Fail> {
    expect_printing(&rt, rt.alloc(), &OF_ONE_TERMINAL)
}

const TWO_FILES: &str = "RSTS-DECK 1\nDISK 8\nACCOUNT 100,5 DEMO 100\n\
FILE [100,5]ONE.LST<60> 1\n>ONE\nFILE [100,5]TWO.LST<60> 1\n>TWO\n";

const FIRST_QUEUES: &[Row<'static>] = &[LOGIN, ("QUE ONE", READY)];

const SECOND_QUEUES_TWICE: &[Row<'static>] = &[LOGIN, ("QUE TWO", NO_PRINTER), ("QUE TWO", READY)];

/// The second asks for the printer while the first prints, and once more after it.
static IN_TURN: Printing = Printing {
    system: (TWO_FILES, &[FIRST_QUEUES, SECOND_QUEUES_TWICE]),
    holds: &[
        Hold {
            job: 1,
            call: 3,
            other: 0,
            answered: 3,
        },
        Hold {
            job: 0,
            call: 4,
            other: 1,
            answered: 4,
        },
        Hold {
            job: 1,
            call: 5,
            other: 0,
            answered: 7,
        },
    ],
    printed: b"PRINTED 2\nLISTING T0 5\nONE\r\n\nLISTING T1 5\nTWO\r\n\n",
};

#[test]
fn one_terminal_prints_at_a_time(rt: HostRuntime) -> Result<(), Fail> {
    expect_printing(&rt, rt.alloc(), &IN_TURN)
}

const SECOND_QUEUES: &[Row<'static>] = &[LOGIN, ("QUE TWO", READY)];

/// The first terminal begins when the second has printed.
static SECOND_FIRST: Printing = Printing {
    system: (TWO_FILES, &[FIRST_QUEUES, SECOND_QUEUES]),
    holds: &[Hold {
        job: 0,
        call: 2,
        other: 1,
        answered: 7,
    }],
    printed: b"PRINTED 2\nLISTING T1 5\nTWO\r\n\nLISTING T0 5\nONE\r\n\n",
};

#[test]
fn listings_stand_in_the_order_in_which_they_begin(rt: HostRuntime) -> Result<(), Fail> {
    expect_printing(&rt, rt.alloc(), &SECOND_FIRST)
}

const FIRST_ASSIGNS: &[Row<'static>] = &[
    LOGIN,
    ("ASSIGN LP:", READY),
    ("QUE ONE", READY),
    ("DEASSIGN LP:", READY),
];

const SECOND_IS_REFUSED: &[Row<'static>] = &[
    LOGIN,
    ("QUE TWO", NO_PRINTER),
    ("ASSIGN LP:", NO_PRINTER),
];

/// The second asks for the printer while the first has it assigned, and prints nothing.
static ASSIGNED: Printing = Printing {
    system: (TWO_FILES, &[FIRST_ASSIGNS, SECOND_IS_REFUSED]),
    holds: &[
        Hold {
            job: 1,
            call: 3,
            other: 0,
            answered: 2,
        },
        Hold {
            job: 0,
            call: 3,
            other: 1,
            answered: 5,
        },
    ],
    printed: b"PRINTED 1\nLISTING T0 5\nONE\r\n\n",
};

#[test]
fn an_assigned_printer_is_not_available(rt: HostRuntime) -> Result<(), Fail> {
    expect_printing(&rt, rt.alloc(), &ASSIGNED)
}
