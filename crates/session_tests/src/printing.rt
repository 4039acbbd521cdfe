//! The commands on the printer: their requests to the monitor, and what they show.

use crate::talks::{
    Answer, Expiring, ILLEGAL_COMMAND, READY, Talk, expect_all_expiring, expect_of_each,
    expect_of_files, expect_talks,
};
use crate::told::Told;
use std::alloc::Global;
use std::test::Fail;

const NO_PRINTER: &str = "?Device not available\nReady\n";

const NOT_OPEN: &str = "?I/O channel not open\nReady\n";

static ASSIGNED: [Talk; 1] = [(
    &[
        ("ASSIGN LP:", READY),
        ("deassign l p :", READY),
        ("assign lp:", NO_PRINTER),
        ("DEASSIGN LP:", NOT_OPEN),
        ("DEASSIGN LP:", "?Account or device in use\nReady\n"),
    ],
    &[
        Answer::Done,
        Answer::Done,
        Answer::Failed(8),
        Answer::Failed(9),
        Answer::Failed(3),
        Answer::Done,
    ],
    "Assign Done\nDeassign Done\nAssign Failed 8\nDeassign Failed 9\nDeassign Failed 3\n",
)];

#[test]
fn the_printer_is_kept_and_given_back(rt: HostRuntime) -> Result<(), Fail> {
    expect_talks(rt.alloc(), &ASSIGNED)
}

static PRINTED: [Talk; 1] = [(
    &[
        ("QUE DEMO.BAS", READY),
        ("que [100 , 6] a <42>", READY),
        ("QUE $A", READY),
    ],
    &[
        Answer::Opened(1),
        Answer::Done,
        Answer::Block("10 PRINT \"HI\"\n"),
        Answer::Done,
        Answer::Done,
        Answer::Done,
        Answer::Opened(2),
        Answer::Done,
        Answer::Block("A\n"),
        Answer::Done,
        Answer::Block(""),
        Answer::Done,
        Answer::Done,
        Answer::Done,
        Answer::Opened(0),
        Answer::Done,
        Answer::Done,
        Answer::Done,
        Answer::Done,
    ],
    "Input [100,5]DEMO.BAS Opened 1\nOpenPrinter Done\nGet 1 Block\n\
     Print 10 PRINT \"HI\"\r\n Done\nClosePrinter Done\nClose 0 Done\n\
     Input [100,6]A.LST<42> Opened 2\nOpenPrinter Done\nGet 1 Block\nPrint A\r\n Done\n\
     Get 2 Block\nPrint  Done\nClosePrinter Done\nClose 0 Done\n\
     Input [1,2]A.LST Opened 0\nOpenPrinter Done\nClosePrinter Done\nClose 0 Done\n",
)];

#[test]
fn a_file_is_printed_without_its_zeros(rt: HostRuntime) -> Result<(), Fail> {
    expect_talks(rt.alloc(), &PRINTED)
}

/// Returns the answers to a file of 16 blocks that is printed, and to the logout.
fn answers_of_16(alloc: Global) -> Result<Vec<Answer>, Fail> {
    let mut answers = Vec::new(alloc);
    answers.extend_from_slice(&[Answer::Opened(16), Answer::Done])?;
    for _ in 0..16 {
        answers.extend_from_slice(&[Answer::Block("LINE\n"), Answer::Done])?;
    }
    answers.extend_from_slice(&[Answer::Done, Answer::Done, Answer::Done])?;
    Ok(answers)
}

/// Returns the requests for such a file.
fn asked_of_16(alloc: Global) -> Told {
    let mut asked = Told::new(alloc);
    asked.put("Input [100,5]A.LST Opened 16\nOpenPrinter Done\n");
    for block in 1..=16u16 {
        asked.count("Get ", block);
        asked.put(" Block\nPrint LINE\r\n Done\n");
    }
    asked.put("ClosePrinter Done\nClose 0 Done\n");
    asked
}

/// Checks that 16 blocks are read and printed one by one.
#[test]
fn a_file_of_16_blocks(rt: HostRuntime) -> Result<(), Fail> {
    let answers = answers_of_16(rt.alloc())?;
    let asked = asked_of_16(rt.alloc());
    expect_of_files(
        rt.alloc(),
        &[("QUE A", READY)],
        answers.as_slice(),
        asked.text(),
    )
}

static REFUSED: [Talk; 1] = [(
    &[
        ("QUE A", "?Can't find file or account\nReady\n"),
        ("QUE [100,6]A", "?Protection violation\nReady\n"),
        ("QUE A", NO_PRINTER),
        ("QUE A", NO_PRINTER),
    ],
    &[
        Answer::Failed(5),
        Answer::Failed(10),
        Answer::Opened(1),
        Answer::Failed(8),
        Answer::Done,
        Answer::Opened(1),
        Answer::Failed(8),
        Answer::Failed(9),
        Answer::Done,
    ],
    "Input [100,5]A.LST Failed 5\nInput [100,6]A.LST Failed 10\n\
     Input [100,5]A.LST Opened 1\nOpenPrinter Failed 8\nClose 0 Done\n\
     Input [100,5]A.LST Opened 1\nOpenPrinter Failed 8\nClose 0 Failed 9\n",
)];

#[test]
fn what_was_not_opened_is_not_closed(rt: HostRuntime) -> Result<(), Fail> {
    expect_talks(rt.alloc(), &REFUSED)
}

static BROKEN: [Talk; 1] = [(
    &[
        ("QUE A", "?End of file on device\nReady\n"),
        ("QUE A", "?Illegal byte count for I/O\nReady\n"),
    ],
    &[
        Answer::Opened(2),
        Answer::Done,
        Answer::Failed(11),
        Answer::Failed(9),
        Answer::Failed(9),
        Answer::Opened(1),
        Answer::Done,
        Answer::Block("A\n"),
        Answer::Failed(31),
        Answer::Done,
        Answer::Done,
        Answer::Done,
    ],
    "Input [100,5]A.LST Opened 2\nOpenPrinter Done\nGet 1 Failed 11\n\
     ClosePrinter Failed 9\nClose 0 Failed 9\n\
     Input [100,5]A.LST Opened 1\nOpenPrinter Done\nGet 1 Block\nPrint A\r\n Failed 31\n\
     ClosePrinter Done\nClose 0 Done\n",
)];

#[test]
fn the_first_fault_is_shown_behind_both_closings(rt: HostRuntime) -> Result<(), Fail> {
    expect_talks(rt.alloc(), &BROKEN)
}

static UNCLOSED: [Talk; 1] = [(
    &[
        ("QUE A", NOT_OPEN),
        ("QUE A", "?Protection violation\nReady\n"),
    ],
    &[
        Answer::Opened(0),
        Answer::Done,
        Answer::Failed(9),
        Answer::Done,
        Answer::Opened(0),
        Answer::Done,
        Answer::Done,
        Answer::Failed(10),
        Answer::Done,
    ],
    "Input [100,5]A.LST Opened 0\nOpenPrinter Done\nClosePrinter Failed 9\nClose 0 Done\n\
     Input [100,5]A.LST Opened 0\nOpenPrinter Done\nClosePrinter Done\nClose 0 Failed 10\n",
)];

#[test]
fn a_refused_closing_is_asked_once(rt: HostRuntime) -> Result<(), Fail> {
    expect_talks(rt.alloc(), &UNCLOSED)
}

static WRONG_TAILS: [&str; 12] = [
    "ASSIGN",
    "ASSIGN LP",
    "ASSIGN LP:X",
    "ASSIGN KB:",
    "DEASSIGN",
    "DEASSIGN SY:",
    "QUE",
    "QUE  ",
    "QUE DK:A",
    "QUE LP:",
    "QUE TOOLONG",
    "QUE A<64>",
];

#[test]
fn other_tails_are_illegal_commands(rt: HostRuntime) -> Result<(), Fail> {
    expect_of_each(rt.alloc(), &WRONG_TAILS, ILLEGAL_COMMAND)
}

static EXPIRING: [Expiring; 4] = [
    (
        "ASSIGN LP:",
        &[Answer::Done, Answer::Opened(1)],
        "Assign Opened 1\n",
    ),
    (
        "QUE A",
        &[Answer::Done, Answer::Opened(1), Answer::Expired],
        "Input [100,5]A.LST Opened 1\nOpenPrinter Expired\n",
    ),
    (
        "QUE A",
        &[
            Answer::Done,
            Answer::Opened(1),
            Answer::Done,
            Answer::Expired,
        ],
        "Input [100,5]A.LST Opened 1\nOpenPrinter Done\nGet 1 Expired\n",
    ),
    (
        "QUE A",
        &[
            Answer::Done,
            Answer::Opened(0),
            Answer::Done,
            Answer::Expired,
        ],
        "Input [100,5]A.LST Opened 0\nOpenPrinter Done\nClosePrinter Expired\n",
    ),
];

#[test]
fn a_job_that_expires_at_the_printer(rt: HostRuntime) -> Result<(), Fail> {
    expect_all_expiring(rt.alloc(), &EXPIRING)
}
