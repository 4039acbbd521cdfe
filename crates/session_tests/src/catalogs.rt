//! The catalog of an account.

use crate::scripts::{Said, ending, expect_asked, port_of};
use basic_values::limits::MOST_FILES;
use monitor_calls::{Account, ScriptPort};
use program_files::show_catalog;
use std::alloc::Global;
use std::test::Fail;
use terminal_line::Screen;

const OWNER: Account = Account {
    project: 100,
    programmer: 5,
};

/// The replies of a port, what the catalog shows, its requests, and how it ends.
type Row = (&'static [Said], &'static [u8], &'static str, u8);

/// Shows a catalog over a port after CAT, and returns how the call ended.
fn shown(alloc: Global, port: &mut ScriptPort, screen: &mut Screen) -> Result<u8, Fail> {
    screen.write(b"CAT\r\n")?;
    Ok(ending(&show_catalog(alloc, port, OWNER, screen)))
}

fn expect_shown(screen: &Screen, wanted: &[u8]) -> Result<(), Fail> {
    if screen.bytes() == wanted {
        Ok(())
    } else {
        Err(Fail::from("another catalog is shown"))
    }
}

/// Fails unless a catalog over a port shows these lines, makes these requests and ends in this way.
fn expect_over(
    alloc: Global,
    port: &mut ScriptPort,
    screen: &mut Screen,
    row: &Row,
) -> Result<(), Fail> {
    let ending = shown(alloc, port, screen)?;
    expect_shown(screen, row.1)?;
    expect_asked(alloc, port, row.2, ending, row.3)
}

fn expect(alloc: Global, row: &Row) -> Result<(), Fail> {
    let mut port = port_of(alloc, row.0)?;
    let mut screen = Screen::new(alloc);
    expect_over(alloc, &mut port, &mut screen, row)
}

static LINES: Row = (
    &[
        Said::File(b"DEMO", b"BAS", 60, Some(1)),
        Said::File(b"A", b"", 0, Some(16384)),
        Said::File(b"SECRET", b"B2", 63, None),
        Said::Failed(5),
    ],
    b"CAT\r\nDEMO  .BAS     1  <60>\r\nA     .    16384  <0>\r\nSECRET.B2      -  <63>\r\n",
    "directory 100,5 0\ndirectory 100,5 1\ndirectory 100,5 2\ndirectory 100,5 3\n",
    0,
);

#[test]
fn a_line_for_each_file(rt: HostRuntime) -> Result<(), Fail> {
    expect(rt.alloc(), &LINES)
}

static REFUSALS: [Row; 4] = [
    (&[Said::Failed(5)], b"CAT\r\n", "directory 100,5 0\n", 0),
    (&[Said::Failed(70)], b"CAT\r\n", "directory 100,5 0\n", 0),
    (&[Said::Failed(71)], b"CAT\r\n", "directory 100,5 0\n", 100),
    (&[Said::Done], b"CAT\r\n", "directory 100,5 0\n", 100),
];

#[test]
fn whatever_refuses_it_ends_it(rt: HostRuntime) -> Result<(), Fail> {
    for row in REFUSALS.iter() {
        expect(rt.alloc(), row)?;
    }
    Ok(())
}

static JOB_ENDS: Row = (
    &[Said::File(b"DEMO", b"BAS", 60, Some(1)), Said::Expired],
    b"CAT\r\nDEMO  .BAS     1  <60>\r\n",
    "directory 100,5 0\ndirectory 100,5 1\n",
    100,
);

#[test]
fn what_was_shown_stays_where_the_job_ends(rt: HostRuntime) -> Result<(), Fail> {
    expect(rt.alloc(), &JOB_ENDS)
}

/// Returns a port that reports one file more than a catalog has.
fn full_port(alloc: Global) -> Result<ScriptPort, Fail> {
    let mut script = Vec::new(alloc);
    for _ in 0..MOST_FILES + 1 {
        script.push(Said::File(b"A", b"BAS", 60, Some(1)))?;
    }
    port_of(alloc, script.as_slice())
}

/// Fails unless a catalog is asked for 512 files, and shows a line for each.
fn expect_full(alloc: Global, port: &mut ScriptPort, screen: &mut Screen) -> Result<(), Fail> {
    let ending = shown(alloc, port, screen)?;
    if ending == 0 && port.log().len() == 512 && screen.bytes().len() == 5 + 512 * 24 {
        Ok(())
    } else {
        Err(Fail::from("another end, or not 512 files and their lines"))
    }
}

/// Checks that 512 lines of 24 bytes follow CAT and its CR LF.
#[test]
fn no_index_above_511_is_asked(rt: HostRuntime) -> Result<(), Fail> {
    let mut port = full_port(rt.alloc())?;
    let mut screen = Screen::new(rt.alloc());
    expect_full(rt.alloc(), &mut port, &mut screen)
}
