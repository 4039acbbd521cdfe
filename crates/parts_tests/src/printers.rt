//! The printer: who owns it, and what is printed.

ghost use Rattle.std.specs.Prelude.{◌≡◌};

use crate::expects::{expect_bytes, expect_none};
use basic_values::errors::{NO_DEVICE, NOT_OPEN};
use basic_values::{Fault, Text};
use monitor_calls::{Entry, Reply, Request, TerminalName};
use print_spool::{Printer, printed};
use std::alloc::Global;
use std::test::Fail;

/// What a job asks of the printer.
#[derive(Clone, Copy)]
enum Step {
    Assign,
    Deassign,
    Open,
    /// Bytes, this many.
    Print(u32),
    Close,
    End,
}

/// Returns the number of the error of a step; 0 if it is done.
fn refused(printer: &mut Printer, job: u32, step: Step) -> u8 {
    let answer = match step {
        Step::Assign => printer.assign(job),
        Step::Deassign => printer.deassign(job),
        Step::Open => printer.open(job),
        Step::Print(length) => printer.print(job, length),
        Step::Close => printer.close(job),
        Step::End => {
            printer.end(job);
            Ok(())
        }
    };
    match answer {
        Ok(()) => 0,
        Err(fault) => fault.number(),
    }
}

static ROWS: [(u32, Step, u8); 26] = [
    (0, Step::Deassign, 9),
    (0, Step::Print(1), 9),
    (0, Step::Close, 9),
    (0, Step::Assign, 0),
    (0, Step::Assign, 0),
    (1, Step::Assign, 8),
    (1, Step::Open, 8),
    (1, Step::Deassign, 9),
    (1, Step::End, 0),
    (1, Step::Open, 8),
    (0, Step::Deassign, 0),
    (1, Step::Open, 0),
    (1, Step::Open, 3),
    (1, Step::Print(512), 0),
    (1, Step::Print(513), 31),
    (0, Step::Open, 8),
    (0, Step::Print(1), 9),
    (1, Step::Deassign, 3),
    (1, Step::Assign, 0),
    (1, Step::Close, 0),
    (0, Step::Assign, 8),
    (1, Step::Open, 0),
    (1, Step::End, 0),
    (0, Step::Open, 0),
    (0, Step::Close, 0),
    (1, Step::Assign, 0),
];

fn first_wrong(printer: &mut Printer) -> Option<usize> {
    for (place, (job, step, number)) in ROWS.iter().enumerate() {
        if refused(printer, *job, *step) != *number {
            return Some(place);
        }
    }
    None
}

#[test]
fn the_printer_is_one_job_s(rt: HostRuntime) -> Result<(), Fail> {
    expect_none(rt.alloc(), first_wrong(&mut Printer::new()))
}

fn print(alloc: Global, text: &[u8]) -> Result<Request, Fail> {
    let text = Text::of(alloc, text).ok().ok_or("no text")?;
    Ok(Request::Print { text })
}

fn print_two(alloc: Global, first: &[u8], second: &[u8]) -> Result<(Request, Request), Fail> {
    let first = print(alloc, first)?;
    let second = print(alloc, second)?;
    Ok((first, second))
}

/// Returns what is printed: two lines of one print job with one that is lost between, and a part of
/// another.
fn prints(alloc: Global) -> Result<[Request; 4], Fail> {
    let (begun, lost) = print_two(alloc, b"10 PRINT\r\n", b"LOST")?;
    let (ended, cut) = print_two(alloc, b"20 END\r\n", b"A")?;
    Ok([begun, lost, ended, cut])
}

fn terminal(name: &[u8]) -> Result<TerminalName, Fail> {
    Ok(TerminalName::of(name).ok_or("no name")?)
}

/// Returns an entry of the first job or of the second.
fn entry(job: u32, request: Request, reply: Reply) -> Entry
    ensures { result.job ≡ job }
{
    Entry {
        job,
        request,
        reply,
    }
}

/// Returns the print jobs of two jobs, each of which has the printer in turn.
fn listings(alloc: Global) -> Result<Vec<u8>, Fail> {
    let names = [terminal(b"T1")?, terminal(b"CONSOLE")?];
    let [begun, lost, ended, cut] = prints(alloc)?;
    let refused = || Reply::Failed(Fault::new(NO_DEVICE));
    let history = [
        entry(1, Request::OpenPrinter, Reply::Done),
        entry(0, Request::OpenPrinter, refused()),
        entry(1, begun, Reply::Done),
        entry(0, lost, Reply::Failed(Fault::new(NOT_OPEN))),
        entry(1, ended, Reply::Done),
        entry(1, Request::ClosePrinter, Reply::Done),
        entry(0, Request::OpenPrinter, Reply::Done),
        entry(0, Request::Logout, Reply::Done),
        entry(1, Request::OpenPrinter, Reply::Done),
        entry(1, cut, Reply::Done),
        entry(1, Request::Tick, Reply::Expired),
    ];
    Ok(printed(alloc, &names, &history)?)
}

#[test]
fn listings_stand_in_the_order_of_their_beginning(rt: HostRuntime) -> Result<(), Fail> {
    let wanted = b"PRINTED 3\nLISTING CONSOLE 18\n10 PRINT\r\n20 END\r\n\n\
         LISTING T1 0\n\nLISTING CONSOLE 1\nA\n";
    let bytes = listings(rt.alloc())?;
    expect_bytes(rt.alloc(), &bytes, wanted)
}

#[test]
fn a_history_without_a_listing_prints_none(rt: HostRuntime) -> Result<(), Fail> {
    let bytes = printed(rt.alloc(), &[], &[])?;
    expect_bytes(rt.alloc(), &bytes, b"PRINTED 0\n")
}
