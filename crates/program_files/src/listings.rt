//! Printing a file, block by block, as one print job; reserving the printer for several.

ghost use Rattle.std.specs.Prelude.{◌≡◌, IfOk};
ghost use Rattle.job_model.specs.Follow.{Follows, answered_by};
ghost use Rattle.job_model.specs.Play as play;
ghost use Rattle.program_files.specs.Listings.{assigns, deassigns, begins_listing, text_on, prints};
ghost use Rattle.program_files.specs.Listings.{prints_block, prints_from, prints_blocks};
ghost use Rattle.program_files.specs.Listings.{prints_file};

use crate::channels::{Opened, close_behind, get, open};
use basic_values::{NoMemory, Stop, Text};
use job_model::ask_done;
use monitor_calls::{FileName, OpenKind, Page, Port, Request};
use std::alloc::Global;

/// Reserves the printer for the job.
pub fn assign_printer<P: Port>(alloc: Global, port: &mut P) -> Result<(), Stop>
    ensures { (clock : play.Clock) → Follows P.who P.log port.old port.new clock clock
        assigns (answered_by result tt) }
{
    ask_done(alloc, port, Request::Assign, true)
}

/// Gives the printer back.
pub fn deassign_printer<P: Port>(alloc: Global, port: &mut P) -> Result<(), Stop>
    ensures { (clock : play.Clock) → Follows P.who P.log port.old port.new clock clock
        deassigns (answered_by result tt) }
{
    ask_done(alloc, port, Request::Deassign, true)
}

/// Prints an existing file. The code is that of its specification, and has no effect.
pub fn print_file<P: Port>(
    alloc: Global,
    port: &mut P,
    name: FileName,
    code: Option<u8>,
) -> Result<(), Stop>
    ensures { (clock : play.Clock) → Follows P.who P.log port.old port.new clock clock
        (prints_file name code) (answered_by result tt) }
{
    let blocks = open(alloc, port, name, OpenKind::Input, code)?;
    let printed = print_listing(alloc, port, blocks);
    close_behind(alloc, port, Opened::Channel, printed)
}

/// Prints this many blocks as one print job.
fn print_listing<P: Port>(alloc: Global, port: &mut P, blocks: u16) -> Result<(), Stop>
    ensures { (clock : play.Clock) → Follows P.who P.log port.old port.new clock clock
        (prints_blocks blocks) (answered_by result tt) }
{
    begin_listing(alloc, port)?;
    let printed = print_blocks(alloc, port, blocks);
    close_behind(alloc, port, Opened::Printer, printed)
}

/// Opens the printer.
fn begin_listing<P: Port>(alloc: Global, port: &mut P) -> Result<(), Stop>
    ensures { (clock : play.Clock) → Follows P.who P.log port.old port.new clock clock
        begins_listing (answered_by result tt) }
{
    ask_done(alloc, port, Request::OpenPrinter, true)
}

/// Prints this many blocks, from the first on. The first error ends it.
fn print_blocks<P: Port>(alloc: Global, port: &mut P, blocks: u16) -> Result<(), Stop>
    ensures { (clock : play.Clock) → Follows P.who P.log port.old port.new clock clock
        (prints_from 1 blocks) (answered_by result tt) }
{
    for index in 0..blocks {
        print_block(alloc, port, index + 1)?;
    }
    Ok(())
}

/// Reads a block and prints it.
fn print_block<P: Port>(alloc: Global, port: &mut P, block: u16) -> Result<(), Stop>
    ensures { (clock : play.Clock) → Follows P.who P.log port.old port.new clock clock
        (prints_block block) (answered_by result tt) }
{
    let page = get(alloc, port, block)?;
    print(alloc, port, &page)
}

/// Prints the bytes of a page.
fn print<P: Port>(alloc: Global, port: &mut P, page: &Page) -> Result<(), Stop>
    ensures { (clock : play.Clock) → Follows P.who P.log port.old port.new clock clock
        (prints page.now) (answered_by result tt) }
{
    let text = text_on(alloc, page)?;
    ask_done(alloc, port, Request::Print { text }, true)
}

/// Returns the bytes of a page without its zeros. A page is shorter than the longest string, so
/// only memory can run out.
fn text_on(alloc: Global, page: &Page) -> Result<Text, NoMemory>
    ensures { IfOk result (λ text. text ≡ text_on page.now) }
{
    let mut bytes = Vec::new(alloc);
    for byte in page.as_bytes() {
        if *byte != 0 {
            bytes.push(*byte)?;
        }
    }
    match Text::of(alloc, bytes.as_slice()) {
        Ok(text) => Ok(text),
        Err(_) => Err(NoMemory),
    }
}
