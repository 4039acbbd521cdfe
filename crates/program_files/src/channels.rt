//! Single requests on the command level's channel, with what their replies lead to; and how the
//! channel and the printer are closed after their use.

ghost use Rattle.std.specs.Prelude.{◌≡◌, true, Err, OnOk};
ghost use Rattle.job_model.specs.Asking.{can_be_block};
ghost use Rattle.job_model.specs.Follow.{Follows, answered_by};
ghost use Rattle.job_model.specs.Play as play;
ghost use Rattle.program_files.specs.Channels.{FileAct, opens, closes, gets, puts, kills};
ghost use Rattle.program_files.specs.Channels.{closed_behind};
ghost use Rattle.program_files.specs.Taken.{first_stop};

use basic_values::{Fault, Stop};
use job_model::{ask_block, ask_done, ask_open, can_be_block};
use monitor_calls::{FileName, OpenKind, Page, Port, Request};
use std::alloc::Global;

/// The channel of the command level.
pub const CHANNEL: u8 = 0;

/// What was opened and has to be closed.
#[derive(Clone, Copy)]
pub(crate) enum Opened {
    /// The channel of the command level.
    Channel,
    /// The printer, for a print job.
    Printer,
}

/// Opens a file, and returns its number of blocks. The code is for a new file.
pub(crate) fn open<P: Port>(
    alloc: Global,
    port: &mut P,
    name: FileName,
    kind: OpenKind,
    code: Option<u8>,
) -> Result<u16, Stop>
    ensures { (clock : play.Clock) → Follows P.who P.log port.old port.new clock clock
        (opens name kind code) (answered_by result tt) }
{
    ask_open(alloc, port, CHANNEL, name, kind, false, code)
}

/// Closes what was opened.
fn close<P: Port>(alloc: Global, port: &mut P, opened: Opened) -> Result<(), Stop>
    ensures { (clock : play.Clock) → Follows P.who P.log port.old port.new clock clock
        (closes opened) (answered_by result tt) }
{
    match opened {
        Opened::Channel => ask_done(alloc, port, Request::CloseFile { channel: CHANNEL }, true),
        Opened::Printer => ask_done(alloc, port, Request::ClosePrinter, true),
    }
}

/// Reads a block.
pub(crate) fn get<P: Port>(alloc: Global, port: &mut P, block: u16) -> Result<Page, Stop>
    ensures { (clock : play.Clock) → Follows P.who P.log port.old port.new clock clock
        (gets block) (answered_by result tt) }
{
    ask_block(alloc, port, CHANNEL, block)
}

/// Writes a block.
pub(crate) fn put<P: Port>(alloc: Global, port: &mut P, block: u16, page: Page) -> Result<(), Stop>
    ensures follows { (clock : play.Clock) → Follows P.who P.log port.old port.new clock clock
        (puts block page) (answered_by result tt) }
    ensures could { OnOk result (can_be_block block ≡ true) }
{
    let request = Request::Put {
        channel: CHANNEL,
        block,
        page,
    };
    ask_done(alloc, port, request, can_be_block(block))
}

/// Deletes a file.
pub fn kill_file<P: Port>(alloc: Global, port: &mut P, name: FileName) -> Result<(), Stop>
    ensures { (clock : play.Clock) → Follows P.who P.log port.old port.new clock clock
        (kills name) (answered_by result tt) }
{
    ask_done(alloc, port, Request::Kill { name }, true)
}

/// Closes what was opened, after its use and also after an error. The first error is returned.
pub(crate) fn close_behind<P: Port, T: Drop>(
    alloc: Global,
    port: &mut P,
    opened: Opened,
    outcome: Result<T, Stop>,
) -> Result<T, Stop>
    // For every tree with this outcome, this is the outcome of that tree with the closing after it.
    ensures { (start : P) (clock : play.Clock) (act : FileAct T)
        → Follows P.who P.log start port.old clock clock act (answered_by outcome tt)
        → Follows P.who P.log start port.new clock clock (closed_behind opened act)
        (answered_by result tt) }
{
    match outcome {
        Ok(value) => {
            close(alloc, port, opened)?;
            Ok(value)
        }
        Err(stop) => close_after(alloc, port, opened, stop),
    }
}

/// Closes what was opened, after an error. If the job has ended, there is nothing to close.
fn close_after<P: Port, T: Drop>(
    alloc: Global,
    port: &mut P,
    opened: Opened,
    stop: Stop,
) -> Result<T, Stop>
    ensures { (start : P) (clock : play.Clock) (act : FileAct T)
        → Follows P.who P.log start port.old clock clock act (answered_by (Err stop) tt)
        → Follows P.who P.log start port.new clock clock (closed_behind opened act)
        (answered_by result tt) }
{
    match stop {
        Stop::Fault(fault) => match close(alloc, port, opened) {
            Ok(()) => Err(stop),
            Err(closing) => Err(first_told(fault, closing)),
        },
        _ => Err(stop),
    }
}

/// Returns the first error, whatever error follows it.
fn first_told(first: Fault, stop: Stop) -> Stop
    ensures { result ≡ first_stop first stop }
{
    match stop {
        Stop::Fault(_) => Stop::Fault(first),
        other => other,
    }
}
