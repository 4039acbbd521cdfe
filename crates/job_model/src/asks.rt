//! Calls that make one request each over a port, and return what its reply leads to.

ghost use Rattle.std.specs.Prelude.{◌≡◌, true, length, IfOk, OnOk};
ghost use Rattle.monitor_calls.specs.declared.calls.Request.TheVariants as request;
ghost use Rattle.job_model.specs.Asking.{can_be_block, can_be_record};
ghost use Rattle.job_model.specs.Follow.{Follows, answered_by};
ghost use Rattle.job_model.specs.Play as play;
ghost use Rattle.job_model.specs.Replies.{asks_for, done_by, opened_by, block_by, pages_by};
ghost use Rattle.job_model.specs.Replies.{IsDoneOnly};

use crate::replies::{block_by, done_by, opened_by, pages_by};
use basic_values::{Series, Stop};
use monitor_calls::{FileName, OpenKind, Page, Port, Request};
use std::alloc::Global;

/// Makes a request to which only Done or a refusal is a reply. If it returns Ok, `can_be_done` is
/// true.
pub fn ask_done<P: Port>(
    alloc: Global,
    port: &mut P,
    request: Request,
    can_be_done: bool,
) -> Result<(), Stop>
    requires { IsDoneOnly can_be_done request }
    ensures follows { (clock : play.Clock) → Follows P.who P.log port.old port.new clock clock
        (asks_for done_by request) (answered_by result tt) }
    ensures could { OnOk result (can_be_done ≡ true) }
{
    let reply = port.ask(alloc, request)?;
    done_by(&reply, can_be_done)
}

/// Opens a file, and returns how many blocks it has.
pub fn ask_open<P: Port>(
    alloc: Global,
    port: &mut P,
    channel: u8,
    name: FileName,
    kind: OpenKind,
    update: bool,
    code: Option<u8>,
) -> Result<u16, Stop>
    ensures { (clock : play.Clock) → Follows P.who P.log port.old port.new clock clock
        (asks_for opened_by (request.OpenFile channel name kind update code))
        (answered_by result tt) }
{
    let request = Request::OpenFile {
        channel,
        name,
        kind,
        update,
        code,
    };
    let reply = port.ask(alloc, request)?;
    opened_by(&reply)
}

/// Reads a block.
pub fn ask_block<P: Port>(
    alloc: Global,
    port: &mut P,
    channel: u8,
    block: u16,
) -> Result<Page, Stop>
    ensures follows { (clock : play.Clock) → Follows P.who P.log port.old port.new clock clock
        (asks_for block_by (request.Get channel block)) (answered_by result tt) }
    ensures could { OnOk result (can_be_block block ≡ true) }
{
    let reply = port.ask(alloc, Request::Get { channel, block })?;
    block_by(reply, block)
}

/// Reads a record of at most `count` blocks, and returns the blocks that there are.
pub fn ask_record<P: Port>(
    alloc: Global,
    port: &mut P,
    channel: u8,
    block: u16,
    count: u8,
) -> Result<Series<Page>, Stop>
    ensures follows { (clock : play.Clock) → Follows P.who P.log port.old port.new clock clock
        (asks_for pages_by (request.GetRecord channel block count)) (answered_by result tt) }
    ensures could { IfOk result (λ pages. can_be_record block count (length pages) ≡ true) }
{
    let request = Request::GetRecord {
        channel,
        block,
        count,
    };
    let reply = port.ask(alloc, request)?;
    pages_by(reply, block, count)
}
