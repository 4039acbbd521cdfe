//! What a reply says: that the request was done, what was opened or read, or why not.

ghost use Rattle.std.specs.Prelude.{◌≡◌, ◌≤◌, ◌+◌, ℕ, Bool, true, length, Option, Some, IfOk, OnOk};
ghost use Rattle.std.specs.Prelude.{if◌then◌else◌};
ghost use Rattle.basic_values.specs.declared.failures.Stop.TheVariants as stop;
ghost use Rattle.monitor_calls.specs.declared.files.FileName.{FileName as TheName};
ghost use Rattle.monitor_calls.specs.declared.files.OpenKind.{OpenKind as Kind};
ghost use Rattle.monitor_calls.specs.declared.calls.Request.TheVariants as request;
ghost use Rattle.job_model.specs.Asking.{counts_as, can_be_block, can_be_blocks, can_be_record};
ghost use Rattle.job_model.specs.Asking.{is_error};
ghost use Rattle.job_model.specs.Follow.{answered_by};
ghost use Rattle.job_model.specs.Replies.{done_by, opened_by, block_by, pages_by, taken_as};

use basic_values::limits::MOST_BLOCKS;
use basic_values::{Fault, Series, Stop};
use monitor_calls::{Page, Reply};

/// The last number of an error. The first is 1.
pub const LAST_ERROR: u8 = 70;

/// Returns what a reply that may be Done leads to.
pub fn done_by(reply: &Reply, can_be_done: bool) -> Result<(), Stop>
    ensures answer { answered_by result tt ≡ Some (done_by (taken_as can_be_done reply.now)) }
    ensures could { OnOk result (can_be_done ≡ true) }
{
    match reply {
        Reply::Done if can_be_done => Ok(()),
        Reply::Failed(fault) => Err(refused_by(*fault)),
        _ => Err(Stop::Expired),
    }
}

/// Returns how many blocks the file has, by a reply to its opening.
pub fn opened_by(reply: &Reply) -> Result<u16, Stop>
    ensures { (channel : ℕ) (name : TheName) (kind : Kind) (update : Bool) (code : Option ℕ)
        → answered_by result tt ≡ Some (opened_by
        (counts_as (request.OpenFile channel name kind update code) reply.now)) }
{
    match reply {
        Reply::Opened { blocks, .. } => Ok(*blocks),
        Reply::Failed(fault) => Err(refused_by(*fault)),
        _ => Err(Stop::Expired),
    }
}

/// Returns the block, by a reply to its reading.
pub fn block_by(reply: Reply, block: u16) -> Result<Page, Stop>
    ensures answer { (channel : ℕ) → answered_by result tt
        ≡ Some (block_by (counts_as (request.Get channel block) reply)) }
    ensures could { OnOk result (can_be_block block ≡ true) }
{
    match reply {
        Reply::Block(page) => {
            if can_be_block(block) {
                Ok(page)
            } else {
                Err(Stop::Expired)
            }
        }
        Reply::Failed(fault) => Err(refused_by(fault)),
        _ => Err(Stop::Expired),
    }
}

/// Returns the blocks of a record of at most `count`, by a reply to its reading.
pub fn pages_by(reply: Reply, block: u16, count: u8) -> Result<Series<Page>, Stop>
    ensures answer { (channel : ℕ) → answered_by result tt
        ≡ Some (pages_by (counts_as (request.GetRecord channel block count) reply)) }
    ensures could { IfOk result (λ pages. can_be_record block count (length pages) ≡ true) }
{
    match reply {
        Reply::Record(pages) => {
            if can_be_record(block, count, pages.as_slice()) {
                Ok(pages)
            } else {
                Err(Stop::Expired)
            }
        }
        Reply::Failed(fault) => Err(refused_by(fault)),
        _ => Err(Stop::Expired),
    }
}

/// Returns what a refusal leads to. A number that no error has ends the job.
fn refused_by(fault: Fault) -> Stop
    ensures { result ≡ if is_error fault then stop.Fault fault else stop.Expired }
{
    if is_error(fault) {
        Stop::Fault(fault)
    } else {
        Stop::Expired
    }
}

/// Returns whether a refusal can have this number: errors are numbered from 1 to 70.
pub fn is_error(fault: Fault) -> bool
    ensures { result ≡ is_error fault }
{
    (1..=LAST_ERROR).contains(&fault.number())
}

/// Returns whether a disk can have the block.
pub fn can_be_block(block: u16) -> bool
    ensures { result ≡ can_be_block block }
{
    (1..=MOST_BLOCKS).contains(&block)
}

/// Returns whether a disk can have `count` blocks from this one on.
pub fn can_be_blocks(block: u16, count: usize) -> bool
    ensures { result ≡ can_be_blocks block count }
{
    let last = MOST_BLOCKS as usize;
    1 <= block && count <= last && block as usize + count <= last + 1
}

/// Returns whether these can be the pages of a record that was read from this block on.
fn can_be_record(block: u16, most: u8, pages: &[Page]) -> bool
    ensures { result ≡ can_be_record block most (length pages.now) }
{
    (1..=most as usize).contains(&pages.len()) && can_be_blocks(block, pages.len())
}
