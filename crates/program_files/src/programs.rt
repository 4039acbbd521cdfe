//! Reads and writes the pages of a file, in order.

ghost use Rattle.std.specs.Prelude.{◌≡◌};
ghost use Rattle.job_model.specs.Follow.{Follows, answered_by};
ghost use Rattle.job_model.specs.Play as play;
ghost use Rattle.program_files.specs.Programs.{gets_from, puts_from, reads_pages, writes_pages};

use crate::channels::{Opened, close_behind, get, open, put};
use basic_values::{Series, Stop};
use monitor_calls::{FileName, OpenKind, Page, Port};
use std::alloc::Global;

/// Returns the pages of an existing file. The code is that of its specification, and has no effect.
pub fn read_pages<P: Port>(
    alloc: Global,
    port: &mut P,
    name: FileName,
    code: Option<u8>,
) -> Result<Series<Page>, Stop>
    ensures { (clock : play.Clock) → Follows P.who P.log port.old port.new clock clock
        (reads_pages name code) (answered_by result tt) }
{
    let blocks = open(alloc, port, name, OpenKind::Input, code)?;
    let pages = get_pages(alloc, port, blocks);
    close_behind(alloc, port, Opened::Channel, pages)
}

/// Writes the pages of a new file.
pub fn write_pages<P: Port>(
    alloc: Global,
    port: &mut P,
    name: FileName,
    kind: OpenKind,
    code: Option<u8>,
    pages: Vec<Page>,
) -> Result<(), Stop>
    ensures { (clock : play.Clock) → Follows P.who P.log port.old port.new clock clock
        (writes_pages name kind code pages.items) (answered_by result tt) }
{
    open(alloc, port, name, kind, code)?;
    let written = put_pages(alloc, port, pages);
    close_behind(alloc, port, Opened::Channel, written)
}

/// Reads this many blocks, from the first on. The first error ends it.
fn get_pages<P: Port>(alloc: Global, port: &mut P, blocks: u16) -> Result<Series<Page>, Stop>
    ensures { (clock : play.Clock) → Follows P.who P.log port.old port.new clock clock
        (gets_from 1 blocks) (answered_by result tt) }
{
    let mut pages = Vec::new(alloc);
    for index in 0..blocks {
        let page = get(alloc, port, index + 1)?;
        if pages.push(page).is_err() {
            return Err(Stop::NoMemory);
        }
    }
    Ok(Series::from_vec(pages))
}

/// Writes the pages, from the first block on. The first error ends it.
fn put_pages<P: Port>(alloc: Global, port: &mut P, pages: Vec<Page>) -> Result<(), Stop>
    ensures { (clock : play.Clock) → Follows P.who P.log port.old port.new clock clock
        (puts_from 1 pages.items) (answered_by result tt) }
{
    let mut block = 1;
    for page in pages {
        put(alloc, port, block, page)?;
        block += 1;
    }
    Ok(())
}
