//! The requests for a channel, and the results of their replies.

ghost use Rattle.std.specs.Prelude.{◌≡◌, ◌+◌, ◌≤◌, length, drop, IfOk, OnOk};
ghost use Rattle.basic_values.specs.declared.limits.TheConstants.{BLOCK_BYTES, MOST_BLOCKS};
ghost use Rattle.basic_values.specs.declared.limits.TheConstants.{MOST_RECORD_BLOCKS};
ghost use Rattle.monitor_calls.specs.declared.calls.Request.TheVariants as request;
ghost use Rattle.job_model.specs.Act.{Gives, ◌then◌};
ghost use Rattle.job_model.specs.Follow.{Follows, answered_by};
ghost use Rattle.job_model.specs.Play as play;
ghost use Rattle.job_model.specs.Replies.{asks_for, opened_by};
ghost use Rattle.record_fields.specs.Sizes.{blocks_of};
ghost use Rattle.channels.specs.Files.{Files, asks};
ghost use Rattle.channels.specs.Transfers.{asks_close, asks_unlock, joined, asks_block, asks_pages};
ghost use Rattle.channels.specs.Transfers.{fetches, page_from, pages_from, stores_block};
ghost use Rattle.channels.specs.Transfers.{stores_pages, stores};

use basic_values::limits::BLOCK_BYTES;
use basic_values::{NoMemory, Series, Stop};
use job_model::{ask_done, can_be_block, can_be_blocks};
use monitor_calls::{FileName, OpenKind, Page, Port, Request};
use record_fields::{RecordSize, fill};
use std::alloc::Global;

/// Opens a file. The reply has its number of blocks, which is not used.
pub(crate) fn ask_open<P: Port>(
    alloc: Global,
    port: &mut P,
    channel: u8,
    name: FileName,
    kind: OpenKind,
    update: bool,
    code: Option<u8>,
) -> Result<u16, Stop>
    ensures { (clock : play.Clock) (files : Files) → Follows P.who P.log port.old port.new
        clock clock
        (asks (asks_for opened_by (request.OpenFile channel name kind update code)) files)
        (answered_by result files) }
{
    job_model::ask_open(alloc, port, channel, name, kind, update, code)
}

/// Closes a file.
pub(crate) fn ask_close<P: Port>(alloc: Global, port: &mut P, channel: u8) -> Result<(), Stop>
    ensures { (clock : play.Clock) (files : Files) → Follows P.who P.log port.old port.new
        clock clock (asks_close channel files) (answered_by result files) }
{
    ask_done(alloc, port, Request::CloseFile { channel }, true)
}

/// Releases what the channel has locked.
pub(crate) fn ask_unlock<P: Port>(alloc: Global, port: &mut P, channel: u8) -> Result<(), Stop>
    ensures { (clock : play.Clock) (files : Files) → Follows P.who P.log port.old port.new
        clock clock (asks_unlock channel files) (answered_by result files) }
{
    ask_done(alloc, port, Request::Unlock { channel }, true)
}

/// Reads a block.
pub(crate) fn ask_block<P: Port>(
    alloc: Global,
    port: &mut P,
    channel: u8,
    block: u16,
) -> Result<Page, Stop>
    ensures follows { (clock : play.Clock) (files : Files) → Follows P.who P.log port.old port.new
        clock clock (asks_block channel block files) (answered_by result files) }
    ensures block { OnOk result (block ≤ MOST_BLOCKS) }
{
    job_model::ask_block(alloc, port, channel, block)
}

/// Reads this many blocks, or as many as there are.
fn ask_pages<P: Port>(
    alloc: Global,
    port: &mut P,
    channel: u8,
    block: u16,
    size: RecordSize,
) -> Result<Series<Page>, Stop>
    ensures follows { (clock : play.Clock) (files : Files) → Follows P.who P.log port.old port.new
        clock clock (asks_pages channel block size files) (answered_by result files) }
    ensures few { IfOk result (λ pages. length pages ≤ MOST_RECORD_BLOCKS) }
    ensures blocks { IfOk result (λ pages. block + length pages ≤ MOST_BLOCKS + 1) }
{
    job_model::ask_record(alloc, port, channel, block, size.blocks())
}

/// Reads a record from this block on, as far as the file goes, and returns how many blocks there
/// were, and their bytes.
pub(crate) fn fetch<P: Port>(
    alloc: Global,
    port: &mut P,
    channel: u8,
    block: u16,
    size: RecordSize,
) -> Result<(u16, Series<u8>), Stop>
    ensures follows { (clock : play.Clock) (files : Files) → Follows P.who P.log port.old port.new
        clock clock (fetches channel block size files) (answered_by result files) }
    ensures few { IfOk result (λ reading. reading.0 ≤ MOST_RECORD_BLOCKS) }
    ensures blocks { IfOk result (λ reading. block + reading.0 ≤ MOST_BLOCKS + 1) }
{
    if size.is_single() {
        fetch_block(alloc, port, channel, block)
    } else {
        fetch_pages(alloc, port, channel, block, size)
    }
}

/// Reads a block, as a record of one.
fn fetch_block<P: Port>(
    alloc: Global,
    port: &mut P,
    channel: u8,
    block: u16,
) -> Result<(u16, Series<u8>), Stop>
    ensures follows { (clock : play.Clock) (files : Files) → Follows P.who P.log port.old port.new
        clock clock (asks_block channel block files then λ page. Gives (1, page))
        (answered_by result files) }
    ensures few { IfOk result (λ reading. reading.0 ≤ MOST_RECORD_BLOCKS) }
    ensures blocks { IfOk result (λ reading. block + reading.0 ≤ MOST_BLOCKS + 1) }
{
    let page = ask_block(alloc, port, channel, block)?;
    Ok((1, page.into_bytes()))
}

/// Reads a record of several blocks.
fn fetch_pages<P: Port>(
    alloc: Global,
    port: &mut P,
    channel: u8,
    block: u16,
    size: RecordSize,
) -> Result<(u16, Series<u8>), Stop>
    ensures follows { (clock : play.Clock) (files : Files) → Follows P.who P.log port.old port.new
        clock clock
        (asks_pages channel block size files then λ pages. Gives (length pages, joined pages))
        (answered_by result files) }
    ensures few { IfOk result (λ reading. reading.0 ≤ MOST_RECORD_BLOCKS) }
    ensures blocks { IfOk result (λ reading. block + reading.0 ≤ MOST_BLOCKS + 1) }
{
    let pages = ask_pages(alloc, port, channel, block, size)?;
    let bytes = joined(alloc, pages.as_slice())?;
    Ok((pages.as_slice().len() as u16, bytes))
}

/// Returns the bytes of pages, one page after another.
fn joined(alloc: Global, pages: &[Page]) -> Result<Series<u8>, NoMemory>
    ensures { IfOk result (λ bytes. bytes ≡ joined pages.now) }
{
    let mut bytes = Vec::new(alloc);
    for page in pages {
        bytes.extend_from_slice(page.as_bytes())?;
    }
    Ok(Series::from_vec(bytes))
}

/// Writes these bytes as a record from this block on, with zeros after them.
pub(crate) fn store<P: Port>(
    alloc: Global,
    port: &mut P,
    channel: u8,
    block: u16,
    size: RecordSize,
    bytes: &[u8],
) -> Result<(), Stop>
    ensures follows { (clock : play.Clock) (files : Files) → Follows P.who P.log port.old port.new
        clock clock (stores channel block size bytes.now files) (answered_by result files) }
    ensures blocks { OnOk result (block + blocks_of size ≤ MOST_BLOCKS + 1) }
{
    if size.is_single() {
        store_block(alloc, port, channel, block, bytes)
    } else {
        store_pages(alloc, port, channel, block, size, bytes)
    }
}

/// Writes these bytes as a block, with zeros after them.
pub(crate) fn store_block<P: Port>(
    alloc: Global,
    port: &mut P,
    channel: u8,
    block: u16,
    bytes: &[u8],
) -> Result<(), Stop>
    ensures follows { (clock : play.Clock) (files : Files) → Follows P.who P.log port.old port.new
        clock clock (stores_block channel block bytes.now files) (answered_by result files) }
    ensures block { OnOk result (block ≤ MOST_BLOCKS) }
{
    let page = page_from(alloc, bytes)?;
    let request = Request::Put {
        channel,
        block,
        page,
    };
    ask_done(alloc, port, request, can_be_block(block))
}

/// Writes these bytes as a record of several blocks.
fn store_pages<P: Port>(
    alloc: Global,
    port: &mut P,
    channel: u8,
    block: u16,
    size: RecordSize,
    bytes: &[u8],
) -> Result<(), Stop>
    ensures follows { (clock : play.Clock) (files : Files) → Follows P.who P.log port.old port.new
        clock clock (stores_pages channel block size bytes.now files) (answered_by result files) }
    ensures blocks { OnOk result (block + blocks_of size ≤ MOST_BLOCKS + 1) }
{
    let count = size.blocks();
    let pages = pages_from(alloc, bytes, count)?;
    let request = Request::PutRecord {
        channel,
        block,
        pages,
    };
    ask_done(alloc, port, request, can_be_blocks(block, count as usize))
}

/// Returns this many pages of these bytes, one after another.
fn pages_from(alloc: Global, bytes: &[u8], count: u8) -> Result<Series<Page>, NoMemory>
    ensures { IfOk result (λ pages. pages ≡ pages_from count bytes.now) }
{
    let mut pages = Vec::new(alloc);
    let mut rest = bytes;
    for made in 0..count {
        pages.push(page_from(alloc, rest)?)?;
        rest = behind_page(rest);
    }
    Ok(Series::from_vec(pages))
}

/// Returns the first bytes as a page, with zeros after them.
fn page_from(alloc: Global, bytes: &[u8]) -> Result<Page, NoMemory>
    ensures { IfOk result (λ page. page ≡ page_from bytes.now) }
{
    let mut page = Page::new(alloc)?;
    if bytes.len() < BLOCK_BYTES {
        fill_short(&mut page, bytes);
    } else {
        page.fill(&bytes[..BLOCK_BYTES]);
    }
    Ok(page)
}

/// Fills a page with these bytes, and zeros after them.
fn fill_short(page: &mut Page, bytes: &[u8])
    ensures { page.new ≡ page_from bytes.now }
{
    let mut first = [0u8; BLOCK_BYTES];
    fill(&mut first, bytes);
    page.fill(&first);
}

/// Returns the bytes after those of the first page.
fn behind_page(bytes: &[u8]) -> &[u8]
    ensures { result.now ≡ drop BLOCK_BYTES bytes.entry.now }
{
    if bytes.len() < BLOCK_BYTES {
        &[]
    } else {
        &bytes[BLOCK_BYTES..]
    }
}
