//! The memory for a copy of a reply.

ghost use Rattle.std.specs.Prelude.{◌≡◌, true, Some, IsSome, IfOk};
ghost use Rattle.monitor_calls.specs.Rooms.{HasRoom, has_page, pages_in, text_in};

use crate::calls::Reply;
use crate::pages::Page;
use basic_values::{NoMemory, Series, Text};
use std::alloc::Global;

/// What a copy of a reply is made of. It is taken before the monitor is asked, so that a call that
/// has its reply needs no more memory.
#[derive(Drop)]
pub enum ReplyRoom {
    /// Enough for a reply without a page or a string.
    Small,
    /// A page for a block, whatever its bytes.
    Page(Page),
    /// The very pages of a record.
    Pages(Series<Page>),
    /// The very string of a message.
    Text(Text),
}

impl ReplyRoom {
    /// Takes and returns the room for a copy of this very reply.
    pub fn of(alloc: Global, reply: &Reply) -> Result<ReplyRoom, NoMemory>
        ensures { IfOk result (λ room. HasRoom reply.now room) }
    {
        match reply {
            Reply::Block(_) => Ok(ReplyRoom::Page(Page::new(alloc)?)),
            Reply::Record(pages) => Ok(ReplyRoom::Pages(copies_of(alloc, pages.as_slice())?)),
            Reply::Message { text, .. } => Ok(ReplyRoom::Text(copy_of(alloc, text)?)),
            Reply::Done
            | Reply::Opened { .. }
            | Reply::Name { .. }
            | Reply::State { .. }
            | Reply::Failed(_)
            | Reply::Expired => Ok(ReplyRoom::Small),
        }
    }

    /// Returns its page, filled with the bytes of this one.
    pub(crate) fn page_like(self, page: &Page) -> Page
        requires { has_page self ≡ true }
        ensures { result ≡ page.now }
    {
        match self {
            ReplyRoom::Page(mut copy) => {
                copy.copy_from(page);
                copy
            }
            ReplyRoom::Small | ReplyRoom::Text(_) | ReplyRoom::Pages(_) => unreachable!(),
        }
    }

    /// Returns its string.
    pub(crate) fn text(self) -> Text
        requires { IsSome (text_in self) }
        ensures { text_in self ≡ Some result }
    {
        match self {
            ReplyRoom::Text(text) => text,
            ReplyRoom::Small | ReplyRoom::Page(_) | ReplyRoom::Pages(_) => unreachable!(),
        }
    }

    /// Returns its pages.
    pub(crate) fn pages(self) -> Series<Page>
        requires { IsSome (pages_in self) }
        ensures { pages_in self ≡ Some result }
    {
        match self {
            ReplyRoom::Pages(pages) => pages,
            ReplyRoom::Small | ReplyRoom::Page(_) | ReplyRoom::Text(_) => unreachable!(),
        }
    }
}

/// Returns a copy of a string.
pub fn copy_of(alloc: Global, text: &Text) -> Result<Text, NoMemory>
    ensures { IfOk result (λ copy. copy ≡ text.now) }
{
    match Text::of(alloc, text.as_bytes()) {
        Ok(copy) => Ok(copy),
        Err(_) => Err(NoMemory),
    }
}

/// Copies of the pages, in their order.
fn copies_of(alloc: Global, pages: &[Page]) -> Result<Series<Page>, NoMemory>
    ensures { IfOk result (λ copy. copy ≡ pages.now) }
{
    let mut copies = Vec::new(alloc);
    for page in pages {
        copies.push(copy_of_page(alloc, page)?)?;
    }
    Ok(Series::from_vec(copies))
}

fn copy_of_page(alloc: Global, page: &Page) -> Result<Page, NoMemory>
    ensures { IfOk result (λ copy. copy ≡ page.now) }
{
    let mut copy = Page::new(alloc)?;
    copy.copy_from(page);
    Ok(copy)
}
