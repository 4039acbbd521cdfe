//! What is read of files and of who holds their blocks: a number of blocks from one on, up to the
//! end of the file. It uses the disk and the interlock, and changes nothing.

ghost use Rattle.std.specs.Prelude.{◌≡◌, ◌+◌, ◌<◌, ◌≤◌, ◌^◌, true, Some, length, IfOk};
ghost use Rattle.monitor_model.specs.Files.{page_at, pages_of, is_block, size_at, the_file};
ghost use Rattle.monitor_model.specs.Holds.{is_held, any_held};
ghost use Rattle.monitor_model.specs.Answer.{is_record};
ghost use Rattle.monitor_model.specs.Good.{GoodHolds};
ghost use Rattle.monitor_core.specs.Records.{IsRecordRead};

use crate::parts::Parts;
use basic_values::limits::MOST_RECORD_BLOCKS;
use basic_values::{NoMemory, Series};
use monitor_calls::{FileName, Page};
use std::alloc::Global;

impl Parts {
    /// Returns whether the file has the block.
    pub(crate) fn is_block(&self, name: &FileName, block: u16) -> bool
        ensures { result ≡ is_block self.now.files name.now block }
    {
        self.disk.place(name, block).is_some()
    }

    /// Returns the size of a file in blocks.
    #[tactic(auto, using(crate::proofs::Records::size_found))]
    pub(crate) fn size_of(&self, name: &FileName) -> u16
        ensures size { result ≡ size_at self.now.files name.now }
        ensures small { result < 2 ^ 16 }
    {
        self.disk.size(name).unwrap_or(0)
    }

    /// Returns how many of this many blocks from this one on the file has.
    pub(crate) fn blocks_read(&self, name: &FileName, block: u16, count: u8) -> u8
        requires there { is_block self.now.files name.now block ≡ true }
        requires count { is_record count ≡ true }
        ensures { IsRecordRead (the_file self.now.files name.now) block count result }
    {
        let left = self.size_of(name) - (block - 1);
        if left < count as u16 {
            left as u8
        } else {
            count
        }
    }

    /// Returns whether another channel holds one of these blocks.
    pub(crate) fn any_held(
        &self,
        job: u32,
        channel: u8,
        name: &FileName,
        block: u16,
        count: u8,
    ) -> bool
        requires { GoodHolds self.now }
        ensures { result ≡ any_held self.now.holds job channel name.now block count }
    {
        for place in 0..count {
            if self.is_held_at(job, channel, name, block as u32 + place as u32) {
                return true;
            }
        }
        false
    }

    /// Returns whether another channel holds the block, whatever its number. Nobody holds one that
    /// the file does not have, and so none above 65,535.
    #[tactic(auto, using(crate::proofs::Records::none_beyond))]
    fn is_held_at(&self, job: u32, channel: u8, name: &FileName, block: u32) -> bool
        requires { GoodHolds self.now }
        ensures { result ≡ is_held self.now.holds job channel name.now block }
    {
        if block <= self.size_of(name) as u32 {
            self.is_held(job, channel, name, block as u16)
        } else {
            false
        }
    }

    /// Returns the pages of these blocks, which exist.
    pub(crate) fn pages_read(
        &self,
        alloc: Global,
        name: &FileName,
        block: u16,
        count: u8,
    ) -> Result<Series<Page>, NoMemory>
        requires first { 1 ≤ block }
        requires blocks { block + count ≤ 2 ^ 16 }
        requires there { length (pages_of (the_file self.now.files name.now) block count) ≡ count }
        ensures { IfOk result (λ pages.
            pages ≡ pages_of (the_file self.now.files name.now) block count) }
    {
        let mut pages = Vec::new(alloc);
        for place in 0..count {
            let page = self.page_read(alloc, name, block + place as u16)?;
            pages.push(page)?;
        }
        Ok(Series::from_vec(pages))
    }

    /// Returns the page of a block that exists.
    fn page_read(&self, alloc: Global, name: &FileName, block: u16) -> Result<Page, NoMemory>
        requires { is_block self.now.files name.now block ≡ true }
        ensures { IfOk result (λ page. page_at self.now.files name.now block ≡ Some page) }
    {
        let mut page = Page::new(alloc)?;
        if self.disk.read(name, block, &mut page).is_err() {
            unreachable!()
        }
        Ok(page)
    }
}

/// Returns whether a record may have this many blocks.
pub(crate) fn is_record(count: usize) -> bool
    ensures { result ≡ is_record count }
{
    1 <= count && count <= MOST_RECORD_BLOCKS as usize
}
