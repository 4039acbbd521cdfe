//! The pages of a disk, its free places, and its files in the order of making.

ghost use Rattle.std.specs.Prelude.{ℕ, ◌≡◌, ◌+◌, ◌-◌, ◌<◌, ◌≤◌, ◌^◌, true, false, not, ◌&&◌};
ghost use Rattle.std.specs.Prelude.{nat_le, [], length, map, replicate, is_some, option_map};
ghost use Rattle.std.specs.Prelude.{vec_capacity, IfOk, IsOk, OnOk, OnErr};
ghost use Rattle.basic_values.specs.declared.limits.TheConstants.{MOST_FILES};
ghost use Rattle.monitor_calls.specs.FileNames.{same_name};
ghost use Rattle.monitor_calls.specs.Pages.{zeros};
ghost use Rattle.monitor_model.specs.Refusals.{RefusedBy, RefusedByOrNoMemory};
ghost use Rattle.monitor_model.specs.Files.{size, file_at, nth_of, page_at, is_block, size_at};
ghost use Rattle.monitor_model.specs.Files.{blocks_of, remove, make, remake, rename, empty_file};
ghost use Rattle.monitor_model.specs.Files.{is_file, put};
ghost use Rattle.monitor_model.specs.State.{volume_file};
ghost use Rattle.block_files.specs.Calls.{create_refusals, there_refusals, rename_refusals};
ghost use Rattle.block_files.specs.Calls.{read_refusals, write_refusals};
ghost use Rattle.block_files.specs.Disks.{times, IsLaidOut, place_of};
ghost use Rattle.block_files.specs.Rows.{cleared, first_places, grow_file, set_page};

use crate::bodies::{
    Directory, FileBody, add_places, body_of, make_room, place_in, put_last, take_out,
};
use crate::unmounting::unmounted;
use basic_values::errors::{END_OF_FILE, ILLEGAL_BYTE_COUNT, NAME_EXISTS, NO_ROOM, NO_SUCH_FILE};
use basic_values::limits::MOST_FILES;
use basic_values::{Fault, NoMemory, Trouble};
use indexmap::IndexMap;
use monitor_calls::{Account, FileEntry, FileName, Page};
use std::alloc::Global;
use std::marker::Model;

/// A page for each block of a disk, the free places, and the files in the order of making.
#[derive(Drop)]
pub(crate) struct Store {
    alloc: Global,
    pages: Vec<Page>,
    free: Vec<u16>,
    files: Directory,
}

impl Model for Store {
    ghost use Rattle.block_files.specs.Disks.{Disk as DiskValue};

    ghost Value = { DiskValue };

    ghost use Rattle.std.specs.Prelude.{vec_capacity};
    ghost use Rattle.block_files.specs.Rows.{disk_of, IsKept};

    ghost view = { λ d. disk_of d.pages.items d.free.items d.files.entries };

    ghost invariant = { λ d.
        IsKept d.pages.items d.free.items (vec_capacity d.free) d.files.entries };
}

impl Store {
    /// Returns a disk of this many blocks, with no file. It takes all of its pages.
    pub(crate) fn new(alloc: Global, blocks: u16) -> Result<Store, NoMemory>
        ensures blocks { IfOk result (λ d. d.blocks ≡ blocks) }
        ensures files { IfOk result (λ d. d.files ≡ []) }
    {
        let pages = zero_pages(alloc, blocks)?;
        let free = all_places(alloc, blocks)?;
        Ok(Store {
            alloc,
            pages,
            free,
            files: IndexMap::new(alloc),
        })
    }

    /// Returns the size of a file in blocks. None if the file does not exist.
    pub(crate) fn size(&self, name: &FileName) -> Option<u16>
        ensures { result ≡ option_map size (file_at self.now.files name.now) }
    {
        match body_of(&self.files, name) {
            Some(body) => Some(body.places.len() as u16),
            None => None,
        }
    }

    /// Returns the code of a file. None if the file does not exist.
    pub(crate) fn code(&self, name: &FileName) -> Option<u8>
        ensures { result ≡ option_map (λ file. file.code) (file_at self.now.files name.now) }
    {
        match body_of(&self.files, name) {
            Some(body) => Some(body.code),
            None => None,
        }
    }

    /// Returns the name of the file at an index among those of an owner, in the order of making.
    pub(crate) fn nth(&self, owner: Account, index: u16) -> Option<FileName>
        ensures { result ≡ option_map (λ file. file.name) (nth_of self.now.files owner index) }
    {
        let mut left = index;
        for place in 0..self.files.len() {
            if let Some((name, _)) = self.files.get_index(place) {
                if name.owner == owner {
                    if left == 0 {
                        return Some(*name);
                    }
                    left -= 1;
                }
            }
        }
        None
    }

    /// Returns the place of a block among the disk's pages.
    pub(crate) fn place(&self, name: &FileName, block: u16) -> Option<u16>
        ensures value { result ≡ place_of self.now name.now block }
        ensures some { is_some result ≡ is_block self.now.files name.now block }
        ensures laid_out { IsLaidOut self.now }
    {
        match body_of(&self.files, name) {
            Some(body) => place_in(body.places.as_slice(), block),
            None => None,
        }
    }

    /// Returns how many blocks the disk has.
    pub(crate) fn blocks(&self) -> u16
        ensures { result ≡ self.now.blocks }
    {
        self.pages.len() as u16
    }

    /// Moves the files out, in the order of making, with their pages.
    pub(crate) fn into_files(self) -> Result<Vec<FileEntry>, NoMemory>
        ensures { IfOk result (λ files. files.items ≡ map volume_file self.files) }
    {
        let Store {
            alloc,
            pages,
            free: _,
            files,
        } = self;
        unmounted(alloc, pages, &files)
    }

    /// Copies a block of a file into the page.
    pub(crate) fn read(&self, name: &FileName, block: u16, page: &mut Page) -> Result<(), Fault>
        ensures refused { RefusedBy (read_refusals self.now.files name.now block) result }
        ensures ok { OnOk result (page_at self.now.files name.now block ≡ Some page.new) }
        ensures err { OnErr result (page.new ≡ page.old) }
    {
        if !self.is_file(name) {
            return Err(Fault::new(NO_SUCH_FILE));
        }
        if !self.is_block(name, block) {
            return Err(Fault::new(END_OF_FILE));
        }
        self.copy_block(name, block, page);
        Ok(())
    }

    /// Makes an empty file, the last one.
    pub(crate) fn create(&mut self, name: FileName, code: u8) -> Result<(), Trouble<Fault>>
        ensures refused { RefusedByOrNoMemory (create_refusals self.old.files name) result }
        ensures ok { OnOk result (self.new.files ≡ make self.old.files (empty_file name code)) }
        ensures err { OnErr result (self.new ≡ self.old) }
        ensures blocks { self.new.blocks ≡ self.old.blocks }
    {
        if self.is_file(&name) {
            return refused(NAME_EXISTS);
        }
        if self.is_full() {
            return refused(NO_ROOM);
        }
        self.add(name, code)?;
        Ok(())
    }

    /// Deletes a file, and its places are free. It takes no memory.
    pub(crate) fn remove(&mut self, name: &FileName) -> Result<(), Fault>
        ensures refused { RefusedBy (there_refusals self.old.files name.now) result }
        ensures ok { OnOk result (self.new.files ≡ remove self.old.files name.now) }
        ensures err { OnErr result (self.new ≡ self.old) }
        ensures blocks { self.new.blocks ≡ self.old.blocks }
    {
        if !self.is_file(name) {
            return Err(Fault::new(NO_SUCH_FILE));
        }
        self.take(name);
        Ok(())
    }

    /// Makes a file anew: empty, with this code, the last one.
    pub(crate) fn remake(&mut self, name: &FileName, code: u8) -> Result<(), Trouble<Fault>>
        ensures refused { RefusedByOrNoMemory (there_refusals self.old.files name.now) result }
        ensures ok { OnOk result (self.new.files ≡ remake self.old.files name.now code) }
        ensures err { OnErr result (self.new ≡ self.old) }
        ensures blocks { self.new.blocks ≡ self.old.blocks }
    {
        if !self.is_file(name) {
            return refused(NO_SUCH_FILE);
        }
        self.make_anew(name, code)?;
        Ok(())
    }

    /// Gives a file another name and a code. It becomes the last one, even if the name stays.
    pub(crate) fn rename(
        &mut self,
        old: &FileName,
        new: FileName,
        code: u8,
    ) -> Result<(), Trouble<Fault>>
        ensures refused { RefusedByOrNoMemory (rename_refusals self.old.files old.now new) result }
        ensures ok { OnOk result (self.new.files ≡ rename self.old.files old.now new code) }
        ensures err { OnErr result (self.new ≡ self.old) }
        ensures blocks { self.new.blocks ≡ self.old.blocks }
    {
        if !self.is_file(old) {
            return refused(NO_SUCH_FILE);
        }
        if self.is_file(&new) && !new.is_same(old) {
            return refused(NAME_EXISTS);
        }
        self.move_last(old, new, code)?;
        Ok(())
    }

    /// Writes a block of a file. Past its end the file grows; blocks that are skipped are zeros.
    pub(crate) fn write(
        &mut self,
        name: &FileName,
        block: u16,
        page: &Page,
    ) -> Result<(), Trouble<Fault>>
        ensures refused { RefusedByOrNoMemory (write_refusals self.old name.now block) result }
        ensures ok { OnOk result (self.new.files ≡ put self.old.files name.now block page.now) }
        ensures err { OnErr result (self.new ≡ self.old) }
        ensures blocks { self.new.blocks ≡ self.old.blocks }
        ensures within { is_block self.old.files name.now block ≡ true → IsOk result }
    {
        if !self.is_file(name) {
            return refused(NO_SUCH_FILE);
        }
        if block == 0 {
            return refused(ILLEGAL_BYTE_COUNT);
        }
        let more = self.missing(name, block);
        if self.free_blocks() < more {
            return refused(NO_ROOM);
        }
        self.grow(name, more)?;
        self.put(name, block, page);
        Ok(())
    }

    fn is_file(&self, name: &FileName) -> bool
        ensures { result ≡ is_file self.now.files name.now }
    {
        body_of(&self.files, name).is_some()
    }

    fn is_full(&self) -> bool
        ensures { result ≡ nat_le MOST_FILES (length self.now.files) }
    {
        self.files.len() >= MOST_FILES
    }

    fn is_block(&self, name: &FileName, block: u16) -> bool
        ensures { result ≡ is_block self.now.files name.now block }
    {
        match body_of(&self.files, name) {
            Some(body) => place_in(body.places.as_slice(), block).is_some(),
            None => false,
        }
    }

    /// Returns how many blocks a file has, and 0 if the file does not exist.
    pub(crate) fn size_at(&self, name: &FileName) -> u16
        ensures { result ≡ size_at self.now.files name.now }
    {
        match body_of(&self.files, name) {
            Some(body) => body.places.len() as u16,
            None => 0,
        }
    }

    /// States that the files have no more blocks than the disk, whose number has 16 bits.
    pub(crate) fn fits(&self)
        ensures blocks { blocks_of self.now.files ≤ self.now.blocks }
        ensures small { self.now.blocks < 2 ^ 16 }
    {
        let _blocks = self.pages.len();
    }

    /// Returns how many blocks are needed for this block of the file.
    pub(crate) fn missing(&self, name: &FileName, block: u16) -> usize
        ensures { result ≡ block - size_at self.now.files name.now }
    {
        match body_of(&self.files, name) {
            Some(body) => (block as usize).saturating_sub(body.places.len()),
            None => block as usize,
        }
    }

    fn free_blocks(&self) -> usize
        ensures free { result ≡ length self.now.free }
        ensures blocks { result ≡ self.now.blocks - blocks_of self.now.files }
    {
        self.free.len()
    }

    fn copy_block(&self, name: &FileName, block: u16, page: &mut Page)
        requires { is_block self.now.files name.now block ≡ true }
        ensures { page_at self.now.files name.now block ≡ Some page.new }
    {
        if let Some(body) = body_of(&self.files, name) {
            if let Some(place) = place_in(body.places.as_slice(), block) {
                page.copy_from(&self.pages[place as usize]);
            }
        }
    }

    fn add(&mut self, name: FileName, code: u8) -> Result<(), NoMemory>
        requires { is_file self.old.files name ≡ false }
        ensures ok { OnOk result (self.new.files ≡ make self.old.files (empty_file name code)) }
        ensures err { OnErr result (self.new ≡ self.old) }
        ensures blocks { self.new.blocks ≡ self.old.blocks }
    {
        make_room(&mut self.files)?;
        let places = Vec::new(self.alloc);
        put_last(&mut self.files, name, FileBody { code, places });
        Ok(())
    }

    fn take(&mut self, name: &FileName)
        ensures files { self.new.files ≡ remove self.old.files name.now }
        ensures blocks { self.new.blocks ≡ self.old.blocks }
    {
        if let Some(body) = take_out(&mut self.files, name) {
            let _ = self.free.extend_from_slice(body.places.as_slice());
        }
    }

    fn make_anew(&mut self, name: &FileName, code: u8) -> Result<(), NoMemory>
        requires { is_file self.old.files name.now ≡ true }
        ensures ok { OnOk result (self.new.files ≡ remake self.old.files name.now code) }
        ensures err { OnErr result (self.new ≡ self.old) }
        ensures blocks { self.new.blocks ≡ self.old.blocks }
    {
        make_room(&mut self.files)?;
        if let Some(mut body) = take_out(&mut self.files, name) {
            let _ = self.free.extend_from_slice(body.places.as_slice());
            body.places.clear();
            body.code = code;
            put_last(&mut self.files, *name, body);
        }
        Ok(())
    }

    fn move_last(&mut self, old: &FileName, new: FileName, code: u8) -> Result<(), NoMemory>
        requires there { is_file self.old.files old.now ≡ true }
        requires fresh { (is_file self.old.files new && not (same_name new old.now)) ≡ false }
        ensures ok { OnOk result (self.new.files ≡ rename self.old.files old.now new code) }
        ensures err { OnErr result (self.new ≡ self.old) }
        ensures blocks { self.new.blocks ≡ self.old.blocks }
    {
        make_room(&mut self.files)?;
        if let Some(mut body) = take_out(&mut self.files, old) {
            body.code = code;
            put_last(&mut self.files, new, body);
        }
        Ok(())
    }

    /// Gives a file this many blocks of zeros more. With none it takes no memory.
    fn grow(&mut self, name: &FileName, more: usize) -> Result<(), NoMemory>
        requires there { is_file self.old.files name.now ≡ true }
        requires enough { more ≤ length self.old.free }
        ensures ok { OnOk result (self.new.files ≡ grow_file self.old.files name.now more) }
        ensures err { OnErr result (self.new ≡ self.old) }
        ensures blocks { self.new.blocks ≡ self.old.blocks }
        ensures none { more ≡ 0 → IsOk result }
    {
        let from = self.free.len() - more;
        let taken = &self.free[from..];
        add_places(&mut self.files, name, taken)?;
        clear_pages(self.pages.as_mut_slice(), taken);
        self.free.truncate(from);
        Ok(())
    }

    /// Writes a block that the file has.
    fn put(&mut self, name: &FileName, block: u16, page: &Page)
        requires { is_block self.old.files name.now block ≡ true }
        ensures files { self.new.files ≡ set_page self.old.files name.now block page.now }
        ensures blocks { self.new.blocks ≡ self.old.blocks }
    {
        if let Some(body) = body_of(&self.files, name) {
            if let Some(place) = place_in(body.places.as_slice(), block) {
                self.pages[place as usize].copy_from(page);
            }
        }
    }
}

/// Makes the pages at these places zeros.
fn clear_pages(pages: &mut [Page], places: &[u16])
    requires { (p : ℕ) → 1 ≤ times p places.now → p < length pages.old }
    ensures { pages.new ≡ cleared pages.old places.now }
{
    for place in places {
        pages[*place as usize].clear();
    }
}

/// Returns this many pages of zeros.
fn zero_pages(alloc: Global, blocks: u16) -> Result<Vec<Page>, NoMemory>
    ensures { IfOk result (λ pages. pages.items ≡ replicate blocks zeros) }
{
    let mut pages = Vec::with_capacity(alloc, blocks as usize)?;
    for _ in 0..blocks {
        pages.push(Page::new(alloc)?)?;
    }
    Ok(pages)
}

/// Returns all places below the number, with memory for them alone.
fn all_places(alloc: Global, blocks: u16) -> Result<Vec<u16>, NoMemory>
    ensures places { IfOk result (λ places. places.items ≡ first_places blocks) }
    ensures room { IfOk result (λ places. blocks ≤ vec_capacity places) }
{
    let mut places = Vec::with_capacity(alloc, blocks as usize)?;
    for place in 0..blocks {
        places.push_reserved(place);
    }
    Ok(places)
}

fn refused<T>(number: u8) -> Result<T, Trouble<Fault>>
    ensures { result ≡ Err (Trouble.Refused number) }
{
    Err(Trouble::Refused(Fault::new(number)))
}
