//! The disk, with a count of each owner's blocks.

ghost use Rattle.std.specs.Prelude.{◌≡◌, true, [], map, is_some, option_map, IfOk};
ghost use Rattle.std.specs.Prelude.{IsOk, OnOk, OnErr};
ghost use Rattle.monitor_model.specs.Refusals.{RefusedBy, RefusedByOrNoMemory};
ghost use Rattle.monitor_model.specs.Files.{size, file_at, nth_of, page_at, is_block, blocks_owned};
ghost use Rattle.monitor_model.specs.Files.{remove, make, remake, rename, empty_file, put};
ghost use Rattle.monitor_model.specs.State.{volume_file};
ghost use Rattle.block_files.specs.Calls.{create_refusals, there_refusals, rename_refusals};
ghost use Rattle.block_files.specs.Calls.{read_refusals, write_refusals};
ghost use Rattle.block_files.specs.Disks.{IsLaidOut, place_of};

use crate::owners::Owners;
use crate::stores::Store;
use basic_values::{Fault, NoMemory, Trouble};
use monitor_calls::{Account, FileEntry, FileName, Page};
use std::alloc::Global;
use std::marker::Model;

/// A disk: what it stores, and how many blocks the files of each owner have.
#[derive(Drop)]
pub struct Disk {
    store: Store,
    owners: Owners,
}

impl Model for Disk {
    ghost use Rattle.block_files.specs.Disks.{Disk as DiskValue};

    ghost Value = { DiskValue };

    ghost use Rattle.block_files.specs.Owners.{AreCounted};

    ghost view = { λ d. d.store };

    ghost invariant = { λ d. AreCounted d.owners d.store.files };
}

impl Disk {
    /// Returns a disk of this many blocks, with no file. It takes all of its pages.
    pub fn new(alloc: Global, blocks: u16) -> Result<Disk, NoMemory>
        ensures blocks { IfOk result (λ d. d.blocks ≡ blocks) }
        ensures files { IfOk result (λ d. d.files ≡ []) }
    {
        let store = Store::new(alloc, blocks)?;
        let owners = Owners::new(alloc)?;
        Ok(Disk { store, owners })
    }

    /// Returns the size of a file in blocks. None if the file does not exist.
    pub fn size(&self, name: &FileName) -> Option<u16>
        ensures { result ≡ option_map size (file_at self.now.files name.now) }
    {
        self.store.size(name)
    }

    /// Returns the code of a file. None if the file does not exist.
    pub fn code(&self, name: &FileName) -> Option<u8>
        ensures { result ≡ option_map (λ file. file.code) (file_at self.now.files name.now) }
    {
        self.store.code(name)
    }

    /// Returns the name of the file at an index among those of an owner, in the order of making.
    pub fn nth(&self, owner: Account, index: u16) -> Option<FileName>
        ensures { result ≡ option_map (λ file. file.name) (nth_of self.now.files owner index) }
    {
        self.store.nth(owner, index)
    }

    /// Returns how many blocks the files of an owner have. The count is kept up to date as the
    /// files change, and read here.
    pub fn used_by(&self, owner: Account) -> u32
        ensures { result ≡ blocks_owned self.now.files owner }
    {
        u32::from(self.owners.count(owner))
    }

    /// Returns the place of a block among the disk's pages.
    pub fn place(&self, name: &FileName, block: u16) -> Option<u16>
        ensures value { result ≡ place_of self.now name.now block }
        ensures some { is_some result ≡ is_block self.now.files name.now block }
        ensures laid_out { IsLaidOut self.now }
    {
        self.store.place(name, block)
    }

    /// Returns how many blocks it has.
    pub fn blocks(&self) -> u16
        ensures { result ≡ self.now.blocks }
    {
        self.store.blocks()
    }

    /// Moves its files out, in the order of making, with their pages. No page is copied: memory is
    /// needed for the lists of files and pages alone.
    pub fn into_files(self) -> Result<Vec<FileEntry>, NoMemory>
        ensures { IfOk result (λ files. files.items ≡ map volume_file self.files) }
    {
        let Disk { store, owners: _ } = self;
        store.into_files()
    }

    /// Copies a block of a file into the page.
    pub fn read(&self, name: &FileName, block: u16, page: &mut Page) -> Result<(), Fault>
        ensures refused { RefusedBy (read_refusals self.now.files name.now block) result }
        ensures ok { OnOk result (page_at self.now.files name.now block ≡ Some page.new) }
        ensures err { OnErr result (page.new ≡ page.old) }
    {
        self.store.read(name, block, page)
    }

    /// Makes an empty file, the last one.
    pub fn create(&mut self, name: FileName, code: u8) -> Result<(), Trouble<Fault>>
        ensures refused { RefusedByOrNoMemory (create_refusals self.old.files name) result }
        ensures ok { OnOk result (self.new.files ≡ make self.old.files (empty_file name code)) }
        ensures err { OnErr result (self.new ≡ self.old) }
        ensures blocks { self.new.blocks ≡ self.old.blocks }
    {
        self.store.create(name, code)
    }

    /// Deletes a file, and its places are free. It takes no memory.
    pub fn remove(&mut self, name: &FileName) -> Result<(), Fault>
        ensures refused { RefusedBy (there_refusals self.old.files name.now) result }
        ensures ok { OnOk result (self.new.files ≡ remove self.old.files name.now) }
        ensures err { OnErr result (self.new ≡ self.old) }
        ensures blocks { self.new.blocks ≡ self.old.blocks }
    {
        let size = self.store.size_at(name);
        let done = self.store.remove(name);
        if done.is_ok() {
            self.owners.less(name.owner, size);
        }
        done
    }

    /// Makes a file anew: empty, with this code, the last one.
    pub fn remake(&mut self, name: &FileName, code: u8) -> Result<(), Trouble<Fault>>
        ensures refused { RefusedByOrNoMemory (there_refusals self.old.files name.now) result }
        ensures ok { OnOk result (self.new.files ≡ remake self.old.files name.now code) }
        ensures err { OnErr result (self.new ≡ self.old) }
        ensures blocks { self.new.blocks ≡ self.old.blocks }
    {
        let size = self.store.size_at(name);
        let done = self.store.remake(name, code);
        if done.is_ok() {
            self.owners.less(name.owner, size);
        }
        done
    }

    /// Gives a file another name and a code. It becomes the last one, even if the name stays.
    pub fn rename(&mut self, old: &FileName, new: FileName, code: u8) -> Result<(), Trouble<Fault>>
        ensures refused { RefusedByOrNoMemory (rename_refusals self.old.files old.now new) result }
        ensures ok { OnOk result (self.new.files ≡ rename self.old.files old.now new code) }
        ensures err { OnErr result (self.new ≡ self.old) }
        ensures blocks { self.new.blocks ≡ self.old.blocks }
    {
        let size = self.store.size_at(old);
        let owner = new.owner;
        let done = self.store.rename(old, new, code);
        if done.is_ok() {
            self.store.fits();
            self.owners.less(old.owner, size);
            self.owners.more(owner, size);
        }
        done
    }

    /// Writes a block of a file. Past its end the file grows; blocks that are skipped are zeros.
    pub fn write(&mut self, name: &FileName, block: u16, page: &Page) -> Result<(), Trouble<Fault>>
        ensures refused { RefusedByOrNoMemory (write_refusals self.old name.now block) result }
        ensures ok { OnOk result (self.new.files ≡ put self.old.files name.now block page.now) }
        ensures err { OnErr result (self.new ≡ self.old) }
        ensures blocks { self.new.blocks ≡ self.old.blocks }
        ensures within { is_block self.old.files name.now block ≡ true → IsOk result }
    {
        let more = self.store.missing(name, block);
        let done = self.store.write(name, block, page);
        if done.is_ok() {
            self.store.fits();
            self.owners.more(name.owner, more as u16);
        }
        done
    }
}
