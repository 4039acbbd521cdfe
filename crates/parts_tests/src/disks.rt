//! The disk: its files, their blocks and codes.

use crate::expects::{expect, expect_none};
use crate::names::file;
use basic_values::{Fault, NoMemory, Trouble};
use block_files::Disk;
use monitor_calls::{FileEntry, FileName, Page};
use std::alloc::Global;
use std::test::Fail;

/// What is done to a disk with the files MASTER and OTHER, and what is asked of it.
#[derive(Clone, Copy)]
enum Step {
    /// A file is made with this code.
    Create(Named, u8),
    /// A block is filled with a byte.
    Write(Named, u16, u8),
    Read(Named, u16),
    Remake(Named, u8),
    Remove(Named),
    Size(Named),
    Code(Named),
    /// Whether the disk knows the place of a block.
    Place(Named, u16),
}

#[derive(Clone, Copy)]
enum Named {
    Master,
    Other,
}

/// The answer to a step.
#[derive(Clone, Copy, PartialEq, Eq)]
enum Told {
    Done,
    Refused(u8),
    NoMemory,
    /// The byte that a block is full of.
    Full(u8),
    /// A block has another byte too.
    Mixed,
    Number(u16),
    /// There is none.
    Nothing,
    Is(bool),
}

/// A step, and its answer.
type Row = (Step, Told);

/// A disk, and the names of its files.
#[derive(Drop)]
struct Files {
    alloc: Global,
    disk: Disk,
    master: FileName,
    other: FileName,
}

fn page_of(alloc: Global, byte: u8) -> Result<Page, NoMemory> {
    let mut page = Page::new(alloc)?;
    page.fill(&[byte; 512]);
    Ok(page)
}

fn answered(answer: Result<(), Trouble<Fault>>) -> Told {
    match answer {
        Ok(()) => Told::Done,
        Err(Trouble::Refused(fault)) => Told::Refused(fault.number()),
        Err(Trouble::NoMemory) => Told::NoMemory,
    }
}

impl Files {
    fn new(alloc: Global, blocks: u16) -> Result<Files, Fail> {
        let (master, other) = (file(b"MASTER")?, file(b"OTHER")?);
        let disk = Disk::new(alloc, blocks)?;
        Ok(Files {
            alloc,
            disk,
            master,
            other,
        })
    }

    fn name(&self, named: Named) -> FileName {
        match named {
            Named::Master => self.master,
            Named::Other => self.other,
        }
    }

    fn told_behind(&mut self, step: Step) -> Told {
        match step {
            Step::Create(named, code) => self.create(named, code),
            Step::Write(named, block, byte) => self.write(named, block, byte),
            Step::Read(named, block) => self.read(named, block),
            Step::Remake(named, code) => self.remake(named, code),
            Step::Remove(named) => self.remove(named),
            Step::Size(named) => number(self.disk.size(&self.name(named))),
            Step::Code(named) => self.code(named),
            Step::Place(named, block) => self.place(named, block),
        }
    }

    fn create(&mut self, named: Named, code: u8) -> Told {
        let name = self.name(named);
        answered(self.disk.create(name, code))
    }

    fn write(&mut self, named: Named, block: u16, byte: u8) -> Told {
        let name = self.name(named);
        match page_of(self.alloc, byte) {
            Ok(page) => answered(self.disk.write(&name, block, &page)),
            Err(_) => Told::NoMemory,
        }
    }

    fn read(&self, named: Named, block: u16) -> Told {
        match page_of(self.alloc, 255) {
            Ok(mut page) => match self.disk.read(&self.name(named), block, &mut page) {
                Ok(()) => shown(&page),
                Err(fault) => Told::Refused(fault.number()),
            },
            Err(_) => Told::NoMemory,
        }
    }

    fn remake(&mut self, named: Named, code: u8) -> Told {
        let name = self.name(named);
        answered(self.disk.remake(&name, code))
    }

    fn remove(&mut self, named: Named) -> Told {
        let name = self.name(named);
        match self.disk.remove(&name) {
            Ok(()) => Told::Done,
            Err(fault) => Told::Refused(fault.number()),
        }
    }

    fn code(&self, named: Named) -> Told {
        match self.disk.code(&self.name(named)) {
            Some(code) => Told::Number(code as u16),
            None => Told::Nothing,
        }
    }

    fn place(&self, named: Named, block: u16) -> Told {
        Told::Is(self.disk.place(&self.name(named), block).is_some())
    }
}

fn number(found: Option<u16>) -> Told {
    match found {
        Some(number) => Told::Number(number),
        None => Told::Nothing,
    }
}

fn shown(page: &Page) -> Told {
    let first = page.as_bytes()[0];
    let is_full = page.as_bytes().iter().all(|byte| *byte == first);
    if is_full {
        Told::Full(first)
    } else {
        Told::Mixed
    }
}

/// Returns the place of the first row with another answer, over a disk of this many blocks.
fn first_wrong(alloc: Global, blocks: u16, rows: &[Row]) -> Result<Option<usize>, Fail> {
    let mut files = Files::new(alloc, blocks)?;
    Ok(first_told_wrong(&mut files, rows))
}

fn first_told_wrong(files: &mut Files, rows: &[Row]) -> Option<usize> {
    for (place, (step, want)) in rows.iter().enumerate() {
        if files.told_behind(*step) != *want {
            return Some(place);
        }
    }
    None
}

static ZEROS: [Row; 22] = [
    (Step::Create(Named::Master, 60), Told::Done),
    (Step::Size(Named::Master), Told::Number(0)),
    (Step::Write(Named::Master, 1, 1), Told::Done),
    (Step::Size(Named::Master), Told::Number(1)),
    (Step::Write(Named::Master, 2, 2), Told::Done),
    (Step::Size(Named::Master), Told::Number(2)),
    (Step::Write(Named::Master, 4, 4), Told::Done),
    (Step::Size(Named::Master), Told::Number(4)),
    (Step::Write(Named::Master, 2, 9), Told::Done),
    (Step::Size(Named::Master), Told::Number(4)),
    (Step::Read(Named::Master, 0), Told::Refused(11)),
    (Step::Read(Named::Master, 1), Told::Full(1)),
    (Step::Read(Named::Master, 2), Told::Full(9)),
    (Step::Read(Named::Master, 3), Told::Full(0)),
    (Step::Read(Named::Master, 4), Told::Full(4)),
    (Step::Read(Named::Master, 5), Told::Refused(11)),
    (Step::Place(Named::Master, 0), Told::Is(false)),
    (Step::Place(Named::Master, 1), Told::Is(true)),
    (Step::Place(Named::Master, 2), Told::Is(true)),
    (Step::Place(Named::Master, 3), Told::Is(true)),
    (Step::Place(Named::Master, 4), Told::Is(true)),
    (Step::Place(Named::Master, 5), Told::Is(false)),
];

#[test]
fn a_write_behind_the_end_leaves_zeros_between(rt: HostRuntime) -> Result<(), Fail> {
    expect_none(rt.alloc(), first_wrong(rt.alloc(), 8, &ZEROS)?)
}

static REFUSALS: [Row; 11] = [
    (Step::Create(Named::Master, 60), Told::Done),
    (Step::Create(Named::Master, 0), Told::Refused(16)),
    (Step::Write(Named::Other, 1, 7), Told::Refused(5)),
    (Step::Write(Named::Master, 0, 7), Told::Refused(31)),
    (Step::Write(Named::Master, 4, 7), Told::Refused(4)),
    (Step::Remake(Named::Other, 0), Told::Refused(5)),
    (Step::Remove(Named::Other), Told::Refused(5)),
    (Step::Read(Named::Other, 1), Told::Refused(5)),
    (Step::Read(Named::Master, 1), Told::Refused(11)),
    (Step::Write(Named::Master, 3, 7), Told::Done),
    (Step::Read(Named::Master, 4), Told::Refused(11)),
];

#[test]
fn each_refusal_has_its_number(rt: HostRuntime) -> Result<(), Fail> {
    expect_none(rt.alloc(), first_wrong(rt.alloc(), 3, &REFUSALS)?)
}

static REMOVED: [Row; 11] = [
    (Step::Create(Named::Master, 60), Told::Done),
    (Step::Create(Named::Other, 60), Told::Done),
    (Step::Write(Named::Master, 3, 7), Told::Done),
    (Step::Write(Named::Other, 1, 7), Told::Refused(4)),
    (Step::Remove(Named::Master), Told::Done),
    (Step::Write(Named::Other, 2, 7), Told::Done),
    (Step::Read(Named::Other, 1), Told::Full(0)),
    (Step::Remake(Named::Other, 40), Told::Done),
    (Step::Size(Named::Other), Told::Number(0)),
    (Step::Code(Named::Other), Told::Number(40)),
    (Step::Write(Named::Other, 3, 7), Told::Done),
];

#[test]
fn blocks_of_a_removed_file_are_free_again(rt: HostRuntime) -> Result<(), Fail> {
    expect_none(rt.alloc(), first_wrong(rt.alloc(), 3, &REMOVED)?)
}

/// MASTER gets pages that OTHER had, and OTHER's last page is skipped.
static KEPT_STEPS: [Row; 9] = [
    (Step::Create(Named::Other, 60), Told::Done),
    (Step::Write(Named::Other, 4, 9), Told::Done),
    (Step::Remake(Named::Other, 63), Told::Done),
    (Step::Create(Named::Master, 200), Told::Done),
    (Step::Write(Named::Master, 2, 2), Told::Done),
    (Step::Write(Named::Other, 1, 5), Told::Done),
    (Step::Write(Named::Master, 1, 1), Told::Done),
    (Step::Write(Named::Other, 3, 7), Told::Done),
    (Step::Write(Named::Master, 3, 3), Told::Done),
];

/// A file's stem, its code, and the byte that each of its blocks is full of.
type Kept = (&'static [u8], u8, &'static [u8]);

static KEPT: [Kept; 2] = [(b"OTHER", 63, &[5, 0, 7]), (b"MASTER", 200, &[1, 2, 3])];

fn are_full(pages: &[Page], bytes: &[u8]) -> bool {
    if pages.len() != bytes.len() {
        return false;
    }
    for (place, byte) in bytes.iter().enumerate() {
        match pages.get(place) {
            Some(page) if shown(page) == Told::Full(*byte) => {}
            _ => return false,
        }
    }
    true
}

fn is_kept(entry: &FileEntry, kept: &Kept) -> bool {
    entry.name.stem.as_bytes() == kept.0
        && entry.code == kept.1
        && are_full(entry.pages.as_slice(), kept.2)
}

#[test]
fn files_are_moved_out_with_their_pages(rt: HostRuntime) -> Result<(), Fail> {
    let mut files = Files::new(rt.alloc(), 8)?;
    expect_none(rt.alloc(), first_told_wrong(&mut files, &KEPT_STEPS))?;
    expect(files.disk.blocks() == 8, "another number of blocks")?;
    let entries = files.disk.into_files()?;
    match entries.as_slice() {
        [first, second] => expect(
            is_kept(first, &KEPT[0]) && is_kept(second, &KEPT[1]),
            "another file",
        ),
        _ => Err(Fail::new("another number of files")),
    }
}
