//! Records of several blocks: which channel has locked which, and how many blocks an owner has.

ghost use Rattle.std.specs.Prelude.{◌≡◌, ◌+◌, ◌<◌, ◌^◌};
ghost use Rattle.monitor_model.specs.Holds.{any_held};

use crate::expects::{expect, expect_none};
use crate::interlock::is_held;
use crate::names::{account, file, short};
use basic_values::{Fault, Trouble};
use block_files::Disk;
use block_interlock::Holds;
use monitor_calls::{FileName, Page};
use std::alloc::Global;
use std::test::Fail;

/// What the channels 1 and 2 of one job do on a file of 4 blocks.
#[derive(Clone, Copy)]
enum Step {
    /// A channel locks this many blocks from this one on, if no other has locked one of them.
    Hold(u8, u16, u8),
    Release(u8),
}

/// The interlock of one job, and the file.
#[derive(Drop)]
struct Desk {
    holds: Holds,
    name: FileName,
    ghost one: { holds.jobs ≡ 1 },
}

impl Desk {
    fn new(alloc: Global) -> Result<Desk, Fail> {
        let name = file(b"MASTER")?;
        let holds = Holds::new(alloc, 1)?;
        Ok(Desk { holds, name })
    }

    /// Returns whether a step is done. It is not, for a channel, block or number that does not
    /// exist.
    fn does(&mut self, step: Step) -> bool {
        match step {
            Step::Hold(channel, block, count) => self.hold(channel, block, count),
            Step::Release(channel) => self.release(channel),
        }
    }

    fn hold(&mut self, channel: u8, block: u16, count: u8) -> bool {
        if channel >= 13 || block > 4 || count == 0 || count > 3 {
            return false;
        }
        let name = self.name;
        if any_held(&self.holds, channel, &name, block, count) {
            return false;
        }
        self.holds.hold(0, channel, name, block, count);
        true
    }

    fn release(&mut self, channel: u8) -> bool {
        if channel >= 13 {
            return false;
        }
        self.holds.release(0, channel);
        true
    }

    /// Returns the channel that has locked each of the 4 blocks, or 0.
    fn holders(&self) -> [u8; 4] {
        let mut found = [0; 4];
        for (place, found) in found.iter_mut().enumerate() {
            if let Some((_, channel)) = self.holds.holder(&self.name, place as u16 + 1) {
                *found = channel;
            }
        }
        found
    }

    /// Returns the first block that a channel has locked and their number, or zeros.
    fn held(&self, channel: u8) -> (u16, u8) {
        match self.holds.held_by(0, channel) {
            Some(run) => (run.block, run.count),
            None => (0, 0),
        }
    }
}

/// Returns whether another channel has locked one of this many blocks.
fn any_held(holds: &Holds, channel: u8, name: &FileName, block: u16, count: u8) -> bool
    requires { block + count < 2 ^ 16 }
    ensures { result ≡ any_held holds.now.held 0 channel name.now block count }
{
    if count == 0 {
        return false;
    }
    is_held(holds, 0, channel, name, block) || any_held(holds, channel, name, block + 1, count - 1)
}

/// A step, whether it is done, which channel has locked each block then, and what each channel has
/// locked.
type Row = (Step, bool, [u8; 4], (u16, u8), (u16, u8));

static ROWS: [Row; 8] = [
    (Step::Hold(1, 1, 2), true, [1, 1, 0, 0], (1, 2), (0, 0)),
    (Step::Hold(2, 2, 2), false, [1, 1, 0, 0], (1, 2), (0, 0)),
    (Step::Hold(2, 4, 1), true, [1, 1, 0, 2], (1, 2), (4, 1)),
    (Step::Hold(1, 3, 2), false, [1, 1, 0, 2], (1, 2), (4, 1)),
    (Step::Release(1), true, [0, 0, 0, 2], (0, 0), (4, 1)),
    (Step::Hold(2, 2, 2), true, [0, 2, 2, 0], (0, 0), (2, 2)),
    (Step::Hold(2, 1, 3), true, [2, 2, 2, 0], (0, 0), (1, 3)),
    (Step::Hold(1, 3, 1), false, [2, 2, 2, 0], (0, 0), (1, 3)),
];

/// Returns whether a step leaves what its row says.
fn is_left(desk: &mut Desk, row: &Row) -> bool {
    let (step, done, holders, first, second) = row;
    let is_done = desk.does(*step) == *done;
    is_done && desk.holders() == *holders && (desk.held(1), desk.held(2)) == (*first, *second)
}

fn first_wrong(desk: &mut Desk) -> Option<usize> {
    for (place, row) in ROWS.iter().enumerate() {
        if !is_left(desk, row) {
            return Some(place);
        }
    }
    None
}

/// Fails with the place of a row that leaves another state; channels that do not exist have locked
/// none.
fn expect_rows(alloc: Global, desk: &mut Desk) -> Result<(), Fail> {
    expect_none(alloc, first_wrong(desk))?;
    let beyond = (desk.held(13), desk.held(255));
    expect(
        beyond == ((0, 0), (0, 0)),
        "a channel beyond the last holds a block",
    )
}

#[test]
fn a_record_is_held_whole_or_not_at_all(rt: HostRuntime) -> Result<(), Fail> {
    let mut desk = Desk::new(rt.alloc())?;
    expect_rows(rt.alloc(), &mut desk)
}

fn named(project: u8, stem: &[u8]) -> Result<FileName, Fail> {
    Ok(FileName {
        owner: account(project, 1),
        stem: short(stem)?,
        extension: short(b"DAT")?,
    })
}

/// A file by its owner's project and its stem, the block of it that is written, and how many blocks
/// the owners [10,1] and [20,1] have then.
static OWNED: [(u8, &[u8], u16, (u32, u32)); 5] = [
    (10, b"A", 2, (2, 0)),
    (20, b"A", 1, (2, 1)),
    (10, b"B", 3, (5, 1)),
    (10, b"A", 1, (5, 1)),
    (20, b"A", 3, (5, 3)),
];

/// Returns the number of the error of a write; 0 if it is done. A file that does not exist is made.
fn refused(
    alloc: Global,
    disk: &mut Disk,
    project: u8,
    stem: &[u8],
    block: u16,
) -> Result<u8, Fail> {
    let (name, page) = (named(project, stem)?, Page::new(alloc)?);
    let _ = disk.create(name, 60);
    number_of(disk.write(&name, block, &page))
}

fn number_of(answer: Result<(), Trouble<Fault>>) -> Result<u8, Fail> {
    match answer {
        Ok(()) => Ok(0),
        Err(Trouble::Refused(fault)) => Ok(fault.number()),
        Err(Trouble::NoMemory) => Err("no memory")?,
    }
}

fn used(disk: &Disk) -> (u32, u32) {
    (disk.used_by(account(10, 1)), disk.used_by(account(20, 1)))
}

fn first_wrong_write(alloc: Global, disk: &mut Disk) -> Result<Option<usize>, Fail> {
    for (place, (project, stem, block, blocks)) in OWNED.iter().enumerate() {
        if refused(alloc, disk, *project, stem, *block)? != 0 || used(disk) != *blocks {
            return Ok(Some(place));
        }
    }
    Ok(None)
}

/// Returns what owners have after a file of one was deleted.
fn used_behind_removal(disk: &mut Disk) -> Result<(u32, u32), Fail> {
    if disk.remove(&named(10, b"B")?).is_err() {
        return Err("the file is not taken away")?;
    }
    Ok(used(disk))
}

/// Fails unless each owner has the blocks of its files, after writes, one that fails and a removal.
fn expect_owned(alloc: Global, disk: &mut Disk) -> Result<(), Fail> {
    expect_none(alloc, first_wrong_write(alloc, disk)?)?;
    expect_full(alloc, disk)?;
    expect_left(disk)
}

fn expect_full(alloc: Global, disk: &mut Disk) -> Result<(), Fail> {
    let number = refused(alloc, disk, 10, b"A", 3)?;
    expect(number == 4, "a full disk takes a block")
}

fn expect_left(disk: &mut Disk) -> Result<(), Fail> {
    let left = (used_behind_removal(disk)?, disk.used_by(account(30, 1)));
    expect(left == ((2, 3), 0), "other blocks behind the removal")
}

#[test]
fn an_owner_s_blocks_are_those_of_its_files(rt: HostRuntime) -> Result<(), Fail> {
    let mut disk = Disk::new(rt.alloc(), 8)?;
    expect_owned(rt.alloc(), &mut disk)
}
