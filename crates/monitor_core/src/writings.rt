//! Tests whether a write has the blocks that it needs, on the disk and within the quota of the
//! file's owner, and writes several pages at once. It uses the disk and the accounts.

ghost use Rattle.std.specs.Prelude.{◌≡◌, ◌+◌, ◌-◌, ◌<◌, ◌≤◌, ◌^◌, true, false, [], ◌∷◌, nat_lt};
ghost use Rattle.std.specs.Prelude.{length, IsOk, OnOk, OnErr};
ghost use Rattle.monitor_model.specs.Files.{is_file, is_block, size_at, put, put_all};
ghost use Rattle.monitor_model.specs.State.{quota_of};
ghost use Rattle.monitor_model.specs.Refusals.{RefusedByOrNoMemory};
ghost use Rattle.monitor_model.specs.Answer.{left_to};
ghost use Rattle.monitor_core.specs.Records.{room_refusals};

use crate::parts::Parts;
use basic_values::{Fault, Trouble};
use block_files::Disk;
use monitor_calls::{Account, FileName, Page};

impl Parts {
    /// Returns whether a file whose last block is to be this one needs more blocks than its owner's
    /// quota leaves. It counts the owner's blocks only if the file is to grow.
    pub(crate) fn passes_quota(&self, name: &FileName, last: u32) -> bool
        ensures passes { result
            ≡ nat_lt (left_to self.now name.now.owner) (last - size_at self.now.files name.now) }
        ensures small { result ≡ false → last < 2 ^ 16 }
    {
        let wanted = last.saturating_sub(self.size_of(name) as u32);
        if wanted == 0 {
            return false;
        }
        let quota = self.quota_of(name.owner);
        quota.saturating_sub(self.disk.used_by(name.owner)) < wanted
    }

    /// Returns how many blocks an owner's files may have: none if there is no such account.
    fn quota_of(&self, owner: Account) -> u32
        ensures quota { result ≡ quota_of self.now.accounts owner }
        ensures small { result < 2 ^ 16 }
    {
        match self.accounts.quota(owner) {
            Some(quota) => quota as u32,
            None => 0,
        }
    }
}

/// Writes pages to a file that exists, from this block on, the last one first. The file grows by
/// that write alone, so no other is refused or needs memory.
#[tactic(auto, using(crate::proofs::Growth::write_row, crate::proofs::Growth::block_before))]
pub(crate) fn write_all(
    disk: &mut Disk,
    name: &FileName,
    block: u16,
    pages: &[Page],
) -> Result<(), Trouble<Fault>>
    requires there { is_file disk.old.files name.now ≡ true }
    requires first { 1 ≤ block }
    requires some { 1 ≤ length pages.now }
    requires last { block + length pages.now ≤ 2 ^ 16 }
    ensures refused { RefusedByOrNoMemory
        (room_refusals disk.old name.now (block + length pages.now - 1)) result }
    ensures ok { OnOk result (disk.new.files ≡ put_all disk.old.files name.now block pages.now) }
    ensures err { OnErr result (disk.new ≡ disk.old) }
    ensures blocks { disk.new.blocks ≡ disk.old.blocks }
    ensures within { is_block disk.old.files name.now (block + length pages.now - 1) ≡ true
        → IsOk result }
{
    match pages {
        [] => Ok(()),
        [page] => disk.write(name, block, page),
        [page, others @ ..] => {
            write_all(disk, name, block + 1, others)?;
            write_within(disk, name, block, page);
            Ok(())
        }
    }
}

/// Writes a block that the file has.
fn write_within(disk: &mut Disk, name: &FileName, block: u16, page: &Page)
    requires { is_block disk.old.files name.now block ≡ true }
    ensures files { disk.new.files ≡ put disk.old.files name.now block page.now }
    ensures blocks { disk.new.blocks ≡ disk.old.blocks }
{
    if disk.write(name, block, page).is_err() {
        unreachable!()
    }
}
