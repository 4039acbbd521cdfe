//! How many blocks the files of each owner have.

ghost use Rattle.std.specs.Prelude.{ℕ, ◌≡◌, ◌+◌, ◌-◌, ◌<◌, ◌^◌, length, get_or, IfOk};
ghost use Rattle.monitor_calls.specs.declared.names.Account.{Account as AccountValue};
ghost use Rattle.block_files.specs.Owners.{slot, count_at, with_count, IsAccount};

use basic_values::NoMemory;
use monitor_calls::Account;
use std::alloc::Global;
use std::marker::Model;

/// Programmers of a project, and projects.
const PROGRAMMERS: usize = 256;

/// The number of accounts that can exist.
const ACCOUNTS: usize = PROGRAMMERS * 256;

/// A count of blocks for each account that can exist, so that none is searched for.
#[derive(Drop)]
pub(crate) struct Owners {
    counts: Vec<u16>,
}

impl Model for Owners {
    ghost use Rattle.std.specs.Prelude.{List, ℕ, ◌≡◌, ◌^◌, length};

    ghost Value = { List ℕ };

    ghost view = { λ owners. owners.counts.items };

    ghost invariant = { λ owners. length owners.counts.items ≡ 2 ^ 16 };
}

impl Owners {
    /// Returns counts of 0 for all owners. It takes all of its memory.
    pub(crate) fn new(alloc: Global) -> Result<Owners, NoMemory>
        ensures { IfOk result (λ owners. (owner : AccountValue) → count_at owners owner ≡ 0) }
    {
        let counts = zeros(alloc, ACCOUNTS)?;
        Ok(Owners { counts })
    }

    /// Returns how many blocks an owner has.
    pub(crate) fn count(&self, owner: Account) -> u16
        ensures count { result ≡ count_at self.now owner }
        ensures account { IsAccount owner }
    {
        self.counts[slot(owner)]
    }

    /// Adds this many blocks to an owner's count.
    pub(crate) fn more(&mut self, owner: Account, blocks: u16)
        requires { IsAccount owner → count_at self.old owner + blocks < 2 ^ 16 }
        ensures counts { self.new ≡ with_count self.old owner (count_at self.old owner + blocks) }
        ensures account { IsAccount owner }
        ensures all { length self.old ≡ 2 ^ 16 }
    {
        let slot = slot(owner);
        self.counts[slot] = self.counts[slot] + blocks;
    }

    /// Subtracts this many blocks from an owner's count.
    pub(crate) fn less(&mut self, owner: Account, blocks: u16)
        ensures counts { self.new ≡ with_count self.old owner (count_at self.old owner - blocks) }
        ensures account { IsAccount owner }
        ensures all { length self.old ≡ 2 ^ 16 }
    {
        let slot = slot(owner);
        self.counts[slot] = self.counts[slot].saturating_sub(blocks);
    }
}

/// Returns the place of an account's count.
fn slot(owner: Account) -> usize
    ensures place { result ≡ slot owner }
    ensures within { result < 2 ^ 16 }
{
    owner.project as usize * PROGRAMMERS + owner.programmer as usize
}

/// Returns this many zeros.
fn zeros(alloc: Global, count: usize) -> Result<Vec<u16>, NoMemory>
    ensures count { IfOk result (λ zeros. length zeros.items ≡ count) }
    ensures zero { IfOk result (λ zeros. (k : ℕ) → get_or zeros.items k 0 ≡ 0) }
{
    let mut zeros = Vec::new(alloc);
    zeros.resize(count, 0)?;
    Ok(zeros)
}
