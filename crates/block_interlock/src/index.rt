//! The holds in the order of their blocks.

ghost use Rattle.std.specs.Prelude.{◌≡◌, ◌+◌, ◌<◌, ◌≤◌, ◌^◌, None, vec_len, vec_capacity};
ghost use Rattle.monitor_model.specs.Holds.{account_order, name_order, block_order};
ghost use Rattle.block_interlock.specs.Index.{Rises, IsSought, look, Drops, Adds, AreFree};
ghost use Rattle.block_interlock.specs.Index.{DropsAll, AddsAll};

use crate::runs::{Held, Run};
use monitor_calls::{Account, FileName};
use std::cmp::Ordering;

/// A block, and the job and the channel that hold it.
#[derive(Clone, Copy)]
pub(crate) struct Hold {
    pub(crate) held: Held,
    pub(crate) job: u32,
    pub(crate) channel: u8,
}

/// Removes the hold of a block, if there is one.
pub(crate) fn drop_hold(index: &mut Vec<Hold>, held: &Held)
    requires { Rises index.old.items }
    ensures drops { Drops held.now index.old.items index.new.items }
    ensures room { vec_capacity index.old ≤ vec_capacity index.new }
{
    if let Ok(place) = seek(index.as_slice(), &held.name, held.block) {
        index.remove(place);
    }
}

/// Inserts a hold at its place. The memory for it was taken before.
pub(crate) fn add_hold(index: &mut Vec<Hold>, hold: Hold)
    requires rises { Rises index.old.items }
    requires free { look index.old.items hold.held.name hold.held.block ≡ None }
    requires room { vec_len index.old < vec_capacity index.old }
    ensures adds { Adds hold index.old.items index.new.items }
    ensures room { vec_capacity index.old ≤ vec_capacity index.new }
{
    if let Err(place) = seek(index.as_slice(), &hold.held.name, hold.held.block) {
        let _ = index.insert(place, hold);
    }
}

/// Removes the holds of all blocks of a run.
pub(crate) fn drop_all(index: &mut Vec<Hold>, run: &Run)
    requires rises { Rises index.old.items }
    requires numbered { run.now.block + run.now.count ≤ 2 ^ 16 }
    ensures drops { DropsAll run.now index.old.items index.new.items }
    ensures room { vec_capacity index.old ≤ vec_capacity index.new }
{
    for place in 0..run.count {
        drop_hold(index, &run.nth(place));
    }
}

/// Inserts a hold of each block of a run at its place. The memory for them was taken before.
pub(crate) fn add_all(index: &mut Vec<Hold>, run: &Run, job: u32, channel: u8)
    requires rises { Rises index.old.items }
    requires numbered { run.now.block + run.now.count ≤ 2 ^ 16 }
    requires free { AreFree run.now index.old.items }
    requires room { vec_len index.old + run.now.count ≤ vec_capacity index.old }
    ensures adds { AddsAll run.now job channel index.old.items index.new.items }
    ensures room { vec_capacity index.old ≤ vec_capacity index.new }
{
    for place in 0..run.count {
        let held = run.nth(place);
        add_hold(index, Hold { held, job, channel });
    }
}

/// Returns the place of a block, or else the place where it belongs.
pub(crate) fn seek(index: &[Hold], name: &FileName, block: u16) -> Result<usize, usize>
    requires { Rises index.now }
    ensures { IsSought name.now block index.now result }
{
    index.binary_search_by(|hold| order_of(hold, name, block))
}

fn order_of(hold: &Hold, name: &FileName, block: u16) -> Ordering
    ensures { result ≡ block_order (hold.now.held.name, hold.now.held.block) (name.now, block) }
{
    order_of_names(&hold.held.name, name).then(hold.held.block.cmp(&block))
}

fn order_of_names(a: &FileName, b: &FileName) -> Ordering
    ensures { result ≡ name_order a.now b.now }
{
    let stems = a.stem.as_bytes().cmp(b.stem.as_bytes());
    let extensions = a.extension.as_bytes().cmp(b.extension.as_bytes());
    order_of_accounts(a.owner, b.owner).then(stems.then(extensions))
}

fn order_of_accounts(a: Account, b: Account) -> Ordering
    ensures { result ≡ account_order a b }
{
    a.project
        .cmp(&b.project)
        .then(a.programmer.cmp(&b.programmer))
}
