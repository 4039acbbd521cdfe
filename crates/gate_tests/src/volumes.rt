//! Monitors over a volume with one account, and the login to it.

ghost use Rattle.std.specs.Prelude.{◌≡◌, ◌≤◌, IfOk, length};

use basic_values::Series;
use basic_values::limits::MOST_CALLS;
use monitor_calls::{Account, AccountEntry, FileEntry, FileName, Page, Request, Short, Volume};
use monitor_core::Monitor;
use std::alloc::Global;
use std::test::Fail;

/// The account that jobs log in to.
pub(crate) const DEMO: Account = Account {
    project: 100,
    programmer: 5,
};

/// How many blocks the disk has.
pub(crate) const BLOCKS: u16 = 8;

pub(crate) fn password() -> Result<Short, Fail> {
    Ok(Short::of(b"DEMO").ok_or("no short text")?)
}

/// Returns the name of the file S.DAT.
pub(crate) fn file_name() -> Result<FileName, Fail> {
    Ok(FileName {
        owner: DEMO,
        stem: Short::of(b"S").ok_or("no short text")?,
        extension: Short::of(b"DAT").ok_or("no short text")?,
    })
}

fn accounts(alloc: Global, limit: u16) -> Result<Vec<AccountEntry>, Fail> {
    let mut accounts = Vec::new(alloc);
    accounts.push(AccountEntry {
        account: DEMO,
        password: password()?,
        limit,
        quota: 8,
    })?;
    Ok(accounts)
}

/// Returns the file S.DAT, of one block.
fn one_file(alloc: Global) -> Result<Vec<FileEntry>, Fail> {
    let mut pages = Vec::new(alloc);
    pages.push(Page::new(alloc)?)?;
    let mut files = Vec::new(alloc);
    files.push(FileEntry {
        name: file_name()?,
        code: 60,
        pages: Series::from_vec(pages),
    })?;
    Ok(files)
}

/// Returns a monitor for this many jobs over this volume.
fn opened_over(alloc: Global, jobs: u32, volume: &Volume) -> Result<Monitor, Fail>
    requires { jobs ≤ 63 }
    ensures { IfOk result (λ monitor. length monitor.jobs ≡ jobs) }
{
    if !volume.is_good() {
        return Err(Fail::new("the volume is not good"));
    }
    Ok(Monitor::open(alloc, volume, jobs)?)
}

/// Returns a monitor for this many jobs, over a volume with one account.
pub(crate) fn opened(alloc: Global, jobs: u32) -> Result<Monitor, Fail>
    requires { jobs ≤ 63 }
    ensures { IfOk result (λ monitor. length monitor.jobs ≡ jobs) }
{
    let volume = Volume {
        blocks: BLOCKS,
        accounts: accounts(alloc, 100)?,
        files: Vec::new(alloc),
    };
    opened_over(alloc, jobs, &volume)
}

/// Returns a monitor for this many jobs, over a volume with the file S.DAT and an account that may
/// call as often as any.
pub(crate) fn opened_with_file(alloc: Global, jobs: u32) -> Result<Monitor, Fail>
    requires { jobs ≤ 63 }
    ensures { IfOk result (λ monitor. length monitor.jobs ≡ jobs) }
{
    let volume = Volume {
        blocks: BLOCKS,
        accounts: accounts(alloc, MOST_CALLS)?,
        files: one_file(alloc)?,
    };
    opened_over(alloc, jobs, &volume)
}

pub(crate) fn login() -> Result<Request, Fail> {
    Ok(Request::Login {
        account: DEMO,
        password: password()?,
    })
}
