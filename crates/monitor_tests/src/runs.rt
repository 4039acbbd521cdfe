//! Two jobs over one monitor.

ghost use Rattle.std.specs.Prelude.{◌≡◌, length};

use crate::asks::{Ask, Job, NEIGHBOUR, OWNER, STRANGER, request, short};
use crate::expects::expect_none;
use crate::replies::Said;
use basic_values::limits::MOST_QUOTA;
use monitor_calls::{AccountEntry, Reply, Volume, blank_page};
use monitor_core::Monitor;
use std::alloc::Global;
use std::test::Fail;

/// A job, what it asks, and the expected reply.
pub(crate) type Row = (Job, Ask, Said);

/// A monitor with two jobs.
#[derive(Drop)]
pub(crate) struct Run {
    monitor: Monitor,
    ghost two: { length monitor.jobs ≡ 2 },
}

impl Run {
    /// Opens two jobs over a volume, which has to be good.
    pub(crate) fn open(alloc: Global, volume: &Volume) -> Result<Run, Fail> {
        if !volume.is_good() {
            return Err(Fail::new("the volume is not good"));
        }
        let monitor = Monitor::open(alloc, volume, 2)?;
        Ok(Run { monitor })
    }

    /// Asks the rows in turn, and fails with the place of the first one that is replied otherwise.
    pub(crate) fn expect_rows(&mut self, alloc: Global, rows: &[Row]) -> Result<(), Fail> {
        expect_none(alloc, self.first_wrong(alloc, rows)?)
    }

    /// Returns the disk that the monitor leaves.
    pub(crate) fn into_volume(self) -> Result<Volume, Fail> {
        let Run { monitor } = self;
        Ok(monitor.into_volume()?)
    }

    fn first_wrong(&mut self, alloc: Global, rows: &[Row]) -> Result<Option<usize>, Fail> {
        for (place, row) in rows.iter().enumerate() {
            let (job, ask, said) = *row;
            if !self.is_replied(alloc, job, ask, said)? {
                return Ok(Some(place));
            }
        }
        Ok(None)
    }

    /// Returns whether a job is replied so.
    pub(crate) fn is_replied(
        &mut self,
        alloc: Global,
        job: Job,
        ask: Ask,
        said: Said,
    ) -> Result<bool, Fail> {
        let reply = self.reply(alloc, job, ask)?;
        Ok(said.is_reply(&reply))
    }

    fn reply(&mut self, alloc: Global, job: Job, ask: Ask) -> Result<Reply, Fail> {
        let request = request(alloc, ask)?;
        let page = blank_page(alloc, &request)?;
        let reply = self.monitor.answer(job.number(), &request, page)?;
        Ok(reply)
    }
}

/// Fails with the place of the first row that is replied otherwise, over a disk of this many blocks
/// without files. Each account allows this many calls.
pub(crate) fn expect_rows(
    alloc: Global,
    blocks: u16,
    limit: u16,
    rows: &[Row],
) -> Result<(), Fail> {
    let volume = empty_volume(alloc, blocks, limit)?;
    expect_rows_over(alloc, &volume, rows)
}

/// Does the same over a volume, which has to be good.
pub(crate) fn expect_rows_over(alloc: Global, volume: &Volume, rows: &[Row]) -> Result<(), Fail> {
    let mut run = Run::open(alloc, volume)?;
    run.expect_rows(alloc, rows)
}

/// Returns a disk of this many blocks without files.
pub(crate) fn empty_volume(alloc: Global, blocks: u16, limit: u16) -> Result<Volume, Fail> {
    let accounts = accounts(alloc, limit)?;
    Ok(Volume {
        blocks,
        accounts,
        files: Vec::new(alloc),
    })
}

/// Returns the same disk, on which the owner has this quota.
pub(crate) fn volume_in_quota(
    alloc: Global,
    blocks: u16,
    limit: u16,
    quota: u16,
) -> Result<Volume, Fail> {
    let accounts = accounts_in_quota(alloc, limit, quota)?;
    Ok(Volume {
        blocks,
        accounts,
        files: Vec::new(alloc),
    })
}

/// Returns the three accounts, each of which allows this many calls, and any number of blocks.
pub(crate) fn accounts(alloc: Global, limit: u16) -> Result<Vec<AccountEntry>, Fail> {
    accounts_in_quota(alloc, limit, MOST_QUOTA)
}

/// Returns the same accounts, of which the owner has this quota.
fn accounts_in_quota(alloc: Global, limit: u16, quota: u16) -> Result<Vec<AccountEntry>, Fail> {
    let password = short(b"DEMO")?;
    let mut accounts = Vec::new(alloc);
    let quotas = [
        (OWNER, quota),
        (NEIGHBOUR, MOST_QUOTA),
        (STRANGER, MOST_QUOTA),
    ];
    for (account, quota) in quotas {
        accounts.push(AccountEntry {
            account,
            password,
            limit,
            quota,
        })?;
    }
    Ok(accounts)
}
