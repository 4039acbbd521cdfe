//! The table of jobs.

ghost use Rattle.std.specs.Prelude.{◌≡◌, ◌<◌, length};

use crate::expects::expect_none;
use crate::names::file;
use job_table::{ChannelEntry, JobTable};
use monitor_calls::{Account, FileName};
use std::alloc::Global;
use std::test::Fail;

/// The account that jobs act for.
const DEMO: Account = Account {
    project: 100,
    programmer: 5,
};

/// What is done to a job of the table.
#[derive(Clone, Copy)]
enum Step {
    /// Nothing.
    Look(u32),
    LogIn(u32),
    /// A call is counted, if the job has an account.
    Count(u32),
    /// A channel is opened on the file, if the job has an account.
    Open(u32, u8),
    Close(u32, u8),
    End(u32),
}

/// The account of a job, its calls, and whether some channel of any job is open on the file.
type Told = (Option<Account>, u16, bool);

/// A table of three jobs, and the file that channels are opened on.
#[derive(Drop)]
struct Three {
    jobs: JobTable,
    name: FileName,
    ghost three: { length jobs ≡ 3 },
}

impl Three {
    fn new(alloc: Global) -> Result<Three, Fail> {
        let name = file(b"MASTER")?;
        let jobs = JobTable::new(alloc, 3)?;
        Ok(Three { jobs, name })
    }

    /// Returns what the table says of a job after a step on it; none for a job that does not exist.
    fn told_behind(&mut self, step: Step) -> Option<Told> {
        let (Step::Look(job)
        | Step::LogIn(job)
        | Step::Count(job)
        | Step::Open(job, _)
        | Step::Close(job, _)
        | Step::End(job)) = step;
        if job >= 3 {
            return None;
        }
        match step {
            Step::Look(_) => {}
            Step::LogIn(_) => self.log_in(job),
            Step::Count(_) => self.count(job),
            Step::Open(_, channel) => self.open(job, channel),
            Step::Close(_, channel) => self.close(job, channel),
            Step::End(_) => self.end(job),
        }
        Some(self.told(job))
    }

    fn told(&self, job: u32) -> Told
        requires { job < 3 }
    {
        let account = self.jobs.account(job);
        let calls = self.jobs.calls(job);
        (account, calls, self.jobs.is_open(&self.name))
    }

    #[tactic(auto, using(monitor_model::proofs::Counting::as_many_jobs))]
    fn log_in(&mut self, job: u32)
        requires { job < 3 }
    {
        self.jobs.log_in(job, DEMO);
    }

    #[tactic(auto, using(monitor_model::proofs::Counting::as_many_jobs))]
    fn count(&mut self, job: u32)
        requires { job < 3 }
    {
        if let Some(_) = self.jobs.account(job)
            && self.jobs.calls(job) < 16384
        {
            self.jobs.count(job);
        }
    }

    #[tactic(auto, using(monitor_model::proofs::Counting::as_many_jobs))]
    fn open(&mut self, job: u32, channel: u8)
        requires { job < 3 }
    {
        let entry = ChannelEntry {
            name: self.name,
            update: true,
            read: true,
            write: false,
        };
        if let Some(_) = self.jobs.account(job)
            && channel < 13
        {
            self.jobs.set_channel(job, channel, Some(entry));
        }
    }

    #[tactic(auto, using(monitor_model::proofs::Counting::as_many_jobs))]
    fn close(&mut self, job: u32, channel: u8)
        requires { job < 3 }
    {
        if channel < 13 && self.jobs.channel(job, channel).is_some() {
            self.jobs.set_channel(job, channel, None);
        }
    }

    #[tactic(auto, using(monitor_model::proofs::Counting::as_many_jobs))]
    fn end(&mut self, job: u32)
        requires { job < 3 }
    {
        self.jobs.end(job);
    }
}

static ROWS: [(Step, Told); 14] = [
    (Step::Look(1), (None, 0, false)),
    (Step::Count(1), (None, 0, false)),
    (Step::Open(1, 12), (None, 0, false)),
    (Step::LogIn(1), (Some(DEMO), 0, false)),
    (Step::Count(1), (Some(DEMO), 1, false)),
    (Step::Count(1), (Some(DEMO), 2, false)),
    (Step::Open(1, 0), (Some(DEMO), 2, true)),
    (Step::Open(1, 12), (Some(DEMO), 2, true)),
    (Step::Look(2), (None, 0, true)),
    (Step::Close(1, 0), (Some(DEMO), 2, true)),
    (Step::Close(1, 12), (Some(DEMO), 2, false)),
    (Step::Open(1, 12), (Some(DEMO), 2, true)),
    (Step::LogIn(0), (Some(DEMO), 0, true)),
    (Step::End(1), (None, 0, false)),
];

fn first_wrong(three: &mut Three) -> Option<usize> {
    for (place, (step, told)) in ROWS.iter().enumerate() {
        if three.told_behind(*step) != Some(*told) {
            return Some(place);
        }
    }
    None
}

#[test]
fn a_job_has_an_account_calls_and_channels_to_its_end(rt: HostRuntime) -> Result<(), Fail> {
    let mut three = Three::new(rt.alloc())?;
    expect_none(rt.alloc(), first_wrong(&mut three))
}
