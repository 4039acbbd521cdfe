//! The table of jobs.

ghost use Rattle.std.specs.Prelude.{◌≡◌, ◌≢◌, ◌<◌, length, replicate, None, IfOk, IfNone};
ghost use Rattle.basic_values.specs.declared.limits.TheConstants.{MOST_CALLS};
ghost use Rattle.monitor_model.specs.Jobs.{nobody, job_at, account_of, calls_of, channel_of};
ghost use Rattle.monitor_model.specs.Jobs.{log_in, count, set_channel, end_job, is_open_file};
ghost use Rattle.monitor_model.specs.Jobs.{has_channel, is_on};

use basic_values::NoMemory;
use monitor_calls::{Account, FileName};
use monitor_model::{ChannelEntry, JobEntry};
use std::alloc::Global;
use std::marker::Model;

/// A job without an account.
const NOBODY: JobEntry = JobEntry {
    account: None,
    calls: 0,
    channels: [None; 13],
};

/// The jobs by their number, from 0. One without an account has no calls and no open channel.
#[derive(Drop)]
pub struct JobTable {
    jobs: Vec<JobEntry>,
}

impl Model for JobTable {
    ghost use Rattle.std.specs.Prelude.{List};
    ghost use Rattle.monitor_model.specs.declared.entries.JobEntry.{JobEntry as Entry};
    ghost use Rattle.job_table.specs.Seats.{AreSeated};

    ghost Value = { List Entry };

    ghost view = { λ table. table.jobs.items };

    ghost invariant = { λ table. AreSeated table.jobs.items };
}

impl JobTable {
    /// Returns a table of this many jobs, none with an account.
    pub fn new(alloc: Global, jobs: u32) -> Result<JobTable, NoMemory>
        ensures { IfOk result (λ table. table ≡ replicate jobs nobody) }
    {
        let mut table = Vec::new(alloc);
        table.resize(jobs as usize, NOBODY)?;
        Ok(JobTable { jobs: table })
    }

    /// Returns the account of a job that is logged in. A job without one has no calls and no open
    /// channel.
    #[tactic(auto, unfolding(monitor_model::specs::Jobs::account_of))]
    pub fn account(&self, job: u32) -> Option<Account>
        requires { job < length self.now }
        ensures account { result ≡ account_of self.now job }
        ensures visitor { IfNone result (job_at self.now job ≡ nobody) }
    {
        self.jobs[job as usize].account
    }

    /// Returns how many calls a job has made since its login.
    #[tactic(auto, unfolding(monitor_model::specs::Jobs::calls_of))]
    pub fn calls(&self, job: u32) -> u16
        requires { job < length self.now }
        ensures { result ≡ calls_of self.now job }
    {
        self.jobs[job as usize].calls
    }

    /// Returns what a job may do through a channel. None if it is not open.
    #[tactic(auto, using(crate::proofs::SeatLemmas::seat_places), unfolding(monitor_model::specs::Jobs::channel_of))]
    pub fn channel(&self, job: u32, channel: u8) -> Option<ChannelEntry>
        requires job { job < length self.now }
        requires channel { channel < 13 }
        ensures { result ≡ channel_of self.now job channel }
    {
        let entry = &self.jobs[job as usize];
        entry.channels[channel as usize]
    }

    /// Returns whether a channel of any job is open on the file.
    pub fn is_open(&self, name: &FileName) -> bool
        ensures { result ≡ is_open_file self.now name.now }
    {
        self.jobs.iter().any(|job| has_channel(name, job))
    }

    /// Logs a job in to an account, with no calls made.
    #[tactic(auto, unfolding(monitor_model::specs::Jobs::log_in))]
    pub fn log_in(&mut self, job: u32, account: Account)
        requires { job < length self.old }
        ensures { self.new ≡ log_in self.old job account }
    {
        let entry = &mut self.jobs[job as usize];
        entry.account = Some(account);
        entry.calls = 0;
    }

    /// Counts one more call of a job.
    #[tactic(auto, unfolding(monitor_model::specs::Jobs::count, monitor_model::specs::Jobs::calls_of))]
    pub fn count(&mut self, job: u32)
        requires job { job < length self.old }
        requires known { account_of self.old job ≢ None }
        requires room { calls_of self.old job < MOST_CALLS }
        ensures { self.new ≡ count self.old job }
    {
        self.jobs[job as usize].calls += 1;
    }

    /// Opens a channel of a job, or closes it.
    #[tactic(auto, unfolding(monitor_model::specs::Jobs::set_channel))]
    pub fn set_channel(&mut self, job: u32, channel: u8, entry: Option<ChannelEntry>)
        requires job { job < length self.old }
        requires channel { channel < 13 }
        requires known { entry ≢ None → account_of self.old job ≢ None }
        ensures { self.new ≡ set_channel self.old job channel entry }
    {
        let kept = &mut self.jobs[job as usize];
        kept.channels[channel as usize] = entry;
    }

    /// Ends a job: it has no account, no calls and no channel.
    #[tactic(auto, unfolding(monitor_model::specs::Jobs::end_job))]
    pub fn end(&mut self, job: u32)
        requires { job < length self.old }
        ensures { self.new ≡ end_job self.old job }
    {
        self.jobs[job as usize] = NOBODY;
    }
}

/// Returns whether a channel of the job is open on the file.
fn has_channel(name: &FileName, job: &JobEntry) -> bool
    ensures { result ≡ has_channel name.now job.now }
{
    job.channels.iter().any(|entry| is_on(name, entry))
}

/// Returns whether a channel is open on the file.
fn is_on(name: &FileName, entry: &Option<ChannelEntry>) -> bool
    ensures { result ≡ is_on name.now entry.now }
{
    match entry {
        Some(entry) => entry.name.is_same(name),
        None => false,
    }
}
