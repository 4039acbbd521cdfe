//! The holds.

ghost use Rattle.std.specs.Prelude.{◌≡◌, ◌<◌, ◌≤◌, false, None, length, vec_capacity, IfOk};
ghost use Rattle.std.specs.FinMap.{empty};
ghost use Rattle.basic_values.specs.declared.limits.TheConstants.{JOB_CHANNELS, MOST_JOBS};
ghost use Rattle.monitor_model.specs.Holds.{holder, hold, release, release_job, any_held};
ghost use Rattle.block_interlock.specs.Fields.{field_at, HasField, HasFields, IsKept, LetsGo};
ghost use Rattle.block_interlock.specs.Fields.{LetGoBelow};
ghost use Rattle.block_interlock.specs.Index.{AreFree, HeldByOne};
ghost use Rattle.block_interlock.specs.Interlock.{IsHeldBy};
ghost use Rattle.block_interlock.specs.Runs.{IsShort};

use crate::index::{Hold, add_all, drop_all, seek};
use crate::runs::Run;
use basic_values::NoMemory;
use basic_values::limits::{JOB_CHANNELS, MOST_RECORD_BLOCKS};
use monitor_calls::FileName;
use std::alloc::Global;
use std::marker::Model;

/// What the channels of all jobs hold: a field for each channel, and an index by name and block.
#[derive(Drop)]
pub struct Holds {
    jobs: u32,
    fields: Vec<Option<Run>>,
    index: Vec<Hold>,
}

impl Model for Holds {
    ghost use Rattle.block_interlock.specs.Interlock.{Interlock, coded_interlock};

    ghost Value = { Interlock };

    ghost coded = { coded_interlock };

    ghost use Rattle.std.specs.Prelude.{vec_capacity};
    ghost use Rattle.block_interlock.specs.Index.{map_of};
    ghost use Rattle.block_interlock.specs.Fields.{AreHolds};

    ghost view = { λ h. record { jobs = h.jobs; held = map_of h.index.items } };

    ghost invariant = { λ h. AreHolds h.jobs h.fields.items h.index.items (vec_capacity h.index) };
}

impl Holds {
    /// Returns the state in which no block is held. It takes all memory for the channels of this
    /// many jobs.
    pub fn new(alloc: Global, jobs: u32) -> Result<Holds, NoMemory>
        requires { jobs ≤ MOST_JOBS }
        ensures jobs { IfOk result (λ h. h.jobs ≡ jobs) }
        ensures held { IfOk result (λ h. h.held ≡ empty) }
    {
        let channels = jobs as usize * JOB_CHANNELS;
        let mut fields = Vec::new(alloc);
        fields.resize(channels, None)?;
        let index = Vec::with_capacity(alloc, channels * MOST_RECORD_BLOCKS as usize)?;
        Ok(Holds {
            jobs,
            fields,
            index,
        })
    }

    /// Returns how many jobs there are.
    pub fn jobs(&self) -> u32
        ensures { result ≡ self.now.jobs }
    {
        self.jobs
    }

    /// Returns the job and the channel that hold a block.
    pub fn holder(&self, name: &FileName, block: u16) -> Option<(u32, u8)>
        ensures { result ≡ holder self.now.held name.now block }
    {
        match seek(self.index.as_slice(), name, block) {
            Ok(place) => {
                let hold = &self.index[place];
                Some((hold.job, hold.channel))
            }
            Err(_) => None,
        }
    }

    /// Returns the blocks that a channel holds. None if it holds none, or does not exist.
    pub fn held_by(&self, job: u32, channel: u8) -> Option<Run>
        ensures { IsHeldBy self.now.held job channel result }
    {
        if job >= self.jobs || channel as usize >= JOB_CHANNELS {
            return None;
        }
        self.fields[job as usize * JOB_CHANNELS + channel as usize]
    }

    /// Releases what a channel holds. It takes no memory.
    pub fn release(&mut self, job: u32, channel: u8)
        requires job { job < self.old.jobs }
        requires channel { channel < JOB_CHANNELS }
        ensures jobs { self.new.jobs ≡ self.old.jobs }
        ensures held { self.new.held ≡ release self.old.held job channel }
    {
        let_go(&mut self.fields, &mut self.index, job, channel);
    }

    /// Releases what all channels of a job hold. It takes no memory.
    pub fn release_job(&mut self, job: u32)
        requires { job < self.old.jobs }
        ensures jobs { self.new.jobs ≡ self.old.jobs }
        ensures held { self.new.held ≡ release_job self.old.held job }
    {
        let_all_go(&mut self.fields, &mut self.index, job);
    }

    /// Makes a channel hold this many blocks of a file from this one on, and no other. None of them
    /// may be another channel's. It takes no memory.
    pub fn hold(&mut self, job: u32, channel: u8, name: FileName, block: u16, count: u8)
        requires job { job < self.old.jobs }
        requires channel { channel < JOB_CHANNELS }
        requires short { IsShort block count }
        requires free { any_held self.old.held job channel name block count ≡ false }
        ensures jobs { self.new.jobs ≡ self.old.jobs }
        ensures held { self.new.held ≡ hold self.old.held job channel name block count }
    {
        let_go(&mut self.fields, &mut self.index, job, channel);
        let run = Run { name, block, count };
        take_up(&mut self.fields, &mut self.index, job, channel, &run);
    }
}

/// Releases what a channel holds.
fn let_go(fields: &mut Vec<Option<Run>>, index: &mut Vec<Hold>, job: u32, channel: u8)
    requires kept { IsKept fields.old.items index.old.items (vec_capacity index.old) }
    requires field { HasField fields.old.items job channel }
    ensures kept { IsKept fields.new.items index.new.items (vec_capacity index.new) }
    ensures width { length fields.new.items ≡ length fields.old.items }
    ensures gone { LetsGo job channel index.old.items fields.new.items index.new.items }
{
    let slot = job as usize * JOB_CHANNELS + channel as usize;
    if let Some(held) = fields[slot] {
        fields[slot] = None;
        drop_all(index, &held);
    }
}

/// Releases what all channels of a job hold.
fn let_all_go(fields: &mut Vec<Option<Run>>, index: &mut Vec<Hold>, job: u32)
    requires kept { IsKept fields.old.items index.old.items (vec_capacity index.old) }
    requires fields { HasFields fields.old.items job }
    ensures kept { IsKept fields.new.items index.new.items (vec_capacity index.new) }
    ensures width { length fields.new.items ≡ length fields.old.items }
    ensures gone { LetGoBelow job JOB_CHANNELS index.old.items index.new.items }
{
    for channel in 0..JOB_CHANNELS as u8 {
        let_go(fields, index, job, channel);
    }
}

/// Makes a channel that holds nothing hold blocks that nobody holds.
fn take_up(fields: &mut Vec<Option<Run>>, index: &mut Vec<Hold>, job: u32, channel: u8, run: &Run)
    requires kept { IsKept fields.old.items index.old.items (vec_capacity index.old) }
    requires field { HasField fields.old.items job channel }
    requires empty { field_at fields.old.items job channel ≡ None }
    requires short { IsShort run.now.block run.now.count }
    requires free { AreFree run.now index.old.items }
    ensures kept { IsKept fields.new.items index.new.items (vec_capacity index.new) }
    ensures width { length fields.new.items ≡ length fields.old.items }
    ensures taken { HeldByOne run.now job channel index.old.items index.new.items }
{
    fields[job as usize * JOB_CHANNELS + channel as usize] = Some(*run);
    add_all(index, run, job, channel);
}
