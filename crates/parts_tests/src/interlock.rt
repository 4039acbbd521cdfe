//! Which channel has locked a block.

ghost use Rattle.std.specs.Prelude.{◌≡◌};
ghost use Rattle.monitor_model.specs.Holds.{is_held};

use crate::expects::expect_none;
use crate::names::file;
use block_interlock::Holds;
use monitor_calls::FileName;
use std::alloc::Global;
use std::test::Fail;

/// What channels do, and what is asked of them. A channel is a job and its number; a block is that
/// of the first file or of the second.
#[derive(Clone, Copy)]
enum Step {
    /// A channel locks a block, if no other has it locked. The answer is whether it does.
    Hold(u32, u8, Named, u16),
    Release(u32, u8),
    ReleaseJob(u32),
    /// Whether a channel has locked a block, by the block and by the channel.
    Has(u32, u8, Named, u16),
    /// Whether no channel has locked a block.
    Free(Named, u16),
}

#[derive(Clone, Copy)]
enum Named {
    First,
    Second,
}

/// The interlock of two jobs, and two files.
#[derive(Drop)]
struct Two {
    holds: Holds,
    first: FileName,
    second: FileName,
    ghost two: { holds.jobs ≡ 2 },
}

impl Two {
    fn new(alloc: Global) -> Result<Two, Fail> {
        let (first, second) = (file(b"MASTER")?, file(b"OTHER")?);
        let holds = Holds::new(alloc, 2)?;
        Ok(Two {
            holds,
            first,
            second,
        })
    }

    fn name(&self, file: Named) -> FileName {
        match file {
            Named::First => self.first,
            Named::Second => self.second,
        }
    }

    /// Returns the answer to a step. It is false for a channel that does not exist.
    fn told(&mut self, step: Step) -> bool {
        match step {
            Step::Hold(job, channel, file, block) => self.hold(job, channel, file, block),
            Step::Release(job, channel) => self.release(job, channel),
            Step::ReleaseJob(job) => self.release_job(job),
            Step::Has(job, channel, file, block) => self.has(job, channel, file, block),
            Step::Free(file, block) => self.holds.holder(&self.name(file), block).is_none(),
        }
    }

    fn hold(&mut self, job: u32, channel: u8, file: Named, block: u16) -> bool {
        let name = self.name(file);
        if job >= 2 || channel >= 13 || is_held(&self.holds, job, channel, &name, block) {
            return false;
        }
        self.holds.hold(job, channel, name, block, 1);
        true
    }

    fn release(&mut self, job: u32, channel: u8) -> bool {
        if job >= 2 || channel >= 13 {
            return false;
        }
        self.holds.release(job, channel);
        true
    }

    fn release_job(&mut self, job: u32) -> bool {
        if job >= 2 {
            return false;
        }
        self.holds.release_job(job);
        true
    }

    fn has(&self, job: u32, channel: u8, file: Named, block: u16) -> bool {
        let name = self.name(file);
        let by_block = self.holds.holder(&name, block) == Some((job, channel));
        match self.holds.held_by(job, channel) {
            Some(run) => by_block
                && run.name.is_same(&name)
                && (run.block, run.count) == (block, 1),
            None => false,
        }
    }
}

/// Returns whether another channel has locked the block.
pub(crate) fn is_held(holds: &Holds, job: u32, channel: u8, name: &FileName, block: u16) -> bool
    ensures { result ≡ is_held holds.now.held job channel name.now block }
{
    match holds.holder(name, block) {
        Some((holding_job, holding)) => !(holding_job == job && holding == channel),
        None => false,
    }
}

static ROWS: [(Step, bool); 18] = [
    (Step::Free(Named::First, 7), true),
    (Step::Hold(0, 1, Named::First, 7), true),
    (Step::Has(0, 1, Named::First, 7), true),
    (Step::Hold(0, 2, Named::First, 7), false),
    (Step::Hold(1, 1, Named::First, 7), false),
    (Step::Hold(0, 1, Named::First, 7), true),
    (Step::Hold(1, 1, Named::First, 8), true),
    (Step::Hold(1, 12, Named::Second, 7), true),
    (Step::Hold(0, 1, Named::First, 9), true),
    (Step::Free(Named::First, 7), true),
    (Step::Has(0, 1, Named::First, 7), false),
    (Step::Release(1, 12), true),
    (Step::Free(Named::Second, 7), true),
    (Step::Has(1, 1, Named::First, 8), true),
    (Step::Hold(1, 0, Named::Second, 1), true),
    (Step::ReleaseJob(1), true),
    (Step::Free(Named::First, 8), true),
    (Step::Has(0, 1, Named::First, 9), true),
];

fn first_wrong(two: &mut Two) -> Option<usize> {
    for (place, (step, told)) in ROWS.iter().enumerate() {
        if two.told(*step) != *told {
            return Some(place);
        }
    }
    None
}

#[test]
fn a_channel_holds_one_block_and_a_block_has_one_channel(rt: HostRuntime) -> Result<(), Fail> {
    let mut two = Two::new(rt.alloc())?;
    expect_none(rt.alloc(), first_wrong(&mut two))
}
