//! The table entries that read and write through a channel.

ghost use Rattle.std.specs.Prelude.{◌≡◌, true, IfOk, IsOk, OnOk, OnErr};
ghost use Rattle.monitor_model.specs.Files.{is_block};
ghost use Rattle.monitor_model.specs.Jobs.{the_channel};
ghost use Rattle.monitor_model.specs.Good.{GoodJobs};
ghost use Rattle.monitor_calls.specs.declared.calls.Request.TheVariants as request;
ghost use Rattle.monitor_core.specs.Rows.{row, IsCaller};

use crate::parts::{Caller, Parts, failed, refused};
use basic_values::NoMemory;
use basic_values::errors::{
    END_OF_FILE, ILLEGAL_BYTE_COUNT, INTERLOCKED, NO_ROOM, PROTECTION_VIOLATION,
};
use monitor_calls::{Page, Reply};

impl Parts {
    /// Closes a channel, which releases what it held.
    #[tactic(auto, using(monitor_model::proofs::Counting::as_many_jobs))]
    pub(crate) fn close_file(&mut self, caller: Caller, channel: u8) -> Reply
        requires { IsCaller self.old caller }
        ensures reply { result ≡ (row self.old caller (request.CloseFile channel)).1 }
        ensures state { self.new ≡ (row self.old caller (request.CloseFile channel)).0 }
    {
        if let Err(fault) = self.on_open(caller.job, channel) {
            return Reply::Failed(fault);
        }
        self.jobs.set_channel(caller.job, channel, None);
        self.holds.release(caller.job, channel);
        Reply::Done
    }

    /// Releases what a channel holds.
    pub(crate) fn unlock(&mut self, caller: Caller, channel: u8) -> Reply
        requires { IsCaller self.old caller }
        ensures reply { result ≡ (row self.old caller (request.Unlock channel)).1 }
        ensures state { self.new ≡ (row self.old caller (request.Unlock channel)).0 }
    {
        if let Err(fault) = self.on_open(caller.job, channel) {
            return Reply::Failed(fault);
        }
        self.holds.release(caller.job, channel);
        Reply::Done
    }

    /// Reads a block into the page. A channel for update then holds it, and nothing else.
    pub(crate) fn get(&mut self, caller: Caller, channel: u8, block: u16, page: Page) -> Reply
        requires { IsCaller self.old caller }
        ensures reply { result ≡ (row self.old caller (request.Get channel block)).1 }
        ensures state { self.new ≡ (row self.old caller (request.Get channel block)).0 }
    {
        let at = match self.on_open(caller.job, channel) {
            Ok(at) => at,
            Err(fault) => return Reply::Failed(fault),
        };
        if !at.read {
            return failed(PROTECTION_VIOLATION);
        }
        let mut page = page;
        if self.disk.read(&at.name, block, &mut page).is_err() {
            return failed(END_OF_FILE);
        }
        if self.is_held(caller.job, channel, &at.name, block) {
            return failed(INTERLOCKED);
        }
        if at.update {
            self.holds.hold(caller.job, channel, at.name, block, 1);
        }
        Reply::Block(page)
    }

    /// Writes a block, and releases what the channel held. It takes memory only if the file grows.
    pub(crate) fn put(
        &mut self,
        caller: Caller,
        channel: u8,
        block: u16,
        page: &Page,
    ) -> Result<Reply, NoMemory>
        requires caller { IsCaller self.old caller }
        requires good { GoodJobs self.old }
        ensures reply { IfOk result (λ r.
            r ≡ (row self.old caller (request.Put channel block page.now)).1) }
        ensures state { OnOk result (
            self.new ≡ (row self.old caller (request.Put channel block page.now)).0) }
        ensures memory { OnErr result (self.new ≡ self.old) }
        ensures within { is_block self.old.files
            (the_channel self.old.jobs caller.job channel).name block ≡ true
            → IsOk result }
    {
        let at = match self.on_open(caller.job, channel) {
            Ok(at) => at,
            Err(fault) => return Ok(Reply::Failed(fault)),
        };
        if !at.write {
            return Ok(failed(PROTECTION_VIOLATION));
        }
        if block == 0 {
            return Ok(failed(ILLEGAL_BYTE_COUNT));
        }
        if self.is_held(caller.job, channel, &at.name, block) {
            return Ok(failed(INTERLOCKED));
        }
        if self.passes_quota(&at.name, block as u32) {
            return Ok(failed(NO_ROOM));
        }
        if let Err(trouble) = self.disk.write(&at.name, block, page) {
            return refused(trouble);
        }
        self.holds.release(caller.job, channel);
        Ok(Reply::Done)
    }
}
