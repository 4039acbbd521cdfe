//! The table entries that read and write records of several blocks through a channel.

ghost use Rattle.std.specs.Prelude.{◌≡◌, ◌+◌, ◌-◌, true, length, IfOk, IsOk, OnOk, OnErr};
ghost use Rattle.monitor_model.specs.Files.{is_block};
ghost use Rattle.monitor_model.specs.Jobs.{the_channel};
ghost use Rattle.monitor_model.specs.Good.{GoodJobs, GoodHolds};
ghost use Rattle.monitor_calls.specs.declared.calls.Request.TheVariants as request;
ghost use Rattle.monitor_core.specs.Rows.{row, IsCaller};

use crate::parts::{Caller, Parts, failed, refused};
use crate::readings::is_record;
use crate::writings::write_all;
use basic_values::errors::{
    END_OF_FILE, ILLEGAL_BYTE_COUNT, INTERLOCKED, NO_ROOM, PROTECTION_VIOLATION,
};
use basic_values::{NoMemory, Series};
use monitor_calls::{Page, Reply};

impl Parts {
    /// Reads blocks, up to the end of the file. A channel for update then holds them, and no other.
    pub(crate) fn get_record(
        &mut self,
        caller: Caller,
        channel: u8,
        block: u16,
        count: u8,
    ) -> Result<Reply, NoMemory>
        requires caller { IsCaller self.old caller }
        requires good { GoodHolds self.old }
        ensures reply { IfOk result (λ r.
            r ≡ (row self.old caller (request.GetRecord channel block count)).1) }
        ensures state { OnOk result (
            self.new ≡ (row self.old caller (request.GetRecord channel block count)).0) }
        ensures memory { OnErr result (self.new ≡ self.old) }
    {
        let at = match self.on_open(caller.job, channel) {
            Ok(at) => at,
            Err(fault) => return Ok(Reply::Failed(fault)),
        };
        if !at.read {
            return Ok(failed(PROTECTION_VIOLATION));
        }
        if !is_record(count as usize) {
            return Ok(failed(ILLEGAL_BYTE_COUNT));
        }
        if !self.is_block(&at.name, block) {
            return Ok(failed(END_OF_FILE));
        }
        let read = self.blocks_read(&at.name, block, count);
        if self.any_held(caller.job, channel, &at.name, block, read) {
            return Ok(failed(INTERLOCKED));
        }
        let pages = self.pages_read(self.alloc, &at.name, block, read)?;
        if at.update {
            self.holds.hold(caller.job, channel, at.name, block, read);
        }
        Ok(Reply::Record(pages))
    }

    /// Writes blocks, and releases what the channel held. It takes memory only if the file grows.
    #[tactic(auto, using(monitor_model::proofs::RecordLemmas::record_few))]
    pub(crate) fn put_record(
        &mut self,
        caller: Caller,
        channel: u8,
        block: u16,
        pages: &Series<Page>,
    ) -> Result<Reply, NoMemory>
        requires caller { IsCaller self.old caller }
        requires jobs { GoodJobs self.old }
        requires holds { GoodHolds self.old }
        ensures reply { IfOk result (λ r.
            r ≡ (row self.old caller (request.PutRecord channel block pages.now)).1) }
        ensures state { OnOk result (
            self.new ≡ (row self.old caller (request.PutRecord channel block pages.now)).0) }
        ensures memory { OnErr result (self.new ≡ self.old) }
        ensures within { is_block self.old.files (the_channel self.old.jobs caller.job channel).name
            (block + length pages.now - 1) ≡ true → IsOk result }
    {
        let at = match self.on_open(caller.job, channel) {
            Ok(at) => at,
            Err(fault) => return Ok(Reply::Failed(fault)),
        };
        if !at.write {
            return Ok(failed(PROTECTION_VIOLATION));
        }
        let pages = pages.as_slice();
        if block == 0 || !is_record(pages.len()) {
            return Ok(failed(ILLEGAL_BYTE_COUNT));
        }
        let count = pages.len() as u8;
        if self.any_held(caller.job, channel, &at.name, block, count) {
            return Ok(failed(INTERLOCKED));
        }
        if self.passes_quota(&at.name, block as u32 + count as u32 - 1) {
            return Ok(failed(NO_ROOM));
        }
        if let Err(trouble) = write_all(&mut self.disk, &at.name, block, pages) {
            return refused(trouble);
        }
        self.holds.release(caller.job, channel);
        Ok(Reply::Done)
    }
}
