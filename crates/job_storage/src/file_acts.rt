//! The statements on files.

ghost use Rattle.std.specs.Prelude.{◌≡◌, true, [], Some, IfOk};
ghost use Rattle.channels.specs.Files.{channel_to_open};
ghost use Rattle.job_model.specs.Follow.{Follows, answered_by};
ghost use Rattle.job_model.specs.Play as play;
ghost use Rattle.job_model.specs.Replies.{IsDoneOnly};
ghost use Rattle.program_model.specs.Storage as held;
ghost use Rattle.program_model.specs.FileActs.{is_tested, asks_done, file_said, record_and_mode};
ghost use Rattle.program_model.specs.FileActs.{opens_on, opens_said, open_act, record_size};
ghost use Rattle.program_model.specs.FileActs.{is_update, without_fields, close_act, shut_act};
ghost use Rattle.program_model.specs.FileActs.{get_act, put_act, unlock_act, kill_act, rename_act};
ghost use Rattle.program_model.specs.FileActs.{seconds_of, sleep_act, act_by};
ghost use Rattle.record_fields.specs.Layouts.{natural};
ghost use Rattle.record_fields.specs.Buffers.{IsChannel};

use crate::storage::Storage;
use crate::values::{behind_first, number_at, text_at};
use basic_values::errors::ILLEGAL_BYTE_COUNT;
use basic_values::{Fault, Int, Stop};
use file_names::{Spec, parse_spec};
use job_model::ask_done;
use monitor_calls::{OpenKind, Port, Request, Short};
use program_model::{FileAct, Value};
use record_fields::{RecordSize, natural};
use std::alloc::Global;

impl Storage {
    /// Does a statement on files, by the values of its operands.
    pub fn act<P: Port>(
        &mut self,
        alloc: Global,
        port: &mut P,
        act: &FileAct,
        values: &[Value],
    ) -> Result<(), Stop>
        ensures { (clock : play.Clock) → Follows P.who P.log port.old port.new clock clock
            (act_by act.now values.now self.old) (answered_by result self.new) }
    {
        match act {
            FileAct::Open(kind) => self.open(
                alloc,
                port,
                *kind,
                text_at(0, values),
                number_at(1, values),
                number_at(2, values),
                number_at(4, values),
            ),
            FileAct::Close => self.close(alloc, port, number_at(0, values)),
            FileAct::ShutAll => self.shut_all(alloc, port),
            FileAct::Get => self.get(alloc, port, number_at(0, values), number_at(1, values)),
            FileAct::Put => self.put(alloc, port, number_at(0, values), number_at(1, values)),
            FileAct::Unlock => self.unlock(alloc, port, number_at(0, values)),
            FileAct::Field(names) => {
                self.field(
                    alloc,
                    names.as_slice(),
                    number_at(0, values),
                    behind_first(values),
                )
            }
            FileAct::Kill => self.kill(alloc, port, text_at(0, values)),
            FileAct::Rename => self.rename(alloc, port, text_at(0, values), text_at(1, values)),
            FileAct::Sleep => self.sleep(alloc, port, number_at(0, values)),
        }
    }

    // OPEN

    /// Opens a file on a channel, with RECORDSIZE and MODE, which are 0 if they are left out. The
    /// manual's OPEN. Errors 46 outside 1 to 12, 7 if the channel is open, 31 of RECORDSIZE and
    /// MODE, 8 and 2 of the file's name, and those of the monitor.
    fn open<P: Port>(
        &mut self,
        alloc: Global,
        port: &mut P,
        kind: OpenKind,
        text: &[u8],
        channel: Int,
        bytes: Int,
        mode: Int,
    ) -> Result<(), Stop>
        ensures { (clock : play.Clock) → Follows P.who P.log port.old port.new clock clock
            (open_act kind text.now channel bytes mode self.old) (answered_by result self.new) }
    {
        let channel = self.channel_to_open(channel)?;
        let how = record_and_mode(bytes, mode)?;
        self.open_said(alloc, port, kind, text, channel, how)
    }

    fn open_said<P: Port>(
        &mut self,
        alloc: Global,
        port: &mut P,
        kind: OpenKind,
        text: &[u8],
        channel: u8,
        how: (RecordSize, bool),
    ) -> Result<(), Stop>
        requires { IsChannel channel }
        ensures { (clock : play.Clock) → Follows P.who P.log port.old port.new clock clock
            (opens_said kind text.now channel how self.old) (answered_by result self.new) }
    {
        let spec = self.file_said(text)?;
        self.open_on(alloc, port, kind, channel, how, spec)
    }

    fn open_on<P: Port>(
        &mut self,
        alloc: Global,
        port: &mut P,
        kind: OpenKind,
        channel: u8,
        how: (RecordSize, bool),
        spec: Spec,
    ) -> Result<(), Stop>
        requires { IsChannel channel }
        ensures { (clock : play.Clock) → Follows P.who P.log port.old port.new clock clock
            (opens_on kind channel how spec self.old) (answered_by result self.new) }
    {
        let (size, update) = how;
        self.channels.open_file(
            alloc,
            &mut self.buffers,
            port,
            channel,
            spec.name,
            kind,
            update,
            spec.code,
            size,
        )
    }

    /// Returns the channel of a number, for an OPEN; its error ends the statement.
    fn channel_to_open(&self, channel: Int) -> Result<u8, Stop>
        ensures tested { (s : held.Storage) → answered_by result s
            ≡ Some (is_tested (channel_to_open channel self.now.files.channels) s) }
        ensures channel { IfOk result IsChannel }
    {
        match self.channels.to_open(channel) {
            Ok(channel) => Ok(channel),
            Err(fault) => Err(Stop::Fault(fault)),
        }
    }

    /// Returns the file that a string names; its error ends the statement.
    fn file_said(&self, text: &[u8]) -> Result<Spec, Stop>
        ensures { (s : held.Storage) → answered_by result s
            ≡ Some (is_tested (file_said text.now self.now) s) }
    {
        match parse_spec(text, self.account, &no_extension()) {
            Ok(spec) => Ok(spec),
            Err(fault) => Err(Stop::Fault(fault)),
        }
    }

    // CLOSE

    /// Closes one channel, which may be closed already. What was fielded on it is empty then. The
    /// manual's CLOSE. Error 46 outside 1 to 12, and those of the monitor.
    fn close<P: Port>(&mut self, alloc: Global, port: &mut P, channel: Int) -> Result<(), Stop>
        ensures { (clock : play.Clock) → Follows P.who P.log port.old port.new clock clock
            (close_act channel self.old) (answered_by result self.new) }
    {
        let closed = self
            .channels
            .close_file(alloc, &mut self.buffers, port, channel)?;
        self.forget(closed);
        Ok(())
    }

    /// Empties what was fielded on a channel that was closed.
    fn forget(&mut self, closed: Option<u8>)
        ensures { self.new ≡ without_fields closed self.old }
    {
        if let Some(channel) = closed {
            self.memory.forget_channel(channel);
        }
    }

    /// Closes all channels implicitly, in increasing order. Refusals are ignored.
    pub fn shut_all<P: Port>(&mut self, alloc: Global, port: &mut P) -> Result<(), Stop>
        ensures { (clock : play.Clock) → Follows P.who P.log port.old port.new clock clock
            (shut_act self.old) (answered_by result self.new) }
    {
        self.channels.close_all(alloc, &mut self.buffers, port)?;
        self.memory.forget_all();
        Ok(())
    }

    // GET, PUT AND UNLOCK

    /// Reads a record into the channel's buffer. The manual's GET.
    fn get<P: Port>(
        &mut self,
        alloc: Global,
        port: &mut P,
        channel: Int,
        block: Int,
    ) -> Result<(), Stop>
        ensures { (clock : play.Clock) → Follows P.who P.log port.old port.new clock clock
            (get_act channel block self.old) (answered_by result self.new) }
    {
        self.channels
            .get(alloc, &mut self.buffers, port, channel, block)
    }

    /// Writes the channel's buffer as a record. The manual's PUT.
    fn put<P: Port>(
        &mut self,
        alloc: Global,
        port: &mut P,
        channel: Int,
        block: Int,
    ) -> Result<(), Stop>
        ensures { (clock : play.Clock) → Follows P.who P.log port.old port.new clock clock
            (put_act channel block self.old) (answered_by result self.new) }
    {
        self.channels
            .put(alloc, &self.buffers, port, channel, block)
    }

    /// Asks the monitor to release what the channel has locked. The manual's UNLOCK.
    fn unlock<P: Port>(&mut self, alloc: Global, port: &mut P, channel: Int) -> Result<(), Stop>
        ensures { (clock : play.Clock) → Follows P.who P.log port.old port.new clock clock
            (unlock_act channel self.old) (answered_by result self.new) }
    {
        self.channels.unlock(alloc, &self.buffers, port, channel)
    }

    // KILL, NAME AND SLEEP

    /// Deletes the file that a string names. The manual's KILL. Errors 8 and 2 of the name, and
    /// those of the monitor.
    fn kill<P: Port>(&mut self, alloc: Global, port: &mut P, text: &[u8]) -> Result<(), Stop>
        ensures { (clock : play.Clock) → Follows P.who P.log port.old port.new clock clock
            (kill_act text.now self.old) (answered_by result self.new) }
    {
        let spec = self.file_said(text)?;
        self.ask(alloc, port, Request::Kill { name: spec.name })
    }

    /// Gives the file that a string names the name, and the code, of another string. The manual's
    /// NAME.
    fn rename<P: Port>(
        &mut self,
        alloc: Global,
        port: &mut P,
        old: &[u8],
        new: &[u8],
    ) -> Result<(), Stop>
        ensures { (clock : play.Clock) → Follows P.who P.log port.old port.new clock clock
            (rename_act old.now new.now self.old) (answered_by result self.new) }
    {
        let old = self.file_said(old)?;
        let new = self.file_said(new)?;
        self.ask(
            alloc,
            port,
            Request::Rename {
                old: old.name,
                new: new.name,
                code: new.code,
            },
        )
    }

    /// Sleeps for this many seconds, or for none if the number is negative. The manual's SLEEP.
    fn sleep<P: Port>(&mut self, alloc: Global, port: &mut P, number: Int) -> Result<(), Stop>
        ensures { (clock : play.Clock) → Follows P.who P.log port.old port.new clock clock
            (sleep_act number self.old) (answered_by result self.new) }
    {
        self.ask(
            alloc,
            port,
            Request::Sleep {
                seconds: seconds_of(number),
            },
        )
    }

    /// Makes a request that is either done or refused.
    fn ask<P: Port>(&mut self, alloc: Global, port: &mut P, request: Request) -> Result<(), Stop>
        requires { IsDoneOnly true request }
        ensures { (clock : play.Clock) → Follows P.who P.log port.old port.new clock clock
            (asks_done request self.old) (answered_by result self.new) }
    {
        ask_done(alloc, port, request, true)
    }
}

/// Returns what RECORDSIZE and MODE mean; error 31 ends the statement.
fn record_and_mode(bytes: Int, mode: Int) -> Result<(RecordSize, bool), Stop>
    ensures { (s : held.Storage) → answered_by result s
        ≡ Some (is_tested (record_and_mode bytes mode) s) }
{
    match (record_size(bytes), is_update(mode)) {
        (Some(size), Some(update)) => Ok((size, update)),
        _ => Err(Stop::Fault(Fault::new(ILLEGAL_BYTE_COUNT))),
    }
}

/// Returns the records of RECORDSIZE, if there are such.
fn record_size(bytes: Int) -> Option<RecordSize>
    ensures { result ≡ record_size (natural bytes) }
{
    match natural(bytes) {
        Some(0 | 512) => Some(RecordSize::One),
        Some(1024) => Some(RecordSize::Two),
        Some(1536) => Some(RecordSize::Three),
        _ => None,
    }
}

/// Returns whether MODE locks a block that GET reads; none if it is not a mode.
fn is_update(mode: Int) -> Option<bool>
    ensures { result ≡ is_update (natural mode) }
{
    match natural(mode) {
        Some(0) => Some(false),
        Some(1) => Some(true),
        _ => None,
    }
}

/// Returns the extension of a name without one, which is empty.
fn no_extension() -> Short
    ensures { result ≡ [] }
{
    Short::of(b"").unwrap()
}

/// Returns the seconds of SLEEP.
fn seconds_of(number: Int) -> u16
    ensures { result ≡ seconds_of number }
{
    natural(number).unwrap_or(0)
}
