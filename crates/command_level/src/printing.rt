//! The commands on the printer: ASSIGN, DEASSIGN and QUE.

ghost use Rattle.std.specs.Prelude.{◌≡◌};
ghost use Rattle.job_model.specs.Play as play;
ghost use Rattle.job_model.specs.Follow.{Follows, unless_memory};
ghost use Rattle.program_files.specs.Listings.{assigns, deassigns, prints_file};
ghost use Rattle.session_model.specs.ProgramFiles.{listing_extension, listed_spec};
ghost use Rattle.session_model.specs.Talk.{on_printer, queues};
ghost use Rattle.command_level.specs.Seen.{seen};
ghost use Rattle.command_level.specs.AfterLines.{goes};

use crate::session::{AfterLine, ILLEGAL_COMMAND, Session};
use basic_values::{Fault, NoMemory};
use file_names::{Spec, parse_spec};
use monitor_calls::{Account, Port, Short};
use program_files::{assign_printer, deassign_printer, print_file};
use std::alloc::Global;

impl Session {
    /// Assigns the printer to the job. The manual's ASSIGN LP:.
    pub(crate) fn assign<P: Port>(
        &mut self,
        alloc: Global,
        port: &mut P,
    ) -> Result<AfterLine, NoMemory>
        ensures { (clock : play.Clock) → Follows P.who P.log port.old port.new clock clock
            (on_printer assigns (seen self.old))
            (unless_memory result (λ onward. goes onward (seen self.new))) }
    {
        match assign_printer(alloc, port) {
            Ok(()) => self.answer(b""),
            Err(stop) => self.break_off(stop),
        }
    }

    /// Releases the printer. The manual's DEASSIGN LP:.
    pub(crate) fn deassign<P: Port>(
        &mut self,
        alloc: Global,
        port: &mut P,
    ) -> Result<AfterLine, NoMemory>
        ensures { (clock : play.Clock) → Follows P.who P.log port.old port.new clock clock
            (on_printer deassigns (seen self.old))
            (unless_memory result (λ onward. goes onward (seen self.new))) }
    {
        match deassign_printer(alloc, port) {
            Ok(()) => self.answer(b""),
            Err(stop) => self.break_off(stop),
        }
    }

    /// Prints a file. The manual's QUE.
    pub(crate) fn queue<P: Port>(
        &mut self,
        alloc: Global,
        own: Account,
        tail: &[u8],
        port: &mut P,
    ) -> Result<AfterLine, NoMemory>
        ensures { (clock : play.Clock) → Follows P.who P.log port.old port.new clock clock
            (queues own tail.now (seen self.old))
            (unless_memory result (λ onward. goes onward (seen self.new))) }
    {
        match listed_spec(own, tail) {
            Ok(spec) => self.print(alloc, &spec, port),
            Err(_) => self.answer(ILLEGAL_COMMAND),
        }
    }

    /// Does QUE of the file that is named.
    fn print<P: Port>(
        &mut self,
        alloc: Global,
        spec: &Spec,
        port: &mut P,
    ) -> Result<AfterLine, NoMemory>
        ensures { (clock : play.Clock) → Follows P.who P.log port.old port.new clock clock
            (on_printer (prints_file spec.now.name spec.now.code) (seen self.old))
            (unless_memory result (λ onward. goes onward (seen self.new))) }
    {
        match print_file(alloc, port, spec.name, spec.code) {
            Ok(()) => self.answer(b""),
            Err(stop) => self.break_off(stop),
        }
    }
}

/// Returns the file that is to be printed, or the error of its name.
fn listed_spec(own: Account, text: &[u8]) -> Result<Spec, Fault>
    ensures { result ≡ listed_spec own text.now }
{
    parse_spec(text, own, &listing_extension())
}

/// Returns the extension of files to be printed.
fn listing_extension() -> Short
    ensures { result ≡ listing_extension }
{
    Short::password(b"LST").unwrap()
}
