//! The table entries on the line printer.

ghost use Rattle.std.specs.Prelude.{◌≡◌};
ghost use Rattle.monitor_calls.specs.declared.calls.Request.TheVariants as request;
ghost use Rattle.monitor_core.specs.Rows.{row};

use crate::parts::{Caller, Parts};
use basic_values::Text;
use monitor_calls::Reply;

impl Parts {
    /// Assigns the printer to the job.
    pub(crate) fn assign(&mut self, caller: Caller) -> Reply
        ensures reply { result ≡ (row self.old caller request.Assign).1 }
        ensures state { self.new ≡ (row self.old caller request.Assign).0 }
    {
        match self.printer.assign(caller.job) {
            Ok(()) => Reply::Done,
            Err(fault) => Reply::Failed(fault),
        }
    }

    /// Deassigns the printer.
    pub(crate) fn deassign(&mut self, caller: Caller) -> Reply
        ensures reply { result ≡ (row self.old caller request.Deassign).1 }
        ensures state { self.new ≡ (row self.old caller request.Deassign).0 }
    {
        match self.printer.deassign(caller.job) {
            Ok(()) => Reply::Done,
            Err(fault) => Reply::Failed(fault),
        }
    }

    /// Begins a print job.
    pub(crate) fn open_printer(&mut self, caller: Caller) -> Reply
        ensures reply { result ≡ (row self.old caller request.OpenPrinter).1 }
        ensures state { self.new ≡ (row self.old caller request.OpenPrinter).0 }
    {
        match self.printer.open(caller.job) {
            Ok(()) => Reply::Done,
            Err(fault) => Reply::Failed(fault),
        }
    }

    /// Prints a string, which is kept only in the history.
    pub(crate) fn print(&self, caller: Caller, text: &Text) -> Reply
        ensures { result ≡ (row self.now caller (request.Print text.now)).1 }
    {
        match self.printer.print(caller.job, text.as_bytes().len() as u32) {
            Ok(()) => Reply::Done,
            Err(fault) => Reply::Failed(fault),
        }
    }

    /// Ends a print job.
    pub(crate) fn close_printer(&mut self, caller: Caller) -> Reply
        ensures reply { result ≡ (row self.old caller request.ClosePrinter).1 }
        ensures state { self.new ≡ (row self.old caller request.ClosePrinter).0 }
    {
        match self.printer.close(caller.job) {
            Ok(()) => Reply::Done,
            Err(fault) => Reply::Failed(fault),
        }
    }
}
