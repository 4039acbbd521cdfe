//! Who has the printer.

ghost use Rattle.std.specs.Prelude.{◌≡◌, None, OnOk, OnErr};
ghost use Rattle.monitor_model.specs.Printing.{has_printer, is_anothers, is_assigned, is_printing};
ghost use Rattle.monitor_model.specs.Printing.{assign, open_printer, close_printer, free_printer};
ghost use Rattle.monitor_model.specs.Refusals.{RefusedBy};
ghost use Rattle.print_spool.specs.Calls.{assign_refusals, deassign_refusals, open_refusals};
ghost use Rattle.print_spool.specs.Calls.{print_refusals, close_refusals};

use basic_values::Fault;
use basic_values::errors::{ILLEGAL_BYTE_COUNT, IN_USE, NO_DEVICE, NOT_OPEN};
use basic_values::limits::LONGEST_MESSAGE;
use monitor_model::PrinterEntry;
use std::marker::Model;

/// The line printer: free, or a job's, which has it assigned, has a print job open on it, or both.
#[derive(Drop)]
pub struct Printer {
    entry: Option<PrinterEntry>,
}

impl Model for Printer {
    ghost use Rattle.monitor_model.specs.Printing.{Printer as PrinterValue};

    ghost Value = { PrinterValue };

    ghost view = { λ printer. printer.entry };
}

impl Printer {
    /// Returns a printer that is free.
    pub fn new() -> Printer
        ensures { result ≡ None }
    {
        Printer { entry: None }
    }

    /// Assigns the printer to a job, which then keeps it after its print jobs too. Fails with 8 if
    /// another job has it.
    pub fn assign(&mut self, job: u32) -> Result<(), Fault>
        ensures refused { RefusedBy (assign_refusals self.old job) result }
        ensures ok { OnOk result (self.new ≡ assign self.old job) }
        ensures err { OnErr result (self.new ≡ self.old) }
    {
        if self.is_anothers(job) {
            return Err(Fault::new(NO_DEVICE));
        }
        let printing = self.is_printing(job);
        self.entry = Some(PrinterEntry {
            job,
            assigned: true,
            printing,
        });
        Ok(())
    }

    /// Deassigns the printer. Fails with 9 if the job does not have it, and with 3 if the job has a
    /// print job open on it.
    pub fn deassign(&mut self, job: u32) -> Result<(), Fault>
        ensures refused { RefusedBy (deassign_refusals self.old job) result }
        ensures ok { OnOk result (self.new ≡ None) }
        ensures err { OnErr result (self.new ≡ self.old) }
    {
        if !self.is_own(job) {
            return Err(Fault::new(NOT_OPEN));
        }
        if self.is_printing(job) {
            return Err(Fault::new(IN_USE));
        }
        self.entry = None;
        Ok(())
    }

    /// Begins a print job of a job. Fails with 8 if another job has the printer, and with 3 if this
    /// one has a print job open on it.
    pub fn open(&mut self, job: u32) -> Result<(), Fault>
        ensures refused { RefusedBy (open_refusals self.old job) result }
        ensures ok { OnOk result (self.new ≡ open_printer self.old job) }
        ensures err { OnErr result (self.new ≡ self.old) }
    {
        if self.is_anothers(job) {
            return Err(Fault::new(NO_DEVICE));
        }
        if self.is_printing(job) {
            return Err(Fault::new(IN_USE));
        }
        let assigned = self.is_assigned(job);
        self.entry = Some(PrinterEntry {
            job,
            assigned,
            printing: true,
        });
        Ok(())
    }

    /// Checks whether a job may print a string of this many bytes. Fails with 9 if it has no print
    /// job open, and with 31 if the string is longer than 512 bytes.
    pub fn print(&self, job: u32, length: u32) -> Result<(), Fault>
        ensures { RefusedBy (print_refusals self.now job length) result }
    {
        if !self.is_printing(job) {
            return Err(Fault::new(NOT_OPEN));
        }
        if length as usize > LONGEST_MESSAGE {
            return Err(Fault::new(ILLEGAL_BYTE_COUNT));
        }
        Ok(())
    }

    /// Ends a job's print job. The printer is then free unless the job has it assigned. Fails with
    /// 9 if the job has no print job open.
    pub fn close(&mut self, job: u32) -> Result<(), Fault>
        ensures refused { RefusedBy (close_refusals self.old job) result }
        ensures ok { OnOk result (self.new ≡ close_printer self.old job) }
        ensures err { OnErr result (self.new ≡ self.old) }
    {
        if !self.is_printing(job) {
            return Err(Fault::new(NOT_OPEN));
        }
        self.entry = if self.is_assigned(job) {
            Some(PrinterEntry {
                job,
                assigned: true,
                printing: false,
            })
        } else {
            None
        };
        Ok(())
    }

    /// Ends what a job has of the printer, at the end of the job.
    pub fn end(&mut self, job: u32)
        ensures { self.new ≡ free_printer self.old job }
    {
        if self.is_own(job) {
            self.entry = None;
        }
    }

    fn is_own(&self, job: u32) -> bool
        ensures { result ≡ has_printer self.now job }
    {
        self.entry.is_some_and(|entry| entry.job == job)
    }

    fn is_anothers(&self, job: u32) -> bool
        ensures { result ≡ is_anothers self.now job }
    {
        self.entry.is_some_and(|entry| entry.job != job)
    }

    fn is_assigned(&self, job: u32) -> bool
        ensures { result ≡ is_assigned self.now job }
    {
        self.entry
            .is_some_and(|entry| entry.job == job && entry.assigned)
    }

    fn is_printing(&self, job: u32) -> bool
        ensures { result ≡ is_printing self.now job }
    {
        self.entry
            .is_some_and(|entry| entry.job == job && entry.printing)
    }
}
