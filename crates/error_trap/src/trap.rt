//! The trap, and the three calls that change it.

ghost use Rattle.std.specs.Prelude.{◌≡◌};
ghost use Rattle.error_trap.specs.Trapping.{untouched, raised, resumed, handled_by};

use basic_values::{Fault, Halt};

/// A job's trap. Lines are those of the program, and a place is one of its code at top level.
#[derive(Clone, Copy)]
pub struct Trap {
    /// The line to which an error goes, if ON ERROR set one.
    pub handler: Option<u16>,
    /// Whether an error is being handled.
    pub active: bool,
    /// The number of the last trapped error, or 0 before the first: the manual's ERR.
    pub number: u8,
    /// The line of the statement in which it occurred: the manual's ERL.
    pub line: u16,
    /// The start of the statement at top level that was running then.
    pub place: u32,
}

/// What an error leads to: to the handler's line, or to the report that ends the program.
#[derive(Clone, Copy)]
pub enum Raised {
    Handle(u16),
    Report,
}

impl Trap {
    /// Returns a trap without a handler, before any error.
    pub fn new() -> Trap
        ensures { result ≡ untouched }
    {
        Trap {
            handler: None,
            active: false,
            number: 0,
            line: 0,
            place: 0,
        }
    }

    /// Handles an error that occurred. If there is a handler and no error is being handled, the
    /// trap keeps the error.
    pub fn raise(&mut self, fault: Fault, line: u16, place: u32) -> Raised
        ensures { (self.new, result) ≡ raised fault line place self.old }
    {
        let Some(handler) = self.handler else {
            return Raised::Report;
        };
        if self.active {
            return Raised::Report;
        }
        *self = Trap {
            handler: self.handler,
            active: true,
            number: fault.number(),
            line,
            place,
        };
        Raised::Handle(handler)
    }

    /// Ends the handling of the error, and returns the place of its statement: the manual's RESUME.
    pub fn resume(&mut self) -> Result<u32, Halt>
        ensures { (self.new, result) ≡ resumed self.old }
    {
        if !self.active {
            return Err(Halt::NoError);
        }
        self.active = false;
        Ok(self.place)
    }

    /// Sets the handler: the manual's ON ERROR. If the handler is removed while an error is being
    /// handled, returns that error and its line, to be reported.
    pub fn on_error(&mut self, handler: Option<u16>) -> Option<(Fault, u16)>
        ensures { (self.new, result) ≡ handled_by handler self.old }
    {
        self.handler = handler;
        if handler.is_none() && self.active {
            Some((Fault::new(self.number), self.line))
        } else {
            None
        }
    }
}
