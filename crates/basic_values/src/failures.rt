//! Why a call returns no value: an error that a program can trap, a halt that it cannot, or no
//! memory.

ghost use Rattle.std.specs.Prelude.{◌≡◌};

use std::alloc::{AllocError, AllocFailed};
use std::error::Error;
use std::fmt;
use std::marker::Model;

/// The number of an error in the manual's table. A program only sees numbers from 1 to 70.
#[derive(Clone, Copy, Debug, PartialEq, Eq, PartialOrd, Ord)]
pub struct Fault(u8);

impl Model for Fault {
    ghost use Rattle.std.specs.Prelude.{ℕ};

    ghost Value = { ℕ };

    ghost view = { λ f. f.0 };

    ghost inverse = { λ n. record { 0 = n } };
}

impl Fault {
    /// Returns the error with this number.
    pub fn new(number: u8) -> Fault
        ensures { result ≡ number }
    {
        Fault(number)
    }

    /// Returns the number in the manual's table.
    pub fn number(self) -> u8
        ensures { result ≡ self }
    {
        self.0
    }
}

/// Why a program stops and cannot trap it: the manual's halts.
#[derive(Clone, Copy, Debug, PartialEq, Eq)]
pub enum Halt {
    /// A RETURN when no return place is kept.
    NoGosub,
    /// Too many return places of GOSUB, or function calls nested too deep.
    TooDeep,
    /// A variable, an element or an array would exceed the job's memory.
    RoomFull,
    /// A RESUME when no error is being handled.
    NoError,
    /// A string of more than 32,767 bytes.
    TooLong,
}

/// Memory ran out. This is the only failure that may come at any time; every other has a cause that
/// a rule names.
#[derive(Clone, Copy, Debug, PartialEq, Eq)]
pub struct NoMemory;

impl fmt::Display for NoMemory {
    fn fmt<W: fmt::Write>(&self, f: &mut fmt::Formatter<W>) -> fmt::Result {
        write!(f, "no memory")
    }
}

impl Error for NoMemory {}

impl From<AllocError> for NoMemory {
    fn from(_error: AllocError) -> NoMemory {
        NoMemory
    }
}

impl<T: Drop> From<AllocFailed<T>> for NoMemory {
    fn from(_error: AllocFailed<T>) -> NoMemory {
        NoMemory
    }
}

/// A rejection with its cause, or no memory.
#[derive(Clone, Copy, Debug, PartialEq, Eq)]
pub enum Trouble<F> {
    Refused(F),
    NoMemory,
}

impl<F> From<NoMemory> for Trouble<F> {
    ghost use Rattle.basic_values.specs.declared.failures.Trouble.TheVariants as trouble;

    ghost from_gives = { λ _ e. e ≡ trouble.NoMemory };

    fn from(_error: NoMemory) -> Trouble<F> {
        Trouble::NoMemory
    }
}

/// Why a statement stops before its end.
#[derive(Clone, Copy, Debug, PartialEq, Eq)]
pub enum Stop {
    Fault(Fault),
    Halt(Halt),
    /// The job's limit of calls is reached.
    Expired,
    NoMemory,
}

impl From<NoMemory> for Stop {
    ghost use Rattle.basic_values.specs.declared.failures.Stop.TheVariants as stop;

    ghost from_gives = { λ _ e. e ≡ stop.NoMemory };

    fn from(_error: NoMemory) -> Stop {
        Stop::NoMemory
    }
}
