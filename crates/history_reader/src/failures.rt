//! Why a line is not read.

ghost use Rattle.std.specs.Prelude.{◌≡◌};
ghost use Rattle.history_reader.specs.LineErrors.{trouble_at_line};

use basic_values::{NoMemory, Trouble};
use std::alloc::{AllocError, AllocFailed};

/// Why a line is not read.
#[derive(Clone, Copy)]
pub(crate) enum LineError {
    /// It is not the line of an entry.
    Wrong,
    Memory,
}

impl LineError {
    /// Returns the failure of the line after this many good lines.
    pub(crate) fn at(self, good: usize) -> Trouble<usize>
        ensures { result ≡ trouble_at_line self good }
    {
        match self {
            LineError::Wrong => Trouble::Refused(good),
            LineError::Memory => Trouble::NoMemory,
        }
    }
}

impl From<AllocError> for LineError {
    ghost use Rattle.history_reader.specs.declared.failures.LineError.TheVariants.{Memory};

    ghost from_gives = { λ _ e. e ≡ Memory };

    fn from(_error: AllocError) -> LineError {
        LineError::Memory
    }
}

impl<T: Drop> From<AllocFailed<T>> for LineError {
    ghost use Rattle.history_reader.specs.declared.failures.LineError.TheVariants.{Memory};

    ghost from_gives = { λ _ e. e ≡ Memory };

    fn from(_error: AllocFailed<T>) -> LineError {
        LineError::Memory
    }
}

impl From<NoMemory> for LineError {
    ghost use Rattle.history_reader.specs.declared.failures.LineError.TheVariants.{Memory};

    ghost from_gives = { λ _ e. e ≡ Memory };

    fn from(_error: NoMemory) -> LineError {
        LineError::Memory
    }
}
