//! Why a line was not taken.

ghost use Rattle.std.specs.Prelude.{◌≡◌};
ghost use Rattle.deck_reader.specs.Seen.{trouble_at};

use basic_values::{NoMemory, Trouble};
use deck_model::{DeckCause, DeckFault};
use std::alloc::{AllocError, AllocFailed};

/// Why a line was not taken.
#[derive(Clone, Copy)]
pub(crate) enum ReadError {
    Memory,
    Refused(DeckCause),
}

impl ReadError {
    /// Returns the failure of the line of this number.
    pub(crate) fn at(self, line: u32) -> Trouble<DeckFault>
        ensures { result ≡ trouble_at self line }
    {
        match self {
            ReadError::Memory => Trouble::NoMemory,
            ReadError::Refused(cause) => Trouble::Refused(DeckFault { line, cause }),
        }
    }
}

impl From<AllocError> for ReadError {
    ghost use Rattle.deck_reader.specs.declared.failures.ReadError.TheVariants.{Memory};

    ghost from_gives = { λ _ e. e ≡ Memory };

    fn from(_error: AllocError) -> ReadError {
        ReadError::Memory
    }
}

impl<T: Drop> From<AllocFailed<T>> for ReadError {
    ghost use Rattle.deck_reader.specs.declared.failures.ReadError.TheVariants.{Memory};

    ghost from_gives = { λ _ e. e ≡ Memory };

    fn from(_error: AllocFailed<T>) -> ReadError {
        ReadError::Memory
    }
}

impl From<NoMemory> for ReadError {
    ghost use Rattle.deck_reader.specs.declared.failures.ReadError.TheVariants.{Memory};

    ghost from_gives = { λ _ e. e ≡ Memory };

    fn from(_error: NoMemory) -> ReadError {
        ReadError::Memory
    }
}

impl From<DeckCause> for ReadError {
    ghost use Rattle.deck_reader.specs.declared.failures.ReadError.TheVariants.{Refused};

    ghost from_gives = { λ cause e. e ≡ Refused cause };

    fn from(cause: DeckCause) -> ReadError {
        ReadError::Refused(cause)
    }
}
