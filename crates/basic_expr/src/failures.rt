//! What a parsing call returns: a tree and the place after it, or why there is none.

ghost use Rattle.std.specs.Prelude.{◌≡◌};
ghost use Rattle.basic_expr.specs.Failures.{IsNear, trouble_of};

use basic_tree::{Cause, Expr, Refusal};
use basic_values::{NoMemory, Trouble};
use std::alloc::{AllocError, AllocFailed};

/// Why nothing was parsed. The place is that of a word, from 0.
#[derive(Clone, Copy, PartialEq, Eq)]
pub enum Failure {
    NoMemory,
    /// No line can have this word after those before it.
    Wrong { place: usize },
    /// This word opens a level of nesting too many.
    TooDeep { place: usize },
}

impl Failure {
    /// Returns the failure as a rejection with its cause.
    pub fn trouble(self) -> Trouble<Refusal>
        requires { IsNear self }
        ensures { result ≡ trouble_of self }
    {
        match self {
            Failure::NoMemory => Trouble::NoMemory,
            Failure::Wrong { place } => Trouble::Refused(Refusal {
                place: place as u16,
                cause: Cause::Syntax,
            }),
            Failure::TooDeep { place } => Trouble::Refused(Refusal {
                place: place as u16,
                cause: Cause::TooDeep,
            }),
        }
    }
}

impl From<AllocError> for Failure {
    ghost use Rattle.basic_expr.specs.declared.failures.Failure.TheVariants as failure;

    ghost from_gives = { λ _ e. e ≡ failure.NoMemory };

    fn from(_error: AllocError) -> Failure {
        Failure::NoMemory
    }
}

impl<T: Drop> From<AllocFailed<T>> for Failure {
    ghost use Rattle.basic_expr.specs.declared.failures.Failure.TheVariants as failure;

    ghost from_gives = { λ _ e. e ≡ failure.NoMemory };

    fn from(_error: AllocFailed<T>) -> Failure {
        Failure::NoMemory
    }
}

impl From<NoMemory> for Failure {
    ghost use Rattle.basic_expr.specs.declared.failures.Failure.TheVariants as failure;

    ghost from_gives = { λ _ e. e ≡ failure.NoMemory };

    fn from(_error: NoMemory) -> Failure {
        Failure::NoMemory
    }
}

/// An expression, whether it gives a string, and the place after it.
#[derive(Drop)]
pub struct Found {
    pub tree: Expr,
    pub text: bool,
    pub end: usize,
}
