//! Why the text of a compiled grammar is refused, before its tags and labels are looked at.

ghost use Rattle.std.specs.Prelude.{◌≡◌};
ghost use Rattle.ux_fst2_file.specs.declared.error.Fst2Error.TheVariants.{NoMemory};

use std::alloc::{AllocError, AllocFailed};
use thiserror::Error;
use ux_base::NoMemory;

/// Why the text of a compiled grammar is refused. Lines count from 1.
#[derive(Clone, Copy, Debug, PartialEq, Eq, Error)]
pub enum Fst2Error {
    /// The first line isn't the number of graphs, in ten digits.
    #[error("BadCount")]
    BadCount,
    /// A line of the graphs is missing or isn't of its form, or a name stands a second time, or a
    /// graph has no states or too many.
    #[error("BadLine line={line}")]
    BadLine { line: usize },
    /// Memory ran out.
    #[error("no memory")]
    NoMemory,
}

impl From<AllocError> for Fst2Error {
    ghost from_gives = { λ _ e. e ≡ NoMemory };

    fn from(_error: AllocError) -> Fst2Error {
        Fst2Error::NoMemory
    }
}

impl<T: Drop> From<AllocFailed<T>> for Fst2Error {
    ghost from_gives = { λ _ e. e ≡ NoMemory };

    fn from(_error: AllocFailed<T>) -> Fst2Error {
        Fst2Error::NoMemory
    }
}

impl From<NoMemory> for Fst2Error {
    ghost from_gives = { λ _ e. e ≡ NoMemory };

    fn from(_error: NoMemory) -> Fst2Error {
        Fst2Error::NoMemory
    }
}
