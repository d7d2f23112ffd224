//! Why the text of a compiled grammar is refused.

ghost use Rattle.std.specs.Prelude.{◌≡◌};
ghost use Rattle.ux_fst2.specs.Inner.{error_of};
ghost use Rattle.ux_fst2.specs.declared.error.Fst2Error.TheVariants.{NoMemory};

use std::alloc::{AllocError, AllocFailed};
use thiserror::Error;
use ux_base::NoMemory;

/// Why the text of a compiled grammar is refused. Lines count from 1, tags from 0.
#[derive(Clone, Copy, Debug, PartialEq, Eq, Error)]
pub enum Fst2Error {
    /// The first line isn't the number of graphs, in ten digits.
    #[error("BadCount")]
    BadCount,
    /// A line of the graphs is missing or isn't of its form, or a name stands a second time, or a
    /// graph has no states or too many.
    #[error("BadLine line={line}")]
    BadLine { line: usize },
    /// A tag says no label, or tag 0 isn't that of the empty word, or the last `f` is missing.
    #[error("BadTag n={n}")]
    BadTag { n: usize },
    /// An edge calls no graph, leads to no state or has no tag.
    #[error("BadLabel line={line}")]
    BadLabel { line: usize },
    /// Memory ran out.
    #[error("no memory")]
    NoMemory,
}

impl From<ux_fst2_file::Fst2Error> for Fst2Error {
    ghost from_gives = { λ error e. e ≡ error_of error };

    fn from(error: ux_fst2_file::Fst2Error) -> Fst2Error {
        match error {
            ux_fst2_file::Fst2Error::BadCount => Fst2Error::BadCount,
            ux_fst2_file::Fst2Error::BadLine { line } => Fst2Error::BadLine { line },
            ux_fst2_file::Fst2Error::NoMemory => Fst2Error::NoMemory,
        }
    }
}

impl From<AllocError> for Fst2Error {
    ghost from_gives = { λ _ e. e ≡ NoMemory };

    fn from(_error: AllocError) -> Fst2Error {
        Fst2Error::NoMemory
    }
}

impl<T: Drop> From<AllocFailed<T>> for Fst2Error {
    ghost from_gives = { λ _ e. e ≡ NoMemory };

    fn from(_error: AllocFailed<T>) -> Fst2Error {
        Fst2Error::NoMemory
    }
}

impl From<NoMemory> for Fst2Error {
    ghost from_gives = { λ _ e. e ≡ NoMemory };

    fn from(_error: NoMemory) -> Fst2Error {
        Fst2Error::NoMemory
    }
}
