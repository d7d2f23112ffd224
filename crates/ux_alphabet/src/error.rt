//! Why an alphabet file is refused.

ghost use Rattle.std.specs.Prelude.{◌≡◌};
ghost use Rattle.ux_alphabet.specs.declared.error.AlphabetError.TheVariants.{NoMemory};

use std::alloc::{AllocError, AllocFailed};
use thiserror::Error;

/// Why an alphabet file is refused. Lines count from 1.
#[derive(Clone, Copy, Debug, PartialEq, Eq, Error)]
pub enum AlphabetError {
    /// A line is neither empty, one character, two characters nor `#` and two characters.
    #[error("BadLine line={line}")]
    BadLine { line: usize },
    /// The first character of a range comes after its last one.
    #[error("EmptyRange line={line}")]
    EmptyRange { line: usize },
    /// Memory ran out.
    #[error("no memory")]
    NoMemory,
}

impl From<AllocError> for AlphabetError {
    ghost from_gives = { λ _ e. e ≡ NoMemory };

    fn from(_error: AllocError) -> AlphabetError {
        AlphabetError::NoMemory
    }
}

impl<T: Drop> From<AllocFailed<T>> for AlphabetError {
    ghost from_gives = { λ _ e. e ≡ NoMemory };

    fn from(_error: AllocFailed<T>) -> AlphabetError {
        AlphabetError::NoMemory
    }
}
