//! Why a dictionary file is refused.

ghost use Rattle.std.specs.Prelude.{◌≡◌};
ghost use Rattle.ux_dela.specs.declared.error.DelaError.TheVariants.{NoMemory};

use std::alloc::{AllocError, AllocFailed};
use thiserror::Error;

/// Why a dictionary file is refused. Lines count from 1, places count bytes of a line from 0.
#[derive(Clone, Copy, Debug, PartialEq, Eq, Error)]
pub enum DelaError {
    /// No comma ends the form, or the lemma of a line of lemmas. The place is the line's length.
    #[error("NoComma line={line} place={place}")]
    NoComma { line: usize, place: usize },
    /// No dot ends the lemma. The place is the line's length.
    #[error("NoDot line={line} place={place}")]
    NoDot { line: usize, place: usize },
    /// The line begins with its comma.
    #[error("EmptyForm line={line} place={place}")]
    EmptyForm { line: usize, place: usize },
    /// No code stands at the place, where one should begin.
    #[error("EmptyCode line={line} place={place}")]
    EmptyCode { line: usize, place: usize },
    /// The backslash at the place ends the line, and protects nothing.
    #[error("BadEscape line={line} place={place}")]
    BadEscape { line: usize, place: usize },
    /// The code at the place isn't one or more of A to Z and then digits.
    #[error("BadClass line={line} place={place}")]
    BadClass { line: usize, place: usize },
    /// Memory ran out.
    #[error("no memory")]
    NoMemory,
}

impl From<AllocError> for DelaError {
    ghost from_gives = { λ _ e. e ≡ NoMemory };

    fn from(_error: AllocError) -> DelaError {
        DelaError::NoMemory
    }
}

impl<T: Drop> From<AllocFailed<T>> for DelaError {
    ghost from_gives = { λ _ e. e ≡ NoMemory };

    fn from(_error: AllocFailed<T>) -> DelaError {
        DelaError::NoMemory
    }
}
