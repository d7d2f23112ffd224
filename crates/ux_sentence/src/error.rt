//! Why a file of sentence automata is refused.

ghost use Rattle.std.specs.Prelude.{◌≡◌};
ghost use Rattle.ux_sentence.specs.declared.error.SentenceError.TheVariants.{NoMemory as OutOfMemory};

use std::alloc::{AllocError, AllocFailed};
use thiserror::Error;
use ux_base::NoMemory;

/// Why a file of sentence automata is refused. Lines count from 1, and a missing line has the
/// number that it would have.
#[derive(Clone, Copy, Debug, PartialEq, Eq, Error)]
pub enum SentenceError {
    /// The first line or a sentence's line isn't of its form, a line is missing, or one stands
    /// behind the last sentence. A sentence has the next number, and at least two states.
    #[error("BadLine line={line}")]
    BadLine { line: usize },
    /// The line isn't that of a link between states of its sentence, with a reading.
    #[error("BadEdge line={line}")]
    BadEdge { line: usize },
    /// The link of the line leads to no greater state.
    #[error("Backward line={line}")]
    Backward { line: usize },
    /// Memory ran out.
    #[error("no memory")]
    NoMemory,
}

impl From<AllocError> for SentenceError {
    ghost from_gives = { λ _ e. e ≡ OutOfMemory };

    fn from(_error: AllocError) -> SentenceError {
        SentenceError::NoMemory
    }
}

impl<T: Drop> From<AllocFailed<T>> for SentenceError {
    ghost from_gives = { λ _ e. e ≡ OutOfMemory };

    fn from(_error: AllocFailed<T>) -> SentenceError {
        SentenceError::NoMemory
    }
}

impl From<NoMemory> for SentenceError {
    ghost from_gives = { λ _ e. e ≡ OutOfMemory };

    fn from(_error: NoMemory) -> SentenceError {
        SentenceError::NoMemory
    }
}
