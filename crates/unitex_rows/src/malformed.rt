//! What is wrong with a line of a file of rows.

use std::alloc::{AllocError, AllocFailed};
use thiserror::Error;

/// Why a line of a file of rows isn't accepted.
#[derive(Clone, Copy, Debug, PartialEq, Eq, Error)]
pub enum Malformed {
    /// The line begins with no known word or mark.
    #[error("no line of a row begins so")]
    NoKind,
    /// A line of this kind doesn't follow the line before.
    #[error("no line of this kind stands here")]
    Misplaced,
    /// The name is empty.
    #[error("a name is missing")]
    NoName,
    /// The name stands already.
    #[error("this name stands twice")]
    Twice,
    /// No text or file at the head of the file has the name.
    #[error("nothing at the head of the file has this name")]
    Unknown,
    /// Two spaces stand together, or one at the end.
    #[error("an empty word is written ''")]
    EmptyWord,
    /// A backslash is not followed by `n`, `r`, `t`, `0`, `\` or `x` and two digits.
    #[error("no escape is written so")]
    BadEscape,
    /// A number is missing, or too large.
    #[error("a number is missing or too large")]
    BadNumber,
    /// No encoding has this name.
    #[error("no encoding has this name")]
    BadEncoding,
    /// The bytes of a word, or those that are to be encoded, are no UTF-8.
    #[error("these bytes are no text")]
    NoText,
    /// The file ends within a row, or has none.
    #[error("the file ends where a row is to be")]
    Unended,
    /// Memory ran out.
    #[error("no memory")]
    NoMemory,
}

impl From<AllocError> for Malformed {
    fn from(_error: AllocError) -> Malformed {
        Malformed::NoMemory
    }
}

impl<T: Drop> From<AllocFailed<T>> for Malformed {
    fn from(_error: AllocFailed<T>) -> Malformed {
        Malformed::NoMemory
    }
}
