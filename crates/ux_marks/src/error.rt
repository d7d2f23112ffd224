//! Why a grammar can't be matched inside words, or a word can't be analysed by it.

ghost use Rattle.std.specs.Prelude.{◌≡◌};
ghost use Rattle.ux_marks.specs.declared.error.MorphError.TheVariants.{NoMemory};

use std::alloc::{AllocError, AllocFailed};
use thiserror::Error;
use ux_base::Txt;

/// Why the morphological mode gives no entries.
#[derive(Debug, Drop, Error)]
pub enum MorphError {
    /// The state of the graph doesn't keep to the rule of `$<` and `$>`. The first graph and its least
    /// such state are named.
    #[error("BadMarks graph={graph:?} node={node}")]
    BadMarks { graph: Txt, node: u32 },
    /// The grammar puts out something for the token that isn't a line of one entry behind the form.
    #[error("BadOutput token={token:?}")]
    BadOutput { token: Txt },
    /// Memory ran out.
    #[error("no memory")]
    NoMemory,
}

impl From<AllocError> for MorphError {
    ghost from_gives = { λ _ e. e ≡ NoMemory };

    fn from(_error: AllocError) -> MorphError {
        MorphError::NoMemory
    }
}

impl<T: Drop> From<AllocFailed<T>> for MorphError {
    ghost from_gives = { λ _ e. e ≡ NoMemory };

    fn from(_error: AllocFailed<T>) -> MorphError {
        MorphError::NoMemory
    }
}

impl From<ux_base::NoMemory> for MorphError {
    ghost from_gives = { λ _ e. e ≡ NoMemory };

    fn from(_error: ux_base::NoMemory) -> MorphError {
        MorphError::NoMemory
    }
}
