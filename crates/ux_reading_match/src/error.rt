//! Why a net isn't searched in sentence automata.

ghost use Rattle.std.specs.Prelude.{◌≡◌};
ghost use Rattle.ux_reading_match.specs.declared.error.TfstError.TheVariants.{NoMemory};

use std::alloc::{AllocError, AllocFailed};
use thiserror::Error;
use ux_base::Txt;

/// Why a net isn't searched in sentence automata.
#[derive(Debug, Drop, Error)]
pub enum TfstError {
    /// From the state of the graph an edge leaves that asks for a space or for none, opens or closes
    /// a context, or cuts. The first graph and its least such state are named.
    #[error("BadItem graph={graph:?} node={node}")]
    BadItem { graph: Txt, node: u32 },
    /// Memory ran out.
    #[error("no memory")]
    NoMemory,
}

impl From<AllocError> for TfstError {
    ghost from_gives = { λ _ e. e ≡ NoMemory };

    fn from(_error: AllocError) -> TfstError {
        TfstError::NoMemory
    }
}

impl<T: Drop> From<AllocFailed<T>> for TfstError {
    ghost from_gives = { λ _ e. e ≡ NoMemory };

    fn from(_error: AllocFailed<T>) -> TfstError {
        TfstError::NoMemory
    }
}

impl From<ux_base::NoMemory> for TfstError {
    ghost from_gives = { λ _ e. e ≡ NoMemory };

    fn from(_error: ux_base::NoMemory) -> TfstError {
        TfstError::NoMemory
    }
}
