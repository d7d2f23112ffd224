//! Why a grammar isn't flattened.

ghost use Rattle.std.specs.Prelude.{◌≡◌};
ghost use Rattle.ux_flatten.specs.declared.error.FlattenError.TheVariants.{NoMemory};

use std::alloc::{AllocError, AllocFailed};
use thiserror::Error;
use ux_base::{NoMemory, Txt};

/// Why a grammar isn't flattened to a depth.
#[derive(Debug, Drop, Error)]
pub enum FlattenError {
    /// The flat graph would have more than 1,000,000 states, or a state of it more edges than 32 bits
    /// number.
    #[error("too big")]
    TooBig,
    /// At the depth a call would be left out inside a context that may not follow, and the flat graph
    /// would derive what the grammar doesn't. The first graph is named, and in it the least state that
    /// such a call leaves.
    #[error("negative cut: state {node} of graph {graph:?}")]
    NegativeCut { graph: Txt, node: u32 },
    /// Memory ran out.
    #[error("no memory")]
    NoMemory,
}

impl From<AllocError> for FlattenError {
    ghost from_gives = { λ _ e. e ≡ NoMemory };

    fn from(_error: AllocError) -> FlattenError {
        FlattenError::NoMemory
    }
}

impl<T: Drop> From<AllocFailed<T>> for FlattenError {
    ghost from_gives = { λ _ e. e ≡ NoMemory };

    fn from(_error: AllocFailed<T>) -> FlattenError {
        FlattenError::NoMemory
    }
}

impl From<NoMemory> for FlattenError {
    ghost use Rattle.std.specs.Prelude.{◌≡◌};
    ghost use Rattle.ux_flatten.specs.declared.error.FlattenError.TheVariants.{NoMemory};

    ghost from_gives = { λ _ e. e ≡ NoMemory };

    fn from(_error: NoMemory) -> FlattenError {
        FlattenError::NoMemory
    }
}
