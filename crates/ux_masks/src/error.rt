//! Why a mask text is refused.

ghost use Rattle.std.specs.Prelude.{◌≡◌};
ghost use Rattle.ux_masks.specs.declared.error.MaskError.TheVariants.{NoMemory};

use std::alloc::{AllocError, AllocFailed};
use thiserror::Error;

/// Why a mask text is refused.
#[derive(Clone, Copy, Debug, PartialEq, Eq, Error)]
pub enum MaskError {
    /// No mask text goes on with the character at this place, counted from 0, or none ends at the
    /// text's length.
    #[error("BadMask place={place}")]
    BadMask { place: usize },
    /// Out of memory.
    #[error("no memory")]
    NoMemory,
}

impl From<AllocError> for MaskError {
    ghost from_gives = { λ _ e. e ≡ NoMemory };

    fn from(_error: AllocError) -> MaskError {
        MaskError::NoMemory
    }
}

impl<T: Drop> From<AllocFailed<T>> for MaskError {
    ghost from_gives = { λ _ e. e ≡ NoMemory };

    fn from(_error: AllocFailed<T>) -> MaskError {
        MaskError::NoMemory
    }
}
