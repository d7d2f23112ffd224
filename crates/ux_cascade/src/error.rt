//! Why a cascade comes to nothing.

ghost use Rattle.std.specs.Prelude.{◌≡◌};
ghost use Rattle.ux_cascade.specs.declared.error.CascadeError.TheVariants.{NoMemory};

use std::alloc::{AllocError, AllocFailed};
use thiserror::Error;
use ux_base::NoMemory;
use ux_tokens::TextError;

/// Why a cascade comes to nothing.
#[derive(Clone, Copy, Debug, Drop, Error)]
pub enum CascadeError {
    /// The text, or one that a round left, has more tokens than `ux_tokens::MAX_TOKENS`.
    #[error("TooManyTokens")]
    TooManyTokens,
    /// Memory ran out.
    #[error("NoMemory")]
    NoMemory,
}

impl From<TextError> for CascadeError {
    ghost use Rattle.ux_cascade.specs.Refusing.{as_text};

    ghost from_gives = { λ text e. e ≡ as_text text };

    fn from(error: TextError) -> CascadeError {
        match error {
            TextError::TooManyTokens => CascadeError::TooManyTokens,
            TextError::NoMemory => CascadeError::NoMemory,
        }
    }
}

impl From<AllocError> for CascadeError {
    ghost from_gives = { λ _ e. e ≡ NoMemory };

    fn from(_error: AllocError) -> CascadeError {
        CascadeError::NoMemory
    }
}

impl<T: Drop> From<AllocFailed<T>> for CascadeError {
    ghost from_gives = { λ _ e. e ≡ NoMemory };

    fn from(_error: AllocFailed<T>) -> CascadeError {
        CascadeError::NoMemory
    }
}

impl From<NoMemory> for CascadeError {
    ghost from_gives = { λ _ e. e ≡ NoMemory };

    fn from(_error: NoMemory) -> CascadeError {
        CascadeError::NoMemory
    }
}
