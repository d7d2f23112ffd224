//! Why a text is refused.

ghost use Rattle.std.specs.Prelude.{◌≡◌};

use std::alloc::{AllocError, AllocFailed};
use ux_base::NoMemory;

/// Why a text has no list of tokens here.
#[derive(Clone, Copy, Debug, Drop, thiserror::Error)]
pub enum TextError {
    /// The list of tokens is longer than `MAX_TOKENS`.
    #[error("TooManyTokens")]
    TooManyTokens,
    /// Memory ran out.
    #[error("NoMemory")]
    NoMemory,
}

impl From<AllocError> for TextError {
    ghost use Rattle.ux_tokens.specs.declared.text_error.TextError.TheVariants.{NoMemory};

    ghost from_gives = { λ _ e. e ≡ NoMemory };

    fn from(_error: AllocError) -> TextError {
        TextError::NoMemory
    }
}

impl<T: Drop> From<AllocFailed<T>> for TextError {
    ghost use Rattle.ux_tokens.specs.declared.text_error.TextError.TheVariants.{NoMemory};

    ghost from_gives = { λ _ e. e ≡ NoMemory };

    fn from(_error: AllocFailed<T>) -> TextError {
        TextError::NoMemory
    }
}

impl From<NoMemory> for TextError {
    ghost use Rattle.ux_tokens.specs.declared.text_error.TextError.TheVariants.{NoMemory};

    ghost from_gives = { λ _ e. e ≡ NoMemory };

    fn from(_error: NoMemory) -> TextError {
        TextError::NoMemory
    }
}
