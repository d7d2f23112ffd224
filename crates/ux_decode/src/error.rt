//! Why a file has no text.

ghost use Rattle.std.specs.Prelude.{◌≡◌};
ghost use Rattle.ux_decode.specs.declared.error.DecodeError.TheVariants.{NoMemory};

use std::alloc::AllocError;
use thiserror::Error;

/// Why a file has no text. Places count bytes from the file's start, from 0, its mark included.
#[derive(Clone, Copy, Debug, Error)]
pub enum DecodeError {
    /// In UTF-8, the bytes at the place begin no character.
    #[error("BadUtf8 place={place}")]
    BadUtf8 { place: usize },
    /// In UTF-16, the surrogate at the place has no partner.
    #[error("LoneSurrogate place={place}")]
    LoneSurrogate { place: usize },
    /// In UTF-16, half a unit stands behind whole characters.
    #[error("OddLength")]
    OddLength,
    /// Memory ran out, which UTF-16 alone needs.
    #[error("no memory")]
    NoMemory,
}

impl From<AllocError> for DecodeError {
    ghost from_gives = { λ _ e. e ≡ NoMemory };

    fn from(_error: AllocError) -> DecodeError {
        DecodeError::NoMemory
    }
}
