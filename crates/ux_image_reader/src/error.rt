//! Why a file isn't the image of a dictionary.

ghost use Rattle.std.specs.Prelude.{◌≡◌};
ghost use Rattle.ux_image_reader.specs.declared.error.ImageError.TheVariants.{NoMemory};

use std::alloc::{AllocError, AllocFailed};
use thiserror::Error;

/// Why a file isn't the image of a dictionary. Offsets count bytes from the file's start, codes from
/// the first of the first list, both from 0.
#[derive(Clone, Copy, Debug, PartialEq, Eq, Error)]
pub enum ImageError {
    /// The file begins as no version of an image does.
    #[error("BadMagic")]
    BadMagic,
    /// The file ends too early, and nothing that is there is at fault.
    #[error("Short")]
    Short,
    /// The state that begins at the offset is at fault. Offset 8: there is no state. Offset 12: there
    /// are more lists of codes than states use.
    #[error("BadState offset={offset}")]
    BadState { offset: usize },
    /// The code of this number, or the list that begins with it, is at fault.
    #[error("BadCode number={number}")]
    BadCode { number: usize },
    /// Bytes follow the last list of codes.
    #[error("Trailing")]
    Trailing,
    /// The forms have too many letters together, or a lemma would be too long.
    #[error("TooMany")]
    TooMany,
    /// Memory ran out.
    #[error("no memory")]
    NoMemory,
}

impl From<AllocError> for ImageError {
    ghost from_gives = { λ _ e. e ≡ NoMemory };

    fn from(_error: AllocError) -> ImageError {
        ImageError::NoMemory
    }
}

impl<T: Drop> From<AllocFailed<T>> for ImageError {
    ghost from_gives = { λ _ e. e ≡ NoMemory };

    fn from(_error: AllocFailed<T>) -> ImageError {
        ImageError::NoMemory
    }
}

impl From<ux_base::NoMemory> for ImageError {
    ghost from_gives = { λ _ e. e ≡ NoMemory };

    fn from(_error: ux_base::NoMemory) -> ImageError {
        ImageError::NoMemory
    }
}
