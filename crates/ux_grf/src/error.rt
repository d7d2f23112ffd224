//! Why a graph file is refused.

ghost use Rattle.std.specs.Prelude.{◌≡◌};
ghost use Rattle.ux_grf.specs.declared.error.GrfError.TheVariants.{NoMemory};

use std::alloc::{AllocError, AllocFailed};
use thiserror::Error;

/// Why a graph file is refused. Nodes count boxes from 0.
#[derive(Clone, Copy, Debug, Error)]
pub enum GrfError {
    /// The first line isn't `#Unigraph`, or no line `#` stands after it.
    #[error("no header")]
    NoHeader,
    /// The line after the header isn't a number of boxes from 2 to 65,535.
    #[error("bad number of boxes")]
    BadCount,
    /// The line of this box is missing or isn't of its form.
    #[error("bad line of box {node}")]
    BadBoxLine { node: u32 },
    /// A target of this box is no box.
    #[error("bad target of box {node}")]
    BadTarget { node: u32 },
    /// The content of this box can't be read. The place of its first fault counts characters from
    /// 0 in the content, once the file's own protection was taken off.
    #[error("bad content of box {node} at character {place}")]
    BadContent { node: u32, place: usize },
    /// Memory ran out.
    #[error("no memory")]
    NoMemory,
}

impl From<AllocError> for GrfError {
    ghost from_gives = { λ _ e. e ≡ NoMemory };

    fn from(_error: AllocError) -> GrfError {
        GrfError::NoMemory
    }
}

impl<T: Drop> From<AllocFailed<T>> for GrfError {
    ghost from_gives = { λ _ e. e ≡ NoMemory };

    fn from(_error: AllocFailed<T>) -> GrfError {
        GrfError::NoMemory
    }
}

impl From<ux_base::NoMemory> for GrfError {
    ghost from_gives = { λ _ e. e ≡ NoMemory };

    fn from(_error: ux_base::NoMemory) -> GrfError {
        GrfError::NoMemory
    }
}
