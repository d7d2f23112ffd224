//! Why a stem isn't inflected.

ghost use Rattle.std.specs.Prelude.{◌≡◌};
ghost use Rattle.ux_inflect.specs.declared.error.InflectError.TheVariants.{NoMemory};

use std::alloc::{AllocError, AllocFailed};
use thiserror::Error;
use ux_base::Txt;

/// Why a stem isn't inflected. The causes are tested in this order. A path is the text that a word
/// of the main graph reads, the words of called graphs in their places.
#[derive(Debug, Drop, Error)]
pub enum InflectError {
    /// A path from the graph's start reaches a cycle of states, or the graph calls itself, or one
    /// that does so in turn. The first such graph is named, of the main graph and those that calls
    /// from it reach.
    #[error("Cyclic graph={graph:?}")]
    Cyclic { graph: Txt },
    /// From the state of the graph an edge leaves that has another item than the empty word, a text
    /// and a call, or the value of a variable in its output. The first graph and state is named.
    #[error("BadItem graph={graph:?} node={node}")]
    BadItem { graph: Txt, node: u32 },
    /// An operator of the path meets the end of the form. The first such path is named, by bytes.
    #[error("StackEnd path={path:?}")]
    StackEnd { path: Txt },
    /// The output of the path isn't codes with a colon before each, or the path leaves no form. The
    /// first such path is named, by bytes.
    #[error("BadCodes path={path:?}")]
    BadCodes { path: Txt },
    /// Memory ran out.
    #[error("no memory")]
    NoMemory,
}

impl From<AllocError> for InflectError {
    ghost from_gives = { λ _ e. e ≡ NoMemory };

    fn from(_error: AllocError) -> InflectError {
        InflectError::NoMemory
    }
}

impl<T: Drop> From<AllocFailed<T>> for InflectError {
    ghost from_gives = { λ _ e. e ≡ NoMemory };

    fn from(_error: AllocFailed<T>) -> InflectError {
        InflectError::NoMemory
    }
}

impl From<ux_base::NoMemory> for InflectError {
    ghost from_gives = { λ _ e. e ≡ NoMemory };

    fn from(_error: ux_base::NoMemory) -> InflectError {
        InflectError::NoMemory
    }
}
