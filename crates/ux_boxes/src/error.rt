//! Why a list of graphs isn't compiled.

ghost use Rattle.std.specs.Prelude.{◌≡◌};
ghost use Rattle.ux_boxes.specs.declared.error.NetError.TheVariants.{NoMemory};

use std::alloc::{AllocError, AllocFailed};
use thiserror::Error;
use ux_base::{NoMemory, Txt};

/// Why a list of graphs isn't compiled. The first graph of the list is named, and in it the least
/// node; nodes count boxes from 0.
#[derive(Debug, Drop, Error)]
pub enum NetError {
    /// No graph of the list has this name, by which one is called.
    #[error("no graph {name:?}")]
    MissingGraph { name: Txt },
    /// A line of the box has a mask text that is no mask's. The first such text of the box is
    /// meant, and the place is that of `Mask::read`.
    #[error("bad mask at place {place}: box {node} of graph {graph:?}")]
    BadMask { graph: Txt, node: u32, place: usize },
    /// Into the box a context opens that isn't closed, or is closed behind an end of the graph, or
    /// may not follow and is closed in two ways; or the box closes one that wasn't opened.
    #[error("context close: box {node} of graph {graph:?}")]
    ContextClose { graph: Txt, node: u32 },
    /// A context of the graph that may not follow uses, by calls and contexts inside it, what has
    /// that context.
    #[error("negative recursion in graph {graph:?}")]
    NegativeRecursion { graph: Txt },
    /// The box lies on a loop that takes no token. Where the loop leads over a context, the box that
    /// opens it and the one that closes it lie on the loop, and those inside don't.
    #[error("empty loop at box {node} of graph {graph:?}")]
    EmptyLoop { graph: Txt, node: u32 },
    /// At the box the graph calls itself, or one that does in turn, before it took a token.
    #[error("left recursion at box {node} of graph {graph:?}")]
    LeftRecursion { graph: Txt, node: u32 },
    /// Memory ran out.
    #[error("no memory")]
    NoMemory,
}

impl From<AllocError> for NetError {
    ghost from_gives = { λ _ e. e ≡ NoMemory };

    fn from(_error: AllocError) -> NetError {
        NetError::NoMemory
    }
}

impl<T: Drop> From<AllocFailed<T>> for NetError {
    ghost from_gives = { λ _ e. e ≡ NoMemory };

    fn from(_error: AllocFailed<T>) -> NetError {
        NetError::NoMemory
    }
}

impl From<NoMemory> for NetError {
    ghost use Rattle.std.specs.Prelude.{◌≡◌};
    ghost use Rattle.ux_boxes.specs.declared.error.NetError.TheVariants.{NoMemory};

    ghost from_gives = { λ _ e. e ≡ NoMemory };

    fn from(_error: NoMemory) -> NetError {
        NetError::NoMemory
    }
}
