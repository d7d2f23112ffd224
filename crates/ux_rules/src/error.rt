//! Why a graph is no rule.

ghost use Rattle.std.specs.Prelude.{◌≡◌};
ghost use Rattle.ux_rules.specs.declared.error.RuleError.TheVariants.{NoMemory};

use std::alloc::{AllocError, AllocFailed};
use thiserror::Error;

/// Why a graph is no rule. Nodes count boxes from 0, and the least is named.
#[derive(Clone, Copy, Debug, Error)]
pub enum RuleError {
    /// The box calls a graph.
    #[error("call in box {node}")]
    Call { node: u32 },
    /// The box has an item that tests no reading, isn't `<E>` and is no mark.
    #[error("bad item in box {node}")]
    BadItem { node: u32 },
    /// A path meets the box as an item before its first mark or after its third, as a mark of
    /// another kind than its first, or as a fourth mark; or it meets the end before its third mark.
    #[error("bad marks at box {node}")]
    BadMarks { node: u32 },
    /// No path is an if-part.
    #[error("no if-part")]
    NoIf,
    /// Memory ran out.
    #[error("no memory")]
    NoMemory,
}

impl From<AllocError> for RuleError {
    ghost from_gives = { λ _ e. e ≡ NoMemory };

    fn from(_error: AllocError) -> RuleError {
        RuleError::NoMemory
    }
}

impl<T: Drop> From<AllocFailed<T>> for RuleError {
    ghost from_gives = { λ _ e. e ≡ NoMemory };

    fn from(_error: AllocFailed<T>) -> RuleError {
        RuleError::NoMemory
    }
}

impl From<ux_base::NoMemory> for RuleError {
    ghost from_gives = { λ _ e. e ≡ NoMemory };

    fn from(_error: ux_base::NoMemory) -> RuleError {
        RuleError::NoMemory
    }
}
