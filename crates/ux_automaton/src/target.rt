//! Where an edge that takes tokens leads.

use ux_closure::stand::Stand;

/// A stand behind an edge, and the position behind the tokens that it took.
#[derive(Clone, Copy)]
pub struct Target {
    /// The position.
    pub at: usize,
    /// The stand.
    pub stand: Stand,
}
