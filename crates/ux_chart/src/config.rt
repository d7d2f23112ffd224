//! Where a search stands.

/// A state of a graph, and a position.
#[derive(Clone, Copy, PartialEq, Eq, Hash)]
pub struct Config {
    /// The number of the state.
    pub state: u32,
    /// The position.
    pub at: usize,
}
