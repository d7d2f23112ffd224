//! A copy that is still to be made.

/// A copy of a graph that is still to be made.
#[derive(Clone, Copy)]
pub(crate) struct Pending {
    /// The number of the graph.
    pub graph: u32,
    /// The depth to which its calls are followed.
    pub depth: u32,
    /// The number of its first state.
    pub first: u32,
    /// The state to which its ends lead; nothing, where it is the main graph's.
    pub back: Option<u32>,
}
