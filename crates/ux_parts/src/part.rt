//! A part of a net.

use ux_base::Lst;

/// What is searched by itself: a graph from its first state, or the body of a context.
#[derive(Drop)]
pub struct Part {
    /// The number of the graph, counted from 1.
    pub graph: u32,
    /// The state from which it is searched.
    pub first: u32,
    /// The state into which the body is closed, where the net tells one. It does so where a negative
    /// context opens the part.
    pub closing: Lst<u32>,
}
