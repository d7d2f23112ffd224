//! A compiled graph.

use crate::state::{Edge, State};
use ux_base::{Lst, Txt};

/// A graph as states. State 0 is its start.
#[derive(Drop)]
pub struct NetGraph {
    /// The name by which others call it.
    pub name: Txt,
    /// The states, by number. A state to which no run comes has no edges here and isn't final.
    pub states: Lst<State>,
    /// A rank for each state, which falls along each edge that may take nothing.
    pub ranks: Lst<Rank>,
    /// For each state, whether an end may be reached from it with no token.
    pub free: Lst<bool>,
    /// Where each context that may not follow is closed, in the order of the states into which such
    /// contexts open.
    pub closings: Lst<Closing>,
    /// What the states to which no run comes really have, in the order of their numbers. No search
    /// looks at it.
    pub unmet: Lst<UnmetState>,
}

/// A state to which no run comes: neither from the start nor from a state into which a context
/// opens.
#[derive(Drop)]
pub struct UnmetState {
    /// The number of the state.
    pub number: u32,
    /// Whether a word of the graph may end there.
    pub is_final: bool,
    /// The edges that leave it, in order.
    pub edges: Lst<Edge>,
}

/// Where a context that may not follow is closed.
#[derive(Clone, Copy)]
pub struct Closing {
    /// The state into which it opens.
    pub opening: u32,
    /// The state into which it is closed.
    pub closing: u32,
}

/// The rank of a state: a lower major number is lower, and among equal ones a lower minor number.
/// They are why every walk through a net ends, and the order in which its graphs can be searched.
#[derive(Clone, Copy)]
pub struct Rank {
    /// How far the state is from a token, by boxes.
    pub major: usize,
    /// The same, along the line of one box.
    pub minor: usize,
}
