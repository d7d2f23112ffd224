//! States and their edges.

use crate::label::Label;
use ux_base::Lst;
use ux_grf::Piece;

/// An edge from a state to a state of the same graph.
#[derive(Drop)]
pub struct Edge {
    /// What it finds in the text.
    pub label: Label,
    /// What it puts out before that.
    pub output: Lst<Piece>,
    /// The number of the state to which it leads.
    pub target: u32,
}

/// A state of a compiled graph.
#[derive(Drop)]
pub struct State {
    /// Whether a word of the graph may end here.
    pub is_final: bool,
    /// The edges that leave it, in order.
    pub edges: Lst<Edge>,
}
