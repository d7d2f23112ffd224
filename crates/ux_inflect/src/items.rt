//! The edges of a net that inflection doesn't know.

ghost use Rattle.std.specs.Prelude.{◌<◌, ◌≤◌, ◌↔◌, ℕ, Contains, IsTrue, MatchOption, length};
ghost use Rattle.ux_grf.specs.declared.item.Piece.{Piece};
ghost use Rattle.ux_net.specs.declared.state.Edge.{Edge};
ghost use Rattle.ux_inflect.specs.Refusing.{IsBadEdge, IsBadLabel, IsBadState, IsFirstBad, IsValue};

use ux_grf::Piece;
use ux_net::{Edge, Label, Net};

/// A state of a graph, which is counted from 1.
#[derive(Clone, Copy)]
pub(crate) struct Spot {
    pub graph: u32,
    pub node: u32,
}

/// The first state of the first graph that a bad edge leaves. Takes a step an edge and a piece of
/// output, and no memory.
pub(crate) fn first_bad(net: &Net) -> Option<Spot>
    ensures { MatchOption result ((g n : ℕ) → IsBadState net.now g n → ⊥)
        (λ spot. (1 ≤ spot.graph) × (spot.graph ≤ length net.now)
        × IsFirstBad net.now spot.graph spot.node) }
{
    for before in 0..net.graphs() {
        if let Some(node) = first_in(net, before + 1) {
            return Some(Spot {
                graph: before + 1,
                node,
            });
        }
    }
    None
}

/// The first state of the graph that a bad edge leaves.
fn first_in(net: &Net, graph: u32) -> Option<u32>
    requires from { 1 ≤ graph }
    requires to { graph ≤ length net.now }
    ensures { MatchOption result ((n : ℕ) → IsBadState net.now graph n → ⊥)
        (λ node. IsBadState net.now graph node
        × ((m : ℕ) → m < node → IsBadState net.now graph m → ⊥)) }
{
    for node in 0..net.states(graph) {
        if has_bad(net.edges(graph, node)) {
            return Some(node);
        }
    }
    None
}

/// Whether one of the edges is bad.
fn has_bad(edges: &[Edge]) -> bool
    ensures { IsTrue result ↔ ((edge : Edge) × Contains edges.now edge × IsBadEdge edge) }
{
    for edge in edges {
        if is_bad(edge) {
            return true;
        }
    }
    false
}

/// Whether the edge is bad.
fn is_bad(edge: &Edge) -> bool
    ensures { IsTrue result ↔ IsBadEdge edge.now }
{
    is_bad_label(&edge.label) || has_value(edge.output.as_slice())
}

/// Whether the label neither reads nor calls, and isn't the empty word.
fn is_bad_label(label: &Label) -> bool
    ensures { IsTrue result ↔ IsBadLabel label.now }
{
    match label {
        Label::Empty | Label::CaseFolded(_) | Label::CaseExact(_) | Label::Call(_) => false,
        Label::Mask(_)
        | Label::Brace(_)
        | Label::Space
        | Label::NoSpace
        | Label::Begin(_)
        | Label::End(_)
        | Label::Positive
        | Label::Negative
        | Label::ContextEnd
        | Label::Cut => true,
    }
}

/// Whether the output has the value of a variable.
fn has_value(output: &[Piece]) -> bool
    ensures { IsTrue result ↔ ((part : Piece) × Contains output.now part × IsValue part) }
{
    for piece in output {
        if is_value(piece) {
            return true;
        }
    }
    false
}

/// Whether the piece is the value of a variable.
fn is_value(piece: &Piece) -> bool
    ensures { IsTrue result ↔ IsValue piece.now }
{
    match piece {
        Piece::Chars(_) => false,
        Piece::Value(_) => true,
    }
}
