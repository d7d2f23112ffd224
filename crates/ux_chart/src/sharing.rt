//! Which positions share a row.
//!
//! In a text the positions before and behind a space are alike: only a label that asks for spaces
//! tells them apart. In a net without such labels the parts reach the same from both, as long as
//! they take something. So one row tells of both, and one search finds it.

ghost use Rattle.std.specs.Prelude.{◌≤◌, IsTrue, length};
ghost use Rattle.ux_chart.specs.Alike.{AreUnspaced, IsSharing, IsUnspaced, IsUnspacedGraph};

use ux_net::{Edge, Label, Net};

/// Which positions share a row.
#[derive(Clone, Copy)]
pub enum Sharing {
    /// Those that are alike.
    Alike,
    /// None.
    Nowhere,
}

impl Sharing {
    /// Which positions share a row in a chart of the net. Looks at each edge at most once, and takes
    /// no memory.
    pub fn of(net: &Net) -> Sharing
        ensures { IsSharing net.now result }
    {
        for before in 0..net.graphs() {
            if !is_unspaced_graph(net, before + 1) {
                return Sharing::Nowhere;
            }
        }
        Sharing::Alike
    }
}

/// Whether no label of the graph asks for spaces.
fn is_unspaced_graph(net: &Net, graph: u32) -> bool
    requires from { 1 ≤ graph }
    requires to { graph ≤ length net.now }
    ensures { IsTrue result → IsUnspacedGraph net.now graph }
{
    for state in 0..net.states(graph) {
        if !are_unspaced(net.edges(graph, state)) {
            return false;
        }
    }
    true
}

/// Whether no label of the edges asks for spaces.
fn are_unspaced(edges: &[Edge]) -> bool
    ensures { IsTrue result → AreUnspaced edges.now }
{
    for edge in edges {
        if !is_unspaced(&edge.label) {
            return false;
        }
    }
    true
}

/// Whether the label doesn't ask for spaces.
fn is_unspaced(label: &Label) -> bool
    ensures { IsTrue result → IsUnspaced label.now }
{
    match label {
        Label::Space | Label::NoSpace => false,
        Label::Empty
        | Label::CaseFolded(_)
        | Label::CaseExact(_)
        | Label::Mask(_)
        | Label::Brace(_)
        | Label::Begin(_)
        | Label::End(_)
        | Label::Positive
        | Label::Negative
        | Label::ContextEnd
        | Label::Cut
        | Label::Call(_) => true,
    }
}
