//! The numbers of a compiled grammar that name nothing: a call of no graph, a target that is no
//! state, a tag above the last one.

ghost use Rattle.std.specs.Prelude.{◌≡◌, ◌↔◌, All, IsTrue, MatchOption};
ghost use Rattle.ux_fst2_file.specs.Labels.{FitsEdge, FitsLabel, FitsGraph, FitsState, IsBadState, LabelsFit, StopsAtLabel, limits_of};

use crate::file::{Fst2Edge, Fst2File, Fst2Graph, Fst2Label, Fst2State};
use crate::text::Fst2Text;

/// The greatest number of 32 bits, as which greater ones are read. It names no tag.
const MOST: usize = 4_294_967_295;

/// What the edges of a graph may name: so many tags, graphs, and states of its own.
#[derive(Clone, Copy, Drop)]
pub struct Limits {
    /// The tags, from tag 0.
    pub tags: usize,
    /// The graphs, from graph 1.
    pub graphs: usize,
    /// The states, from state 0.
    pub states: usize,
}

/// The line, from 1, of the first state of which a label or a target names nothing. Takes time in
/// the edges, and no memory.
pub fn bad_label(text: &Fst2Text) -> Option<usize>
    ensures { MatchOption result (LabelsFit text.now.file) (StopsAtLabel text.now.file) }
{
    let graphs = text.file.graphs.as_slice();
    let mut before = 1;
    for graph in graphs {
        if let Some(place) = bad_state_in(&text.file, graph) {
            // Behind the lines before it stands the graph's name, and then its state 0.
            return Some(before + 2 + place);
        }
        before += graph.states.as_slice().len() + 2;
    }
    None
}

/// The place of the first state of a graph of the file with an edge that doesn't fit.
fn bad_state_in(file: &Fst2File, graph: &Fst2Graph) -> Option<usize>
    ensures { MatchOption result (FitsGraph file.now graph.now)
        (IsBadState (limits_of file.now graph.now) graph.now.states) }
{
    bad_state(graph.states.as_slice(), limits_in(file, graph))
}

/// What the edges of a graph of the file may name.
fn limits_in(file: &Fst2File, graph: &Fst2Graph) -> Limits
    ensures { result ≡ limits_of file.now graph.now }
{
    Limits {
        tags: file.tags.as_slice().len().min(MOST),
        graphs: file.graphs.as_slice().len(),
        states: graph.states.as_slice().len(),
    }
}

/// The place of the first state with an edge that doesn't fit.
fn bad_state(states: &[Fst2State], limits: Limits) -> Option<usize>
    ensures { MatchOption result (All (FitsState limits) states.now)
        (IsBadState limits states.now) }
{
    for (place, state) in states.iter().enumerate() {
        if !fit(state.edges.as_slice(), limits) {
            return Some(place);
        }
    }
    None
}

/// Whether all edges fit.
fn fit(edges: &[Fst2Edge], limits: Limits) -> bool
    ensures { IsTrue result ↔ All (FitsEdge limits) edges.now }
{
    for edge in edges {
        if !fits(*edge, limits) {
            return false;
        }
    }
    true
}

/// Whether the label and the target of an edge name something.
fn fits(edge: Fst2Edge, limits: Limits) -> bool
    ensures { IsTrue result ↔ FitsEdge limits edge }
{
    label_fits(edge.label, limits) && (edge.target as usize) < limits.states
}

/// Whether a label names something.
fn label_fits(label: Fst2Label, limits: Limits) -> bool
    ensures { IsTrue result ↔ FitsLabel limits label }
{
    match label {
        Fst2Label::Tag(tag) => (tag as usize) < limits.tags,
        Fst2Label::Call(graph) => 0 < graph && graph as usize <= limits.graphs,
    }
}
