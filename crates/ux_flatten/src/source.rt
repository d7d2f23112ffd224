//! What the copies of a flat graph are made from.

ghost use Rattle.std.specs.Prelude.{◌≡◌, ◌-◌, get_or, []};
ghost use Rattle.ux_net.specs.StateGraphs.{told_states};
ghost use Rattle.ux_flatten.specs.Copies.{called as called_by, copied_by as copied_by_edge};
ghost use Rattle.ux_flatten.specs.Making.{word_at, size_at, has_word, sizes_below, room_in};

use crate::pending::Pending;
use ux_base::Lst;
use ux_net::{Edge, Label, State, StateGraph};

/// What the copies of a flat graph are made from.
#[derive(Drop)]
pub(crate) struct Source {
    /// The graphs, with all their states.
    pub graphs: Vec<StateGraph>,
    /// For each graph, whether it has a word.
    pub words: Vec<bool>,
    /// For each depth, how many states a copy of each graph has, with all copies in place of its calls.
    pub sizes: Vec<Lst<u32>>,
}

impl Source {
    /// The states of the graph of this number; nothing, where there is no such graph.
    pub fn states(&self, graph: u32) -> &[State]
        ensures { result.now ≡ told_states self.now.graphs.items graph }
    {
        states_of(&self.graphs, graph)
    }

    /// How many states the flat graph to the depth has, as far as sizes are told.
    pub fn size(&self, depth: u32) -> u32
        ensures { result ≡ size_at (get_or self.now.sizes.items depth []) 1 }
    {
        match self.sizes.get(depth as usize) {
            Some(sizes) => size_in(sizes.as_slice(), 1),
            None => 0,
        }
    }

    /// The graph that is copied in place of the edge: at a depth of 1 or more one that is called and has
    /// a word.
    pub fn copied_by(&self, depth: u32, edge: &Edge) -> Option<u32>
        ensures { result ≡ copied_by_edge self.now.graphs.items (has_word self.now) depth edge.now }
    {
        if depth == 0 {
            return None;
        }
        match called(&edge.label) {
            Some(graph) if is_marked(&self.words, graph) => Some(graph),
            Some(_) | None => None,
        }
    }

    /// How many states stand in place of the edge in a copy.
    pub fn room(&self, copy: Pending, edge: &Edge) -> u32
        ensures { result ≡ room_in self.now copy edge.now }
    {
        match self.copied_by(copy.depth, edge) {
            Some(graph) => self.size_below(copy.depth, graph),
            None => 0,
        }
    }

    /// The size of a copy of the graph one depth below.
    fn size_below(&self, depth: u32, graph: u32) -> u32
        ensures { result ≡ sizes_below self.now depth graph }
    {
        let row = (depth as usize).saturating_sub(1);
        match self.sizes.get(row) {
            Some(sizes) => size_in(sizes.as_slice(), graph),
            None => 0,
        }
    }
}

/// The states of the graph of this number; nothing, where there is no such graph.
pub(crate) fn states_of(graphs: &[StateGraph], graph: u32) -> &[State]
    ensures { result.now ≡ told_states graphs.now graph }
{
    if graph == 0 {
        return &[];
    }
    match graphs.get(graph as usize - 1) {
        Some(found) => found.states.as_slice(),
        None => &[],
    }
}

/// The graph that a label calls, if it is a call.
pub(crate) fn called(label: &Label) -> Option<u32>
    ensures { result ≡ called_by label.now }
{
    match label {
        Label::Call(graph) => Some(*graph),
        Label::Empty
        | Label::CaseFolded(_)
        | Label::CaseExact(_)
        | Label::Mask(_)
        | Label::Brace(_)
        | Label::Space
        | Label::NoSpace
        | Label::Begin(_)
        | Label::End(_)
        | Label::Positive
        | Label::Negative
        | Label::ContextEnd
        | Label::Cut => None,
    }
}

/// Whether the graph of this number is marked.
pub(crate) fn is_marked(marks: &[bool], graph: u32) -> bool
    ensures { result ≡ word_at marks.now graph }
{
    if graph == 0 {
        return false;
    }
    match marks.get(graph as usize - 1) {
        Some(mark) => *mark,
        None => false,
    }
}

/// The size of the graph of this number.
pub(crate) fn size_in(row: &[u32], graph: u32) -> u32
    ensures { result ≡ size_at row.now graph }
{
    if graph == 0 {
        return 0;
    }
    match row.get(graph as usize - 1) {
        Some(size) => *size,
        None => 0,
    }
}
