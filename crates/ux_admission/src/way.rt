//! A step that may take nothing, or that enters a graph or a context; and a whole context.

/// A step whose line takes nothing, is one call or opens a context, or a whole context. Places are
/// numbered in their graph, and through all graphs, one after another.
#[derive(Clone, Copy)]
pub struct Way {
    /// The graph, counted from 1.
    pub graph: usize,
    /// The place of the graph from which it leads.
    pub source: usize,
    /// The place of the graph to which it leads.
    pub target: usize,
    /// The number of the source among the places of all graphs.
    pub from: usize,
    /// The number of the target among the places of all graphs.
    pub to: usize,
    /// How it leads there.
    pub passage: Passage,
}

/// How a way leads to its target.
#[derive(Clone, Copy)]
pub enum Passage {
    /// Along a line that takes nothing.
    Silent,
    /// Along a call of the graph whose start has this number.
    Calls(usize),
    /// Into a context, along the step that opens it.
    Opens,
    /// Over a whole context, which opens into this place of the graph, to a place into which it is
    /// closed.
    Jumps(usize),
}
