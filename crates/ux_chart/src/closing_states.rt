//! The states from which edges close contexts.
//!
//! They are marked once, when a chart is begun. So what a search has seen is looked at again only at
//! these states, and the many edges of another one are not.

ghost use Rattle.std.specs.Prelude.{◌≡◌, ℕ, ◌≤◌, Bool, true, IfOk, IsTrue, Some, length, slice_get};
ghost use Rattle.ux_net.specs.declared.label.Label.TheVariants.{ContextEnd};
ghost use Rattle.ux_chart.specs.ClosingStates.{AreClosing, AreMarks, SomeCloses, marks_at};

use std::alloc::Global;
use ux_base::{Lst, Mem};
use ux_net::{Edge, Label, Net};

/// The states of a net from which an edge closes a context.
#[derive(Drop)]
pub struct ClosingStates {
    /// A row for each graph, with a mark for each state: whether it is one of them.
    pub rows: Vec<Lst<bool>>,
}

impl ClosingStates {
    /// Those of a net. Looks at each edge once.
    pub fn of(alloc: Global, net: &Net) -> Mem<ClosingStates>
        ensures { IfOk result (λ closing. AreClosing net.now closing) }
    {
        let mut rows = Vec::new(alloc);
        for before in 0..net.graphs() {
            let marks = marks_of(alloc, net, before + 1)?;
            rows.push(Lst::new(marks))?;
        }
        Ok(ClosingStates { rows })
    }

    /// The marks of a graph's states.
    pub fn marks(&self, graph: u32) -> &[bool]
        ensures { result.now ≡ marks_at self.now.rows.items graph }
    {
        let Some(before) = (graph as usize).checked_sub(1) else {
            return &[];
        };
        match self.rows.get(before) {
            Some(row) => row.as_slice(),
            None => &[],
        }
    }
}

/// A mark for each state of a graph: whether an edge from it closes a context.
fn marks_of(alloc: Global, net: &Net, graph: u32) -> Mem<Vec<bool>>
    requires from { 1 ≤ graph }
    requires to { graph ≤ length net.now }
    ensures { IfOk result (λ marks. AreMarks net.now graph marks.items) }
{
    let mut marks = Vec::new(alloc);
    for state in 0..net.states(graph) {
        marks.push(some_closes(net.edges(graph, state)))?;
    }
    Ok(marks)
}

/// Whether one of the edges closes a context.
fn some_closes(edges: &[Edge]) -> bool
    ensures { SomeCloses edges.now → result ≡ true }
{
    for edge in edges {
        if closes(edge) {
            return true;
        }
    }
    false
}

/// Whether the edge closes a context.
fn closes(edge: &Edge) -> bool
    ensures { edge.now.label ≡ ContextEnd → IsTrue result }
{
    match &edge.label {
        Label::ContextEnd => true,
        _ => false,
    }
}

/// Whether the state is marked.
pub fn is_marked(marks: &[bool], state: u32) -> bool
    ensures { slice_get marks.now state ≡ Some true → IsTrue result }
{
    match marks.get(state as usize) {
        Some(mark) => *mark,
        None => false,
    }
}
