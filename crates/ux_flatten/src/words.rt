//! Which graphs have a word.
//!
//! A word is the letters of a run from state 0 to a final state. Since contexts are closed, such a run is
//! there where any path leads so: a path that opens a context closes it before it comes to an end, and
//! closes none that it didn't open.

ghost use Rattle.std.specs.Prelude.{◌≡◌, ◌↔◌, ◌<◌, IfOk, IsTrue, length, map};
ghost use Rattle.ux_admission.specs.ContextClose.{AreClosed};
ghost use Rattle.ux_net.specs.StateGraphs.{AreInsideStates, state_grammar};
ghost use Rattle.ux_flatten.specs.Flattening.{TellsWords};
ghost use Rattle.ux_flatten.specs.Making.{word_at};
ghost use Rattle.ux_flatten.specs.Paths.{target_of, target_rows, targets_in, HasMarkedEnd, LeadsToEnd, StayInside};

use std::alloc::Global;
use ux_base::{Lst, Mem};
use ux_digraph::reached;
use ux_net::{State, StateGraph};

/// For each graph, whether it has a word.
pub(crate) fn words_of(alloc: Global, graphs: &[StateGraph]) -> Mem<Vec<bool>>
    requires inside { AreInsideStates graphs.now }
    requires closed { AreClosed (state_grammar graphs.now) }
    ensures { IfOk result (λ marks. TellsWords graphs.now (word_at marks.items)) }
{
    let mut marks = Vec::new(alloc);
    for graph in graphs {
        marks.push(leads_to_end(alloc, graph.states.as_slice())?)?;
    }
    Ok(marks)
}

/// Whether a path leads from state 0 to a final state.
fn leads_to_end(alloc: Global, states: &[State]) -> Mem<bool>
    requires some { 0 < length states.now }
    requires inside { StayInside states.now }
    ensures { IfOk result (λ leads. IsTrue leads ↔ LeadsToEnd states.now) }
{
    let targets = targets_of(alloc, states)?;
    let marks = reached(alloc, &targets, 0)?;
    Ok(has_marked_end(states, &marks))
}

/// For each state those to which its edges lead.
fn targets_of(alloc: Global, states: &[State]) -> Mem<Vec<Lst<usize>>>
    ensures { IfOk result (λ rows. rows.items ≡ target_rows states.now) }
{
    let mut rows = Vec::new(alloc);
    for state in states {
        rows.push(row_of(alloc, state)?)?;
    }
    Ok(rows)
}

/// The states to which the edges of a state lead.
fn row_of(alloc: Global, state: &State) -> Mem<Lst<usize>>
    ensures { IfOk result (λ row. row ≡ targets_in state.now) }
{
    let mut row = Vec::new(alloc);
    for edge in state.edges.as_slice() {
        row.push(edge.target as usize)?;
    }
    Ok(Lst::new(row))
}

/// Whether a final state is marked.
fn has_marked_end(states: &[State], marks: &[bool]) -> bool
    ensures { IsTrue result ↔ HasMarkedEnd states.now marks.now }
{
    for number in 0..states.len() {
        if states[number].is_final && marks.get(number) == Some(&true) {
            return true;
        }
    }
    false
}
