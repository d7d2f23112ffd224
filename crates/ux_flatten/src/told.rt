//! The graphs of a net with all their states, copied out.

ghost use Rattle.std.specs.Prelude.{◌≡◌, ◌<◌, ◌≤◌, IfOk, OnOk, Some, length, slice_get};
ghost use Rattle.ux_net.specs.Nets.{states_of};
ghost use Rattle.ux_net.specs.StateGraphs.{told_at};
ghost use Rattle.ux_net.specs.Whole.{whole_states_of};
ghost use Rattle.ux_flatten.specs.Flattening.{told};

use std::alloc::Global;
use ux_base::{Lst, Mem, Txt};
use ux_boxes::copied_output;
use ux_net::{Edge, Net, State, StateGraph};

/// The graphs of the net, as a file tells them.
pub(crate) fn told_graphs(alloc: Global, net: &Net) -> Mem<Vec<StateGraph>>
    ensures graphs { IfOk result (λ graphs. graphs.items ≡ told net.now) }
    ensures some { OnOk result (1 ≤ length net.now) }
{
    let mut graphs = Vec::new(alloc);
    for before in 0..net.graphs() {
        graphs.push(told_graph(alloc, net, before + 1)?)?;
    }
    Ok(graphs)
}

/// The graph of this number.
fn told_graph(alloc: Global, net: &Net, graph: u32) -> Mem<StateGraph>
    requires from { 1 ≤ graph }
    requires to { graph ≤ length net.now }
    ensures { IfOk result (λ made. told_at (told net.now) graph ≡ Some made) }
{
    Ok(StateGraph {
        name: Txt::from_str(alloc, net.name(graph))?,
        states: Lst::new(told_states(alloc, net, graph)?),
    })
}

/// The states of the graph of this number.
fn told_states(alloc: Global, net: &Net, graph: u32) -> Mem<Vec<State>>
    requires from { 1 ≤ graph }
    requires to { graph ≤ length net.now }
    ensures { IfOk result (λ states. states.items ≡ whole_states_of net.now graph) }
{
    let mut states = Vec::new(alloc);
    for state in 0..net.states(graph) {
        states.push(told_state(alloc, net, graph, state)?)?;
    }
    Ok(states)
}

/// The state of this number of the graph.
fn told_state(alloc: Global, net: &Net, graph: u32, state: u32) -> Mem<State>
    requires from { 1 ≤ graph }
    requires to { graph ≤ length net.now }
    requires inside { state < length (states_of net.now graph) }
    ensures { IfOk result (λ made. slice_get (whole_states_of net.now graph) state ≡ Some made) }
{
    Ok(State {
        is_final: net.is_whole_final(graph, state),
        edges: Lst::new(edges_copied(alloc, net.whole_edges(graph, state))?),
    })
}

/// A copy of the edges.
fn edges_copied(alloc: Global, edges: &[Edge]) -> Mem<Vec<Edge>>
    ensures { IfOk result (λ copy. copy.items ≡ edges.now) }
{
    let mut copy = Vec::new(alloc);
    for edge in edges {
        copy.push(edge_copied(alloc, edge)?)?;
    }
    Ok(copy)
}

/// A copy of the edge.
fn edge_copied(alloc: Global, edge: &Edge) -> Mem<Edge>
    ensures { IfOk result (λ copy. copy ≡ edge.now) }
{
    Ok(Edge {
        label: edge.label.copy()?,
        output: copied_output(alloc, edge.output.as_slice())?,
        target: edge.target,
    })
}
