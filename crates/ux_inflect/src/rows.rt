//! The edges of a net as rows of numbers, for searches: which states a state leads to, and which
//! graphs a graph calls.

ghost use Rattle.std.specs.Prelude.{◌≡◌, ◌<◌, ◌≤◌, ◌++◌, ◌∷◌, [], ℕ, IfOk, OnOk, length, filter, map, nat_lt};
ghost use Rattle.std.specs.List.{flat_map};
ghost use Rattle.ux_net.specs.declared.state.Edge.{Edge};
ghost use Rattle.ux_net.specs.Nets.{states_of};
ghost use Rattle.ux_inflect.specs.Cyclic.{called_on, calls_of_state, call_rows, state_rows};
ghost use Rattle.ux_inflect.specs.Rows.{inner_rows};

use std::alloc::Global;
use ux_base::{Lst, Mem};
use ux_net::{Edge, Label, Net};

/// The states to which each state of a graph leads, as far as there are such states.
#[tactic(auto, using(crate::proofs::ListLemmas::states_next))]
pub(crate) fn rows_of_states(alloc: Global, net: &Net, graph: u32) -> Mem<Vec<Lst<usize>>>
    requires from { 1 ≤ graph }
    requires to { graph ≤ length net.now }
    ensures rows { IfOk result (λ rows.
        rows.items ≡ inner_rows (state_rows (states_of net.now graph))) }
    ensures some { IfOk result (λ rows. 0 < length rows.items) }
{
    let count = net.states(graph);
    let mut rows = Vec::with_capacity(alloc, count as usize)?;
    for state in 0..count {
        let row = row_of_state(alloc, net.edges(graph, state), count as usize)?;
        rows.push(Lst::new(row))?;
    }
    Ok(rows)
}

/// The states to which the edges lead, of so many.
#[tactic(auto, using(crate::proofs::ListLemmas::filter_ends))]
fn row_of_state(alloc: Global, edges: &[Edge], count: usize) -> Mem<Vec<usize>>
    ensures { IfOk result (λ row. row.items ≡
        filter (λ target. nat_lt target count) (map (λ (edge : Edge). edge.target) edges.now)) }
{
    let mut row = Vec::with_capacity(alloc, edges.len())?;
    for edge in edges {
        put_below(&mut row, edge.target as usize, count)?;
    }
    Ok(row)
}

/// The graphs that each graph calls, by the numbers of graphs, as far as there are such graphs.
pub(crate) fn rows_of_calls(alloc: Global, net: &Net) -> Mem<Vec<Lst<usize>>>
    ensures rows { IfOk result (λ rows. rows.items ≡ inner_rows (call_rows net.now)) }
    ensures some { IfOk result (λ rows. 1 < length rows.items) }
{
    let count = net.graphs();
    let mut rows = Vec::with_capacity(alloc, count as usize + 1)?;
    rows.push(Lst::new(Vec::new(alloc)))?;
    for before in 0..count {
        let row = row_of_graph(alloc, net, before + 1, count as usize + 1)?;
        rows.push(Lst::new(row))?;
    }
    Ok(rows)
}

/// The graphs that a graph calls, of those below the bound.

fn row_of_graph(alloc: Global, net: &Net, graph: u32, bound: usize) -> Mem<Vec<usize>>
    requires from { 1 ≤ graph }
    requires to { graph ≤ length net.now }
    ensures { IfOk result (λ row. row.items ≡ filter (λ called. nat_lt called bound)
        (flat_map calls_of_state (states_of net.now graph))) }
{
    let mut row = Vec::new(alloc);
    for state in 0..net.states(graph) {
        put_calls(&mut row, net.edges(graph, state), bound)?;
    }
    Ok(row)
}

/// Puts the graphs that are called on the edges into the row, of those below the bound.
#[tactic(auto, using(crate::proofs::ListLemmas::filter_next))]
fn put_calls(row: &mut Vec<usize>, edges: &[Edge], bound: usize) -> Mem<()>
    ensures { OnOk result (row.new.items ≡ row.old.items ++ filter (λ called. nat_lt called bound)
        (flat_map (λ (edge : Edge). called_on edge.label) edges.now)) }
{
    for edge in edges {
        put_call(row, &edge.label, bound)?;
    }
    Ok(())
}

/// Puts the graph that the label calls into the row, if it is below the bound.
fn put_call(row: &mut Vec<usize>, label: &Label, bound: usize) -> Mem<()>
    ensures { OnOk result (row.new.items ≡ row.old.items
        ++ filter (λ called. nat_lt called bound) (called_on label.now)) }
{
    match label {
        Label::Call(graph) => put_below(row, *graph as usize, bound),
        Label::Empty
        | Label::CaseFolded(_)
        | Label::CaseExact(_)
        | Label::Mask(_)
        | Label::Brace(_)
        | Label::Space
        | Label::NoSpace
        | Label::Begin(_)
        | Label::End(_)
        | Label::Positive
        | Label::Negative
        | Label::ContextEnd
        | Label::Cut => Ok(()),
    }
}

/// Puts the number into the row, if it is below the bound.
fn put_below(row: &mut Vec<usize>, number: usize, bound: usize) -> Mem<()>
    ensures { OnOk result (row.new.items ≡ row.old.items
        ++ filter (λ called. nat_lt called bound) (number ∷ [])) }
{
    if number < bound {
        row.push(number)?;
    }
    Ok(())
}
