//! How big copies are, reckoned without making them.
//!
//! There is a row of sizes for each depth. That of depth 0 tells how many states each graph has, and each
//! other one is made of the row before. A size is told as far as 1,000,001, which is more than a flat
//! graph may have.

ghost use Rattle.std.specs.Prelude.{◌≡◌, ◌+◌, ◌≤◌, IfOk, map, sum_by};
ghost use Rattle.ux_net.specs.StateGraphs.{AreInsideStates};
ghost use Rattle.ux_flatten.specs.Making.{MANY as many, word_at, size_at, capped as capped_to, callee_size as size_of_callee, size_from as size_from_row, own_size, AreSizes};

use crate::source::{called, is_marked, size_in};
use std::alloc::Global;
use ux_base::{Lst, Mem};
use ux_net::{Edge, StateGraph};

/// One more than the most states of a flat graph.
pub(crate) const MANY: u32 = 1_000_001;

/// The sizes of copies at each depth up to this one. Takes a step for each edge of the graphs and each
/// depth.
pub(crate) fn sizes_to(
    alloc: Global,
    graphs: &[StateGraph],
    words: &[bool],
    depth: u32,
) -> Mem<Vec<Lst<u32>>>
    requires { AreInsideStates graphs.now }
    ensures { IfOk result (λ rows. AreSizes graphs.now (word_at words.now) depth rows.items) }
{
    let mut rows = Vec::new(alloc);
    let mut row = own_sizes(alloc, graphs)?;
    while rows.len() < depth as usize {
        let above = sizes_above(alloc, graphs, words, &row)?;
        rows.push(Lst::new(row))?;
        row = above;
    }
    rows.push(Lst::new(row))?;
    Ok(rows)
}

/// How many states each graph has.
fn own_sizes(alloc: Global, graphs: &[StateGraph]) -> Mem<Vec<u32>>
    ensures { IfOk result (λ row. row.items ≡ map own_size graphs.now) }
{
    let mut row = Vec::new(alloc);
    for graph in graphs {
        row.push(capped(graph.states.as_slice().len()))?;
    }
    Ok(row)
}

/// The sizes of copies one depth above those of the row.
fn sizes_above(alloc: Global, graphs: &[StateGraph], words: &[bool], below: &[u32]) -> Mem<Vec<u32>>
    ensures { IfOk result (λ row. row.items
        ≡ map (size_from_row (word_at words.now) (size_at below.now)) graphs.now) }
{
    let mut row = Vec::new(alloc);
    for graph in graphs {
        row.push(size_from(graph, words, below))?;
    }
    Ok(row)
}

/// The size of a copy of the graph, by those of copies one depth below.
fn size_from(graph: &StateGraph, words: &[bool], below: &[u32]) -> u32
    ensures { result ≡ size_from_row (word_at words.now) (size_at below.now) graph.now }
{
    let mut size = capped(graph.states.as_slice().len());
    for state in graph.states.as_slice() {
        size = with_calls(size, state.edges.as_slice(), words, below);
    }
    size
}

/// The size with the copies in place of the edges.
fn with_calls(size: u32, edges: &[Edge], words: &[bool], below: &[u32]) -> u32
    requires { size ≤ many }
    ensures { result ≡ capped_to (size
        + sum_by (size_of_callee (word_at words.now) (size_at below.now)) edges.now) }
{
    let mut size = size;
    for edge in edges {
        size = capped_sum(size, callee_size(edge, words, below));
    }
    size
}

/// How many states stand in place of the edge.
fn callee_size(edge: &Edge, words: &[bool], below: &[u32]) -> u32
    ensures { result ≡ size_of_callee (word_at words.now) (size_at below.now) edge.now }
{
    match called(&edge.label) {
        Some(graph) if is_marked(words, graph) => size_in(below, graph),
        Some(_) | None => 0,
    }
}

/// The number, as far as sizes are told.
fn capped(count: usize) -> u32
    ensures { result ≡ capped_to count }
{
    if count < MANY as usize {
        count as u32
    } else {
        MANY
    }
}

/// The sum, as far as sizes are told.
fn capped_sum(first: u32, second: u32) -> u32
    ensures { result ≡ capped_to (first + second) }
{
    match first.checked_add(second) {
        Some(size) => capped(size as usize),
        None => MANY,
    }
}
