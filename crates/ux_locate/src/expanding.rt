//! How many states the calls of a grammar stand for.
//!
//! A walk follows a call as if the states of the called graph stood in its place. Thirty graphs that
//! each call the next twice stand for a thousand million states. A graph that calls itself stands for
//! more than any number: the walk from each start goes down as deep as the one before, and a text of such
//! starts costs its square. No answer rests on this count: it tells alone which search costs less.

ghost use Rattle.std.specs.Prelude.{IfOk, IsTrue};
ghost use Rattle.ux_net.specs.Nets.{ArePlain};

use std::alloc::Global;
use ux_base::{Lst, Mem};
use ux_digraph::{are_edges_inside, components};
use ux_net::{Edge, Label, Net};

/// As many states a walk may meet.
const MOST: usize = 65_536;

/// Whether walks suit a net: it has neither contexts nor cuts, no graph comes back to itself by its calls, in
/// however many turns, and each has at most 65,536 states, those of the graphs that it calls counted with each
/// call. Linear in the edges, but for a sorting of the graphs.
pub fn suits_walks(alloc: Global, net: &Net) -> Mem<bool>
    ensures { IfOk result (λ suits. IsTrue suits → ArePlain net.now) }
{
    if !net.is_plain() {
        return Ok(false);
    }
    let suits = is_small(alloc, net)?;
    Ok(suits)
}

/// Whether a graph of the net calls one. Looks at each edge once.
pub fn has_calls(net: &Net) -> bool {
    for before in 0..net.graphs() {
        for state in 0..net.states(before + 1) {
            if net.edges(before + 1, state).iter().any(|edge| calls(edge)) {
                return true;
            }
        }
    }
    false
}

/// Whether the edge calls a graph.
fn calls(edge: &Edge) -> bool {
    matches!(&edge.label, Label::Call(_))
}

/// Whether each graph has so few states, and none comes back to itself.
fn is_small(alloc: Global, net: &Net) -> Mem<bool> {
    let calls = calls_of(alloc, net)?;
    if !are_edges_inside(&calls) {
        return Ok(false);
    }
    let numbers = components(alloc, &calls)?;
    let order = order_of(alloc, &numbers)?;
    let mut sizes = sizes_of(alloc, net)?;
    Ok(are_small(&calls, &numbers, &order, &mut sizes))
}

/// Whether each graph has so few states with those of what it calls. Called graphs come first in the
/// order.
fn are_small(
    calls: &[Lst<usize>],
    numbers: &[usize],
    order: &[Numbered],
    sizes: &mut [usize],
) -> bool {
    for numbered in order {
        let Some(called) = calls.get(numbered.graph) else {
            return false;
        };
        let Some(more) = called_size(called.as_slice(), numbers, numbered.number, sizes) else {
            return false;
        };
        let Some(size) = sizes.get_mut(numbered.graph) else {
            return false;
        };
        *size = size.saturating_add(more);
        if MOST < *size {
            return false;
        }
    }
    true
}

/// The states of the called graphs, each counted as often as it is called; none, where one of them has this
/// number and so calls the caller in its turn.
fn called_size(
    called: &[usize],
    numbers: &[usize],
    number: usize,
    sizes: &[usize],
) -> Option<usize> {
    let mut size: usize = 0;
    for graph in called {
        if *numbers.get(*graph)? == number {
            return None;
        }
        size = size.saturating_add(*sizes.get(*graph)?);
    }
    Some(size)
}

/// A graph, counted from 0, and the number of its component.
#[derive(Clone, Copy)]
struct Numbered {
    number: usize,
    graph: usize,
}

/// The graphs in the order of their numbers.
fn order_of(alloc: Global, numbers: &[usize]) -> Mem<Vec<Numbered>> {
    let mut order = Vec::new(alloc);
    for graph in 0..numbers.len() {
        order.push(Numbered {
            number: numbers[graph],
            graph,
        })?;
    }
    order.sort_unstable_by_key(|numbered| numbered.number);
    Ok(order)
}

/// The number of states of each graph.
fn sizes_of(alloc: Global, net: &Net) -> Mem<Vec<usize>> {
    let mut sizes = Vec::new(alloc);
    for graph in 0..net.graphs() {
        sizes.push(net.states(graph + 1) as usize)?;
    }
    Ok(sizes)
}

/// For each graph those that it calls, counted from 0.
fn calls_of(alloc: Global, net: &Net) -> Mem<Vec<Lst<usize>>> {
    let mut calls = Vec::new(alloc);
    for graph in 0..net.graphs() {
        let mut called = Vec::new(alloc);
        for state in 0..net.states(graph + 1) {
            add_calls(net.edges(graph + 1, state), &mut called)?;
        }
        calls.push(Lst::new(called))?;
    }
    Ok(calls)
}

/// Adds the graphs that the edges call.
fn add_calls(edges: &[Edge], called: &mut Vec<usize>) -> Mem<()> {
    for edge in edges {
        if let Label::Call(graph) = &edge.label {
            // Graphs are counted from 1.
            called.push((*graph as usize).saturating_sub(1))?;
        }
    }
    Ok(())
}
