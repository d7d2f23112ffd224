//! The states of a flat graph, made copy by copy.
//!
//! A copy that is still to be made stands on a stack, with the number of its first state and the state to
//! which its ends lead. When it is made, the copies in place of its calls are put on the stack, the last
//! of them first, so each copy is followed by its own. The sizes tell where each begins before it is
//! made. Calls may nest as deep as they like: the stack is a list.

ghost use Rattle.std.specs.Prelude.{◌≡◌, ◌+◌, ◌++◌, ◌<◌, ◌≤◌, IfOk, OnOk, None, length, reverse, sum_by};
ghost use Rattle.ux_net.specs.StateGraphs.{AreInsideStates, told_states};
ghost use Rattle.ux_flatten.specs.Copies.{called as called_by, stopped as stopped_by, is_end as is_end_of, end_edges, copied_by, copy, size, edges_of};
ghost use Rattle.ux_flatten.specs.Making.{MANY, AreSizes, has_word, room_in, edge_in, edges_in, state_in, states_in, pending_if, pending_in};

use crate::pending::Pending;
use crate::source::{Source, called};
use std::alloc::Global;
use ux_base::{Lst, Mem, NoMemory, Txt};
use ux_boxes::copied_output;
use ux_net::{Edge, Label, State};

/// The states of the flat graph to a depth. Takes a step for each state and each edge that it makes.
pub(crate) fn flat_states(alloc: Global, source: &Source, depth: u32) -> Mem<Vec<State>>
    requires inside { AreInsideStates source.now.graphs.items }
    requires some { 1 ≤ length source.now.graphs.items }
    requires sizes { AreSizes source.now.graphs.items (has_word source.now) depth source.now.sizes.items }
    requires few { size source.now.graphs.items (has_word source.now) depth 1 < MANY }
    ensures { IfOk result (λ states. states.items
        ≡ copy source.now.graphs.items (has_word source.now) depth 1 0 None) }
{
    let mut states = Vec::new(alloc);
    let mut pending = Vec::new(alloc);
    pending.push(Pending {
        graph: 1,
        depth,
        first: 0,
        back: None,
    })?;
    while let Some(copy) = pending.pop() {
        push_copy(alloc, source, copy, &mut states, &mut pending)?;
    }
    Ok(states)
}

/// Adds the states of a copy, and puts the copies in place of its calls on the stack.
fn push_copy(
    alloc: Global,
    source: &Source,
    copy: Pending,
    states: &mut Vec<State>,
    pending: &mut Vec<Pending>,
) -> Mem<()>
    ensures states { OnOk result (states.new.items ≡ states.old.items
        ++ states_in source.now copy (copy.first + length (told_states source.now.graphs.items copy.graph))
        (told_states source.now.graphs.items copy.graph)) }
    ensures pending { OnOk result (pending.new.items ≡ pending.old.items
        ++ reverse (pending_in source.now copy
        (copy.first + length (told_states source.now.graphs.items copy.graph))
        (edges_of (told_states source.now.graphs.items copy.graph)))) }
{
    let inner = states_copied(alloc, source, copy, states)?;
    stack(pending, inner)
}

/// Adds the states of a copy. Returns the copies in place of its calls, in order.
fn states_copied(
    alloc: Global,
    source: &Source,
    copy: Pending,
    states: &mut Vec<State>,
) -> Mem<Vec<Pending>>
    ensures states { OnOk result (states.new.items ≡ states.old.items
        ++ states_in source.now copy (copy.first + length (told_states source.now.graphs.items copy.graph))
        (told_states source.now.graphs.items copy.graph)) }
    ensures inner { IfOk result (λ inner. inner.items ≡ pending_in source.now copy
        (copy.first + length (told_states source.now.graphs.items copy.graph))
        (edges_of (told_states source.now.graphs.items copy.graph))) }
{
    let from = source.states(copy.graph);
    let mut inner = Vec::new(alloc);
    let mut next = behind(copy.first, from)?;
    for state in from {
        states.push(state_copied(alloc, source, copy, &mut next, state, &mut inner)?)?;
    }
    Ok(inner)
}

/// The number of the first state behind those of a copy.
fn behind(first: u32, states: &[State]) -> Mem<u32>
    ensures { IfOk result (λ n. n ≡ first + length states.now) }
{
    let count = u32::try_from(states.len()).map_err(|_| NoMemory)?;
    sum(first, count)
}

/// Puts the copies on the stack, the last of them first.
fn stack(pending: &mut Vec<Pending>, mut inner: Vec<Pending>) -> Mem<()>
    ensures { OnOk result (pending.new.items ≡ pending.old.items ++ reverse inner.items) }
{
    while let Some(copy) = inner.pop() {
        pending.push(copy)?;
    }
    Ok(())
}

/// A state in a copy. Adds the copies in place of its edges, of which the first begins at `next`.
fn state_copied(
    alloc: Global,
    source: &Source,
    copy: Pending,
    next: &mut u32,
    state: &State,
    inner: &mut Vec<Pending>,
) -> Mem<State>
    ensures state { IfOk result (λ made. made ≡ state_in source.now copy next.old state.now) }
    ensures next { OnOk result
        (next.new ≡ next.old + sum_by (room_in source.now copy) state.now.edges) }
    ensures inner { OnOk result (inner.new.items
        ≡ inner.old.items ++ pending_in source.now copy next.old state.now.edges) }
{
    let mut edges = edges_copied(alloc, source, copy, next, state.edges.as_slice(), inner)?;
    push_end(alloc, copy.back, state.is_final, &mut edges)?;
    Ok(State {
        is_final: is_end(copy.back, state.is_final),
        edges: Lst::new(edges),
    })
}

/// Whether an end of a copy is final: where the copy is the main graph's.
fn is_end(back: Option<u32>, is_final: bool) -> bool
    ensures { result ≡ is_end_of back is_final }
{
    match back {
        Some(_) => false,
        None => is_final,
    }
}

/// Adds the edge from an end of a copy to where its call leads.
fn push_end(alloc: Global, back: Option<u32>, is_final: bool, edges: &mut Vec<Edge>) -> Mem<()>
    ensures { OnOk result (edges.new.items ≡ edges.old.items ++ end_edges back is_final) }
{
    match back {
        Some(target) if is_final => {
            edges.push(Edge {
                label: Label::Empty,
                output: Lst::new(Vec::new(alloc)),
                target,
            })?;
            Ok(())
        },
        Some(_) | None => Ok(()),
    }
}

/// The edges in a copy. Adds the copies in place of them, of which the first begins at `next`.
fn edges_copied(
    alloc: Global,
    source: &Source,
    copy: Pending,
    next: &mut u32,
    edges: &[Edge],
    inner: &mut Vec<Pending>,
) -> Mem<Vec<Edge>>
    ensures edges { IfOk result (λ made. made.items ≡ edges_in source.now copy next.old edges.now) }
    ensures next { OnOk result (next.new ≡ next.old + sum_by (room_in source.now copy) edges.now) }
    ensures inner { OnOk result (inner.new.items
        ≡ inner.old.items ++ pending_in source.now copy next.old edges.now) }
{
    let mut made = Vec::new(alloc);
    for edge in edges {
        made.push(edge_copied(alloc, source, copy, *next, edge)?)?;
        push_pending(source, copy, *next, edge, inner)?;
        *next = sum(*next, source.room(copy, edge))?;
    }
    Ok(made)
}

/// The edge in a copy, in place of which a graph may be copied whose first state is `next`.
fn edge_copied(alloc: Global, source: &Source, copy: Pending, next: u32, edge: &Edge) -> Mem<Edge>
    ensures { IfOk result (λ made. made ≡ edge_in source.now copy next edge.now) }
{
    let output = copied_output(alloc, edge.output.as_slice())?;
    match source.copied_by(copy.depth, edge) {
        Some(_) => Ok(Edge {
            label: Label::Empty,
            output,
            target: next,
        }),
        None => Ok(Edge {
            label: stopped(alloc, &edge.label)?,
            output,
            target: sum(copy.first, edge.target)?,
        }),
    }
}

/// Adds the copy in place of the edge, if there is one.
fn push_pending(
    source: &Source,
    copy: Pending,
    next: u32,
    edge: &Edge,
    inner: &mut Vec<Pending>,
) -> Mem<()>
    ensures { OnOk result (inner.new.items ≡ inner.old.items ++ pending_if source.now copy
        (copied_by source.now.graphs.items (has_word source.now) copy.depth edge.now) next edge.now) }
{
    match source.copied_by(copy.depth, edge) {
        Some(graph) => {
            inner.push(Pending {
                graph,
                depth: copy.depth.saturating_sub(1),
                first: next,
                back: Some(sum(copy.first, edge.target)?),
            })?;
            Ok(())
        },
        None => Ok(()),
    }
}

/// The label of an edge in place of which nothing is copied: a call becomes a text that no token has.
fn stopped(alloc: Global, label: &Label) -> Mem<Label>
    ensures { IfOk result (λ made. made ≡ stopped_by (called_by label.now) label.now) }
{
    match called(label) {
        Some(_) => Ok(Label::CaseExact(Txt::from_str(alloc, "{STOP}")?)),
        None => Ok(label.copy()?),
    }
}

/// The sum of two numbers, if 32 bits number it.
fn sum(first: u32, second: u32) -> Mem<u32>
    ensures { IfOk result (λ n. n ≡ first + second) }
{
    match first.checked_add(second) {
        Some(n) => Ok(n),
        None => Err(NoMemory),
    }
}
