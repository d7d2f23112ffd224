//! States made of places: one for each reached place, and chains of states for longer lines.
//!
//! The state of a place has one edge for each line of each target, of the line's first label. What
//! follows on the line hangs on chain states, which all places that lead to the target share: so
//! the time is linear in states and edges. A place 0 that leads to place 2 with the lines `a b` and
//! `c`, from which a run may end, gives
//!
//! ```text
//! state 0 --a--> state 2 --b--> state 1 (final)
//! state 0 --c--> state 1
//! ```
//!
//! where state 1 is that of place 2, and state 2 a chain state. What place 2 puts out stands on the
//! two edges that leave state 0, and so before each of its lines. A call has no output on its edge:
//! if place 2 has the output `o` and one line, a call of the graph `g`, the output has an edge of
//! its own, with the empty word, and the call hangs on a chain state.
//!
//! ```text
//! state 0 --<E>/o--> state 2 --:g--> state 1 (final)
//! ```

ghost use Rattle.std.specs.Prelude.{◌≡◌, ◌+◌, ◌-◌, ◌<◌, ◌++◌, length, get_or, IfOk, OnOk, cond, ltb};
ghost use Rattle.std.specs.List.{range_with_len, flat_map};
ghost use Rattle.ux_net.specs.declared.label.Label.TheVariants.{Empty};
ghost use Rattle.ux_boxes.specs.Places.{place_targets, label_lines};
ghost use Rattle.ux_compile.specs.Chains.{IsChain};
ghost use Rattle.ux_compile.specs.Construct.{AreFit, number as number_of, labels_at, output_before as output_before_of, chain_len as chain_len_of, chain_start, edge_of, edges_to, place_state as place_state_of, chain_state as chain_state_of, along_line, along_lines, at_place, states_of, table_of, AreTargetsInside};

use crate::numbering::{
    called_behind, chain_len, has_state, labels, line_count, numbers, place_output, starts,
};
use std::alloc::{AllocError, Global};
use ux_base::{Lst, Mem};
use ux_boxes::{Place, copied_output};
use ux_grf::Piece;
use ux_net::{Edge, Label, State};

/// The numbers by which the edges of a line lead.
#[derive(Clone, Copy)]
pub struct Chain {
    /// The number of the state of the line's place.
    pub number: u32,
    /// The number of the line's first chain state.
    pub first: u32,
}

/// The states that are made of the places of a graph.
pub fn states(alloc: Global, places: &[Place]) -> Mem<Vec<State>>
    requires { AreFit places.now }
    ensures states { IfOk result (λ states. states.items ≡ states_of places.now) }
    ensures some { IfOk result (λ states. 0 < length states.items) }
    ensures few { IfOk result (λ states. length states.items < 4294967296) }
    ensures inside { IfOk result (λ states. AreTargetsInside states.items) }
{
    let numbers = numbers(alloc, places)?;
    let starts = starts(alloc, places)?;
    let mut states = place_states(alloc, places, &numbers, &starts)?;
    chain_states(alloc, places, &numbers, &starts, &mut states)?;
    Ok(states)
}

/// The states of the places.
fn place_states(alloc: Global, places: &[Place], numbers: &[u32], starts: &[u32]) -> Mem<Vec<State>>
    requires fit { AreFit places.now }
    requires numbers { numbers.now ≡ table_of places.now (number_of places.now) }
    requires starts { starts.now ≡ table_of places.now (chain_start places.now) }
    ensures { IfOk result (λ states. states.items ≡
        flat_map (at_place places.now (place_state_of places.now))
        (range_with_len 0 (length places.now))) }
{
    let mut states = Vec::new(alloc);
    for place in 0..places.len() {
        push_place(alloc, places, numbers, starts, place, &mut states)?;
    }
    Ok(states)
}

/// Adds the state of a place, where it has one.
fn push_place(
    alloc: Global,
    places: &[Place],
    numbers: &[u32],
    starts: &[u32],
    place: usize,
    states: &mut Vec<State>,
) -> Mem<()>
    requires fit { AreFit places.now }
    requires numbers { numbers.now ≡ table_of places.now (number_of places.now) }
    requires starts { starts.now ≡ table_of places.now (chain_start places.now) }
    ensures { OnOk result (states.new.items
        ≡ states.old.items ++ at_place places.now (place_state_of places.now) place) }
{
    if has_state(places, place) {
        states.push(place_state(alloc, places, numbers, starts, place)?)?;
        return Ok(());
    }
    Ok(())
}

/// The state of a place.
fn place_state(
    alloc: Global,
    places: &[Place],
    numbers: &[u32],
    starts: &[u32],
    place: usize,
) -> Mem<State>
    requires fit { AreFit places.now }
    requires numbers { numbers.now ≡ table_of places.now (number_of places.now) }
    requires starts { starts.now ≡ table_of places.now (chain_start places.now) }
    ensures { IfOk result (λ state. state ≡ place_state_of places.now place) }
{
    let targets = targets(places, place);
    let mut edges = Vec::new(alloc);
    for target in targets {
        push_edges(alloc, places, numbers, starts, *target as usize, &mut edges)?;
    }
    Ok(State {
        is_final: targets.contains(&1),
        edges: Lst::new(edges),
    })
}

/// Where the place leads.
pub(crate) fn targets(places: &[Place], place: usize) -> &[u32]
    ensures { result.now ≡ place_targets places.now place }
{
    match places.get(place) {
        Some(found) => found.targets.as_slice(),
        None => &[],
    }
}

/// Adds the edges to a place.
fn push_edges(
    alloc: Global,
    places: &[Place],
    numbers: &[u32],
    starts: &[u32],
    place: usize,
    edges: &mut Vec<Edge>,
) -> Mem<()>
    requires fit { AreFit places.now }
    requires numbers { numbers.now ≡ table_of places.now (number_of places.now) }
    requires starts { starts.now ≡ table_of places.now (chain_start places.now) }
    requires place { place < length places.now }
    ensures { OnOk result (edges.new.items ≡ edges.old.items ++ edges_to places.now place) }
{
    let mut chain = first_chain(places, numbers, starts, place);
    edges.reserve(line_count(places, place))?;
    for line in 0..line_count(places, place) {
        edges.push(edge(alloc, places, place, line, chain, 0)?)?;
        chain = next_chain(places, place, line, chain);
    }
    Ok(())
}

/// The numbers of the first line of a place.
fn first_chain(places: &[Place], numbers: &[u32], starts: &[u32], place: usize) -> Chain
    requires numbers { numbers.now ≡ table_of places.now (number_of places.now) }
    requires starts { starts.now ≡ table_of places.now (chain_start places.now) }
    requires place { place < length places.now }
    ensures { IsChain places.now place 0 result }
{
    Chain {
        number: numbers[place],
        first: starts[place],
    }
}

/// The numbers of the line behind this one. Its chain states stand behind those of this one.
fn next_chain(places: &[Place], place: usize, line: usize, chain: Chain) -> Chain
    requires fit { AreFit places.now }
    requires place { place < length places.now }
    requires line { line < length (label_lines places.now place) }
    requires chain { IsChain places.now place line chain }
    ensures { IsChain places.now place (line + 1) result }
{
    let first = chain.first + chain_len(places, place, line) as u32;
    Chain { first, ..chain }
}

/// Adds the chain states of all places.
fn chain_states(
    alloc: Global,
    places: &[Place],
    numbers: &[u32],
    starts: &[u32],
    states: &mut Vec<State>,
) -> Mem<()>
    requires fit { AreFit places.now }
    requires numbers { numbers.now ≡ table_of places.now (number_of places.now) }
    requires starts { starts.now ≡ table_of places.now (chain_start places.now) }
    ensures { OnOk result (states.new.items ≡ states.old.items
        ++ flat_map (along_lines places.now (chain_state_of places.now))
        (range_with_len 0 (length places.now))) }
{
    for place in 0..places.len() {
        push_chains(alloc, places, numbers, starts, place, states)?;
    }
    Ok(())
}

/// Adds the chain states of a place.
fn push_chains(
    alloc: Global,
    places: &[Place],
    numbers: &[u32],
    starts: &[u32],
    place: usize,
    states: &mut Vec<State>,
) -> Mem<()>
    requires fit { AreFit places.now }
    requires numbers { numbers.now ≡ table_of places.now (number_of places.now) }
    requires starts { starts.now ≡ table_of places.now (chain_start places.now) }
    requires place { place < length places.now }
    ensures { OnOk result (states.new.items
        ≡ states.old.items ++ along_lines places.now (chain_state_of places.now) place) }
{
    let mut chain = first_chain(places, numbers, starts, place);
    for line in 0..line_count(places, place) {
        push_chain(alloc, places, place, line, chain, states)?;
        chain = next_chain(places, place, line, chain);
    }
    Ok(())
}

/// Adds the chain states of a line.
fn push_chain(
    alloc: Global,
    places: &[Place],
    place: usize,
    line: usize,
    chain: Chain,
    states: &mut Vec<State>,
) -> Mem<()>
    requires chain { IsChain places.now place line chain }
    requires fits { chain.first + chain_len_of places.now place line < 4294967296 }
    ensures { OnOk result (states.new.items
        ≡ states.old.items ++ along_line places.now (chain_state_of places.now) place line) }
{
    for k in 0..chain_len(places, place, line) {
        states.push(chain_state(alloc, places, place, line, chain, k)?)?;
    }
    Ok(())
}

/// Chain state `k` of a line.
fn chain_state(
    alloc: Global,
    places: &[Place],
    place: usize,
    line: usize,
    chain: Chain,
    k: usize,
) -> Mem<State>
    requires chain { IsChain places.now place line chain }
    requires fits { chain.first + chain_len_of places.now place line < 4294967296 }
    requires label { k < chain_len_of places.now place line }
    ensures { IfOk result (λ state. state ≡ chain_state_of places.now place line k) }
{
    let mut edges = Vec::with_capacity(alloc, 1)?;
    edges.push(edge(alloc, places, place, line, chain, k + 1)?)?;
    Ok(State {
        is_final: false,
        edges: Lst::new(edges),
    })
}

/// The edge of label `k` of a line.
fn edge(
    alloc: Global,
    places: &[Place],
    place: usize,
    line: usize,
    chain: Chain,
    k: usize,
) -> Mem<Edge>
    requires chain { IsChain places.now place line chain }
    requires fits { chain.first + chain_len_of places.now place line < 4294967296 }
    requires label { k < length (labels_at places.now place line) }
    ensures { IfOk result (λ edge. edge ≡ edge_of places.now place line k) }
{
    let labels = chain_len(places, place, line) + 1;
    let target = target(chain.first, k, labels, chain.number);
    Ok(Edge {
        label: label(places, place, line, k)?,
        output: output_before(alloc, places, place, k)?,
        target,
    })
}

/// A copy of label `k` of a line's edges. What is put out before a call has an edge of its own.
fn label(places: &[Place], place: usize, line: usize, k: usize) -> Result<Label, AllocError>
    requires label { k < length (labels_at places.now place line) }
    ensures { IfOk result (λ label. label ≡ get_or (labels_at places.now place line) k Empty) }
{
    let labels = labels(places, place, line);
    match called_behind(places, place, line) {
        None => labels[k].copy(),
        Some(_) => match k.checked_sub(1) {
            None => Ok(Label::Empty),
            Some(index) => labels[index].copy(),
        },
    }
}

/// What is put out before label `k` of a line of the place: before the first, what the place puts
/// out.
fn output_before(alloc: Global, places: &[Place], place: usize, k: usize) -> Mem<Lst<Piece>>
    ensures { IfOk result (λ output. output ≡ output_before_of places.now place k) }
{
    match k {
        0 => copied_output(alloc, place_output(places, place)),
        _ => Ok(Lst::new(Vec::new(alloc))),
    }
}

/// Where label `k` of a line of `len` labels leads.
fn target(first: u32, k: usize, len: usize, number: u32) -> u32
    requires label { k < len }
    requires fits { first + (len - 1) < 4294967296 }
    ensures { result ≡ cond (ltb (k + 1) len) (first + k) number }
{
    if k + 1 < len {
        first + k as u32
    } else {
        number
    }
}
