//! The graphs of a net, built of states and of what was found of the places that stand for them.

ghost use Rattle.std.specs.Prelude.{◌≡◌, ℕ, suc, ◌+◌, ◌<◌, ◌≤◌, [], length, map, get_or, false, IfOk, OnOk};
ghost use Rattle.std.specs.Vec.Iter.{into_iter_items};
ghost use Rattle.ux_boxes.specs.Numbers.{AreOffsets};
ghost use Rattle.ux_states.specs.Building.{hub_rank, hub_free, IsBuiltOf, AreBuilt};

use crate::parting::part;
use std::alloc::Global;
use std::vec::IntoIter;
use ux_admission::closings;
use ux_base::{Lst, Mem, NoMemory};
use ux_boxes::row_at;
use ux_net::{NetGraph, Rank, StateGraph};
use ux_state_places::{Admitted, Placed};

/// The graphs of a net of these. Where 32 bits don't number the levels of all places, it is out of
/// memory.
pub(crate) fn built(
    alloc: Global,
    graphs: Vec<StateGraph>,
    placed: &Placed,
    admitted: &Admitted,
    offsets: &[usize],
) -> Mem<Vec<NetGraph>>
    requires count { length placed.now.places.items ≡ length graphs.items }
    requires offsets { AreOffsets placed.now.places.items offsets.now }
    ensures built { IfOk result (λ net. AreBuilt graphs.items placed.now.places.items
        placed.now.states.items placed.now.hubs.items admitted.now.closers.items
        admitted.now.ranks.items admitted.now.free.items net.items) }
    ensures few { OnOk result (length admitted.now.levels.items + 1 < 4294967296) }
{
    if admitted.levels.len() >= u32::MAX as usize {
        return Err(NoMemory);
    }
    each_built(alloc, graphs.into_iter(), placed, admitted, offsets)
}

/// The same, graph by graph.
fn each_built(
    alloc: Global,
    mut graphs: IntoIter<StateGraph>,
    placed: &Placed,
    admitted: &Admitted,
    offsets: &[usize],
) -> Mem<Vec<NetGraph>>
    requires count { length placed.now.places.items ≡ length (into_iter_items graphs) }
    requires offsets { AreOffsets placed.now.places.items offsets.now }
    ensures { IfOk result (λ net. AreBuilt (into_iter_items graphs) placed.now.places.items
        placed.now.states.items placed.now.hubs.items admitted.now.closers.items
        admitted.now.ranks.items admitted.now.free.items net.items) }
{
    let mut net = Vec::new(alloc);
    while let Some(graph) = graphs.next() {
        let number = net.len();
        let before = offsets[number];
        net.push(graph_of(alloc, graph, number, placed, admitted, before)?)?;
    }
    Ok(net)
}

/// The graph of a net that is built of the one before which so many graphs and places stand.
fn graph_of(
    alloc: Global,
    graph: StateGraph,
    number: usize,
    placed: &Placed,
    admitted: &Admitted,
    before: usize,
) -> Mem<NetGraph>
    requires room { before + length (get_or placed.now.places.items number [])
        < 18446744073709551616 }
    ensures { IfOk result (IsBuiltOf graph (get_or placed.now.places.items number [])
        (get_or placed.now.states.items number []) (get_or placed.now.hubs.items number [])
        (λ p. get_or admitted.now.closers.items (before + p) [])
        (get_or admitted.now.ranks.items number []) (get_or admitted.now.free.items number [])) }
{
    let StateGraph { name, states } = graph;
    let places = row_at(&placed.places, number);
    let hubs = row_at(&placed.hubs, number);
    let stands = row_at(&placed.states, number);
    let closings = closings(alloc, places, stands, &admitted.closers, before)?;
    let ranks = ranks(alloc, hubs, row_at(&admitted.ranks, number))?;
    let free = frees(alloc, hubs, row_at(&admitted.free, number))?;
    let parted = part(alloc, states.into_vec().into_iter(), places, hubs)?;
    Ok(NetGraph {
        name,
        states: Lst::new(parted.searched),
        ranks: Lst::new(ranks),
        free: Lst::new(free),
        closings: Lst::new(closings),
        unmet: Lst::new(parted.unmet),
    })
}

/// The ranks of states with these hubs.
fn ranks(alloc: Global, hubs: &[u32], row: &[usize]) -> Mem<Vec<Rank>>
    ensures { IfOk result (λ ranks. ranks.items ≡ map (hub_rank row.now) hubs.now) }
{
    let mut ranks = Vec::with_capacity(alloc, hubs.len())?;
    for hub in hubs {
        ranks.push(Rank {
            major: rank_at(row, *hub),
            minor: 0,
        })?;
    }
    Ok(ranks)
}

/// The rank of a hub.
fn rank_at(row: &[usize], hub: u32) -> usize
    ensures { result ≡ get_or row.now hub 0 }
{
    match row.get(hub as usize) {
        Some(rank) => *rank,
        None => 0,
    }
}

/// The marks of states with these hubs.
fn frees(alloc: Global, hubs: &[u32], row: &[bool]) -> Mem<Vec<bool>>
    ensures { IfOk result (λ frees. frees.items ≡ map (hub_free row.now) hubs.now) }
{
    let mut frees = Vec::with_capacity(alloc, hubs.len())?;
    for hub in hubs {
        frees.push(is_free_at(row, *hub))?;
    }
    Ok(frees)
}

/// The mark of a hub.
fn is_free_at(row: &[bool], hub: u32) -> bool
    ensures { result ≡ get_or row.now hub false }
{
    match row.get(hub as usize) {
        Some(is_free) => *is_free,
        None => false,
    }
}
