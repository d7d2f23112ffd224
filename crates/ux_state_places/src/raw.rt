//! The places of the ways into the states of a graph.

ghost use Rattle.std.specs.Prelude.{◌≡◌, ◌↔◌, ◌<◌, ℕ, true, List, [], ◌∷◌, Some, slice_get, Contains, length, IfOk, IfSome, IsTrue, OnOk};
ghost use Rattle.ux_admission.specs.Gains.{Gains, SoOfOne};
ghost use Rattle.ux_state_places.specs.Arrivals.{arrival_at, edge_arrival, hub_arrival, label_of, place_number, AreArrivals, AreFirsts, AreHubs, AreRawPlaces, AreStandingFor, IsTargetOf};
ghost use Rattle.ux_state_places.specs.RawPlaces.{with_second, AreMade, HaveEdges, HavePlacesOnce, IsEdgePlace, IsFinalPlace, IsHubPlace, IsLedTo, IsPlaceAt, IsPlaceFor, IsStateAt};

use crate::arrival::{Arrival, Kind, kind_of_label, label_of_kind};
use crate::arrivals::Ways;
use indexmap::IndexSet;
use std::alloc::{AllocError, Global};
use std::hash::Hash;
use ux_base::{Lst, Mem, NoMemory};
use ux_boxes::Place;
use ux_net::{Edge, Label, State};

/// The places of the ways, the end behind the first one.
pub fn raw_places(alloc: Global, states: &[State], ways: &Ways) -> Mem<Vec<Place>>
    requires are { AreArrivals states.now ways.now.kinds.items ways.now.arrivals.keys }
    requires firsts { AreFirsts ways.now.kinds.items ways.now.arrivals.keys
        ways.now.firsts.items }
    requires few { length ways.now.arrivals.keys < 4294967295 }
    ensures { IfOk result (λ places. AreRawPlaces states.now ways.now.kinds.items
        ways.now.arrivals.keys places.items) }
{
    let mut places = places_of(alloc, states, ways)?;
    put_second(&mut places, end_place(alloc))?;
    Ok(places)
}

/// The end, which has no lines and no targets.
fn end_place(alloc: Global) -> Place
    ensures output { result.output ≡ [] }
    ensures lines { result.lines ≡ [] }
    ensures targets { result.targets ≡ [] }
{
    Place {
        reached: false,
        output: Lst::new(Vec::new(alloc)),
        lines: Lst::new(Vec::new(alloc)),
        targets: Lst::new(Vec::new(alloc)),
    }
}

/// Puts the item behind the first.
fn put_second<T: Drop>(items: &mut Vec<T>, item: T) -> Mem<()>
    ensures { OnOk result (items.new.items ≡ with_second item items.old.items) }
{
    let at = if items.is_empty() { 0 } else { 1 };
    items.insert(at, item)?;
    Ok(())
}

/// The places of the ways, one after another.
fn places_of(alloc: Global, states: &[State], ways: &Ways) -> Mem<Vec<Place>>
    requires are { AreArrivals states.now ways.now.kinds.items ways.now.arrivals.keys }
    requires firsts { AreFirsts ways.now.kinds.items ways.now.arrivals.keys
        ways.now.firsts.items }
    requires few { length ways.now.arrivals.keys < 4294967295 }
    ensures { IfOk result (λ places.
        AreMade (IsPlaceAt states.now ways.now.kinds.items ways.now.arrivals.keys)
        (length ways.now.arrivals.keys) places.items) }
{
    // One more, for the end.
    let mut places = Vec::with_capacity(alloc, ways.arrivals.len().saturating_add(1))?;
    for arrival in ways.arrivals.as_slice() {
        places.push(place_of(alloc, states, ways, *arrival)?)?;
    }
    Ok(places)
}

/// The place of a way.
fn place_of(alloc: Global, states: &[State], ways: &Ways, arrival: Arrival) -> Mem<Place>
    requires are { AreArrivals states.now ways.now.kinds.items ways.now.arrivals.keys }
    requires firsts { AreFirsts ways.now.kinds.items ways.now.arrivals.keys
        ways.now.firsts.items }
    requires few { length ways.now.arrivals.keys < 4294967295 }
    requires there { Contains ways.now.arrivals.keys arrival }
    ensures { IfOk result
        (IsPlaceFor states.now ways.now.kinds.items ways.now.arrivals.keys arrival) }
{
    Ok(Place {
        reached: false,
        output: Lst::new(Vec::new(alloc)),
        lines: Lst::new(one_line(alloc, arrival.kind)?),
        targets: Lst::new(targets_of(alloc, states, ways, arrival)?),
    })
}

/// The one line of a place.
fn one_line(alloc: Global, kind: Kind) -> Result<Vec<Lst<Label>>, AllocError>
    ensures { IfOk result (λ lines. lines.items ≡ (label_of kind ∷ []) ∷ []) }
{
    // Room for four, which a list of its own takes, would be most of the memory of a place.
    let mut labels = Vec::with_capacity(alloc, 1)?;
    labels.push(label_of_kind(kind))?;
    let mut lines = Vec::with_capacity(alloc, 1)?;
    lines.push(Lst::new(labels))?;
    Ok(lines)
}

/// The targets of a place: of a hub the places of the edges, of another place the hub.
fn targets_of(alloc: Global, states: &[State], ways: &Ways, arrival: Arrival) -> Mem<Vec<u32>>
    requires are { AreArrivals states.now ways.now.kinds.items ways.now.arrivals.keys }
    requires firsts { AreFirsts ways.now.kinds.items ways.now.arrivals.keys
        ways.now.firsts.items }
    requires few { length ways.now.arrivals.keys < 4294967295 }
    requires there { Contains ways.now.arrivals.keys arrival }
    ensures { IfOk result (λ targets. (q : ℕ) → Contains targets.items q ↔
        IsTargetOf states.now ways.now.kinds.items ways.now.arrivals.keys arrival q) }
{
    if is_hub(ways, arrival) {
        return edge_targets(alloc, &states[arrival.state as usize], ways);
    }
    hub_target(alloc, ways, arrival.state)
}

/// Whether the way is that into the hub of its state.
fn is_hub(ways: &Ways, arrival: Arrival) -> bool
    ensures { IsTrue result ↔ (arrival ≡ hub_arrival ways.now.kinds.items arrival.state) }
{
    arrival.kind == hub_kind(ways, arrival.state)
}

/// The kind of the way into the hub of a state.
fn hub_kind(ways: &Ways, state: u32) -> Kind
    ensures { result ≡ (hub_arrival ways.now.kinds.items state).kind }
{
    match ways.kinds.get(state as usize) {
        Some(kind) => *kind,
        None => Kind::Hub,
    }
}

/// The place of the hub of a state.
fn hub_target(alloc: Global, ways: &Ways, state: u32) -> Mem<Vec<u32>>
    requires firsts { AreFirsts ways.now.kinds.items ways.now.arrivals.keys
        ways.now.firsts.items }
    requires few { length ways.now.arrivals.keys < 4294967295 }
    requires once { HavePlacesOnce ways.now.arrivals.keys }
    requires there { Contains ways.now.arrivals.keys (hub_arrival ways.now.kinds.items state) }
    ensures { IfOk result (λ targets. (q : ℕ) → Contains targets.items q ↔
        IsHubPlace ways.now.kinds.items ways.now.arrivals.keys state q) }
{
    let mut targets = Vec::with_capacity(alloc, 1)?;
    targets.push(number_of(ways, hub_of(ways, state)))?;
    Ok(targets)
}

/// The places of the edges of a state, and the end where it is final.
fn edge_targets(alloc: Global, state: &State, ways: &Ways) -> Mem<Vec<u32>>
    requires firsts { AreFirsts ways.now.kinds.items ways.now.arrivals.keys
        ways.now.firsts.items }
    requires few { length ways.now.arrivals.keys < 4294967295 }
    requires once { HavePlacesOnce ways.now.arrivals.keys }
    requires edges { HaveEdges ways.now.arrivals.keys state.now.edges }
    ensures { IfOk result (λ targets. (q : ℕ) → Contains targets.items q ↔
        IsLedTo ways.now.arrivals.keys state.now q) }
{
    let mut targets = Vec::with_capacity(alloc, state.edges.as_slice().len())?;
    push_end(&mut targets, state.is_final)?;
    push_edges(&mut targets, state.edges.as_slice(), ways)?;
    Ok(targets)
}

/// Adds the end of a state that is final.
fn push_end(targets: &mut Vec<u32>, is_final: bool) -> Mem<()>
    ensures { OnOk result (Gains targets.old.items targets.new.items (IsFinalPlace is_final)) }
{
    if !is_final {
        return Ok(());
    }
    targets.push(1)?;
    Ok(())
}

/// Adds the places of the edges.
fn push_edges(targets: &mut Vec<u32>, edges: &[Edge], ways: &Ways) -> Mem<()>
    requires firsts { AreFirsts ways.now.kinds.items ways.now.arrivals.keys
        ways.now.firsts.items }
    requires few { length ways.now.arrivals.keys < 4294967295 }
    requires once { HavePlacesOnce ways.now.arrivals.keys }
    requires edges { HaveEdges ways.now.arrivals.keys edges.now }
    ensures { OnOk result (Gains targets.old.items targets.new.items
        (SoOfOne edges.now (IsEdgePlace ways.now.arrivals.keys))) }
{
    for edge in edges {
        push_edge(targets, edge, ways)?;
    }
    Ok(())
}

/// Adds the place of the edge.
fn push_edge(targets: &mut Vec<u32>, edge: &Edge, ways: &Ways) -> Mem<()>
    requires firsts { AreFirsts ways.now.kinds.items ways.now.arrivals.keys
        ways.now.firsts.items }
    requires few { length ways.now.arrivals.keys < 4294967295 }
    requires once { HavePlacesOnce ways.now.arrivals.keys }
    requires there { Contains ways.now.arrivals.keys (edge_arrival edge.now) }
    ensures { OnOk result
        (Gains targets.old.items targets.new.items (IsEdgePlace ways.now.arrivals.keys edge.now)) }
{
    let arrival = Arrival {
        state: edge.target,
        kind: kind_of_label(&edge.label),
    };
    targets.push(number_of(ways, arrival))?;
    Ok(())
}

/// The way into the hub of a state.
fn hub_of(ways: &Ways, state: u32) -> Arrival
    ensures { result ≡ hub_arrival ways.now.kinds.items state }
{
    Arrival {
        state,
        kind: hub_kind(ways, state),
    }
}

/// The place of a way.
fn number_of(ways: &Ways, arrival: Arrival) -> u32
    requires firsts { AreFirsts ways.now.kinds.items ways.now.arrivals.keys
        ways.now.firsts.items }
    requires few { length ways.now.arrivals.keys < 4294967295 }
    requires there { Contains ways.now.arrivals.keys arrival }
    ensures { arrival_at ways.now.arrivals.keys result ≡ Some arrival }
{
    match first_of(ways, arrival) {
        Some(first) => place_number(first),
        None => place_number(index_of(&ways.arrivals, arrival)),
    }
}

/// The number of a way into a hub. Most are, and need no search.
fn first_of(ways: &Ways, arrival: Arrival) -> Option<usize>
    requires firsts { AreFirsts ways.now.kinds.items ways.now.arrivals.keys
        ways.now.firsts.items }
    ensures { IfSome result (λ first. slice_get ways.now.arrivals.keys first ≡ Some arrival) }
{
    if !is_hub(ways, arrival) {
        return None;
    }
    match ways.firsts.get(arrival.state as usize) {
        Some(first) => Some(*first),
        None => None,
    }
}

/// The place of the way of this number, behind the end but for the first.
fn place_number(index: usize) -> u32
    requires few { index < 4294967295 }
    ensures { result ≡ place_number index }
{
    if index == 0 {
        return 0;
    }
    index as u32 + 1
}

/// The number of an item that is there.
fn index_of<T: Copy + Eq + Hash>(set: &IndexSet<T>, item: T) -> usize
    requires exact { (a b : T) → (T.eq a b ≡ true) ↔ (a ≡ b) }
    requires there { Contains set.now.keys item }
    ensures { slice_get set.now.keys result ≡ Some item }
{
    match set.get_index_of(&item) {
        Some(index) => index,
        None => unreachable!(),
    }
}

/// For each place its state, and state 0 for the end.
pub fn states_of(alloc: Global, arrivals: &IndexSet<Arrival>) -> Mem<Vec<u32>>
    ensures { IfOk result (λ row. AreStandingFor arrivals.now.keys row.items) }
{
    let mut row = states_in(alloc, arrivals.as_slice())?;
    put_second(&mut row, 0)?;
    Ok(row)
}

/// The state of each way.
fn states_in(alloc: Global, arrivals: &[Arrival]) -> Mem<Vec<u32>>
    ensures { IfOk result (λ row.
        AreMade (IsStateAt arrivals.now) (length arrivals.now) row.items) }
{
    // One more, for the end.
    let mut row = Vec::with_capacity(alloc, arrivals.len().saturating_add(1))?;
    for arrival in arrivals {
        row.push(arrival.state)?;
    }
    Ok(row)
}

/// For each state its hub.
pub fn hubs_of(alloc: Global, ways: &Ways) -> Mem<Vec<u32>>
    requires firsts { AreFirsts ways.now.kinds.items ways.now.arrivals.keys
        ways.now.firsts.items }
    requires few { length ways.now.arrivals.keys < 4294967295 }
    ensures { IfOk result (λ row.
        AreHubs ways.now.kinds.items ways.now.arrivals.keys row.items) }
{
    let mut row = Vec::with_capacity(alloc, ways.firsts.len())?;
    for state in 0..ways.firsts.len() {
        row.push(place_number(ways.firsts[state]))?;
    }
    Ok(row)
}

/// No more ways than 32 bits number the places of.
pub fn refuse_many(arrivals: &IndexSet<Arrival>) -> Mem<()>
    ensures { OnOk result (length arrivals.now.keys < 4294967295) }
{
    if arrivals.len() < 4294967295 {
        return Ok(());
    }
    Err(NoMemory)
}
