//! The ways by which steps come into the states of a graph, in the order of the states.
//!
//! The kinds of the edges into each state stand in a row, and a set keeps each way once. So the time
//! is linear in the states and edges. The first way into a state is that into its hub: most states
//! have no other, since all their edges are of one kind.

ghost use Rattle.std.specs.Prelude.{◌≡◌, ◌↔◌, ℕ, ◌+◌, ◌<◌, List, [], ◌∷◌, ◌++◌, true, All, Some, length, slice_get, slice_set, Contains, IfOk, IsTrue, OnOk};
ghost use Rattle.ux_state_places.specs.Arrivals.{AreArrivals, AreFirsts, HaveInsideTargets, IsPlain};
ghost use Rattle.ux_state_places.specs.Arriving.{AddKinds, AreAdded, AreInOrder, AreKindsInto, IsHubKind, IsOneMore, IsWayInto, kinds_at, way_into};

use crate::arrival::{Arrival, Kind, kind_of_label};
use indexmap::IndexSet;
use std::alloc::{AllocError, Global};
use std::hash::Hash;
use std::mem;
use ux_base::{Lst, Mem};
use ux_net::{Edge, State};

/// The ways into the states of a graph.
#[derive(Drop)]
pub struct Ways {
    /// The ways, in the order of their states, that of the start first, each once.
    pub arrivals: IndexSet<Arrival>,
    /// For each state the kind of the way into its hub.
    pub kinds: Vec<Kind>,
    /// For each state the number of the way into its hub.
    pub firsts: Vec<usize>,
}

/// The ways into the states.
pub fn ways_into(alloc: Global, states: &[State]) -> Mem<Ways>
    requires some { 0 < length states.now }
    requires few { length states.now < 4294967296 }
    requires inside { HaveInsideTargets states.now }
    ensures are { IfOk result (λ ways.
        AreArrivals states.now ways.kinds.items ways.arrivals.keys) }
    ensures firsts { IfOk result (λ ways.
        AreFirsts ways.kinds.items ways.arrivals.keys ways.firsts.items) }
{
    let rows = kinds_into(alloc, states)?;
    let mut arrivals = IndexSet::new(alloc);
    let mut kinds = Vec::with_capacity(alloc, states.len())?;
    let mut firsts = Vec::with_capacity(alloc, states.len())?;
    for state in 0..states.len() {
        let row = rows[state].as_slice();
        let hub = hub_kind(state, row);
        kinds.push(hub)?;
        firsts.push(arrivals.len())?;
        push_arrivals(&mut arrivals, state as u32, hub, row)?;
    }
    Ok(Ways {
        arrivals,
        kinds,
        firsts,
    })
}

/// The kind of the way into the hub of a state: that of its edges, where they have only one, which
/// neither opens nor closes a context. The start has a way that takes nothing.
fn hub_kind(state: usize, kinds: &[Kind]) -> Kind
    ensures { IsHubKind state kinds.now result }
{
    let Some(kind) = kinds.first() else {
        return Kind::Hub;
    };
    if state > 0 && is_plain(*kind) && are_all(kinds, *kind) {
        return *kind;
    }
    Kind::Hub
}

/// Whether the kind neither opens nor closes a context.
fn is_plain(kind: Kind) -> bool
    ensures { IsTrue result ↔ IsPlain kind }
{
    match kind {
        Kind::Hub | Kind::Token | Kind::Call(_) => true,
        Kind::Positive | Kind::Negative | Kind::ContextEnd => false,
    }
}

/// Whether there are no other kinds than this.
fn are_all(kinds: &[Kind], kind: Kind) -> bool
    ensures { IsTrue result ↔ All (λ other. other ≡ kind) kinds.now }
{
    for other in kinds {
        if *other != kind {
            return false;
        }
    }
    true
}

/// Adds the ways into a state: to its hub, and those of these kinds.
fn push_arrivals(
    arrivals: &mut IndexSet<Arrival>,
    state: u32,
    hub: Kind,
    kinds: &[Kind],
) -> Result<(), AllocError>
    requires { AreInOrder state arrivals.now.keys }
    ensures first { OnOk result ((Contains arrivals.old.keys (way_into state hub) → ⊥) →
        slice_get arrivals.new.keys (length arrivals.old.keys) ≡ Some (way_into state hub)) }
    ensures added { OnOk result (AreAdded state arrivals.old.keys arrivals.new.keys
        (IsWayInto hub kinds.now state)) }
{
    add(arrivals, state, hub)?;
    for kind in kinds {
        add_other(arrivals, state, hub, *kind)?;
    }
    Ok(())
}

/// Adds the way of this kind into the state, if it is new, and not that into the hub.
fn add_other(
    arrivals: &mut IndexSet<Arrival>,
    state: u32,
    hub: Kind,
    kind: Kind,
) -> Result<(), AllocError>
    requires order { AreInOrder state arrivals.now.keys }
    requires there { Contains arrivals.now.keys (way_into state hub) }
    ensures { OnOk result (AreAdded state arrivals.old.keys arrivals.new.keys
        (λ x. way_into state kind ≡ x)) }
{
    if kind == hub {
        return Ok(());
    }
    add(arrivals, state, kind)
}

/// Adds the way of this kind into the state, if it is new.
fn add(arrivals: &mut IndexSet<Arrival>, state: u32, kind: Kind) -> Result<(), AllocError>
    requires { AreInOrder state arrivals.now.keys }
    ensures first { OnOk result ((Contains arrivals.old.keys (way_into state kind) → ⊥) →
        slice_get arrivals.new.keys (length arrivals.old.keys) ≡ Some (way_into state kind)) }
    ensures added { OnOk result (AreAdded state arrivals.old.keys arrivals.new.keys
        (λ x. way_into state kind ≡ x)) }
{
    insert(arrivals, Arrival { state, kind })?;
    Ok(())
}

/// Puts the item behind the others, if it is new.
fn insert<T: Eq + Hash + Drop>(set: &mut IndexSet<T>, item: T) -> Result<(), AllocError>
    requires { (a b : T) → (T.eq a b ≡ true) ↔ (a ≡ b) }
    ensures { OnOk result (IsOneMore set.old.keys item set.new.keys) }
{
    set.insert(item)?;
    Ok(())
}

/// For each state the kinds of the edges into it.
fn kinds_into(alloc: Global, states: &[State]) -> Mem<Vec<Lst<Kind>>>
    requires inside { HaveInsideTargets states.now }
    ensures len { IfOk result (λ rows. length rows.items ≡ length states.now) }
    ensures kinds { IfOk result (λ rows. AreKindsInto states.now rows.items) }
{
    let mut rows = no_kinds(alloc, states.len())?;
    for state in states {
        put_kinds(alloc, &mut rows, state.edges.as_slice())?;
    }
    Ok(rows)
}

/// An empty row for each state.
fn no_kinds(alloc: Global, count: usize) -> Mem<Vec<Lst<Kind>>>
    ensures len { IfOk result (λ rows. length rows.items ≡ count) }
    ensures empty { IfOk result (λ rows. (n : ℕ) → kinds_at rows.items n ≡ []) }
{
    let mut rows = Vec::with_capacity(alloc, count)?;
    for _ in 0..count {
        rows.push(Lst::new(Vec::new(alloc)))?;
    }
    Ok(rows)
}

/// Puts the kind of each edge at the end of the row of its target.
fn put_kinds(alloc: Global, rows: &mut Vec<Lst<Kind>>, edges: &[Edge]) -> Result<(), AllocError>
    requires inside { (edge : Edge) → Contains edges.now edge → edge.target < length rows.now.items }
    ensures len { OnOk result (length rows.new.items ≡ length rows.old.items) }
    ensures kinds { OnOk result (AddKinds rows.old.items rows.new.items edges.now) }
{
    for edge in edges {
        put(
            alloc,
            rows,
            edge.target as usize,
            kind_of_label(&edge.label),
        )?;
    }
    Ok(())
}

/// Puts the kind at the end of the row.
fn put(alloc: Global, rows: &mut Vec<Lst<Kind>>, state: usize, kind: Kind) -> Result<(), AllocError>
    requires inside { state < length rows.now.items }
    ensures len { OnOk result (length rows.new.items ≡ length rows.old.items) }
    ensures put { OnOk result (rows.new.items ≡
        slice_set rows.old.items state (kinds_at rows.old.items state ++ kind ∷ [])) }
{
    let mut row = mem::replace(&mut rows[state], Lst::new(Vec::new(alloc))).into_vec();
    row.push(kind)?;
    rows[state] = Lst::new(row);
    Ok(())
}
