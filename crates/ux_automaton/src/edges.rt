//! Where the edges of a state lead that take tokens.
//!
//! A state of many edges gets an index by its literals, made once: at a token only those edges are
//! tried whose literals fit it, and those that have no literal.

ghost use Rattle.std.specs.Prelude.{◌≡◌, ◌↔◌, ◌⊎◌, ◌<◌, ℕ, Contains, IsTrue, OnOk, Some, option_copied, slice_get};
ghost use Rattle.ux_net.specs.Nets.{states_of};
ghost use Rattle.ux_mask_table.specs.MaskedTexts.{AreEdgesKnown, HasTable, IsKnown};
ghost use Rattle.ux_automaton.specs.declared.target.Target.{Target as TheTarget};
ghost use Rattle.ux_automaton.specs.Kept.{AreIndexed};
ghost use Rattle.ux_walk.specs.Settings.{masked_setting};
ghost use Rattle.ux_automaton.specs.Targets.{IsTargetAt, IsTargetAtSome, IsTargetOver, IsTargetOverSome};

use crate::taking::ends_of;
use crate::target::Target;
use std::alloc::Global;
use ux_base::Mem;
use ux_closure::stand::Stand;
use ux_mask_table::MaskedText;
use ux_net::{Edge, State};
use ux_walk::config::Frame;
use ux_walk::look_ups::LookUps;
use ux_walk::matching::skip;

/// As many edges are tried one by one: no index of them is made.
const FEW: usize = 8;

/// Adds the targets of a stand at this state. Where a token stands, and the state has an index, only
/// the edges are tried that may take it.
pub fn add_state<'t>(
    alloc: Global,
    masked: &MaskedText<'t>,
    look_ups: &mut LookUps<'t>,
    stand: Stand,
    state: &State,
    at: usize,
    targets: &mut Vec<Target>,
) -> Mem<()>
    requires table { HasTable masked.now }
    requires indexed { AreIndexed masked.now look_ups.now }
    requires found { slice_get (states_of masked.now.net.now stand.here.graph) stand.here.state
        ≡ Some state.now }
    ensures indexed { OnOk result (AreIndexed masked.now look_ups.new) }
    ensures targets { OnOk result ((target : TheTarget) → Contains targets.new.items target
        ↔ (Contains targets.old.items target
        ⊎ IsTargetOverSome (masked_setting masked.now) at stand state.now.edges target)) }
{
    let edges = state.edges.as_slice();
    let place = skip(masked.text, at);
    if !has_index(edges.len()) || masked.text.len() <= place {
        return add_edges(alloc, masked, stand, edges, at, targets);
    }
    look_ups.meet(alloc, masked.text, masked.alphabet, stand.here, edges)?;
    let Some(index) = look_ups.index(stand.here) else {
        return add_edges(alloc, masked, stand, edges, at, targets);
    };
    let places = index.places(alloc, masked.text.number(place))?;
    add_places(alloc, masked, stand, edges, places.as_slice(), at, targets)
}

/// Adds the targets of a stand over the edges at the places.
fn add_places(
    alloc: Global,
    masked: &MaskedText,
    stand: Stand,
    edges: &[Edge],
    places: &[u32],
    at: usize,
    targets: &mut Vec<Target>,
) -> Mem<()>
    requires known { AreEdgesKnown masked.now edges.now }
    ensures { OnOk result ((target : TheTarget) → Contains targets.new.items target
        ↔ (Contains targets.old.items target
        ⊎ IsTargetAtSome (masked_setting masked.now) at stand edges.now places.now target)) }
{
    for place in places {
        add_place(alloc, masked, stand, edges, *place, at, targets)?;
    }
    Ok(())
}

/// Adds the targets of a stand over the edge at a place, if one stands there.
fn add_place(
    alloc: Global,
    masked: &MaskedText,
    stand: Stand,
    edges: &[Edge],
    place: u32,
    at: usize,
    targets: &mut Vec<Target>,
) -> Mem<()>
    requires known { AreEdgesKnown masked.now edges.now }
    ensures { OnOk result ((target : TheTarget) → Contains targets.new.items target
        ↔ (Contains targets.old.items target
        ⊎ IsTargetAt (masked_setting masked.now) at stand edges.now place target)) }
{
    match edge_at(edges, place) {
        Some(edge) => add_edge(alloc, masked, stand, edge, at, targets),
        None => Ok(()),
    }
}

/// Adds the targets of a stand over these edges.
fn add_edges(
    alloc: Global,
    masked: &MaskedText,
    stand: Stand,
    edges: &[Edge],
    at: usize,
    targets: &mut Vec<Target>,
) -> Mem<()>
    requires known { AreEdgesKnown masked.now edges.now }
    ensures { OnOk result ((target : TheTarget) → Contains targets.new.items target
        ↔ (Contains targets.old.items target
        ⊎ IsTargetOverSome (masked_setting masked.now) at stand edges.now target)) }
{
    for edge in edges {
        add_edge(alloc, masked, stand, edge, at, targets)?;
    }
    Ok(())
}

/// Adds the targets of a stand over an edge: one for each end of what its label takes.
fn add_edge(
    alloc: Global,
    masked: &MaskedText,
    stand: Stand,
    edge: &Edge,
    at: usize,
    targets: &mut Vec<Target>,
) -> Mem<()>
    requires known { IsKnown masked.now edge.now.label }
    ensures { OnOk result ((target : TheTarget) → Contains targets.new.items target
        ↔ (Contains targets.old.items target
        ⊎ IsTargetOver (masked_setting masked.now) at stand edge.now target)) }
{
    let ends = ends_of(alloc, masked, &edge.label, at)?;
    let here = Frame {
        graph: stand.here.graph,
        state: edge.target,
    };
    let behind = Stand {
        here,
        back: stand.back,
    };
    add_ends(behind, ends.as_slice(), targets)
}

/// Adds the stand at each of these ends.
fn add_ends(stand: Stand, ends: &[usize], targets: &mut Vec<Target>) -> Mem<()>
    ensures { OnOk result ((target : TheTarget) → Contains targets.new.items target
        ↔ (Contains targets.old.items target
        ⊎ ((end : ℕ) × Contains ends.now end
        × (target ≡ record { at = end; stand = stand })))) }
{
    for end in ends {
        targets.push(Target { at: *end, stand })?;
    }
    Ok(())
}

/// Whether a state of so many edges gets an index: they are many, and 32 bits tell each place.
fn has_index(edges: usize) -> bool
    ensures { IsTrue result → edges < 4294967296 }
{
    FEW < edges && edges < 4_294_967_296
}

/// The edge at a place.
fn edge_at(edges: &[Edge], place: u32) -> Option<&Edge>
    ensures { option_copied result ≡ slice_get edges.now place }
{
    edges.get(place as usize)
}
