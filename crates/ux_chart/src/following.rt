//! What is behind the edges of a state.

ghost use Rattle.std.specs.Prelude.{◌≡◌, ℕ, ◌≤◌, ◌↔◌, ◌⊎◌, List, [], ◌++◌, map, Contains, OnOk, Some, option_copied, slice_get};
ghost use Rattle.ux_net.specs.declared.state.State.{State};
ghost use Rattle.ux_net.specs.Nets.{net_grammar, states_of};
ghost use Rattle.ux_parts.specs.Ordered.{GoesAhead};
ghost use Rattle.ux_parts.specs.Parts.{ArePartsOf};
ghost use Rattle.ux_parts.specs.Runs.{NextBy};
ghost use Rattle.ux_chart.specs.Likely.{AreKnown};
ghost use Rattle.ux_chart.specs.Places.{AreEdgesOf, FollowsAt, SomeFollows, SomeFollowsAt};
ghost use Rattle.ux_chart.specs.Rows.{IsFilled};
ghost use Rattle.ux_chart.specs.Search.{GoesTo, IsReady};
ghost use Rattle.ux_chart.specs.declared.config.Config.{Config};

use crate::basis::Basis;
use crate::chart::{Begun, Chart, refused_into};
use crate::config::Config;
use std::alloc::Global;
use ux_base::Mem;
use ux_net::{Edge, Label, Net};
use ux_parts::Parts;

/// The configurations to which the edges of one lead, in place of what the list has. Of many edges
/// those alone are tried that the input tells by an index.
pub fn expand<B: Basis>(
    alloc: Global,
    basis: &B,
    net: &Net,
    parts: &Parts,
    chart: &Chart,
    begun: Begun,
    graph: u32,
    from: Config,
    found: &mut Vec<Config>,
    positions: &mut Vec<usize>,
) -> Mem<()>
    requires parts { ArePartsOf net.now parts.now }
    requires ahead { GoesAhead (B.input basis.now) chart.now.last }
    requires serves { B.serves basis.now net.now parts.now }
    requires known { AreKnown (B.knows basis.now) net.now }
    requires last { B.last basis.now ≡ chart.now.last }
    requires filled { IsFilled (B.input basis.now) net.now parts.now chart.now begun }
    requires ready { IsReady net.now parts.now chart.now.last begun.at begun.number graph from }
    ensures { OnOk result ((next : Config) → Contains found.new.items next
        ↔ GoesTo (B.input basis.now) net.now parts.now.levels graph from next) }
{
    found.clear();
    let Some(state) = net.state(graph, from.state) else {
        return Ok(());
    };
    let edges = state.edges.as_slice();
    match basis.places(alloc, graph, from.state, edges, from.at)? {
        Some(places) => {
            follow_places(
                basis, net, parts, chart, begun, graph, edges, &places, from, found, positions,
            )?;
            return Ok(());
        },
        None => {
            follow_edges(
                basis, net, parts, chart, begun, graph, edges, from, found, positions,
            )?;
            return Ok(());
        },
    }
}

/// Adds the configurations to which the edges lead.
fn follow_edges<B: Basis>(
    basis: &B,
    net: &Net,
    parts: &Parts,
    chart: &Chart,
    begun: Begun,
    graph: u32,
    edges: &[Edge],
    from: Config,
    found: &mut Vec<Config>,
    positions: &mut Vec<usize>,
) -> Mem<()>
    requires parts { ArePartsOf net.now parts.now }
    requires ahead { GoesAhead (B.input basis.now) chart.now.last }
    requires known { AreKnown (B.knows basis.now) net.now }
    requires last { B.last basis.now ≡ chart.now.last }
    requires filled { IsFilled (B.input basis.now) net.now parts.now chart.now begun }
    requires ready { IsReady net.now parts.now chart.now.last begun.at begun.number graph from }
    requires edges { AreEdgesOf net.now graph from.state edges.now }
    ensures { OnOk result ((next : Config) → Contains found.new.items next
        ↔ (Contains found.old.items next ⊎ SomeFollows (B.input basis.now) net.now
        parts.now.levels graph from edges.now next)) }
{
    for edge in edges {
        follow(
            basis, net, parts, chart, begun, graph, edge, from, found, positions,
        )?;
    }
    Ok(())
}

/// Adds the configurations to which the edges at the places lead.
fn follow_places<B: Basis>(
    basis: &B,
    net: &Net,
    parts: &Parts,
    chart: &Chart,
    begun: Begun,
    graph: u32,
    edges: &[Edge],
    places: &[u32],
    from: Config,
    found: &mut Vec<Config>,
    positions: &mut Vec<usize>,
) -> Mem<()>
    requires parts { ArePartsOf net.now parts.now }
    requires ahead { GoesAhead (B.input basis.now) chart.now.last }
    requires known { AreKnown (B.knows basis.now) net.now }
    requires last { B.last basis.now ≡ chart.now.last }
    requires filled { IsFilled (B.input basis.now) net.now parts.now chart.now begun }
    requires ready { IsReady net.now parts.now chart.now.last begun.at begun.number graph from }
    requires edges { AreEdgesOf net.now graph from.state edges.now }
    ensures { OnOk result ((next : Config) → Contains found.new.items next
        ↔ (Contains found.old.items next ⊎ SomeFollowsAt (B.input basis.now) net.now
        parts.now.levels graph from edges.now places.now next)) }
{
    for place in places {
        follow_place(
            basis, net, parts, chart, begun, graph, edges, *place, from, found, positions,
        )?;
    }
    Ok(())
}

/// Adds the configurations to which the edge at a place leads, if one stands there.
fn follow_place<B: Basis>(
    basis: &B,
    net: &Net,
    parts: &Parts,
    chart: &Chart,
    begun: Begun,
    graph: u32,
    edges: &[Edge],
    place: u32,
    from: Config,
    found: &mut Vec<Config>,
    positions: &mut Vec<usize>,
) -> Mem<()>
    requires parts { ArePartsOf net.now parts.now }
    requires ahead { GoesAhead (B.input basis.now) chart.now.last }
    requires known { AreKnown (B.knows basis.now) net.now }
    requires last { B.last basis.now ≡ chart.now.last }
    requires filled { IsFilled (B.input basis.now) net.now parts.now chart.now begun }
    requires ready { IsReady net.now parts.now chart.now.last begun.at begun.number graph from }
    requires edges { AreEdgesOf net.now graph from.state edges.now }
    ensures { OnOk result ((next : Config) → Contains found.new.items next
        ↔ (Contains found.old.items next ⊎ FollowsAt (B.input basis.now) net.now
        parts.now.levels graph from edges.now place next)) }
{
    match edge_at(edges, place) {
        Some(edge) => {
            follow(
                basis, net, parts, chart, begun, graph, edge, from, found, positions,
            )?;
            return Ok(());
        },
        None => return Ok(()),
    }
}

/// The edge at a place, if one stands there.
fn edge_at(edges: &[Edge], place: u32) -> Option<&Edge>
    ensures { option_copied result ≡ slice_get edges.now place }
{
    edges.get(place as usize)
}

/// Adds the configurations to which an edge leads.
fn follow<B: Basis>(
    basis: &B,
    net: &Net,
    parts: &Parts,
    chart: &Chart,
    begun: Begun,
    graph: u32,
    edge: &Edge,
    from: Config,
    found: &mut Vec<Config>,
    positions: &mut Vec<usize>,
) -> Mem<()>
    requires parts { ArePartsOf net.now parts.now }
    requires ahead { GoesAhead (B.input basis.now) chart.now.last }
    requires known { B.knows basis.now edge.now.label }
    requires last { B.last basis.now ≡ chart.now.last }
    requires filled { IsFilled (B.input basis.now) net.now parts.now chart.now begun }
    requires ready { IsReady net.now parts.now chart.now.last begun.at begun.number graph from }
    requires inside { (state : State)
        × (slice_get (states_of net.now graph) from.state ≡ Some state)
        × Contains state.edges edge.now }
    ensures { OnOk result ((next : Config) → Contains found.new.items next
        ↔ (Contains found.old.items next ⊎ NextBy (B.input basis.now) (net_grammar net.now)
        parts.now.levels graph edge.now.label edge.now.target from.at next.state next.at)) }
{
    match &edge.label {
        Label::Empty => {
            found.push(Config {
                state: edge.target,
                at: from.at,
            })?;
            return Ok(());
        },
        Label::Call(called) => {
            let reached = chart.entered(begun, parts, *called, 0, from.at);
            push_positions(found, edge.target, reached.ends)?;
            return Ok(());
        },
        Label::Positive => {
            let reached = chart.entered(begun, parts, graph, edge.target, from.at);
            push_states(found, reached.closers, from.at)?;
            return Ok(());
        },
        Label::Negative => {
            let reached = chart.entered(begun, parts, graph, edge.target, from.at);
            let closing = parts.closing(graph, edge.target);
            push_states(found, refused_into(closing, reached.closers), from.at)?;
            return Ok(());
        },
        Label::ContextEnd => return Ok(()),
        label => {
            positions.clear();
            basis.plain(label, from.at, positions)?;
            push_positions(found, edge.target, positions.as_slice())?;
            return Ok(());
        },
    }
}

/// Adds the state at each position.
fn push_positions(found: &mut Vec<Config>, state: u32, positions: &[usize]) -> Mem<()>
    ensures { OnOk result (found.new.items ≡ found.old.items
        ++ map (λ k. record { state = state; at = k }) positions.now) }
{
    for at in positions {
        found.push(Config { state, at: *at })?;
    }
    Ok(())
}

/// Adds each state at the position.
fn push_states(found: &mut Vec<Config>, states: &[u32], at: usize) -> Mem<()>
    ensures { OnOk result (found.new.items ≡ found.old.items
        ++ map (λ a. record { state = a; at = at }) states.now) }
{
    for state in states {
        found.push(Config { state: *state, at })?;
    }
    Ok(())
}
