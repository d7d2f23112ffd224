//! The places that stand for states.

ghost use Rattle.std.specs.Prelude.{◌≡◌, ◌<◌, All, IfOk, length};
ghost use Rattle.ux_net.specs.StateGraphs.{AreInsideStates};
ghost use Rattle.ux_boxes.specs.Fit.{IsFit};
ghost use Rattle.ux_boxes.specs.Numbers.{all_places};
ghost use Rattle.ux_admission.specs.Cycles.{AreLoopsMet};
ghost use Rattle.ux_state_places.specs.Arrivals.{HaveInsideTargets};
ghost use Rattle.ux_state_places.specs.Placing.{AreKeptRows, AreRawRows, AreRawTo};
ghost use Rattle.ux_state_places.specs.Standing.{Stand};

use crate::arrivals::ways_into;
use crate::keeping::kept_places;
use crate::meeting::met_marks;
use crate::raw::{hubs_of, raw_places, refuse_many, states_of};
use std::alloc::Global;
use ux_base::{Lst, Mem};
use ux_boxes::Place;
use ux_net::{State, StateGraph};

/// The places of graphs of states, in a row for each graph.
#[derive(Drop)]
pub struct Placed {
    /// The places: that of state 0 first, then the end, and the others in the order of their states.
    pub places: Vec<Lst<Place>>,
    /// For each place its state.
    pub states: Vec<Lst<u32>>,
    /// For each state its hub, the place from which its edges lead.
    pub hubs: Vec<Lst<u32>>,
}

/// The same of one graph.
#[derive(Drop)]
struct Row {
    /// The places.
    places: Vec<Place>,
    /// For each place its state.
    states: Vec<u32>,
    /// For each state its hub.
    hubs: Vec<u32>,
}

/// The places of the graphs. They are at most the states and the edges, and one for each graph; where
/// 32 bits don't number those of a graph, it is out of memory.
pub fn place_states(alloc: Global, graphs: &[StateGraph]) -> Mem<Placed>
    requires inside { AreInsideStates graphs.now }
    ensures stand { IfOk result (λ placed.
        Stand graphs.now placed.places.items placed.states.items placed.hubs.items) }
    ensures fit { IfOk result (λ placed.
        All (IsFit (length placed.places.items)) placed.places.items) }
    ensures met { IfOk result (λ placed. AreLoopsMet placed.places.items) }
{
    let raw = raw_graphs(alloc, graphs)?;
    let marks = met_marks(alloc, &raw.places)?;
    Ok(Placed {
        places: kept_graphs(alloc, raw.places, &marks)?,
        states: raw.states,
        hubs: raw.hubs,
    })
}

/// The places of the ways into all states.
fn raw_graphs(alloc: Global, graphs: &[StateGraph]) -> Mem<Placed>
    requires inside { AreInsideStates graphs.now }
    ensures { IfOk result (λ raw. AreRawTo graphs.now (length graphs.now) raw.places.items
        raw.states.items raw.hubs.items) }
{
    let mut places = Vec::new(alloc);
    let mut states = Vec::new(alloc);
    let mut hubs = Vec::new(alloc);
    for graph in graphs {
        let row = raw_graph(alloc, graph.states.as_slice())?;
        places.push(Lst::new(row.places))?;
        states.push(Lst::new(row.states))?;
        hubs.push(Lst::new(row.hubs))?;
    }
    Ok(Placed {
        places,
        states,
        hubs,
    })
}

/// The places of the ways into the states of a graph.
fn raw_graph(alloc: Global, states: &[State]) -> Mem<Row>
    requires some { 0 < length states.now }
    requires few { length states.now < 4294967296 }
    requires inside { HaveInsideTargets states.now }
    ensures { IfOk result (λ row.
        AreRawRows states.now row.places.items row.states.items row.hubs.items) }
{
    let ways = ways_into(alloc, states)?;
    refuse_many(&ways.arrivals)?;
    Ok(Row {
        places: raw_places(alloc, states, &ways)?,
        states: states_of(alloc, &ways.arrivals)?,
        hubs: hubs_of(alloc, &ways)?,
    })
}

/// What is kept of the places of all graphs.
fn kept_graphs(alloc: Global, raw: Vec<Lst<Place>>, marks: &[bool]) -> Mem<Vec<Lst<Place>>>
    requires whole { length marks.now ≡ all_places raw.items }
    ensures { IfOk result (λ kept.
        AreKeptRows raw.items marks.now (length raw.items) kept.items) }
{
    let mut kept = Vec::new(alloc);
    let mut rest = marks;
    for places in raw {
        let (row, behind) = rest.split_at(places.as_slice().len());
        kept.push(Lst::new(kept_places(alloc, places, row)?))?;
        rest = behind;
    }
    Ok(kept)
}
