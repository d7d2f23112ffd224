//! Whether a net can be searched in sentence automata.
//!
//! A sentence automaton has no spaces, and what stands beside a link isn't told: so a net with a
//! label that asks for spaces or contexts, or that cuts, is refused, also at a state to which no run
//! comes.

ghost use Rattle.std.specs.Prelude.{◌<◌, ◌≤◌, ◌↔◌, ℕ, Contains, IfErr, IsTrue, MatchOption, OnOk, length};
ghost use Rattle.ux_net.specs.declared.state.Edge.{Edge};
ghost use Rattle.ux_reading_match.specs.Usable.{HasBad, IsBadLabel, IsBadState, IsFirstBad, IsUsable, Refuses};

use crate::error::TfstError;
use std::alloc::Global;
use ux_base::Txt;
use ux_net::{Edge, Label, Net};

/// A state of a graph, which is counted from 1.
#[derive(Clone, Copy)]
struct Spot {
    graph: u32,
    node: u32,
}

/// Whether a net can be searched in sentence automata, and otherwise the first state that forbids
/// it. Takes a step an edge, and memory for a name alone.
pub fn usable(alloc: Global, net: &Net) -> Result<(), TfstError>
    ensures usable { OnOk result (IsUsable net.now) }
    ensures refused { IfErr result (Refuses net.now) }
{
    match first_bad(net) {
        Some(spot) => {
            let graph = Txt::from_str(alloc, net.name(spot.graph))?;
            Err(TfstError::BadItem {
                graph,
                node: spot.node,
            })
        },
        None => Ok(()),
    }
}

/// The first state of the first graph that a bad edge leaves.
fn first_bad(net: &Net) -> Option<Spot>
    ensures { MatchOption result (IsUsable net.now)
        (λ spot. (1 ≤ spot.graph) × (spot.graph ≤ length net.now)
        × IsFirstBad net.now spot.graph spot.node) }
{
    for before in 0..net.graphs() {
        if let Some(node) = first_in(net, before + 1) {
            return Some(Spot {
                graph: before + 1,
                node,
            });
        }
    }
    None
}

/// The first state of the graph that a bad edge leaves.
fn first_in(net: &Net, graph: u32) -> Option<u32>
    requires from { 1 ≤ graph }
    requires to { graph ≤ length net.now }
    ensures { MatchOption result ((n : ℕ) → IsBadState net.now graph n → ⊥)
        (λ node. IsBadState net.now graph node
        × ((m : ℕ) → m < node → IsBadState net.now graph m → ⊥)) }
{
    for node in 0..net.states(graph) {
        if has_bad(net.whole_edges(graph, node)) {
            return Some(node);
        }
    }
    None
}

/// Whether one of the edges is bad.
fn has_bad(edges: &[Edge]) -> bool
    ensures { IsTrue result ↔ HasBad edges.now }
{
    for edge in edges {
        if is_bad(&edge.label) {
            return true;
        }
    }
    false
}

/// Whether the label asks for a space or for none, opens or closes a context, or cuts.
fn is_bad(label: &Label) -> bool
    ensures { IsTrue result ↔ IsBadLabel label.now }
{
    match label {
        Label::Space
        | Label::NoSpace
        | Label::Positive
        | Label::Negative
        | Label::ContextEnd
        | Label::Cut => true,
        Label::Empty
        | Label::CaseFolded(_)
        | Label::CaseExact(_)
        | Label::Mask(_)
        | Label::Brace(_)
        | Label::Begin(_)
        | Label::End(_)
        | Label::Call(_) => false,
    }
}
