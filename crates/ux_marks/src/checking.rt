//! The first state that breaks the rule of the marks.

ghost use Rattle.std.specs.Prelude.{◌≡◌, ◌↔◌, ◌<◌, ◌≤◌, ℕ, IfErr, IsTrue, MatchOption, OnOk, length};
ghost use Rattle.ux_digraph.specs.Rules.{is_marked_at};
ghost use Rattle.ux_net.specs.Nets.{states_of};
ghost use Rattle.ux_marks.specs.declared.stage.Stage.{Stage as TheStage};
ghost use Rattle.ux_marks.specs.Marks.{IsBadIn, IsBadState, IsFirstBad, KeepsMarks, Refuses};
ghost use Rattle.ux_marks.specs.Meeting.{TellsStages, number_of};

use crate::error::MorphError;
use crate::meeting::stages_of;
use crate::rules::number;
use crate::stage::{Stage, has_mark, is_bad};
use std::alloc::Global;
use ux_base::Txt;
use ux_net::Net;

/// Whether each word of the main graph lies between `$<` and `$>`, and no other graph has a mark. If
/// not, the first graph with a bad state is named, and its least bad state.
pub fn check_marks(alloc: Global, net: &Net) -> Result<(), MorphError>
    ensures ok { OnOk result (KeepsMarks net.now) }
    ensures err { IfErr result (Refuses net.now) }
{
    let found = stages_of(alloc, net)?;
    match first_bad(net, &found) {
        Some(spot) => Err(MorphError::BadMarks {
            graph: Txt::from_str(alloc, net.name(spot.graph))?,
            node: spot.node,
        }),
        None => Ok(()),
    }
}

/// A state of a graph, which is counted from 1.
#[derive(Clone, Copy)]
struct Spot {
    graph: u32,
    node: u32,
}

/// The first bad state of the first graph that has one.
fn first_bad(net: &Net, found: &[bool]) -> Option<Spot>
    requires found { TellsStages (states_of net.now 1) found.now }
    ensures { MatchOption result ((g n : ℕ) → IsBadState net.now g n → ⊥)
        (λ spot. (1 ≤ spot.graph) × (spot.graph ≤ length net.now)
        × IsFirstBad net.now spot.graph spot.node) }
{
    for before in 0..net.graphs() {
        if let Some(node) = first_in(net, before + 1, found) {
            return Some(Spot {
                graph: before + 1,
                node,
            });
        }
    }
    None
}

/// The first bad state of the graph.
fn first_in(net: &Net, graph: u32, found: &[bool]) -> Option<u32>
    requires from { 1 ≤ graph }
    requires to { graph ≤ length net.now }
    requires found { TellsStages (states_of net.now 1) found.now }
    ensures { MatchOption result ((n : ℕ) → IsBadState net.now graph n → ⊥)
        (λ node. IsBadState net.now graph node
        × ((m : ℕ) → m < node → IsBadState net.now graph m → ⊥)) }
{
    for node in 0..net.states(graph) {
        if is_bad_state(net, graph, node, found) {
            return Some(node);
        }
    }
    None
}

/// Whether the state is bad.
fn is_bad_state(net: &Net, graph: u32, node: u32, found: &[bool]) -> bool
    requires from { 1 ≤ graph }
    requires to { graph ≤ length net.now }
    requires inside { node < length (states_of net.now graph) }
    requires found { TellsStages (states_of net.now 1) found.now }
    ensures { IsTrue result ↔ IsBadState net.now graph node }
{
    if graph == 1 {
        return is_bad_main(net, node, found);
    }
    has_mark(net.edges(graph, node))
}

/// Whether the state of the main graph is bad in one of the stages.
fn is_bad_main(net: &Net, node: u32, found: &[bool]) -> bool
    requires inside { node < length (states_of net.now 1) }
    requires found { TellsStages (states_of net.now 1) found.now }
    ensures { IsTrue result ↔ ((stage : TheStage) × IsBadIn (states_of net.now 1) node stage) }
{
    is_bad_in(net, node, Stage::Before, found)
        || is_bad_in(net, node, Stage::Inside, found)
        || is_bad_in(net, node, Stage::Behind, found)
}

/// Whether the state of the main graph is met in the stage, and bad there.
fn is_bad_in(net: &Net, node: u32, stage: Stage, found: &[bool]) -> bool
    requires inside { node < length (states_of net.now 1) }
    requires found { TellsStages (states_of net.now 1) found.now }
    ensures { IsTrue result ↔ IsBadIn (states_of net.now 1) node stage }
{
    // A net has a main graph.
    let _graphs = net.graphs();
    is_met(found, node, stage) && is_bad(stage, net.is_final(1, node), net.edges(1, node))
}

/// Whether the search found that the state is met in the stage.
fn is_met(found: &[bool], node: u32, stage: Stage) -> bool
    ensures { result ≡ is_marked_at found.now (number_of node stage) }
{
    match found.get(number(node, stage)) {
        Some(mark) => *mark,
        None => false,
    }
}
