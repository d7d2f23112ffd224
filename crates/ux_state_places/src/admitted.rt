//! Which graphs of states are admitted, by their places.

ghost use Rattle.std.specs.Prelude.{◌≡◌, ◌<◌, ◌≤◌, All, IfErr, IfOk, OnOk, length};
ghost use Rattle.ux_net.specs.StateGraphs.{AreInsideStates, state_grammar};
ghost use Rattle.ux_boxes.specs.Fit.{IsFit};
ghost use Rattle.ux_boxes.specs.Numbers.{AreOffsets};
ghost use Rattle.ux_boxes.specs.Refusing.{is_name_at};
ghost use Rattle.ux_admission.specs.Admissible.{IsAdmissible};
ghost use Rattle.ux_admission.specs.Admission.{ArePlaceRanks, row_at};
ghost use Rattle.ux_admission.specs.Closers.{AreClosers};
ghost use Rattle.ux_admission.specs.ContextClose.{AreClosed};
ghost use Rattle.ux_admission.specs.Cycles.{AreLoopsMet};
ghost use Rattle.ux_admission.specs.NegativeRecursion.{HasNoNegativeRecursion};
ghost use Rattle.ux_admission.specs.SoundGrammar.{HasSoundContexts, IsSoundGrammar};
ghost use Rattle.ux_admission.specs.Uses.{AreLevels};
ghost use Rattle.ux_state_places.specs.RefusingStates.{RefusesStates, names_told};
ghost use Rattle.ux_state_places.specs.Standing.{Stand, entry_at};

use crate::placed::Placed;
use std::alloc::Global;
use ux_admission::{
    Admission, AdmissionError, LevelsError, admit, closers_of, first_bad_context, levels_of,
};
use ux_base::{Lst, Mem, Txt};
use ux_boxes::{NetError, offsets_of};
use ux_net::StateGraph;

/// What was found of the places of graphs that are admitted.
#[derive(Drop)]
pub struct Admitted {
    /// For each place of all graphs, the places of its graph into which bodies from there are closed.
    pub closers: Vec<Lst<usize>>,
    /// For each place of all graphs a level, which falls into a context that may not follow.
    pub levels: Vec<usize>,
    /// For each graph a rank of each place, which falls along each step that may take nothing, over
    /// each context, and into each unit that is entered.
    pub ranks: Vec<Lst<usize>>,
    /// For each graph and place, whether a run that may take nothing leads to an end.
    pub free: Vec<Lst<bool>>,
}

/// What is found of the places of the graphs, if they are admitted: contexts are closed, none that may
/// not follow uses what has it, no loop takes nothing, and no unit begins with itself. Of others, the
/// first of these tests that refuses them, the first graph, and the least state.
pub fn admit_states(
    alloc: Global,
    graphs: &[StateGraph],
    placed: &Placed,
) -> Result<Admitted, NetError>
    requires inside { AreInsideStates graphs.now }
    requires stand { Stand graphs.now placed.now.places.items placed.now.states.items
        placed.now.hubs.items }
    requires fit { All (IsFit (length placed.now.places.items)) placed.now.places.items }
    requires met { AreLoopsMet placed.now.places.items }
    ensures sound { OnOk result (IsSoundGrammar (state_grammar graphs.now)) }
    ensures closers { IfOk result (λ admitted.
        AreClosers placed.now.places.items admitted.closers.items) }
    ensures levels { IfOk result (λ admitted.
        AreLevels placed.now.places.items admitted.levels.items) }
    ensures ranks { IfOk result (λ admitted.
        ArePlaceRanks placed.now.places.items admitted.ranks.items admitted.free.items) }
    ensures err { IfErr result (RefusesStates graphs.now) }
{
    let offsets = offsets_of(alloc, &placed.places)?;
    let closers = closers_of(alloc, &placed.places)?;
    refuse_contexts(alloc, graphs, placed, &closers)?;
    let levels = leveled(alloc, graphs, placed, &offsets, &closers)?;
    let admission = ranked(alloc, graphs, placed, &closers)?;
    Ok(Admitted {
        closers,
        levels,
        ranks: admission.ranks,
        free: admission.free,
    })
}

/// Refuses the first context that isn't closed, or not in one place where nothing may follow, or
/// that wasn't opened.
fn refuse_contexts(
    alloc: Global,
    graphs: &[StateGraph],
    placed: &Placed,
    closers: &[Lst<usize>],
) -> Result<(), NetError>
    requires stand { Stand graphs.now placed.now.places.items placed.now.states.items
        placed.now.hubs.items }
    requires fit { All (IsFit (length placed.now.places.items)) placed.now.places.items }
    requires closers { AreClosers placed.now.places.items closers.now }
    ensures closed { OnOk result (AreClosed (state_grammar graphs.now)) }
    ensures err { IfErr result (RefusesStates graphs.now) }
{
    match first_bad_context(alloc, &placed.places, closers)? {
        Some(spot) => Err(NetError::ContextClose {
            graph: name_told(alloc, graphs, spot.graph)?,
            node: state_told(placed, spot.graph, spot.node),
        }),
        None => Ok(()),
    }
}

/// A level for each place. The refusal of graphs that have none names the first with a negative
/// recursion.
fn leveled(
    alloc: Global,
    graphs: &[StateGraph],
    placed: &Placed,
    offsets: &[usize],
    closers: &[Lst<usize>],
) -> Result<Vec<usize>, NetError>
    requires inside { AreInsideStates graphs.now }
    requires stand { Stand graphs.now placed.now.places.items placed.now.states.items
        placed.now.hubs.items }
    requires fit { All (IsFit (length placed.now.places.items)) placed.now.places.items }
    requires offsets { AreOffsets placed.now.places.items offsets.now }
    requires closers { AreClosers placed.now.places.items closers.now }
    requires closed { AreClosed (state_grammar graphs.now) }
    ensures levels { IfOk result (λ levels. AreLevels placed.now.places.items levels.items) }
    ensures none { OnOk result (HasNoNegativeRecursion (state_grammar graphs.now)) }
    ensures err { IfErr result (RefusesStates graphs.now) }
{
    match levels_of(alloc, &placed.places, offsets, closers) {
        Ok(levels) => Ok(levels),
        Err(LevelsError::NegativeRecursion { graph }) => Err(NetError::NegativeRecursion {
            graph: name_told(alloc, graphs, graph)?,
        }),
        Err(LevelsError::NoMemory) => Err(NetError::NoMemory),
    }
}

/// The ranks of graphs that are admissible. The refusal of others names the first graph, and the
/// least state.
fn ranked(
    alloc: Global,
    graphs: &[StateGraph],
    placed: &Placed,
    closers: &[Lst<usize>],
) -> Result<Admission, NetError>
    requires inside { AreInsideStates graphs.now }
    requires stand { Stand graphs.now placed.now.places.items placed.now.states.items
        placed.now.hubs.items }
    requires fit { All (IsFit (length placed.now.places.items)) placed.now.places.items }
    requires met { AreLoopsMet placed.now.places.items }
    requires closers { AreClosers placed.now.places.items closers.now }
    requires contexts { HasSoundContexts (state_grammar graphs.now) }
    ensures ranks { IfOk result (λ admission.
        ArePlaceRanks placed.now.places.items admission.ranks.items admission.free.items) }
    ensures admissible { OnOk result (IsAdmissible (state_grammar graphs.now)) }
    ensures err { IfErr result (RefusesStates graphs.now) }
{
    match admit(alloc, &placed.places, closers) {
        Ok(admission) => Ok(admission),
        Err(AdmissionError::EmptyLoop { graph, node }) => Err(NetError::EmptyLoop {
            graph: name_told(alloc, graphs, graph)?,
            node: state_told(placed, graph, node),
        }),
        Err(AdmissionError::LeftRecursion { graph, node }) => Err(NetError::LeftRecursion {
            graph: name_told(alloc, graphs, graph)?,
            node: state_told(placed, graph, node),
        }),
        Err(AdmissionError::NoMemory) => Err(NetError::NoMemory),
    }
}

/// The name of the graph of this number, counted from 1.
fn name_told(alloc: Global, graphs: &[StateGraph], graph: usize) -> Mem<Txt>
    requires from { 1 ≤ graph }
    requires to { graph ≤ length graphs.now }
    ensures { IfOk result (is_name_at (names_told graphs.now) graph) }
{
    let name = graphs[graph - 1].name.clone()?;
    Ok(name)
}

/// The state for which a place of the graph stands.
fn state_told(placed: &Placed, graph: usize, place: usize) -> u32
    requires from { 1 ≤ graph }
    requires to { graph ≤ length placed.now.states.items }
    requires inside { place < length (row_at placed.now.states.items graph) }
    ensures { result ≡ entry_at placed.now.states.items graph place }
{
    placed.states[graph - 1].as_slice()[place]
}
