//! The flat net of a net.

ghost use Rattle.std.specs.Prelude.{◌≡◌, ◌↔◌, ◌≤◌, ◌<◌, Any, IfErr, IfOk, IsTrue, None, OnOk, length};
ghost use Rattle.ux_net.specs.StateGraphs.{AreInsideStates, state_grammar, told_at};
ghost use Rattle.ux_net.specs.declared.state.State.{State as TheState};
ghost use Rattle.ux_admission.specs.ContextClose.{AreClosed};
ghost use Rattle.ux_admission.specs.SoundGrammar.{IsSoundGrammar};
ghost use Rattle.ux_flatten.specs.Copies.{copy, name_in};
ghost use Rattle.ux_flatten.specs.Flattening.{DerivesOverTexts, IsFlatNet, IsFlattened, IsTooBig, MOST_EDGES as most_edges, RefusesFlat, TellsWords, told};
ghost use Rattle.ux_flatten.specs.Making.{AreSizes, RefusesSize, has_word};

use crate::admitting::admit;
use crate::copying::flat_states;
use crate::cuts::refuse_cuts;
use crate::error::FlattenError;
use crate::sizes::{MANY, sizes_to};
use crate::source::Source;
use crate::told::told_graphs;
use crate::words::words_of;
use std::alloc::Global;
use ux_base::{Lst, Mem, Txt};
use ux_net::{Net, State, StateGraph};

/// The most edges of a state: as many as 32 bits number.
const MOST_EDGES: usize = 4_294_967_295;

/// The flat net of the main graph to a depth: one graph without calls, named as the main graph. Over
/// every text it derives what the grammar derives where calls are followed to the depth.
pub fn flatten(alloc: Global, net: &Net, depth: u32) -> Result<Net, FlattenError>
    requires inside { AreInsideStates (told net.now) }
    requires sound { IsSoundGrammar (state_grammar (told net.now)) }
    ensures flattened { OnOk result (IsFlattened (told net.now) depth) }
    ensures states { IfOk result (IsFlatNet (told net.now) depth) }
    ensures derives { IfOk result (DerivesOverTexts (told net.now) depth) }
    ensures sound { IfOk result (λ flat. IsSoundGrammar (state_grammar (told flat))) }
    ensures err { IfErr result (RefusesFlat (told net.now) depth) }
{
    let source = source_of(alloc, net, depth)?;
    let states = small_states(alloc, &source, depth)?;
    refuse_cuts(alloc, &source, depth)?;
    let flat = named(alloc, net, states)?;
    Ok(admit(alloc, flat)?)
}

/// What the copies of the net's graphs to a depth are made from.
fn source_of(alloc: Global, net: &Net, depth: u32) -> Mem<Source>
    requires inside { AreInsideStates (told net.now) }
    requires closed { AreClosed (state_grammar (told net.now)) }
    ensures graphs { IfOk result (λ source. source.graphs.items ≡ told net.now) }
    ensures some { OnOk result (1 ≤ length net.now) }
    ensures words { IfOk result (λ source. TellsWords source.graphs.items (has_word source)) }
    ensures sizes { IfOk result (λ source.
        AreSizes source.graphs.items (has_word source) depth source.sizes.items) }
{
    let graphs = told_graphs(alloc, net)?;
    let words = words_of(alloc, &graphs)?;
    let sizes = sizes_to(alloc, &graphs, &words, depth)?;
    Ok(Source {
        graphs,
        words,
        sizes,
    })
}

/// The states of the flat graph, if they are few enough and none has too many edges.
fn small_states(alloc: Global, source: &Source, depth: u32) -> Result<Vec<State>, FlattenError>
    requires inside { AreInsideStates source.now.graphs.items }
    requires some { 1 ≤ length source.now.graphs.items }
    requires tells { TellsWords source.now.graphs.items (has_word source.now) }
    requires sizes { AreSizes source.now.graphs.items (has_word source.now) depth source.now.sizes.items }
    ensures states { IfOk result (λ states. states.items
        ≡ copy source.now.graphs.items (has_word source.now) depth 1 0 None) }
    ensures small { OnOk result (IsTooBig source.now.graphs.items depth → ⊥) }
    ensures err { IfErr result (RefusesSize source.now.graphs.items depth) }
{
    if source.size(depth) >= MANY {
        return Err(FlattenError::TooBig);
    }
    let states = flat_states(alloc, source, depth)?;
    if has_wide(&states) {
        return Err(FlattenError::TooBig);
    }
    Ok(states)
}

/// Whether a state has more edges than 32 bits number.
#[tactic(auto, using(crate::proofs::FlatteningLaw::none_wide))]
fn has_wide(states: &[State]) -> bool
    ensures { IsTrue result ↔ Any (λ (state : TheState). most_edges < length state.edges) states.now }
{
    for state in states {
        if state.edges.as_slice().len() > MOST_EDGES {
            return true;
        }
    }
    false
}

/// The graph of these states, named as the main graph.
fn named(alloc: Global, net: &Net, states: Vec<State>) -> Mem<StateGraph>
    requires { 1 ≤ length net.now }
    ensures name { IfOk result (λ flat. flat.name ≡ name_in (told_at (told net.now) 1)) }
    ensures states { IfOk result (λ flat. flat.states ≡ states.items) }
{
    Ok(StateGraph {
        name: Txt::from_str(alloc, net.name(1))?,
        states: Lst::new(states),
    })
}
