//! The net of graphs of states.

ghost use Rattle.std.specs.Prelude.{◌≤◌, IfErr, IfOk, OnOk, length};
ghost use Rattle.ux_net.specs.Nets.{net_grammar};
ghost use Rattle.ux_net.specs.StateGraphs.{AreInsideStates, state_grammar};
ghost use Rattle.ux_net.specs.Whole.{HaveSameStates};
ghost use Rattle.ux_net.specs.Words.{SayTheSame};
ghost use Rattle.ux_admission.specs.SoundGrammar.{IsSoundGrammar};
ghost use Rattle.ux_state_places.specs.RefusingStates.{RefusesStates};
ghost use Rattle.ux_states.specs.Met.{met_grammar};

use crate::building::built;
use std::alloc::Global;
use ux_boxes::{NetError, offsets_of};
use ux_net::{Net, StateGraph, count_masks};
use ux_state_places::{admit_states, place_states};

/// The net of these graphs, with exactly their states. The first is the main graph. Nodes of a refusal
/// count states. The time and the memory are linear in states and edges, sorting apart.
pub fn of_states(alloc: Global, graphs: Vec<StateGraph>) -> Result<Net, NetError>
    requires some { 1 ≤ length graphs.items }
    requires few { length graphs.items ≤ 65535 }
    requires inside { AreInsideStates graphs.items }
    ensures sound { OnOk result (IsSoundGrammar (state_grammar graphs.items)) }
    ensures states { IfOk result (λ net. HaveSameStates net graphs.items) }
    ensures words { IfOk result (λ net.
        SayTheSame (met_grammar graphs.items) (net_grammar net)) }
    ensures err { IfErr result (RefusesStates graphs.items) }
{
    let placed = place_states(alloc, &graphs)?;
    let admitted = admit_states(alloc, &graphs, &placed)?;
    let offsets = offsets_of(alloc, &placed.places)?;
    let net = built(alloc, graphs, &placed, &admitted, &offsets)?;
    let masks = count_masks(alloc, &net)?;
    Ok(Net::of(net, masks))
}
