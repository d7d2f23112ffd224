//! A flat graph as a net.

ghost use Rattle.std.specs.Prelude.{◌≡◌, ◌∷◌, [], IfOk};
ghost use Rattle.ux_net.specs.Nets.{net_grammar};
ghost use Rattle.ux_net.specs.StateGraphs.{AreInsideStates, state_grammar};
ghost use Rattle.ux_net.specs.Words.{SayTheSame};
ghost use Rattle.ux_admission.specs.SoundGrammar.{IsSoundGrammar};
ghost use Rattle.ux_states.specs.Met.{met_grammar};
ghost use Rattle.ux_flatten.specs.Flattening.{told};

use std::alloc::Global;
use ux_base::{Mem, NoMemory};
use ux_boxes::NetError;
use ux_net::{Net, StateGraph};
use ux_states::of_states;

/// The net of one graph without calls that is sound, with exactly its states.
pub(crate) fn admit(alloc: Global, flat: StateGraph) -> Mem<Net>
    requires inside { AreInsideStates (flat ∷ []) }
    requires sound { IsSoundGrammar (state_grammar (flat ∷ [])) }
    ensures states { IfOk result (λ net. told net ≡ flat ∷ []) }
    ensures words { IfOk result (λ net.
        SayTheSame (met_grammar (flat ∷ [])) (net_grammar net)) }
{
    match of_states(alloc, vec![in alloc; flat]?) {
        Ok(net) => Ok(net),
        Err(NetError::NoMemory) => Err(NoMemory),
        // Sound graphs aren't refused.
        Err(_) => unreachable!(),
    }
}
