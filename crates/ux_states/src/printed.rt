//! A net that is printed is read again.

ghost use Rattle.std.specs.Prelude.{◌≡◌, List, IfErr, IfOk, map};
ghost use Rattle.ux_admission.specs.SoundGrammar.{IsSoundGrammar};
ghost use Rattle.ux_boxes.specs.declared.error.NetError.TheVariants.{NoMemory as OutOfMemory};
ghost use Rattle.ux_fst2.specs.Reading.{AreStateGraphs, SaysGraphs};
ghost use Rattle.ux_fst2.specs.Spelling.{AreSpellable};
ghost use Rattle.ux_net.specs.StateGraphs.{state_grammar};
ghost use Rattle.ux_net.specs.Whole.{HaveSameStates, told_graph};
ghost use Rattle.ux_net.specs.declared.state_graph.StateGraph.{StateGraph as StateGraphRecord};
ghost use Rattle.ux_state_places.specs.RefusingStates.{RefusesStates};

use crate::compiling::of_states;
use std::alloc::Global;
use ux_base::{Mem, NoMemory};
use ux_boxes::NetError;
use ux_fst2::{Fst2Error, print, read_states};
use ux_net::{Net, StateGraph};

/// The net that is read of what is printed for a net that can be spelled: it has the same graphs, with
/// the same states in order. The text is never refused, and its states are refused only where the
/// states of the net itself have no meaning.
pub fn read_printed(alloc: Global, net: &Net) -> Result<Net, NetError>
    requires { AreSpellable (map told_graph net.now) }
    ensures same { IfOk result (λ again. HaveSameStates again (map told_graph net.now)) }
    ensures err { IfErr result (RefusesStates (map told_graph net.now)) }
    ensures sound { IsSoundGrammar (state_grammar (map told_graph net.now)) →
        IfErr result (λ error. error ≡ OutOfMemory) }
{
    let text = print(alloc, net)?;
    let graphs = said(alloc, text.as_str())?;
    of_states(alloc, graphs)
}

/// The graphs of a text that says some.
fn said(alloc: Global, text: &str) -> Mem<Vec<StateGraph>>
    requires { (graphs : List StateGraphRecord) × SaysGraphs text.now graphs }
    ensures ok { IfOk result (λ graphs. SaysGraphs text.now graphs.items) }
    ensures given { IfOk result (λ graphs. AreStateGraphs graphs.items) }
{
    match read_states(alloc, text) {
        Ok(graphs) => Ok(graphs),
        Err(Fst2Error::NoMemory) => Err(NoMemory),
        // A text that says graphs is refused for nothing.
        Err(Fst2Error::BadCount) => unreachable!(),
        Err(Fst2Error::BadLine { .. }) => unreachable!(),
        Err(Fst2Error::BadTag { .. }) => unreachable!(),
        Err(Fst2Error::BadLabel { .. }) => unreachable!(),
    }
}
