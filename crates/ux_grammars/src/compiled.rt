//! A compiled grammar: graphs of states, read from one file.

ghost use Rattle.std.specs.Prelude.{◌≡◌, ◌≢◌, ◌≤◌, AllPairs, IfErr, IfOk, OnOk, length};
ghost use Rattle.ux_base.specs.Outside.{IsLater};
ghost use Rattle.ux_alphabet.specs.Letters.{Letters};
ghost use Rattle.ux_admission.specs.SoundGrammar.{IsSoundGrammar};
ghost use Rattle.ux_fst2.specs.Reading.{AreStateGraphs, SaysGraphs};
ghost use Rattle.ux_net.specs.Nets.{net_grammar};
ghost use Rattle.ux_net.specs.StateGraphs.{state_grammar};
ghost use Rattle.ux_net.specs.Whole.{HaveSameStates};
ghost use Rattle.ux_net.specs.Words.{SayTheSame};
ghost use Rattle.ux_states.specs.Met.{met_grammar};
ghost use Rattle.ux_plan.specs.Plans.{Halts, Reads, StopsFile, StopsTest, refusing};
ghost use Rattle.ux_grammars.specs.Graphs.{RefusesCompiled, fst2_format, states_plan};
ghost use Rattle.ux_grammars.specs.Reading.{HasNet, IsSoundNet};

use std::alloc::Global;
use ux_base::Folder;
use ux_boxes::NetError;
use ux_fst2::{Fst2Error, read_states};
use ux_net::{Net, StateGraph};
use ux_plan::{Stop, read_decoded, refused};
use ux_reasons::Reason;
use ux_states::of_states;

/// Reads the compiled grammar whose file the word names.
#[tactic(auto, using(ux_plan::proofs::PlanSteps::plan_steps))]
pub fn read_states_net<F: Folder>(
    alloc: Global,
    word: &str,
    folder: &mut F,
) -> Result<Net, Stop<Reason>>
    ensures later { IsLater (F.seen folder.old) (F.seen folder.new) }
    ensures ok { IfOk result (λ net. (letters : Letters) →
        HasNet (states_plan word.now) (F.seen folder.old).files letters net) }
    ensures sound { IfOk result IsSoundNet }
    ensures err { IfErr result
        (Halts (states_plan word.now) (F.seen folder.old) (F.seen folder.new)) }
{
    let graphs = read_file(alloc, word, folder)?;
    let net = net_of(alloc, word, graphs)?;
    Ok(net)
}

/// Reads the graphs of states that a file says.
#[tactic(auto, using(ux_plan::proofs::Decoded::decoding))]
fn read_file<F: Folder>(
    alloc: Global,
    name: &str,
    folder: &mut F,
) -> Result<Vec<StateGraph>, Stop<Reason>>
    ensures later { IsLater (F.seen folder.old) (F.seen folder.new) }
    ensures ok { IfOk result (λ graphs.
        Reads fst2_format name.now (F.seen folder.old).files graphs.items) }
    ensures given { IfOk result (λ graphs. AreStateGraphs graphs.items) }
    ensures err { IfErr result
        (StopsFile fst2_format name.now (F.seen folder.old) (F.seen folder.new)) }
{
    let text = read_decoded(alloc, name, folder)?;
    match read_states(alloc, text.as_str()) {
        Ok(graphs) => Ok(graphs),
        Err(Fst2Error::NoMemory) => Err(Stop::NoMemory),
        Err(error) => Err(refused(alloc, name, Reason::Fst2(error))),
    }
}

/// The net of graphs of states, if they have a meaning.
fn net_of(alloc: Global, word: &str, graphs: Vec<StateGraph>) -> Result<Net, Stop<Reason>>
    requires { AreStateGraphs graphs.items }
    ensures sound { OnOk result (IsSoundGrammar (state_grammar graphs.items)) }
    ensures states { IfOk result (λ net. HaveSameStates net graphs.items) }
    ensures words { IfOk result (λ net.
        SayTheSame (met_grammar graphs.items) (net_grammar net)) }
    ensures err { IfErr result (StopsTest (refusing (RefusesCompiled word.now graphs.items))) }
{
    match of_states(alloc, graphs) {
        Ok(net) => Ok(net),
        Err(NetError::NoMemory) => Err(Stop::NoMemory),
        Err(error) => Err(refused(alloc, word, Reason::Net(error))),
    }
}
