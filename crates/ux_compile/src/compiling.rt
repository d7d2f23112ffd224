//! Compiles a list of graphs.

ghost use Rattle.std.specs.Prelude.{◌≡◌, ◌≢◌, ◌≤◌, ◌<◌, ℕ, All, AllPairs, IfErr, IfOk, OnOk, length, map, string_bytes};
ghost use Rattle.ux_grf.specs.Size.{size_of};
ghost use Rattle.ux_grf.specs.WellFormed.{IsWellFormed};
ghost use Rattle.ux_boxes.specs.Boxes.{box_grammar};
ghost use Rattle.ux_compile.specs.Compiling.{IsConstructed};
ghost use Rattle.ux_admission.specs.SoundGrammar.{IsSoundGrammar};
ghost use Rattle.ux_net.specs.Nets.{net_grammar};
ghost use Rattle.ux_net.specs.StateGraphs.{AreInsideStates, state_grammar};
ghost use Rattle.ux_net.specs.Whole.{told_graph};
ghost use Rattle.ux_boxes.specs.Refusing.{drawn};
ghost use Rattle.ux_compile.specs.Refusing.{IsCompilable, Refuses};
ghost use Rattle.ux_net.specs.Words.{SayTheSame};

use crate::grammar::compiled;
use std::alloc::Global;
use ux_alphabet::Alphabet;
use ux_boxes::NetError;
use ux_grf::Graph;
use ux_net::{Net, count_masks};

/// The graphs as states. The first is the main graph.
pub fn compile(
    alloc: Global,
    graphs: Vec<(String, Graph)>,
    alphabet: &Alphabet,
) -> Result<Net, NetError>
    requires some { 0 < length graphs.items }
    requires few { length graphs.items ≤ 65535 }
    requires well_formed { All (λ graph. IsWellFormed graph.1) graphs.items }
    requires small { All (λ graph. size_of graph.1 < 4294967296) graphs.items }
    requires distinct { AllPairs (λ a b. string_bytes a.0 ≢ string_bytes b.0) graphs.items }
    ensures compilable { OnOk result (IsCompilable alphabet.now (drawn graphs.items)) }
    ensures words { IfOk result (λ net.
        SayTheSame (box_grammar alphabet.now (drawn graphs.items)) (net_grammar net)) }
    ensures built { IfOk result (λ net.
        IsConstructed alphabet.now (drawn graphs.items) net) }
    ensures inside { IfOk result (λ net. AreInsideStates (map told_graph net)) }
    ensures admitted { IfOk result (λ net.
        IsSoundGrammar (state_grammar (map told_graph net))) }
    ensures err { IfErr result (Refuses alphabet.now (drawn graphs.items)) }
{
    let net = compiled(alloc, graphs, alphabet)?;
    let masks = count_masks(alloc, &net)?;
    Ok(Net::of(net, masks))
}
