//! The flat grammar as a file.

ghost use Rattle.std.specs.Prelude.{◌≡◌, ◌⊎◌, ℕ, List, IfErr, IfOk, OnOk};
ghost use Rattle.ux_base.specs.Outside.{IsLater};
ghost use Rattle.ux_plan.specs.Commands.{Answers};
ghost use Rattle.ux_plan.specs.Plans.{Halts, StopsTest, refusing};
ghost use Rattle.ux_flatten.specs.Flattening.{DerivesOverTexts, IsFlatNet, IsFlattened, told};
ghost use Rattle.ux_grammars.specs.Reading.{IsSoundNet};
ghost use Rattle.ux_cmd_flatten.specs.Flatten.{flatten as flatten_command};
ghost use Rattle.ux_cmd_flatten.specs.Refusing.{NamesGraph, RefusesNet};

use std::alloc::Global;
use ux_base::{Folder, Txt};
use ux_flatten::FlattenError;
use ux_fst2::print;
use ux_grammars::{graph_file, read_net};
use ux_net::Net;
use ux_plan::{Stop, refused};
use ux_reasons::Reason;
use ux_texts::read_alphabet;

/// Reads an alphabet and a grammar, and gives the text of its flat net to the depth.
#[tactic(auto, using(ux_plan::proofs::PlanSteps::plan_steps))]
pub fn flatten<F: Folder>(
    alloc: Global,
    graph: &str,
    alphabet: &str,
    depth: u32,
    folder: &mut F,
) -> Result<Vec<u8>, Stop<Reason>>
    ensures later { IsLater (F.seen folder.old) (F.seen folder.new) }
    ensures ok { IfOk result (λ answer.
        Answers (flatten_command graph.now alphabet.now depth) (F.seen folder.old).files
        answer.items) }
    ensures err { IfErr result (Halts (flatten_command graph.now alphabet.now depth).plan
        (F.seen folder.old) (F.seen folder.new)) }
{
    let alphabet = read_alphabet(alloc, alphabet, false, folder)?;
    let net = read_net(alloc, graph, &alphabet, folder)?;
    let flat = flat_net(alloc, graph, &net, depth)?;
    let file = print(alloc, &flat)?;
    Ok(file.into_bytes())
}

/// The flat net of the net of the grammar that the word names.
fn flat_net(alloc: Global, word: &str, net: &Net, depth: u32) -> Result<Net, Stop<Reason>>
    requires { IsSoundNet net.now }
    ensures flattened { OnOk result (IsFlattened (told net.now) depth) }
    ensures states { IfOk result (IsFlatNet (told net.now) depth) }
    ensures derives { IfOk result (DerivesOverTexts (told net.now) depth) }
    ensures err { IfErr result (StopsTest (refusing (RefusesNet word.now (told net.now) depth))) }
{
    match ux_flatten::flatten(alloc, net, depth) {
        Ok(flat) => Ok(flat),
        Err(error) => Err(refused_flat(alloc, word, error)),
    }
}

/// The stop that names the file of the graph at which the grammar is refused.
fn refused_flat(alloc: Global, word: &str, error: FlattenError) -> Stop<Reason>
    ensures { (result ≡ Stop.NoMemory) ⊎ ((file : List ℕ) × NamesGraph word.now error file
        × (result ≡ Stop.Refused file (Reason.Flatten error))) }
{
    match error {
        FlattenError::TooBig => refused(alloc, word, Reason::Flatten(FlattenError::TooBig)),
        FlattenError::NegativeCut { graph, node } => {
            match graph_file(alloc, word, graph.as_str()) {
                Ok(file) => Stop::Refused {
                    name: Txt::new(file),
                    reason: Reason::Flatten(FlattenError::NegativeCut { graph, node }),
                },
                Err(_) => Stop::NoMemory,
            }
        }
        FlattenError::NoMemory => Stop::NoMemory,
    }
}
