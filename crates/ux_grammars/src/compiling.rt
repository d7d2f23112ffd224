//! The net of a grammar: of graphs that are drawn, or of a compiled one.

ghost use Rattle.std.specs.Prelude.{◌≡◌, ◌⊎◌, ℕ, List, IfErr, IfOk, OnOk};
ghost use Rattle.ux_base.specs.Outside.{IsLater};
ghost use Rattle.ux_plan.specs.Plans.{Halts, StopsTest, refusing};
ghost use Rattle.ux_boxes.specs.Refusing.{drawn};
ghost use Rattle.ux_compile.specs.Refusing.{IsCompilable};
ghost use Rattle.ux_grammars.specs.Graphs.{NamesFile, RefusesGrammar, boxes_plan, drawn_plan, grammar_plan, kind_plan, marked_plan};
ghost use Rattle.ux_grammars.specs.Sources.{of_boxes};
ghost use Rattle.ux_grammars.specs.Reading.{AreWholeGraphs, Compiles, HasDrawnNet, HasNet, IsPlaced, IsSoundNet};

use crate::compiled::read_states_net;
use crate::graphs::read_graphs;
use crate::naming::{is_compiled, named_file};
use std::alloc::Global;
use ux_alphabet::Alphabet;
use ux_base::{Folder, Txt};
use ux_boxes::NetError;
use ux_grf::{Graph, GraphKind};
use ux_net::Net;
use ux_plan::Stop;
use ux_reasons::Reason;

/// Reads the grammar that the word names: a compiled one where the word ends in `.fst2`, and else the
/// graphs of which it names the main one's file, which are compiled.
pub fn read_net<F: Folder>(
    alloc: Global,
    word: &str,
    alphabet: &Alphabet,
    folder: &mut F,
) -> Result<Net, Stop<Reason>>
    ensures later { IsLater (F.seen folder.old) (F.seen folder.new) }
    ensures ok { IfOk result
        (HasNet (grammar_plan word.now alphabet.now)
        (F.seen folder.old).files alphabet.now) }
    ensures sound { IfOk result IsSoundNet }
    ensures err { IfErr result
        (Halts (grammar_plan word.now alphabet.now)
        (F.seen folder.old) (F.seen folder.new)) }
{
    if is_compiled(word) {
        return read_states_net(alloc, word, folder);
    }
    read_boxes_net(alloc, word, alphabet, folder)
}

/// The same where the grammar is drawn, as a grammar of either kind.
#[tactic(auto, using(ux_plan::proofs::PlanSteps::plan_steps))]
fn read_boxes_net<F: Folder>(
    alloc: Global,
    word: &str,
    alphabet: &Alphabet,
    folder: &mut F,
) -> Result<Net, Stop<Reason>>
    ensures later { IsLater (F.seen folder.old) (F.seen folder.new) }
    ensures ok { IfOk result
        (HasNet (boxes_plan word.now alphabet.now)
        (F.seen folder.old).files alphabet.now) }
    ensures sound { IfOk result IsSoundNet }
    ensures err { IfErr result
        (Halts (boxes_plan word.now alphabet.now)
        (F.seen folder.old) (F.seen folder.new)) }
{
    let net = read_drawn_net(alloc, word, alphabet, folder)?;
    Ok(net)
}

/// Reads the graphs of the grammar whose main graph's file the word names, and compiles them.
pub fn read_drawn_net<F: Folder>(
    alloc: Global,
    word: &str,
    alphabet: &Alphabet,
    folder: &mut F,
) -> Result<Net, Stop<Reason>>
    ensures later { IsLater (F.seen folder.old) (F.seen folder.new) }
    ensures ok { IfOk result
        (HasDrawnNet (drawn_plan word.now alphabet.now)
        (F.seen folder.old).files alphabet.now) }
    ensures sound { IfOk result IsSoundNet }
    ensures err { IfErr result
        (Halts (drawn_plan word.now alphabet.now)
        (F.seen folder.old) (F.seen folder.new)) }
{
    read_kind_net(alloc, GraphKind::Plain, word, alphabet, folder)
}

/// The same where the grammar is one of the morphological mode, whose graphs may have the lines `$<` and
/// `$>`.
pub fn read_marked_net<F: Folder>(
    alloc: Global,
    word: &str,
    alphabet: &Alphabet,
    folder: &mut F,
) -> Result<Net, Stop<Reason>>
    ensures later { IsLater (F.seen folder.old) (F.seen folder.new) }
    ensures ok { IfOk result
        (HasDrawnNet (marked_plan word.now alphabet.now)
        (F.seen folder.old).files alphabet.now) }
    ensures sound { IfOk result IsSoundNet }
    ensures err { IfErr result
        (Halts (marked_plan word.now alphabet.now)
        (F.seen folder.old) (F.seen folder.new)) }
{
    read_kind_net(alloc, GraphKind::Morphological, word, alphabet, folder)
}

/// The same for graphs of this kind.
#[tactic(auto, using(ux_plan::proofs::PlanSteps::plan_steps))]
fn read_kind_net<F: Folder>(
    alloc: Global,
    kind: GraphKind,
    word: &str,
    alphabet: &Alphabet,
    folder: &mut F,
) -> Result<Net, Stop<Reason>>
    ensures later { IsLater (F.seen folder.old) (F.seen folder.new) }
    ensures ok { IfOk result
        (HasDrawnNet (kind_plan kind word.now alphabet.now)
        (F.seen folder.old).files alphabet.now) }
    ensures sound { IfOk result IsSoundNet }
    ensures err { IfErr result
        (Halts (kind_plan kind word.now alphabet.now)
        (F.seen folder.old) (F.seen folder.new)) }
{
    let graphs = read_graphs(alloc, kind, word, folder)?;
    let net = compile(alloc, word, alphabet, graphs)?;
    Ok(net)
}

/// Compiles the graphs of a grammar, which calls none that is not there.
fn compile(
    alloc: Global,
    word: &str,
    alphabet: &Alphabet,
    graphs: Vec<(String, Graph)>,
) -> Result<Net, Stop<Reason>>
    requires { AreWholeGraphs graphs.items }
    ensures compilable { OnOk result (IsCompilable alphabet.now (drawn graphs.items)) }
    ensures compiles { IfOk result (λ net.
        Compiles alphabet.now (of_boxes (drawn graphs.items)) net) }
    ensures sound { IfOk result IsSoundNet }
    ensures err { IfErr result (StopsTest (refusing
        (RefusesGrammar word.now alphabet.now (drawn graphs.items)))) }
{
    match ux_compile::compile(alloc, graphs, alphabet) {
        Ok(net) => Ok(net),
        Err(error) => Err(refused_net(alloc, word, error)),
    }
}

/// The stop that names the file of the graph that is refused.
fn refused_net(alloc: Global, word: &str, error: NetError) -> Stop<Reason>
    requires { IsPlaced error }
    ensures { (result ≡ Stop.NoMemory) ⊎ ((file : List ℕ) × NamesFile word.now error file
        × (result ≡ Stop.Refused file (Reason.Net error))) }
{
    let file = match &error {
        NetError::BadMask { graph, .. }
        | NetError::ContextClose { graph, .. }
        | NetError::NegativeRecursion { graph }
        | NetError::EmptyLoop { graph, .. }
        | NetError::LeftRecursion { graph, .. } => named_file(alloc, word, graph.as_str()),
        NetError::NoMemory => return Stop::NoMemory,
        // Each file that is called was read before.
        NetError::MissingGraph { .. } => unreachable!(),
    };
    match file {
        Ok(file) => Stop::Refused {
            name: Txt::new(file),
            reason: Reason::Net(error),
        },
        Err(_) => Stop::NoMemory,
    }
}
