//! The graphs of a grammar, read one after another: the main graph, then those that are called.
//!
//! The names that a graph calls are added to a table as the graph is read, each once, so the table
//! tells which graph is read next, and a grammar has been read when no name is left.

ghost use Rattle.std.specs.Prelude.{◌≡◌, ◌*◌, ◌<◌, ◌≤◌, ◌∷◌, ℕ, List, [], All, IfErr, IfOk, OnOk, length, slice_get, Some, string_bytes};
ghost use Rattle.ux_base.specs.Outside.{IsLater, MAX};
ghost use Rattle.ux_plan.specs.Plans.{Comes, Halts, Reads, ReadsNext, StopsFile, StopsNext, StopsTest, refusing};
ghost use Rattle.ux_grf.specs.File.{IsGraphOf, Refuses};
ghost use Rattle.ux_grf.specs.Needs.{calls_of};
ghost use Rattle.ux_grf.specs.Size.{size_of};
ghost use Rattle.ux_grf.specs.WellFormed.{IsWellFormed};
ghost use Rattle.ux_base.specs.Distinct.{GrowsBy, with_text};
ghost use Rattle.ux_boxes.specs.Refusing.{drawn, drawn_of};
ghost use Rattle.ux_grammars.specs.Graphs.{MOST_GRAPHS, drawing_format, drawing_of, graph_format, graphs_plan};
ghost use Rattle.ux_grammars.specs.Naming.{file_of as file_of_graph, main_name as main_name_of, next_name};
ghost use Rattle.ux_grammars.specs.Reading.{AreWholeGraphs, IsGiven, IsGivenGraph, IsReading};

use crate::naming::{file_of, main_name};
use indexmap::IndexSet;
use std::alloc::Global;
use ux_base::{Folder, Mem, Txt};
use ux_grf::{Graph, GraphKind, GrfError, needs, read_grf, read_marked};
use ux_plan::{Stop, decode_file, read_bytes, refused};
use ux_reasons::Reason;

/// The most graphs that a grammar may have.
const MAX_GRAPHS: usize = 65_535;

/// Reads the graphs of this kind, of the grammar whose main graph's file the word names, each once.
#[tactic(auto, using(ux_plan::proofs::PlanSteps::plan_steps))]
pub fn read_graphs<F: Folder>(
    alloc: Global,
    kind: GraphKind,
    word: &str,
    folder: &mut F,
) -> Result<Vec<(String, Graph)>, Stop<Reason>>
    ensures later { IsLater (F.seen folder.old) (F.seen folder.new) }
    ensures ok { IfOk result (λ graphs. Comes
        (graphs_plan kind word.now) (F.seen folder.old).files
        (drawn graphs.items)) }
    ensures whole { IfOk result (λ graphs. AreWholeGraphs graphs.items) }
    ensures err { IfErr result (Halts (graphs_plan kind word.now)
        (F.seen folder.old) (F.seen folder.new)) }
{
    let mut names = IndexSet::new(alloc);
    add_main(alloc, word, &mut names)?;
    let mut graphs = Vec::new(alloc);
    while graphs.len() < names.len() {
        read_next(alloc, kind, word, &mut names, &mut graphs, folder)?;
    }
    Ok(graphs)
}

/// Adds the main graph's name to the empty table.
fn add_main(alloc: Global, word: &str, names: &mut IndexSet<Txt>) -> Mem<()>
    requires { names.now.keys ≡ [] }
    ensures { OnOk result (names.new.keys ≡ main_name_of word.now ∷ []) }
{
    names.insert(Txt::from_str(alloc, main_name(word))?)?;
    Ok(())
}

/// Reads the graph after those that were read, and adds the names that it calls.
#[tactic(auto, using(crate::proofs::ReadingLemmas::memory_next))]
fn read_next<F: Folder>(
    alloc: Global,
    kind: GraphKind,
    word: &str,
    names: &mut IndexSet<Txt>,
    graphs: &mut Vec<(String, Graph)>,
    folder: &mut F,
) -> Result<(), Stop<Reason>>
    requires reading { IsReading word.now names.now.keys graphs.now.items }
    requires left { length graphs.now.items < length names.now.keys }
    ensures later { IsLater (F.seen folder.old) (F.seen folder.new) }
    ensures reading { OnOk result (IsReading word.now names.new.keys graphs.new.items) }
    ensures few { OnOk result (length graphs.old.items < MOST_GRAPHS) }
    ensures ok { OnOk result (ReadsNext (next_name word.now) (file_of_graph word.now)
        (graph_format kind) (F.seen folder.old).files
        (drawn graphs.old.items) (drawn graphs.new.items)) }
    ensures err { IfErr result (StopsNext (next_name word.now) (file_of_graph word.now)
        (graph_format kind) (drawn graphs.old.items)
        (F.seen folder.old) (F.seen folder.new)) }
{
    let count = graphs.len();
    let name = name_at(names, count)?;
    let file = file_of(alloc, word, count, name.as_str())?;
    let graph = read_graph(alloc, kind, file.as_str(), count, name, folder)?;
    add_needs(alloc, &graph.1, names)?;
    graphs.push(graph)?;
    Ok(())
}

/// The name of the graph that is read at this place.
fn name_at(names: &IndexSet<Txt>, place: usize) -> Mem<String>
    requires { place < length names.now.keys }
    ensures { IfOk result (λ name. slice_get names.now.keys place ≡ Some (string_bytes name)) }
{
    match names.get_index(place) {
        Some(name) => Ok(name.clone()?.into_string()),
        None => unreachable!(),
    }
}

/// Reads the file of the graph of this name after so many others.
#[tactic(auto, using(crate::proofs::DrawingLemmas::drawings))]
fn read_graph<F: Folder>(
    alloc: Global,
    kind: GraphKind,
    file: &str,
    count: usize,
    name: String,
    folder: &mut F,
) -> Result<(String, Graph), Stop<Reason>>
    ensures later { IsLater (F.seen folder.old) (F.seen folder.new) }
    ensures few { OnOk result (count < MOST_GRAPHS) }
    ensures named { IfOk result (λ graph. string_bytes graph.0 ≡ string_bytes name) }
    ensures ok { IfOk result (λ graph. Reads
        (graph_format kind count (string_bytes name)) file.now
        (F.seen folder.old).files (drawn_of graph)) }
    ensures given { IfOk result IsGiven }
    ensures err { IfErr result (StopsFile
        (graph_format kind count (string_bytes name)) file.now
        (F.seen folder.old) (F.seen folder.new)) }
{
    let bytes = read_bytes(alloc, file, folder)?;
    if count >= MAX_GRAPHS {
        return Err(refused(alloc, file, Reason::TooManyGraphs));
    }
    let graph = graph_of_kind(alloc, kind, file, bytes)?;
    Ok((name, graph))
}

/// The graph that the bytes of the file of this name draw.
pub fn drawn_graph(alloc: Global, file: &str, bytes: Vec<u8>) -> Result<Graph, Stop<Reason>>
    requires { length bytes.items ≤ MAX }
    ensures ok { IfOk result (drawing_format.Is bytes.items) }
    ensures given { IfOk result IsGivenGraph }
    ensures err { IfErr result (StopsTest (refusing (λ named reason. (named ≡ file.now)
        × drawing_format.Refuses bytes.items reason))) }
{
    graph_of_kind(alloc, GraphKind::Plain, file, bytes)
}

/// The graph of this kind that the bytes of the file of this name draw.
fn graph_of_kind(
    alloc: Global,
    kind: GraphKind,
    file: &str,
    bytes: Vec<u8>,
) -> Result<Graph, Stop<Reason>>
    requires { length bytes.items ≤ MAX }
    ensures ok { IfOk result ((drawing_of kind).Is bytes.items) }
    ensures given { IfOk result IsGivenGraph }
    ensures err { IfErr result (StopsTest (refusing (λ named reason. (named ≡ file.now)
        × (drawing_of kind).Refuses bytes.items reason))) }
{
    let text = decode_file(alloc, file, bytes)?;
    match graph_in(alloc, kind, text.as_str()) {
        Ok(graph) => Ok(graph),
        Err(GrfError::NoMemory) => Err(Stop::NoMemory),
        Err(error) => Err(refused(alloc, file, Reason::Grf(error))),
    }
}

/// The graph of this kind that the text draws.
fn graph_in(alloc: Global, kind: GraphKind, text: &str) -> Result<Graph, GrfError>
    ensures ok { IfOk result (IsGraphOf kind text.now) }
    ensures well_formed { IfOk result IsWellFormed }
    ensures size { IfOk result (λ graph. size_of graph ≤ 4 * length text.now) }
    ensures err { IfErr result (Refuses kind text.now) }
{
    match kind {
        GraphKind::Plain => read_grf(alloc, text),
        GraphKind::Morphological => read_marked(alloc, text),
    }
}

/// Adds the names that a graph calls, each that isn't there yet.
fn add_needs(alloc: Global, graph: &Graph, names: &mut IndexSet<Txt>) -> Mem<()>
    requires { IsWellFormed graph.now }
    ensures { OnOk result (GrowsBy (calls_of graph.now) names.old.keys names.new.keys) }
{
    for name in needs(alloc, graph)? {
        add_name(names, name)?;
    }
    Ok(())
}

/// Adds a name, if it isn't there yet.
fn add_name(names: &mut IndexSet<Txt>, name: String) -> Mem<()>
    ensures { OnOk result (names.new.keys ≡ with_text names.old.keys (string_bytes name)) }
{
    names.insert(Txt::new(name))?;
    Ok(())
}
