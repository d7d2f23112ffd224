//! The parts of compiling a list of graphs, in their order: places, their ranks, and states.

ghost use Rattle.std.specs.Prelude.{◌≡◌, ◌≢◌, ℕ, ◌+◌, ◌≤◌, ◌<◌, List, [], All, AllPairs, Contains, IfErr, IfOk, OnOk, length, get_or, string_bytes, map};
ghost use Rattle.ux_grf.specs.Size.{size_of};
ghost use Rattle.ux_grf.specs.WellFormed.{IsWellFormed};
ghost use Rattle.ux_tokens.specs.Numbers.{texts_in};
ghost use Rattle.ux_net.specs.declared.net_graph.NetGraph.{NetGraph};
ghost use Rattle.ux_boxes.specs.declared.place.Place.{Place};
ghost use Rattle.ux_admission.specs.Admissible.{IsAdmissible};
ghost use Rattle.ux_admission.specs.Admission.{ArePlaceRanks};
ghost use Rattle.ux_boxes.specs.Boxes.{box_grammar, names_of as names_of_graphs};
ghost use Rattle.ux_admission.specs.Closers.{AreClosers};
ghost use Rattle.ux_boxes.specs.Splitting.{AreSplit, IsSplittableBox};
ghost use Rattle.ux_compile.specs.Compiling.{AreTested, IsBuiltOf, IsConstructed, RefusesNet};
ghost use Rattle.ux_admission.specs.Refusals.{RefusesContexts, RefusesPlaces, RefusesRecursion};
ghost use Rattle.ux_compile.specs.Construct.{AreFit};
ghost use Rattle.ux_admission.specs.ContextClose.{AreClosed};
ghost use Rattle.ux_admission.specs.Cycles.{AreOpened};
ghost use Rattle.ux_boxes.specs.Fit.{HasLinesWhereReached, HasTargetsInside, IsFit};
ghost use Rattle.ux_admission.specs.NegativeRecursion.{HasNoNegativeRecursion};
ghost use Rattle.ux_net.specs.Nets.{net_grammar};
ghost use Rattle.ux_boxes.specs.Numbers.{AreOffsets};
ghost use Rattle.ux_boxes.specs.Places.{place_grammar};
ghost use Rattle.ux_compile.specs.Ranks.{AreBuilt, IsBuilt};
ghost use Rattle.ux_boxes.specs.Refusing.{drawn, is_name_at};
ghost use Rattle.ux_compile.specs.Refusing.{IsCompilable, Refuses};
ghost use Rattle.ux_net.specs.Sound.{IsSound};
ghost use Rattle.ux_net.specs.StateGraphs.{state_grammar};
ghost use Rattle.ux_net.specs.Whole.{told_graph};
ghost use Rattle.ux_admission.specs.SoundGrammar.{IsSoundGrammar};
ghost use Rattle.ux_admission.specs.Uses.{AreLevels};
ghost use Rattle.ux_net.specs.Words.{SayTheSame};

use crate::closings::closings;
use crate::construct::states;
use crate::ranks::ranks;
use indexmap::IndexSet;
use std::alloc::{AllocError, Global};
use ux_admission::{
    Admission, AdmissionError, LevelsError, admit, closers_of, levels_of, refuse_bad_contexts,
};
use ux_alphabet::Alphabet;
use ux_base::{Lst, Mem, Txt};
use ux_boxes::{
    NetError, Place, name_of, names_of, offsets_of, refuse_bad_masks, refuse_missing, split_graph,
};
use ux_grf::Graph;
use ux_net::NetGraph;

/// The graphs as states. Each test comes when those before it have passed. Before states are made,
/// the boxes are let go, of which a graph may have many lines.
pub fn compiled(
    alloc: Global,
    graphs: Vec<(String, Graph)>,
    alphabet: &Alphabet,
) -> Result<Vec<NetGraph>, NetError>
    requires some { 0 < length graphs.items }
    requires few { length graphs.items ≤ 65535 }
    requires well_formed { All (λ graph. IsWellFormed graph.1) graphs.items }
    requires small { All (λ graph. size_of graph.1 < 4294967296) graphs.items }
    requires distinct { AllPairs (λ a b. string_bytes a.0 ≢ string_bytes b.0) graphs.items }
    ensures compilable { OnOk result (IsCompilable alphabet.now (drawn graphs.items)) }
    ensures built { IfOk result (λ net. IsConstructed alphabet.now (drawn graphs.items) net.items) }
    ensures words { IfOk result (λ net.
        SayTheSame (box_grammar alphabet.now (drawn graphs.items)) (net_grammar net.items)) }
    ensures sound { IfOk result (λ net. IsSound net.items) }
    ensures admitted { IfOk result (λ net.
        IsSoundGrammar (state_grammar (map told_graph net.items))) }
    ensures err { IfErr result (Refuses alphabet.now (drawn graphs.items)) }
{
    let places = places_of(alloc, &graphs, alphabet)?;
    let names = names_given(alloc, &graphs)?;
    let_go(graphs);
    net_of(alloc, &names, &places)
}

/// The places of graphs that pass the tests which come before places are looked at.
fn places_of(
    alloc: Global,
    graphs: &[(String, Graph)],
    alphabet: &Alphabet,
) -> Result<Vec<Lst<Place>>, NetError>
    requires few { length graphs.now ≤ 65535 }
    requires well_formed { All (λ graph. IsWellFormed graph.1) graphs.now }
    requires distinct { AllPairs (λ a b. string_bytes a.0 ≢ string_bytes b.0) graphs.now }
    ensures ok { IfOk result (λ places. AreTested alphabet.now (drawn graphs.now) places.items) }
    ensures err { IfErr result (Refuses alphabet.now (drawn graphs.now)) }
{
    let names = names_of(alloc, graphs)?;
    refuse_missing(alloc, graphs, &names)?;
    refuse_bad_masks(alloc, graphs)?;
    Ok(split_graphs(alloc, alphabet, &names, graphs)?)
}

/// A copy of the names of the graphs.
fn names_given(alloc: Global, graphs: &[(String, Graph)]) -> Result<Vec<String>, AllocError>
    ensures { IfOk result (λ names.
        map string_bytes names.items ≡ names_of_graphs (drawn graphs.now)) }
{
    let mut names = Vec::new(alloc);
    for (name, _) in graphs {
        names.push(String::from_str(alloc, name.as_str())?)?;
    }
    Ok(names)
}

/// Lets the graphs go.
fn let_go(_graphs: Vec<(String, Graph)>) {}

/// The states of graphs of these names and places, if their contexts are closed, no negative one
/// comes back to itself, and their grammar is admissible.
fn net_of(alloc: Global, names: &[String], places: &[Lst<Place>]) -> Result<Vec<NetGraph>, NetError>
    requires count { length places.now ≡ length names.now }
    requires few_graphs { length names.now ≤ 65535 }
    requires fit { All (IsFit (length places.now)) places.now }
    requires reached { All HasLinesWhereReached places.now }
    requires few { All (λ (graph : List Place). length graph ≤ 65535) places.now }
    requires are_fit { All AreFit places.now }
    ensures sound { OnOk result (IsSoundGrammar (place_grammar places.now)) }
    ensures built { IfOk result (λ net.
        IsBuiltOf (map string_bytes names.now) places.now net.items) }
    ensures err { IfErr result (RefusesNet (map string_bytes names.now) places.now) }
{
    let offsets = offsets_of(alloc, places)?;
    let closers = closed_contexts(alloc, names, places)?;
    let levels = leveled(alloc, names, places, &offsets, &closers)?;
    admitted_net(alloc, names, places, &offsets, &closers, &levels)
}

/// For each place those into which contexts are closed, if they are closed as they have to be.
fn closed_contexts(
    alloc: Global,
    names: &[String],
    places: &[Lst<Place>],
) -> Result<Vec<Lst<usize>>, NetError>
    requires count { length places.now ≡ length names.now }
    requires few { All (λ (graph : List Place). length graph ≤ 65535) places.now }
    requires inside { All HasTargetsInside places.now }
    ensures closed { OnOk result (AreClosed (place_grammar places.now)) }
    ensures closers { IfOk result (λ closers. AreClosers places.now closers.items) }
    ensures err { IfErr result (RefusesContexts (map string_bytes names.now) places.now) }
{
    let closers = closers_of(alloc, places)?;
    refuse_bad_contexts(alloc, names, places, &closers)?;
    Ok(closers)
}

/// A level for each place. The refusal of a grammar that has none names its graph.
fn leveled(
    alloc: Global,
    names: &[String],
    places: &[Lst<Place>],
    offsets: &[usize],
    closers: &[Lst<usize>],
) -> Result<Vec<usize>, NetError>
    requires count { length places.now ≡ length names.now }
    requires fit { All (IsFit (length places.now)) places.now }
    requires offsets { AreOffsets places.now offsets.now }
    requires closing { AreClosers places.now closers.now }
    ensures leveled { IfOk result (λ levels. AreLevels places.now levels.items) }
    ensures levels { OnOk result (HasNoNegativeRecursion (place_grammar places.now)) }
    ensures err { IfErr result (RefusesRecursion (map string_bytes names.now) places.now) }
{
    match levels_of(alloc, places, offsets, closers) {
        Ok(levels) => Ok(levels),
        Err(LevelsError::NegativeRecursion { graph }) => Err(NetError::NegativeRecursion {
            graph: name_of(alloc, names, graph)?,
        }),
        Err(LevelsError::NoMemory) => Err(NetError::NoMemory),
    }
}

/// The same where no context is refused, with a level for each place.
fn admitted_net(
    alloc: Global,
    names: &[String],
    places: &[Lst<Place>],
    offsets: &[usize],
    closers: &[Lst<usize>],
    levels: &[usize],
) -> Result<Vec<NetGraph>, NetError>
    requires count { length places.now ≡ length names.now }
    requires few_graphs { length names.now ≤ 65535 }
    requires fit { All (IsFit (length places.now)) places.now }
    requires reached { All HasLinesWhereReached places.now }
    requires few { All (λ (graph : List Place). length graph ≤ 65535) places.now }
    requires are_fit { All AreFit places.now }
    requires offsets { AreOffsets places.now offsets.now }
    requires closing { AreClosers places.now closers.now }
    requires closed { AreClosed (place_grammar places.now) }
    requires leveled { AreLevels places.now levels.now }
    ensures admissible { OnOk result (IsAdmissible (place_grammar places.now)) }
    ensures built { IfOk result (λ net.
        IsBuiltOf (map string_bytes names.now) places.now net.items) }
    ensures err { IfErr result (RefusesPlaces (map string_bytes names.now) places.now) }
{
    let admission = admitted(alloc, names, places, closers)?;
    Ok(build(alloc, names, places, &admission, offsets, closers)?)
}

/// The places of the graphs.
fn split_graphs(
    alloc: Global,
    alphabet: &Alphabet,
    names: &IndexSet<&str>,
    graphs: &[(String, Graph)],
) -> Mem<Vec<Lst<Place>>>
    requires names { texts_in names.now ≡ names_of_graphs (drawn graphs.now) }
    requires few { length (texts_in names.now) ≤ 65535 }
    requires some { All (λ graph. 0 < length graph.1.boxes) graphs.now }
    requires splittable { All (λ graph.
        All (IsSplittableBox (texts_in names.now)) graph.1.boxes) graphs.now }
    ensures { IfOk result (λ places. AreSplit alphabet.now (drawn graphs.now) places.items) }
{
    let mut places = Vec::new(alloc);
    for (_, graph) in graphs {
        places.push(Lst::new(split_graph(alloc, alphabet, names, graph)?))?;
    }
    Ok(places)
}

/// The ranks of an admissible grammar. The refusal of another names its graph.
fn admitted(
    alloc: Global,
    names: &[String],
    places: &[Lst<Place>],
    closers: &[Lst<usize>],
) -> Result<Admission, NetError>
    requires count { length places.now ≡ length names.now }
    requires fit { All (IsFit (length places.now)) places.now }
    requires reached { All HasLinesWhereReached places.now }
    requires closers { AreClosers places.now closers.now }
    requires opened { AreOpened places.now }
    requires few { All (λ (graph : List Place). length graph ≤ 65535) places.now }
    ensures ranks { IfOk result (λ admission.
        ArePlaceRanks places.now admission.ranks.items admission.free.items) }
    ensures admissible { OnOk result (IsAdmissible (place_grammar places.now)) }
    ensures err { IfErr result (RefusesPlaces (map string_bytes names.now) places.now) }
{
    match admit(alloc, places, closers) {
        Ok(admission) => Ok(admission),
        Err(AdmissionError::EmptyLoop { graph, node }) => Err(NetError::EmptyLoop {
            graph: name_of(alloc, names, graph)?,
            node: node as u32,
        }),
        Err(AdmissionError::LeftRecursion { graph, node }) => Err(NetError::LeftRecursion {
            graph: name_of(alloc, names, graph)?,
            node: node as u32,
        }),
        Err(AdmissionError::NoMemory) => Err(NetError::NoMemory),
    }
}

/// The states of the graphs, with their ranks.
fn build(
    alloc: Global,
    names: &[String],
    places: &[Lst<Place>],
    admission: &Admission,
    offsets: &[usize],
    closers: &[Lst<usize>],
) -> Mem<Vec<NetGraph>>
    requires count { length places.now ≡ length names.now }
    requires fit { All AreFit places.now }
    requires small { All (All (λ rank. rank < 4294967296)) admission.now.ranks.items }
    requires offsets { AreOffsets places.now offsets.now }
    requires closing { AreClosers places.now closers.now }
    ensures built { IfOk result (λ net. AreBuilt places.now closers.now
        admission.now.ranks.items admission.now.free.items net.items) }
    ensures names { IfOk result (λ net. map (λ (graph : NetGraph). graph.name) net.items
        ≡ map string_bytes names.now) }
{
    let mut net = Vec::new(alloc);
    for (number, name) in names.iter().enumerate() {
        let places = places[number].as_slice();
        let before = offsets[number];
        net.push(build_graph(
            alloc,
            name.as_str(),
            places,
            number + 1,
            admission,
            closers,
            before,
        )?)?;
    }
    Ok(net)
}

/// The states of the graph of this number, counted from 1, with their ranks. The rows of its places
/// begin at `before`.
fn build_graph(
    alloc: Global,
    name: &str,
    places: &[Place],
    number: usize,
    admission: &Admission,
    closers: &[Lst<usize>],
    before: usize,
) -> Mem<NetGraph>
    requires fit { AreFit places.now }
    requires small { All (All (λ rank. rank < 4294967296)) admission.now.ranks.items }
    requires room { before + length places.now < 18446744073709551616 }
    requires inside { (b c : ℕ) → b < length places.now →
        Contains (get_or closers.now (before + b) []) c → c < length places.now }
    ensures built { IfOk result (IsBuilt admission.now.ranks.items admission.now.free.items
        number (λ b. get_or closers.now (before + b) []) places.now) }
    ensures name { IfOk result (λ (graph : NetGraph). graph.name ≡ name.now) }
{
    let states = states(alloc, places)?;
    let (ranks, free) = ranks(alloc, places, number, admission)?;
    let closings = closings(alloc, places, closers, before)?;
    Ok(NetGraph {
        name: Txt::from_str(alloc, name)?,
        states: Lst::new(states),
        ranks: Lst::new(ranks),
        free: Lst::new(free),
        closings: Lst::new(closings),
        unmet: Lst::new(Vec::new(alloc)),
    })
}
