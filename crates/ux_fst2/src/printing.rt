//! Printing a net: its file, and the text of that. `specs/Files.antt` says which file it is.

ghost use Rattle.std.specs.Prelude.{◌≡◌, ◌≤◌, ◌<◌, ◌^◌, ◌-◌, Some, IfOk, IsSomeAnd, OnOk, length, map, slice_get, string_bytes};
ghost use Rattle.std.specs.List.{AllZip, flat_map};
ghost use Rattle.ux_base.specs.Distinct.{with_text};
ghost use Rattle.ux_net.specs.Nets.{graph_at, states_of as states_of_graph};
ghost use Rattle.ux_net.specs.Whole.{told_graph, whole_states_of};
ghost use Rattle.ux_fst2.specs.Files.{IsEdgeBy, IsFileOf, IsGraphBy, IsPrintedBy, IsStateBy, IsTextOf, called as called_of, tags_of_edge, tags_of_graph, tags_of_state};
ghost use Rattle.ux_fst2.specs.Inner.{with_texts};
ghost use Rattle.ux_fst2.specs.Reading.{SaysGraphs};
ghost use Rattle.ux_fst2.specs.Spelling.{AreSpellable};

use crate::tag_text::print_tag;
use indexmap::IndexSet;
use std::alloc::Global;
use ux_base::{Lst, Mem, NoMemory, Txt};
use ux_fst2_file::{Fst2Edge, Fst2File, Fst2Graph, Fst2Label, Fst2State};
use ux_net::{Edge, Label, Net};

/// The number of tags above which no label names one.
const MOST_TAGS: usize = 4_294_967_295;

/// The text of a net, as a file of compiled grammars. It says the graphs of the net again, where they
/// can be spelled. Takes time in the net, and in the bytes that it writes.
pub fn print(alloc: Global, net: &Net) -> Mem<String>
    ensures is { IfOk result (λ text. IsTextOf net.now (string_bytes text)) }
    ensures back { IfOk result (λ text. AreSpellable (map told_graph net.now) →
        SaysGraphs (string_bytes text) (map told_graph net.now)) }
{
    let file = file_of(alloc, net)?;
    let text = ux_fst2_file::print(alloc, &file)?;
    Ok(text)
}

/// The file of a net.
fn file_of(alloc: Global, net: &Net) -> Mem<Fst2File>
    ensures { IfOk result (IsFileOf (map told_graph net.now)) }
{
    let mut tags = IndexSet::new(alloc);
    tags.insert(Txt::from_str(alloc, "%<E>")?)?;
    let graphs = graphs_of(alloc, &mut tags, net)?;
    Ok(Fst2File {
        graphs: Lst::new(graphs),
        tags: Lst::new(tags_in(alloc, &tags)?),
    })
}

/// The graphs of a net, as a file has them. Their tags are added to the table.
fn graphs_of(alloc: Global, tags: &mut IndexSet<Txt>, net: &Net) -> Mem<Vec<Fst2Graph>>
    ensures tags { OnOk result (tags.new.keys
        ≡ with_texts tags.old.keys (flat_map tags_of_graph (map told_graph net.now))) }
    ensures graphs { IfOk result (λ graphs.
        AllZip (IsGraphBy (IsPrintedBy tags.new.keys)) graphs.items (map told_graph net.now)) }
{
    let mut graphs = Vec::new(alloc);
    let count = net.graphs();
    for before in 0..count {
        graphs.push(graph_of(alloc, tags, net, before + 1)?)?;
    }
    Ok(graphs)
}

/// The graph of this number, as a file has it.
fn graph_of(alloc: Global, tags: &mut IndexSet<Txt>, net: &Net, graph: u32) -> Mem<Fst2Graph>
    requires from { 1 ≤ graph }
    requires to { graph ≤ length net.now }
    ensures tags { OnOk result (IsSomeAnd (graph_at net.now graph)
        (λ g. tags.new.keys ≡ with_texts tags.old.keys (tags_of_graph (told_graph g)))) }
    ensures graph { IfOk result (λ told. IsSomeAnd (graph_at net.now graph)
        (λ g. IsGraphBy (IsPrintedBy tags.new.keys) told (told_graph g))) }
{
    let states = states_of(alloc, tags, net, graph)?;
    Ok(Fst2Graph {
        name: Txt::from_str(alloc, net.name(graph))?,
        states: Lst::new(states),
    })
}

/// The states of the graph of this number, as a file has them.
fn states_of(alloc: Global, tags: &mut IndexSet<Txt>, net: &Net, graph: u32) -> Mem<Vec<Fst2State>>
    requires from { 1 ≤ graph }
    requires to { graph ≤ length net.now }
    ensures tags { OnOk result (tags.new.keys
        ≡ with_texts tags.old.keys (flat_map tags_of_state (whole_states_of net.now graph))) }
    ensures states { IfOk result (λ told. AllZip (IsStateBy (IsPrintedBy tags.new.keys))
        told.items (whole_states_of net.now graph)) }
{
    let mut told = Vec::new(alloc);
    let count = net.states(graph);
    for state in 0..count {
        told.push(state_of(alloc, tags, net, graph, state)?)?;
    }
    Ok(told)
}

/// The state of this number of the graph, as a file has it.
fn state_of(
    alloc: Global,
    tags: &mut IndexSet<Txt>,
    net: &Net,
    graph: u32,
    state: u32,
) -> Mem<Fst2State>
    requires from { 1 ≤ graph }
    requires to { graph ≤ length net.now }
    requires inside { state < length (states_of_graph net.now graph) }
    ensures tags { OnOk result (IsSomeAnd (slice_get (whole_states_of net.now graph) state)
        (λ s. tags.new.keys ≡ with_texts tags.old.keys (tags_of_state s))) }
    ensures state { IfOk result (λ told. IsSomeAnd (slice_get (whole_states_of net.now graph) state)
        (IsStateBy (IsPrintedBy tags.new.keys) told)) }
{
    let edges = edges_of(alloc, tags, net.whole_edges(graph, state))?;
    Ok(Fst2State {
        is_final: net.is_whole_final(graph, state),
        edges: Lst::new(edges),
    })
}

/// Edges, as a file has them.
fn edges_of(alloc: Global, tags: &mut IndexSet<Txt>, edges: &[Edge]) -> Mem<Vec<Fst2Edge>>
    ensures tags { OnOk result (tags.new.keys
        ≡ with_texts tags.old.keys (flat_map tags_of_edge edges.now)) }
    ensures edges { IfOk result (λ told.
        AllZip (IsEdgeBy (IsPrintedBy tags.new.keys)) told.items edges.now) }
{
    let mut told = Vec::with_capacity(alloc, edges.len())?;
    for edge in edges {
        told.push(edge_of(alloc, tags, edge)?)?;
    }
    Ok(told)
}

/// An edge, as a file has it.
fn edge_of(alloc: Global, tags: &mut IndexSet<Txt>, edge: &Edge) -> Mem<Fst2Edge>
    ensures tags { OnOk result (tags.new.keys ≡ with_texts tags.old.keys (tags_of_edge edge.now)) }
    ensures edge { IfOk result (λ told. IsEdgeBy (IsPrintedBy tags.new.keys) told edge.now) }
{
    let label = match called(&edge.label) {
        Some(graph) => Fst2Label::Call(graph),
        None => {
            let text = print_tag(alloc, &edge.label, edge.output.as_slice())?;
            Fst2Label::Tag(number_of(tags, Txt::new(text))?)
        }
    };
    Ok(Fst2Edge {
        label,
        target: edge.target,
    })
}

/// The number of a tag, which is a new one where the tag is new.
fn number_of(tags: &mut IndexSet<Txt>, tag: Txt) -> Mem<u32>
    ensures tags { OnOk result (tags.new.keys ≡ with_text tags.old.keys tag) }
    ensures place { IfOk result (λ number. slice_get tags.new.keys number ≡ Some tag) }
    ensures few { IfOk result (λ number. number < 2 ^ 32 - 1) }
{
    let (number, _is_new) = tags.insert_full(tag)?;
    if number >= MOST_TAGS {
        return Err(NoMemory);
    }
    Ok(number as u32)
}

/// The graph that a label calls, if it is a call.
fn called(label: &Label) -> Option<u32>
    ensures { result ≡ called_of label.now }
{
    match label {
        Label::Call(graph) => Some(*graph),
        Label::Empty
        | Label::CaseFolded(_)
        | Label::CaseExact(_)
        | Label::Mask(_)
        | Label::Brace(_)
        | Label::Space
        | Label::NoSpace
        | Label::Begin(_)
        | Label::End(_)
        | Label::Positive
        | Label::Negative
        | Label::ContextEnd
        | Label::Cut => None,
    }
}

/// The tags in the table, in order.
fn tags_in(alloc: Global, tags: &IndexSet<Txt>) -> Mem<Vec<Txt>>
    ensures { IfOk result (λ list. list.items ≡ tags.now.keys) }
{
    let mut list = Vec::with_capacity(alloc, tags.len())?;
    for tag in tags.as_slice() {
        list.push(Txt::from_str(alloc, tag.as_str())?)?;
    }
    Ok(list)
}
