//! The states from which a net is searched, by their ranks.

ghost use Rattle.std.specs.Prelude.{◌≡◌, ◌≢◌, ℕ, ◌+◌, ◌≤◌, ◌<◌, [], ◌∷◌, ◌++◌, None, Some, IfOk, OnOk, length, map, get_or, slice_get, Contains};
ghost use Rattle.std.specs.List.{flat_map};
ghost use Rattle.ux_net.specs.Nets.{states_of};
ghost use Rattle.ux_parts.specs.Order.{Entry as TheEntry, entry_of, is_opening as is_opening_of, entries_by, entries_from, entries_at, all_entries, IsOrderOf, part_of, IsPut, AreNumbers};

use crate::part::Part;
use std::alloc::Global;
use std::mem;
use ux_base::{Lst, Mem};
use ux_net::{Edge, Label, Net};

/// The major and the minor number of a state's rank, its graph, and the state.
pub type Entry = (usize, usize, u32, u32);

/// The first state of each graph, and each state into which a context opens, with their ranks.
pub fn entries(alloc: Global, net: &Net) -> Mem<Vec<Entry>>
    ensures { IfOk result (λ entries. entries.items ≡ all_entries net.now (length net.now)) }
{
    let mut entries = Vec::new(alloc);
    for before in 0..net.graphs() {
        push_graph(net, before + 1, &mut entries)?;
    }
    Ok(entries)
}

/// Adds those of a graph.
fn push_graph(net: &Net, graph: u32, entries: &mut Vec<Entry>) -> Mem<()>
    requires from { 1 ≤ graph }
    requires to { graph ≤ length net.now }
    ensures { OnOk result
        (entries.new.items ≡ entries.old.items ++ entries_at net.now graph) }
{
    entries.push(entry(net, graph, 0))?;
    for state in 0..net.states(graph) {
        push_opened(net, graph, net.edges(graph, state), entries)?;
    }
    Ok(())
}

/// Adds the states into which contexts open along these edges.
fn push_opened(net: &Net, graph: u32, edges: &[Edge], entries: &mut Vec<Entry>) -> Mem<()>
    requires from { 1 ≤ graph }
    requires to { graph ≤ length net.now }
    ensures { OnOk result (entries.new.items
        ≡ entries.old.items ++ flat_map (entries_by net.now graph) edges.now) }
{
    for edge in edges {
        push_edge(net, graph, edge, entries)?;
    }
    Ok(())
}

/// Adds the state to which the edge leads, if it opens a context.
fn push_edge(net: &Net, graph: u32, edge: &Edge, entries: &mut Vec<Entry>) -> Mem<()>
    requires from { 1 ≤ graph }
    requires to { graph ≤ length net.now }
    ensures { OnOk result
        (entries.new.items ≡ entries.old.items ++ entries_by net.now graph edge.now) }
{
    if is_opening(&edge.label) {
        entries.push(entry(net, graph, edge.target))?;
        return Ok(());
    }
    Ok(())
}

/// Whether the label opens a context.
fn is_opening(label: &Label) -> bool
    ensures { result ≡ is_opening_of label.now }
{
    match label {
        Label::Positive | Label::Negative => true,
        Label::Empty
        | Label::CaseFolded(_)
        | Label::CaseExact(_)
        | Label::Mask(_)
        | Label::Brace(_)
        | Label::Space
        | Label::NoSpace
        | Label::Begin(_)
        | Label::End(_)
        | Label::ContextEnd
        | Label::Cut
        | Label::Call(_) => false,
    }
}

/// A state with its rank.
fn entry(net: &Net, graph: u32, state: u32) -> Entry
    requires from { 1 ≤ graph }
    requires to { graph ≤ length net.now }
    ensures { result ≡ entry_of net.now graph state }
{
    let rank = net.rank(graph, state);
    (rank.major, rank.minor, graph, state)
}

/// The entries in order, each once.
pub fn order_of(entries: Vec<Entry>) -> Vec<Entry>
    ensures { IsOrderOf entries.items result.items }
{
    let mut order = entries;
    order.sort_unstable();
    order.dedup();
    order
}

/// A part for each entry, in their order.
pub fn list_of(alloc: Global, net: &Net, order: &[Entry]) -> Mem<Vec<Part>>
    ensures { IfOk result (λ list. list.items ≡ map (part_of net.now) order.now) }
{
    let mut list = Vec::new(alloc);
    for entry in order {
        list.push(part(alloc, net, entry)?)?;
    }
    Ok(list)
}

/// The part of an entry.
fn part(alloc: Global, net: &Net, entry: &Entry) -> Mem<Part>
    ensures { IfOk result (λ part. part ≡ part_of net.now entry.now) }
{
    let mut closing = Vec::new(alloc);
    if let Some(target) = net.closing(entry.2, entry.3) {
        closing.push(target)?;
        return Ok(part_closed(entry, closing));
    }
    Ok(part_closed(entry, closing))
}

/// The part of an entry that is closed into these states.
fn part_closed(entry: &Entry, closing: Vec<u32>) -> Part
    ensures graph { result.graph ≡ entry.now.2 }
    ensures first { result.first ≡ entry.now.3 }
    ensures closing { result.closing ≡ closing.items }
{
    Part {
        graph: entry.2,
        first: entry.3,
        closing: Lst::new(closing),
    }
}

/// A row for each of so many graphs, with the place of each entry at its state.
pub fn numbers_of(alloc: Global, count: usize, order: &[Entry]) -> Mem<Vec<Lst<Option<u32>>>>
    requires few { length order.now < 4294967296 }
    requires inside { (entry : TheEntry) → Contains order.now entry →
        (1 ≤ entry.2) × (entry.2 ≤ count) }
    ensures { IfOk result (λ rows. AreNumbers order.now (length order.now) rows.items) }
{
    let mut rows = empty_rows(alloc, count)?;
    for (place, entry) in order.iter().enumerate() {
        put(alloc, &mut rows, entry.2, entry.3 as usize, place as u32)?;
    }
    Ok(rows)
}

/// So many empty rows.
fn empty_rows(alloc: Global, count: usize) -> Mem<Vec<Lst<Option<u32>>>>
    ensures len { IfOk result (λ rows. length rows.items ≡ count) }
    ensures empty { IfOk result (λ rows. (g : ℕ) → get_or rows.items g [] ≡ []) }
{
    let mut rows = Vec::new(alloc);
    for _ in 0..count {
        rows.push(Lst::new(Vec::new(alloc)))?;
    }
    Ok(rows)
}

/// Puts the number at the state of the graph.
fn put(
    alloc: Global,
    rows: &mut Vec<Lst<Option<u32>>>,
    graph: u32,
    state: usize,
    number: u32,
) -> Mem<()>
    requires from { 1 ≤ graph }
    requires to { graph ≤ length rows.now.items }
    requires small { state < 4294967296 }
    ensures { OnOk result (IsPut rows.old.items rows.new.items graph state number) }
{
    let index = graph as usize - 1;
    let row = mem::replace(&mut rows[index], Lst::new(Vec::new(alloc))).into_vec();
    rows[index] = Lst::new(row_with(row, state, number)?);
    Ok(())
}

/// The row with the number at the state. It grows as far as that needs.
fn row_with(row: Vec<Option<u32>>, state: usize, number: u32) -> Mem<Vec<Option<u32>>>
    requires small { state < 4294967296 }
    ensures here { IfOk result (λ new. get_or new.items state None ≡ Some number) }
    ensures elsewhere { IfOk result (λ new. (k : ℕ) → k ≢ state →
        get_or new.items k None ≡ get_or row.items k None) }
{
    let mut row = grown(row, state)?;
    row[state] = Some(number);
    Ok(row)
}

/// The row with an entry for the state.
fn grown(row: Vec<Option<u32>>, state: usize) -> Mem<Vec<Option<u32>>>
    requires small { state < 4294967296 }
    ensures len { IfOk result (λ new. state < length new.items) }
    ensures same { IfOk result (λ new. (k : ℕ) →
        get_or new.items k None ≡ get_or row.items k None) }
{
    let mut row = row;
    for _ in row.len()..state + 1 {
        row.push(None)?;
    }
    Ok(row)
}
