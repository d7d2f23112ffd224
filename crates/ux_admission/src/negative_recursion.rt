//! Levels of places, by which the contexts of a grammar can be searched one after another.
//!
//! The places of all graphs are nodes, and their links edges. A link into a negative context whose
//! two ends lead to each other is a negative recursion: the body uses the graph, or the body, that
//! has the context. In a grammar without one the numbers of the strongly connected components, which
//! never rise along a link, fall into each negative context: they are the levels.

ghost use Rattle.std.specs.Prelude.{◌≡◌, ℕ, ◌≤◌, ◌⊎◌, ◌↔◌, List, [], ◌∷◌, ◌++◌, map, length, All, IfOk, IfErr, IfSome, OnOk, IsTrue, Some};
ghost use Rattle.ux_boxes.specs.Places.{place_grammar};
ghost use Rattle.ux_boxes.specs.Fit.{IsFit};
ghost use Rattle.ux_admission.specs.Closers.{AreClosers};
ghost use Rattle.ux_admission.specs.NegativeRecursion.{HasNoNegativeRecursion};
ghost use Rattle.ux_boxes.specs.Numbers.{AreOffsets};
ghost use Rattle.ux_admission.specs.declared.uses.Link.{Link};
ghost use Rattle.ux_admission.specs.Uses.{AreLinks, AreLinkEdges, AreLinkNumbers, AreLevels, ends_of, IsCircular, IsFirstCircular};
ghost use Rattle.ux_admission.specs.LevelsRefusal.{RefusesLevels};

use crate::cycles::number_at;
use crate::edges::rows_of;
use crate::uses::{Link, links_of};
use std::alloc::Global;
use ux_base::{Lst, Mem, NoMemory};
use ux_boxes::{Place, count_of};
use ux_digraph::components;

/// Why a grammar has no levels. Graphs are counted from 1.
#[derive(Clone, Copy)]
pub enum LevelsError {
    /// The body of a negative context of this graph uses the graph or body that has the context.
    NegativeRecursion { graph: usize },
    /// Memory ran out.
    NoMemory,
}

impl From<NoMemory> for LevelsError {
    ghost use Rattle.std.specs.Prelude.{◌≡◌};
    ghost use Rattle.ux_admission.specs.declared.negative_recursion.LevelsError.TheVariants.{NoMemory};

    ghost from_gives = { λ _ e. e ≡ NoMemory };

    fn from(_error: NoMemory) -> LevelsError {
        LevelsError::NoMemory
    }
}

/// A level for each place of all graphs; of a grammar that has none, the first graph with a
/// negative recursion.
pub fn levels_of(
    alloc: Global,
    graphs: &[Lst<Place>],
    offsets: &[usize],
    closers: &[Lst<usize>],
) -> Result<Vec<usize>, LevelsError>
    requires fit { All (IsFit (length graphs.now)) graphs.now }
    requires offsets { AreOffsets graphs.now offsets.now }
    requires closers { AreClosers graphs.now closers.now }
    ensures levels { IfOk result (λ levels. AreLevels graphs.now levels.items) }
    ensures none { OnOk result (HasNoNegativeRecursion (place_grammar graphs.now)) }
    ensures cause { IfErr result (RefusesLevels graphs.now) }
{
    let links = links_of(alloc, graphs, offsets, closers)?;
    let numbers = numbers_of(alloc, graphs, offsets, &links)?;
    match first_circular(&links, &numbers) {
        Some(graph) => Err(LevelsError::NegativeRecursion { graph }),
        None => Ok(numbers),
    }
}

/// Numbers of all places, which never rise along a link, and which are equal where each of two
/// places leads to the other.
fn numbers_of(
    alloc: Global,
    graphs: &[Lst<Place>],
    offsets: &[usize],
    links: &[Link],
) -> Mem<Vec<usize>>
    requires fit { All (IsFit (length graphs.now)) graphs.now }
    requires offsets { AreOffsets graphs.now offsets.now }
    requires links { AreLinks graphs.now links.now }
    ensures { IfOk result (λ numbers. AreLinkNumbers graphs.now numbers.items) }
{
    let rows = link_rows(alloc, graphs, offsets, links)?;
    let numbers = components(alloc, &rows)?;
    Ok(numbers)
}

/// The links as edges, by the places from which they lead.
fn link_rows(
    alloc: Global,
    graphs: &[Lst<Place>],
    offsets: &[usize],
    links: &[Link],
) -> Mem<Vec<Lst<usize>>>
    requires fit { All (IsFit (length graphs.now)) graphs.now }
    requires offsets { AreOffsets graphs.now offsets.now }
    requires links { AreLinks graphs.now links.now }
    ensures { IfOk result (λ rows. AreLinkEdges graphs.now rows.items) }
{
    let pairs = pairs_of(alloc, links)?;
    let rows = rows_of(alloc, count_of(graphs, offsets), &pairs)?;
    Ok(rows)
}

/// The two ends of each link.
fn pairs_of(alloc: Global, links: &[Link]) -> Mem<Vec<(usize, usize)>>
    ensures { IfOk result (λ pairs. pairs.items ≡ map ends_of links.now) }
{
    let mut pairs = Vec::new(alloc);
    for link in links {
        pairs.push((link.from, link.to))?;
    }
    Ok(pairs)
}

/// The first graph with a link into a negative context whose ends have one number.
fn first_circular(links: &[Link], numbers: &[usize]) -> Option<usize>
    ensures { IsFirstCircular links.now numbers.now result }
{
    let mut first = None;
    for link in links {
        first = first_with(first, *link, numbers);
    }
    first
}

/// The first graph, where one more link is looked at.
fn first_with(first: Option<usize>, link: Link, numbers: &[usize]) -> Option<usize>
    ensures { (links : List Link) → IsFirstCircular links numbers.now first →
        IsFirstCircular (links ++ link ∷ []) numbers.now result }
{
    if !is_circular(link, numbers) {
        return first;
    }
    Some(lesser(first, link.graph))
}

/// Whether the link leads into a negative context, and both its ends have one number.
fn is_circular(link: Link, numbers: &[usize]) -> bool
    ensures { IsTrue result ↔ IsCircular numbers.now link }
{
    link.is_negative && number_at(numbers, link.from) == number_at(numbers, link.to)
}

/// The lesser of the graph and the first one so far.
fn lesser(first: Option<usize>, graph: usize) -> usize
    ensures one { (result ≡ graph) ⊎ (first ≡ Some result) }
    ensures graph { result ≤ graph }
    ensures first { IfSome first (λ first. result ≤ first) }
{
    match first {
        Some(first) => {
            if first < graph {
                return first;
            }
            graph
        },
        None => graph,
    }
}
