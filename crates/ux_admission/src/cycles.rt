//! Where a grammar has an empty loop, or a unit that begins with itself.

ghost use Rattle.std.specs.Prelude.{◌≡◌, ℕ, ◌↔◌, List, length, get_or, All, Contains, IfOk, OnOk, IsTrue};
ghost use Rattle.ux_boxes.specs.Places.{place_grammar};
ghost use Rattle.ux_boxes.specs.Fit.{IsFit};
ghost use Rattle.ux_admission.specs.Admissible.{IsOnEmptyLoop, IsLeftRecursive};
ghost use Rattle.ux_boxes.specs.Numbers.{AreOffsets};
ghost use Rattle.ux_admission.specs.Ways.{AreWays, AreFreeMarks};
ghost use Rattle.ux_admission.specs.Gains.{Gains, SoOfOne};
ghost use Rattle.ux_admission.specs.Cycles.{AreNumbered, AreLoopsMet};
ghost use Rattle.ux_admission.specs.Spots.{IsLoopSpot, IsOpeningSpot, IsSpotOn, IsEntrySpot, FindsFirst};

use crate::edges::{all_rows, entered, free_rows, is_open, opened};
use crate::spot::{Spot, least};
use crate::way::Way;
use std::alloc::{AllocError, Global};
use ux_base::{Lst, Mem};
use ux_boxes::Place;
use ux_digraph::components;

/// The first graph with an empty loop, and the least node on one.
pub fn first_loop(
    alloc: Global,
    graphs: &[Lst<Place>],
    offsets: &[usize],
    ways: &[Way],
    marks: &[bool],
) -> Mem<Option<Spot>>
    requires fit { All (IsFit (length graphs.now)) graphs.now }
    requires offsets { AreOffsets graphs.now offsets.now }
    requires met { AreLoopsMet graphs.now }
    requires ways { AreWays graphs.now ways.now }
    requires marks { AreFreeMarks graphs.now marks.now }
    ensures { IfOk result (FindsFirst (IsOnEmptyLoop (place_grammar graphs.now))) }
{
    let rows = free_rows(alloc, graphs, offsets, ways, marks)?;
    let numbers = components(alloc, &rows)?;
    let mut spots = Vec::new(alloc);
    push_loop_spots(&mut spots, ways, marks, &numbers)?;
    Ok(least(&spots))
}

/// Numbers of all places, which never rise along the edges of steps that may take nothing, or enter
/// a unit, nor over a context, and which are equal where each of two places leads to the other.
pub fn numbers_of(
    alloc: Global,
    graphs: &[Lst<Place>],
    offsets: &[usize],
    ways: &[Way],
    marks: &[bool],
) -> Mem<Vec<usize>>
    requires fit { All (IsFit (length graphs.now)) graphs.now }
    requires offsets { AreOffsets graphs.now offsets.now }
    requires ways { AreWays graphs.now ways.now }
    requires marks { AreFreeMarks graphs.now marks.now }
    ensures { IfOk result (λ numbers. AreNumbered graphs.now numbers.items) }
{
    let rows = all_rows(alloc, graphs, offsets, ways, marks)?;
    let numbers = components(alloc, &rows)?;
    Ok(numbers)
}

/// The first graph of which a unit begins with itself, and the least node at which one does.
pub fn first_recursion(
    alloc: Global,
    graphs: &[Lst<Place>],
    ways: &[Way],
    numbers: &[usize],
) -> Mem<Option<Spot>>
    requires fit { All (IsFit (length graphs.now)) graphs.now }
    requires ways { AreWays graphs.now ways.now }
    requires numbers { AreNumbered graphs.now numbers.now }
    ensures { IfOk result (FindsFirst (IsLeftRecursive (place_grammar graphs.now))) }
{
    let mut spots = Vec::new(alloc);
    push_entry_spots(&mut spots, ways, numbers)?;
    Ok(least(&spots))
}

/// Adds the nodes on the ways that may take nothing, and whose ends have one number.
fn push_loop_spots(
    spots: &mut Vec<Spot>,
    ways: &[Way],
    marks: &[bool],
    numbers: &[usize],
) -> Result<(), AllocError>
    ensures { OnOk result (Gains spots.old.items spots.new.items
        (SoOfOne ways.now (IsLoopSpot marks.now numbers.now))) }
{
    for way in ways {
        push_loop_spot(spots, *way, marks, numbers)?;
    }
    Ok(())
}

/// Adds the nodes on the way, if it may take nothing and its ends have one number.
fn push_loop_spot(
    spots: &mut Vec<Spot>,
    way: Way,
    marks: &[bool],
    numbers: &[usize],
) -> Result<(), AllocError>
    ensures { OnOk result
        (Gains spots.old.items spots.new.items (IsLoopSpot marks.now numbers.now way)) }
{
    if !is_open(marks, way.passage) {
        return Ok(());
    }
    if number_at(numbers, way.from) != number_at(numbers, way.to) {
        return Ok(());
    }
    push_nodes(spots, way)?;
    Ok(())
}

/// Adds the source of the way, and the place into which the context opens that it leads over.
fn push_nodes(spots: &mut Vec<Spot>, way: Way) -> Result<(), AllocError>
    ensures { OnOk result (Gains spots.old.items spots.new.items (IsSpotOn way)) }
{
    spots.push(Spot {
        graph: way.graph,
        node: way.source,
    })?;
    push_opening(spots, way)?;
    Ok(())
}

/// Adds the place into which the context opens that the way leads over.
fn push_opening(spots: &mut Vec<Spot>, way: Way) -> Result<(), AllocError>
    ensures { OnOk result (Gains spots.old.items spots.new.items (IsOpeningSpot way)) }
{
    if let Some(node) = opened(way.passage) {
        spots.push(Spot {
            graph: way.graph,
            node,
        })?;
    }
    Ok(())
}

/// Adds the targets of the ways that enter a unit whose first place has the number of their source.
fn push_entry_spots(
    spots: &mut Vec<Spot>,
    ways: &[Way],
    numbers: &[usize],
) -> Result<(), AllocError>
    ensures { OnOk result (Gains spots.old.items spots.new.items
        (SoOfOne ways.now (IsEntrySpot numbers.now))) }
{
    for way in ways {
        push_entry_spot(spots, *way, numbers)?;
    }
    Ok(())
}

/// Adds the target of the way, if it enters a unit whose first place has the number of its source.
fn push_entry_spot(spots: &mut Vec<Spot>, way: Way, numbers: &[usize]) -> Result<(), AllocError>
    ensures { OnOk result
        (Gains spots.old.items spots.new.items (IsEntrySpot numbers.now way)) }
{
    let Some(start) = entered(way) else {
        return Ok(());
    };
    if number_at(numbers, way.from) != number_at(numbers, start) {
        return Ok(());
    }
    spots.push(Spot {
        graph: way.graph,
        node: way.target,
    })?;
    Ok(())
}

/// The number of the place.
pub fn number_at(numbers: &[usize], place: usize) -> usize
    ensures { result ≡ get_or numbers.now place 0 }
{
    match numbers.get(place) {
        Some(number) => *number,
        None => 0,
    }
}
