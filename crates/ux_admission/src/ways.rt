//! The ways of all graphs, in one list.

ghost use Rattle.std.specs.Prelude.{◌≡◌, ℕ, ◌+◌, ◌-◌, ◌<◌, ◌≤◌, ◌⊎◌, ◌↔◌, List, length, All, Contains, IfOk, OnOk};
ghost use Rattle.ux_boxes.specs.declared.place.Place.{Place};
ghost use Rattle.ux_boxes.specs.Places.{label_lines, place_targets, place_grammar, places_of as places_of_graph};
ghost use Rattle.ux_admission.specs.Closers.{AreClosers};
ghost use Rattle.ux_net.specs.Closers.{ClosesInto};
ghost use Rattle.ux_boxes.specs.Fit.{IsFit, IsFitLine};
ghost use Rattle.ux_boxes.specs.Numbers.{AreOffsets, number_of};
ghost use Rattle.ux_admission.specs.Ways.{AreWays, IsOpeningWay, IsJump, jump_to, IsWay, IsWayOf, IsWayFrom, IsWayAlong};
ghost use Rattle.ux_admission.specs.Gains.{Gains, SoOfOne};

use crate::line::{are_silent, is_opening, one_call};
use crate::way::{Passage, Way};
use std::alloc::{AllocError, Global};
use ux_base::{Lst, Mem};
use ux_boxes::{Place, row_at};
use ux_net::Label;

/// The ways of all graphs.
pub fn ways_of(
    alloc: Global,
    graphs: &[Lst<Place>],
    offsets: &[usize],
    closers: &[Lst<usize>],
) -> Mem<Vec<Way>>
    requires fit { All (IsFit (length graphs.now)) graphs.now }
    requires offsets { AreOffsets graphs.now offsets.now }
    requires closers { AreClosers graphs.now closers.now }
    ensures { IfOk result (λ ways. AreWays graphs.now ways.items) }
{
    let mut ways = Vec::new(alloc);
    push_graphs(&mut ways, graphs, offsets, closers)?;
    Ok(ways)
}

/// Adds the ways of all graphs.
fn push_graphs(
    ways: &mut Vec<Way>,
    graphs: &[Lst<Place>],
    offsets: &[usize],
    closers: &[Lst<usize>],
) -> Result<(), AllocError>
    requires fit { All (IsFit (length graphs.now)) graphs.now }
    requires offsets { AreOffsets graphs.now offsets.now }
    requires closers { AreClosers graphs.now closers.now }
    ensures { OnOk result (Gains ways.old.items ways.new.items (IsWay graphs.now)) }
{
    for k in 0..graphs.len() {
        push_graph(ways, graphs, offsets, closers, k + 1)?;
    }
    Ok(())
}

/// Adds the ways of the graph of this number, counted from 1.
fn push_graph(
    ways: &mut Vec<Way>,
    graphs: &[Lst<Place>],
    offsets: &[usize],
    closers: &[Lst<usize>],
    graph: usize,
) -> Result<(), AllocError>
    requires fit { All (IsFit (length graphs.now)) graphs.now }
    requires offsets { AreOffsets graphs.now offsets.now }
    requires closers { AreClosers graphs.now closers.now }
    requires from { 1 ≤ graph }
    requires to { graph ≤ length graphs.now }
    ensures { OnOk result (Gains ways.old.items ways.new.items (IsWayOf graphs.now graph)) }
{
    for source in 0..places_of(graphs, graph).len() {
        push_place(ways, graphs, offsets, closers, graph, source)?;
    }
    Ok(())
}

/// The places of the graph of this number.
pub fn places_of(graphs: &[Lst<Place>], graph: usize) -> &[Place]
    requires from { 1 ≤ graph }
    requires to { graph ≤ length graphs.now }
    ensures { result.now ≡ places_of_graph graphs.now graph }
{
    graphs[graph - 1].as_slice()
}

/// Adds the ways from the place, unless it is the end.
fn push_place(
    ways: &mut Vec<Way>,
    graphs: &[Lst<Place>],
    offsets: &[usize],
    closers: &[Lst<usize>],
    graph: usize,
    source: usize,
) -> Result<(), AllocError>
    requires fit { All (IsFit (length graphs.now)) graphs.now }
    requires offsets { AreOffsets graphs.now offsets.now }
    requires closers { AreClosers graphs.now closers.now }
    requires from { 1 ≤ graph }
    requires to { graph ≤ length graphs.now }
    requires inside { source < length (places_of_graph graphs.now graph) }
    ensures { OnOk result
        (Gains ways.old.items ways.new.items (IsWayFrom graphs.now graph source)) }
{
    if source == 1 {
        return Ok(());
    }
    for target in targets_of(places_of(graphs, graph), source) {
        push_target(
            ways,
            graphs,
            offsets,
            closers,
            graph,
            source,
            *target as usize,
        )?;
    }
    Ok(())
}

/// The targets of the place.
pub fn targets_of(places: &[Place], n: usize) -> &[u32]
    ensures { result.now ≡ place_targets places.now n }
{
    match places.get(n) {
        Some(place) => place.targets.as_slice(),
        None => &[],
    }
}

/// The lines of the place.
pub fn lines_of(places: &[Place], n: usize) -> &[Lst<Label>]
    ensures { result.now ≡ label_lines places.now n }
{
    match places.get(n) {
        Some(place) => place.lines.as_slice(),
        None => &[],
    }
}

/// Adds the ways from the place to a target, along each of the target's lines.
fn push_target(
    ways: &mut Vec<Way>,
    graphs: &[Lst<Place>],
    offsets: &[usize],
    closers: &[Lst<usize>],
    graph: usize,
    source: usize,
    target: usize,
) -> Result<(), AllocError>
    requires fit { All (IsFit (length graphs.now)) graphs.now }
    requires offsets { AreOffsets graphs.now offsets.now }
    requires closers { AreClosers graphs.now closers.now }
    requires from { 1 ≤ graph }
    requires to { graph ≤ length graphs.now }
    requires source { source < length (places_of_graph graphs.now graph) }
    requires target { target < length (places_of_graph graphs.now graph) }
    ensures { OnOk result (Gains ways.old.items ways.new.items
        (SoOfOne (label_lines (places_of_graph graphs.now graph) target)
        (IsWayAlong graphs.now graph source target))) }
{
    let base = offsets[graph - 1];
    let step = Way {
        graph,
        source,
        target,
        from: base + source,
        to: base + target,
        passage: Passage::Silent,
    };
    let row = row_at(closers, step.to);
    for line in lines_of(places_of(graphs, graph), target) {
        push_line(ways, offsets, step, row, line.as_slice())?;
    }
    Ok(())
}

/// Adds the ways of a step along the line, if the line is silent, one call or opens a context. The
/// contexts that it opens are closed into these places.
fn push_line(
    ways: &mut Vec<Way>,
    offsets: &[usize],
    step: Way,
    closers: &[usize],
    line: &[Label],
) -> Result<(), AllocError>
    requires fit { IsFitLine (length offsets.now - 1) line.now }
    requires target { step.target ≤ step.to }
    requires room { All (λ closer. step.to - step.target + closer < 18446744073709551616) closers.now }
    ensures { OnOk result ((graphs : List (List Place)) → AreOffsets graphs offsets.now →
        step.from ≡ number_of graphs step.graph step.source →
        step.to ≡ number_of graphs step.graph step.target →
        ((c : ℕ) → Contains closers.now c ↔
        ClosesInto (place_grammar graphs) step.graph step.target c) →
        Gains ways.old.items ways.new.items
        (IsWayAlong graphs step.graph step.source step.target line.now)) }
{
    if are_silent(line) {
        ways.push(Way {
            passage: Passage::Silent,
            ..step
        })?;
        return Ok(());
    }
    if let Some(graph) = one_call(line) {
        ways.push(Way {
            passage: Passage::Calls(offsets[graph as usize - 1]),
            ..step
        })?;
        return Ok(());
    }
    if is_opening(line) {
        push_context(ways, step, closers)?;
    }
    Ok(())
}

/// Adds the way into a context, along a step that opens it, and those over it.
fn push_context(ways: &mut Vec<Way>, step: Way, closers: &[usize]) -> Result<(), AllocError>
    requires target { step.target ≤ step.to }
    requires room { All (λ closer. step.to - step.target + closer < 18446744073709551616) closers.now }
    ensures { OnOk result (Gains ways.old.items ways.new.items
        (λ way. IsOpeningWay step way ⊎ SoOfOne closers.now (IsJump step) way)) }
{
    ways.push(Way {
        passage: Passage::Opens,
        ..step
    })?;
    push_jumps(ways, step, closers)?;
    Ok(())
}

/// Adds the ways from where the step leads off, over the context into which it leads, to each of
/// these places of its graph.
fn push_jumps(ways: &mut Vec<Way>, step: Way, closers: &[usize]) -> Result<(), AllocError>
    requires target { step.target ≤ step.to }
    requires room { All (λ closer. step.to - step.target + closer < 18446744073709551616) closers.now }
    ensures { OnOk result (Gains ways.old.items ways.new.items
        (SoOfOne closers.now (IsJump step))) }
{
    let base = step.to - step.target;
    for closer in closers {
        ways.push(jump(step, base, *closer))?;
    }
    Ok(())
}

/// The way of the step's graph from its source, over the context into which the step leads, to this
/// place, numbered from the base.
fn jump(step: Way, base: usize, closer: usize) -> Way
    requires room { base + closer < 18446744073709551616 }
    ensures { result ≡ jump_to step base closer }
{
    Way {
        target: closer,
        to: base + closer,
        passage: Passage::Jumps(step.target),
        ..step
    }
}
