//! The links between the places of all graphs: where runs lead, and what they use.
//!
//! A step links its two ends, unless it closes a context. Where it calls a graph it also links its
//! beginning with the start of that graph, and where it opens a context, with each place into which
//! the context is closed. So the links are at most two a step, and one for each of those places.

ghost use Rattle.std.specs.Prelude.{◌≡◌, ◌+◌, ◌-◌, ◌<◌, ◌≤◌, ◌⊎◌, length, All, IfOk, OnOk};
ghost use Rattle.ux_net.specs.Words.{mark_of};
ghost use Rattle.ux_boxes.specs.Places.{label_lines, places_of as places_of_graph};
ghost use Rattle.ux_boxes.specs.Fit.{IsFit, IsFitLine};
ghost use Rattle.ux_admission.specs.Closers.{AreClosers};
ghost use Rattle.ux_boxes.specs.Numbers.{AreOffsets};
ghost use Rattle.ux_admission.specs.Gains.{Gains, SoBelow, SoOfOne};
ghost use Rattle.ux_admission.specs.Uses.{IsCallLink, IsJump, IsLineLink, IsLinkAlong, IsLinkFrom, IsLinkIn, AreLinks};

use crate::line::{ContextMark, context_mark, one_call};
use crate::ways::{lines_of, places_of, targets_of};
use std::alloc::{AllocError, Global};
use ux_base::{Lst, Mem};
use ux_boxes::{Place, row_at};
use ux_net::Label;

/// A link between two places, told by their numbers.
#[derive(Clone, Copy)]
pub struct Link {
    /// The graph from which it leads, counted from 1.
    pub graph: usize,
    /// The number of the place from which it leads.
    pub from: usize,
    /// The number of the place to which it leads.
    pub to: usize,
    /// Whether it leads into a negative context.
    pub is_negative: bool,
}

/// The links of all graphs.
pub fn links_of(
    alloc: Global,
    graphs: &[Lst<Place>],
    offsets: &[usize],
    closers: &[Lst<usize>],
) -> Mem<Vec<Link>>
    requires fit { All (IsFit (length graphs.now)) graphs.now }
    requires offsets { AreOffsets graphs.now offsets.now }
    requires closers { AreClosers graphs.now closers.now }
    ensures { IfOk result (λ links. AreLinks graphs.now links.items) }
{
    let mut links = Vec::new(alloc);
    push_graphs(&mut links, graphs, offsets, closers)?;
    Ok(links)
}

/// Adds the links of all graphs.
fn push_graphs(
    links: &mut Vec<Link>,
    graphs: &[Lst<Place>],
    offsets: &[usize],
    closers: &[Lst<usize>],
) -> Result<(), AllocError>
    requires fit { All (IsFit (length graphs.now)) graphs.now }
    requires offsets { AreOffsets graphs.now offsets.now }
    requires closers { AreClosers graphs.now closers.now }
    ensures { OnOk result (Gains links.old.items links.new.items
        (SoBelow (length graphs.now) (λ k. IsLinkIn graphs.now (k + 1)))) }
{
    for k in 0..graphs.len() {
        push_graph(links, graphs, offsets, closers, k + 1)?;
    }
    Ok(())
}

/// Adds the links of the graph of this number, counted from 1.
fn push_graph(
    links: &mut Vec<Link>,
    graphs: &[Lst<Place>],
    offsets: &[usize],
    closers: &[Lst<usize>],
    graph: usize,
) -> Result<(), AllocError>
    requires fit { All (IsFit (length graphs.now)) graphs.now }
    requires offsets { AreOffsets graphs.now offsets.now }
    requires closers { AreClosers graphs.now closers.now }
    requires from { 1 ≤ graph }
    requires to { graph ≤ length graphs.now }
    ensures { OnOk result (Gains links.old.items links.new.items (IsLinkIn graphs.now graph)) }
{
    for source in 0..places_of(graphs, graph).len() {
        push_place(links, graphs, offsets, closers, graph, source)?;
    }
    Ok(())
}

/// Adds the links from the place, unless it is the end.
fn push_place(
    links: &mut Vec<Link>,
    graphs: &[Lst<Place>],
    offsets: &[usize],
    closers: &[Lst<usize>],
    graph: usize,
    source: usize,
) -> Result<(), AllocError>
    requires fit { All (IsFit (length graphs.now)) graphs.now }
    requires offsets { AreOffsets graphs.now offsets.now }
    requires closers { AreClosers graphs.now closers.now }
    requires from { 1 ≤ graph }
    requires to { graph ≤ length graphs.now }
    requires inside { source < length (places_of_graph graphs.now graph) }
    ensures { OnOk result
        (Gains links.old.items links.new.items (IsLinkFrom graphs.now graph source)) }
{
    if source == 1 {
        return Ok(());
    }
    for target in targets_of(places_of(graphs, graph), source) {
        push_target(
            links,
            graphs,
            offsets,
            closers,
            graph,
            source,
            *target as usize,
        )?;
    }
    Ok(())
}

/// Adds the links from the place to a target, along each of the target's lines.
fn push_target(
    links: &mut Vec<Link>,
    graphs: &[Lst<Place>],
    offsets: &[usize],
    closers: &[Lst<usize>],
    graph: usize,
    source: usize,
    target: usize,
) -> Result<(), AllocError>
    requires fit { All (IsFit (length graphs.now)) graphs.now }
    requires offsets { AreOffsets graphs.now offsets.now }
    requires closers { AreClosers graphs.now closers.now }
    requires from { 1 ≤ graph }
    requires to { graph ≤ length graphs.now }
    requires source { source < length (places_of_graph graphs.now graph) }
    requires target { target < length (places_of_graph graphs.now graph) }
    ensures { OnOk result (Gains links.old.items links.new.items
        (SoOfOne (label_lines (places_of_graph graphs.now graph) target)
        (IsLinkAlong graphs.now graph source target))) }
{
    let base = offsets[graph - 1];
    let step = Link {
        graph,
        from: base + source,
        to: base + target,
        is_negative: false,
    };
    let closed = row_at(closers, step.to);
    for line in lines_of(places_of(graphs, graph), target) {
        push_line(links, offsets, base, step, line.as_slice(), closed)?;
    }
    Ok(())
}

/// Adds the links of a step along the line. The bodies behind its target are closed into these
/// places, which are numbered from the base.
fn push_line(
    links: &mut Vec<Link>,
    offsets: &[usize],
    base: usize,
    step: Link,
    line: &[Label],
    closed: &[usize],
) -> Result<(), AllocError>
    requires fit { IsFitLine (length offsets.now - 1) line.now }
    requires room { All (λ place. base + place < 18446744073709551616) closed.now }
    ensures { OnOk result (Gains links.old.items links.new.items
        (IsLineLink offsets.now base step line.now closed.now (mark_of line.now))) }
{
    match context_mark(line) {
        ContextMark::Ordinary => push_step(links, offsets, step, line),
        ContextMark::Positive => push_context(links, base, step, false, closed),
        ContextMark::Negative => push_context(links, base, step, true, closed),
        ContextMark::Closes => Ok(()),
    }
}

/// Adds the link of a step, and that to the start of what its line calls.
fn push_step(
    links: &mut Vec<Link>,
    offsets: &[usize],
    step: Link,
    line: &[Label],
) -> Result<(), AllocError>
    requires fit { IsFitLine (length offsets.now - 1) line.now }
    ensures { OnOk result (Gains links.old.items links.new.items
        (λ link. (step ≡ link) ⊎ IsCallLink offsets.now step line.now link)) }
{
    links.push(step)?;
    if let Some(graph) = one_call(line) {
        links.push(Link {
            to: offsets[graph as usize - 1],
            ..step
        })?;
    }
    Ok(())
}

/// Adds the link into a context, and those over it.
fn push_context(
    links: &mut Vec<Link>,
    base: usize,
    step: Link,
    is_negative: bool,
    closed: &[usize],
) -> Result<(), AllocError>
    requires room { All (λ place. base + place < 18446744073709551616) closed.now }
    ensures { OnOk result (Gains links.old.items links.new.items
        (λ link. (record step { is_negative = is_negative } ≡ link)
        ⊎ SoOfOne closed.now (IsJump base step) link)) }
{
    links.push(Link {
        is_negative,
        ..step
    })?;
    for place in closed {
        links.push(Link {
            to: base + *place,
            is_negative: false,
            ..step
        })?;
    }
    Ok(())
}
