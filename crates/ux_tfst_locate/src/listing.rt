//! The stretches of sentences in which the main graph is found.

ghost use Rattle.std.specs.Prelude.{◌≡◌, ◌↔◌, ◌⊎◌, ◌+◌, ◌<◌, ◌≤◌, List, All, Contains, IfOk, IsTrue, OnOk, length, map};
ghost use Rattle.std.specs.List.Sorted.{IsStrictlyIncreasing};
ghost use Rattle.ux_chart.specs.Rows.{IsChart};
ghost use Rattle.ux_meaning.specs.Meaning.{Der};
ghost use Rattle.ux_net.specs.Nets.{net_grammar};
ghost use Rattle.ux_outputs.specs.declared.event.Event.{Event};
ghost use Rattle.ux_parts.specs.Parts.{ArePartsOf};
ghost use Rattle.ux_tfst_locate.specs.Bases.{input_of};
ghost use Rattle.ux_tfst_locate.specs.Listing.{AreListed, AreListedTo, IsFound, span_of as span_record};
ghost use Rattle.ux_tfst_locate.specs.Reaching.{is_marked};
ghost use Rattle.ux_tfst_locate.specs.declared.listing.Stretch.{Stretch as StretchRecord};

use crate::basis::LatticeBasis;
use crate::lattice::Place;
use crate::span::Span;
use std::alloc::Global;
use ux_base::Mem;
use ux_chart::Chart;
use ux_net::Net;
use ux_parts::Parts;

/// A pair of positions, from one to a later one.
#[derive(Clone, Copy)]
pub struct Stretch {
    /// Where it begins.
    pub from: usize,
    /// Where it ends.
    pub to: usize,
}

/// Which positions lie on a path of their sentence.
#[derive(Clone, Copy)]
pub(crate) struct OnPaths<'a> {
    /// Whether each is reached from the first state.
    pub reached: &'a [bool],
    /// Whether the last state is reached from each.
    pub leading: &'a [bool],
}

/// The stretches on paths that the main graph derives, in order.
pub(crate) fn stretches(
    alloc: Global,
    basis: &LatticeBasis<'_>,
    net: &Net,
    parts: &Parts,
    chart: &Chart,
    paths: &OnPaths<'_>,
) -> Mem<Vec<Stretch>>
    requires parts { ArePartsOf net.now parts.now }
    requires chart { IsChart (input_of basis.now) net.now parts.now
        (length basis.now.lattice.now.places.items) chart.now }
    requires count { length paths.now.reached.now ≤ length basis.now.lattice.now.places.items }
    ensures { IfOk result (λ found. AreListed (IsFound paths.now.reached.now paths.now.leading.now
        (λ from to. (events : List Event)
        × Der (input_of basis.now) (net_grammar net.now) 1 from to events)) found.items) }
{
    let main = main_of(net);
    let mut found = Vec::new(alloc);
    for from in 0..paths.reached.len() {
        if paths.reached[from] {
            let ends = chart.ends(basis, net, parts, main, from);
            push_ends(&mut found, from, ends, paths.leading)?;
        }
    }
    Ok(found)
}

/// The number of the main graph.
fn main_of(net: &Net) -> u32
    ensures is { result ≡ 1 }
    ensures there { result ≤ length net.now }
{
    let _ = net.graphs();
    1
}

/// Adds the stretches from a position to those of these ends that are later, and lead on.
fn push_ends(found: &mut Vec<Stretch>, from: usize, ends: &[usize], leading: &[bool]) -> Mem<()>
    requires ends { IsStrictlyIncreasing ends.now }
    requires ascend { AreListedTo from found.old.items }
    ensures ascend { OnOk result (AreListedTo (from + 1) found.new.items) }
    ensures more { OnOk result ((stretch : StretchRecord) → Contains found.new.items stretch
        ↔ (Contains found.old.items stretch
        ⊎ ((stretch.from ≡ from) × (from < stretch.to) × Contains ends.now stretch.to
        × IsTrue (is_marked leading.now stretch.to)))) }
{
    for to in ends {
        if goes_on(from, *to, leading) {
            found.push(Stretch { from, to: *to })?;
        }
    }
    Ok(())
}

/// Whether an end is later, and leads on.
fn goes_on(from: usize, to: usize, leading: &[bool]) -> bool
    ensures { IsTrue result ↔ ((from < to) × IsTrue (is_marked leading.now to)) }
{
    from < to && leads(leading, to)
}

/// Whether the position is marked.
fn leads(leading: &[bool], at: usize) -> bool
    ensures { result ≡ is_marked leading.now at }
{
    match leading.get(at) {
        Some(mark) => *mark,
        None => false,
    }
}

/// The spans of the stretches, which lie between these places.
pub(crate) fn spans_of(alloc: Global, places: &[Place], stretches: &[Stretch]) -> Mem<Vec<Span>>
    requires from { All (λ stretch. stretch.from < length places.now) stretches.now }
    requires to { All (λ stretch. stretch.to < length places.now) stretches.now }
    ensures { IfOk result (λ spans.
        spans.items ≡ map (span_record places.now) stretches.now) }
{
    let mut spans = Vec::with_capacity(alloc, stretches.len())?;
    for stretch in stretches {
        spans.push(span_of(places, *stretch))?;
    }
    Ok(spans)
}

/// The span of a stretch.
fn span_of(places: &[Place], stretch: Stretch) -> Span
    requires from { stretch.from < length places.now }
    requires to { stretch.to < length places.now }
    ensures { result ≡ span_record places.now stretch }
{
    let from = places[stretch.from];
    Span {
        sentence: from.sentence,
        from: from.state,
        to: places[stretch.to].state,
    }
}
