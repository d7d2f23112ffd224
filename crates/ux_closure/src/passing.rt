//! The closure, by rounds of steps that take no token.

ghost use Rattle.std.specs.Prelude.{◌≡◌, ◌∷◌, ◌≤◌, ◌↔◌, ℕ, IfOk, IsTrue, OnOk, Some, length};
ghost use Rattle.ux_walk.specs.Links.{AreBelow};
ghost use Rattle.ux_closure.specs.Holding.{AreNamed, Grows, Holds, IsClosure, IsNamed};
ghost use Rattle.ux_net.specs.declared.label.Label.TheVariants.{Call};
ghost use Rattle.ux_closure.specs.Passing.{IsPast, LetsPass, PassesOn, start_of};
ghost use Rattle.ux_closure.specs.Meeting.{Adds, AddsFrom, IsAfterAt, IsAfterPlaces, IsPastSome, IsSound, known};

use crate::closing::Closure;
use crate::met::Met;
use crate::stand::Stand;
use std::alloc::Global;
use ux_base::Mem;
use ux_net::{Edge, Label, Net};
use ux_walk::config::Frame;
use ux_walk::lists::Lists;

/// The stacks that the stands reach without taking a token, at a position at which a space stands
/// or doesn't. The lists of frames only grow, also where memory runs out.
///
/// Takes a step for each stack that is reached, and one for each edge of its state.
pub fn closure(
    alloc: Global,
    net: &Net,
    stacks: &mut Lists<Frame>,
    stands: &[Stand],
    is_spaced: bool,
) -> Mem<Closure>
    requires below { AreBelow stacks.now.links.keys }
    requires named { AreNamed stacks.now.links.keys stands.now }
    ensures grows { Grows stacks.old.links.keys stacks.new.links.keys }
    ensures closure { IfOk result (IsClosure net.now is_spaced
        (Holds stacks.old.links.keys stands.now) stacks.new.links.keys) }
{
    net.is_measured();
    let mut met = Met::of(alloc, stands)?;
    let mut from = 0;
    while from < met.count() {
        let to = met.count();
        round(net, stacks, is_spaced, &mut met, from, to)?;
        from = to;
    }
    met.into_closure(alloc)
}

/// Goes one step on from each stand between two places.
fn round(
    net: &Net,
    stacks: &mut Lists<Frame>,
    is_spaced: bool,
    met: &mut Met,
    from: usize,
    to: usize,
) -> Mem<()>
    requires sound { IsSound (known stacks.now.links.keys met.now) }
    requires ordered { from ≤ to }
    requires within { to ≤ length met.now.stands.keys }
    ensures grows { Grows stacks.old.links.keys stacks.new.links.keys }
    ensures adds { OnOk result (Adds (IsAfterPlaces net.now is_spaced
        (known stacks.old.links.keys met.old) from to)
        (known stacks.old.links.keys met.old) (known stacks.new.links.keys met.new)) }
{
    for place in from..to {
        step_at(net, stacks, is_spaced, met, place)?;
    }
    Ok(())
}

/// Goes one step on from the stand at a place.
fn step_at(
    net: &Net,
    stacks: &mut Lists<Frame>,
    is_spaced: bool,
    met: &mut Met,
    place: usize,
) -> Mem<()>
    requires sound { IsSound (known stacks.now.links.keys met.now) }
    ensures grows { Grows stacks.old.links.keys stacks.new.links.keys }
    ensures adds { OnOk result (Adds (IsAfterAt net.now is_spaced
        (known stacks.old.links.keys met.old) place)
        (known stacks.old.links.keys met.old) (known stacks.new.links.keys met.new)) }
{
    match met.stand(place) {
        Some(stand) => step(net, stacks, is_spaced, met, stand),
        None => Ok(()),
    }
}

/// Goes one step on from a stand: past each edge of its state, and back where that is final.
fn step(
    net: &Net,
    stacks: &mut Lists<Frame>,
    is_spaced: bool,
    met: &mut Met,
    stand: Stand,
) -> Mem<()>
    requires sound { IsSound (known stacks.now.links.keys met.now) }
    requires named { IsNamed stacks.now.links.keys stand }
    ensures grows { Grows stacks.old.links.keys stacks.new.links.keys }
    ensures adds { OnOk result (AddsFrom stand (λ fs. PassesOn net.now is_spaced (stand.here ∷ fs))
        (known stacks.old.links.keys met.old) (known stacks.new.links.keys met.new)) }
{
    let Some(state) = net.state(stand.here.graph, stand.here.state) else {
        return Ok(());
    };
    pass_each(stacks, is_spaced, met, stand, state.edges.as_slice())?;
    if state.is_final {
        go_back(stacks, met, stand)?;
    }
    Ok(())
}

/// Goes past each of the edges that takes no token.
fn pass_each(
    stacks: &mut Lists<Frame>,
    is_spaced: bool,
    met: &mut Met,
    stand: Stand,
    edges: &[Edge],
) -> Mem<()>
    requires sound { IsSound (known stacks.now.links.keys met.now) }
    requires named { IsNamed stacks.now.links.keys stand }
    ensures grows { Grows stacks.old.links.keys stacks.new.links.keys }
    ensures adds { OnOk result (AddsFrom stand (λ fs. IsPastSome is_spaced stand.here fs edges.now)
        (known stacks.old.links.keys met.old) (known stacks.new.links.keys met.new)) }
{
    for edge in edges {
        pass(stacks, is_spaced, met, stand, edge)?;
    }
    Ok(())
}

/// Goes past the edge, if it takes no token.
fn pass(
    stacks: &mut Lists<Frame>,
    is_spaced: bool,
    met: &mut Met,
    stand: Stand,
    edge: &Edge,
) -> Mem<()>
    requires sound { IsSound (known stacks.now.links.keys met.now) }
    requires named { IsNamed stacks.now.links.keys stand }
    ensures grows { Grows stacks.old.links.keys stacks.new.links.keys }
    ensures adds { OnOk result (AddsFrom stand (λ fs. IsPast is_spaced stand.here fs edge.now)
        (known stacks.old.links.keys met.old) (known stacks.new.links.keys met.new)) }
{
    let here = Frame {
        graph: stand.here.graph,
        state: edge.target,
    };
    if lets_pass(&edge.label, is_spaced) {
        return met.put(Stand { here, ..stand });
    }
    match called(&edge.label) {
        Some(graph) => enter(stacks, met, stand, here, graph),
        None => Ok(()),
    }
}

/// Whether a walk passes the label with no token.
fn lets_pass(label: &Label, is_spaced: bool) -> bool
    ensures { IsTrue result ↔ LetsPass is_spaced label.now }
{
    match label {
        Label::Empty | Label::Begin(_) | Label::End(_) | Label::Cut => true,
        Label::NoSpace => !is_spaced,
        Label::CaseFolded(_)
        | Label::CaseExact(_)
        | Label::Mask(_)
        | Label::Brace(_)
        | Label::Space
        | Label::Positive
        | Label::Negative
        | Label::ContextEnd
        | Label::Call(_) => false,
    }
}

/// The graph that the label calls, if it calls one.
fn called(label: &Label) -> Option<u32>
    ensures { (h : ℕ) → (result ≡ Some h) ↔ (label.now ≡ Call h) }
{
    match label {
        Label::Call(graph) => Some(*graph),
        Label::Empty
        | Label::CaseFolded(_)
        | Label::CaseExact(_)
        | Label::Mask(_)
        | Label::Brace(_)
        | Label::Space
        | Label::NoSpace
        | Label::Begin(_)
        | Label::End(_)
        | Label::Positive
        | Label::Negative
        | Label::ContextEnd
        | Label::Cut => None,
    }
}

/// Goes on at the start of a graph, to return to the frame.
fn enter(stacks: &mut Lists<Frame>, met: &mut Met, stand: Stand, here: Frame, graph: u32) -> Mem<()>
    requires sound { IsSound (known stacks.now.links.keys met.now) }
    requires named { IsNamed stacks.now.links.keys stand }
    ensures grows { Grows stacks.old.links.keys stacks.new.links.keys }
    ensures adds { OnOk result (AddsFrom stand (λ fs next. next ≡ start_of graph ∷ here ∷ fs)
        (known stacks.old.links.keys met.old) (known stacks.new.links.keys met.new)) }
{
    let back = stacks.add(here, stand.back)?;
    let start = Frame { graph, state: 0 };
    met.put(Stand { here: start, back })
}

/// Returns to the frame that called, or notes that the empty stack was met.
fn go_back(stacks: &Lists<Frame>, met: &mut Met, stand: Stand) -> Mem<()>
    requires sound { IsSound (known stacks.now.links.keys met.now) }
    requires named { IsNamed stacks.now.links.keys stand }
    ensures { OnOk result (AddsFrom stand (λ fs next. next ≡ fs)
        (known stacks.now.links.keys met.old) (known stacks.now.links.keys met.new)) }
{
    match stacks.link(stand.back) {
        Some(link) => met.put(Stand {
            here: link.head,
            back: link.tail,
        }),
        None => {
            met.ends = true;
            Ok(())
        },
    }
}
