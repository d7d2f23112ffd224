//! Where the edges of stands lead that take tokens.

ghost use Rattle.std.specs.Prelude.{◌≡◌, ◌↔◌, ◌⊎◌, ◌<◌, ℕ, false, Contains, IfOk, OnOk};
ghost use Rattle.ux_closure.specs.declared.stand.Stand.{Stand as TheStand};
ghost use Rattle.ux_masks.specs.declared.mask.Mask as masks;
ghost use Rattle.ux_net.specs.declared.label.Label.TheVariants as label;
ghost use Rattle.ux_net.specs.declared.state.Edge.{Edge as TheEdge};
ghost use Rattle.ux_mask_table.specs.MaskedTexts.{HasTable};
ghost use Rattle.ux_automaton.specs.declared.target.Target.{Target as TheTarget};
ghost use Rattle.ux_automaton.specs.Fronts.{HasStand, IsFrontIn};
ghost use Rattle.ux_automaton.specs.Kept.{AreIndexed, Grows, IsSound, IsStand, store_of};
ghost use Rattle.ux_walk.specs.Settings.{masked_setting};
ghost use Rattle.ux_automaton.specs.Landings.{AreLandings};
ghost use Rattle.ux_automaton.specs.Targets.{IsEdgeOf, IsTarget, IsTargetOver};

use crate::edges::add_state;
use crate::fronts::Fronts;
use crate::step::Landing;
use crate::target::Target;
use indexmap::IndexSet;
use std::alloc::Global;
use ux_base::Mem;
use ux_closure::stand::Stand;
use ux_mask_table::MaskedText;
use ux_net::{Edge, Label, Net};
use ux_walk::look_ups::LookUps;
use ux_walk::sets::put;

/// Where the edges of the stands lead that take tokens from a position on.
pub fn targets_of<'t>(
    alloc: Global,
    masked: &MaskedText<'t>,
    look_ups: &mut LookUps<'t>,
    stands: &[Stand],
    at: usize,
) -> Mem<Vec<Target>>
    requires table { HasTable masked.now }
    requires indexed { AreIndexed masked.now look_ups.now }
    ensures indexed { OnOk result (AreIndexed masked.now look_ups.new) }
    ensures targets { IfOk result (λ targets. (target : TheTarget) → Contains targets.items target
        ↔ IsTarget (masked_setting masked.now) at (Contains stands.now) target) }
{
    let mut targets = Vec::new(alloc);
    for stand in stands {
        add_stand(alloc, masked, look_ups, *stand, at, &mut targets)?;
    }
    Ok(targets)
}

/// Adds the targets of a stand.
fn add_stand<'t>(
    alloc: Global,
    masked: &MaskedText<'t>,
    look_ups: &mut LookUps<'t>,
    stand: Stand,
    at: usize,
    targets: &mut Vec<Target>,
) -> Mem<()>
    requires table { HasTable masked.now }
    requires indexed { AreIndexed masked.now look_ups.now }
    ensures indexed { OnOk result (AreIndexed masked.now look_ups.new) }
    ensures targets { OnOk result ((target : TheTarget) → Contains targets.new.items target
        ↔ (Contains targets.old.items target
        ⊎ ((edge : TheEdge) × IsEdgeOf masked.now.net.now stand.here edge
        × IsTargetOver (masked_setting masked.now) at stand edge target))) }
{
    match masked.net.state(stand.here.graph, stand.here.state) {
        Some(state) => add_state(alloc, masked, look_ups, stand, state, at, targets),
        None => Ok(()),
    }
}

/// The front of the targets at a position.
pub fn front_at(alloc: Global, fronts: &mut Fronts, targets: &[Target], at: usize) -> Mem<usize>
    requires sound { IsSound (store_of fronts.old) }
    requires stands { (target : TheTarget) → Contains targets.now target →
        IsStand (store_of fronts.old) target.stand }
    ensures grows { OnOk result (Grows (store_of fronts.old) (store_of fronts.new)) }
    ensures there { IfOk result (IsFrontIn (store_of fronts.new)) }
    ensures stands { IfOk result (λ front. (stand : TheStand) →
        HasStand (store_of fronts.new) front stand
        ↔ Contains targets.now (record { at = at; stand = stand })) }
{
    let stands = stands_at(alloc, targets, at)?;
    fronts.front_of(stands.as_slice())
}

/// The stands of the targets at a position, each once.
fn stands_at(alloc: Global, targets: &[Target], at: usize) -> Mem<IndexSet<Stand>>
    ensures { IfOk result (λ stands. (stand : TheStand) →
        Contains stands.keys stand ↔ Contains targets.now (record { at = at; stand = stand })) }
{
    let mut stands = IndexSet::new(alloc);
    for target in targets {
        put_at(&mut stands, *target, at)?;
    }
    Ok(stands)
}

/// Puts the stand of a target into the set, if it is at the position.
fn put_at(stands: &mut IndexSet<Stand>, target: Target, at: usize) -> Mem<()>
    ensures { OnOk result ((stand : TheStand) → Contains stands.new.keys stand
        ↔ (Contains stands.old.keys stand ⊎ ((target.at ≡ at) × (stand ≡ target.stand)))) }
{
    if target.at == at {
        put(stands, target.stand)
    } else {
        Ok(())
    }
}

/// The landings: a front for each position of a target that lies after this one.
pub fn landings_of(
    alloc: Global,
    fronts: &mut Fronts,
    targets: &[Target],
    after: usize,
) -> Mem<Vec<Landing>>
    requires sound { IsSound (store_of fronts.old) }
    requires stands { (target : TheTarget) → Contains targets.now target →
        IsStand (store_of fronts.old) target.stand }
    ensures grows { OnOk result (Grows (store_of fronts.old) (store_of fronts.new)) }
    ensures landings { IfOk result (λ landings.
        AreLandings (store_of fronts.new) targets.now after landings.items) }
{
    let ends = ends_after(alloc, targets, after)?;
    let mut landings = Vec::new(alloc);
    for end in ends.as_slice() {
        let front = front_at(alloc, fronts, targets, *end)?;
        landings.push(Landing { at: *end, front })?;
    }
    Ok(landings)
}

/// The positions of targets that lie after this one, each once.
fn ends_after(alloc: Global, targets: &[Target], after: usize) -> Mem<IndexSet<usize>>
    ensures { IfOk result (λ ends. (end : ℕ) → Contains ends.keys end
        ↔ ((after < end) × (stand : TheStand)
        × Contains targets.now (record { at = end; stand = stand }))) }
{
    let mut ends = IndexSet::new(alloc);
    for target in targets {
        put_after(&mut ends, target.at, after)?;
    }
    Ok(ends)
}

/// Puts a position into the set, if it lies after another.
fn put_after(ends: &mut IndexSet<usize>, at: usize, after: usize) -> Mem<()>
    ensures { OnOk result ((end : ℕ) → Contains ends.new.keys end
        ↔ (Contains ends.old.keys end ⊎ ((after < at) × (end ≡ at)))) }
{
    if after < at { put(ends, at) } else { Ok(()) }
}

/// Whether an edge of the stands has a mask.
pub fn have_mask(net: &Net, stands: &[Stand]) -> bool
    ensures { result ≡ false → (stand : TheStand) (edge : TheEdge) (mask : masks.Mask) →
        Contains stands.now stand → IsEdgeOf net.now stand.here edge →
        edge.label ≡ label.Mask mask → ⊥ }
{
    for stand in stands {
        if has_mask(net, *stand) {
            return true;
        }
    }
    false
}

/// Whether an edge of the stand has a mask.
fn has_mask(net: &Net, stand: Stand) -> bool
    ensures { result ≡ false → (edge : TheEdge) (mask : masks.Mask) →
        IsEdgeOf net.now stand.here edge → edge.label ≡ label.Mask mask → ⊥ }
{
    match net.state(stand.here.graph, stand.here.state) {
        Some(state) => is_mask_among(state.edges.as_slice()),
        None => false,
    }
}

/// Whether one of the edges has a mask.
fn is_mask_among(edges: &[Edge]) -> bool
    ensures { result ≡ false → (edge : TheEdge) (mask : masks.Mask) →
        Contains edges.now edge → edge.label ≡ label.Mask mask → ⊥ }
{
    for edge in edges {
        if is_mask(&edge.label) {
            return true;
        }
    }
    false
}

/// Whether the label is a mask.
fn is_mask(found: &Label) -> bool
    ensures { result ≡ false → (mask : masks.Mask) → found.now ≡ label.Mask mask → ⊥ }
{
    matches!(found, Label::Mask(_))
}
