//! What is kept of places: of those to which no run leads, only what opens contexts.

ghost use Rattle.std.specs.Prelude.{◌≡◌, ◌↔◌, ◌⊎◌, ℕ, ◌<◌, Contains, length, slice_set, IfOk, OnOk, IsTrue, true};
ghost use Rattle.ux_boxes.specs.Places.{place_targets};
ghost use Rattle.ux_admission.specs.Gains.{Gains, SoOfOne};
ghost use Rattle.ux_state_places.specs.Arrivals.{AreKept};
ghost use Rattle.ux_state_places.specs.Keeping.{AreSet, IsKeptAt, IsKeptTarget};

use crate::meeting::{has_opening, lines_at};
use std::alloc::{AllocError, Global};
use ux_base::{Lst, Mem};
use ux_boxes::Place;

/// The places of a graph with these marks, and without the targets of those that aren't marked, but
/// for places into which contexts open.
pub fn kept_places(alloc: Global, places: Lst<Place>, marks: &[bool]) -> Mem<Vec<Place>>
    requires len { length marks.now ≡ length places }
    ensures { IfOk result (λ kept. AreKept marks.now places kept.items) }
{
    let mut kept = places.into_vec();
    for n in 0..marks.len() {
        keep(alloc, &mut kept, n, marks[n])?;
    }
    Ok(kept)
}

/// Gives the place its mark, and takes off the targets that aren't kept.
fn keep(alloc: Global, places: &mut Vec<Place>, n: usize, is_met: bool) -> Mem<()>
    requires inside { n < length places.now.items }
    ensures { OnOk result (IsKeptAt places.old.items n is_met places.new.items) }
{
    if is_met {
        mark(places, n);
        return Ok(());
    }
    let targets = kept_targets(alloc, places, n, is_met)?;
    set(places, n, is_met, targets);
    Ok(())
}

/// Marks a place, all of whose targets are kept.
fn mark(places: &mut Vec<Place>, n: usize)
    requires inside { n < length places.now.items }
    ensures { AreSet places.old.items n true (place_targets places.old.items n) places.new.items }
{
    let place = &mut places[n];
    place.reached = true;
}

/// Gives the place its mark and its targets.
fn set(places: &mut Vec<Place>, n: usize, is_met: bool, targets: Vec<u32>)
    requires inside { n < length places.now.items }
    ensures { AreSet places.old.items n is_met targets.items places.new.items }
{
    let place = &mut places[n];
    place.reached = is_met;
    place.targets = Lst::new(targets);
}

/// The targets of the place that are kept.
fn kept_targets(
    alloc: Global,
    places: &[Place],
    n: usize,
    is_met: bool,
) -> Result<Vec<u32>, AllocError>
    ensures { IfOk result (λ kept. (q : ℕ) → Contains kept.items q ↔
        SoOfOne (place_targets places.now n) (IsKeptTarget places.now is_met) q) }
{
    let mut kept = Vec::new(alloc);
    push_targets(&mut kept, places, targets_at(places, n), is_met)?;
    Ok(kept)
}

/// Adds those of the targets that are kept.
fn push_targets(
    kept: &mut Vec<u32>,
    places: &[Place],
    targets: &[u32],
    is_met: bool,
) -> Result<(), AllocError>
    ensures { OnOk result (Gains kept.old.items kept.new.items
        (SoOfOne targets.now (IsKeptTarget places.now is_met))) }
{
    for target in targets {
        push_target(kept, places, *target, is_met)?;
    }
    Ok(())
}

/// Adds the target, if it is kept.
fn push_target(
    kept: &mut Vec<u32>,
    places: &[Place],
    target: u32,
    is_met: bool,
) -> Result<(), AllocError>
    ensures { OnOk result
        (Gains kept.old.items kept.new.items (IsKeptTarget places.now is_met target)) }
{
    if is_met || has_opening(lines_at(places, target as usize)) {
        kept.push(target)?;
    }
    Ok(())
}

/// The targets of the place of this number.
fn targets_at(places: &[Place], n: usize) -> &[u32]
    ensures { result.now ≡ place_targets places.now n }
{
    match places.get(n) {
        Some(place) => place.targets.as_slice(),
        None => &[],
    }
}
