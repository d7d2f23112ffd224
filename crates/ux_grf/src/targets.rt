//! The targets of boxes: each once, and as the ways of a search.

ghost use Rattle.std.specs.Prelude.{◌≡◌, ℕ, ◌<◌, ◌≤◌, [], ◌∷◌, length, map, IfOk, OnOk, slice_index, Contains};
ghost use Rattle.ux_base.specs.Distinct.{AreFirsts, GrowsBy};
ghost use Rattle.ux_grf.specs.Boxes.{Stamped};
ghost use Rattle.ux_grf.specs.Reached.{ways_of};

use crate::box_line::BoxLine;
use std::alloc::{AllocError, Global};
use ux_base::Lst;

/// Each target once, at its first place. A stamp at the place of each target that was met keeps the
/// time linear; stamps grow from one call to the next, so none has to be taken away.
pub fn each_once(
    alloc: Global,
    targets: &[u32],
    stamps: &mut Vec<u32>,
    stamp: u32,
) -> Result<Vec<u32>, AllocError>
    requires inside { (i : ℕ) → i < length targets.now → slice_index targets.now i < length stamps.now.items }
    requires fresh { (u : ℕ) → slice_index stamps.now.items u < stamp }
    ensures once { IfOk result (λ kept. AreFirsts targets.now kept.items) }
    ensures len { OnOk result (length stamps.new.items ≡ length stamps.old.items) }
    ensures below { OnOk result ((u : ℕ) → slice_index stamps.new.items u ≤ stamp) }
{
    let mut kept = Vec::new(alloc);
    for target in targets {
        keep(stamps, stamp, &mut kept, *target)?;
    }
    Ok(kept)
}

/// Keeps the target, unless it was met.
fn keep(
    stamps: &mut Vec<u32>,
    stamp: u32,
    kept: &mut Vec<u32>,
    target: u32,
) -> Result<(), AllocError>
    requires inside { target < length stamps.now.items }
    requires stamped { Stamped (length stamps.now.items) stamp stamps.now.items kept.now.items }
    ensures len { OnOk result (length stamps.new.items ≡ length stamps.old.items) }
    ensures stamped { OnOk result (Stamped (length stamps.old.items) stamp stamps.new.items kept.new.items) }
    ensures kept { OnOk result (GrowsBy (target ∷ []) kept.old.items kept.new.items) }
{
    if stamps[target as usize] == stamp {
        return Ok(());
    }
    stamps[target as usize] = stamp;
    kept.push(target)?;
    Ok(())
}

/// The targets of the boxes, as places. Those of box 1 are left out: no path passes the end.
pub fn ways(alloc: Global, boxes: &[BoxLine<'_>]) -> Result<Vec<Lst<usize>>, AllocError>
    requires { 1 < length boxes.now }
    ensures { IfOk result (λ ways. ways.items ≡ ways_of (map (λ b. b.targets.items) boxes.now)) }
{
    let mut ways = Vec::new(alloc);
    for line in boxes {
        ways.push(places(alloc, line.targets.as_slice())?)?;
    }
    ways[1] = Lst::new(Vec::new(alloc));
    Ok(ways)
}

/// The targets, as places.
fn places(alloc: Global, targets: &[u32]) -> Result<Lst<usize>, AllocError>
    ensures { IfOk result (λ places. places ≡ targets.now) }
{
    let mut places = Vec::new(alloc);
    for target in targets {
        places.push(*target as usize)?;
    }
    Ok(Lst::new(places))
}
