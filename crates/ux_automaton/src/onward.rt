//! Where walks go on behind tokens, worked out by the edges of a front's stands.

ghost use Rattle.std.specs.Prelude.{◌↔◌, ◌<◌, ◌+◌, IfOk, OnOk, length};
ghost use Rattle.ux_outputs.specs.Rendering.{skip as skip_of};
ghost use Rattle.ux_walk.specs.Leads.{Stack as TheStack};
ghost use Rattle.ux_mask_table.specs.MaskedTexts.{HasTable};
ghost use Rattle.ux_automaton.specs.FrontIndexes.{AreFrontsIndexed};
ghost use Rattle.ux_automaton.specs.Fronts.{HoldsIn, IsFrontIn};
ghost use Rattle.ux_automaton.specs.Kept.{AreIndexed, Grows, IsSound, store_of};
ghost use Rattle.ux_walk.specs.Settings.{masked_setting};
ghost use Rattle.ux_automaton.specs.Onwards.{IsOnward};
ghost use Rattle.ux_automaton.specs.Targets.{IsOver};

use crate::front_indexes::FrontIndexes;
use crate::fronts::Fronts;
use crate::step::Landing;
use crate::targets::{front_at, landings_of, targets_of};
use std::alloc::Global;
use ux_base::Mem;
use ux_mask_table::MaskedText;
use ux_walk::look_ups::LookUps;
use ux_walk::matching::skip;

/// Where walks go on behind tokens.
#[derive(Drop)]
pub struct Onward {
    /// The front after one token, which may stand after a space.
    pub over_token: usize,
    /// The fronts after spans of several tokens.
    pub landings: Vec<Landing>,
}

/// The front after the token at a position, which may stand after a space, worked out. Only those
/// stands are tried that may lead on over the token.
pub fn over_token<'t>(
    alloc: Global,
    fronts: &mut Fronts,
    masked: &MaskedText<'t>,
    look_ups: &mut LookUps<'t>,
    front_indexes: &mut FrontIndexes<'t>,
    front: usize,
    at: usize,
) -> Mem<usize>
    requires sound { IsSound (store_of fronts.now) }
    requires table { HasTable masked.now }
    requires indexed { AreIndexed masked.now look_ups.now }
    requires fronts { AreFrontsIndexed masked.now (store_of fronts.now) front_indexes.now }
    requires there { IsFrontIn (store_of fronts.now) front }
    requires within { skip_of masked.now.text.now at < length masked.now.text.now }
    ensures indexed { OnOk result (AreIndexed masked.now look_ups.new) }
    ensures fronts { OnOk result
        (AreFrontsIndexed masked.now (store_of fronts.new) front_indexes.new) }
    ensures grows { OnOk result (Grows (store_of fronts.old) (store_of fronts.new)) }
    ensures there { IfOk result (IsFrontIn (store_of fronts.new)) }
    ensures over { IfOk result (λ next. (stack : TheStack) → HoldsIn (store_of fronts.new) next stack
        ↔ IsOver (masked_setting masked.now) (HoldsIn (store_of fronts.old) front) at
        (skip_of masked.now.text.now at + 1) stack) }
{
    masked.text.len();
    let place = skip(masked.text, at);
    let number = masked.text.number(place);
    let few = front_indexes.likely(alloc, masked, fronts, front, number)?;
    let targets = targets_of(alloc, masked, look_ups, few.as_slice(), at)?;
    front_at(alloc, fronts, targets.as_slice(), place + 1)
}

/// Where walks go on from a closed front behind tokens, worked out: spans of several may be taken.
pub fn onward_anew<'t>(
    alloc: Global,
    fronts: &mut Fronts,
    masked: &MaskedText<'t>,
    look_ups: &mut LookUps<'t>,
    front: usize,
    at: usize,
) -> Mem<Onward>
    requires sound { IsSound (store_of fronts.now) }
    requires table { HasTable masked.now }
    requires indexed { AreIndexed masked.now look_ups.now }
    requires there { IsFrontIn (store_of fronts.now) front }
    requires within { skip_of masked.now.text.now at < length masked.now.text.now }
    ensures indexed { OnOk result (AreIndexed masked.now look_ups.new) }
    ensures grows { OnOk result (Grows (store_of fronts.old) (store_of fronts.new)) }
    ensures onward { IfOk result (IsOnward (masked_setting masked.now) (store_of fronts.new)
        (HoldsIn (store_of fronts.old) front) at) }
{
    masked.text.len();
    let place = skip(masked.text, at);
    let stands = fronts.stands(alloc, front)?;
    let targets = targets_of(alloc, masked, look_ups, stands.as_slice(), at)?;
    let over_token = front_at(alloc, fronts, targets.as_slice(), place + 1)?;
    let landings = landings_of(alloc, fronts, targets.as_slice(), place + 1)?;
    Ok(Onward {
        over_token,
        landings,
    })
}
