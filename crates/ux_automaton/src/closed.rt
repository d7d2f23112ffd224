//! What is kept of fronts: what they reach without a token.

ghost use Rattle.std.specs.Prelude.{◌≡◌, ◌↔◌, ◌⊎◌, ◌+◌, ℕ, Bool, Contains, IfOk, IfSome, OnOk};
ghost use Rattle.ux_meaning.specs.Texts.{IsSpaceAt};
ghost use Rattle.ux_closure.specs.Taking.{TellsSpace};
ghost use Rattle.ux_walk.specs.Leads.{Stack as TheStack};
ghost use Rattle.ux_mask_table.specs.MaskedTexts.{HasTable};
ghost use Rattle.ux_automaton.specs.declared.closed.Closed.{Closed as TheClosed};
ghost use Rattle.ux_automaton.specs.Caches.{IsClosed};
ghost use Rattle.ux_automaton.specs.Fronts.{HoldsIn, IsFrontIn, NamesStack};
ghost use Rattle.ux_automaton.specs.Kept.{AreIndexed, AreStands, Grows, HasClosed, IsSound, store_of};
ghost use Rattle.ux_walk.specs.Settings.{masked_setting};
ghost use Rattle.ux_automaton.specs.Targets.{IsOver};

use crate::fronts::Fronts;
use crate::slots::{give, value_of};
use crate::takers::may_take;
use crate::targets::{front_at, have_mask, targets_of};
use std::alloc::Global;
use ux_base::Mem;
use ux_closure::stand::Stand;
use ux_mask_table::MaskedText;
use ux_walk::look_ups::LookUps;
use ux_walk::matching::is_space;

/// What is known of a front.
#[derive(Clone, Copy)]
pub struct Closed {
    /// The front of all stacks that it reaches without a token.
    pub front: usize,
    /// Whether it reaches the end of the main graph so.
    pub ends: bool,
    /// Whether an edge there may have a mask.
    pub has_masks: bool,
    /// Whether an edge there may take a token, and not a space alone.
    pub takes_tokens: bool,
    /// The front after the space that stands there, if one does.
    pub over_space: usize,
}

/// What is known of the fronts to which walks came, by their numbers.
#[derive(Drop)]
pub struct Closures {
    /// Where a space stands.
    spaced: Vec<Option<Closed>>,
    /// Where none stands.
    bare: Vec<Option<Closed>>,
}

impl Closures {
    /// Nothing is known. Takes no memory.
    pub fn new(alloc: Global) -> Closures
        ensures { (is_spaced : Bool) (front : ℕ) (closed : TheClosed) →
            HasClosed result is_spaced front closed → ⊥ }
    {
        Closures {
            spaced: Vec::new(alloc),
            bare: Vec::new(alloc),
        }
    }

    /// What is known of a front.
    pub fn get(&self, front: usize, is_spaced: bool) -> Option<Closed>
        ensures { IfSome result (HasClosed self.now is_spaced front) }
    {
        if is_spaced {
            value_of(&self.spaced, front)
        } else {
            value_of(&self.bare, front)
        }
    }

    /// Keeps what is known of a front.
    pub fn put(&mut self, front: usize, is_spaced: bool, closed: Closed) -> Mem<()>
        ensures { OnOk result ((spaced : Bool) (f : ℕ) (c : TheClosed) →
            HasClosed self.new spaced f c →
            ((spaced ≡ is_spaced) × (f ≡ front) × (c ≡ closed))
            ⊎ HasClosed self.old spaced f c) }
    {
        if is_spaced {
            give(&mut self.spaced, front, closed)
        } else {
            give(&mut self.bare, front, closed)
        }
    }
}

/// What is to be known of a front, where a space stands at a position, or where none does.
pub fn close<'t>(
    alloc: Global,
    fronts: &mut Fronts,
    masked: &MaskedText<'t>,
    look_ups: &mut LookUps<'t>,
    front: usize,
    is_spaced: bool,
    at: usize,
) -> Mem<Closed>
    requires sound { IsSound (store_of fronts.now) }
    requires table { HasTable masked.now }
    requires indexed { AreIndexed masked.now look_ups.now }
    requires there { IsFrontIn (store_of fronts.now) front }
    requires tells { TellsSpace (masked_setting masked.now) at is_spaced }
    ensures indexed { OnOk result (AreIndexed masked.now look_ups.new) }
    ensures grows { OnOk result (Grows (store_of fronts.old) (store_of fronts.new)) }
    ensures closed { IfOk result
        (IsClosed (masked_setting masked.now) (store_of fronts.new) front is_spaced) }
{
    let closure = fronts.close(alloc, masked.net, front, is_spaced)?;
    let stands = closure.stands.as_slice();
    let closed = fronts.front_of(stands)?;
    let over_space = over_space(alloc, fronts, masked, look_ups, stands, at)?;
    Ok(Closed {
        front: closed,
        ends: closure.ends,
        has_masks: have_mask(masked.net, stands),
        takes_tokens: may_take(masked.net, stands),
        over_space,
    })
}

/// The front after the space at a position, and front 0 where none stands there.
fn over_space<'t>(
    alloc: Global,
    fronts: &mut Fronts,
    masked: &MaskedText<'t>,
    look_ups: &mut LookUps<'t>,
    stands: &[Stand],
    at: usize,
) -> Mem<usize>
    requires sound { IsSound (store_of fronts.now) }
    requires table { HasTable masked.now }
    requires indexed { AreIndexed masked.now look_ups.now }
    requires stands { AreStands (store_of fronts.now) stands.now }
    ensures indexed { OnOk result (AreIndexed masked.now look_ups.new) }
    ensures grows { OnOk result (Grows (store_of fronts.old) (store_of fronts.new)) }
    ensures there { IfOk result (IsFrontIn (store_of fronts.new)) }
    ensures spaced { IfOk result (λ front. IsSpaceAt masked.now.text.now at → (stack : TheStack) →
        HoldsIn (store_of fronts.new) front stack
        ↔ IsOver (masked_setting masked.now)
        (NamesStack (store_of fronts.old).stacks (Contains stands.now)) at (at + 1) stack) }
    ensures bare { IfOk result (λ front. (IsSpaceAt masked.now.text.now at → ⊥) → front ≡ 0) }
{
    if !is_space(masked.text, at) {
        return Ok(0);
    }
    let targets = targets_of(alloc, masked, look_ups, stands, at)?;
    front_at(alloc, fronts, targets.as_slice(), at + 1)
}
