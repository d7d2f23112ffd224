//! What an automaton keeps from walk to walk.
//!
//! Of each front that a walk came to: what it reaches without a token, as a front again. Of closed
//! fronts: transitions over tokens, by number and kind. All of it may be let go between walks, and
//! is then worked out again.

ghost use Rattle.std.specs.Prelude.{◌≡◌, ◌↔◌, ◌⊎◌, ◌<◌, ◌≤◌, ◌+◌, false, IfOk, IfSome, IsTrue, OnOk, Some, length, slice_get};
ghost use Rattle.ux_meaning.specs.Texts.{IsSpaceAt};
ghost use Rattle.ux_outputs.specs.Rendering.{skip as skip_of};
ghost use Rattle.ux_closure.specs.Taking.{TellsSpace};
ghost use Rattle.ux_walk.specs.Leads.{Stack as TheStack};
ghost use Rattle.ux_walk.specs.Settings.{Setting, masked_setting};
ghost use Rattle.ux_lexical_tables.specs.Accepting.{IsAlone};
ghost use Rattle.ux_mask_table.specs.MaskedTexts.{HasTable};
ghost use Rattle.ux_automaton.specs.Caches.{HasValue, IsClosed, IsNumbered, IsTransition, TakeSingly};
ghost use Rattle.ux_automaton.specs.FrontIndexes.{AreFrontsIndexed};
ghost use Rattle.ux_automaton.specs.Fronts.{BeginsNothing, HoldsIn, IsFrontIn};
ghost use Rattle.ux_automaton.specs.Kept.{AreIndexed, AreMarked, AreRight, Grows, IsFirst, IsSound, known_in, store_of};
ghost use Rattle.ux_automaton.specs.Onwards.{IsOnward, LeadNowhere, LeadOnlyTo};
ghost use Rattle.ux_automaton.specs.Steps.{IsStep};
ghost use Rattle.ux_automaton.specs.Targets.{HaveNoMask, TakeNoToken};

use crate::closed::{Closed, Closures, close};
use crate::front_indexes::FrontIndexes;
use crate::fronts::Fronts;
use crate::onward::{Onward, onward_anew, over_token};
use crate::slots::{give, value_of};
use crate::step::Step;
use crate::transitions::{Transition, Transitions};
use std::alloc::Global;
use ux_base::Mem;
use ux_closure::stand::Stand;
use ux_mask_table::MaskedText;
use ux_tokens::Kind;
use ux_walk::config::Frame;
use ux_walk::look_ups::LookUps;
use ux_walk::matching::{is_space, skip};

/// What is kept.
#[derive(Drop)]
pub struct Kept {
    /// The fronts that were come to.
    fronts: Fronts,
    /// The front in which walks begin.
    first: usize,
    /// What is known of fronts.
    closures: Closures,
    /// Transitions from closed fronts.
    transitions: Transitions,
    /// The kind of the tokens of a number with which nothing begins.
    barred: Vec<Option<Kind>>,
}

impl Kept {
    /// The front in which walks begin, alone, with room for so many different tokens.
    pub fn new(alloc: Global, different: usize) -> Mem<Kept>
        ensures { IfOk result (λ kept. (setting : Setting) → AreRight setting kept) }
    {
        let mut fronts = Fronts::new(alloc);
        let main = Frame { graph: 1, state: 0 };
        let first = fronts.front_of(&[Stand {
            here: main,
            back: 0,
        }])?;
        Ok(Kept {
            fronts,
            first,
            closures: Closures::new(alloc),
            transitions: Transitions::new(alloc, different)?,
            barred: Vec::new(alloc),
        })
    }

    /// How many links tell the fronts.
    pub fn size(&self) -> usize {
        self.fronts.size()
    }

    /// The front in which walks begin.
    pub fn first(&self) -> usize
        ensures { (setting : Setting) → AreRight setting self.now →
            IsFirst (store_of self.now.fronts) result }
    {
        self.first
    }

    /// Whether anything may be derived from a start at which no space stands, as far as is known.
    /// Takes a look at what is known of the token's number, and mostly no more. Else it takes one at
    /// what is known of each front that is met over two tokens, and at the transitions.
    pub fn may_begin(
        &self,
        masked: &MaskedText,
        front_indexes: &FrontIndexes,
        marks: &[bool],
        start: usize,
    ) -> bool
        requires right { AreRight (masked_setting masked.now) self.now }
        requires table { HasTable masked.now }
        requires fronts { AreFrontsIndexed masked.now (store_of self.now.fronts) front_indexes.now }
        requires marked { AreMarked (masked_setting masked.now) marks.now }
        requires inside { start < length masked.now.text.now }
        ensures { result ≡ false → (IsSpaceAt masked.now.text.now start → ⊥) →
            BeginsNothing (masked_setting masked.now) start }
    {
        masked.text.len();
        if self.is_barred(masked, marks, start) {
            return false;
        }
        let Some(closed) = self.closures.get(self.first, false) else {
            return true;
        };
        let Some(next) = self.next_known(masked, front_indexes, marks, closed, start) else {
            return true;
        };
        !self.leads_nowhere(masked, front_indexes, marks, next, start + 1)
    }

    /// Whether it is known that nothing begins with the token at a start at which no space stands.
    fn is_barred(&self, masked: &MaskedText, marks: &[bool], start: usize) -> bool
        requires right { AreRight (masked_setting masked.now) self.now }
        requires marked { AreMarked (masked_setting masked.now) marks.now }
        requires inside { start < length masked.now.text.now }
        ensures { IsTrue result → (IsSpaceAt masked.now.text.now start → ⊥) →
            BeginsNothing (masked_setting masked.now) start }
    {
        if may_span_at(marks, start) {
            return false;
        }
        let number = masked.text.number(start);
        let kind = masked.text.kind(start);
        self.bars(masked, number, kind, start)
    }

    /// Whether it is known that nothing begins with a token of this number and kind, at a start where
    /// no space stands and no span of several tokens begins.
    fn bars(&self, masked: &MaskedText, number: u32, kind: Kind, start: usize) -> bool
        requires right { AreRight (masked_setting masked.now) self.now }
        requires numbered { IsNumbered masked.now.text.now start number kind }
        requires alone { IsAlone masked.now.text.now masked.now.applied.now start }
        ensures { IsTrue result → (IsSpaceAt masked.now.text.now start → ⊥) →
            BeginsNothing (masked_setting masked.now) start }
    {
        match self.barred_kind(number) {
            Some(barred) => is_same(barred, kind),
            None => false,
        }
    }

    /// The kind of the tokens of this number with which nothing begins, where it is known.
    fn barred_kind(&self, number: u32) -> Option<Kind>
        ensures { IfSome result (HasValue self.now.barred.items number) }
    {
        value_of(&self.barred, number as usize)
    }

    /// Whether it is known that no walk leads anywhere from a front at a position.
    fn leads_nowhere(
        &self,
        masked: &MaskedText,
        front_indexes: &FrontIndexes,
        marks: &[bool],
        front: usize,
        at: usize,
    ) -> bool
        requires right { AreRight (masked_setting masked.now) self.now }
        requires table { HasTable masked.now }
        requires fronts { AreFrontsIndexed masked.now (store_of self.now.fronts) front_indexes.now }
        requires marked { AreMarked (masked_setting masked.now) marks.now }
        requires within { at ≤ length masked.now.text.now }
        ensures { IsTrue result → LeadNowhere (masked_setting masked.now)
            (HoldsIn (store_of self.now.fronts) front) at }
    {
        if front == 0 {
            return true;
        }
        masked.text.len();
        let Some(closed) = self.closures.get(front, is_space(masked.text, at)) else {
            return false;
        };
        if !self.is_stuck(masked, front_indexes, marks, closed, at) {
            return false;
        }
        self.leads_nowhere_at_once(masked, front_indexes, marks, closed.over_space, at + 1)
    }

    /// Whether it is known that no walk leads anywhere from a front at a position, not over a space
    /// there either.
    fn leads_nowhere_at_once(
        &self,
        masked: &MaskedText,
        front_indexes: &FrontIndexes,
        marks: &[bool],
        front: usize,
        at: usize,
    ) -> bool
        requires right { AreRight (masked_setting masked.now) self.now }
        requires table { HasTable masked.now }
        requires fronts { AreFrontsIndexed masked.now (store_of self.now.fronts) front_indexes.now }
        requires marked { AreMarked (masked_setting masked.now) marks.now }
        ensures { IsTrue result → LeadNowhere (masked_setting masked.now)
            (HoldsIn (store_of self.now.fronts) front) at }
    {
        if front == 0 {
            return true;
        }
        let Some(closed) = self.closures.get(front, is_space(masked.text, at)) else {
            return false;
        };
        if !is_nothing(closed.over_space) {
            return false;
        }
        self.is_stuck(masked, front_indexes, marks, closed, at)
    }

    /// Whether it is known of a closed front that no walk ends there at a position, and that none
    /// goes on over a token.
    fn is_stuck(
        &self,
        masked: &MaskedText,
        front_indexes: &FrontIndexes,
        marks: &[bool],
        closed: Closed,
        at: usize,
    ) -> bool
        requires right { AreRight (masked_setting masked.now) self.now }
        requires table { HasTable masked.now }
        requires fronts { AreFrontsIndexed masked.now (store_of self.now.fronts) front_indexes.now }
        requires marked { AreMarked (masked_setting masked.now) marks.now }
        requires masks { closed.has_masks ≡ false →
            HaveNoMask masked.now.net.now (HoldsIn (store_of self.now.fronts) closed.front) }
        requires tokens { closed.takes_tokens ≡ false →
            TakeNoToken masked.now.net.now (HoldsIn (store_of self.now.fronts) closed.front) }
        ensures ends { IsTrue result → closed.ends ≡ false }
        ensures only { IsTrue result → LeadOnlyTo (masked_setting masked.now) (store_of self.now.fronts)
            (HoldsIn (store_of self.now.fronts) closed.front) at 0 }
    {
        if closed.ends {
            return false;
        }
        match self.next_known(masked, front_indexes, marks, closed, at) {
            Some(next) => next == 0,
            None => false,
        }
    }

    /// The front behind the token at a position, which may stand after a space, where it is known
    /// and no mask accepts a span of several there. At the end of the text it is front 0.
    fn next_known(
        &self,
        masked: &MaskedText,
        front_indexes: &FrontIndexes,
        marks: &[bool],
        closed: Closed,
        at: usize,
    ) -> Option<usize>
        requires right { AreRight (masked_setting masked.now) self.now }
        requires table { HasTable masked.now }
        requires fronts { AreFrontsIndexed masked.now (store_of self.now.fronts) front_indexes.now }
        requires marked { AreMarked (masked_setting masked.now) marks.now }
        requires masks { closed.has_masks ≡ false →
            HaveNoMask masked.now.net.now (HoldsIn (store_of self.now.fronts) closed.front) }
        requires tokens { closed.takes_tokens ≡ false →
            TakeNoToken masked.now.net.now (HoldsIn (store_of self.now.fronts) closed.front) }
        ensures { IfSome result (LeadOnlyTo (masked_setting masked.now) (store_of self.now.fronts)
            (HoldsIn (store_of self.now.fronts) closed.front) at) }
    {
        if !closed.takes_tokens {
            return Some(0);
        }
        let place = skip(masked.text, at);
        if masked.text.len() <= place {
            return Some(0);
        }
        if may_land(closed, marks, place) {
            return None;
        }
        let number = masked.text.number(place);
        let kind = masked.text.kind(place);
        self.next_singly(masked, front_indexes, closed.front, number, kind, at)
    }

    /// The front behind a token of this number and kind, where it is known, and no mask there
    /// accepts a span of several.
    fn next_singly(
        &self,
        masked: &MaskedText,
        front_indexes: &FrontIndexes,
        front: usize,
        number: u32,
        kind: Kind,
        at: usize,
    ) -> Option<usize>
        requires right { AreRight (masked_setting masked.now) self.now }
        requires table { HasTable masked.now }
        requires fronts { AreFrontsIndexed masked.now (store_of self.now.fronts) front_indexes.now }
        requires numbered { IsNumbered masked.now.text.now (skip_of masked.now.text.now at)
            number kind }
        requires singly { TakeSingly (masked_setting masked.now)
            (HoldsIn (store_of self.now.fronts) front) (skip_of masked.now.text.now at) }
        ensures { IfSome result (LeadOnlyTo (masked_setting masked.now) (store_of self.now.fronts)
            (HoldsIn (store_of self.now.fronts) front) at) }
    {
        if let Some(next) = self.transitions.next(front, number, kind) {
            return Some(next);
        }
        if front_indexes.has_none(front, number) {
            Some(0)
        } else {
            None
        }
    }

    /// Notes, where walks begin, that nothing begins with the token at a start, if that is known.
    fn note(&mut self, masked: &MaskedText, front: usize, start: usize) -> Mem<()>
        requires right { AreRight (masked_setting masked.now) self.now }
        requires table { HasTable masked.now }
        ensures right { OnOk result (AreRight (masked_setting masked.now) self.new) }
        ensures same { OnOk result (self.new.fronts ≡ self.old.fronts) }
    {
        if front != self.first {
            return Ok(());
        }
        if masked.text.len() <= start {
            return Ok(());
        }
        let Some(closed) = self.closures.get(self.first, false) else {
            return Ok(());
        };
        let number = masked.text.number(start);
        let kind = masked.text.kind(start);
        let Some(next) = self.transitions.next(closed.front, number, kind) else {
            return Ok(());
        };
        if !is_nothing(next) {
            return Ok(());
        }
        give(&mut self.barred, number as usize, kind)
    }

    /// The front of the stacks of both.
    pub fn join(&mut self, alloc: Global, one: usize, other: usize) -> Mem<usize>
        requires sound { IsSound (store_of self.now.fronts) }
        requires one { IsFrontIn (store_of self.now.fronts) one }
        requires other { IsFrontIn (store_of self.now.fronts) other }
        ensures right { OnOk result ((setting : Setting) → AreRight setting self.old →
            AreRight setting self.new) }
        ensures grows { OnOk result (Grows (store_of self.old.fronts) (store_of self.new.fronts)) }
        ensures there { IfOk result (IsFrontIn (store_of self.new.fronts)) }
        ensures both { IfOk result (λ front. (stack : TheStack) →
            HoldsIn (store_of self.new.fronts) front stack
            ↔ (HoldsIn (store_of self.old.fronts) one stack
            ⊎ HoldsIn (store_of self.old.fronts) other stack)) }
    {
        self.fronts.join(alloc, one, other)
    }

    /// How walks from the front go on at the position.
    pub fn step<'t>(
        &mut self,
        alloc: Global,
        masked: &MaskedText<'t>,
        look_ups: &mut LookUps<'t>,
        front_indexes: &mut FrontIndexes<'t>,
        marks: &[bool],
        front: usize,
        at: usize,
    ) -> Mem<Step>
        requires right { AreRight (masked_setting masked.now) self.now }
        requires table { HasTable masked.now }
        requires indexed { AreIndexed masked.now look_ups.now }
        requires fronts { AreFrontsIndexed masked.now (store_of self.now.fronts) front_indexes.now }
        requires marked { AreMarked (masked_setting masked.now) marks.now }
        requires there { IsFrontIn (store_of self.now.fronts) front }
        requires inside { at ≤ length masked.now.text.now }
        ensures indexed { OnOk result (AreIndexed masked.now look_ups.new) }
        ensures fronts { OnOk result
            (AreFrontsIndexed masked.now (store_of self.new.fronts) front_indexes.new) }
        ensures right { OnOk result (AreRight (masked_setting masked.now) self.new) }
        ensures grows { OnOk result (Grows (store_of self.old.fronts) (store_of self.new.fronts)) }
        ensures step { IfOk result (IsStep (known_in masked.now self.old)
            (known_in masked.now self.new) front at) }
    {
        let step = self.go_on(alloc, masked, look_ups, front_indexes, marks, front, at)?;
        self.note(masked, front, at)?;
        Ok(step)
    }

    /// The same, with nothing noted of the token with which a walk begins.
    fn go_on<'t>(
        &mut self,
        alloc: Global,
        masked: &MaskedText<'t>,
        look_ups: &mut LookUps<'t>,
        front_indexes: &mut FrontIndexes<'t>,
        marks: &[bool],
        front: usize,
        at: usize,
    ) -> Mem<Step>
        requires right { AreRight (masked_setting masked.now) self.now }
        requires table { HasTable masked.now }
        requires indexed { AreIndexed masked.now look_ups.now }
        requires fronts { AreFrontsIndexed masked.now (store_of self.now.fronts) front_indexes.now }
        requires marked { AreMarked (masked_setting masked.now) marks.now }
        requires there { IsFrontIn (store_of self.now.fronts) front }
        requires inside { at ≤ length masked.now.text.now }
        ensures indexed { OnOk result (AreIndexed masked.now look_ups.new) }
        ensures fronts { OnOk result
            (AreFrontsIndexed masked.now (store_of self.new.fronts) front_indexes.new) }
        ensures right { OnOk result (AreRight (masked_setting masked.now) self.new) }
        ensures grows { OnOk result (Grows (store_of self.old.fronts) (store_of self.new.fronts)) }
        ensures step { IfOk result (IsStep (known_in masked.now self.old)
            (known_in masked.now self.new) front at) }
    {
        let is_spaced = is_space(masked.text, at);
        let closed = self.closed(alloc, masked, look_ups, front, is_spaced, at)?;
        let onward = self.onward(alloc, masked, look_ups, front_indexes, marks, closed, at)?;
        Ok(Step {
            ends: closed.ends,
            over_space: closed.over_space,
            over_token: onward.over_token,
            landings: onward.landings,
        })
    }

    /// What is known of a front, where a space stands at a position, or where none does.
    fn closed<'t>(
        &mut self,
        alloc: Global,
        masked: &MaskedText<'t>,
        look_ups: &mut LookUps<'t>,
        front: usize,
        is_spaced: bool,
        at: usize,
    ) -> Mem<Closed>
        requires right { AreRight (masked_setting masked.now) self.now }
        requires table { HasTable masked.now }
        requires indexed { AreIndexed masked.now look_ups.now }
        requires there { IsFrontIn (store_of self.now.fronts) front }
        requires tells { TellsSpace (masked_setting masked.now) at is_spaced }
        ensures indexed { OnOk result (AreIndexed masked.now look_ups.new) }
        ensures right { OnOk result (AreRight (masked_setting masked.now) self.new) }
        ensures grows { OnOk result (Grows (store_of self.old.fronts) (store_of self.new.fronts)) }
        ensures closed { IfOk result
            (IsClosed (masked_setting masked.now) (store_of self.new.fronts) front is_spaced) }
    {
        if let Some(closed) = self.closures.get(front, is_spaced) {
            return Ok(closed);
        }
        let closed = close(
            alloc,
            &mut self.fronts,
            masked,
            look_ups,
            front,
            is_spaced,
            at,
        )?;
        self.closures.put(front, is_spaced, closed)?;
        Ok(closed)
    }

    /// Where walks go on from a closed front behind tokens.
    fn onward<'t>(
        &mut self,
        alloc: Global,
        masked: &MaskedText<'t>,
        look_ups: &mut LookUps<'t>,
        front_indexes: &mut FrontIndexes<'t>,
        marks: &[bool],
        closed: Closed,
        at: usize,
    ) -> Mem<Onward>
        requires right { AreRight (masked_setting masked.now) self.now }
        requires table { HasTable masked.now }
        requires indexed { AreIndexed masked.now look_ups.now }
        requires fronts { AreFrontsIndexed masked.now (store_of self.now.fronts) front_indexes.now }
        requires marked { AreMarked (masked_setting masked.now) marks.now }
        requires there { IsFrontIn (store_of self.now.fronts) closed.front }
        requires masks { closed.has_masks ≡ false →
            HaveNoMask masked.now.net.now (HoldsIn (store_of self.now.fronts) closed.front) }
        requires tokens { closed.takes_tokens ≡ false →
            TakeNoToken masked.now.net.now (HoldsIn (store_of self.now.fronts) closed.front) }
        ensures indexed { OnOk result (AreIndexed masked.now look_ups.new) }
        ensures fronts { OnOk result
            (AreFrontsIndexed masked.now (store_of self.new.fronts) front_indexes.new) }
        ensures right { OnOk result (AreRight (masked_setting masked.now) self.new) }
        ensures grows { OnOk result (Grows (store_of self.old.fronts) (store_of self.new.fronts)) }
        ensures onward { IfOk result (IsOnward (masked_setting masked.now) (store_of self.new.fronts)
            (HoldsIn (store_of self.old.fronts) closed.front) at) }
    {
        if !closed.takes_tokens {
            return Ok(Onward {
                over_token: 0,
                landings: Vec::new(alloc),
            });
        }
        let place = skip(masked.text, at);
        if masked.text.len() <= place {
            return Ok(Onward {
                over_token: 0,
                landings: Vec::new(alloc),
            });
        }
        if may_land(closed, marks, place) {
            return onward_anew(alloc, &mut self.fronts, masked, look_ups, closed.front, at);
        }
        let number = masked.text.number(place);
        let kind = masked.text.kind(place);
        self.onward_singly(
            alloc,
            masked,
            look_ups,
            front_indexes,
            closed.front,
            number,
            kind,
            at,
        )
    }

    /// Where walks go on from a closed front behind a token of this number and kind, where no mask
    /// there accepts a span of several.
    fn onward_singly<'t>(
        &mut self,
        alloc: Global,
        masked: &MaskedText<'t>,
        look_ups: &mut LookUps<'t>,
        front_indexes: &mut FrontIndexes<'t>,
        front: usize,
        number: u32,
        kind: Kind,
        at: usize,
    ) -> Mem<Onward>
        requires right { AreRight (masked_setting masked.now) self.now }
        requires table { HasTable masked.now }
        requires indexed { AreIndexed masked.now look_ups.now }
        requires fronts { AreFrontsIndexed masked.now (store_of self.now.fronts) front_indexes.now }
        requires there { IsFrontIn (store_of self.now.fronts) front }
        requires numbered { IsNumbered masked.now.text.now (skip_of masked.now.text.now at)
            number kind }
        requires singly { TakeSingly (masked_setting masked.now)
            (HoldsIn (store_of self.now.fronts) front) (skip_of masked.now.text.now at) }
        ensures indexed { OnOk result (AreIndexed masked.now look_ups.new) }
        ensures fronts { OnOk result
            (AreFrontsIndexed masked.now (store_of self.new.fronts) front_indexes.new) }
        ensures right { OnOk result (AreRight (masked_setting masked.now) self.new) }
        ensures grows { OnOk result (Grows (store_of self.old.fronts) (store_of self.new.fronts)) }
        ensures onward { IfOk result (IsOnward (masked_setting masked.now) (store_of self.new.fronts)
            (HoldsIn (store_of self.old.fronts) front) at) }
    {
        let over_token = self.transition(
            alloc,
            masked,
            look_ups,
            front_indexes,
            front,
            number,
            kind,
            at,
        )?;
        Ok(Onward {
            over_token,
            landings: Vec::new(alloc),
        })
    }

    /// The front to which a token of this number and kind leads from a closed front.
    fn transition<'t>(
        &mut self,
        alloc: Global,
        masked: &MaskedText<'t>,
        look_ups: &mut LookUps<'t>,
        front_indexes: &mut FrontIndexes<'t>,
        front: usize,
        number: u32,
        kind: Kind,
        at: usize,
    ) -> Mem<usize>
        requires right { AreRight (masked_setting masked.now) self.now }
        requires table { HasTable masked.now }
        requires indexed { AreIndexed masked.now look_ups.now }
        requires fronts { AreFrontsIndexed masked.now (store_of self.now.fronts) front_indexes.now }
        requires there { IsFrontIn (store_of self.now.fronts) front }
        requires numbered { IsNumbered masked.now.text.now (skip_of masked.now.text.now at)
            number kind }
        requires singly { TakeSingly (masked_setting masked.now)
            (HoldsIn (store_of self.now.fronts) front) (skip_of masked.now.text.now at) }
        ensures indexed { OnOk result (AreIndexed masked.now look_ups.new) }
        ensures fronts { OnOk result
            (AreFrontsIndexed masked.now (store_of self.new.fronts) front_indexes.new) }
        ensures right { OnOk result (AreRight (masked_setting masked.now) self.new) }
        ensures grows { OnOk result (Grows (store_of self.old.fronts) (store_of self.new.fronts)) }
        ensures transition { IfOk result (λ next. IsTransition (masked_setting masked.now)
            (store_of self.new.fronts)
            (record { front = front; number = number; kind = kind; next = next })) }
    {
        if let Some(next) = self.transitions.next(front, number, kind) {
            return Ok(next);
        }
        let next = over_token(
            alloc,
            &mut self.fronts,
            masked,
            look_ups,
            front_indexes,
            front,
            at,
        )?;
        self.transitions.put(Transition {
            front,
            number,
            kind,
            next,
        });
        Ok(next)
    }
}

/// Whether a mask may accept a span of several tokens at the place.
fn may_land(closed: Closed, marks: &[bool], place: usize) -> bool
    ensures { result ≡ false → (closed.has_masks ≡ false) ⊎ (slice_get marks.now place ≡ Some false) }
{
    closed.has_masks && may_span_at(marks, place)
}

/// Whether it is front 0, which has no stack.
fn is_nothing(front: usize) -> bool
    ensures { IsTrue result → front ≡ 0 }
{
    front == 0
}

/// Whether both kinds are the same.
fn is_same(one: Kind, other: Kind) -> bool
    ensures { IsTrue result → one ≡ other }
{
    one == other
}

/// Whether a span of several tokens may begin at the place.
fn may_span_at(marks: &[bool], place: usize) -> bool
    ensures { result ≡ false → slice_get marks.now place ≡ Some false }
{
    match marks.get(place) {
        Some(may_span) => *may_span,
        None => true,
    }
}
