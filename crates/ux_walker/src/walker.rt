//! Walks of one grammar over one text with its masks, with all that is kept from start to start.
//!
//! Contracts see a walker as its setting: the net, the tokens, the letters and the entries that it was
//! made for. Memory may run out while the automaton grows; then the walker isn't used again.

ghost use Rattle.std.specs.Prelude.{◌≡◌, ◌<◌, ◌≤◌, [], ℕ, IfOk, OnOk, false, length};
ghost use Rattle.ux_net.specs.Nets.{ArePlain};
ghost use Rattle.ux_meaning.specs.Texts.{IsSpaceAt};
ghost use Rattle.ux_walk.specs.Ends.{AreEnds};
ghost use Rattle.ux_mask_table.specs.MaskedTexts.{HasTable};
ghost use Rattle.ux_walk.specs.Settings.{masked_setting};
ghost use Rattle.ux_walker.specs.FirstEnds.{IsFirstEnd};

use crate::agenda::Agenda;
use crate::walking::{walk, walk_to_first};
use std::alloc::Global;
use std::marker::Model;
use ux_automaton::Automaton;
use ux_base::{Mem, NoMemory};
use ux_mask_table::MaskedText;

/// What walks of one net over one text keep. Contracts see it as the setting that it was made for.
#[derive(Drop)]
pub struct Walker<'a> {
    /// The text, with what its masks accept.
    masked: &'a MaskedText<'a>,
    automaton: Automaton<'a>,
    agenda: Agenda,
    /// Whether memory ran out while the automaton grew.
    is_spent: bool,
}

impl<'a> Model for Walker<'a> {
    ghost use Rattle.ux_walk.specs.Settings.{Setting};
    ghost use Rattle.ux_walker.specs.Walkers.{IsConsistent, made_for};

    ghost Value = { Setting };

    ghost view = { made_for };

    ghost invariant = { IsConsistent };
}

impl<'a> Walker<'a> {
    /// A walker over a text with its masks, of a net without contexts.
    pub fn of(alloc: Global, masked: &'a MaskedText<'a>) -> Mem<Walker<'a>>
        requires table { HasTable masked.now }
        requires plain { ArePlain masked.now.net.now }
        ensures { IfOk result (λ walker. walker ≡ masked_setting masked.now) }
    {
        let automaton = Automaton::of(alloc, masked)?;
        Ok(Walker {
            masked,
            automaton,
            agenda: Agenda::new(alloc),
            is_spent: false,
        })
    }

    /// Whether a derivation from a start at which no space stands may end after it. Takes a look at the
    /// token there, and one at the next.
    pub fn may_begin(&self, start: usize) -> bool
        requires inside { start < length self.now.tokens }
        ensures { result ≡ false → (IsSpaceAt self.now.tokens start → ⊥) →
            AreEnds self.now start [] }
    {
        if self.is_spent {
            return true;
        }
        self.masked.net.is_measured();
        self.automaton.may_begin(start)
    }

    /// Lets `ends` be the positions after the start at which a derivation from it ends, in order. Takes
    /// a step of the automaton a position, and memory for `ends` and for fronts to which no walk came
    /// before. Where memory ran out once, it does so again.
    pub fn ends_from(&mut self, alloc: Global, start: usize, ends: &mut Vec<usize>) -> Mem<()>
        requires inside { start ≤ length self.now.tokens }
        ensures same { self.new ≡ self.old }
        ensures ends { OnOk result (AreEnds self.old start ends.new.items) }
    {
        if self.is_spent {
            return Err(NoMemory);
        }
        self.is_spent = true;
        self.masked.net.is_measured();
        walk(
            alloc,
            self.masked.text,
            &mut self.automaton,
            &mut self.agenda,
            start,
            ends,
        )?;
        self.is_spent = false;
        Ok(())
    }

    /// Lets `ends` be the first of these positions alone, if there is any. Takes a step of the automaton
    /// for each position up to it, and memory for fronts to which no walk came before. Where memory ran
    /// out once, it does so again.
    pub fn first_end_from(&mut self, alloc: Global, start: usize, ends: &mut Vec<usize>) -> Mem<()>
        requires inside { start ≤ length self.now.tokens }
        ensures same { self.new ≡ self.old }
        ensures first { OnOk result (IsFirstEnd self.old start ends.new.items) }
    {
        if self.is_spent {
            return Err(NoMemory);
        }
        self.is_spent = true;
        self.masked.net.is_measured();
        walk_to_first(
            alloc,
            self.masked.text,
            &mut self.automaton,
            &mut self.agenda,
            start,
            ends,
        )?;
        self.is_spent = false;
        Ok(())
    }
}
