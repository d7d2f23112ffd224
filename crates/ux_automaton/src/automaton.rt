//! The automaton, sealed.
//!
//! Contracts see it as its setting and its fronts. What else it keeps is right by its invariant.
//! Memory may run out while it grows; then it isn't used again.

ghost use Rattle.std.specs.Prelude.{◌≡◌, ◌↔◌, ◌⊎◌, ◌<◌, ◌≤◌, false, IfOk, OnOk, length};
ghost use Rattle.ux_meaning.specs.Texts.{IsSpaceAt};
ghost use Rattle.ux_walk.specs.Leads.{Stack as TheStack, main_stack};
ghost use Rattle.ux_mask_table.specs.MaskedTexts.{HasTable};
ghost use Rattle.ux_automaton.specs.Fronts.{BeginsNothing, Holds, IsFront, Keeps};
ghost use Rattle.ux_walk.specs.Settings.{masked_setting};
ghost use Rattle.ux_automaton.specs.Steps.{IsStep};

use crate::front_indexes::FrontIndexes;
use crate::kept::Kept;
use crate::marks::marks_of;
use crate::step::Step;
use std::alloc::Global;
use std::marker::Model;
use ux_base::{Mem, NoMemory};
use ux_mask_table::MaskedText;
use ux_walk::look_ups::LookUps;

/// So many links may tell the fronts when a walk begins: some forty megabytes. Beyond it what is
/// kept is let go.
const MOST_LINKS: usize = 524_288;

/// An automaton over the tokens of one text, for walks of one net.
#[derive(Drop)]
pub struct Automaton<'a> {
    /// The text, with what its masks accept.
    masked: &'a MaskedText<'a>,
    /// Marks of the places at which a span of several tokens may begin.
    marks: Vec<bool>,
    kept: Kept,
    /// The indexes of states of many edges, which are never let go.
    look_ups: LookUps<'a>,
    /// The indexes of fronts of many stands.
    front_indexes: FrontIndexes<'a>,
    /// Whether memory never ran out while it grew.
    is_whole: bool,
}

impl<'a> Model for Automaton<'a> {
    ghost use Rattle.ux_automaton.specs.Fronts.{Known};

    ghost Value = { Known };

    ghost use Rattle.ux_automaton.specs.Kept.{IsConsistent, known_of};

    ghost view = { known_of };

    ghost invariant = { IsConsistent };
}

impl<'a> Automaton<'a> {
    /// An automaton over a text with its masks, to which no walk came yet. Takes a look at each
    /// token.
    pub fn of(alloc: Global, masked: &'a MaskedText<'a>) -> Mem<Automaton<'a>>
        requires { HasTable masked.now }
        ensures { IfOk result (λ automaton. automaton.setting ≡ masked_setting masked.now) }
    {
        let marks = marks_of(alloc, masked)?;
        let kept = Kept::new(alloc, masked.text.different())?;
        Ok(Automaton {
            masked,
            marks,
            kept,
            look_ups: LookUps::new(alloc),
            front_indexes: FrontIndexes::new(alloc),
            is_whole: true,
        })
    }

    /// Whether anything may be derived from a start at which no space stands. Takes a look at the
    /// token there, and one at the next.
    pub fn may_begin(&self, start: usize) -> bool
        requires inside { start < length self.now.setting.tokens }
        ensures { result ≡ false → (IsSpaceAt self.now.setting.tokens start → ⊥) →
            BeginsNothing self.now.setting start }
    {
        !self.is_whole
            || self.kept.may_begin(
                self.masked,
                &self.front_indexes,
                self.marks.as_slice(),
                start,
            )
    }

    /// The front with which a walk begins. Fronts of earlier walks aren't fronts any more: what is
    /// kept is let go where it is too much.
    pub fn begin(&mut self, alloc: Global) -> Mem<usize>
        ensures setting { OnOk result (self.new.setting ≡ self.old.setting) }
        ensures there { IfOk result (IsFront self.new) }
        ensures main { IfOk result (λ front. (stack : TheStack) →
            Holds self.new front stack ↔ (stack ≡ main_stack)) }
    {
        if !self.is_whole {
            return Err(NoMemory);
        }
        if self.kept.size() <= MOST_LINKS {
            return Ok(self.kept.first());
        }
        let kept = Kept::new(alloc, self.masked.text.different())?;
        let first = kept.first();
        self.kept = kept;
        self.front_indexes.let_go(alloc);
        Ok(first)
    }

    /// Where walks from a front go on at a position. Takes a look-up, and memory for what no walk
    /// came to before.
    pub fn step(&mut self, alloc: Global, front: usize, at: usize) -> Mem<Step>
        requires front { IsFront self.now front }
        requires inside { at ≤ length self.now.setting.tokens }
        ensures keeps { OnOk result (Keeps self.old self.new) }
        ensures step { IfOk result (IsStep self.old self.new front at) }
    {
        if !self.is_whole {
            return Err(NoMemory);
        }
        self.is_whole = false;
        let step = self.kept.step(
            alloc,
            self.masked,
            &mut self.look_ups,
            &mut self.front_indexes,
            self.marks.as_slice(),
            front,
            at,
        )?;
        self.is_whole = true;
        Ok(step)
    }

    /// The front of the stacks of both.
    pub fn join(&mut self, alloc: Global, one: usize, other: usize) -> Mem<usize>
        requires one { IsFront self.now one }
        requires other { IsFront self.now other }
        ensures keeps { OnOk result (Keeps self.old self.new) }
        ensures there { IfOk result (IsFront self.new) }
        ensures both { IfOk result (λ front. (stack : TheStack) → Holds self.new front stack
            ↔ (Holds self.old one stack ⊎ Holds self.old other stack)) }
    {
        if !self.is_whole {
            return Err(NoMemory);
        }
        self.is_whole = false;
        let front = self.kept.join(alloc, one, other)?;
        self.is_whole = true;
        Ok(front)
    }
}
