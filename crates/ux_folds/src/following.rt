//! What is kept after an event.

ghost use Rattle.std.specs.Prelude.{◌≤◌, ℕ, List, IfOk, length};
ghost use Rattle.ux_base.specs.declared.settings.NoVar.{NoVar};
ghost use Rattle.ux_tokens.specs.Tokens.{Token};
ghost use Rattle.ux_outputs.specs.declared.event.Event.{Event};
ghost use Rattle.ux_folds.specs.Folding.{event_of};
ghost use Rattle.ux_folds.specs.Following.{IsFollowed};

use crate::fold::LentEvent;
use crate::kept::Kept;
use crate::tables::{Tables, cut};
use std::alloc::Global;
use ux_base::{Mem, Mode, NoVar, Txt};
use ux_tokens::Text;

impl Tables {
    /// What is kept after an event. None where the derivation is dropped, or where the event doesn't fit.
    pub(crate) fn follow(
        &mut self,
        alloc: Global,
        kept: Kept,
        event: LentEvent<'_>,
        mode: Mode,
        novar: NoVar,
        names: &[Txt],
        text: &Text,
    ) -> Mem<Option<Kept>>
        requires { kept.position ≤ length text.now }
        ensures { IfOk result (IsFollowed text.now mode novar names.now self.old self.new kept
            (event_of event.entry)) }
    {
        match event {
            LentEvent::Take { from, to } => self.take_if(kept, from, to, mode, text),
            LentEvent::Put(put) => self.put_if(alloc, kept, put, mode),
            LentEvent::Value(asked) => self.answer_if(alloc, kept, asked, names, mode, novar),
            LentEvent::Begin(name) => Ok(Some(self.begin(alloc, kept, name, names)?)),
            LentEvent::End(name) => Ok(Some(self.end(alloc, kept, name, names, text)?)),
            LentEvent::Cut => Ok(Some(cut(kept))),
        }
    }

    /// Takes tokens, where they go on from the position.
    fn take_if(
        &mut self,
        kept: Kept,
        from: usize,
        to: usize,
        mode: Mode,
        text: &Text,
    ) -> Mem<Option<Kept>>
        ensures { IfOk result (λ next. (novar : NoVar) (names : List (List ℕ)) →
            IsFollowed text.now mode novar names self.old self.new kept (Event.Take from to) next) }
    {
        if from != kept.position || to <= from || text.len() < to {
            return Ok(None);
        }
        Ok(Some(self.take(kept, from, to, mode, text)?))
    }

    /// Puts a text out, unless outputs are ignored.
    fn put_if(&mut self, alloc: Global, kept: Kept, put: &str, mode: Mode) -> Mem<Option<Kept>>
        ensures { IfOk result (λ next. (tokens : List Token) (novar : NoVar)
            (names : List (List ℕ)) →
            IsFollowed tokens mode novar names self.old self.new kept (Event.Put put.now) next) }
    {
        match mode {
            Mode::Ignore => Ok(Some(kept)),
            Mode::Merge | Mode::Replace => Ok(Some(self.put_text(alloc, kept, put)?)),
        }
    }

    /// Answers an output that names a variable, unless outputs are ignored.
    fn answer_if(
        &mut self,
        alloc: Global,
        kept: Kept,
        asked: &str,
        names: &[Txt],
        mode: Mode,
        novar: NoVar,
    ) -> Mem<Option<Kept>>
        ensures { IfOk result (λ next. (tokens : List Token) →
            IsFollowed tokens mode novar names.now self.old self.new kept
            (Event.Value asked.now) next) }
    {
        match mode {
            Mode::Ignore => Ok(Some(kept)),
            Mode::Merge | Mode::Replace => self.answer(alloc, kept, asked, names, novar),
        }
    }
}
