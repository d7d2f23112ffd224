//! Outputs: texts that are put out, values of variables, and tests of them.

ghost use Rattle.std.specs.Prelude.{◌≡◌, ℕ, List, IfOk, if◌then◌else◌};
ghost use Rattle.std.specs.Str.{IsUtf8};
ghost use Rattle.ux_tokens.specs.Tokens.{Token};
ghost use Rattle.ux_outputs.specs.Variables.{value_of};
ghost use Rattle.ux_outputs.specs.Rendering.{State, after_put, after_value};
ghost use Rattle.ux_folds.specs.Tables.{IsCollected, IsCollecting, Turns};
ghost use Rattle.ux_folds.specs.Following.{IsAnswered, IsAnsweredBy};
ghost use Rattle.ux_folds.specs.Names.{asked_as};

use crate::kept::{Kept, Known};
use crate::names::{Question, asked_by, place_of};
use crate::tables::Tables;
use std::alloc::Global;
use ux_base::{Mem, NoVar, Txt};

impl Tables {
    /// Puts a text out.
    pub(crate) fn put_text(&mut self, alloc: Global, kept: Kept, put: &str) -> Mem<Kept>
        ensures { IfOk result (λ next. (tokens : List Token) (names : List (List ℕ)) →
            Turns tokens names self.old self.new kept (λ state. after_put state put.now) next) }
    {
        self.put(alloc, kept, put.as_bytes())
    }

    /// Puts the bytes of a text out: they stand in the text, and outputs that are open collect them.
    fn put(&mut self, alloc: Global, kept: Kept, put: &[u8]) -> Mem<Kept>
        ensures { IfOk result (λ next. (tokens : List Token) (names : List (List ℕ)) →
            IsUtf8 put.now → Turns tokens names self.old self.new kept (λ state. after_put state put.now) next) }
    {
        let text = self.push_bytes(kept.text, put)?;
        let variables = self.collect(alloc, kept.variables, put)?;
        Ok(Kept {
            text,
            variables,
            ..kept
        })
    }

    /// What is known of variables, where outputs that are open have collected a text.
    fn collect(&mut self, alloc: Global, variables: usize, put: &[u8]) -> Mem<usize>
        ensures { IfOk result (IsCollecting self.old self.new variables put.now) }
    {
        let knowns = self.variables.items(alloc, variables)?;
        let mut number = 0;
        for known in knowns.as_slice() {
            let collecting = self.collected(*known, put)?;
            number = self.variables.push(number, collecting)?;
        }
        Ok(number)
    }

    /// What is known of a variable, where its output has collected a text, if it is open.
    fn collected(&mut self, known: Known, put: &[u8]) -> Mem<Known>
        ensures { IfOk result (IsCollected self.old self.new known put.now) }
    {
        match known.collected {
            Some(front) => {
                let collected = Some(self.push_bytes(front, put)?);
                Ok(Known { collected, ..known })
            }
            None => Ok(known),
        }
    }

    /// Answers an output that names a variable. None where the derivation is dropped, or where the name
    /// doesn't count.
    pub(crate) fn answer(
        &mut self,
        alloc: Global,
        kept: Kept,
        asked: &str,
        names: &[Txt],
        novar: NoVar,
    ) -> Mem<Option<Kept>>
        ensures { IfOk result (λ next. (tokens : List Token) →
            IsAnswered tokens novar names.now self.old self.new kept asked.now next) }
    {
        let question = asked_by(asked);
        let Some(place) = place_of(names, question.name()) else {
            return Ok(None);
        };
        let known = self.known(alloc, kept, place)?;
        self.answer_by(alloc, kept, question, known.value, novar)
    }

    /// Answers a question of a variable by its value.
    fn answer_by(
        &mut self,
        alloc: Global,
        kept: Kept,
        question: Question<'_>,
        value: Option<usize>,
        novar: NoVar,
    ) -> Mem<Option<Kept>>
        ensures { IfOk result (IsAnsweredBy novar self.old self.new kept
            (asked_as question.entry) value) }
    {
        match question {
            Question::IsSet(_) => Ok(if_holds(kept, value.is_some())),
            Question::IsUnset(_) => Ok(if_holds(kept, value.is_none())),
            Question::Value(_) => self.put_value(alloc, kept, value, novar),
        }
    }

    /// Puts the value of a variable out, where it has one.
    fn put_value(
        &mut self,
        alloc: Global,
        kept: Kept,
        value: Option<usize>,
        novar: NoVar,
    ) -> Mem<Option<Kept>>
        ensures { IfOk result (λ next. (name : List ℕ) →
            IsAnsweredBy novar self.old self.new kept (value_of name) value next) }
    {
        match value {
            Some(number) => {
                let bytes = self.texts.items(alloc, number)?;
                Ok(Some(self.put(alloc, kept, bytes.as_slice())?))
            }
            None => Ok(if_holds(kept, goes_on_without(novar))),
        }
    }
}

/// What is kept, where the derivation goes on.
fn if_holds(kept: Kept, holds: bool) -> Option<Kept>
    ensures { result ≡ (if holds then Some kept else None) }
{
    if holds { Some(kept) } else { None }
}

/// Whether a derivation goes on where a variable has no value.
fn goes_on_without(novar: NoVar) -> bool
    ensures { (state : State) →
        after_value novar state None ≡ (if result then Some state else None) }
{
    match novar {
        NoVar::Nothing => true,
        NoVar::Drop => false,
    }
}
