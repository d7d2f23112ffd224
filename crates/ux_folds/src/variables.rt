//! Variables: where inputs begin and end, and where outputs are opened and closed.

ghost use Rattle.std.specs.Prelude.{◌≡◌, ◌<◌, ◌≤◌, ℕ, List, IfOk, Some, length, set, slice_get};
ghost use Rattle.ux_tokens.specs.Tokens.{Token};
ghost use Rattle.ux_outputs.specs.Variables.{Variable, input, named_by, output};
ghost use Rattle.ux_outputs.specs.Rendering.{State, after_begin, after_end, changing};
ghost use Rattle.ux_folds.specs.Tables.{AreTables, IsGrown, IsKnown, IsNothing, IsVariable, Stands, Turns, texts_of};

use crate::kept::{Kept, Known, nothing_known};
use crate::names::{output_name, place_of};
use crate::tables::Tables;
use crate::taking::{after_space, between};
use std::alloc::Global;
use ux_base::{Mem, Txt};
use ux_tokens::Text;

impl Tables {
    /// Begins an input or opens an output.
    pub(crate) fn begin(
        &mut self,
        alloc: Global,
        kept: Kept,
        name: &str,
        names: &[Txt],
    ) -> Mem<Kept>
        ensures { IfOk result (λ next. (tokens : List Token) → Turns tokens names.now
            self.old self.new kept (λ state. after_begin state (named_by name.now)) next) }
    {
        match output_name(name) {
            Some(output) => self.open(alloc, kept, output, names),
            None => self.note(alloc, kept, name, names),
        }
    }

    /// Notes the position for an input.
    fn note(&mut self, alloc: Global, kept: Kept, name: &str, names: &[Txt]) -> Mem<Kept>
        ensures { IfOk result (λ next. (tokens : List Token) → Turns tokens names.now
            self.old self.new kept (λ state. after_begin state (input name.now)) next) }
    {
        let Some(place) = place_of(names, name) else {
            return Ok(kept);
        };
        let known = self.known(alloc, kept, place)?;
        let noted = Some(kept.position);
        self.know(alloc, kept, place, Known { noted, ..known })
    }

    /// Opens an output.
    fn open(&mut self, alloc: Global, kept: Kept, name: &str, names: &[Txt]) -> Mem<Kept>
        ensures { IfOk result (λ next. (tokens : List Token) → Turns tokens names.now
            self.old self.new kept (λ state. after_begin state (output name.now)) next) }
    {
        let Some(place) = place_of(names, name) else {
            return Ok(kept);
        };
        let known = self.known(alloc, kept, place)?;
        let collected = Some(0);
        self.know(alloc, kept, place, Known { collected, ..known })
    }

    /// Ends an input or an output.
    pub(crate) fn end(
        &mut self,
        alloc: Global,
        kept: Kept,
        name: &str,
        names: &[Txt],
        text: &Text,
    ) -> Mem<Kept>
        requires { kept.position ≤ length text.now }
        ensures { IfOk result (Turns text.now names.now self.old self.new kept
            (λ state. after_end text.now state (named_by name.now))) }
    {
        match output_name(name) {
            Some(output) => self.close(alloc, kept, output, names, text),
            None => self.end_input(alloc, kept, name, names, text),
        }
    }

    /// Ends an input.
    fn end_input(
        &mut self,
        alloc: Global,
        kept: Kept,
        name: &str,
        names: &[Txt],
        text: &Text,
    ) -> Mem<Kept>
        requires { kept.position ≤ length text.now }
        ensures { IfOk result (Turns text.now names.now self.old self.new kept
            (λ state. after_end text.now state (input name.now))) }
    {
        let Some(place) = place_of(names, name) else {
            return Ok(kept);
        };
        let known = self.known(alloc, kept, place)?;
        let Some(begin) = known.noted else {
            return Ok(kept);
        };
        let value = self.push_text(0, between(text, after_space(text, begin), kept.position))?;
        self.know(
            alloc,
            kept,
            place,
            Known {
                value: Some(value),
                ..known
            },
        )
    }

    /// Closes an output.
    fn close(
        &mut self,
        alloc: Global,
        kept: Kept,
        name: &str,
        names: &[Txt],
        text: &Text,
    ) -> Mem<Kept>
        ensures { IfOk result (Turns text.now names.now self.old self.new kept
            (λ state. after_end text.now state (output name.now))) }
    {
        let Some(place) = place_of(names, name) else {
            return Ok(kept);
        };
        let known = self.known(alloc, kept, place)?;
        let Some(collected) = known.collected else {
            return Ok(kept);
        };
        self.know(
            alloc,
            kept,
            place,
            Known {
                collected: None,
                value: Some(collected),
                ..known
            },
        )
    }

    /// The number of the list in which nothing is known of any variable.
    pub(crate) fn nothing(&mut self, names: &[Txt]) -> Mem<usize>
        ensures { IfOk result (λ number. AreTables names.now self.old →
            IsGrown names.now self.old self.new × IsNothing names.now self.new number) }
    {
        let mut number = 0;
        for _name in names {
            number = self.variables.push(number, nothing_known())?;
        }
        Ok(number)
    }

    /// What is known of the variable at a place.
    pub(crate) fn known(&self, alloc: Global, kept: Kept, place: usize) -> Mem<Known>
        ensures { IfOk result (λ known. (tokens : List Token) (names : List (List ℕ)) →
            IsKnown tokens names self.now kept place known) }
    {
        let knowns = self.variables.items(alloc, kept.variables)?;
        match knowns.get(place) {
            Some(known) => Ok(*known),
            None => Ok(nothing_known()),
        }
    }

    /// What is kept where something else is known of the variable at a place.
    fn know(&mut self, alloc: Global, kept: Kept, place: usize, known: Known) -> Mem<Kept>
        ensures { IfOk result (λ next. (tokens : List Token) (names : List (List ℕ))
            (name : List ℕ) (change : Variable → Variable) (state : State) →
            AreTables names self.old → Stands tokens names self.old kept state →
            slice_get names place ≡ Some name →
            IsVariable (texts_of self.old) known (change (state.variables name)) →
            IsGrown names self.old self.new
            × Stands tokens names self.new next (changing name change state)) }
    {
        let mut knowns = self.variables.items(alloc, kept.variables)?;
        set_at(&mut knowns, place, known);
        let variables = self.variables.extend(0, knowns.as_slice())?;
        Ok(Kept { variables, ..kept })
    }
}

/// Puts at a place what is known there, where the list is that long.
fn set_at(knowns: &mut Vec<Known>, place: usize, known: Known)
    ensures { place < length knowns.old.items →
        knowns.new.items ≡ set knowns.old.items place known }
{
    if place < knowns.len() {
        knowns[place] = known;
    }
}
