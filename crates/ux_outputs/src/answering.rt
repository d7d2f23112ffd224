//! Outputs: texts that are put out, values of variables, and tests of them.

ghost use Rattle.std.specs.Prelude.{◌≡◌, IfOk, OnOk, is_some, slice_range, string_bytes, if◌then◌else◌};
ghost use Rattle.ux_base.specs.declared.settings.NoVar.{NoVar};
ghost use Rattle.ux_outputs.specs.Variables.{asked_by, value_of};
ghost use Rattle.ux_outputs.specs.Rendering.{State, after_asked, after_event, after_put, after_value};
ghost use Rattle.ux_outputs.specs.Kept.{IsKept, IsPlace, known_in, state_of, text_at};

use crate::event::Event;
use crate::known::Place;
use crate::names::before;
use crate::rendering::Rendering;
use crate::table::known_at;
use crate::taking::between;
use ux_base::{Mem, Mode, NoVar};
use ux_tokens::Text;

impl<'a> Rendering<'a> {
    /// Puts a text out, unless outputs are ignored.
    pub(crate) fn put(&mut self, put: &str, mode: Mode, text: &Text) -> Mem<()>
        requires kept { IsKept text.now self.old }
        ensures kept { OnOk result (IsKept text.now self.new) }
        ensures state { (novar : NoVar) → OnOk result
            (after_event mode novar text.now (state_of mode text.now self.old) (Event.Put put.now)
            ≡ Some (state_of mode text.now self.new)) }
    {
        match mode {
            Mode::Ignore => Ok(()),
            Mode::Merge | Mode::Replace => self.put_out(put, mode, text),
        }
    }

    /// Answers an output that names a variable, unless outputs are ignored.
    pub(crate) fn answer(&mut self, asked: &str, mode: Mode, novar: NoVar, text: &Text) -> Mem<bool>
        requires kept { IsKept text.now self.old }
        ensures kept { OnOk result (IsKept text.now self.new) }
        ensures state { IfOk result (λ goes_on.
            after_event mode novar text.now (state_of mode text.now self.old) (Event.Value asked.now)
            ≡ (if goes_on then Some (state_of mode text.now self.new) else None)) }
    {
        match mode {
            Mode::Ignore => Ok(true),
            Mode::Merge | Mode::Replace => self.answer_asked(asked, mode, novar, text),
        }
    }

    /// Answers an output that names a variable: a test, or one that puts its value out.
    fn answer_asked(&mut self, asked: &str, mode: Mode, novar: NoVar, text: &Text) -> Mem<bool>
        requires kept { IsKept text.now self.old }
        ensures kept { OnOk result (IsKept text.now self.new) }
        ensures state { IfOk result (λ goes_on.
            after_asked novar (state_of mode text.now self.old) (asked_by asked.now)
            ≡ (if goes_on then Some (state_of mode text.now self.new) else None)) }
    {
        if let Some(name) = before(asked, ".SET") {
            return Ok(self.has_value(name));
        }
        if let Some(name) = before(asked, ".UNSET") {
            return Ok(!self.has_value(name));
        }
        self.put_value(asked, mode, novar, text)
    }

    /// Whether the variable has a value.
    fn has_value(&self, name: &str) -> bool
        ensures { result ≡ is_some (known_in self.now.table name.now).value }
    {
        known_at(&self.table, name).value.is_some()
    }

    /// Puts the variable's value out. Answers whether the derivation goes on.
    fn put_value(&mut self, name: &str, mode: Mode, novar: NoVar, text: &Text) -> Mem<bool>
        requires kept { IsKept text.now self.old }
        ensures kept { OnOk result (IsKept text.now self.new) }
        ensures state { IfOk result (λ goes_on.
            after_asked novar (state_of mode text.now self.old) (value_of name.now)
            ≡ (if goes_on then Some (state_of mode text.now self.new) else None)) }
    {
        match known_at(&self.table, name).value {
            Some(place) => {
                self.put_place(place, mode, text)?;
                Ok(true)
            }
            None => Ok(goes_on_without(novar)),
        }
    }

    /// Puts out the text of a place.
    fn put_place(&mut self, place: Place, mode: Mode, text: &Text) -> Mem<()>
        requires kept { IsKept text.now self.old }
        requires place { IsPlace text.now (string_bytes self.old.collected) place }
        ensures kept { OnOk result (IsKept text.now self.new) }
        ensures state { OnOk result (state_of mode text.now self.new
            ≡ after_put (state_of mode text.now self.old)
            (text_at text.now (string_bytes self.old.collected) place)) }
    {
        match place {
            Place::Tokens { from, to } => self.put_out(between(text, from, to), mode, text),
            Place::Collected { from, to } => self.put_collected(from, to, mode, text),
        }
    }

    /// Puts a text out.
    fn put_out(&mut self, put: &str, mode: Mode, text: &Text) -> Mem<()>
        requires kept { IsKept text.now self.old }
        ensures kept { OnOk result (IsKept text.now self.new) }
        ensures state { OnOk result (state_of mode text.now self.new
            ≡ after_put (state_of mode text.now self.old) put.now) }
    {
        self.write(mode, text)?;
        self.written.push_str(put)?;
        if self.collects {
            self.collected.push_str(put)?;
        }
        Ok(())
    }

    /// Puts out a part of what was collected.
    fn put_collected(&mut self, from: usize, to: usize, mode: Mode, text: &Text) -> Mem<()>
        requires kept { IsKept text.now self.old }
        requires place { IsPlace text.now (string_bytes self.old.collected) (Place.Collected from to) }
        ensures kept { OnOk result (IsKept text.now self.new) }
        ensures state { OnOk result (state_of mode text.now self.new
            ≡ after_put (state_of mode text.now self.old)
            (slice_range (string_bytes self.old.collected) from to)) }
    {
        self.write(mode, text)?;
        self.written.push_str(&self.collected.as_str()[from..to])?;
        self.collected.extend_from_within(from..to)?;
        Ok(())
    }
}

/// Whether a derivation goes on where a variable has no value.
fn goes_on_without(novar: NoVar) -> bool
    ensures { (state : State) →
        after_value novar state None ≡ (if result then Some state else None) }
{
    match novar {
        NoVar::Nothing => true,
        NoVar::Drop => false,
    }
}
