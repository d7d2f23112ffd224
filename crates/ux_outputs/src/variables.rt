//! Variables: where inputs begin and end, and where outputs are opened and closed.

ghost use Rattle.std.specs.Prelude.{◌≡◌, List, OnOk};
ghost use Rattle.ux_base.specs.declared.settings.Mode.{Mode};
ghost use Rattle.ux_tokens.specs.Tokens.{Token};
ghost use Rattle.ux_outputs.specs.Variables.{input, named_by, output};
ghost use Rattle.ux_outputs.specs.Rendering.{after_begin, after_end};
ghost use Rattle.ux_outputs.specs.Kept.{IsKept, state_of};

use crate::known::{Known, Place};
use crate::names::output_name;
use crate::rendering::Rendering;
use crate::table::{known_at, set_known};
use crate::taking::after_space;
use ux_base::{Mem, Mode};
use ux_tokens::Text;

impl<'a> Rendering<'a> {
    /// Begins an input or opens an output.
    pub(crate) fn begin(&mut self, name: &'a str) -> Mem<()>
        ensures kept { (tokens : List Token) → IsKept tokens self.old →
            OnOk result (IsKept tokens self.new) }
        ensures state { (mode : Mode) (tokens : List Token) → OnOk result (state_of mode tokens self.new
            ≡ after_begin (state_of mode tokens self.old) (named_by name.now)) }
    {
        match output_name(name) {
            Some(output) => self.open(output),
            None => self.note(name),
        }
    }

    /// Notes the position for an input.
    fn note(&mut self, name: &'a str) -> Mem<()>
        ensures kept { (tokens : List Token) → IsKept tokens self.old →
            OnOk result (IsKept tokens self.new) }
        ensures state { (mode : Mode) (tokens : List Token) → OnOk result (state_of mode tokens self.new
            ≡ after_begin (state_of mode tokens self.old) (input name.now)) }
    {
        let known = known_at(&self.table, name);
        let noted = Some(self.position);
        set_known(&mut self.table, name, Known { noted, ..known })
    }

    /// Opens an output.
    fn open(&mut self, name: &'a str) -> Mem<()>
        ensures kept { (tokens : List Token) → IsKept tokens self.old →
            OnOk result (IsKept tokens self.new) }
        ensures state { (mode : Mode) (tokens : List Token) → OnOk result (state_of mode tokens self.new
            ≡ after_begin (state_of mode tokens self.old) (output name.now)) }
    {
        let known = known_at(&self.table, name);
        let opened = Some(self.collected.len());
        set_known(&mut self.table, name, Known { opened, ..known })?;
        self.collects = true;
        Ok(())
    }

    /// Ends an input or an output.
    pub(crate) fn end(&mut self, name: &'a str, text: &Text) -> Mem<()>
        requires kept { IsKept text.now self.old }
        ensures kept { OnOk result (IsKept text.now self.new) }
        ensures state { (mode : Mode) → OnOk result (state_of mode text.now self.new
            ≡ after_end text.now (state_of mode text.now self.old) (named_by name.now)) }
    {
        match output_name(name) {
            Some(output) => self.close(output, text),
            None => self.end_input(name, text),
        }
    }

    /// Ends an input: its value is told by positions.
    fn end_input(&mut self, name: &'a str, text: &Text) -> Mem<()>
        requires kept { IsKept text.now self.old }
        ensures kept { OnOk result (IsKept text.now self.new) }
        ensures state { (mode : Mode) → OnOk result (state_of mode text.now self.new
            ≡ after_end text.now (state_of mode text.now self.old) (input name.now)) }
    {
        let known = known_at(&self.table, name);
        match known.noted {
            Some(begin) => {
                let value = Some(Place::Tokens {
                    from: after_space(text, begin),
                    to: self.position,
                });
                set_known(&mut self.table, name, Known { value, ..known })
            }
            None => Ok(()),
        }
    }

    /// Closes an output: its value is told by its place among what was collected.
    fn close(&mut self, name: &'a str, text: &Text) -> Mem<()>
        requires kept { IsKept text.now self.old }
        ensures kept { OnOk result (IsKept text.now self.new) }
        ensures state { (mode : Mode) → OnOk result (state_of mode text.now self.new
            ≡ after_end text.now (state_of mode text.now self.old) (output name.now)) }
    {
        let known = known_at(&self.table, name);
        match known.opened {
            Some(from) => {
                let opened = None;
                let value = Some(Place::Collected {
                    from,
                    to: self.collected.len(),
                });
                set_known(
                    &mut self.table,
                    name,
                    Known {
                        opened,
                        value,
                        ..known
                    },
                )
            }
            None => Ok(()),
        }
    }
}
