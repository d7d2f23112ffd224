//! A rule with the kinds of a table's readings.

ghost use Rattle.std.specs.Prelude.{◌<◌, ◌^◌, OnOk, length};
ghost use Rattle.ux_elag.specs.Codes.{NotesAgain};
ghost use Rattle.ux_elag.specs.Prepared.{Notes};

use crate::passing::kind_of_reading;
use std::alloc::Global;
use ux_base::Mem;
use ux_monitor::Monitor;
use ux_rules::Rule;
use ux_sentence::Reading;

/// A rule, and by the number of a reading its kind: which tests of the rule it passes.
#[derive(Drop)]
pub(crate) struct PreparedRule {
    pub rule: Rule,
    pub monitor: Monitor,
    pub kinds: Vec<usize>,
}

impl PreparedRule {
    /// Adds the kind of the next reading.
    pub(crate) fn note(&mut self, alloc: Global, reading: &Reading) -> Mem<()>
        requires { length self.old.rule.steps < 2 ^ 32 }
        ensures { OnOk result (Notes reading.now self.old self.new) }
    {
        let kind = kind_of_reading(alloc, self.rule.steps(), &mut self.monitor, reading)?;
        self.kinds.push(kind)?;
        Ok(())
    }

    /// Adds the kind of an earlier reading once more.
    pub(crate) fn note_again(&mut self, like: usize) -> Mem<()>
        requires { like < length self.old.kinds.items }
        ensures { OnOk result (NotesAgain like self.old self.new) }
    {
        let kind = self.kinds[like];
        self.kinds.push(kind)?;
        Ok(())
    }
}
