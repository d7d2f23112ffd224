//! A rule among several that are watched at once.

ghost use Rattle.std.specs.Prelude.{◌≡◌, IfOk, get_or};
ghost use Rattle.ux_monitor.specs.declared.watching.Seen.{Seen as TheSeen};
ghost use Rattle.ux_monitor.specs.Monitors.{Monitored, kind_at};
ghost use Rattle.ux_monitor.specs.Remembering.{BeginsAs, IsAt, KeepsNumbers, LeadsTo};
ghost use Rattle.ux_monitor.specs.Parts.{IsRememberedOf, table_of};

use crate::keeping::kind_in;
use crate::memory::Memory;
use crate::monitor::Monitor;
use std::alloc::Global;
use std::marker::Model;
use ux_base::Mem;

/// A rule among several: its monitor, and for each reading the number of its kind.
#[derive(Drop)]
pub struct Part<'a> {
    monitor: &'a Monitor,
    of: &'a [usize],
}

impl<'a> Model for Part<'a> {
    ghost use Rattle.ux_monitor.specs.Parts.{RulePart};

    ghost Value = { RulePart };

    ghost view = { λ part. record { over = part.monitor.now; of = part.of.now } };
}

impl<'a> Part<'a> {
    /// The monitor's rule, over readings of these kinds.
    pub fn new(monitor: &'a Monitor, of: &'a [usize]) -> Part<'a>
        ensures over { result.over ≡ monitor.now }
        ensures of { result.of ≡ of.now }
    {
        Part { monitor, of }
    }

    /// The kind of the reading.
    pub(crate) fn kind(&self, reading: usize) -> usize
        ensures { result ≡ get_or self.now.of reading 0 }
    {
        number_at(self.of, reading)
    }

    /// The number of what is seen before any reading.
    pub(crate) fn begin(&self, alloc: Global, memory: &mut Memory) -> Mem<usize>
        requires { IsRememberedOf self.now memory.old }
        ensures right { IsRememberedOf self.now memory.new }
        ensures kept { KeepsNumbers memory.old.states.keys memory.new.states.keys }
        ensures begun { IfOk result (λ number. (seen : TheSeen) ×
            IsAt memory.new.states.keys number seen × BeginsAs self.now.over.rule.steps seen) }
    {
        memory.begin(alloc, self.monitor.steps(), self.monitor.ends())
    }

    /// The number of what is seen after one more reading.
    pub(crate) fn step(
        &self,
        alloc: Global,
        memory: &mut Memory,
        seen: usize,
        reading: u32,
    ) -> Mem<usize>
        requires { IsRememberedOf self.now memory.old }
        ensures right { IsRememberedOf self.now memory.new }
        ensures kept { KeepsNumbers memory.old.states.keys memory.new.states.keys }
        ensures stepped { IfOk result (λ number. (before : TheSeen) →
            IsAt memory.old.states.keys seen before → (later : TheSeen)
            × IsAt memory.new.states.keys number later × LeadsTo self.now.over.rule.steps
            self.now.over.rule.ends (kind_at (table_of self.now) reading) before later) }
    {
        let steps = self.monitor.steps();
        let ends = self.monitor.ends();
        let kinds = self.monitor.kinds();
        let Some(kind) = kind_in(kinds, self.of, reading) else {
            return memory.step_by(alloc, steps, ends, seen, &[]);
        };
        memory.step(alloc, steps, ends, kinds, seen, kind)
    }
}

/// The number at the index.
fn number_at(numbers: &[usize], index: usize) -> usize
    ensures { result ≡ get_or numbers.now index 0 }
{
    match numbers.get(index) {
        Some(number) => *number,
        None => 0,
    }
}
