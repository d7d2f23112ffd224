//! What a monitor remembers: what it saw, each once, and which readings lead from one to the next.
//!
//! All that is remembered is right of the rule alone, so it serves all sentences. A step that is
//! remembered takes a look-up; another one takes the rule's size for each thing that is owed.

ghost use Rattle.std.specs.Prelude.{◌≡◌, ◌⊎◌, ◌<◌, ◌↔◌, ℕ, List, Some, Contains, IfOk, IfSome, IsTrue, OnOk, slice_get, true, length};
ghost use Rattle.ux_monitor.specs.declared.rule.Step.{Step as TheStep};
ghost use Rattle.ux_monitor.specs.declared.watching.Seen.{Seen as TheSeen};
ghost use Rattle.ux_monitor.specs.Monitors.{kind_at};
ghost use Rattle.ux_monitor.specs.Owing.{TellsWell};
ghost use Rattle.ux_monitor.specs.Numbers.{IsSame};
ghost use Rattle.ux_monitor.specs.Remembering.{BeginsAs, IsAt, IsRemembered, KeepsNumbers, LeadsTo, kinds_in};

use crate::steps::Steps;
use crate::watching::{Seen, advance, begin};
use indexmap::{IndexMap, IndexSet};
use std::alloc::Global;
use std::hash::Hash;
use ux_base::Mem;

/// As much is kept from one automaton to the next: places in what was seen, and steps, of some
/// tens of bytes each.
const MOST_KEPT: usize = 1_048_576;

/// A step of the monitor: the number of what was seen, and that of the reading's kind.
#[derive(Clone, Copy, PartialEq, Eq, Hash)]
pub struct Taken {
    pub seen: usize,
    pub kind: usize,
}

/// What was seen, by numbers, and where readings led.
#[derive(Drop)]
pub struct Memory {
    pub states: IndexSet<Seen>,
    /// The number of what is seen before any reading.
    pub first: Option<usize>,
    /// The numbers of what is seen after steps.
    pub next: IndexMap<Taken, usize>,
    /// How many places and steps were remembered.
    pub size: usize,
}

impl Memory {
    /// Nothing is remembered. Takes no memory.
    pub fn new(alloc: Global) -> Memory
        ensures { (steps : List TheStep) (ends : List ℕ) (kinds : List (List ℕ)) →
            IsRemembered steps ends kinds result }
    {
        Memory {
            states: IndexSet::new(alloc),
            first: None,
            next: IndexMap::new(alloc),
            size: 0,
        }
    }

    /// Whether more is remembered than is kept from one automaton to the next.
    pub fn is_full(&self) -> bool {
        self.size > MOST_KEPT
    }

    /// The number of what is seen before any reading.
    pub fn begin(&mut self, alloc: Global, steps: &Steps, ends: &[usize]) -> Mem<usize>
        ensures right { (kinds : List (List ℕ)) →
            IsRemembered steps.now ends.now kinds self.old →
            IsRemembered steps.now ends.now kinds self.new }
        ensures kept { KeepsNumbers self.old.states.keys self.new.states.keys }
        ensures begun { IfOk result (λ number. (kinds : List (List ℕ)) →
            IsRemembered steps.now ends.now kinds self.old →
            (seen : TheSeen) × IsAt self.new.states.keys number seen × BeginsAs steps.now seen) }
    {
        if let Some(number) = self.first {
            return Ok(number);
        }
        let seen = begin(alloc, steps, ends)?;
        self.size = self.size.saturating_add(weight(&seen));
        let number = number_of(&mut self.states, seen)?;
        self.first = Some(number);
        Ok(number)
    }

    /// The number of what is seen after one more reading, of the kind with the number.
    pub fn step(
        &mut self,
        alloc: Global,
        steps: &Steps,
        ends: &[usize],
        kinds: &[Vec<u32>],
        seen: usize,
        kind: usize,
    ) -> Mem<usize>
        requires right { IsRemembered steps.now ends.now (kinds_in kinds.now) self.old }
        requires known { kind < length kinds.now }
        ensures right { IsRemembered steps.now ends.now (kinds_in kinds.now) self.new }
        ensures kept { KeepsNumbers self.old.states.keys self.new.states.keys }
        ensures stepped { IfOk result (λ number. (before : TheSeen) →
            IsAt self.old.states.keys seen before → (later : TheSeen)
            × IsAt self.new.states.keys number later
            × LeadsTo steps.now ends.now (kind_at (kinds_in kinds.now) kind) before later) }
    {
        let taken = Taken { seen, kind };
        if let Some(number) = at(&self.next, taken) {
            return Ok(*number);
        }
        if self.states.len() <= seen {
            return Ok(0);
        }
        let number = self.step_by(alloc, steps, ends, seen, kinds[kind].as_slice())?;
        self.size = self.size.saturating_add(1);
        put_at(&mut self.next, taken, number)?;
        Ok(number)
    }

    /// The number of what is seen after one more reading, which passes just these tests. It isn't
    /// remembered that the reading leads there.
    pub fn step_by(
        &mut self,
        alloc: Global,
        steps: &Steps,
        ends: &[usize],
        seen: usize,
        tests: &[u32],
    ) -> Mem<usize>
        ensures right { (kinds : List (List ℕ)) →
            IsRemembered steps.now ends.now kinds self.old →
            IsRemembered steps.now ends.now kinds self.new }
        ensures next { self.new.next ≡ self.old.next }
        ensures kept { KeepsNumbers self.old.states.keys self.new.states.keys }
        ensures stepped { IfOk result (λ number. (before : TheSeen) →
            IsAt self.old.states.keys seen before → (later : TheSeen)
            × IsAt self.new.states.keys number later
            × LeadsTo steps.now ends.now tests.now before later) }
    {
        let Some(before) = self.states.get_index(seen) else {
            return Ok(0);
        };
        let later = advance(alloc, steps, ends, before, tests)?;
        self.size = self.size.saturating_add(weight(&later));
        let number = number_of(&mut self.states, later)?;
        Ok(number)
    }

    /// Whether the lists after which this is seen satisfy the rule.
    pub fn accepts(&self, seen: usize) -> bool
        ensures { (before : TheSeen) → IsAt self.now.states.keys seen before →
            IsTrue result ↔ IsTrue before.is_accepted }
    {
        match self.states.get_index(seen) {
            Some(before) => before.is_accepted,
            None => false,
        }
    }
}

/// How many places there are in what was seen, and one for itself.
fn weight(seen: &Seen) -> usize {
    let mut weight = seen.ifs.len().saturating_add(seen.thens.len());
    for one in &seen.owed {
        weight = weight
            .saturating_add(one.ifs.len())
            .saturating_add(one.thens.len());
    }
    weight.saturating_add(1)
}

/// The number of what is seen: that of an equal one, or the next.
fn number_of(states: &mut IndexSet<Seen>, seen: Seen) -> Mem<usize>
    ensures same { IfOk result (λ number. (state : TheSeen) ×
        IsAt states.new.keys number state × IsSame seen state) }
    ensures kept { KeepsNumbers states.old.keys states.new.keys }
    ensures only { (state : TheSeen) → Contains states.new.keys state →
        Contains states.old.keys state ⊎ (state ≡ seen) }
{
    let (number, _is_new) = states.insert_full(seen)?;
    Ok(number)
}

/// The value at a key.
fn at<K: Eq + Hash + Copy, V>(map: &IndexMap<K, V>, key: K) -> Option<&V>
    requires { (a b : K) → K.eq a b ≡ true → a ≡ b }
    ensures { IfSome result (λ value. Contains map.now.entries (key, value.now)) }
{
    map.get(&key)
}

/// Puts a value at a key.
fn put_at<K: Eq + Hash + Drop, V: Drop>(map: &mut IndexMap<K, V>, key: K, value: V) -> Mem<()>
    requires { (a b : K) → K.eq a b ≡ true → a ≡ b }
    ensures { (k : K) (v : V) → Contains map.new.entries (k, v) →
        Contains map.old.entries (k, v) ⊎ ((k ≡ key) × (v ≡ value)) }
{
    map.insert(key, value)?;
    Ok(())
}
