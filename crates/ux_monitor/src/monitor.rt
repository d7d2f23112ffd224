//! The monitor of a rule.
//!
//! It knows the rule and kinds of readings by numbers, and remembers what it saw and where kinds of
//! readings led. Contracts see it as the rule and the kinds.

ghost use Rattle.std.specs.Prelude.{◌≡◌, ◌<◌, ◌↔◌, ◌⊎◌, ℕ, [], Contains, IfOk, OnOk, length};
ghost use Rattle.ux_monitor.specs.Monitors.{rule_of, kind_at, IsKindOf, AreMore};
ghost use Rattle.ux_monitor.specs.Remembering.{IsRemembered, kinds_in};

use crate::memory::Memory;
use crate::rule::Step;
use crate::steps::Steps;
use crate::watching::set_of;
use indexmap::IndexSet;
use std::alloc::Global;
use std::collections::BTreeSet;
use std::marker::Model;
use std::mem;
use ux_base::Mem;

/// What tells which lists of readings satisfy a rule.
#[derive(Drop)]
pub struct Monitor {
    steps: Steps,
    ends: Vec<usize>,
    /// The tests of each kind, in ascending order, each once.
    kinds: IndexSet<Vec<u32>>,
    memory: Memory,
}

impl Model for Monitor {
    ghost use Rattle.ux_monitor.specs.Monitors.{rule_of, Monitored};
    ghost use Rattle.ux_monitor.specs.Remembering.{IsRemembered, kinds_in};

    ghost Value = { Monitored };

    ghost view = { λ monitor. record {
      rule = rule_of monitor.steps monitor.ends.items;
      kinds = kinds_in monitor.kinds.keys;
    } };

    ghost invariant = { λ monitor. IsRemembered monitor.steps monitor.ends.items
        (kinds_in monitor.kinds.keys) monitor.memory };
}

impl Monitor {
    /// The monitor of the rule with these steps, which begin at place 0, and these ends. It knows no
    /// kind of readings yet. Takes a step each, and memory for each place up to the greatest.
    pub fn new(alloc: Global, steps: &[Step], ends: &[usize]) -> Mem<Monitor>
        ensures rule { IfOk result (λ monitor. monitor.rule ≡ rule_of steps.now ends.now) }
        ensures kinds { IfOk result (λ monitor. monitor.kinds ≡ []) }
    {
        let steps = Steps::new(alloc, steps)?;
        let ends = Vec::from_slice(alloc, ends)?;
        Ok(Monitor {
            steps,
            ends,
            kinds: IndexSet::new(alloc),
            memory: Memory::new(alloc),
        })
    }

    /// The number of the kind of readings that pass exactly these tests, each named once or more.
    /// Takes the tests, times a logarithm of their number.
    pub fn kind_of(&mut self, alloc: Global, tests: &[u32]) -> Mem<usize>
        ensures rule { self.new.rule ≡ self.old.rule }
        ensures more { OnOk result (AreMore self.old.kinds self.new.kinds) }
        ensures kind { IfOk result (IsKindOf self.new.kinds tests.now) }
    {
        let kind = ascending(alloc, tests)?;
        let number = number_of(&mut self.kinds, kind)?;
        Ok(number)
    }

    /// The rule's steps.
    pub(crate) fn steps(&self) -> &Steps
        ensures { result.now ≡ self.now.rule.steps }
    {
        &self.steps
    }

    /// The rule's ends.
    pub(crate) fn ends(&self) -> &[usize]
        ensures { result.now ≡ self.now.rule.ends }
    {
        self.ends.as_slice()
    }

    /// The tests of each kind.
    pub(crate) fn kinds(&self) -> &[Vec<u32>]
        ensures { kinds_in result.now ≡ self.now.kinds }
    {
        self.kinds.as_slice()
    }

    /// Takes out what is remembered, and nothing where it has become too much.
    pub(crate) fn take_memory(&mut self, alloc: Global) -> Memory
        ensures right { IsRemembered self.old.rule.steps self.old.rule.ends self.old.kinds result }
        ensures same { self.new ≡ self.old }
    {
        let memory = mem::replace(&mut self.memory, Memory::new(alloc));
        if memory.is_full() {
            return Memory::new(alloc);
        }
        memory
    }

    /// Remembers this in place of what was remembered.
    pub(crate) fn remember(&mut self, memory: Memory)
        requires { IsRemembered self.old.rule.steps self.old.rule.ends self.old.kinds memory }
        ensures { self.new ≡ self.old }
    {
        self.memory = memory;
    }
}

/// The tests in ascending order, each once.
fn ascending(alloc: Global, tests: &[u32]) -> Mem<Vec<u32>>
    ensures { IfOk result (λ kind. (t : ℕ) → Contains kind.items t ↔ Contains tests.now t) }
{
    let set = set_of(alloc, tests)?;
    let kind = listed(alloc, &set)?;
    Ok(kind)
}

/// The tests of the set in ascending order.
fn listed(alloc: Global, set: &BTreeSet<u32>) -> Mem<Vec<u32>>
    ensures { IfOk result (λ list. list.items ≡ set.now.keys) }
{
    let list: Vec<u32> = set.iter().copied().collect(alloc)?;
    Ok(list)
}

/// The number of the kind, which gets one if it has none.
fn number_of(kinds: &mut IndexSet<Vec<u32>>, kind: Vec<u32>) -> Mem<usize>
    ensures more { AreMore (kinds_in kinds.old.keys) (kinds_in kinds.new.keys) }
    ensures inside { IfOk result (λ number. number < length (kinds_in kinds.new.keys)) }
    ensures tests { IfOk result (λ number.
        kind_at (kinds_in kinds.new.keys) number ≡ kind.items) }
{
    let (number, _is_new) = kinds.insert_full(kind)?;
    Ok(number)
}
