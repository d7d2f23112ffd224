//! The lists of an automaton that satisfy a rule.

ghost use Rattle.std.specs.Prelude.{◌≡◌, ◌<◌, ℕ, List, [], IfOk, IfSome, IfNone, length};
ghost use Rattle.ux_subsets.specs.declared.automaton.Link.{Link};
ghost use Rattle.ux_subsets.specs.Paths.{IsAscending, IsLeft, IsNormal, Spells};
ghost use Rattle.ux_monitor.specs.Rules.{SatisfiesBy};
ghost use Rattle.ux_monitor.specs.Monitors.{kind_at, rule_of, tests_of};
ghost use Rattle.ux_monitor.specs.Remembering.{IsRemembered, kinds_in};
ghost use Rattle.ux_monitor.specs.Naming.{StandsBeside};

use crate::memory::Memory;
use crate::monitor::Monitor;
use crate::steps::Steps;
use std::alloc::Global;
use std::marker::Model;
use ux_base::Mem;
use ux_subsets::{Automaton, Link, Machine, apply, apply_again};

/// An automaton of the lists that satisfy the monitor's rule, among those that the links spell from
/// state 0 to the last state. The readings of the links are numbers of `kinds`, which has the kind of
/// each. None where no list satisfies the rule.
pub fn keep_satisfying(
    alloc: Global,
    monitor: &mut Monitor,
    kinds: &[usize],
    links: &[Link],
    last: usize,
) -> Mem<Option<Automaton>>
    requires some { 0 < last }
    requires ascending { IsAscending last links.now }
    ensures left { IfOk result (λ answer. IfSome answer (λ left.
        IsLeft (SatisfiesBy monitor.old.rule (tests_of monitor.old.kinds kinds.now)) last links.now
        left.last left.links.items)) }
    ensures nothing { IfOk result (λ answer. IfNone answer ((readings : List ℕ) →
        Spells links.now 0 last readings →
        SatisfiesBy monitor.old.rule (tests_of monitor.old.kinds kinds.now) readings → ⊥)) }
    ensures same { monitor.new ≡ monitor.old }
{
    let memory = monitor.take_memory(alloc);
    let (answer, memory) = keep(
        alloc,
        monitor.steps(),
        monitor.ends(),
        monitor.kinds(),
        memory,
        kinds,
        links,
        last,
    )?;
    monitor.remember(memory);
    Ok(answer)
}

/// What `keep_satisfying` keeps of an automaton that it answered, of this rule or another. Where
/// that is all of it, the answer is the automaton itself.
pub fn keep_satisfying_again(
    alloc: Global,
    monitor: &mut Monitor,
    kinds: &[usize],
    automaton: Automaton,
) -> Mem<Option<Automaton>>
    requires { IsNormal automaton.last automaton.links.items }
    ensures left { IfOk result (λ answer. IfSome answer (λ left.
        IsLeft (SatisfiesBy monitor.old.rule (tests_of monitor.old.kinds kinds.now)) automaton.last
        automaton.links.items left.last left.links.items)) }
    ensures nothing { IfOk result (λ answer. IfNone answer ((readings : List ℕ) →
        Spells automaton.links.items 0 automaton.last readings →
        SatisfiesBy monitor.old.rule (tests_of monitor.old.kinds kinds.now) readings → ⊥)) }
    ensures same { monitor.new ≡ monitor.old }
{
    let memory = monitor.take_memory(alloc);
    let (answer, memory) = keep_again(
        alloc,
        monitor.steps(),
        monitor.ends(),
        monitor.kinds(),
        memory,
        kinds,
        automaton,
    )?;
    monitor.remember(memory);
    Ok(answer)
}

/// The automaton of the lists that satisfy the rule, and what is remembered then.
fn keep(
    alloc: Global,
    steps: &Steps,
    ends: &[usize],
    kinds: &[Vec<u32>],
    memory: Memory,
    of: &[usize],
    links: &[Link],
    last: usize,
) -> Mem<(Option<Automaton>, Memory)>
    requires some { 0 < last }
    requires ascending { IsAscending last links.now }
    requires right { IsRemembered steps.now ends.now (kinds_in kinds.now) memory }
    ensures left { IfOk result (λ kept. IfSome kept.0 (λ left. IsLeft (SatisfiesBy
        (rule_of steps.now ends.now) (tests_of (kinds_in kinds.now) of.now)) last links.now
        left.last left.links.items)) }
    ensures nothing { IfOk result (λ kept. IfNone kept.0 ((readings : List ℕ) →
        Spells links.now 0 last readings → SatisfiesBy (rule_of steps.now ends.now)
        (tests_of (kinds_in kinds.now) of.now) readings → ⊥)) }
    ensures right { IfOk result (λ kept.
        IsRemembered steps.now ends.now (kinds_in kinds.now) kept.1) }
{
    let mut watch = Watch {
        steps,
        ends,
        kinds,
        of,
        memory,
    };
    let answer = apply(alloc, &mut watch, links, last)?;
    let Watch { memory, .. } = watch;
    Ok((answer, memory))
}

/// What `keep` keeps of an automaton that it answered.
fn keep_again(
    alloc: Global,
    steps: &Steps,
    ends: &[usize],
    kinds: &[Vec<u32>],
    memory: Memory,
    of: &[usize],
    automaton: Automaton,
) -> Mem<(Option<Automaton>, Memory)>
    requires normal { IsNormal automaton.last automaton.links.items }
    requires right { IsRemembered steps.now ends.now (kinds_in kinds.now) memory }
    ensures left { IfOk result (λ kept. IfSome kept.0 (λ left. IsLeft (SatisfiesBy
        (rule_of steps.now ends.now) (tests_of (kinds_in kinds.now) of.now)) automaton.last
        automaton.links.items left.last left.links.items)) }
    ensures nothing { IfOk result (λ kept. IfNone kept.0 ((readings : List ℕ) →
        Spells automaton.links.items 0 automaton.last readings →
        SatisfiesBy (rule_of steps.now ends.now)
        (tests_of (kinds_in kinds.now) of.now) readings → ⊥)) }
    ensures right { IfOk result (λ kept.
        IsRemembered steps.now ends.now (kinds_in kinds.now) kept.1) }
{
    let mut watch = Watch {
        steps,
        ends,
        kinds,
        of,
        memory,
    };
    let answer = apply_again(alloc, &mut watch, automaton)?;
    let Watch { memory, .. } = watch;
    Ok((answer, memory))
}

/// The monitor over readings, of each of which the kind is known.
#[derive(Drop)]
struct Watch<'a> {
    steps: &'a Steps,
    ends: &'a [usize],
    kinds: &'a [Vec<u32>],
    of: &'a [usize],
    memory: Memory,
}

impl<'a> Model for Watch<'a> {
    ghost use Rattle.ux_monitor.specs.Monitors.{tests_of, watched};
    ghost use Rattle.ux_monitor.specs.Remembering.{IsRemembered, kinds_in};
    ghost use Rattle.ux_monitor.specs.Naming.{Watching};

    ghost Value = { Watching };

    ghost view = { λ watch. record {
      over = watched watch.steps.now watch.ends.now (kinds_in watch.kinds.now);
      table = tests_of (kinds_in watch.kinds.now) watch.of.now;
      states = watch.memory.states.keys;
    } };

    ghost invariant = { λ watch. IsRemembered watch.steps.now watch.ends.now
        (kinds_in watch.kinds.now) watch.memory };
}

impl<'a> Machine for Watch<'a> {
    ghost stands = { StandsBeside };

    ghost satisfies = { λ watch. SatisfiesBy watch.over.rule watch.table };

    fn begin(&mut self, alloc: Global) -> Mem<usize> {
        let state = self.memory.begin(alloc, self.steps, self.ends)?;
        Ok(state)
    }

    fn step(&mut self, alloc: Global, state: usize, reading: u32) -> Mem<usize> {
        let Some(kind) = kind_in(self.kinds, self.of, reading) else {
            let next = self
                .memory
                .step_by(alloc, self.steps, self.ends, state, &[])?;
            return Ok(next);
        };
        let next = self
            .memory
            .step(alloc, self.steps, self.ends, self.kinds, state, kind)?;
        Ok(next)
    }

    fn accepts(&self, state: usize) -> bool {
        self.memory.accepts(state)
    }
}

/// The number of the reading's kind, if it has one.
pub(crate) fn kind_in(kinds: &[Vec<u32>], of: &[usize], reading: u32) -> Option<usize>
    ensures known { IfSome result (λ kind. kind < length kinds.now) }
    ensures some { IfSome result (λ kind. kind_at (tests_of (kinds_in kinds.now) of.now) reading
        ≡ kind_at (kinds_in kinds.now) kind) }
    ensures none { IfNone result (kind_at (tests_of (kinds_in kinds.now) of.now) reading ≡ []) }
{
    let kind = *of.get(reading as usize)?;
    if kind < kinds.len() {
        return Some(kind);
    }
    None
}
