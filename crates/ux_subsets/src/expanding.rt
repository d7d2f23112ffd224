//! The links of one set.

ghost use Rattle.std.specs.Prelude.{◌≡◌, ◌≢◌, ℕ, ◌<◌, ◌≤◌, ◌↔◌, ◌⊎◌, List, [], ◌∷◌, ◌++◌, IfOk, OnOk, IsTrue, Contains, length};
ghost use Rattle.std.specs.List.Sorted.{IsNonDecreasingBy, IsStrictlyIncreasing};
ghost use Rattle.ux_subsets.specs.declared.automaton.Link.{Link};
ghost use Rattle.ux_subsets.specs.declared.departures.Step.{Step};
ghost use Rattle.ux_subsets.specs.declared.sets.Waiting.{Waiting};
ghost use Rattle.ux_subsets.specs.declared.sets.Over.{Over};
ghost use Rattle.ux_subsets.specs.Machines.{Grows};
ghost use Rattle.ux_subsets.specs.Paths.{IsAscending};
ghost use Rattle.ux_subsets.specs.Departures.{AreByStart, AreSteps, LeadsTo, AreUpTo};
ghost use Rattle.ux_subsets.specs.Building.{states_of, over_at, LeadsFrom, AreNew, IsExpansion};

use crate::departures::{Departures, Step, row};
use crate::machine::Machine;
use crate::runs::{gathered, leads_to, run_end};
use crate::sets::{Over, Set, Waiting, is_nothing};
use std::alloc::Global;
use ux_base::Mem;

/// Gives the set all its links: those that are over, and those that wait. Takes a step for each
/// link that leaves one of its states, and a step of the machine a reading; where there are several
/// states, it sorts their links. False if a path is over that isn't wanted.
pub(crate) fn expand<M: Machine>(
    alloc: Global,
    machine: &mut M,
    table: &Departures,
    set: &Set,
    from: u32,
    last: u32,
    waiting: &mut Vec<Waiting>,
    overs: &mut Vec<Over>,
) -> Mem<bool>
    ensures grows { OnOk result (Grows (M.stands machine.old) (M.stands machine.new)
        (M.satisfies machine.old) (M.satisfies machine.new)) }
    ensures expanded { OnOk result ((source : List Link) →
        AreByStart source table.now.steps.items table.now.starts.items → IsAscending last source →
        (readings : List ℕ) × ((r t : ℕ) → LeadsFrom last source (states_of set.now) from r t →
        Contains readings r)
        × IsExpansion last source (states_of set.now) from (M.stands machine.old)
        (M.stands machine.new) (M.satisfies machine.old) set.now.seen readings
        waiting.old.items waiting.new.items overs.old.items overs.new.items) }
    ensures kept { IfOk result (λ all. IsTrue all → (source : List Link) →
        AreByStart source table.now.steps.items table.now.starts.items → IsAscending last source →
        (r : ℕ) → LeadsFrom last source (states_of set.now) from r last →
        Contains overs.new.items (over_at from r)) }
{
    if is_nothing(set.others.as_slice()) {
        let steps = row(table, set.first);
        let all = expand_steps(alloc, machine, steps, set.seen, from, last, waiting, overs)?;
        return Ok(all);
    }
    let steps = gathered(alloc, table, set)?;
    let all = expand_steps(
        alloc,
        machine,
        steps.as_slice(),
        set.seen,
        from,
        last,
        waiting,
        overs,
    )?;
    Ok(all)
}

/// Gives the set that these steps leave all its links.
fn expand_steps<M: Machine>(
    alloc: Global,
    machine: &mut M,
    steps: &[Step],
    seen: usize,
    from: u32,
    last: u32,
    waiting: &mut Vec<Waiting>,
    overs: &mut Vec<Over>,
) -> Mem<bool>
    ensures grows { OnOk result (Grows (M.stands machine.old) (M.stands machine.new)
        (M.satisfies machine.old) (M.satisfies machine.new)) }
    ensures expanded { OnOk result ((source : List Link) (states : List ℕ) →
        AreSteps source states steps.now → IsAscending last source →
        (readings : List ℕ) × ((r t : ℕ) → LeadsFrom last source states from r t →
        Contains readings r)
        × IsExpansion last source states from (M.stands machine.old)
        (M.stands machine.new) (M.satisfies machine.old) seen readings
        waiting.old.items waiting.new.items overs.old.items overs.new.items) }
    ensures kept { IfOk result (λ all. IsTrue all → (source : List Link) (states : List ℕ) →
        AreSteps source states steps.now → IsAscending last source → (r : ℕ) →
        LeadsFrom last source states from r last → Contains overs.new.items (over_at from r)) }
{
    let mut all = true;
    let mut begin = 0;
    while begin < steps.len() {
        let end = run_end(steps, begin);
        let run = &steps[begin..end];
        let reading = steps[begin].reading;
        let next = machine.step(alloc, seen, reading)?;
        let is_wanted = machine.accepts(next);
        let is_kept = note_over(run, from, reading, last, is_wanted, overs)?;
        all = are_both(all, is_kept);
        note_waiting(alloc, run, from, reading, next, last, waiting)?;
        begin = end;
    }
    Ok(all)
}

/// Whether both are so.
pub(crate) fn are_both(one: bool, other: bool) -> bool
    ensures { IsTrue result ↔ (IsTrue one × IsTrue other) }
{
    one && other
}

/// Notes that a path is over after the reading, if one is that is wanted. False if one is that
/// isn't wanted.
fn note_over(
    run: &[Step],
    from: u32,
    reading: u32,
    last: u32,
    is_wanted: bool,
    overs: &mut Vec<Over>,
) -> Mem<bool>
    ensures noted { OnOk result ((o : Over) → Contains overs.new.items o ↔
        (Contains overs.old.items o ⊎
        ((o.from ≡ from) × (o.reading ≡ reading) × LeadsTo run.now last × IsTrue is_wanted))) }
    ensures kept { IfOk result (λ all. IsTrue all → LeadsTo run.now last → IsTrue is_wanted) }
{
    if !leads_to(run, last) {
        return Ok(true);
    }
    if is_wanted {
        overs.push(Over { from, reading })?;
        return Ok(true);
    }
    Ok(false)
}

/// Adds the link by the reading to what waits, if a path goes on.
fn note_waiting(
    alloc: Global,
    run: &[Step],
    from: u32,
    reading: u32,
    next: usize,
    last: u32,
    waiting: &mut Vec<Waiting>,
) -> Mem<()>
    requires { 0 < length run.now }
    ensures { OnOk result (IsNonDecreasingBy (λ (e : Step). e.to) run.now → AreUpTo last run.now →
        (new : List Waiting) × (waiting.new.items ≡ waiting.old.items ++ new) ×
        AreNew (λ t. (t ≢ last) × LeadsTo run.now t) from reading next new) }
{
    let first = run[0].to;
    if first == last {
        return Ok(());
    }
    let others = others_of(alloc, run, first, last)?;
    waiting.push(Waiting {
        from,
        reading,
        set: Set {
            first,
            others,
            seen: next,
        },
    })?;
    Ok(())
}

/// The states to which the steps lead but the first and the last one, each once.
fn others_of(alloc: Global, run: &[Step], first: u32, last: u32) -> Mem<Vec<u32>>
    ensures { IfOk result (λ others. IsNonDecreasingBy (λ (e : Step). e.to) run.now →
        first ≢ last → LeadsTo run.now first → ((t : ℕ) → LeadsTo run.now t → first ≤ t) →
        IsStrictlyIncreasing (first ∷ others.items) × ((t : ℕ) →
        Contains (first ∷ others.items) t ↔ ((t ≢ last) × LeadsTo run.now t))) }
{
    let mut others = Vec::new(alloc);
    let mut latest = first;
    for step in run {
        let state = step.to;
        if state != latest && state != last {
            others.push(state)?;
            latest = state;
        }
    }
    Ok(others)
}
