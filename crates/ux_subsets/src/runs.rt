//! Runs of steps by one reading.

ghost use Rattle.std.specs.Prelude.{◌≡◌, ◌≢◌, ℕ, ◌<◌, ◌≤◌, ◌↔◌, List, ◌∷◌, ◌++◌, Contains, IfOk, OnOk, IsTrue, length};
ghost use Rattle.std.specs.List.Sorted.{IsStrictlyIncreasing, IsNonDecreasingBy};
ghost use Rattle.ux_subsets.specs.declared.automaton.Link.{Link};
ghost use Rattle.ux_subsets.specs.declared.departures.Step.{Step};
ghost use Rattle.ux_subsets.specs.Departures.{AreByStart, AreSteps, LeavesOne, LeadsTo, IsRun};
ghost use Rattle.ux_subsets.specs.Building.{states_of};

use crate::departures::{Departures, Step, in_order, row};
use crate::sets::Set;
use std::alloc::Global;
use ux_base::Mem;

/// The steps that leave one of the set's states, in order. Sorts them.
pub(crate) fn gathered(alloc: Global, table: &Departures, set: &Set) -> Mem<Vec<Step>>
    ensures { IfOk result (λ found. (links : List Link) →
        AreByStart links table.now.steps.items table.now.starts.items →
        AreSteps links (states_of set.now) found.items) }
{
    let found = leaving(alloc, table, set)?;
    Ok(in_order(found))
}

/// The steps that leave one of the set's states.
fn leaving(alloc: Global, table: &Departures, set: &Set) -> Mem<Vec<Step>>
    ensures { IfOk result (λ found. (links : List Link) →
        AreByStart links table.now.steps.items table.now.starts.items → (e : Step) →
        Contains found.items e ↔ LeavesOne links (states_of set.now) e) }
{
    let mut found = Vec::new(alloc);
    put_all(&mut found, row(table, set.first))?;
    for state in set.others.as_slice() {
        put_all(&mut found, row(table, *state))?;
    }
    Ok(found)
}

/// Adds steps.
fn put_all(found: &mut Vec<Step>, steps: &[Step]) -> Mem<()>
    ensures { OnOk result (found.new.items ≡ found.old.items ++ steps.now) }
{
    for step in steps {
        found.push(*step)?;
    }
    Ok(())
}

/// The end of the run of steps by one reading that begins at the place.
pub(crate) fn run_end(steps: &[Step], begin: usize) -> usize
    requires { begin < length steps.now }
    ensures { IsRun steps.now begin result }
{
    let mut end = begin + 1;
    while end < steps.len() && steps[end].reading == steps[begin].reading {
        end += 1;
    }
    end
}

/// Whether a step leads to the state.
pub(crate) fn leads_to(steps: &[Step], state: u32) -> bool
    ensures { IsTrue result ↔ LeadsTo steps.now state }
{
    steps.iter().any(|step| step.to == state)
}
