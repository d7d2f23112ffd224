//! A rule's steps by the places that they leave.

ghost use Rattle.std.specs.Prelude.{◌≡◌, ℕ, ◌↔◌, ◌⊎◌, Contains, IfOk, OnOk};
ghost use Rattle.ux_subsets.specs.Rows.{row_at};
ghost use Rattle.ux_monitor.specs.declared.rule.Step.{Step};
ghost use Rattle.ux_monitor.specs.Steps.{AreByPlace};

use crate::rule::Step;
use std::alloc::Global;
use std::marker::Model;
use ux_base::{Mem, NoMemory};
use ux_subsets::rows::{empty_rows, put, row_of};

/// The steps of a rule, in rows by the places that they leave. Contracts see them as one list.
#[derive(Drop)]
pub struct Steps {
    list: Vec<Step>,
    rows: Vec<Vec<Step>>,
}

impl Model for Steps {
    ghost use Rattle.std.specs.Prelude.{List};
    ghost use Rattle.ux_monitor.specs.declared.rule.Step.{Step};
    ghost use Rattle.ux_monitor.specs.Steps.{AreByPlace};

    ghost Value = { List Step };

    ghost view = { λ steps. steps.list.items };

    ghost invariant = { λ steps. AreByPlace steps.list.items steps.rows.items };
}

impl Steps {
    /// The steps in their rows. Takes a step each, and memory for each place up to the greatest.
    pub fn new(alloc: Global, steps: &[Step]) -> Mem<Steps>
        ensures { IfOk result (λ found. found ≡ steps.now) }
    {
        let rows = by_place(alloc, steps)?;
        let list = Vec::from_slice(alloc, steps)?;
        Ok(Steps { list, rows })
    }

    /// The steps that leave the place.
    pub fn leaving(&self, place: usize) -> &[Step]
        ensures { (s : Step) → Contains result.now s ↔
            (Contains self.now s × (s.from ≡ place)) }
    {
        row_of(self.rows.as_slice(), place)
    }
}

/// The steps by the places that they leave.
fn by_place(alloc: Global, steps: &[Step]) -> Mem<Vec<Vec<Step>>>
    ensures { IfOk result (λ rows. AreByPlace steps.now rows.items) }
{
    let mut rows = empty_rows(alloc, row_count(steps))?;
    for step in steps {
        put_step(&mut rows, step)?;
    }
    Ok(rows)
}

/// How many rows have a row for each place from which a step leads.
fn row_count(steps: &[Step]) -> usize {
    let mut count: usize = 0;
    for step in steps {
        count = count.max(step.from.saturating_add(1));
    }
    count
}

/// Puts the step to the row of the place that it leaves.
fn put_step(rows: &mut Vec<Vec<Step>>, step: &Step) -> Mem<()>
    ensures { OnOk result ((p : ℕ) (s : Step) → Contains (row_at rows.new.items p) s ↔
        (Contains (row_at rows.old.items p) s ⊎ ((p ≡ step.now.from) × (s ≡ step.now)))) }
{
    if step.from < rows.len() {
        put(rows, step.from, *step)?;
        return Ok(());
    }
    // Only the greatest number there is has no row, and no memory has a row for each below it.
    Err(NoMemory)
}
