//! The links in order, those that leave a state together.

ghost use Rattle.std.specs.Prelude.{◌≡◌, ℕ, ◌<◌, ◌≤◌, List, Contains, IfOk, get_or, length, map, false};
ghost use Rattle.std.specs.Ordering.{is_lt};
ghost use Rattle.std.specs.List.Sorted.{IsPermutation, IsNonDecreasingBy};
ghost use Rattle.ux_subsets.specs.declared.automaton.Link.{Link};
ghost use Rattle.ux_subsets.specs.declared.departures.Step.{Step};
ghost use Rattle.ux_subsets.specs.Paths.{IsAscending};
ghost use Rattle.ux_subsets.specs.Departures.{steps_from, step_of, AreByStart, AreStarts, IsStart};

use crate::automaton::{Link, narrowed};
use std::alloc::Global;
use ux_base::Mem;

/// A step: a reading leads to a state.
#[derive(Clone, Copy, PartialEq, Eq, PartialOrd, Ord)]
pub struct Step {
    pub reading: u32,
    pub to: u32,
}

/// All steps by the states that they leave, those of a state by their readings. `starts` has the
/// place of the first step of each state.
#[derive(Drop)]
pub struct Departures {
    pub steps: Vec<Step>,
    pub starts: Vec<u32>,
}

/// The links by the states that they leave. Sorts them, which takes a step a link where they are
/// in order.
pub(crate) fn by_start(alloc: Global, links: Vec<Link>, last: u32) -> Mem<Departures>
    ensures { IfOk result (λ table. IsAscending last links.items →
        AreByStart links.items table.steps.items table.starts.items) }
{
    let sorted = in_order(links);
    let starts = starts_of(alloc, sorted.as_slice(), last)?;
    let steps = steps_of(alloc, sorted.as_slice())?;
    Ok(Departures { steps, starts })
}

/// The steps of the links.
fn steps_of(alloc: Global, sorted: &[Link]) -> Mem<Vec<Step>>
    ensures { IfOk result (λ found. found.items ≡ map step_of sorted.now) }
{
    let mut found = Vec::with_capacity(alloc, sorted.len())?;
    for link in sorted {
        found.push(Step {
            reading: link.reading,
            to: link.to,
        })?;
    }
    Ok(found)
}

/// The items in order.
pub(crate) fn in_order<T: Ord + Drop>(mut items: Vec<T>) -> Vec<T>
    ensures same { IsPermutation items.items result.items }
    ensures in_order { (i j : ℕ) (d : T) → i ≤ j → j < length result.items →
        is_lt (T.cmp (get_or result.items j d) (get_or result.items i d)) ≡ false }
{
    items.sort_unstable();
    items
}

/// For each state below the last the place of its first link.
fn starts_of(alloc: Global, sorted: &[Link], last: u32) -> Mem<Vec<u32>>
    ensures { IfOk result (λ starts. IsNonDecreasingBy (λ (l : Link). l.from) sorted.now →
        AreStarts sorted.now last starts.items) }
{
    let mut starts = Vec::with_capacity(alloc, last as usize)?;
    let mut place = 0;
    for state in 0..last {
        place = start_from(sorted, place, state);
        starts.push(narrowed(place)?)?;
    }
    Ok(starts)
}

/// The place of the first link from the state or a greater one, looked for from a place on.
fn start_from(sorted: &[Link], place: usize, state: u32) -> usize
    ensures { IsNonDecreasingBy (λ (l : Link). l.from) sorted.now → place ≤ length sorted.now →
        ((k : ℕ) (d : Link) → k < place → (get_or sorted.now k d).from < state) →
        IsStart sorted.now state result }
{
    let mut start = place;
    while start < sorted.len() && sorted[start].from < state {
        start += 1;
    }
    start
}

/// The steps that leave the state.
pub(crate) fn row(table: &Departures, state: u32) -> &[Step]
    ensures { (links : List Link) → AreByStart links table.now.steps.items table.now.starts.items →
        result.now ≡ steps_from table.now.steps.items table.now.starts.items state }
{
    let place = state as usize;
    if place >= table.starts.len() {
        return &[];
    }
    let begin = start_of(table, place);
    let end = start_of(table, place + 1);
    match table.steps.as_slice().get(begin..end) {
        Some(steps) => steps,
        None => &[],
    }
}

/// Where the steps of the state begin, or the end of all where there is no such state.
fn start_of(table: &Departures, state: usize) -> usize
    ensures { result ≡ get_or table.now.starts.items state (length table.now.steps.items) }
{
    match table.starts.get(state) {
        Some(start) => *start as usize,
        None => table.steps.len(),
    }
}
