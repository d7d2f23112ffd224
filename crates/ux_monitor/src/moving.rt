//! Where free steps, marks and readings lead.

ghost use Rattle.std.specs.Prelude.{◌≡◌, ◌≢◌, ℕ, ◌<◌, ◌≤◌, ◌^◌, ◌↔◌, ◌⊎◌, List, [], ◌∷◌, length, IfOk, OnOk, IsTrue, Contains};
ghost use Rattle.ux_monitor.specs.declared.rule.Sign.{Sign};
ghost use Rattle.ux_monitor.specs.declared.rule.Sign.TheVariants.{Free};
ghost use Rattle.ux_monitor.specs.declared.rule.Step.{Step};
ghost use Rattle.ux_monitor.specs.Rules.{Run};
ghost use Rattle.ux_monitor.specs.Monitor.{Moves, Closes};
ghost use Rattle.ux_monitor.specs.Watches.{AreLeft};
ghost use Rattle.ux_monitor.specs.Steps.{Among, IsPassed, MarksTo, ReadsTo, Marks, Reads};
ghost use Rattle.ux_monitor.specs.Walks.{IsPopped, IsWalk, work_left};

use crate::places::{add, listed, meet};
use crate::rule::{Sign, Step, is_sign};
use crate::steps::Steps;
use std::alloc::Global;
use std::collections::BTreeSet;
use ux_base::Mem;

/// The places of left words after one more reading, in ascending order.
pub(crate) fn left_places(
    alloc: Global,
    steps: &Steps,
    from: &[usize],
    passed: &BTreeSet<u32>,
    mark: Sign,
) -> Mem<Vec<usize>>
    requires { mark ≢ Free }
    ensures { IfOk result (λ list.
        AreLeft steps.now [] (Among passed.now.keys) mark from.now 0 list.items) }
{
    let here = closed_from(alloc, steps, from)?;
    let start = closed_from(alloc, steps, &[0])?;
    let mut ahead = Vec::new(alloc);
    push_read(steps, here.as_slice(), passed, &mut ahead)?;
    push_marked(steps, start.as_slice(), mark, &mut ahead)?;
    let list = closed_list(alloc, steps, ahead)?;
    Ok(list)
}

/// The places to which the mark leads from the places, in ascending order.
pub(crate) fn marked(alloc: Global, steps: &Steps, from: &[usize], mark: Sign) -> Mem<Vec<usize>>
    requires { mark ≢ Free }
    ensures { IfOk result (λ list. (k : ℕ) → Contains list.items k ↔
        ((p : ℕ) × Contains from.now p × Run steps.now p k (mark ∷ []))) }
{
    let found = marked_set(alloc, steps, from, mark)?;
    let list = listed(alloc, &found)?;
    Ok(list)
}

/// The places to which the reading leads from the places, in ascending order.
pub(crate) fn moved(
    alloc: Global,
    steps: &Steps,
    from: &[usize],
    passed: &BTreeSet<u32>,
) -> Mem<Vec<usize>>
    ensures { IfOk result (λ list. (k : ℕ) → Contains list.items k ↔
        ((p : ℕ) × Contains from.now p × Moves steps.now [] (Among passed.now.keys) p 0 k)) }
{
    let here = closed_from(alloc, steps, from)?;
    let mut ahead = Vec::new(alloc);
    push_read(steps, here.as_slice(), passed, &mut ahead)?;
    let list = closed_list(alloc, steps, ahead)?;
    Ok(list)
}

/// Whether the last mark leads from one of the places to an end.
pub(crate) fn closes(
    alloc: Global,
    steps: &Steps,
    ends: &[usize],
    places: &[usize],
    mark: Sign,
) -> Mem<bool>
    requires { mark ≢ Free }
    ensures { IfOk result (λ is_closed. IsTrue is_closed ↔ ((p : ℕ) × Contains places.now p ×
        Closes steps.now ends.now (Among []) mark p)) }
{
    let found = marked_set(alloc, steps, places, mark)?;
    Ok(meet(ends, &found))
}

/// The places to which the mark leads from the places.
fn marked_set(alloc: Global, steps: &Steps, from: &[usize], mark: Sign) -> Mem<BTreeSet<usize>>
    requires { mark ≢ Free }
    ensures { IfOk result (λ found. (k : ℕ) → Contains found.keys k ↔
        ((p : ℕ) × Contains from.now p × Run steps.now p k (mark ∷ []))) }
{
    let here = closed_from(alloc, steps, from)?;
    let mut ahead = Vec::new(alloc);
    push_marked(steps, here.as_slice(), mark, &mut ahead)?;
    let found = closed(alloc, steps, ahead)?;
    Ok(found)
}

/// The places to which free steps lead from the places, and these, in ascending order.
fn closed_from(alloc: Global, steps: &Steps, from: &[usize]) -> Mem<Vec<usize>>
    ensures { IfOk result (λ list. (k : ℕ) → Contains list.items k ↔
        ((p : ℕ) × Contains from.now p × Run steps.now p k [])) }
{
    let ahead = Vec::from_slice(alloc, from)?;
    let list = closed_list(alloc, steps, ahead)?;
    Ok(list)
}

/// The places to which free steps lead from the places, and these, in ascending order.
fn closed_list(alloc: Global, steps: &Steps, ahead: Vec<usize>) -> Mem<Vec<usize>>
    ensures { IfOk result (λ list. (k : ℕ) → Contains list.items k ↔
        ((p : ℕ) × Contains ahead.items p × Run steps.now p k [])) }
{
    let found = closed(alloc, steps, ahead)?;
    let list = listed(alloc, &found)?;
    Ok(list)
}

/// The places to which free steps lead from the places, and these. The steps of each place are
/// looked at once.
fn closed(alloc: Global, steps: &Steps, mut ahead: Vec<usize>) -> Mem<BTreeSet<usize>>
    ensures { IfOk result (λ found. (k : ℕ) → Contains found.keys k ↔
        ((p : ℕ) × Contains ahead.items p × Run steps.now p k [])) }
{
    let mut found = BTreeSet::new(alloc);
    while let Some(place) = ahead.pop() {
        follow(steps, place, &mut found, &mut ahead)?;
    }
    Ok(found)
}

/// Adds a place that was ahead. If it is new, those to which its free steps lead are ahead.
fn follow(
    steps: &Steps,
    place: usize,
    found: &mut BTreeSet<usize>,
    ahead: &mut Vec<usize>,
) -> Mem<()>
    ensures walk { OnOk result ((from before : List ℕ) →
        IsPopped before ahead.old.items place →
        IsWalk steps.now from found.old.keys before →
        IsWalk steps.now from found.new.keys ahead.new.items) }
    ensures less { OnOk result (work_left found.new.keys ahead.new.items ≤
        work_left found.old.keys ahead.old.items) }
{
    let is_new = add(found, place)?;
    if !is_new {
        return Ok(());
    }
    push_row_marked(steps.leaving(place), Sign::Free, ahead)?;
    Ok(())
}

/// Adds the places to which single steps lead by the mark from the places.
fn push_marked(steps: &Steps, from: &[usize], mark: Sign, ahead: &mut Vec<usize>) -> Mem<()>
    ensures { OnOk result ((k : ℕ) → Contains ahead.new.items k ↔ (Contains ahead.old.items k ⊎
        ((p : ℕ) × Contains from.now p × Marks steps.now mark p k))) }
{
    for place in from {
        push_row_marked(steps.leaving(*place), mark, ahead)?;
    }
    Ok(())
}

/// Adds the places to which steps of a row lead by the mark.
fn push_row_marked(row: &[Step], mark: Sign, ahead: &mut Vec<usize>) -> Mem<()>
    ensures exact { OnOk result ((k : ℕ) → Contains ahead.new.items k ↔
        (Contains ahead.old.items k ⊎ ((s : Step) × Contains row.now s × MarksTo mark s k))) }
    ensures room { OnOk result (length ahead.new.items < 2 ^ 64) }
{
    for step in row {
        note_mark(step, mark, ahead)?;
    }
    let _len = ahead.len();
    Ok(())
}

/// Adds the place to which the step leads, if by the mark.
fn note_mark(step: &Step, mark: Sign, ahead: &mut Vec<usize>) -> Mem<()>
    ensures { OnOk result ((k : ℕ) → Contains ahead.new.items k ↔
        (Contains ahead.old.items k ⊎ MarksTo mark step.now k)) }
{
    if is_sign(step.sign, mark) {
        ahead.push(step.to)?;
        return Ok(());
    }
    Ok(())
}

/// Adds the places to which single steps lead by the reading from the places.
fn push_read(
    steps: &Steps,
    from: &[usize],
    passed: &BTreeSet<u32>,
    ahead: &mut Vec<usize>,
) -> Mem<()>
    ensures { OnOk result ((k : ℕ) → Contains ahead.new.items k ↔ (Contains ahead.old.items k ⊎
        ((p : ℕ) × Contains from.now p × Reads steps.now passed.now.keys p k))) }
{
    for place in from {
        push_row_read(steps.leaving(*place), passed, ahead)?;
    }
    Ok(())
}

/// Adds the places to which steps of a row lead by the reading.
fn push_row_read(row: &[Step], passed: &BTreeSet<u32>, ahead: &mut Vec<usize>) -> Mem<()>
    ensures { OnOk result ((k : ℕ) → Contains ahead.new.items k ↔ (Contains ahead.old.items k ⊎
        ((s : Step) × Contains row.now s × ReadsTo passed.now.keys s k))) }
{
    for step in row {
        note_read(step, passed, ahead)?;
    }
    Ok(())
}

/// Adds the place to which the step leads, if by the reading.
fn note_read(step: &Step, passed: &BTreeSet<u32>, ahead: &mut Vec<usize>) -> Mem<()>
    ensures { OnOk result ((k : ℕ) → Contains ahead.new.items k ↔
        (Contains ahead.old.items k ⊎ ReadsTo passed.now.keys step.now k)) }
{
    if is_passed(step.sign, passed) {
        ahead.push(step.to)?;
        return Ok(());
    }
    Ok(())
}

/// Whether the sign is a test among those that the reading passes.
fn is_passed(sign: Sign, passed: &BTreeSet<u32>) -> bool
    ensures { IsTrue result ↔ IsPassed passed.now.keys sign }
{
    match sign {
        Sign::Read(test) => has_test(passed, test),
        Sign::Free | Sign::If | Sign::Then => false,
    }
}

/// Whether the test is among those that were passed.
fn has_test(passed: &BTreeSet<u32>, test: u32) -> bool
    ensures { IsTrue result ↔ Contains passed.now.keys test }
{
    passed.contains(&test)
}
