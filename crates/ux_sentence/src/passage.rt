//! Whether a path leads through a sentence.
//!
//! The links that lead to greater states are gone through by the states that they leave, the
//! greatest first. So each state is known to lead to the last one, or not to, before a link to it
//! is looked at. States may be great numbers: only those of links are kept.

ghost use Rattle.std.specs.Prelude.{◌≡◌, ◌⊎◌, ◌↔◌, ◌<◌, ℕ, IsTrue, IfOk, OnOk, Contains};
ghost use Rattle.std.specs.List.Sorted.{IsNonDecreasingBy};
ghost use Rattle.ux_sentence.specs.Passages.{AreSteps, Leads, PassesStep, left_by};
ghost use Rattle.ux_sentence.specs.Written.{HasPath};

use crate::sentence::{Link, Sentence};
use std::alloc::{AllocError, Global};
use std::collections::BTreeSet;
use ux_base::Mem;

/// From a state to a greater one.
type Step = (u64, u64);

/// Whether a path of links that lead to greater states leads from the first state to the last.
/// Takes time in the links, times a logarithm of their number.
pub fn has_path(alloc: Global, sentence: &Sentence) -> Mem<bool>
    ensures { IfOk result (λ has. IsTrue has ↔ HasPath sentence.now) }
{
    if sentence.states == 0 {
        return Ok(false);
    }
    let steps = sorted_steps(alloc, sentence.links.as_slice())?;
    let states = leading_to(alloc, steps.as_slice(), sentence.states - 1)?;
    Ok(has(&states, 0))
}

/// The steps of the links that lead to greater states, by the states that they leave.
fn sorted_steps(alloc: Global, links: &[Link]) -> Result<Vec<Step>, AllocError>
    ensures steps { IfOk result (λ steps. AreSteps links.now steps.items) }
    ensures ascend { IfOk result (λ steps. IsNonDecreasingBy left_by steps.items) }
{
    let mut steps = steps_of(alloc, links)?;
    steps.sort_by_key(|step| step.0)?;
    Ok(steps)
}

/// The steps of the links that lead to greater states.
fn steps_of(alloc: Global, links: &[Link]) -> Result<Vec<Step>, AllocError>
    ensures { IfOk result (λ steps. AreSteps links.now steps.items) }
{
    let mut steps = Vec::new(alloc);
    for link in links {
        if link.from < link.to {
            steps.push((link.from, link.to))?;
        }
    }
    Ok(steps)
}

/// The states from which steps lead to the last one.
fn leading_to(alloc: Global, steps: &[Step], last: u64) -> Result<BTreeSet<u64>, AllocError>
    requires ascend { IsNonDecreasingBy left_by steps.now }
    requires up { (step : ℕ × ℕ) → Contains steps.now step → step.0 < step.1 }
    ensures { IfOk result (λ states. (state : ℕ) →
        Contains states.keys state ↔ Leads steps.now state last) }
{
    let mut states = BTreeSet::new(alloc);
    put(&mut states, last)?;
    let mut place = steps.len();
    while place > 0 {
        place -= 1;
        pass(&mut states, steps[place])?;
    }
    Ok(states)
}

/// Puts the state that the step leaves into the set, if it has the one to which the step leads.
fn pass(states: &mut BTreeSet<u64>, step: Step) -> Result<(), AllocError>
    ensures { OnOk result (PassesStep states.old.keys step states.new.keys) }
{
    let (from, to) = step;
    if !has(states, to) {
        return Ok(());
    }
    put(states, from)?;
    Ok(())
}

/// Whether the set has the state.
fn has(states: &BTreeSet<u64>, state: u64) -> bool
    ensures { IsTrue result ↔ Contains states.now.keys state }
{
    states.contains(&state)
}

/// Puts the state into the set.
fn put(states: &mut BTreeSet<u64>, state: u64) -> Result<(), AllocError>
    ensures { OnOk result ((other : ℕ) → Contains states.new.keys other
        ↔ (Contains states.old.keys other ⊎ (other ≡ state))) }
{
    states.insert(state)?;
    Ok(())
}
