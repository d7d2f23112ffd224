//! What is seen of a rule while a list is read.

ghost use Rattle.std.specs.Prelude.{◌≡◌, ◌<◌, ◌↔◌, ℕ, Contains, IfOk};
ghost use Rattle.ux_monitor.specs.declared.owing.Obligation.{Obligation};
ghost use Rattle.ux_monitor.specs.declared.watching.Seen.{Seen};
ghost use Rattle.ux_monitor.specs.Watches.{IsFirst, IsNext};
ghost use Rattle.ux_monitor.specs.Steps.{Among};
ghost use Rattle.ux_monitor.specs.Owing.{TellsWell};

use crate::moving::{left_places, marked};
use crate::owing::{Obligation, are_well, in_order, open, owed_later};
use crate::rule::Sign;
use crate::steps::Steps;
use indexmap::IndexSet;
use std::alloc::Global;
use std::collections::BTreeSet;
use ux_base::Mem;

/// What was seen of a rule: the places of left words, what is owed, and whether nothing that was
/// found is unpaid if the list ends here.
#[derive(PartialEq, Eq, Hash, Drop)]
pub struct Seen {
    pub is_accepted: bool,
    pub ifs: Vec<usize>,
    pub thens: Vec<usize>,
    pub owed: Vec<Obligation>,
}

/// What is seen before the first reading.
pub(crate) fn begin(alloc: Global, steps: &Steps, ends: &[usize]) -> Mem<Seen>
    ensures first { IfOk result (λ seen. IsFirst steps.now seen) }
    ensures well { IfOk result (λ seen. TellsWell steps.now ends.now seen) }
{
    let ifs = marked(alloc, steps, &[0], Sign::If)?;
    let thens = marked(alloc, steps, &[0], Sign::Then)?;
    let mut owed = IndexSet::new(alloc);
    open(alloc, steps, ifs.as_slice(), thens.as_slice(), &mut owed)?;
    let seen = seen_of(alloc, steps, ends, ifs, thens, owed)?;
    Ok(seen)
}

/// What is seen after one more reading, which passes just these tests.
pub(crate) fn advance(
    alloc: Global,
    steps: &Steps,
    ends: &[usize],
    seen: &Seen,
    tests: &[u32],
) -> Mem<Seen>
    ensures next { IfOk result (λ next.
        IsNext steps.now ends.now (Among tests.now) seen.now 0 next) }
    ensures well { IfOk result (λ next. TellsWell steps.now ends.now next) }
{
    let passed = set_of(alloc, tests)?;
    let ifs = left_places(alloc, steps, seen.ifs.as_slice(), &passed, Sign::If)?;
    let thens = left_places(alloc, steps, seen.thens.as_slice(), &passed, Sign::Then)?;
    let mut owed = owed_later(alloc, steps, ends, seen.owed.as_slice(), &passed)?;
    open(alloc, steps, ifs.as_slice(), thens.as_slice(), &mut owed)?;
    let seen = seen_of(alloc, steps, ends, ifs, thens, owed)?;
    Ok(seen)
}

/// What is seen at the places, where this is owed.
fn seen_of(
    alloc: Global,
    steps: &Steps,
    ends: &[usize],
    ifs: Vec<usize>,
    thens: Vec<usize>,
    owed: IndexSet<Obligation>,
) -> Mem<Seen>
    ensures ifs { IfOk result (λ seen. seen.ifs ≡ ifs) }
    ensures thens { IfOk result (λ seen. seen.thens ≡ thens) }
    ensures owed { IfOk result (λ seen. (o : Obligation) →
        Contains seen.owed.items o ↔ Contains owed.keys o) }
    ensures well { IfOk result (λ seen. TellsWell steps.now ends.now seen) }
{
    let owed = in_order(alloc, owed)?;
    let is_accepted = are_well(alloc, steps, ends, owed.as_slice())?;
    Ok(Seen {
        is_accepted,
        ifs,
        thens,
        owed,
    })
}

/// The tests as a set.
pub(crate) fn set_of(alloc: Global, tests: &[u32]) -> Mem<BTreeSet<u32>>
    ensures { IfOk result (λ set. (t : ℕ) → Contains set.keys t ↔ Contains tests.now t) }
{
    let mut set = BTreeSet::new(alloc);
    for test in tests {
        set.insert(*test)?;
    }
    Ok(set)
}
