//! What is owed since a split point.

ghost use Rattle.std.specs.Prelude.{◌<◌, ◌≡◌, ◌↔◌, [], IfOk, OnOk, IsTrue, Contains};
ghost use Rattle.ux_monitor.specs.declared.owing.Obligation.{Obligation};
ghost use Rattle.ux_monitor.specs.Watches.{IsIdle, IsHere, IsOpened, IsPaid, IsLater};
ghost use Rattle.ux_monitor.specs.Steps.{Among};
ghost use Rattle.ux_monitor.specs.Owing.{IsKept, Finds, IsWell, IsNoted, AreLater};

use crate::moving::{closes, marked, moved};
use crate::places::is_nothing;
use crate::rule::Sign;
use crate::steps::Steps;
use indexmap::IndexSet;
use std::alloc::Global;
use std::collections::BTreeSet;
use ux_base::Mem;

/// What is owed since a split point: whether an if-pair was found, and the places of right words.
#[derive(PartialEq, Eq, PartialOrd, Ord, Hash, Drop)]
pub struct Obligation {
    pub found: bool,
    pub ifs: Vec<usize>,
    pub thens: Vec<usize>,
}

/// Whether an if-pair was found, or is where the list ends.
fn is_found(alloc: Global, steps: &Steps, ends: &[usize], one: &Obligation) -> Mem<bool>
    ensures { IfOk result (λ is. IsTrue is ↔ Finds steps.now ends.now one.now) }
{
    if one.found {
        return Ok(true);
    }
    let is_closed = closes(alloc, steps, ends, one.ifs.as_slice(), Sign::If)?;
    Ok(is_closed)
}

/// Whether a then-pair is where the list ends.
fn is_paid(alloc: Global, steps: &Steps, ends: &[usize], one: &Obligation) -> Mem<bool>
    ensures { IfOk result (λ is. IsTrue is ↔
        IsPaid steps.now ends.now (Among []) one.now) }
{
    let is_closed = closes(alloc, steps, ends, one.thens.as_slice(), Sign::Then)?;
    Ok(is_closed)
}

/// Whether no if-pair is where the list ends, or a then-pair is.
fn is_well(alloc: Global, steps: &Steps, ends: &[usize], one: &Obligation) -> Mem<bool>
    ensures { IfOk result (λ is. IsTrue is ↔ IsWell steps.now ends.now one.now) }
{
    let is_owed = is_found(alloc, steps, ends, one)?;
    if !is_owed {
        return Ok(true);
    }
    let is_well = is_paid(alloc, steps, ends, one)?;
    Ok(is_well)
}

/// Whether no if-pair was found, and none can come.
fn is_idle(one: &Obligation) -> bool
    ensures { IsTrue result → IsIdle one.now }
{
    !one.found && is_nothing(one.ifs.as_slice())
}

/// Adds an obligation, unless it is idle or an equal one is there.
fn keep(owed: &mut IndexSet<Obligation>, one: Obligation) -> Mem<()>
    ensures { OnOk result (IsKept owed.old.keys one owed.new.keys) }
{
    if is_idle(&one) {
        return Ok(());
    }
    let (_number, _is_new) = owed.insert_full(one)?;
    Ok(())
}

/// The obligations in an order that tells nothing of the list that was read.
pub(crate) fn in_order(alloc: Global, owed: IndexSet<Obligation>) -> Mem<Vec<Obligation>>
    ensures { IfOk result (λ list. (o : Obligation) → Contains list.items o ↔
        Contains owed.keys o) }
{
    let mut list = obligations_in(alloc, owed)?;
    list.sort()?;
    Ok(list)
}

/// The obligations of the set.
fn obligations_in(alloc: Global, owed: IndexSet<Obligation>) -> Mem<Vec<Obligation>>
    ensures { IfOk result (λ list. list.items ≡ owed.keys) }
{
    let list: Vec<Obligation> = owed.into_iter().collect(alloc)?;
    Ok(list)
}

/// What is owed after one more reading.
fn later(
    alloc: Global,
    steps: &Steps,
    ends: &[usize],
    one: &Obligation,
    passed: &BTreeSet<u32>,
) -> Mem<Obligation>
    requires { IsPaid steps.now ends.now (Among []) one.now → ⊥ }
    ensures { IfOk result (λ later. IsLater steps.now ends.now (Among passed.now.keys) 0 one.now
        later) }
{
    let ifs = moved(alloc, steps, one.ifs.as_slice(), passed)?;
    let thens = moved(alloc, steps, one.thens.as_slice(), passed)?;
    let found = is_found(alloc, steps, ends, one)?;
    Ok(Obligation { found, ifs, thens })
}

/// Adds what is owed after one more reading, unless it is paid.
fn note_later(
    alloc: Global,
    steps: &Steps,
    ends: &[usize],
    one: &Obligation,
    passed: &BTreeSet<u32>,
    next: &mut IndexSet<Obligation>,
) -> Mem<()>
    ensures { OnOk result (IsNoted steps.now ends.now passed.now.keys one.now next.old.keys
        next.new.keys) }
{
    let is_settled = is_paid(alloc, steps, ends, one)?;
    if is_settled {
        return Ok(());
    }
    let after = later(alloc, steps, ends, one, passed)?;
    keep(next, after)?;
    Ok(())
}

/// All that is owed after one more reading.
pub(crate) fn owed_later(
    alloc: Global,
    steps: &Steps,
    ends: &[usize],
    owed: &[Obligation],
    passed: &BTreeSet<u32>,
) -> Mem<IndexSet<Obligation>>
    ensures { IfOk result (λ next. AreLater steps.now ends.now passed.now.keys owed.now owed.now
        next.keys) }
{
    let mut next = IndexSet::new(alloc);
    for one in owed {
        note_later(alloc, steps, ends, one, passed, &mut next)?;
    }
    Ok(next)
}

/// What is owed at a split point, from the places of left words.
fn opened(
    alloc: Global,
    steps: &Steps,
    if_places: &[usize],
    then_places: &[usize],
) -> Mem<Obligation>
    ensures { IfOk result (λ one. IsHere steps.now if_places.now then_places.now one) }
{
    let ifs = marked(alloc, steps, if_places, Sign::If)?;
    let thens = marked(alloc, steps, then_places, Sign::Then)?;
    Ok(Obligation {
        found: false,
        ifs,
        thens,
    })
}

/// Adds what is owed at a split point.
pub(crate) fn open(
    alloc: Global,
    steps: &Steps,
    if_places: &[usize],
    then_places: &[usize],
    owed: &mut IndexSet<Obligation>,
) -> Mem<()>
    ensures opened { OnOk result (IsOpened steps.now if_places.now then_places.now
        (Contains owed.old.keys) owed.new.keys) }
    ensures still { OnOk result ((o : Obligation) → Contains owed.old.keys o →
        Contains owed.new.keys o) }
{
    let one = opened(alloc, steps, if_places, then_places)?;
    keep(owed, one)?;
    Ok(())
}

/// Whether all obligations are well where the list ends.
pub(crate) fn are_well(
    alloc: Global,
    steps: &Steps,
    ends: &[usize],
    owed: &[Obligation],
) -> Mem<bool>
    ensures { IfOk result (λ are. IsTrue are ↔ ((o : Obligation) → Contains owed.now o →
        IsWell steps.now ends.now o)) }
{
    for one in owed {
        let is_one = is_well(alloc, steps, ends, one)?;
        if !is_one {
            return Ok(false);
        }
    }
    Ok(true)
}
