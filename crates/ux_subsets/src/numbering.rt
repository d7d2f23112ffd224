//! How sets get their numbers.
//!
//! All links to sets with one least state are known before one of these sets has its own. So they get
//! their numbers at once, equal ones the same.

ghost use Rattle.std.specs.Prelude.{◌≡◌, ◌<◌, [], length, All, IfOk, MatchOption, OnOk};
ghost use Rattle.std.specs.List.{HoldsAt};
ghost use Rattle.ux_subsets.specs.Building.{ArePlaced, HasNumber, IsPlaced, IsSame};

use crate::automaton::{Link, number_behind};
use crate::sets::{Set, Waiting, add_link, are_same};
use indexmap::IndexSet;
use std::alloc::{AllocError, Global};
use ux_base::Mem;

/// So many sets are compared with each other. Where there may be more, they are looked up.
const FEW: usize = 32;

/// Gives the sets that are due numbers, and adds the links to them. The numbers are places in the
/// answer, counted on from `base`.
pub(crate) fn numbered(
    alloc: Global,
    base: u32,
    links: &mut Vec<Link>,
    due: Vec<Waiting>,
) -> Mem<Vec<Set>>
    ensures { IfOk result (λ sets.
        ArePlaced base [] sets.items links.old.items links.new.items due.items) }
{
    if due.len() <= FEW {
        return numbered_few(alloc, base, links, due);
    }
    numbered_many(alloc, base, links, due)
}

/// The same, by comparing each set with the others.
fn numbered_few(
    alloc: Global,
    base: u32,
    links: &mut Vec<Link>,
    mut due: Vec<Waiting>,
) -> Mem<Vec<Set>>
    ensures { IfOk result (λ sets.
        ArePlaced base [] sets.items links.old.items links.new.items due.items) }
{
    let mut sets = Vec::new(alloc);
    while let Some(one) = due.pop() {
        place_among_few(&mut sets, base, links, one)?;
    }
    Ok(sets)
}

/// The same, by looking up each set.
fn numbered_many(
    alloc: Global,
    base: u32,
    links: &mut Vec<Link>,
    mut due: Vec<Waiting>,
) -> Mem<Vec<Set>>
    ensures { IfOk result (λ sets.
        ArePlaced base [] sets.items links.old.items links.new.items due.items) }
{
    let mut sets = IndexSet::new(alloc);
    while let Some(one) = due.pop() {
        place_among_many(&mut sets, base, links, one)?;
    }
    let list = listed(alloc, sets)?;
    Ok(list)
}

/// The sets as a list.
fn listed(alloc: Global, sets: IndexSet<Set>) -> Result<Vec<Set>, AllocError>
    ensures { IfOk result (λ list. list.items ≡ sets.keys) }
{
    sets.into_iter().collect(alloc)
}

/// Gives a place to the set that waits, unless it has one, and adds the link.
fn place_among_few(
    sets: &mut Vec<Set>,
    base: u32,
    links: &mut Vec<Link>,
    waiting: Waiting,
) -> Mem<()>
    ensures { OnOk result (IsPlaced base sets.old.items sets.new.items
        links.old.items links.new.items waiting) }
{
    let Waiting { from, reading, set } = waiting;
    let place = place_in(sets, set)?;
    let number = number_behind(base, place)?;
    add_link(links, from, number, reading)?;
    Ok(())
}

/// Gives a place to the set that waits, unless it has one, and adds the link.
fn place_among_many(
    sets: &mut IndexSet<Set>,
    base: u32,
    links: &mut Vec<Link>,
    waiting: Waiting,
) -> Mem<()>
    ensures { OnOk result (IsPlaced base sets.old.keys sets.new.keys
        links.old.items links.new.items waiting) }
{
    let Waiting { from, reading, set } = waiting;
    let place = place_of(sets, set)?;
    let number = number_behind(base, place)?;
    add_link(links, from, number, reading)?;
    Ok(())
}

/// The place of the set, which gets one if it has none. Compares it with each other one.
fn place_in(sets: &mut Vec<Set>, set: Set) -> Mem<usize>
    ensures { IfOk result (λ place. HasNumber sets.old.items sets.new.items set place) }
{
    if let Some(place) = found_in(sets.as_slice(), &set) {
        return Ok(place);
    }
    let place = sets.len();
    sets.push(set)?;
    Ok(place)
}

/// The place of the set among these.
fn found_in(sets: &[Set], set: &Set) -> Option<usize>
    ensures { MatchOption result (All (λ other. IsSame other set.now → ⊥) sets.now)
        (λ place. place < length sets.now × HoldsAt (λ other. IsSame other set.now) sets.now place) }
{
    sets.iter().position(|other| are_same(other, set))
}

/// The place of the set, which gets one if it has none. Looks it up.
fn place_of(sets: &mut IndexSet<Set>, set: Set) -> Mem<usize>
    ensures { IfOk result (λ place. HasNumber sets.old.keys sets.new.keys set place) }
{
    let (place, _is_new) = sets.insert_full(set)?;
    Ok(place)
}
