//! Lists and sets of places.

ghost use Rattle.std.specs.Prelude.{◌≡◌, ℕ, ◌+◌, ◌^◌, ◌<◌, ◌≤◌, ◌↔◌, ◌⊎◌, [], length, IfOk, OnOk, IsTrue, Contains};

use std::alloc::Global;
use std::collections::BTreeSet;
use ux_base::Mem;

/// Adds a place, and tells whether it is new.
pub(crate) fn add(found: &mut BTreeSet<usize>, place: usize) -> Mem<bool>
    ensures exact { OnOk result ((e : ℕ) → Contains found.new.keys e ↔
        (Contains found.old.keys e ⊎ (e ≡ place))) }
    ensures grows { IfOk result (λ is_new. IsTrue is_new →
        length found.new.keys ≡ length found.old.keys + 1) }
    ensures stays { IfOk result (λ is_new. (IsTrue is_new → ⊥) →
        found.new.keys ≡ found.old.keys) }
    ensures room { OnOk result (length found.new.keys < 2 ^ 64) }
{
    let is_new = found.insert(place)?;
    let _len = found.len();
    Ok(is_new)
}

/// The places in ascending order.
pub(crate) fn listed(alloc: Global, found: &BTreeSet<usize>) -> Mem<Vec<usize>>
    ensures { IfOk result (λ list. list.items ≡ found.now.keys) }
{
    let list: Vec<usize> = found.iter().copied().collect(alloc)?;
    Ok(list)
}

/// Whether the list has no element.
pub(crate) fn is_nothing(list: &[usize]) -> bool
    ensures { IsTrue result ↔ (list.now ≡ []) }
{
    match list {
        [] => true,
        [..] => false,
    }
}

/// Whether one of the places is among those that were found.
pub(crate) fn meet(places: &[usize], found: &BTreeSet<usize>) -> bool
    ensures { IsTrue result ↔ ((p : ℕ) × Contains places.now p × Contains found.now.keys p) }
{
    places.iter().any(|place| has(found, *place))
}

/// Whether the place was found.
fn has(found: &BTreeSet<usize>, place: usize) -> bool
    ensures { IsTrue result ↔ Contains found.now.keys place }
{
    found.contains(&place)
}
