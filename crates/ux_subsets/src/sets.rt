//! Sets of states, and what is known of them.

ghost use Rattle.std.specs.Prelude.{◌≡◌, ◌↔◌, [], ◌∷◌, ◌++◌, OnOk, IsTrue};
ghost use Rattle.ux_subsets.specs.Paths.{link};
ghost use Rattle.ux_subsets.specs.Building.{IsSame};

use crate::automaton::Link;
use std::alloc::Global;
use ux_base::Mem;

/// A set of states, the least one and the others in ascending order, with what a machine has seen.
/// A set of one state takes no memory of its own.
#[derive(PartialEq, Eq, Hash, Drop)]
pub struct Set {
    pub first: u32,
    pub others: Vec<u32>,
    pub seen: usize,
}

/// A link whose target has no place yet.
#[derive(Drop)]
pub struct Waiting {
    pub from: u32,
    pub reading: u32,
    pub set: Set,
}

/// A reading after which a path is over.
#[derive(Clone, Copy, Drop)]
pub struct Over {
    pub from: u32,
    pub reading: u32,
}

/// The set of the first state alone.
pub(crate) fn first_set(alloc: Global, seen: usize) -> Set
    ensures items { result.others.items ≡ [] }
    ensures first { result.first ≡ 0 }
    ensures seen { result.seen ≡ seen }
{
    Set {
        first: 0,
        others: Vec::new(alloc),
        seen,
    }
}

/// Adds a link to the state.
pub(crate) fn add_link(links: &mut Vec<Link>, from: u32, to: u32, reading: u32) -> Mem<()>
    ensures { OnOk result (links.new.items ≡ links.old.items ++ link from to reading ∷ []) }
{
    links.push(Link { from, reading, to })?;
    Ok(())
}

/// Whether the list has no element.
pub(crate) fn is_nothing(list: &[u32]) -> bool
    ensures { IsTrue result ↔ (list.now ≡ []) }
{
    match list {
        [] => true,
        [..] => false,
    }
}

/// Whether the sets have the same states, and the same state of the machine.
pub(crate) fn are_same(one: &Set, other: &Set) -> bool
    ensures { IsTrue result ↔ IsSame one.now other.now }
{
    one == other
}
