//! The two passes that leave what satisfies.

ghost use Rattle.std.specs.Prelude.{ℕ, ◌≡◌, ◌<◌, List, IfOk, OnOk, IfSome, Some, IfNone};
ghost use Rattle.ux_subsets.specs.declared.automaton.Link.{Link};
ghost use Rattle.ux_subsets.specs.Paths.{IsAscending, Spells, IsLeft, IsNormal};
ghost use Rattle.ux_subsets.specs.Machines.{Grows};
ghost use Rattle.ux_subsets.specs.Building.{IsPass};
ghost use Rattle.ux_subsets.specs.Turning.{HasEnd, IsTurned};

use crate::automaton::{Automaton, Link, has_end, narrowed, reversed_links};
use crate::machine::{AnyList, Machine};
use crate::reaching::{closed, reach};
use std::alloc::Global;
use ux_base::Mem;

/// The automaton of the sets of states that are reached by the same lists, each with the machine's
/// state: of the lists to the last state those that satisfy, and one path for each.
pub fn subsets<M: Machine>(
    alloc: Global,
    machine: &mut M,
    source: &[Link],
    last: usize,
) -> Mem<Automaton>
    requires { 0 < last }
    ensures grows { OnOk result (Grows (M.stands machine.old) (M.stands machine.new) (M.satisfies
        machine.old) (M.satisfies machine.new)) }
    ensures pass { IfOk result (λ found. IsAscending last source.now →
        IsPass (M.stands machine.new) (M.satisfies machine.new) last source.now found.last
        found.links.items) }
{
    let links = copy_of(alloc, source)?;
    let found = subsets_of(alloc, machine, links, last)?;
    Ok(found)
}

/// The automaton of the sets of states of these links.
fn subsets_of<M: Machine>(
    alloc: Global,
    machine: &mut M,
    source: Vec<Link>,
    last: usize,
) -> Mem<Automaton>
    requires { 0 < last }
    ensures grows { OnOk result (Grows (M.stands machine.old) (M.stands machine.new) (M.satisfies
        machine.old) (M.satisfies machine.new)) }
    ensures pass { IfOk result (λ found. IsAscending last source.items →
        IsPass (M.stands machine.new) (M.satisfies machine.new) last source.items found.last
        found.links.items) }
{
    let reached = reach(alloc, machine, source, last)?;
    let found = closed(reached)?;
    Ok(found)
}

/// The links once more.
fn copy_of(alloc: Global, links: &[Link]) -> Mem<Vec<Link>>
    ensures { IfOk result (λ copy. copy.items ≡ links.now) }
{
    let mut copy = Vec::with_capacity(alloc, links.len())?;
    copy.extend_from_slice(links)?;
    Ok(copy)
}

/// What the machine leaves of the automaton's lists: an automaton with one path for each, which is
/// the least of those that are deterministic read backwards. None where nothing is left.
pub fn apply<M: Machine>(
    alloc: Global,
    machine: &mut M,
    source: &[Link],
    last: usize,
) -> Mem<Option<Automaton>>
    requires some { 0 < last }
    requires ascending { IsAscending last source.now }
    ensures grows { OnOk result (Grows (M.stands machine.old) (M.stands machine.new) (M.satisfies
        machine.old) (M.satisfies machine.new)) }
    ensures left { IfOk result (λ answer. IfSome answer (λ left. IsLeft (M.satisfies machine.new)
        last source.now left.last left.links.items)) }
    ensures nothing { IfOk result (λ answer. IfNone answer ((readings : List ℕ) →
        Spells source.now 0 last readings → M.satisfies machine.new readings → ⊥)) }
{
    let forth = subsets(alloc, machine, source, last)?;
    let left = turned(alloc, forth)?;
    Ok(left)
}

/// What the machine leaves of an automaton that is an answer of `apply`, as `apply` does. Where that
/// is all of it, the answer is the automaton itself, without a second pass.
pub fn apply_again<M: Machine>(
    alloc: Global,
    machine: &mut M,
    source: Automaton,
) -> Mem<Option<Automaton>>
    requires { IsNormal source.last source.links.items }
    ensures grows { OnOk result (Grows (M.stands machine.old) (M.stands machine.new) (M.satisfies
        machine.old) (M.satisfies machine.new)) }
    ensures left { IfOk result (λ answer. IfSome answer (λ left. IsLeft (M.satisfies machine.new)
        source.last source.links.items left.last left.links.items)) }
    ensures nothing { IfOk result (λ answer. IfNone answer ((readings : List ℕ) →
        Spells source.links.items 0 source.last readings → M.satisfies machine.new readings → ⊥)) }
{
    let links = copy_of(alloc, source.links.as_slice())?;
    let reached = reach(alloc, machine, links, source.last)?;
    if reached.so_far.all {
        return Ok(Some(source));
    }
    let forth = closed(reached)?;
    let left = turned(alloc, forth)?;
    Ok(left)
}

/// The automaton of the sets of states from which the same lists lead to the last one, by a pass
/// over the automaton read backwards. None where no list leads there.
fn turned(alloc: Global, forth: Automaton) -> Mem<Option<Automaton>>
    requires { 0 < forth.last }
    ensures left { IfOk result (λ answer. IfSome answer (λ left. HasEnd forth.last
        forth.links.items × (IsAscending forth.last forth.links.items →
        IsTurned forth.last forth.links.items left.last left.links.items))) }
    ensures nothing { IfOk result (λ answer. IfNone answer (HasEnd forth.last
        forth.links.items → ⊥)) }
{
    let last = narrowed(forth.last)?;
    if !has_end(forth.links.as_slice(), last) {
        return Ok(None);
    }
    let turned = reversed_links(last, forth.links);
    let mut any = AnyList;
    let again = subsets_of(alloc, &mut any, turned, forth.last)?;
    let links = reversed_links(narrowed(again.last)?, again.links);
    Ok(Some(Automaton {
        last: again.last,
        links,
    }))
}
