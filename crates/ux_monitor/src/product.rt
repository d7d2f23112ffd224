//! The lists of an automaton that satisfy several rules, in one pass.
//!
//! The rules' monitors go over the automaton side by side: their product. Each of its states is what
//! all of them saw, and so there may be as many as the product of theirs. Where a pass takes too many
//! steps it is given up, and the rules are to be applied in turn.

ghost use Rattle.std.specs.Prelude.{◌≡◌, ◌↔◌, ◌<◌, ◌≤◌, ℕ, List, All, IfNone, IfOk, IfSome, IsTrue, Some, get_or, length, map, slice_get};
ghost use Rattle.ux_subsets.specs.Paths.{IsAscending, IsLeft, Spells};
ghost use Rattle.ux_monitor.specs.Parts.{AreRemembered, AreSameKinds, IsKindAt, IsProductOf, RulePart, SatisfiesParts, StandsJointly};

use crate::joint::Memories;
use crate::part::Part;
use indexmap::IndexSet;
use std::alloc::Global;
use std::marker::Model;
use ux_base::{Mem, NoMemory};
use ux_subsets::{Automaton, Link, Machine, apply};

/// So many steps a pass may take, and so many more a link.
const MOST_STEPS: usize = 1_024;

const MOST_STEPS_A_LINK: usize = 16;

/// What is known of readings and remembered for several rules at once.
#[derive(Drop)]
pub struct Product {
    /// For each reading the number of its kind: those of one kind are of one kind in each rule.
    of: Vec<usize>,
    memories: Option<Memories>,
}

impl Product {
    /// The product of the rules, over the readings with the first so many numbers. Beside a reading
    /// may stand an earlier one that is likely to be of its kind in each rule, which saves a look-up.
    pub fn of(alloc: Global, parts: &[Part<'_>], count: usize, likes: &[u32]) -> Mem<Product>
        requires { All (λ part. count ≤ length part.of) parts.now }
        ensures { IfOk result (IsProductOf parts.now) }
    {
        let mut kinds = IndexSet::new(alloc);
        let mut of = Vec::with_capacity(alloc, count)?;
        for reading in 0..count {
            let like = kind_like(parts, of.as_slice(), likes.get(reading), reading);
            let number = number_at(alloc, parts, &mut kinds, like, reading)?;
            of.push(number)?;
        }
        Ok(Product { of, memories: None })
    }

    /// Takes out what is remembered, and nothing where it has become too much.
    fn take_memories(&mut self, alloc: Global, count: usize) -> Mem<Memories>
        ensures of { self.new.of ≡ self.old.of }
        ensures kept { (parts : List RulePart) → IsProductOf parts self.old →
            IsProductOf parts self.new }
        ensures right { IfOk result (λ memories. (parts : List RulePart) → length parts ≡ count →
            IsProductOf parts self.old → AreRemembered parts self.old.of.items memories) }
    {
        match self.memories.take() {
            Some(memories) => kept_or_new(alloc, memories, count),
            None => Memories::new(alloc, count),
        }
    }
}

/// The automaton of the lists that satisfy each rule, as `keep_satisfying` gives it for one. Nothing
/// where the pass takes too many steps, or more memory than there is.
pub fn keep_satisfying_each(
    alloc: Global,
    product: &mut Product,
    parts: &[Part<'_>],
    links: &[Link],
    last: usize,
) -> Option<Option<Automaton>>
    requires some { 0 < last }
    requires ascending { IsAscending last links.now }
    requires product { IsProductOf parts.now product.old }
    ensures left { IfSome result (λ kept. IfSome kept (λ left.
        IsLeft (SatisfiesParts parts.now) last links.now left.last left.links.items)) }
    ensures nothing { IfSome result (λ kept. IfNone kept ((readings : List ℕ) →
        Spells links.now 0 last readings → SatisfiesParts parts.now readings → ⊥)) }
    ensures product { IsProductOf parts.now product.new }
{
    let Ok(memories) = product.take_memories(alloc, parts.len()) else {
        return None;
    };
    let Ok(kept) = keep_each(alloc, parts, product.of.as_slice(), memories, links, last) else {
        return None;
    };
    let (answer, memories) = kept;
    product.memories = Some(memories);
    Some(answer)
}

/// The automaton of the lists that satisfy each rule, and what is remembered then. Gives up as for
/// want of memory where the pass takes too many steps.
fn keep_each(
    alloc: Global,
    parts: &[Part<'_>],
    of: &[usize],
    memories: Memories,
    links: &[Link],
    last: usize,
) -> Mem<(Option<Automaton>, Memories)>
    requires some { 0 < last }
    requires ascending { IsAscending last links.now }
    requires right { AreRemembered parts.now of.now memories }
    requires kinds { AreSameKinds parts.now of.now }
    ensures left { IfOk result (λ kept. IfSome kept.0 (λ left.
        IsLeft (SatisfiesParts parts.now) last links.now left.last left.links.items)) }
    ensures nothing { IfOk result (λ kept. IfNone kept.0 ((readings : List ℕ) →
        Spells links.now 0 last readings → SatisfiesParts parts.now readings → ⊥)) }
    ensures right { IfOk result (λ kept. AreRemembered parts.now of.now kept.1) }
{
    let mut beside = Beside {
        parts,
        of,
        memories,
        left: most_steps(links.len()),
    };
    let answer = apply(alloc, &mut beside, links, last)?;
    let Beside { memories, .. } = beside;
    Ok((answer, memories))
}

/// How many steps a pass over so many links may take.
fn most_steps(links: usize) -> usize {
    links
        .saturating_mul(MOST_STEPS_A_LINK)
        .saturating_add(MOST_STEPS)
}

/// The rules' monitors, side by side, and how many steps are left to them.
#[derive(Drop)]
struct Beside<'a> {
    parts: &'a [Part<'a>],
    of: &'a [usize],
    memories: Memories,
    left: usize,
}

impl<'a> Model for Beside<'a> {
    ghost use Rattle.ux_monitor.specs.Parts.{AreRemembered, AreSameKinds, Joined, seen_in};

    ghost Value = { Joined };

    ghost view = { λ side. record {
      parts = side.parts.now;
      of = side.of.now;
      seen = seen_in side.memories.each.items;
      states = side.memories.states.keys;
    } };

    ghost invariant = { λ side. AreSameKinds side.parts.now side.of.now
        × AreRemembered side.parts.now side.of.now side.memories };
}

impl<'a> Machine for Beside<'a> {
    ghost stands = { StandsJointly };

    ghost satisfies = { λ side. SatisfiesParts side.parts };

    fn begin(&mut self, alloc: Global) -> Mem<usize> {
        let state = self.memories.begin(alloc, self.parts)?;
        Ok(state)
    }

    fn step(&mut self, alloc: Global, state: usize, reading: u32) -> Mem<usize> {
        let Some(left) = self.left.checked_sub(1) else {
            return Err(NoMemory);
        };
        self.left = left;
        let next = self
            .memories
            .step(alloc, self.parts, self.of, state, reading)?;
        Ok(next)
    }

    fn accepts(&self, state: usize) -> bool {
        self.memories.accepts(state)
    }
}

/// What is remembered, and nothing where it has become too much.
fn kept_or_new(alloc: Global, memories: Memories, count: usize) -> Mem<Memories>
    ensures { IfOk result (λ now. (parts : List RulePart) (of : List ℕ) → length parts ≡ count →
        AreRemembered parts of memories → AreRemembered parts of now) }
{
    if memories.is_full() {
        return Memories::new(alloc, count);
    }
    Ok(memories)
}

/// The number of the kind of the reading: this one, if it is known, or the one that it has or gets.
fn number_at(
    alloc: Global,
    parts: &[Part<'_>],
    kinds: &mut IndexSet<Vec<usize>>,
    known: Option<usize>,
    reading: usize,
) -> Mem<usize>
    requires { IfSome known (λ number.
        IsKindAt kinds.old.keys number (map (λ part. get_or part.of reading 0) parts.now)) }
    ensures kept { (number : ℕ) (tests : List ℕ) → IsKindAt kinds.old.keys number tests →
        IsKindAt kinds.new.keys number tests }
    ensures number { IfOk result (λ number.
        IsKindAt kinds.new.keys number (map (λ part. get_or part.of reading 0) parts.now)) }
{
    if let Some(number) = known {
        return Ok(number);
    }
    let kind = kinds_in(alloc, parts, reading)?;
    number_of(kinds, kind)
}

/// The number of the kind of the reading, if it is that of the reading that is likely to be like it.
fn kind_like(parts: &[Part<'_>], of: &[usize], like: Option<&u32>, reading: usize) -> Option<usize>
    ensures { IfSome result (λ number. (other : ℕ) × (slice_get of.now other ≡ Some number)
        × All (λ part. get_or part.of other 0 ≡ get_or part.of reading 0) parts.now) }
{
    let like = *like? as usize;
    let number = *of.get(like)?;
    if are_alike(parts, like, reading) {
        return Some(number);
    }
    None
}

/// Whether the two readings are of one kind in each rule.
fn are_alike(parts: &[Part<'_>], one: usize, other: usize) -> bool
    ensures { IsTrue result ↔ All (λ part. get_or part.of one 0 ≡ get_or part.of other 0) parts.now }
{
    parts.iter().all(|part| part.kind(one) == part.kind(other))
}

/// The kind of the reading in each rule.
fn kinds_in(alloc: Global, parts: &[Part<'_>], reading: usize) -> Mem<Vec<usize>>
    ensures { IfOk result (λ kinds. kinds.items ≡ map (λ part. get_or part.of reading 0) parts.now) }
{
    let mut kinds = Vec::with_capacity(alloc, parts.len())?;
    for part in parts {
        kinds.push(part.kind(reading))?;
    }
    Ok(kinds)
}

/// The number of the kind, which gets one if it has none.
fn number_of(kinds: &mut IndexSet<Vec<usize>>, kind: Vec<usize>) -> Mem<usize>
    ensures kept { (number : ℕ) (tests : List ℕ) → IsKindAt kinds.old.keys number tests →
        IsKindAt kinds.new.keys number tests }
    ensures number { IfOk result (λ number. IsKindAt kinds.new.keys number kind.items) }
{
    let (number, _is_new) = kinds.insert_full(kind)?;
    Ok(number)
}
