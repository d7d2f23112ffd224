//! What several monitors saw at once, and what is remembered of it.
//!
//! A joint state is the numbers of what the rules' monitors saw. It has a number of its own, and a
//! row: for each kind of readings the number of the joint state that follows, once it is known.

ghost use Rattle.std.specs.Prelude.{◌≡◌, ◌⊎◌, ◌↔◌, ◌<◌, ℕ, List, Contains, IfOk, IfSome, IsTrue, OnOk, Some, length, slice_get};
ghost use Rattle.std.specs.List.{AllZip};
ghost use Rattle.ux_monitor.specs.declared.watching.Seen.{Seen as TheSeen};
ghost use Rattle.ux_monitor.specs.declared.joint.Joint.{Joint as TheJoint};
ghost use Rattle.ux_monitor.specs.Remembering.{IsAt};
ghost use Rattle.ux_monitor.specs.Parts.{AreAllAt, AreGrown, AreKnown, AreRemembered, AreSameKinds, AreStill, Begins, Follows, IsJoint, IsJointAt, IsJointStep, IsPlace, IsRememberedOf, RulePart, number_at, seen_in, states_at};

use crate::memory::Memory;
use crate::part::Part;
use indexmap::IndexSet;
use std::alloc::Global;
use ux_base::Mem;

/// So many joint states have rows.
pub(crate) const MOST_STATES: usize = 4_096;

/// So many kinds of readings have places in a row.
const MOST_KINDS: usize = 256;

/// What several monitors saw, by numbers, and whether each of them accepts.
#[derive(PartialEq, Eq, Hash, Drop)]
pub struct Joint {
    pub is_accepted: bool,
    pub seen: Vec<usize>,
}

/// What is remembered of several rules.
#[derive(Drop)]
pub struct Memories {
    /// What each rule's monitor remembers.
    pub each: Vec<Memory>,
    pub states: IndexSet<Joint>,
    /// The rows of the joint states, one behind the other.
    pub rows: Vec<Option<u32>>,
}

impl Memories {
    /// Nothing is remembered of so many rules.
    pub fn new(alloc: Global, count: usize) -> Mem<Memories>
        ensures { IfOk result (λ memories. (parts : List RulePart) (of : List ℕ) →
            length parts ≡ count → AreRemembered parts of memories) }
    {
        let mut each = Vec::with_capacity(alloc, count)?;
        for rule in 0..count {
            each.push(Memory::new(alloc))?;
        }
        Ok(Memories {
            each,
            states: IndexSet::new(alloc),
            rows: Vec::new(alloc),
        })
    }

    /// Whether more is remembered than is kept from one automaton to the next.
    pub fn is_full(&self) -> bool {
        self.states.len() > MOST_STATES || self.each.iter().any(|memory| memory.is_full())
    }

    /// The number of the joint state before any reading.
    pub fn begin(&mut self, alloc: Global, parts: &[Part<'_>]) -> Mem<usize>
        requires { AllZip IsRememberedOf parts.now self.old.each.items }
        ensures right { (of : List ℕ) → AreRemembered parts.now of self.old →
            AreRemembered parts.now of self.new }
        ensures kept { OnOk result (AreGrown self.old self.new) }
        ensures begun { IfOk result (λ number. (joint : TheJoint)
            × IsJointAt self.new.states.keys number joint
            × AreAllAt (seen_in self.new.each.items) joint.seen.items (Begins parts.now)) }
    {
        let seen = see_first(alloc, parts, &mut self.each)?;
        number_joint(self.each.as_slice(), &mut self.states, seen)
    }

    /// The number of the joint state after one more reading.
    pub fn step(
        &mut self,
        alloc: Global,
        parts: &[Part<'_>],
        of: &[usize],
        state: usize,
        reading: u32,
    ) -> Mem<usize>
        requires right { AreRemembered parts.now of.now self.old }
        requires kinds { AreSameKinds parts.now of.now }
        ensures right { AreRemembered parts.now of.now self.new }
        ensures kept { OnOk result (AreGrown self.old self.new) }
        ensures stepped { IfOk result (λ number. (joint : TheJoint) →
            IsJointAt self.old.states.keys state joint →
            IsJointStep parts.now (seen_in self.new.each.items) self.new.states.keys reading joint
            number) }
    {
        let place = row_place(of, state, reading);
        if let Some(next) = remembered(self.rows.as_slice(), place) {
            return Ok(next);
        }
        let Some(joint) = self.states.get_index(state) else {
            return Ok(0);
        };
        let seen = see_next(alloc, parts, &mut self.each, joint.seen.as_slice(), reading)?;
        let next = number_joint(self.each.as_slice(), &mut self.states, seen)?;
        remember(&mut self.rows, place, next)?;
        Ok(next)
    }

    /// Whether the lists that lead to the joint state satisfy each rule.
    pub fn accepts(&self, state: usize) -> bool
        ensures { (joint : TheJoint) → IsJointAt self.now.states.keys state joint →
            IsTrue result ↔ IsTrue joint.is_accepted }
    {
        match self.states.get_index(state) {
            Some(joint) => joint.is_accepted,
            None => false,
        }
    }
}

/// The number of the joint state in which this was seen.
fn number_joint(memories: &[Memory], states: &mut IndexSet<Joint>, seen: Vec<usize>) -> Mem<usize>
    requires { AreKnown (seen_in memories.now) seen.items }
    ensures kept { (number : ℕ) (joint : TheJoint) → IsJointAt states.old.keys number joint →
        IsJointAt states.new.keys number joint }
    ensures only { (joint : TheJoint) → Contains states.new.keys joint →
        Contains states.old.keys joint ⊎ IsJoint (seen_in memories.now) joint }
    ensures placed { IfOk result (λ number. (joint : TheJoint)
        × IsJointAt states.new.keys number joint × (joint.seen.items ≡ seen.items)) }
{
    let is_accepted = each_accepts(memories, seen.as_slice());
    number_of(states, Joint { is_accepted, seen })
}

/// The number of the joint state: that of an equal one, or the next.
fn number_of(states: &mut IndexSet<Joint>, joint: Joint) -> Mem<usize>
    ensures same { IfOk result (λ number. (other : TheJoint) × IsJointAt states.new.keys number other
        × (other.seen.items ≡ joint.seen.items)) }
    ensures kept { (number : ℕ) (other : TheJoint) → IsJointAt states.old.keys number other →
        IsJointAt states.new.keys number other }
    ensures only { (other : TheJoint) → Contains states.new.keys other →
        Contains states.old.keys other ⊎ (other ≡ joint) }
{
    let (number, _is_new) = states.insert_full(joint)?;
    Ok(number)
}

/// What each rule's monitor sees before any reading.
fn see_first(alloc: Global, parts: &[Part<'_>], each: &mut Vec<Memory>) -> Mem<Vec<usize>>
    requires { AllZip IsRememberedOf parts.now each.old.items }
    ensures still { AreStill parts.now each.old.items each.new.items }
    ensures begun { IfOk result (λ seen. AreAllAt (seen_in each.new.items) seen.items
        (Begins parts.now)) }
{
    first_seen(alloc, parts, each.as_mut_slice())
}

/// What each rule's monitor sees after one more reading.
fn see_next(
    alloc: Global,
    parts: &[Part<'_>],
    each: &mut Vec<Memory>,
    seen: &[usize],
    reading: u32,
) -> Mem<Vec<usize>>
    requires right { AllZip IsRememberedOf parts.now each.old.items }
    requires known { AreKnown (seen_in each.old.items) seen.now }
    ensures still { AreStill parts.now each.old.items each.new.items }
    ensures next { IfOk result (λ next. AreAllAt (seen_in each.new.items) next.items
        (Follows parts.now (seen_in each.old.items) seen.now reading)) }
{
    next_seen(alloc, parts, each.as_mut_slice(), seen, reading)
}

/// What each rule's monitor sees before any reading.
fn first_seen(alloc: Global, parts: &[Part<'_>], memories: &mut [Memory]) -> Mem<Vec<usize>>
    requires { AllZip IsRememberedOf parts.now memories.old }
    ensures still { AreStill parts.now memories.old memories.new }
    ensures begun { IfOk result (λ seen. AreAllAt (seen_in memories.new) seen.items
        (Begins parts.now)) }
{
    let mut seen = Vec::with_capacity(alloc, parts.len())?;
    for index in 0..parts.len() {
        let number = parts[index].begin(alloc, &mut memories[index])?;
        seen.push(number)?;
    }
    Ok(seen)
}

/// What each rule's monitor sees after one more reading.
fn next_seen(
    alloc: Global,
    parts: &[Part<'_>],
    memories: &mut [Memory],
    seen: &[usize],
    reading: u32,
) -> Mem<Vec<usize>>
    requires right { AllZip IsRememberedOf parts.now memories.old }
    requires known { AreKnown (seen_in memories.old) seen.now }
    ensures still { AreStill parts.now memories.old memories.new }
    ensures next { IfOk result (λ next. AreAllAt (seen_in memories.new) next.items
        (Follows parts.now (seen_in memories.old) seen.now reading)) }
{
    let mut next = Vec::with_capacity(alloc, parts.len())?;
    for index in 0..parts.len() {
        let number = parts[index].step(alloc, &mut memories[index], seen[index], reading)?;
        next.push(number)?;
    }
    Ok(next)
}

/// Whether each rule's monitor accepts.
fn each_accepts(memories: &[Memory], seen: &[usize]) -> bool
    requires { AreKnown (seen_in memories.now) seen.now }
    ensures { IsTrue result ↔ ((index : ℕ) (one : TheSeen) → index < length (seen_in memories.now) →
        IsAt (states_at (seen_in memories.now) index) (number_at seen.now index) one →
        IsTrue one.is_accepted) }
{
    let mut all = true;
    for index in 0..memories.len() {
        all = are_both(all, memories[index].accepts(seen[index]));
    }
    all
}

/// Whether both are so.
fn are_both(one: bool, other: bool) -> bool
    ensures { IsTrue result ↔ (IsTrue one × IsTrue other) }
{
    one && other
}

/// The place of the reading's kind in the row of the joint state, if there is one.
fn row_place(of: &[usize], state: usize, reading: u32) -> Option<usize>
    ensures { IfSome result (λ place. (kind : ℕ) × (slice_get of.now reading ≡ Some kind)
        × IsPlace state kind place) }
{
    let kind = *of.get(reading as usize)?;
    if state < MOST_STATES && kind < MOST_KINDS {
        return Some(state * MOST_KINDS + kind);
    }
    None
}

/// The number that is remembered at the place.
fn remembered(rows: &[Option<u32>], place: Option<usize>) -> Option<usize>
    ensures { IfSome result (λ next. (here : ℕ) × (place ≡ Some here)
        × (slice_get rows.now here ≡ Some (Some next))) }
{
    let next = (*rows.get(place?)?)?;
    Some(next as usize)
}

/// Remembers the number at the place, where there is one and the number has a row.
fn remember(rows: &mut Vec<Option<u32>>, place: Option<usize>, next: usize) -> Mem<()>
    ensures { (here number : ℕ) → slice_get rows.new.items here ≡ Some (Some number) →
        (slice_get rows.old.items here ≡ Some (Some number))
        ⊎ ((place ≡ Some here) × (number ≡ next)) }
{
    let Some(place) = place else {
        return Ok(());
    };
    if next >= MOST_STATES {
        return Ok(());
    }
    pad(rows, place)?;
    rows[place] = Some(next as u32);
    Ok(())
}

/// Makes the place one of the rows' places, at which nothing is remembered yet.
fn pad(rows: &mut Vec<Option<u32>>, place: usize) -> Mem<()>
    ensures long { OnOk result (place < length rows.new.items) }
    ensures kept { (here number : ℕ) → slice_get rows.new.items here ≡ Some (Some number) →
        slice_get rows.old.items here ≡ Some (Some number) }
{
    for index in rows.len()..place.saturating_add(1) {
        rows.push(None)?;
    }
    Ok(())
}
