//! The automata of some sentences side by side, their states at positions.
//!
//! Only states that links have get positions, in the order of the sentences and of the states. So a
//! sentence may tell of any number of states, and each arc leads to a later position. All arcs stand
//! in one list, position by position.

ghost use Rattle.std.specs.Prelude.{◌≡◌, ◌↔◌, ◌⊎◌, ◌<◌, All, Contains, IfOk, IsTrue, OnOk, flat_map, length, slice_get, slice_range};
ghost use Rattle.std.specs.List.Sorted.{IsPermutation, IsStrictlySortedBy};
ghost use Rattle.ux_tfst_locate.specs.declared.lattice.Place.{Place as PlaceRecord};
ghost use Rattle.ux_tfst_locate.specs.Lattices.{AreArcs, AreInOrder, AreStarts, HasEnds, IsArcOf, IsAt, IsLattice, IsStarted, ends_of, from_of as from_place, place_cmp, row_at, rows_of, to_of as to_place};

use crate::ranks::{in_order, place_of};
use std::alloc::Global;
use ux_base::Mem;

/// A link of a sentence.
#[derive(Clone, Copy)]
pub struct SentenceLink {
    /// The number of the sentence.
    pub sentence: u32,
    /// The state that the link leaves.
    pub from: u64,
    /// The state to which it leads.
    pub to: u64,
    /// The number of its reading.
    pub reading: u32,
    /// The last state of the sentence.
    pub last: u64,
}

/// A state of a sentence.
#[derive(Clone, Copy, PartialEq, Eq, PartialOrd, Ord)]
pub struct Place {
    /// The number of the sentence.
    pub sentence: u32,
    /// The state.
    pub state: u64,
    /// The last state of the sentence.
    pub last: u64,
}

/// What leads from a position: a reading, to a later position.
#[derive(Clone, Copy)]
pub struct Arc {
    /// The position from which it leads.
    pub from: usize,
    /// The position to which it leads.
    pub to: usize,
    /// The number of the reading.
    pub reading: u32,
}

/// Sentences side by side.
#[derive(Drop)]
pub struct Lattice {
    /// The state at each position.
    pub places: Vec<Place>,
    /// What leads from the positions, in their order.
    pub arcs: Vec<Arc>,
    /// Where the arcs of each position begin, and where those of the last one end.
    pub starts: Vec<usize>,
}

impl Lattice {
    /// The links between the positions of their states. Takes a sort of the states, and two look-ups
    /// a link; of links that come in order, as a written file has them, few are sorted or looked up.
    pub fn of(alloc: Global, links: &[SentenceLink]) -> Mem<Lattice>
        ensures { IfOk result (IsLattice links.now) }
    {
        let places = places_of(alloc, links)?;
        let arcs = arcs_of(alloc, places.as_slice(), links)?;
        let starts = starts_of(alloc, arcs.as_slice())?;
        Ok(Lattice {
            places,
            arcs,
            starts,
        })
    }

    /// What leads from the position, if it is one.
    pub fn row(&self, at: usize) -> &[Arc]
        ensures { result.now ≡ row_at (rows_of self.now) at }
    {
        let Some(from) = self.starts.get(at) else {
            return &[];
        };
        match self.starts.get(at + 1) {
            Some(to) => between(self.arcs.as_slice(), *from, *to),
            None => &[],
        }
    }
}

/// The states of the links, in order, each once.
fn places_of(alloc: Global, links: &[SentenceLink]) -> Mem<Vec<Place>>
    ensures rise { IfOk result (λ places. IsStrictlySortedBy place_cmp places.items) }
    ensures same { IfOk result (λ places. (place : Place) →
        Contains places.items place ↔ Contains (flat_map ends_of links.now) place) }
{
    let mut places = Vec::new(alloc);
    for link in links {
        push_new(&mut places, from_of(link))?;
        push_new(&mut places, to_of(link))?;
    }
    Ok(in_order(places))
}

/// Adds the place, unless it is one of the last two.
fn push_new(places: &mut Vec<Place>, place: Place) -> Mem<()>
    ensures { OnOk result ((other : PlaceRecord) → Contains places.new.items other
        ↔ (Contains places.old.items other ⊎ (other ≡ place))) }
{
    if is_recent(places, &place) {
        return Ok(());
    }
    places.push(place)?;
    Ok(())
}

/// Whether the place is one of the last two.
fn is_recent(places: &[Place], place: &Place) -> bool
    ensures { IsTrue result → Contains places.now place.now }
{
    let last = places.len().wrapping_sub(1);
    if stands_at(places, last, place) {
        return true;
    }
    stands_at(places, last.wrapping_sub(1), place)
}

/// Whether the place stands at the position.
fn stands_at(places: &[Place], at: usize, place: &Place) -> bool
    ensures { IsTrue result → IsAt places.now at place.now }
{
    match place_at(places, at) {
        Some(there) => there == *place,
        None => false,
    }
}

/// The place at the position, if there is one.
fn place_at(places: &[Place], at: usize) -> Option<Place>
    ensures { result ≡ slice_get places.now at }
{
    places.get(at).copied()
}

/// The state that the link leaves.
fn from_of(link: &SentenceLink) -> Place
    ensures { result ≡ from_place link.now }
{
    Place {
        sentence: link.sentence,
        state: link.from,
        last: link.last,
    }
}

/// The state to which the link leads.
fn to_of(link: &SentenceLink) -> Place
    ensures { result ≡ to_place link.now }
{
    Place {
        sentence: link.sentence,
        state: link.to,
        last: link.last,
    }
}

/// The arcs of the links, in the order of the positions from which they lead. The places are those of
/// the links, in order.
fn arcs_of(alloc: Global, places: &[Place], links: &[SentenceLink]) -> Mem<Vec<Arc>>
    requires in_order { IsStrictlySortedBy place_cmp places.now }
    requires there { All (HasEnds places.now) links.now }
    ensures in_order { IfOk result (λ arcs. AreInOrder arcs.items) }
    ensures arcs { IfOk result (λ arcs. AreArcs places.now links.now arcs.items) }
{
    let mut arcs = each_arc(alloc, places, links)?;
    if !are_in_order(&arcs) {
        sort(&mut arcs);
    }
    Ok(arcs)
}

/// Puts the arcs in the order of the positions from which they lead.
fn sort(arcs: &mut Vec<Arc>)
    ensures same { IsPermutation arcs.old.items arcs.new.items }
    ensures in_order { AreInOrder arcs.new.items }
{
    arcs.sort_unstable_by_key(|arc| arc.from);
}

/// The arcs of the links, in the order of the links.
fn each_arc(alloc: Global, places: &[Place], links: &[SentenceLink]) -> Mem<Vec<Arc>>
    requires in_order { IsStrictlySortedBy place_cmp places.now }
    requires there { All (HasEnds places.now) links.now }
    ensures { IfOk result (λ arcs. AreArcs places.now links.now arcs.items) }
{
    let mut arcs = Vec::with_capacity(alloc, links.len())?;
    let mut near = 0;
    for link in links {
        let arc = arc_of(places, link, near);
        near = arc.from;
        arcs.push(arc)?;
    }
    Ok(arcs)
}

/// The arc of the link. The position from which it leads is looked for from one near it on.
fn arc_of(places: &[Place], link: &SentenceLink, near: usize) -> Arc
    requires in_order { IsStrictlySortedBy place_cmp places.now }
    requires there { HasEnds places.now link.now }
    ensures { IsArcOf places.now link.now result.from result }
{
    let from = position_of(places, &from_of(link), near);
    let to = position_of(places, &to_of(link), from);
    Arc {
        from,
        to,
        reading: link.reading,
    }
}

/// Whether the positions from which the arcs lead never fall.
fn are_in_order(arcs: &[Arc]) -> bool
    ensures { IsTrue result → AreInOrder arcs.now }
{
    for place in 1..arcs.len() {
        if arcs[place].from < arcs[place - 1].from {
            return false;
        }
    }
    true
}

/// Where the arcs of each position begin, and where those of the last one end.
fn starts_of(alloc: Global, arcs: &[Arc]) -> Mem<Vec<usize>>
    requires { AreInOrder arcs.now }
    ensures { IfOk result (λ starts. AreStarts arcs.now starts.items) }
{
    let mut starts = Vec::new(alloc);
    for place in 0..arcs.len() {
        push_start(&mut starts, arcs[place].from, place)?;
    }
    starts.push(arcs.len())?;
    Ok(starts)
}

/// Puts the place as the start of each position up to this one that has none yet.
fn push_start(starts: &mut Vec<usize>, position: usize, place: usize) -> Mem<()>
    ensures { OnOk result (IsStarted starts.old.items position place starts.new.items) }
{
    'positions: while starts.len() <= position {
        starts.push(place)?;
    }
    Ok(())
}

/// The arcs from one place up to another one.
fn between(arcs: &[Arc], from: usize, to: usize) -> &[Arc]
    ensures { result.now ≡ slice_range arcs.now from to }
{
    let end = to.min(arcs.len());
    if end < from {
        return &[];
    }
    &arcs[from..end]
}

/// The position of a place, which is there. It may be one near it or the next one; else it is looked
/// up by halving.
fn position_of(places: &[Place], place: &Place, near: usize) -> usize
    requires in_order { IsStrictlySortedBy place_cmp places.now }
    requires there { Contains places.now place.now }
    ensures inside { result < length places.now }
    ensures at { IsAt places.now result place.now }
{
    if stands_at(places, near, place) {
        return near;
    }
    let next = near.wrapping_add(1);
    if stands_at(places, next, place) {
        return next;
    }
    place_of(places, place)
}
