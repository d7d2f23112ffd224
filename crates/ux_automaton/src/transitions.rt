//! Transitions that are kept: to which front a token leads from another.
//!
//! The table has a fixed size. A transition has one place there, and a new one takes it from an
//! older one, which is then worked out again when it is asked for.

ghost use Rattle.std.specs.Prelude.{◌≡◌, ◌⊎◌, ℕ, IfOk, IfSome};
ghost use Rattle.ux_automaton.specs.declared.transitions.Transition.{Transition as TheTransition};
ghost use Rattle.ux_automaton.specs.Caches.{HasValue};
ghost use Rattle.ux_automaton.specs.Kept.{HasTransition};

use crate::slots::value_of;
use std::alloc::Global;
use ux_base::Mem;
use ux_tokens::Kind;

/// By so many places the transitions of neighbouring fronts lie apart, about a golden section of
/// 65,536.
const APART: usize = 40_503;

/// The table has at least so many places, and at most so many: some twenty megabytes.
const LEAST_PLACES: usize = 1_024;

const MOST_PLACES: usize = 524_288;

/// A transition over one token.
#[derive(Clone, Copy)]
pub struct Transition {
    /// The closed front from which it leads.
    pub front: usize,
    /// The number of the token.
    pub number: u32,
    /// The kind of the token.
    pub kind: Kind,
    /// The front to which it leads.
    pub next: usize,
}

/// The transitions that are kept, each at the place of its front and its token's number.
#[derive(Drop)]
pub struct Transitions {
    cells: Vec<Option<Transition>>,
}

impl Transitions {
    /// No transition, with room for those of so many different tokens.
    pub fn new(alloc: Global, different: usize) -> Mem<Transitions>
        ensures { IfOk result (λ transitions. (transition : TheTransition) →
            HasTransition transitions transition → ⊥) }
    {
        let places = room_for(different);
        let mut cells = Vec::with_capacity(alloc, places)?;
        for _ in 0..places {
            cells.push(None)?;
        }
        Ok(Transitions { cells })
    }

    /// The front to which a transition leads, where it is kept.
    pub fn next(&self, front: usize, number: u32, kind: Kind) -> Option<usize>
        ensures { IfSome result (λ next. HasTransition self.now
            (record { front = front; number = number; kind = kind; next = next })) }
    {
        let place = self.place_of(front, number)?;
        let transition = self.at(place)?;
        if transition.front == front && transition.number == number && transition.kind == kind {
            Some(transition.next)
        } else {
            None
        }
    }

    /// Keeps a transition, in place of the one that stands at its place.
    pub fn put(&mut self, transition: Transition)
        ensures { (t : TheTransition) → HasTransition self.new t →
            (t ≡ transition) ⊎ HasTransition self.old t }
    {
        if let Some(place) = self.place_of(transition.front, transition.number) {
            self.set(place, transition);
        }
    }

    /// The place of the transitions from a front over a token.
    fn place_of(&self, front: usize, number: u32) -> Option<usize> {
        let places = self.cells.len();
        if places == 0 {
            return None;
        }
        Some((front % MOST_PLACES * APART + number as usize) % places)
    }

    /// The transition that stands at a place.
    fn at(&self, place: usize) -> Option<Transition>
        ensures { IfSome result (HasValue self.now.cells.items place) }
    {
        value_of(&self.cells, place)
    }

    /// Puts a transition at a place.
    fn set(&mut self, place: usize, transition: Transition)
        ensures { (i : ℕ) (t : TheTransition) → HasValue self.new.cells.items i t →
            (t ≡ transition) ⊎ HasValue self.old.cells.items i t }
    {
        if place < self.cells.len() {
            self.cells[place] = Some(transition);
        }
    }
}

/// How many places serve for so many different tokens: some for each, a power of two.
fn room_for(different: usize) -> usize {
    let mut places = LEAST_PLACES;
    while places < MOST_PLACES && places / 8 < different {
        places *= 2;
    }
    places
}
