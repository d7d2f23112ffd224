//! The positions to which a walk came and from which it didn't go on yet, each with its front.
//!
//! Mostly there is one. They stand by position, the least last, so that it is taken and others near it
//! are put there at little cost. A position is found by halving.

ghost use Rattle.std.specs.Prelude.{◌≡◌, ◌⊎◌, ◌↔◌, ◌<◌, ◌++◌, ◌∷◌, [], Contains, IfSome, IsTrue, MatchOption, OnOk};
ghost use Rattle.ux_walker.specs.Agendas.{IsAt, IsFalling, IsFree, IsPlaceOf, Waits, visit_of};

use std::alloc::{AllocError, Global};
use std::marker::Model;

/// A front that waits at a position.
#[derive(Clone, Copy)]
pub struct Visit {
    /// The position.
    pub at: usize,
    /// The front.
    pub front: usize,
}

/// Fronts by position, one at each. Contracts see it as their list.
#[derive(Drop)]
pub struct Agenda {
    visits: Vec<Visit>,
}

impl Model for Agenda {
    ghost use Rattle.std.specs.Prelude.{List};
    ghost use Rattle.ux_walker.specs.declared.agenda.Visit.{Visit};
    ghost use Rattle.ux_walker.specs.Agendas.{IsFalling};

    ghost Value = { List Visit };

    ghost view = { λ a. a.visits.items };

    ghost invariant = { λ a. IsFalling a.visits.items };
}

impl Agenda {
    /// An agenda without a position. Takes no memory.
    pub fn new(alloc: Global) -> Agenda
        ensures { result ≡ [] }
    {
        Agenda {
            visits: Vec::new(alloc),
        }
    }

    /// Removes all positions.
    pub fn clear(&mut self)
        ensures { self.new ≡ [] }
    {
        self.visits.clear();
    }

    /// Takes the least position out.
    pub fn take_least(&mut self) -> Option<Visit>
        ensures taken { MatchOption result (self.old ≡ [])
            (λ visit. self.old ≡ self.new ++ visit ∷ []) }
        ensures least { IfSome result
            (λ visit. (other : Visit) → Contains self.new other → visit.at < other.at) }
    {
        self.visits.pop()
    }

    /// The front that waits at the position. Takes a step for each halving.
    pub fn front_at(&self, at: usize) -> Option<usize>
        ensures { MatchOption result (IsFree self.now at) (Waits self.now at) }
    {
        let place = place_of(&self.visits, at);
        if is_at(&self.visits, place, at) {
            Some(self.visits[place].front)
        } else {
            None
        }
    }

    /// Lets the front wait at the position, in place of another that waits there.
    pub fn set(&mut self, at: usize, front: usize) -> Result<(), AllocError>
        ensures { OnOk result ((visit : Visit) → Contains self.new visit
            ↔ ((visit ≡ visit_of at front) ⊎ (Contains self.old visit × (visit.at ≡ at → ⊥)))) }
    {
        let place = place_of(&self.visits, at);
        if is_at(&self.visits, place, at) {
            self.visits[place] = Visit { at, front };
            Ok(())
        } else {
            self.visits.insert(place, Visit { at, front })?;
            Ok(())
        }
    }
}

/// How many of the visits come after the position.
fn place_of(visits: &[Visit], at: usize) -> usize
    requires { IsFalling visits.now }
    ensures { IsPlaceOf visits.now at result }
{
    visits.partition_point(|visit| at < visit.at)
}

/// Whether the visit at a place is that of the position.
fn is_at(visits: &[Visit], place: usize, at: usize) -> bool
    ensures { IsTrue result ↔ IsAt visits.now place at }
{
    match visits.get(place) {
        Some(visit) => visit.at == at,
        None => false,
    }
}
