//! Places in an automaton.

ghost use Rattle.std.specs.Prelude.{◌≡◌, ◌↔◌, ◌<◌, ◌⊎◌, ◌∷◌, ℕ, List, [], Contains, IsTrue, IfOk, OnOk, length, get_or, true};
ghost use Rattle.ux_alphabet.specs.Letters.{Letters};
ghost use Rattle.ux_dawg.specs.Building.{bare};
ghost use Rattle.ux_dawg.specs.Paths.{IsAlive, MakeAutomaton};
ghost use Rattle.ux_image_lists.specs.Sizes.{forms_of};
ghost use Rattle.ux_image_look_ups.specs.Steps.{EndsBy, GoesFrom, IsTaken};
ghost use Rattle.ux_image_look_ups.specs.Ways.{HaveForms, LeadsBy, MayBegin};

use crate::steps::{Taken, push_all, stepped};
use std::alloc::Global;
use std::marker::Model;
use ux_base::Mem;
use ux_dawg::States;

/// The states to which a text leads, seen as the list of their numbers. Mostly there is one, and then
/// it takes no memory.
#[derive(Drop)]
pub struct Place {
    first: Option<usize>,
    others: Vec<usize>,
}

impl Model for Place {
    ghost use Rattle.std.specs.Prelude.{List, ℕ};
    ghost use Rattle.ux_image_look_ups.specs.Places.{numbers_in};

    ghost Value = { List ℕ };

    ghost view = { λ place. numbers_in place.first place.others.items };
}

/// The place of the empty text: the root, where there is a form.
pub fn begin(alloc: Global, states: &States) -> Mem<Place>
    requires automaton { MakeAutomaton states.now }
    requires forms { HaveForms states.now }
    ensures { IfOk result (λ place. (alphabet : Letters) → LeadsBy states.now alphabet [] place) }
{
    let root = states.len() - 1;
    if is_alive(states, root) {
        return Ok(Place::of(alloc, root));
    }
    Ok(Place::none(alloc))
}

/// Whether a form ends in the state of this number, or an edge goes on.
fn is_alive(states: &States, number: usize) -> bool
    ensures { IsTrue result ↔ IsAlive (get_or states.now number bare) }
{
    match states.code(number) {
        Some(_) => true,
        None => has_some(states.edges(number)),
    }
}

/// Whether some form goes on from the place of a text.
pub fn may_go_on(states: &States, place: &Place) -> bool
    requires automaton { MakeAutomaton states.now }
    requires forms { HaveForms states.now }
    ensures { (alphabet : Letters) (text : List ℕ) → LeadsBy states.now alphabet text place.now →
        (IsTrue result ↔ MayBegin alphabet text (forms_of states.now)) }
{
    let _states = states;
    place.has_state()
}

/// Whether the list has an item.
fn has_some<T>(items: &[T]) -> bool
    ensures { IsTrue result ↔ (0 < length items.now) }
{
    !items.is_empty()
}

impl Place {
    /// No state. Takes no memory.
    pub(crate) fn none(alloc: Global) -> Place
        ensures { result ≡ [] }
    {
        Place {
            first: None,
            others: Vec::new(alloc),
        }
    }

    /// One state. Takes no memory.
    pub(crate) fn of(alloc: Global, state: usize) -> Place
        ensures { result ≡ state ∷ [] }
    {
        Place {
            first: Some(state),
            others: Vec::new(alloc),
        }
    }

    /// The same states.
    pub(crate) fn copy(&self, alloc: Global) -> Mem<Place>
        ensures { IfOk result (λ copy. copy ≡ self.now) }
    {
        Ok(Place {
            first: self.first,
            others: Vec::from_slice(alloc, &self.others)?,
        })
    }

    /// Whether there is a state.
    pub(crate) fn has_state(&self) -> bool
        ensures { IsTrue result ↔ (0 < length self.now) }
    {
        self.first.is_some() || has_some(&self.others)
    }

    /// The list of the states.
    pub(crate) fn list(&self, alloc: Global) -> Mem<Vec<usize>>
        ensures { IfOk result (λ list. list.items ≡ self.now) }
    {
        let mut list = Vec::new(alloc);
        if let Some(state) = self.first {
            list.push(state)?;
        }
        list.extend_from_slice(&self.others)?;
        Ok(list)
    }

    /// Adds the state, which may be there.
    pub(crate) fn put(&mut self, state: usize) -> Mem<()>
        ensures { OnOk result ((s : ℕ) →
            Contains self.new s ↔ (Contains self.old s ⊎ (s ≡ state))) }
    {
        match self.first {
            None => self.first = Some(state),
            Some(first) => {
                if first != state {
                    self.others.push(state)?;
                }
            }
        }
        Ok(())
    }

    /// The place to which the character leads from these states. Takes memory where there are several.
    pub(crate) fn next(&self, alloc: Global, states: &States, taken: &Taken<'_>) -> Mem<Place>
        requires automaton { MakeAutomaton states.now }
        requires taken { IsTaken taken.now }
        ensures { IfOk result (λ next. (t : ℕ) → Contains next t
            ↔ GoesFrom states.now taken.now.alphabet.now taken.now.c self.now t) }
    {
        if taken.alone && self.others.is_empty() {
            return Ok(Place {
                first: stepped(states, self.first, taken),
                others: Vec::new(alloc),
            });
        }
        let mut next = Place::none(alloc);
        push_all(states, self.first.as_slice(), taken, &mut next)?;
        push_all(states, &self.others, taken, &mut next)?;
        next.settle();
        Ok(next)
    }

    /// The number of the list of a state of the place, if a form ends in one.
    pub(crate) fn code(&self, states: &States) -> Option<u32>
        ensures { EndsBy states.now self.now result }
    {
        match first_code(states, self.first.as_slice()) {
            Some(code) => Some(code),
            None => first_code(states, &self.others),
        }
    }

    /// Leaves each state once.
    pub(crate) fn settle(&mut self)
        ensures { (s : ℕ) → Contains self.new s ↔ Contains self.old s }
    {
        if self.others.len() > 1 {
            each_once(&mut self.others);
        }
    }
}

/// The number of the list of the first of these states in which a form ends.
fn first_code(states: &States, numbers: &[usize]) -> Option<u32>
    ensures { EndsBy states.now numbers.now result }
{
    for number in numbers {
        if let Some(code) = states.code(*number) {
            return Some(code);
        }
    }
    None
}

/// Puts the items in order, and leaves each once.
fn each_once<T: Ord + Drop>(items: &mut Vec<T>)
    requires { (a b : T) → T.eq a b ≡ true → a ≡ b }
    ensures { (item : T) → Contains items.new.items item ↔ Contains items.old.items item }
{
    items.sort_unstable();
    items.dedup();
}
