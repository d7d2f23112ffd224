//! The automaton, and the steps through it.

ghost use Rattle.std.specs.Prelude.{◌≡◌, ℕ, ◌+◌, ◌<◌, ◌↔◌, List, [], IfOk, Some, Contains, get_or, length};
ghost use Rattle.ux_dawg.specs.declared.state.Edge.{Edge as EdgeRecord};
ghost use Rattle.ux_dawg.specs.declared.state.Form.{Form};
ghost use Rattle.ux_dawg.specs.Building.{bare};
ghost use Rattle.ux_dawg.specs.Forms.{form_of};
ghost use Rattle.ux_dawg.specs.Automaton.{IsMinimalOf};
ghost use Rattle.ux_dawg.specs.Paths.{Accepts, AreStates, IsEdge, IsPath, IsStep, MakeAutomaton};

use crate::state::{Edge, State};
use crate::states::States;
use std::alloc::Global;
use std::marker::Model;
use ux_base::Mem;

/// An acyclic automaton. Contracts see it as the list of its states, of which the last is the root.
#[derive(Drop)]
pub struct Dawg {
    states: States,
}

impl Model for Dawg {
    ghost use Rattle.std.specs.Prelude.{◌<◌, List, length};
    ghost use Rattle.ux_dawg.specs.declared.state.State.{State};
    ghost use Rattle.ux_dawg.specs.Paths.{AreStates};

    ghost Value = { List State };

    ghost view = { λ d. d.states };

    ghost invariant = { λ d. AreStates d.states × (0 < length d.states) };
}

impl Dawg {
    /// The automaton of exactly these states, also of equal ones; the last one is the root.
    /// `are_states` tells what it asks.
    pub fn of_states(alloc: Global, states: &[State]) -> Mem<Dawg>
        requires { MakeAutomaton states.now }
        ensures { IfOk result (λ automaton. automaton ≡ states.now) }
    {
        let mut all = States::new(alloc);
        for state in states {
            all.push(state.code, state.edges.as_slice())?;
        }
        Ok(Dawg::of(all))
    }

    /// The automaton of these states.
    pub(crate) fn of(states: States) -> Dawg
        requires states { AreStates states }
        requires some { 0 < length states }
        ensures { result ≡ states }
    {
        Dawg { states }
    }

    /// The states, which a reader steps through as well.
    pub fn into_states(self) -> States
        ensures { result ≡ self }
    {
        self.states
    }

    /// How many states there are: one at least.
    pub fn len(&self) -> usize
        ensures length { result ≡ length self.now }
        ensures some { 0 < result }
    {
        self.states.len()
    }

    /// The number of the state in which each form begins.
    pub fn root(&self) -> usize
        ensures { length self.now ≡ result + 1 }
    {
        self.states.len() - 1
    }

    /// The number of the form that ends in the state of this number, if one does; none, where there
    /// is no such state. Takes no memory.
    pub fn code(&self, number: usize) -> Option<u32>
        ensures { result ≡ (get_or self.now number bare).code }
    {
        self.states.code(number)
    }

    /// The edges of the state of this number, in ascending order of their characters; none, where
    /// there is no such state. Takes no memory.
    pub fn edges(&self, number: usize) -> &[Edge]
        ensures { result.now ≡ (get_or self.now number bare).edges }
    {
        self.states.edges(number)
    }

    /// The number of the form that ends in the state, if one does. Takes no memory.
    pub fn final_of(&self, number: usize) -> Option<u32>
        ensures { (c : ℕ) → (result ≡ Some c) ↔ IsPath self.now number [] c }
    {
        self.states.code(number)
    }

    /// The edges of a state by their places, in ascending order of their characters. Takes no
    /// memory.
    pub fn edge(&self, number: usize, place: usize) -> Option<Edge>
        ensures edge { (e : EdgeRecord) →
            (result ≡ Some e) ↔ IsEdge self.now number place e }
        ensures order { AreStates self.now }
    {
        match self.states.edges(number).get(place) {
            Some(edge) => Some(*edge),
            None => None,
        }
    }

    /// The number of the form of these characters, if it is one. Halves the edges of each
    /// state on the way, and takes no memory.
    pub fn number_of(&self, letters: &[char]) -> Option<u32>
        ensures path { (c : ℕ) → (result ≡ Some c) ↔ Accepts self.now letters.now c }
        ensures form { (forms : List Form) → IsMinimalOf forms self.now → (c : ℕ) →
            (result ≡ Some c) ↔ Contains forms (form_of letters.now c) }
    {
        let mut state = self.root();
        for letter in letters {
            state = self.step(state, *letter)? as usize;
        }
        self.final_of(state)
    }

    /// The number of the state to which the character leads. Halves the edges of the state, and
    /// takes no memory.
    pub fn step(&self, number: usize, letter: char) -> Option<u32>
        ensures { (t : ℕ) → (result ≡ Some t) ↔ IsStep self.now number letter t }
    {
        self.states.step(number, letter)
    }
}
