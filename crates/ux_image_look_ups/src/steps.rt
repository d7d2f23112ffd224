//! Steps from states by a character of a text.

ghost use Rattle.std.specs.Prelude.{◌≡◌, ◌↔◌, ◌⊎◌, ℕ, Contains, IsTrue, OnOk, Some};
ghost use Rattle.ux_alphabet.specs.Letters.{Fits};
ghost use Rattle.ux_dawg.specs.Paths.{MakeAutomaton};
ghost use Rattle.ux_image_look_ups.specs.Steps.{GoesTo, IsTaken, Puts, PutsEdge, StepsTo};

use crate::places::Place;
use ux_alphabet::Alphabet;
use ux_base::Mem;
use ux_dawg::{Edge, States};

/// A character of a text.
#[derive(Drop)]
pub(crate) struct Taken<'a> {
    pub(crate) c: char,
    pub(crate) alphabet: &'a Alphabet,
    /// Whether no other letter fits it.
    pub(crate) alone: bool,
}

impl<'a> Taken<'a> {
    /// The character, which letters of this alphabet fit.
    pub(crate) fn of(c: char, alphabet: &'a Alphabet) -> Taken<'a>
        ensures c { result.c ≡ c }
        ensures alphabet { result.alphabet.now ≡ alphabet.now }
        ensures taken { IsTaken result }
    {
        let alone = alphabet.fits_alone(c);
        Taken { c, alphabet, alone }
    }

    /// Whether the letter of a form fits the character.
    pub(crate) fn fits(&self, letter: char) -> bool
        ensures { IsTrue result ↔ Fits self.now.alphabet.now letter self.now.c }
    {
        self.alphabet.fits(letter, self.c)
    }
}

/// The state to which the character leads from this one, if there are both. No other letter fits it.
pub(crate) fn stepped(states: &States, state: Option<usize>, taken: &Taken<'_>) -> Option<usize>
    requires automaton { MakeAutomaton states.now }
    requires taken { IsTaken taken.now }
    requires alone { IsTrue taken.now.alone }
    ensures { (t : ℕ) → (result ≡ Some t) ↔ StepsTo states.now taken.now state t }
{
    Some(states.step(state?, taken.c)? as usize)
}

/// Adds the states to which the character leads from these. Halves the edges of each, or takes a look at
/// each where another letter fits the character.
pub(crate) fn push_all(
    states: &States,
    from: &[usize],
    taken: &Taken<'_>,
    next: &mut Place,
) -> Mem<()>
    requires automaton { MakeAutomaton states.now }
    requires taken { IsTaken taken.now }
    ensures { OnOk result (Puts states.now taken.now from.now next.old next.new) }
{
    for state in from {
        push_state(states, *state, taken, next)?;
    }
    Ok(())
}

/// Adds the states to which the character leads from this one.
fn push_state(states: &States, state: usize, taken: &Taken<'_>, next: &mut Place) -> Mem<()>
    requires automaton { MakeAutomaton states.now }
    requires taken { IsTaken taken.now }
    ensures { OnOk result ((t : ℕ) → Contains next.new t ↔ (Contains next.old t
        ⊎ GoesTo states.now taken.now.alphabet.now taken.now.c state t)) }
{
    if taken.alone {
        return push_step(states, state, taken, next);
    }
    for edge in states.edges(state) {
        push_edge(*edge, taken, next)?;
    }
    Ok(())
}

/// Adds the state to which the character itself leads, if there is one.
fn push_step(states: &States, state: usize, taken: &Taken<'_>, next: &mut Place) -> Mem<()>
    requires automaton { MakeAutomaton states.now }
    requires taken { IsTaken taken.now }
    requires alone { IsTrue taken.now.alone }
    ensures { OnOk result ((t : ℕ) → Contains next.new t ↔ (Contains next.old t
        ⊎ GoesTo states.now taken.now.alphabet.now taken.now.c state t)) }
{
    if let Some(target) = states.step(state, taken.c) {
        next.put(target as usize)?;
    }
    Ok(())
}

/// Adds the state to which the edge leads, if its letter fits the character.
fn push_edge(edge: Edge, taken: &Taken<'_>, next: &mut Place) -> Mem<()>
    ensures { OnOk result (PutsEdge taken.now edge next.old next.new) }
{
    if taken.fits(edge.letter) {
        next.put(edge.target as usize)?;
    }
    Ok(())
}
