//! The walk through an automaton that lists its forms.

ghost use Rattle.std.specs.Prelude.{◌≡◌, ◌<◌, ◌++◌, ◌∷◌, [], IfOk, MatchOption, OnOk, length};
ghost use Rattle.ux_dawg.specs.Paths.{MakeAutomaton};
ghost use Rattle.ux_image_lists.specs.Sizes.{forms_of};
ghost use Rattle.ux_image_content.specs.Walking.{edges_left, Enters, GoesOn, IsNext, IsWay, Lists};

use std::alloc::Global;
use ux_base::{Lst, Mem};
use ux_dawg::{Edge, Form, States};

/// A state that was entered and not left.
#[derive(Clone, Copy)]
pub(crate) struct Frame {
    /// Its number.
    state: usize,
    /// How many of its edges were taken.
    place: usize,
}

/// A walk from the root on, along edges in ascending order, and back.
#[derive(Drop)]
pub(crate) struct Walk {
    /// The states on the way, from the root down.
    stack: Vec<Frame>,
    /// The letters that lead from each of them to the next.
    letters: Vec<char>,
    /// The forms to which the walk came.
    forms: Vec<Form>,
}

/// The forms of the automaton, in ascending order, each with the number of its list. The time is
/// linear in their letters, where each state leads to a form.
pub(crate) fn list_forms(alloc: Global, states: &States) -> Mem<Vec<Form>>
    requires { MakeAutomaton states.now }
    ensures { IfOk result (λ forms. forms.items ≡ forms_of states.now) }
{
    let mut walk = Walk {
        stack: Vec::new(alloc),
        letters: Vec::new(alloc),
        forms: Vec::new(alloc),
    };
    walk.run(alloc, states)?;
    let Walk { forms, .. } = walk;
    Ok(forms)
}

/// The next edge of a state on the way, and the state with one more edge taken.
fn next_edge(states: &States, frame: Frame) -> Option<(Edge, Frame)>
    requires automaton { MakeAutomaton states.now }
    requires within { frame.state < length states.now }
    ensures { MatchOption result (edges_left states.now frame ≡ [])
        (λ (edge, past). IsNext states.now frame edge past) }
{
    let edges = states.edges(frame.state);
    if frame.place >= edges.len() {
        return None;
    }
    let edge = edges[frame.place];
    let past = Frame {
        state: frame.state,
        place: frame.place + 1,
    };
    Some((edge, past))
}

impl Walk {
    /// Walks from the root through all states.
    fn run(&mut self, alloc: Global, states: &States) -> Mem<()>
        requires automaton { MakeAutomaton states.now }
        requires stack { self.old.stack.items ≡ [] }
        requires letters { self.old.letters.items ≡ [] }
        ensures { OnOk result (self.new.forms.items ≡ self.old.forms.items ++ forms_of states.now) }
    {
        self.enter(alloc, states, states.len() - 1)?;
        while let Some(frame) = self.stack.pop() {
            self.go_on(alloc, states, frame)?;
        }
        Ok(())
    }

    /// Goes on from a state by its next edge, or goes back where none is left.
    fn go_on(&mut self, alloc: Global, states: &States, frame: Frame) -> Mem<()>
        requires automaton { MakeAutomaton states.now }
        requires way { IsWay states.now (self.old.stack.items ++ frame ∷ []) self.old.letters.items }
        ensures { OnOk result (GoesOn states.now frame self.old self.new) }
    {
        match next_edge(states, frame) {
            Some((edge, past)) => {
                self.stack.push(past)?;
                self.letters.push(edge.letter)?;
                self.enter(alloc, states, edge.target as usize)
            }
            None => {
                self.letters.pop();
                Ok(())
            }
        }
    }

    /// Enters the state of this number, to which the letters lead.
    fn enter(&mut self, alloc: Global, states: &States, number: usize) -> Mem<()>
        requires { number < length states.now }
        ensures { OnOk result (Enters states.now number self.old self.new) }
    {
        self.list(alloc, states.code(number))?;
        self.stack.push(Frame {
            state: number,
            place: 0,
        })?;
        Ok(())
    }

    /// Lists the form of the letters, if the state to which they lead has this number of a list.
    fn list(&mut self, alloc: Global, code: Option<u32>) -> Mem<()>
        ensures { OnOk result (Lists code self.old self.new) }
    {
        if let Some(code) = code {
            let letters = Lst::new(Vec::from_slice(alloc, self.letters.as_slice())?);
            self.forms.push(Form { letters, code })?;
        }
        Ok(())
    }
}
