//! The depth-first visit of the states, and where it leaves another state than the numbers say.

ghost use Rattle.std.specs.Prelude.{◌≡◌, ◌<◌, ◌≤◌, ◌++◌, ◌∷◌, [], All, IfOk, length, nat_le, position};
ghost use Rattle.ux_dawg.specs.declared.state.Edge.{Edge as EdgeRecord};
ghost use Rattle.ux_dawg.specs.Paths.{AreStates};
ghost use Rattle.ux_image_reader.specs.Fronts.{IsNumberedElse};
ghost use Rattle.ux_image_reader.specs.Reading.{IsFirst};
ghost use Rattle.ux_image_reader.specs.Visit.{edges_at};
ghost use Rattle.ux_image_reader.specs.Visiting.{GoesOn, IsFrame, Leaves};

use std::alloc::Global;
use ux_base::Mem;
use ux_dawg::{Edge, States};

/// A state that was entered and not left.
#[derive(Clone, Copy)]
struct Frame {
    /// Its number.
    state: usize,
    /// How many of its edges were taken.
    place: usize,
}

/// The first number at which the visit leaves another state, or none. While states are left in the
/// order of their numbers, those that were left are those below the next number. The time is linear
/// in the edges.
pub(crate) fn first_numbered_else(alloc: Global, states: &States) -> Mem<Option<usize>>
    requires states { AreStates states.now }
    requires some { 0 < length states.now }
    ensures { IfOk result (IsFirst (IsNumberedElse states.now)) }
{
    let mut stack = Vec::new(alloc);
    stack.push(Frame {
        state: states.len() - 1,
        place: 0,
    })?;
    for number in 0..states.len() {
        let Some(frame) = stack.pop() else {
            return Ok(Some(number));
        };
        if leave_next(states, number, frame, &mut stack)? != number {
            return Ok(Some(number));
        }
    }
    Ok(None)
}

/// Goes on from the frame, and down as far as edges lead to states that weren't left. Gives the state
/// that is left then.
fn leave_next(states: &States, left: usize, frame: Frame, stack: &mut Vec<Frame>) -> Mem<usize>
    requires states { AreStates states.now }
    requires frame { IsFrame states.now frame }
    requires stack { All (IsFrame states.now) stack.old.items }
    ensures { IfOk result (Leaves states.now left (stack.old.items ++ frame ∷ []) stack.new.items) }
{
    let mut frame = frame;
    while let Some((behind, below)) = next_edge(states, left, frame) {
        stack.push(behind)?;
        frame = below;
    }
    Ok(frame.state)
}

/// The frame behind its next edge to a state that wasn't left, and the frame of that state.
fn next_edge(states: &States, left: usize, frame: Frame) -> Option<(Frame, Frame)>
    requires states { AreStates states.now }
    requires frame { IsFrame states.now frame }
    ensures { GoesOn states.now left frame result }
{
    let edges = edges_at(states, frame.state);
    let skipped = first_above(&edges[frame.place..], left)?;
    let place = frame.place + skipped;
    let behind = Frame {
        state: frame.state,
        place: place + 1,
    };
    let below = Frame {
        state: edges[place].target as usize,
        place: 0,
    };
    Some((behind, below))
}

/// The edges of the state of this number.
fn edges_at(states: &States, number: usize) -> &[Edge]
    ensures { result.now ≡ edges_at states.now number }
{
    states.edges(number)
}

/// The place of the first edge to a state that wasn't left.
fn first_above(edges: &[Edge], left: usize) -> Option<usize>
    ensures { result ≡ position (λ (e : EdgeRecord). nat_le left e.target) edges.now }
{
    edges.iter().position(|edge| edge.target as usize >= left)
}
