//! How many letters the longest form has.

ghost use Rattle.std.specs.Prelude.{◌≡◌, ◌<◌, ◌≤◌, ℕ, All, IfOk, length, slice_index};
ghost use Rattle.ux_dawg.specs.Paths.{MakeAutomaton};
ghost use Rattle.ux_dawg.specs.declared.state.Edge.{Edge as EdgeRecord};
ghost use Rattle.ux_image_lists.specs.Sizes.{forms_of};
ghost use Rattle.ux_image_look_ups.specs.Longest.{deepest, longest_in, AreLow};
ghost use Rattle.ux_image_look_ups.specs.Ways.{HaveForms};

use std::alloc::Global;
use ux_base::Mem;
use ux_dawg::{Edge, States};

/// How many letters the longest form has, 0 where there is none. The time is linear in the edges.
pub fn longest(alloc: Global, states: &States) -> Mem<usize>
    requires automaton { MakeAutomaton states.now }
    requires forms { HaveForms states.now }
    ensures { IfOk result (λ most. most ≡ longest_in (forms_of states.now)) }
{
    let mut depths = Vec::new(alloc);
    for number in 0..states.len() {
        let depth = depth_behind(states.edges(number), &depths);
        depths.push(depth)?;
    }
    Ok(depths[states.len() - 1])
}

/// How many letters the longest way has that begins with one of the edges, by the depths of the states
/// to which they lead.
fn depth_behind(edges: &[Edge], depths: &[usize]) -> usize
    requires within { All (λ (e : EdgeRecord). e.target < length depths.now) edges.now }
    requires low { AreLow depths.now }
    ensures { result ≡ deepest depths.now edges.now }
{
    let mut most = 0;
    for edge in edges {
        most = most.max(1 + depths[edge.target as usize]);
    }
    most
}
