//! What `Dawg::of_states` asks of states.

ghost use Rattle.std.specs.Prelude.{◌<◌, ◌↔◌, All, IsTrue};
ghost use Rattle.ux_dawg.specs.declared.state.Edge.{Edge as EdgeRecord};
ghost use Rattle.ux_dawg.specs.Paths.{AreAscending, IsFit, MakeAutomaton};

use crate::state::{Edge, State};

/// Whether the states make an automaton, as `Dawg::of_states` asks it. Looks at each edge twice.
pub fn are_states(states: &[State]) -> bool
    ensures { IsTrue result ↔ MakeAutomaton states.now }
{
    if states.is_empty() || states.len() > u32::MAX as usize {
        return false;
    }
    states
        .iter()
        .enumerate()
        .all(|(number, state)| is_fit(state, number))
}

/// Whether the edges ascend, and lead to numbers that are lower than this.
fn is_fit(state: &State, number: usize) -> bool
    ensures { IsTrue result ↔ IsFit number state.now }
{
    let edges = state.edges.as_slice();
    ascend(edges) && lead_below(edges, number)
}

/// Whether each character is higher than the one before it.
fn ascend(edges: &[Edge]) -> bool
    ensures { IsTrue result ↔ AreAscending edges.now }
{
    edges.is_sorted_by(|edge, next| edge.letter < next.letter)
}

/// Whether the targets are lower than this.
fn lead_below(edges: &[Edge], number: usize) -> bool
    ensures { IsTrue result ↔ All (λ (e : EdgeRecord). e.target < number) edges.now }
{
    edges.iter().all(|edge| (edge.target as usize) < number)
}
