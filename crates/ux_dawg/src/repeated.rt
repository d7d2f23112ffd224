//! States that stand twice in a list, which no minimal automaton has.

ghost use Rattle.std.specs.Prelude.{IfOk};
ghost use Rattle.ux_dawg.specs.Repeated.{IsFirstRepeated};

use crate::hash::state_hash;
use crate::index::Index;
use crate::states::States;
use std::alloc::Global;
use ux_base::Mem;

/// The first state that equals an earlier one: the same number of a list and the same edges.
///
/// Takes 16 to 20 bytes a state, and a step for each edge.
pub fn first_repeated(alloc: Global, states: &States) -> Mem<Option<usize>>
    ensures { IfOk result (IsFirstRepeated states.now) }
{
    let mut index = Index::with_room(alloc, states.len())?;
    for number in 0..states.len() {
        let code = states.code(number);
        let edges = states.edges(number);
        let hash = state_hash(code, edges);
        if index.place(states, hash, code, edges).is_some() {
            return Ok(Some(number));
        }
        index.add(hash, number)?;
    }
    Ok(None)
}
